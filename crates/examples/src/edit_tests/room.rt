//! Edits that fit into the buffer to the byte, and ones that are a byte too long.
use super::DONE;
use crate::files::File::{MWith, Raised, Small};
use crate::runs::Call::{Add, Carry, Lengthen, Raise, Replace};
use crate::runs::Step::Do;
use crate::runs::{Put, RUN, Run, take_run};

static ONE_BYTE_TOO_LONG: [Run; 3] = [
    Run {
        // a head of eight bytes and five of data
        name: "blocks that are one byte too long",
        room: 172,
        steps: &[
            Do(Add(Put::Zone(b"EST5")), Some((32, 5, 0, 173))),
            Do(Carry(*b"NEWS", b"12345"), Some((32, 5, 0, 173))),
            Do(Lengthen(2, b"1234567890123"), Some((32, 5, 0, 173))),
        ],
        ..RUN
    },
    Run {
        name: "a text that is one byte too long for a block",
        before: MWith(b"ZONE\0\0\0\x05GMT\0Q"),
        room: 153,
        steps: &[Do(Replace(1, Put::Zone(b"EST5")), Some((32, 5, 0, 154)))],
        after: MWith(b"ZONE\0\0\0\x05GMT\0Q"),
        ..RUN
    },
    Run {
        name: "a header that is one byte too long",
        before: Small,
        room: 135,
        steps: &[Do(Raise(&[1, 2, 3, 4, 5]), Some((32, 5, 0, 136)))],
        after: Small,
        ..RUN
    },
];

static FIT_TO_THE_BYTE: [Run; 5] = [
    Run {
        name: "a text that fits",
        room: 173,
        steps: &[Do(Add(Put::Zone(b"EST5")), DONE)],
        after: MWith(b"FILL\0\0\0\x04\x01\x02\x02\x04XTRA\0\0\0\0ZONE\0\0\0\x05EST5\0"),
        ..RUN
    },
    Run {
        name: "a block that fits",
        room: 173,
        steps: &[Do(Carry(*b"NEWS", b"12345"), DONE)],
        after: MWith(b"FILL\0\0\0\x04\x01\x02\x02\x04XTRA\0\0\0\0NEWS\0\0\0\x0512345"),
        ..RUN
    },
    Run {
        name: "data that fit",
        room: 173,
        steps: &[Do(Lengthen(2, b"1234567890123"), DONE)],
        after: MWith(b"FILL\0\0\0\x04\x01\x02\x02\x04XTRA\0\0\0\x0D1234567890123"),
        ..RUN
    },
    Run {
        name: "a text that fits into a block",
        before: MWith(b"ZONE\0\0\0\x05GMT\0Q"),
        room: 154,
        steps: &[Do(Replace(1, Put::Zone(b"EST5")), DONE)],
        after: MWith(b"ZONE\0\0\0\x06EST5\0Q"),
        ..RUN
    },
    Run {
        name: "a header that fits",
        before: Small,
        room: 136,
        steps: &[Do(Raise(&[1, 2, 3, 4, 5]), DONE)],
        after: Raised,
        ..RUN
    },
];

#[test]
fn room_to_the_byte(rt: HostRuntime) {
    for run in &ONE_BYTE_TOO_LONG {
        take_run(&rt, run);
    }
    for run in &FIT_TO_THE_BYTE {
        take_run(&rt, run);
    }
}
