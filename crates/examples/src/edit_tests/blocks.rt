//! Blocks added, carried, lengthened, replaced and removed: what each edit leaves in the whole
//! buffer.
use super::{DONE, NO_SUCH_BLOCK, OTHER_FILL};
use crate::files::File::MWith;
use crate::questions::Question::{Block, LookFill, LookZone};
use crate::runs::Call::{Add, Carry, Lengthen, Remove, Replace};
use crate::runs::Step::{Ask, Do};
use crate::runs::{Put, RUN, Run, take_run};
use records::Rcvi;

const RCVI: Rcvi = Rcvi {
    receiver: 3,
    antenna: 4,
    gain: 72623859790382856,
};

static ADDED: [Run; 6] = [
    Run {
        name: "a text is added",
        steps: &[Do(Add(Put::Zone(b"EST5")), DONE)],
        after: MWith(b"FILL\0\0\0\x04\x01\x02\x02\x04XTRA\0\0\0\0ZONE\0\0\0\x05EST5\0"),
        ..RUN
    },
    Run {
        // 48 bytes of data, with zeros behind the text
        name: "a record with a text is added, as the first block of all",
        before: MWith(b""),
        steps: &[Do(Add(Put::Rcvi(RCVI, b"Q7")), DONE)],
        after: MWith(
            b"RCVI\0\0\0\x30\0\0\0\x03\0\0\0\x04\x01\x02\x03\x04\x05\x06\x07\x08Q7\
            \0\0\0\0\0\0\0\0\0\0\0\0\0\0\0\0\0\0\0\0\0\0\0\0\0\0\0\0\0\0",
        ),
        ..RUN
    },
    Run {
        name: "a block is carried",
        steps: &[Do(Carry(*b"\0\xFF 1", b"a\0b"), DONE)],
        after: MWith(b"FILL\0\0\0\x04\x01\x02\x02\x04XTRA\0\0\0\0\0\xFF 1\0\0\0\x03a\0b"),
        ..RUN
    },
    Run {
        name: "a known key is carried with data that its kind refuses",
        before: MWith(b"FILL\0\0\0\x04\x01\x02\x02\x04XTRA\0\0\0\0\0\xFF 1\0\0\0\x03a\0b"),
        steps: &[
            Do(Carry(*b"FILL", b""), DONE),
            Ask(LookFill(4), Err((13, 4, 4, 143))),
        ],
        after: MWith(
            b"FILL\0\0\0\x04\x01\x02\x02\x04XTRA\0\0\0\0\0\xFF 1\0\0\0\x03a\0bFILL\0\0\0\0",
        ),
        ..RUN
    },
    Run {
        name: "a block is lengthened, and then by nothing",
        steps: &[Do(Lengthen(1, b"Q"), DONE), Do(Lengthen(1, b""), DONE)],
        after: MWith(b"FILL\0\0\0\x05\x01\x02\x02\x04QXTRA\0\0\0\0"),
        ..RUN
    },
    Run {
        name: "the last block is lengthened, which had no data",
        before: MWith(b"FILL\0\0\0\x05\x01\x02\x02\x04QXTRA\0\0\0\0"),
        steps: &[Do(Lengthen(1, b""), DONE), Do(Lengthen(2, b"xyz"), DONE)],
        after: MWith(b"FILL\0\0\0\x05\x01\x02\x02\x04QXTRA\0\0\0\x03xyz"),
        ..RUN
    },
];

static REPLACED: [Run; 4] = [
    Run {
        name: "a newer writer's byte stays behind a longer text",
        before: MWith(b"ZONE\0\0\0\x05GMT\0QXTRA\0\0\0\x01x"),
        steps: &[
            Do(Replace(1, Put::Zone(b"EST5")), DONE),
            Ask(LookZone(1), Ok(&[112, 4, 5])),
        ],
        after: MWith(b"ZONE\0\0\0\x06EST5\0QXTRA\0\0\0\x01x"),
        ..RUN
    },
    Run {
        name: "it stays behind a shorter text: three bytes at the file's end become free, and zero",
        before: MWith(b"ZONE\0\0\0\x06EST5\0QXTRA\0\0\0\x01x"),
        steps: &[Do(Replace(1, Put::Zone(b"Z")), DONE)],
        after: MWith(b"ZONE\0\0\0\x03Z\0QXTRA\0\0\0\x01x"),
        zeros: 163,
        ..RUN
    },
    Run {
        name: "two bytes stay behind a record",
        before: MWith(b"XTRA\0\0\0\0FILL\0\0\0\x06\x01\x02\x02\x04\x09\x08"),
        steps: &[Do(Replace(2, Put::Fill(OTHER_FILL, b"")), DONE)],
        after: MWith(b"XTRA\0\0\0\0FILL\0\0\0\x06\x02\x03\0\x05\x09\x08"),
        ..RUN
    },
    Run {
        name: "a block of M is replaced",
        room: 160,
        steps: &[Do(Replace(1, Put::Fill(OTHER_FILL, b"")), DONE)],
        after: MWith(b"FILL\0\0\0\x04\x02\x03\0\x05XTRA\0\0\0\0"),
        ..RUN
    },
];

static REMOVED: [Run; 4] = [
    Run {
        name: "the first of two is removed: twelve bytes at the file's end become free, and zero",
        steps: &[
            Ask(Block(6, 2), Ok(&[1481921089, 116, 0])),
            Do(Remove(1), DONE),
            Ask(Block(6, 1), Ok(&[1481921089, 104, 0])),
            Ask(Block(6, 2), Err((34, 5, 0, 0))),
        ],
        after: MWith(b"XTRA\0\0\0\0"),
        zeros: 160,
        ..RUN
    },
    Run {
        name: "the only block is removed",
        before: MWith(b"XTRA\0\0\0\0"),
        steps: &[Do(Remove(1), DONE), Do(Remove(1), NO_SUCH_BLOCK)],
        after: MWith(b""),
        zeros: 148,
        ..RUN
    },
    Run {
        name: "both are removed, one after the other",
        steps: &[
            Do(Remove(1), DONE),
            Do(Remove(1), DONE),
            Do(Remove(1), NO_SUCH_BLOCK),
        ],
        after: MWith(b""),
        zeros: 160,
        ..RUN
    },
    Run {
        name: "the last of two is removed",
        steps: &[Do(Remove(2), DONE)],
        after: MWith(b"FILL\0\0\0\x04\x01\x02\x02\x04"),
        zeros: 160,
        ..RUN
    },
];

#[test]
fn blocks_are_edited(rt: HostRuntime) {
    for run in &ADDED {
        take_run(&rt, run);
    }
    for run in &REPLACED {
        take_run(&rt, run);
    }
    for run in &REMOVED {
        take_run(&rt, run);
    }
}
