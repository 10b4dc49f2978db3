//! Edits of blocks that are refused: by the file, the number or the kind.
use super::{NO_FILE, NO_SUCH_BLOCK, OTHER_FILL, VERSION_LACKS_IT};
use crate::files::File::{MWith, Small, Zeros};
use crate::runs::Call::{Add, Carry, Lengthen, Raise, Remove, Replace};
use crate::runs::Step::Do;
use crate::runs::{Put, RUN, Run, take_run};
use records::Loca;

const LOCA: Loca = Loca {
    latitude: 0,
    longitude: 0,
    altitude: 0,
};

static NOT_EDITED: [Run; 3] = [
    Run {
        name: "without a file each edit answers 31",
        before: Zeros(160),
        room: 160,
        steps: &[
            Do(Add(Put::Zone(b"\0")), NO_FILE),
            Do(Carry(*b"NEWS", b""), NO_FILE),
            Do(Lengthen(0, b""), NO_FILE),
            Do(Replace(0, Put::Zone(b"\0")), NO_FILE),
            Do(Remove(0), NO_FILE),
            Do(Raise(&[1]), NO_FILE),
        ],
        after: Zeros(160),
        ..RUN
    },
    Run {
        // what comes later in the order is wrong too: the number, the text and the room
        name: "below version 6 no block is edited",
        before: Small,
        room: 108,
        steps: &[
            Do(Add(Put::Zone(b"\0")), VERSION_LACKS_IT),
            Do(Carry(*b"NEWS", b""), VERSION_LACKS_IT),
            Do(Lengthen(0, b"Q"), VERSION_LACKS_IT),
            Do(Replace(0, Put::Zone(b"\0")), VERSION_LACKS_IT),
            Do(Remove(0), VERSION_LACKS_IT),
        ],
        after: Small,
        ..RUN
    },
    Run {
        name: "no such block is edited",
        room: 160,
        steps: &[
            Do(Lengthen(0, b"Q"), NO_SUCH_BLOCK),
            Do(Replace(0, Put::Zone(b"\0")), NO_SUCH_BLOCK),
            Do(Remove(0), NO_SUCH_BLOCK),
            Do(Lengthen(3, b"Q"), NO_SUCH_BLOCK),
            Do(Replace(3, Put::Zone(b"\0")), NO_SUCH_BLOCK),
            Do(Remove(3), NO_SUCH_BLOCK),
            Do(Lengthen(4294967297, b"Q"), NO_SUCH_BLOCK),
            Do(Replace(4294967297, Put::Zone(b"\0")), NO_SUCH_BLOCK),
            Do(Remove(4294967297), NO_SUCH_BLOCK),
        ],
        ..RUN
    },
];

#[test]
fn blocks_that_cannot_be_edited(rt: HostRuntime) {
    for run in &NOT_EDITED {
        take_run(&rt, run);
    }
}

static UNFIT: [Run; 2] = [
    Run {
        // an unfit text comes before want of room, and another key before the text that is to be
        // written
        name: "what a kind refuses",
        room: 160,
        steps: &[
            Do(Add(Put::Zone(b"A\0B")), Some((15, 5, 0, 1))),
            Do(Add(Put::Zone(&[65; 256])), Some((15, 5, 0, 255))),
            Do(Add(Put::Loca(LOCA, b"x")), Some((15, 5, 0, 0))),
            Do(Replace(1, Put::Loca(LOCA, b"x")), Some((12, 4, 1, 104))),
            Do(Replace(2, Put::Zone(b"\0")), Some((12, 4, 2, 116))),
            Do(Replace(1, Put::Fill(OTHER_FILL, b"x")), Some((15, 5, 0, 0))),
        ],
        ..RUN
    },
    Run {
        // the blocks stand at 104, 115 and 127, and 139 is the end of the section
        name: "blocks that a kind cannot read",
        before: MWith(b"FILL\0\0\0\x03abcZONE\0\0\0\x04EST5ZONE\0\0\0\x04GMT\0"),
        room: 175,
        steps: &[
            Do(
                Replace(1, Put::Fill(OTHER_FILL, b"x")),
                Some((13, 4, 1, 115)),
            ),
            Do(Replace(2, Put::Zone(b"\0")), Some((14, 4, 2, 123))),
            Do(Replace(3, Put::Zone(b"A\0")), Some((15, 5, 0, 1))),
            Do(Replace(3, Put::Zone(b"EST5")), Some((32, 5, 0, 176))),
        ],
        after: MWith(b"FILL\0\0\0\x03abcZONE\0\0\0\x04EST5ZONE\0\0\0\x04GMT\0"),
        ..RUN
    },
];

#[test]
fn kinds_refuse(rt: HostRuntime) {
    for run in &UNFIT {
        take_run(&rt, run);
    }
}
