//! The raise: what it leaves in the whole buffer and what is read then, and its refusals.
use super::{DONE, NO_SUCH_BLOCK, NOT_BELOW_VERSION_6, OTHER_FILL, VERSION_LACKS_IT};
use crate::files::File::{Raised, RaisedWith, Small, SmallWithGap};
use crate::files::lay;
use crate::questions::Question::{Block, Field, LookZone, Row, Start, Version};
use crate::runs::Call::{Add, Carry, Lengthen, Raise, Remove, Replace, Set, Store};
use crate::runs::Step::{Ask, Do};
use crate::runs::{Put, RUN, Run, Step, follow, take_run};
use std::test::Fail;

static RAISED: [Run; 6] = [
    Run {
        // there is no fifth extent yet: cell bytes stand at its place
        name: "the extents of the small file",
        before: Small,
        after: Small,
        bytes: &[
            (6, &[0, 0, 0, 62]),
            (12, &[0, 0, 0, 56]),
            (20, &[0, 0, 0, 48]),
            (68, &[0, 0, 0, 0]),
        ],
        ..RUN
    },
    Run {
        name: "the extents of it raised with five values",
        before: Small,
        steps: &[Do(Raise(&[1, 2, 3, 4, 5]), DONE)],
        after: Raised,
        bytes: &[
            (6, &[0, 0, 0, 90]),
            (12, &[0, 0, 0, 84]),
            (20, &[0, 0, 0, 76]),
            (68, &[0, 0, 0, 28]),
            (96, &[0, 0, 0, 0]),
        ],
        ..RUN
    },
    Run {
        name: "the extents of it raised once more",
        before: Raised,
        steps: &[Do(Raise(&[]), DONE)],
        after: RaisedWith(b""),
        bytes: &[
            (6, &[0, 0, 0, 94]),
            (12, &[0, 0, 0, 88]),
            (20, &[0, 0, 0, 80]),
            (68, &[0, 0, 0, 32]),
            (96, &[0, 0, 0, 4]),
        ],
        ..RUN
    },
    Run {
        name: "what is read of a raised file",
        before: Small,
        steps: &[
            Do(Raise(&[16909060, 2, 3, 4, 5]), DONE),
            Ask(Version, Ok(&[5])),
            Ask(Field(6, 15), Ok(&[16909060])),
            Ask(Field(6, 16), Ok(&[2])),
            Ask(Field(6, 17), Ok(&[3])),
            Ask(Field(6, 18), Ok(&[4])),
            Ask(Field(6, 19), Ok(&[3])),
            Ask(Field(6, 20), Ok(&[5])),
            Do(Raise(&[]), DONE),
            Do(Raise(&[]), NOT_BELOW_VERSION_6),
            Ask(Version, Ok(&[6])),
            Ask(Start(1), Ok(&[104])),
            Ask(Start(2), Ok(&[104])),
            Ask(Start(3), Ok(&[104])),
            Ask(Start(4), Ok(&[104])),
            Ask(Start(5), Ok(&[104])),
            Ask(Start(6), Ok(&[104])),
            Ask(Row(6, 1, 1), Ok(&[104, 4])),
        ],
        after: RaisedWith(b""),
        bytes: &[(72, &[1, 2, 3, 4])],
        ..RUN
    },
    Run {
        name: "a mixed run, refused edits too",
        before: Small,
        steps: &[
            Do(Add(Put::Fill(OTHER_FILL, b"")), VERSION_LACKS_IT),
            Do(Raise(&[1, 2, 3, 4, 5]), DONE),
            Do(Raise(&[]), DONE),
            Do(Add(Put::Fill(OTHER_FILL, b"")), DONE),
            Do(Add(Put::Zone(b"GMT")), DONE),
            Do(Carry(*b"NEWS", b"xy"), DONE),
            Do(Lengthen(2, b"Q"), DONE),
            Do(Remove(4), NO_SUCH_BLOCK),
            Do(Replace(2, Put::Zone(b"EST5")), DONE),
            Do(Remove(1), DONE),
            Do(Set(4, 60), DONE),
            Do(Store(1, 1, &[9, 8, 7, 6]), DONE),
            Do(Raise(&[]), NOT_BELOW_VERSION_6),
            // two blocks are left, of 14 and 10 bytes: the data begin at 128, and the file has 164
            // bytes of the 176 that it once had
            Ask(Version, Ok(&[6])),
            Ask(Start(1), Ok(&[128])),
            Ask(Start(6), Ok(&[128])),
            Ask(LookZone(1), Ok(&[112, 4, 5])),
            Ask(Block(6, 2), Ok(&[1313167187, 118, 2])),
            Ask(Field(4, 4), Ok(&[60])),
            Ask(Field(5, 18), Ok(&[4])),
            Ask(Field(6, 19), Ok(&[3])),
            Ask(Row(4, 1, 1), Ok(&[128, 4])),
            Ask(Row(6, 1, 6), Ok(&[156, 8])),
        ],
        after: RaisedWith(b"ZONE\0\0\0\x06EST5\0QNEWS\0\0\0\x02xy"),
        bytes: &[(24, &[0, 0, 0, 60]), (128, &[9, 8, 7, 6])],
        zeros: 176,
        ..RUN
    },
    Run {
        name: "from version 6 on nothing is raised",
        room: 160,
        steps: &[
            Do(Raise(&[]), NOT_BELOW_VERSION_6),
            Do(Raise(&[1]), NOT_BELOW_VERSION_6),
        ],
        ..RUN
    },
];

static NOT_RAISED: [Run; 2] = [
    Run {
        // another count comes before want of room
        name: "another count of values",
        before: Small,
        room: 108,
        steps: &[
            Do(Raise(&[1, 2, 3, 4]), Some((17, 5, 0, 5))),
            Do(Raise(&[1, 2, 3, 4, 5, 6]), Some((17, 5, 0, 5))),
            Do(Raise(&[1, 2, 3, 4, 5]), Some((32, 5, 0, 136))),
        ],
        after: Small,
        ..RUN
    },
    Run {
        // a gap comes before another count
        name: "a gap of one byte before the data",
        before: SmallWithGap,
        steps: &[
            Ask(Start(1), Ok(&[73])),
            Do(Raise(&[1, 2, 3, 4, 5]), Some((36, 5, 0, 0))),
            Do(Raise(&[]), Some((36, 5, 0, 0))),
        ],
        after: SmallWithGap,
        ..RUN
    },
];

#[test]
fn files_are_raised(rt: HostRuntime) {
    for run in &RAISED {
        take_run(&rt, run);
    }
    for run in &NOT_RAISED {
        take_run(&rt, run);
    }
}

/// The raises of a file of version 1 with a tail of one byte.
static FROM_VERSION_1: [Step; 31] = [
    Ask(Version, Ok(&[1])),
    Do(Raise(&[1]), Some((17, 5, 0, 0))),
    Do(Raise(&[]), DONE),
    Ask(Version, Ok(&[2])),
    Ask(Start(2), Ok(&[16])),
    Ask(Field(2, 2), Ok(&[1])),
    Do(Raise(&[]), Some((17, 5, 0, 1))),
    Do(Raise(&[77]), DONE),
    Ask(Version, Ok(&[3])),
    Ask(Start(3), Ok(&[24])),
    Ask(Field(3, 3), Ok(&[77])),
    Do(Raise(&[77]), Some((17, 5, 0, 8))),
    Do(Raise(&[1, 2, 3, 4, 5, 6, 7, 8]), DONE),
    Ask(Version, Ok(&[4])),
    Ask(Start(1), Ok(&[72])),
    Ask(Start(4), Ok(&[72])),
    Ask(Field(4, 1), Ok(&[151521030])),
    Ask(Field(4, 2), Ok(&[1])),
    Ask(Field(4, 3), Ok(&[77])),
    // fields 4 to 10 and 14 take the values; 11, 12 and 13 are assumed
    Ask(Field(4, 4), Ok(&[1])),
    Ask(Field(4, 5), Ok(&[2])),
    Ask(Field(4, 6), Ok(&[3])),
    Ask(Field(4, 7), Ok(&[4])),
    Ask(Field(4, 8), Ok(&[5])),
    Ask(Field(4, 9), Ok(&[6])),
    Ask(Field(4, 10), Ok(&[7])),
    Ask(Field(4, 11), Ok(&[512])),
    Ask(Field(4, 12), Ok(&[31])),
    Ask(Field(4, 13), Ok(&[1])),
    Ask(Field(4, 14), Ok(&[8])),
    // 571392 bytes of data, of which the last row of the last cell has 4096
    Ask(Row(4, 31, 6), Ok(&[567368, 4096])),
];

#[test]
fn an_early_file_is_raised(rt: HostRuntime) -> Result<(), Fail> {
    let mut buffer = vec![in rt.alloc(); 7u8; 571600]?;
    let all = buffer.as_mut_slice();
    lay(all, 0, &[0, 1, 9, 8, 7, 6, 0, 0, 0, 0]);
    follow(&rt, all, 571403, &FROM_VERSION_1, "from version 1");
    Ok(())
}
