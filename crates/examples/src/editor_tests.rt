//! The working file: each call's answers, and every byte of the buffer behind it.
use crate::files::File::{M, MWithExtent, MWithSection, Small, Zeros};
use crate::files::lay_file;
use crate::questions::Answer;
use crate::questions::Question::{
    Block, Field, Fill, List, Listed, LookFill, LookLoca, Numbers, Row, Start, Table, Version,
};
use crate::refusals::{Refused, Told};
use crate::runs::Call::{Load, Set, Store};
use crate::runs::Step::{Ask, Do};
use crate::runs::{RUN, Run, follow, take_run};

const DONE: Told = None;

const NO_FILE: Refused = (31, 5, 0, 0);

/// What is in a buffer of 200 bytes that begins with file M, the size of the file there, and the version that is answered.
#[derive(Clone, Copy)]
struct Made(&'static str, usize, Answer);

static MADE: [Made; 6] = [
    Made("file M", 160, Ok(&[6])),
    Made("a tail of one byte", 161, Ok(&[6])),
    Made("a tail up to the buffer's end", 200, Ok(&[6])),
    Made("no byte", 0, Err(NO_FILE)),
    Made("one byte too few", 159, Err(NO_FILE)),
    Made("more than the buffer has", 201, Err(NO_FILE)),
];

#[test]
fn making_holds_a_file_or_none(rt: HostRuntime) {
    for made in &MADE {
        let mut buffer = [255u8; 200];
        let _ = lay_file(&mut buffer, M);
        let before = buffer;
        let steps = [Ask(Version, made.2)];
        follow(&rt, &mut buffer, made.1, &steps, made.0);
        assert_eq!(rt; buffer, before, "{}", made.0);
    }
}

static WITHOUT_A_FILE: [Run; 2] = [
    Run {
        name: "without a file all but load answer 31",
        before: Zeros(160),
        room: 160,
        steps: &[
            Ask(Version, Err(NO_FILE)),
            Ask(Start(7), Err(NO_FILE)),
            Ask(Field(0, 0), Err(NO_FILE)),
            Ask(Row(0, 0, 0), Err(NO_FILE)),
            Ask(Numbers(0, 0, 0, 2), Err(NO_FILE)),
            Ask(List(0, 0, 0, 2), Ok(&[5, 5, 5])),
            Ask(Block(0, 0), Err(NO_FILE)),
            Ask(LookFill(0), Err(NO_FILE)),
            Ask(Table(0), Err(NO_FILE)),
            Do(Set(2, 0), Some(NO_FILE)),
            Do(Store(0, 0, &[]), Some(NO_FILE)),
        ],
        after: Zeros(160),
        ..RUN
    },
    Run {
        name: "a file is loaded where there is none",
        before: Zeros(160),
        room: 160,
        steps: &[
            Ask(Version, Err(NO_FILE)),
            Do(Load(M), DONE),
            Ask(Version, Ok(&[6])),
        ],
        ..RUN
    },
];

#[test]
fn without_a_file(rt: HostRuntime) {
    for run in &WITHOUT_A_FILE {
        take_run(&rt, run);
    }
}

static SET_AND_STORED: [Run; 3] = [
    Run {
        name: "fields are set, but for those that steer the layout",
        steps: &[
            Do(Set(0, 7), Some((18, 5, 0, 0))),
            Do(Set(21, 7), Some((18, 5, 0, 0))),
            Do(Set(2, 7), Some((21, 5, 0, 0))),
            Do(Set(11, 7), Some((21, 5, 0, 0))),
            Do(Set(12, 7), Some((21, 5, 0, 0))),
            Do(Set(19, 7), Some((21, 5, 0, 0))),
            Do(Set(1, 4294967295), DONE),
            Do(Set(4, 60), DONE),
            Do(Set(13, 258), DONE),
            Do(Set(20, 1), DONE),
            Ask(Field(1, 1), Ok(&[4294967295])),
            Ask(Field(6, 4), Ok(&[60])),
            Ask(Field(3, 4), Err((20, 5, 0, 0))),
        ],
        bytes: &[
            (2, &[255, 255, 255, 255]),
            (27, &[60]),
            (62, &[1, 2]),
            (95, &[1]),
        ],
        ..RUN
    },
    Run {
        name: "fields that version 4 lacks",
        before: Small,
        room: 108,
        steps: &[
            Do(Set(15, 7), Some((33, 5, 0, 0))),
            Do(Set(20, 7), Some((33, 5, 0, 0))),
            Do(Set(19, 7), Some((21, 5, 0, 0))),
        ],
        after: Small,
        ..RUN
    },
    Run {
        // the three rows of 4 bytes begin at 72, 76 and 80
        name: "a row is stored",
        before: Small,
        room: 120,
        steps: &[
            Do(Store(0, 1, &[]), Some((16, 5, 0, 0))),
            Do(Store(2, 1, &[]), Some((16, 5, 0, 0))),
            Do(Store(1, 0, &[]), Some((16, 5, 0, 0))),
            Do(Store(1, 7, &[]), Some((16, 5, 0, 0))),
            Do(Store(1, 4, &[1; 7]), Some((17, 5, 0, 8))),
            Do(Store(1, 4, &[1; 9]), Some((17, 5, 0, 8))),
            Do(Store(1, 1, &[1; 8]), Some((17, 5, 0, 4))),
            Do(Store(1, 4, &[0, 0, 0, 1, 0, 0, 1, 0]), DONE),
            Ask(Row(4, 1, 4), Ok(&[84, 8])),
            Ask(Numbers(6, 1, 4, 3), Ok(&[])),
            Ask(List(6, 1, 4, 3), Ok(&[1, 256, 5])),
        ],
        after: Small,
        bytes: &[(84, &[0, 0, 0, 1, 0, 0, 1, 0])],
        ..RUN
    },
];

#[test]
fn fields_and_rows(rt: HostRuntime) {
    for run in &SET_AND_STORED {
        take_run(&rt, run);
    }
}

static LOADED: [Run; 3] = [
    Run {
        name: "file M is loaded into a buffer of other bytes",
        before: Zeros(0),
        steps: &[Do(Load(M), DONE)],
        ..RUN
    },
    Run {
        // what M had behind the new end is zero, and the bytes behind M stay
        name: "a shorter file is loaded",
        steps: &[
            Do(Load(Small), DONE),
            Ask(Version, Ok(&[4])),
            Ask(Start(6), Ok(&[72])),
        ],
        after: Small,
        zeros: 160,
        ..RUN
    },
    Run {
        name: "loading is refused whole",
        before: Small,
        room: 159,
        steps: &[
            Do(Load(M), Some((32, 5, 0, 160))),
            Do(Load(MWithExtent), Some((4, 2, 0, 12))),
            Do(Load(MWithSection), Some((9, 3, 2, 116))),
            Do(Load(Zeros(0)), Some((1, 1, 0, 0))),
            Ask(Version, Ok(&[4])),
        ],
        after: Small,
        ..RUN
    },
];

#[test]
fn files_are_loaded(rt: HostRuntime) {
    for run in &LOADED {
        take_run(&rt, run);
    }
}

static BLOCKS: Run = Run {
    // FILL is 0x46494C4C, XTRA 0x58545241
    name: "blocks of a working file",
    steps: &[
        Ask(Block(6, 1), Ok(&[1179208780, 104, 4])),
        Ask(Block(5, 1), Err((20, 5, 0, 0))),
        Ask(Table(1), Err((22, 5, 0, 2))),
        Ask(Listed(1, 0), Ok(&[5, 5, 5])),
        Ask(Table(3), Ok(&[2])),
        Ask(Listed(3, 0), Ok(&[1179208780, 104, 4])),
        Ask(Listed(3, 1), Ok(&[1481921089, 116, 0])),
        Ask(Listed(3, 2), Ok(&[5, 5, 5])),
        Ask(LookFill(1), Ok(&[112, 0, 4])),
        Ask(Fill(1), Ok(&[1, 2, 2, 4])),
        Ask(LookLoca(1), Err((12, 4, 1, 104))),
    ],
    ..RUN
};

#[test]
fn blocks_of_a_working_file(rt: HostRuntime) {
    take_run(&rt, &BLOCKS);
}
