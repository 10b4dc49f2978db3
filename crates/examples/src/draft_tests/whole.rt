//! Drafts from begin to close, with refused calls among the others, and ones that miss cells.
use super::{
    Block, CELL, CELL_OF_M, DONE, DRAFT_OF_M, DRAFT_OF_SMALL, Drafting, FILL, VALUES_OF_RAISED,
    take_draft,
};
use crate::files::File::{MWith, Raised, RaisedWith};

static WHOLE: [Drafting; 8] = [
    DRAFT_OF_M,
    Drafting {
        // a text with a zero; a block, a cell and data that are too long; and a cell more than
        // there are
        name: "file M, with refused calls among the others",
        blocks: &[
            (Block::Zone(b"G\0T"), Some((15, 5, 0, 1))),
            (Block::Fill(FILL), DONE),
            (Block::Carry(*b"NEWS", &[7; 37]), Some((32, 5, 0, 161))),
            (Block::Carry(*b"XTRA", b""), DONE),
            (Block::Zone(&[65; 28]), Some((32, 5, 0, 161))),
        ],
        cells: &[
            (&[7; 35], Some((17, 5, 0, 36))),
            (&[7; 37], Some((17, 5, 0, 36))),
            (b"", Some((17, 5, 0, 36))),
            (CELL_OF_M, DONE),
            (CELL_OF_M, Some((38, 5, 0, 1))),
            (b"", Some((38, 5, 0, 1))),
        ],
        ..DRAFT_OF_M
    },
    Drafting {
        name: "file M with room for two texts more",
        room: 200,
        blocks: &[
            (Block::Fill(FILL), DONE),
            (Block::Carry(*b"XTRA", b""), DONE),
            (Block::Zone(b"GMT"), DONE),
            (Block::Carry(*b"\0\xFF 1", b"a\0b"), DONE),
        ],
        closed: Ok(183),
        after: MWith(
            b"FILL\0\0\0\x04\x01\x02\x02\x04XTRA\0\0\0\0ZONE\0\0\0\x04GMT\0\0\xFF 1\0\0\0\x03a\0b",
        ),
        ..DRAFT_OF_M
    },
    DRAFT_OF_SMALL,
    Drafting {
        // what comes later in the order is wrong too: the text and the room
        name: "below version 6 there are no blocks",
        blocks: &[
            (Block::Fill(FILL), Some((33, 5, 0, 0))),
            (Block::Zone(b"\0"), Some((33, 5, 0, 0))),
            (Block::Carry(*b"XTRA", &[0; 200]), Some((33, 5, 0, 0))),
        ],
        ..DRAFT_OF_SMALL
    },
    Drafting {
        name: "version 5",
        start: (5, 1, 1, 1),
        values: VALUES_OF_RAISED,
        room: 136,
        blocks: &[(Block::Fill(FILL), Some((33, 5, 0, 0)))],
        closed: Ok(136),
        after: Raised,
        ..DRAFT_OF_SMALL
    },
    Drafting {
        name: "version 6 without blocks",
        start: (6, 1, 1, 1),
        values: VALUES_OF_RAISED,
        room: 150,
        closed: Ok(140),
        after: RaisedWith(b""),
        ..DRAFT_OF_SMALL
    },
    Drafting {
        // field 2 is 2, and the cell has 40 bytes
        name: "with quality",
        start: (4, 2, 1, 1),
        room: 112,
        cells: &[
            (CELL, Some((17, 5, 0, 40))),
            (b"HIJKLMNOPQRSTUVWXYZ[\\]^_`abcdefghijklmno", DONE),
        ],
        closed: Ok(112),
        bytes: &[(11, b"\x02"), (108, b"lmno")],
        ..DRAFT_OF_SMALL
    },
];

static MISSING: [Drafting; 4] = [
    Drafting {
        name: "no cell is laid",
        cells: &[],
        closed: Err((38, 5, 0, 0)),
        bytes: &[(72, &[255; 36])],
        ..DRAFT_OF_SMALL
    },
    Drafting {
        name: "one of two cells is laid",
        start: (4, 1, 1, 2),
        room: 200,
        closed: Err((38, 5, 0, 1)),
        bytes: &[(59, b"\x02")],
        ..DRAFT_OF_SMALL
    },
    Drafting {
        name: "a cell is cut off by the end of the buffer",
        room: 107,
        cells: &[(CELL, Some((32, 5, 0, 108)))],
        closed: Err((38, 5, 0, 0)),
        bytes: &[(72, &[255; 36])],
        ..DRAFT_OF_SMALL
    },
    Drafting {
        // -1 is no quality; the length is asked before the room
        name: "a negative field 2",
        start: (4, 65535, 1, 1),
        room: 72,
        cells: &[
            (&[7; 40], Some((17, 5, 0, 36))),
            (CELL, Some((32, 5, 0, 108))),
        ],
        closed: Err((38, 5, 0, 0)),
        bytes: &[(10, b"\xFF\xFF"), (72, &[255; 36])],
        ..DRAFT_OF_SMALL
    },
];

#[test]
fn whole_drafts(rt: HostRuntime) {
    for case in &WHOLE {
        take_draft(&rt, case);
    }
}

#[test]
fn drafts_that_miss_cells(rt: HostRuntime) {
    for case in &MISSING {
        take_draft(&rt, case);
    }
}
