//! Drafts, what each call tells and what a draft leaves in the whole buffer: what the tests share.
mod begin;
mod long;
mod whole;

use crate::files::File::{self, M, Small};
use crate::files::{lay, lay_file};
use crate::refusals::{Refused, Told, refused_by};
use draft::{BlockStage, CellStage, Start};
use faults::Fault;
use records::Fill;
use std::process::Abort;
use texts::Zone;

/// A block that is put or carried.
#[derive(Clone, Copy)]
pub enum Block {
    Fill(Fill),
    Zone(&'static [u8]),
    Carry([u8; 4], &'static [u8]),
}

/// A draft from begin to close in a buffer that is full of 255: what each call is to tell, and what
/// is to stand there afterwards.
#[derive(Clone, Copy)]
pub struct Drafting {
    /// What the draft shows.
    name: &'static str,
    /// The version, field 2, the bins and the cells.
    start: (u16, u16, u32, u32),
    /// The values of the other fields.
    values: &'static [u32],
    /// How many bytes the buffer has.
    room: usize,
    /// What begin tells.
    begun: Told,
    /// The blocks in order, and what each call tells.
    blocks: &'static [(Block, Told)],
    /// The bytes of the cells in order, and what each call tells.
    cells: &'static [(&'static [u8], Told)],
    /// The length that closing answers, or what it tells.
    closed: Result<usize, Refused>,
    /// What stands in the buffer afterwards.
    after: File,
    /// Bytes of it that are given by themselves: their places, and what stands there.
    bytes: &'static [(usize, &'static [u8])],
}

pub const DONE: Told = None;

pub const FILL: Fill = Fill {
    range_method: 1,
    range_multiple: 2,
    doppler_method: 2,
    doppler_multiple: 4,
};

/// The 16 values of file M: all but field 13 are 0.
const VALUES_OF_M: &[u32] = &[0, 0, 0, 0, 0, 0, 0, 0, 0, 1, 0, 0, 0, 0, 0, 0];

/// Those of the small file, raised.
pub const VALUES_OF_RAISED: &[u32] = &[0, 0, 0, 0, 0, 0, 0, 0, 0, 0, 0, 1, 2, 3, 4, 5];

/// The cell of file M: the numbers 1 to 36.
pub const CELL_OF_M: &[u8] = b"\
    \x01\x02\x03\x04\x05\x06\x07\x08\x09\x0A\x0B\x0C\x0D\x0E\x0F\x10\x11\x12\
    \x13\x14\x15\x16\x17\x18\x19\x1A\x1B\x1C\x1D\x1E\x1F\x20\x21\x22\x23\x24";

/// The cell of the small file.
const CELL: &[u8] = b"HIJKLMNOPQRSTUVWXYZ[\\]^_`abcdefghijk";

/// File M, drafted in a buffer of just its size.
pub const DRAFT_OF_M: Drafting = Drafting {
    name: "file M",
    start: (6, 1, 1, 1),
    values: VALUES_OF_M,
    room: 160,
    begun: DONE,
    blocks: &[
        (Block::Fill(FILL), DONE),
        (Block::Carry(*b"XTRA", b""), DONE),
    ],
    cells: &[(CELL_OF_M, DONE)],
    closed: Ok(160),
    after: M,
    bytes: &[],
};

/// The small file, drafted in a buffer of just its size.
pub const DRAFT_OF_SMALL: Drafting = Drafting {
    name: "version 4",
    start: (4, 1, 1, 1),
    values: &[0; 11],
    room: 108,
    blocks: &[],
    cells: &[(CELL, DONE)],
    closed: Ok(108),
    after: Small,
    ..DRAFT_OF_M
};

/// The start of those numbers.
pub fn start_of(numbers: (u16, u16, u32, u32)) -> Start {
    let (version, kind, bins, ranges) = numbers;
    Start {
        version,
        kind,
        bins,
        ranges,
    }
}

/// Puts or carries a block.
fn put_block(draft: &mut BlockStage, buffer: &mut [u8], block: Block) -> Result<(), Fault> {
    match block {
        Block::Fill(record) => draft.put::<Fill>(buffer, record, b""),
        Block::Zone(text) => draft.put::<Zone>(buffer, (), text),
        Block::Carry(key, data) => draft.carry(buffer, key, data),
    }
}

/// The bytes of a buffer, as they are now.
fn bytes_now(buffer: &[u8]) -> [u8; 200] {
    let mut bytes = [0u8; 200];
    lay(&mut bytes, 0, buffer);
    bytes
}

/// A call tells what it is to, and one that is refused has left every byte of the buffer.
fn compare(
    rt: &impl Abort,
    outcome: Result<(), Fault>,
    told: Told,
    buffer: &[u8],
    before: &[u8; 200],
    name: &str,
) {
    assert_eq!(rt; outcome.err().map(refused_by), told, "{name}");
    if told.is_some() {
        assert_eq!(rt; bytes_now(buffer), *before, "{name}");
    }
}

/// Lays the cells, and tells of each what it is to; the draft is given back.
fn lay_cells(rt: &impl Abort, draft: CellStage, buffer: &mut [u8], case: &Drafting) -> CellStage {
    let mut draft = draft;
    for (bytes, told) in case.cells {
        let (next, outcome) = draft.lay(buffer, bytes);
        draft = next;
        assert_eq!(rt;
            outcome.err().map(refused_by),
            *told,
            "{}, a cell",
            case.name
        );
    }
    draft
}

/// Closes a draft, or gives it up.
pub fn close(draft: CellStage) -> Result<usize, Refused> {
    match draft.close() {
        Ok(size) => Ok(size),
        Err(refused) => {
            let (fault, draft) = refused;
            draft.give_up();
            Err(refused_by(fault))
        }
    }
}

/// Drafts a file in a buffer, each call telling what it is to; what closing tells.
fn draft_case(rt: &impl Abort, buffer: &mut [u8], case: &Drafting) -> Result<usize, Refused> {
    match BlockStage::begin(buffer, start_of(case.start), case.values) {
        Ok(begun) => {
            let mut draft = begun;
            for (block, told) in case.blocks {
                let outcome = put_block(&mut draft, buffer, *block);
                assert_eq!(rt;
                    outcome.err().map(refused_by),
                    *told,
                    "{}, a block",
                    case.name
                );
            }
            close(lay_cells(rt, draft.turn(), buffer, case))
        }
        Err(fault) => Err(refused_by(fault)),
    }
}

/// Drafts a file in a buffer full of 255, and compares all of the buffer.
pub fn take_draft(rt: &impl Abort, case: &Drafting) {
    let mut buffer = [255u8; 200];
    let room = case.room.min(200);
    let closed = draft_case(rt, &mut buffer[..room], case);
    assert_eq!(rt; closed, case.closed, "{}, closing", case.name);
    let mut wanted = [255u8; 200];
    let _ = lay_file(&mut wanted, case.after);
    for (place, bytes) in case.bytes {
        lay(&mut wanted, *place, bytes);
    }
    assert_eq!(rt; buffer, wanted, "{}", case.name);
}
