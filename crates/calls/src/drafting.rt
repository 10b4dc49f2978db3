//! The calls that make a draft, as the lines of a script.
ghost use Rattle.std.specs.Prelude.{⊤};

use crate::bytes::{last_text, next_bytes, only_bytes};
use crate::errors::CallError;
use crate::lines::Line;
use crate::named::{ForKind, by_key};
use crate::outcome::Outcome;
use crate::room::Room;
use draft::{BlockStage, CellStage, Start};
use faults::Fault;
use kinds::Kind;
use script::{ArgumentError, Arguments, Fields, key_of};
use std::alloc::AllocError;

/// The stage of a draft. It is no `Drop`, as the stages in it: whoever has it ends it, or gives it
/// up.
pub enum Drafting {
    /// Blocks are put after the header.
    Blocks(BlockStage),
    /// Cells are laid after the blocks.
    Cells(CellStage),
    /// The draft is closed, with so many bytes.
    Closed(usize),
}

/// What a call leaves: the stage of the draft, and how the call came out.
type Stepped<'a> = (Drafting, Result<Outcome, CallError<'a>>);

/// A block that is to be put, whose numbers and text the arguments say.
#[derive(Drop)]
struct BlockToPut<'c, 'a> {
    rt: &'c HostRuntime,
    stage: &'c mut BlockStage,
    room: &'c mut Room,
    arguments: Arguments<'a>,
}

impl<'c, 'a> ForKind for BlockToPut<'c, 'a> {
    type Output = Result<Outcome, CallError<'a>>;

    ghost gives = { λ call key outcome. ⊤ };

    fn of<K: Kind>(self) -> Result<Outcome, CallError<'a>>
    where
        K::Record: Fields,
    {
        let BlockToPut {
            rt,
            stage,
            room,
            mut arguments,
        } = self;
        let record = K::Record::from_arguments(&mut arguments)?;
        let text = last_text(rt, arguments)?;
        let outcome = stage.put::<K>(room.bytes.as_mut_slice(), record, text.as_slice());
        if room.grow(outcome)? {
            let outcome = stage.put::<K>(room.bytes.as_mut_slice(), record, text.as_slice());
            return Ok(outcome.into());
        }
        Ok(outcome.into())
    }
}

/// Puts a block of the kind that the first argument names.
fn put<'a>(
    rt: &HostRuntime,
    stage: &mut BlockStage,
    room: &mut Room,
    mut arguments: Arguments<'a>,
) -> Result<Outcome, CallError<'a>> {
    let argument = arguments.next().ok_or(ArgumentError::Missing)?;
    let block = BlockToPut {
        rt,
        stage,
        room,
        arguments,
    };
    by_key(argument, block).ok_or(ArgumentError::NoKind)?
}

/// Puts a block whose key and data the arguments say.
fn put_raw<'a>(
    rt: &HostRuntime,
    stage: &mut BlockStage,
    room: &mut Room,
    mut arguments: Arguments<'a>,
) -> Result<Outcome, CallError<'a>> {
    let key = key_of(next_bytes(rt, &mut arguments)?.as_slice())?;
    let body = only_bytes(rt, arguments)?;
    let outcome = stage.carry(room.bytes.as_mut_slice(), key, body.as_slice());
    if room.grow(outcome)? {
        let outcome = stage.carry(room.bytes.as_mut_slice(), key, body.as_slice());
        return Ok(outcome.into());
    }
    Ok(outcome.into())
}

/// Lays a cell.
fn lay_cell<'a>(stage: CellStage, room: &mut Room, cell: &[u8]) -> Stepped<'a> {
    let (stage, outcome) = stage.lay(room.bytes.as_mut_slice(), cell);
    match room.grow(outcome) {
        Ok(false) => (Drafting::Cells(stage), Ok(outcome.into())),
        Ok(true) => {
            let (stage, outcome) = stage.lay(room.bytes.as_mut_slice(), cell);
            (Drafting::Cells(stage), Ok(outcome.into()))
        }
        Err(error) => (Drafting::Cells(stage), Err(error.into())),
    }
}

/// Lays the cell whose bytes the only argument says.
fn lay<'a>(
    rt: &HostRuntime,
    stage: CellStage,
    room: &mut Room,
    arguments: Arguments<'a>,
) -> Stepped<'a> {
    match only_bytes(rt, arguments) {
        Ok(cell) => lay_cell(stage, room, cell.as_slice()),
        Err(error) => (Drafting::Cells(stage), Err(error)),
    }
}

/// Turns from blocks to cells.
fn turn(stage: BlockStage, arguments: Arguments<'_>) -> Stepped<'_> {
    match arguments.end() {
        Ok(()) => (Drafting::Cells(stage.turn()), Ok(Outcome::Done)),
        Err(error) => (Drafting::Blocks(stage), Err(error.into())),
    }
}

/// Closes a draft.
fn close(stage: CellStage, arguments: Arguments<'_>) -> Stepped<'_> {
    if let Err(error) = arguments.end() {
        return (Drafting::Cells(stage), Err(error.into()));
    }
    match stage.close() {
        Ok(length) => (Drafting::Closed(length), Ok(Outcome::Number(length))),
        Err((fault, stage)) => (Drafting::Cells(stage), Ok(Outcome::Refused(fault))),
    }
}

/// Makes the call of a line among those of the stage of blocks.
fn call_blocks<'a>(
    rt: &HostRuntime,
    mut stage: BlockStage,
    room: &mut Room,
    line: Line<'a>,
) -> Stepped<'a> {
    match line.verb {
        "put" => {
            let outcome = put(rt, &mut stage, room, line.arguments);
            (Drafting::Blocks(stage), outcome)
        }
        "put-raw" => {
            let outcome = put_raw(rt, &mut stage, room, line.arguments);
            (Drafting::Blocks(stage), outcome)
        }
        "turn" => turn(stage, line.arguments),
        _ => (Drafting::Blocks(stage), Err(CallError::NoCall(line.verb))),
    }
}

/// Makes the call of a line among those of the stage of cells.
fn call_cells<'a>(
    rt: &HostRuntime,
    stage: CellStage,
    room: &mut Room,
    line: Line<'a>,
) -> Stepped<'a> {
    match line.verb {
        "lay" => lay(rt, stage, room, line.arguments),
        "close" => close(stage, line.arguments),
        _ => (Drafting::Cells(stage), Err(CallError::NoCall(line.verb))),
    }
}

/// What a begin comes to: the draft or its refusal, if there is memory.
fn begun(room: &mut Room, start: Start, values: &[u32]) -> Result<Drafting, Fault> {
    Ok(Drafting::Blocks(BlockStage::begin(room.bytes.as_mut_slice(), start, values)?))
}

impl Drafting {
    /// Begins a draft in a buffer that grows as it must; refuses as `BlockStage::begin` does.
    pub fn begin(
        room: &mut Room,
        start: Start,
        values: &[u32],
    ) -> Result<Result<Drafting, Fault>, AllocError> {
        match begun(room, start, values) {
            Ok(drafting) => Ok(Ok(drafting)),
            Err(fault) => {
                if room.grow(Err(fault))? {
                    return Ok(begun(room, start, values));
                }
                Ok(Err(fault))
            }
        }
    }

    /// Makes the call of a line; the stage after it, and how the call came out, or why the line is
    /// not done.
    pub fn call<'a>(
        self,
        rt: &HostRuntime,
        room: &mut Room,
        line: Line<'a>,
    ) -> (Drafting, Result<Outcome, CallError<'a>>) {
        match self {
            Drafting::Blocks(stage) => call_blocks(rt, stage, room, line),
            Drafting::Cells(stage) => call_cells(rt, stage, room, line),
            Drafting::Closed(length) => (
                Drafting::Closed(length),
                Err(CallError::NoCall(line.verb)),
            ),
        }
    }

    /// Ends a draft as it is.
    pub fn give_up(self) {
        match self {
            Drafting::Blocks(stage) => stage.give_up(),
            Drafting::Cells(stage) => stage.give_up(),
            Drafting::Closed(_) => {}
        }
    }
}
