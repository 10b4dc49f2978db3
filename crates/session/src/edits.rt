//! The edits of a working file, as the arguments of a line ask for them.
ghost use Rattle.std.specs.Prelude.{⊤, IfOk};
ghost use Rattle.editor.specs.Calls.{view};
ghost use Rattle.session.specs.LineCalls.{MakesCall, set_call, remove_call, MakesLoad, MakesStore, MakesLengthen, MakesCarry, MakesEdit};
ghost use Rattle.script.specs.Rest.{rest_of};

use crate::names::Edit;
use calls::{
    CallError, ForKind, all_numbers, by_key, last_text, next_bytes, only_bytes, only_number,
};
use editor::WorkingFile;
use faults::Fault;
use kinds::Kind;
use script::{ArgumentError, Arguments, Fields, key_of};

/// What an edit answers, or why its line is not done.
type Edited<'a> = Result<Result<(), Fault>, CallError<'a>>;

/// A block of a kind whose numbers and text the arguments say: a new one, or one in the place of
/// the block of that number.
#[derive(Drop)]
struct BlockToWrite<'c, 'f, 'a> {
    rt: &'c HostRuntime,
    file: &'c mut WorkingFile<'f>,
    number: Option<usize>,
    arguments: Arguments<'a>,
}

impl<'c, 'f, 'a> ForKind for BlockToWrite<'c, 'f, 'a> {
    type Output = Edited<'a>;

    ghost gives = { λ call key answer. ⊤ };

    fn of<K: Kind>(self) -> Edited<'a>
    where
        K::Record: Fields,
    {
        let BlockToWrite {
            rt,
            file,
            number,
            mut arguments,
        } = self;
        let record = K::Record::from_arguments(&mut arguments)?;
        let text = last_text(rt, arguments)?;
        match number {
            Some(number) => Ok(file.replace::<K>(number, record, text.as_slice())),
            None => Ok(file.add::<K>(record, text.as_slice())),
        }
    }
}

/// Writes a block of the kind that the next argument names: a new one, or one in the place of
/// the block of that number.
fn write_block<'a>(
    rt: &HostRuntime,
    file: &mut WorkingFile<'_>,
    number: Option<usize>,
    mut arguments: Arguments<'a>,
) -> Edited<'a> {
    let argument = arguments.next().ok_or(ArgumentError::Missing)?;
    let block = BlockToWrite {
        rt,
        file,
        number,
        arguments,
    };
    by_key(argument, block).ok_or(ArgumentError::NoKind)?
}

/// Carries a block.
fn carry<'a>(
    rt: &HostRuntime,
    file: &mut WorkingFile<'_>,
    mut arguments: Arguments<'a>,
) -> Edited<'a>
    ensures { IfOk result (λ done. MakesCarry (rest_of arguments.entry) (view file.old) done (view file.new)) }
{
    let key = key_of(next_bytes(rt, &mut arguments)?.as_slice())?;
    let body = only_bytes(rt, arguments)?;
    Ok(file.carry(key, body.as_slice()))
}

/// Lengthens a block.
fn lengthen<'a>(
    rt: &HostRuntime,
    file: &mut WorkingFile<'_>,
    mut arguments: Arguments<'a>,
) -> Edited<'a>
    ensures { IfOk result (λ done. MakesLengthen (rest_of arguments.entry) (view file.old) done (view file.new)) }
{
    let number = arguments.number()?;
    let more = only_bytes(rt, arguments)?;
    Ok(file.lengthen(number, more.as_slice()))
}

/// Stores a row.
fn store<'a>(
    rt: &HostRuntime,
    file: &mut WorkingFile<'_>,
    mut arguments: Arguments<'a>,
) -> Edited<'a>
    ensures { IfOk result (λ done. MakesStore (rest_of arguments.entry) (view file.old) done (view file.new)) }
{
    let cell = arguments.number()?;
    let row = arguments.number()?;
    let bytes = only_bytes(rt, arguments)?;
    Ok(file.store(cell, row, bytes.as_slice()))
}

/// Sets a field.
fn set<'a>(file: &mut WorkingFile<'_>, mut arguments: Arguments<'a>) -> Edited<'a>
    ensures { IfOk result (λ done. MakesCall (set_call (rest_of arguments.entry)) (view file.old) done (view file.new)) }
{
    let number = arguments.number()?;
    let value = only_number(arguments)?;
    Ok(file.set(number, value))
}

/// Replaces a block.
fn replace<'a>(
    rt: &HostRuntime,
    file: &mut WorkingFile<'_>,
    mut arguments: Arguments<'a>,
) -> Edited<'a> {
    let number = arguments.number()?;
    write_block(rt, file, Some(number), arguments)
}

/// Loads a file.
fn load<'a>(rt: &HostRuntime, file: &mut WorkingFile<'_>, arguments: Arguments<'a>) -> Edited<'a>
    ensures { IfOk result (λ done. MakesLoad (rest_of arguments.entry) (view file.old) done (view file.new)) }
{
    let bytes = only_bytes(rt, arguments)?;
    Ok(file.load(bytes.as_slice()))
}

/// Takes out a block.
fn remove<'a>(file: &mut WorkingFile<'_>, arguments: Arguments<'a>) -> Edited<'a>
    ensures { IfOk result (λ done. MakesCall (remove_call (rest_of arguments.entry)) (view file.old) done (view file.new)) }
{
    Ok(file.remove(only_number(arguments)?))
}

/// Makes an edit.
pub(crate) fn edit<'a>(
    rt: &HostRuntime,
    file: &mut WorkingFile<'_>,
    call: Edit,
    arguments: Arguments<'a>,
) -> Edited<'a>
    ensures { IfOk result (λ done. MakesEdit call (rest_of arguments.entry) (view file.old) done (view file.new)) }
{
    match call {
        Edit::Load => load(rt, file, arguments),
        Edit::Set => set(file, arguments),
        Edit::Store => store(rt, file, arguments),
        Edit::Add => write_block(rt, file, None, arguments),
        Edit::Carry => carry(rt, file, arguments),
        Edit::Lengthen => lengthen(rt, file, arguments),
        Edit::Replace => replace(rt, file, arguments),
        Edit::Remove => remove(file, arguments),
        Edit::Raise => Ok(file.raise(all_numbers(rt.alloc(), arguments)?.as_slice())),
    }
}
