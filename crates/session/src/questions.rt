//! The questions about a working file, as the arguments of a line ask them.
ghost use Rattle.std.specs.Prelude.{◌≡◌, ⊤, IfOk};
ghost use Rattle.editor.specs.Calls.{view, file as file_of};
ghost use Rattle.session.specs.LineCalls.{IsRowAt, start_outcome, field_outcome, row_outcome, block_outcome, AnswersQuestion};
ghost use Rattle.reader.specs.Answers.{version_answer};
ghost use Rattle.calls.specs.Outcome.{number_or_refused};
ghost use Rattle.script.specs.Rest.{rest_of};

use crate::names::Question;
use calls::{
    CallError, ForKind, Outcome, by_key, entries_text, only_number, patterns_text, reading_text,
};
use editor::WorkingFile;
use kinds::Kind;
use reader::{Entry, RowAt};
use script::{ArgumentError, Arguments, Fields};
use std::alloc::{AllocError, Global};

/// A block that is looked at as a kind.
#[derive(Drop)]
struct BlockToRead<'c, 'f> {
    heap: Global,
    file: &'c WorkingFile<'f>,
    number: usize,
}

impl<'c, 'f> ForKind for BlockToRead<'c, 'f> {
    type Output = Result<Outcome, AllocError>;

    ghost gives = { λ call key outcome. ⊤ };

    fn of<K: Kind>(self) -> Result<Outcome, AllocError>
    where
        K::Record: Fields,
    {
        match self.file.look::<K>(self.number) {
            Ok(reading) => Ok(Outcome::Items(reading_text(self.heap, reading)?)),
            Err(fault) => Ok(Outcome::Refused(fault)),
        }
    }
}

/// Looks at a block.
fn look<'a>(
    heap: Global,
    file: &WorkingFile<'_>,
    mut arguments: Arguments<'a>,
) -> Result<Outcome, CallError<'a>> {
    let number = arguments.number()?;
    let argument = arguments.next().ok_or(ArgumentError::Missing)?;
    arguments.end()?;
    let block = BlockToRead { heap, file, number };
    Ok(by_key(argument, block).ok_or(ArgumentError::NoKind)??)
}

/// The row that the next three arguments ask for: level, cell and row.
fn next_row(arguments: &mut Arguments) -> Result<RowAt, ArgumentError>
    ensures { IfOk result (IsRowAt (rest_of arguments.old)) }
{
    Ok(RowAt {
        level: arguments.number()?,
        cell: arguments.number()?,
        row: arguments.number()?,
    })
}

/// Place and length of a row.
fn row<'a>(file: &WorkingFile<'_>, mut arguments: Arguments<'a>) -> Result<Outcome, CallError<'a>>
    ensures { IfOk result (λ told. told ≡ row_outcome (file_of (view file.now)) (rest_of arguments.entry)) }
{
    let at = next_row(&mut arguments)?;
    arguments.end()?;
    Ok(file.row(at).into())
}

/// How many numbers a row has; 0 where it is refused.
fn count_numbers(file: &WorkingFile<'_>, at: RowAt) -> usize {
    match file.row(at) {
        Ok((_, length)) => length / 4,
        Err(_) => 0,
    }
}

/// The patterns of a row, by way of a list of so many numbers.
fn numbers<'a>(
    heap: Global,
    file: &WorkingFile<'_>,
    mut arguments: Arguments<'a>,
) -> Result<Outcome, CallError<'a>> {
    let at = next_row(&mut arguments)?;
    let mut list = vec![in heap; 0u32; only_number(arguments)?]?;
    if let Err(fault) = file.numbers(at, list.as_mut_slice()) {
        return Ok(Outcome::Refused(fault));
    }
    let filled = list.get(..count_numbers(file, at)).unwrap_or(&[]);
    Ok(Outcome::Items(patterns_text(heap, filled)?))
}

/// The blocks of the file, by way of a table of so many entries.
fn table<'a>(
    heap: Global,
    file: &WorkingFile<'_>,
    arguments: Arguments<'a>,
) -> Result<Outcome, CallError<'a>> {
    let none = Entry {
        key: 0,
        place: 0,
        size: 0,
    };
    let mut entries = vec![in heap; none; only_number(arguments)?]?;
    match file.table(entries.as_mut_slice()) {
        Ok(count) => {
            let filled = entries.get(..count).unwrap_or(&[]);
            Ok(Outcome::Items(entries_text(heap, filled)?))
        }
        Err(fault) => Ok(Outcome::Refused(fault)),
    }
}

/// The pattern of a field.
fn field<'a>(file: &WorkingFile<'_>, mut arguments: Arguments<'a>) -> Result<Outcome, CallError<'a>>
    ensures { IfOk result (λ told. told ≡ field_outcome (file_of (view file.now)) (rest_of arguments.entry)) }
{
    let level = arguments.number()?;
    let number = only_number(arguments)?;
    Ok(
        file.field(level, number)
            .map(|pattern| pattern as usize)
            .into(),
    )
}

/// A block, by its head.
fn block<'a>(file: &WorkingFile<'_>, mut arguments: Arguments<'a>) -> Result<Outcome, CallError<'a>>
    ensures { IfOk result (λ told. told ≡ block_outcome (file_of (view file.now)) (rest_of arguments.entry)) }
{
    let level = arguments.number()?;
    let number = only_number(arguments)?;
    Ok(file.block(level, number).into())
}

/// The file's version.
fn version<'a>(file: &WorkingFile<'_>, arguments: Arguments<'a>) -> Result<Outcome, CallError<'a>>
    ensures { IfOk result (λ told. told ≡ number_or_refused (version_answer (file_of (view file.now)))) }
{
    arguments.end()?;
    Ok(file.version().map(|version| version as usize).into())
}

/// Where a reader of a level finds the data.
fn start<'a>(file: &WorkingFile<'_>, arguments: Arguments<'a>) -> Result<Outcome, CallError<'a>>
    ensures { IfOk result (λ told. told ≡ start_outcome (file_of (view file.now)) (rest_of arguments.entry)) }
{
    Ok(file.start(only_number(arguments)?).into())
}

/// Answers a question.
pub(crate) fn ask<'a>(
    heap: Global,
    file: &WorkingFile<'_>,
    question: Question,
    arguments: Arguments<'a>,
) -> Result<Outcome, CallError<'a>>
    ensures { IfOk result (AnswersQuestion question (file_of (view file.now)) (rest_of arguments.entry)) }
{
    match question {
        Question::Version => version(file, arguments),
        Question::Start => start(file, arguments),
        Question::Field => field(file, arguments),
        Question::Row => row(file, arguments),
        Question::Numbers => numbers(heap, file, arguments),
        Question::Block => block(file, arguments),
        Question::Look => look(heap, file, arguments),
        Question::Table => table(heap, file, arguments),
    }
}
