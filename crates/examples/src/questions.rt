//! Questions about a file as data, and what a judged file or a working file answers to them.
use crate::refusals::{Refused, refused_by};
use editor::WorkingFile;
use faults::Fault;
use kinds::Reading;
use reader::{Entry, JudgedFile, RowAt};
use records::{Fill, Loca};
use texts::Zone;

/// A question with its arguments: the level stands first, then the cell, and the room of a list or table last.
#[derive(Clone, Copy)]
pub enum Question {
    /// The version.
    Version,
    /// Where the data begin.
    Start(usize),
    /// The pattern of a field.
    Field(usize, usize),
    /// Place and length of a row.
    Row(usize, usize, usize),
    /// Nothing, or why the numbers of a row are refused.
    Numbers(usize, usize, usize, usize),
    /// The three numbers of a list that began as 5, 5, 5, whatever that answered.
    List(usize, usize, usize, usize),
    /// Key, place and size of a block.
    Block(usize, usize),
    /// Text, length and bytes used of a block of that kind.
    LookFill(usize),
    LookLoca(usize),
    LookZone(usize),
    /// The four numbers of a FILL block.
    Fill(usize),
    /// The count of blocks, or why their table is refused.
    Table(usize),
    /// Key, place and size at an index of a table of three that began as 5, 5, 5, whatever that answered.
    Listed(usize, usize),
}

/// The numbers of an answer, and zeros behind them.
pub type Numbers = [usize; 4];

/// What a question is to be answered: numbers, or a refusal.
pub type Answer = Result<&'static [usize], Refused>;

/// An answer that is wanted, with zeros behind its numbers.
pub fn wanted(answer: Answer) -> Result<Numbers, Refused> {
    let numbers = answer?;
    let mut all = [0; 4];
    for (to, number) in all.iter_mut().zip(numbers) {
        *to = *number;
    }
    Ok(all)
}

/// An answer that was given, with its fault as a refusal.
pub fn told(answer: Result<Numbers, Fault>) -> Result<Numbers, Refused> {
    match answer {
        Ok(numbers) => Ok(numbers),
        Err(fault) => Err(refused_by(fault)),
    }
}

/// Where the text of a block begins, how long it is, and how many bytes its kind used.
pub fn seen<R: Copy>(reading: Reading<R>) -> Numbers {
    [reading.text, reading.length, reading.used, 0]
}

/// Key, place and size of a block.
fn parts(entry: Entry) -> Numbers {
    [entry.key as usize, entry.place, entry.size, 0]
}

/// The numbers of FILL.
fn numbers_of(fill: Fill) -> Numbers {
    [
        fill.range_method as usize,
        fill.range_multiple as usize,
        fill.doppler_method as usize,
        fill.doppler_multiple as usize,
    ]
}

/// The numbers of a list.
fn patterns(list: [u32; 3]) -> Numbers {
    [list[0] as usize, list[1] as usize, list[2] as usize, 0]
}

/// What stands in a table before.
const OTHER: Entry = Entry {
    key: 5,
    place: 5,
    size: 5,
};

// What a question answers, of any file that has the methods of a judged file.
macro_rules! answered {
    ($file:expr, $question:expr) => {
        match $question {
            Question::Version => Ok([$file.version()? as usize, 0, 0, 0]),
            Question::Start(level) => Ok([$file.start(level)?, 0, 0, 0]),
            Question::Field(level, number) => Ok([$file.field(level, number)? as usize, 0, 0, 0]),
            Question::Row(level, cell, row) => {
                let (place, length) = $file.row(RowAt { level, cell, row })?;
                Ok([place, length, 0, 0])
            }
            Question::Numbers(level, cell, row, room) => {
                let mut list = [5u32; 3];
                $file.numbers(RowAt { level, cell, row }, &mut list[..room.min(3)])?;
                Ok([0; 4])
            }
            Question::List(level, cell, row, room) => {
                let mut list = [5u32; 3];
                let _ = $file.numbers(RowAt { level, cell, row }, &mut list[..room.min(3)]);
                Ok(patterns(list))
            }
            Question::Block(level, number) => Ok(parts($file.block(level, number)?)),
            Question::LookFill(number) => Ok(seen($file.look::<Fill>(number)?)),
            Question::LookLoca(number) => Ok(seen($file.look::<Loca>(number)?)),
            Question::LookZone(number) => Ok(seen($file.look::<Zone>(number)?)),
            Question::Fill(number) => Ok(numbers_of($file.look::<Fill>(number)?.record)),
            Question::Table(room) => {
                let mut table = [OTHER; 3];
                Ok([$file.table(&mut table[..room.min(3)])?, 0, 0, 0])
            }
            Question::Listed(room, index) => {
                let mut table = [OTHER; 3];
                let _ = $file.table(&mut table[..room.min(3)]);
                Ok(parts(table[index.min(2)]))
            }
        }
    };
}

/// What a judged file answers.
pub fn ask_judged(file: &JudgedFile<'_>, question: Question) -> Result<Numbers, Fault> {
    answered!(file, question)
}

/// What a working file answers.
pub fn ask_working(file: &WorkingFile<'_>, question: Question) -> Result<Numbers, Fault> {
    answered!(file, question)
}
