//! The verb row: the numbers of a row.
use crate::arguments::LEVEL;
use crate::command_error::{CommandError, number, read_accepted};
use printed::{RowError, row_patterns};
use reader::{JudgedFile, RowAt};
use std::io;
use std::num::f32_from_bits_with_nan;

/// Prints the numbers of the patterns, one to a line.
fn print_numbers(rt: &HostRuntime, patterns: &[u32]) -> io::Result<()> {
    for pattern in patterns {
        let value = f32_from_bits_with_nan(*pattern);
        println!(rt; "{pattern:08x} {value}")?;
    }
    Ok(())
}

/// Prints the row that is asked for.
fn row_of_file<'a>(rt: &HostRuntime, name: &'a str, at: RowAt) -> Result<(), CommandError<'a>> {
    let (bytes, _) = read_accepted(rt, name)?;
    let file = JudgedFile::of(bytes.as_slice());
    let patterns = row_patterns(rt.alloc(), &file, at).map_err(|error| match error {
        RowError::Refused(fault) => CommandError::Refused(name, fault),
        RowError::OutOfMemory(error) => CommandError::from(error),
    })?;
    print_numbers(rt, patterns.as_slice())?;
    Ok(())
}

/// Does what the arguments FILE CELL ROW [LEVEL] ask.
pub fn row_verb<'a>(rt: &HostRuntime, arguments: &'a [String]) -> Result<(), CommandError<'a>> {
    let (file, cell, row, level) = match arguments {
        [file, cell, row] => (file, number(cell.as_str())?, number(row.as_str())?, LEVEL),
        [file, cell, row, level] => (
            file,
            number(cell.as_str())?,
            number(row.as_str())?,
            number(level.as_str())?,
        ),
        _ => return Err(CommandError::Misused("wrong count of words", "row")),
    };
    row_of_file(rt, file.as_str(), RowAt { level, cell, row })
}
