//! The verb show: the sizes, fields and blocks of a file, as a reader of a level sees them.
use crate::arguments::LEVEL;
use crate::blocks_shown::show_blocks;
use crate::command_error::{CommandError, number, read_accepted};
use format::Layout;
use printed::{FieldLine, Opening, SizesText};
use reader::{JudgedFile, RowAt};
use std::io;

/// Prints a line for each field that a reader of that level sees in the file.
fn show_fields(rt: &HostRuntime, file: &JudgedFile, level: usize) -> io::Result<()> {
    for number in 1..=20 {
        if let Ok(pattern) = file.field(level, number) {
            rt.println(FieldLine::of(number, pattern))?;
        }
    }
    Ok(())
}

/// Prints what a reader of that level sees in an accepted file.
fn show_accepted<'a>(
    rt: &HostRuntime,
    name: &'a str,
    bytes: &[u8],
    layout: Layout,
    level: usize,
) -> Result<(), CommandError<'a>> {
    let file = JudgedFile::of(bytes);
    let start = file
        .start(level)
        .map_err(|fault| CommandError::Refused(name, fault))?;
    let version = layout.version;
    rt.println(Opening {
        version,
        level,
        start,
    })?;
    let first = RowAt {
        level,
        cell: 1,
        row: 1,
    };
    if file.row(first).is_ok() {
        rt.println(SizesText(layout.sizes))?;
    } else {
        rt.println("layout unknown at this level")?;
    }
    show_fields(rt, &file, level)?;
    show_blocks(rt, &file, layout, level)?;
    Ok(())
}

/// Prints what a reader of that level sees in a file.
fn show_file<'a>(rt: &HostRuntime, name: &'a str, level: usize) -> Result<(), CommandError<'a>> {
    let (bytes, layout) = read_accepted(rt, name)?;
    show_accepted(rt, name, bytes.as_slice(), layout, level)
}

/// Does what the arguments FILE [LEVEL] ask.
pub fn show_verb<'a>(rt: &HostRuntime, arguments: &'a [String]) -> Result<(), CommandError<'a>> {
    match arguments {
        [file] => show_file(rt, file.as_str(), LEVEL),
        [file, level] => show_file(rt, file.as_str(), number(level.as_str())?),
        _ => Err(CommandError::Misused("wrong count of words", "show")),
    }
}
