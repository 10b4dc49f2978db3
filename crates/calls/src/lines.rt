//! The lines of a script: each has one call, by its verb and the arguments after it.
ghost use Rattle.calls.specs.Lines.{IsCallOf};

use crate::errors::CallError;
use script::Arguments;
use std::str::from_utf8;

/// A line that has a call.
#[derive(Clone, Copy)]
pub struct Line<'a> {
    /// The line's number in the script, from 1.
    pub number: usize,
    /// The name of the call.
    pub verb: &'a str,
    /// The arguments after it.
    pub arguments: Arguments<'a>,
}

impl<'a> Line<'a> {
    /// The call of a line; nothing where the line is blank or a comment.
    pub fn of(number: usize, text: &'a str) -> Option<Line<'a>>
        ensures { IsCallOf number text.now result }
    {
        let mut arguments = Arguments::of(text);
        let verb = arguments.next()?;
        if verb.starts_with('#') {
            return None;
        }
        Some(Line {
            number,
            verb,
            arguments,
        })
    }

    /// The same of a line that is given by its bytes, perhaps with a line's end; refuses bytes that
    /// are no text.
    pub fn read(number: usize, bytes: &'a [u8]) -> Result<Option<Line<'a>>, CallError<'a>> {
        match from_utf8(bytes) {
            Ok(text) => Ok(Line::of(number, text.lines().next().unwrap_or(""))),
            Err(_) => Err(CallError::NoText),
        }
    }
}
