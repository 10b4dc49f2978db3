//! Why the call of a line is not made, and at which line a script stops.
use crate::files::{ReadError, WriteError};
use script::ArgumentError;
use std::alloc::AllocError;
use std::io;
use thiserror::Error;

/// Why the call of a line is not made.
#[derive(Debug, Drop, Error)]
pub enum CallError<'a> {
    /// Its first argument names no call that can be made there.
    #[error("no call at this stage: {0}")]
    NoCall(&'a str),
    /// It is no text.
    #[error("no text in UTF-8")]
    NoText,
    /// Its arguments cannot be read.
    #[error(transparent)]
    Argument(#[from] ArgumentError),
    /// A file that it names cannot be read.
    #[error(transparent)]
    Read(#[from] ReadError<'a>),
    /// A file that it names cannot be written.
    #[error(transparent)]
    Write(#[from] WriteError<'a>),
    /// It asks for a buffer, and none is made yet.
    #[error("no buffer is made yet: {0}")]
    NoBuffer(&'a str),
    /// It asks for a file, and none is held.
    #[error("no file is held: {0}")]
    NoFile(&'a str),
    /// The call of that name is refused.
    #[error("refused: {0}")]
    Refused(&'a str),
    /// It is the last, and more calls are wanted.
    #[error("the script ends before close")]
    Last,
    /// There is no memory, or nothing can be printed.
    #[error(transparent)]
    Io(#[from] io::Error),
}

impl From<AllocError> for CallError<'_> {
    fn from(error: AllocError) -> Self {
        CallError::Io(error.into())
    }
}

/// The line of a script whose call is not made, and why.
#[derive(Debug, Drop, Error)]
#[error("line {line}: {why}")]
pub struct ScriptError<'a> {
    /// The line's number.
    pub line: usize,
    /// Why its call is not made.
    pub why: CallError<'a>,
}
