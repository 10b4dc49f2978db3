//! Why the arguments of a call cannot be read.
ghost use Rattle.std.specs.Prelude.{◌≡◌, Some};
ghost use Rattle.script.specs.ArgumentError.{argument_error_text};

use std::{error, fmt};

/// Why an argument, or a line of arguments, cannot be read.
#[derive(Clone, Copy, PartialEq, Eq, Debug)]
pub enum ArgumentError {
    /// The line ends before the call has all its arguments.
    Missing,
    /// The line has more arguments than the call takes.
    TooMany,
    /// An argument is no decimal number that fits its place.
    NoNumber,
    /// An argument does not say bytes.
    NoBytes,
    /// The count of hexadecimal digits is odd.
    OddDigits,
    /// A character among hexadecimal digits is none.
    NoDigit,
    /// A key has another count of bytes than four.
    NoKey,
    /// An argument names no kind of block.
    NoKind,
    /// There is no memory for the bytes.
    OutOfMemory,
}

impl ArgumentError {
    /// What is said of it.
    pub fn text(self) -> &'static str
        ensures { result.now ≡ argument_error_text self }
    {
        match self {
            ArgumentError::Missing => "a word is missing",
            ArgumentError::TooMany => "more words than the call takes",
            ArgumentError::NoNumber => "no decimal number that fits",
            ArgumentError::NoBytes =>
                "no bytes: neither x and digits, nor a text in quotes, nor @ and a path",
            ArgumentError::OddDigits => "an odd count of hexadecimal digits",
            ArgumentError::NoDigit => "no hexadecimal digit",
            ArgumentError::NoKey => "no key of four bytes",
            ArgumentError::NoKind => "no kind of block",
            ArgumentError::OutOfMemory => "out of memory",
        }
    }
}

impl fmt::Display for ArgumentError {
    ghost output = { λ x. Some (argument_error_text x) };

    fn fmt<W: fmt::Write>(&self, f: &mut fmt::Formatter<W>) -> fmt::Result {
        f.write_str(self.text())
    }
}

impl error::Error for ArgumentError {}
