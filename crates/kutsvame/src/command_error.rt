//! Why what the command line asks is not done, and what is said of it.
ghost use Rattle.std.specs.Prelude.{IfErr};
ghost use Rattle.std.specs.Result.{result_ok};
ghost use Rattle.kutsvame.specs.Misuse.{SaysNoNumber};
ghost use Rattle.script.specs.Numbers.{NamesNumber};

use crate::help::help_text;
use calls::{ReadError, WriteError, read_file};
use faults::Fault;
use format::{Layout, judge};
use printed::Refused;
use script::Number;
use std::alloc::AllocError;
use std::io;
use std::process::ExitCode;
use thiserror::Error;

/// Why not all is done.
#[derive(Debug, Drop, Error)]
pub enum CommandError<'a> {
    /// The arguments name nothing to do: why, and the argument.
    #[error("{0}: {1}")]
    Misused(&'static str, &'a str),
    /// A file cannot be read.
    #[error(transparent)]
    Read(#[from] ReadError<'a>),
    /// The file of that name, or a question about it, is refused.
    #[error("{0}: {refused}", refused = Refused(*.1))]
    Refused(&'a str, Fault),
    /// A file cannot be written.
    #[error(transparent)]
    Write(#[from] WriteError<'a>),
    /// A line that is printed already says why.
    #[error("not done, as is said above")]
    Reported,
    /// The arguments cannot be read, nothing can be printed, or there is no memory.
    #[error(transparent)]
    Io(#[from] io::Error),
}

impl From<AllocError> for CommandError<'_> {
    fn from(error: AllocError) -> Self {
        CommandError::Io(error.into())
    }
}

impl CommandError<'_> {
    /// Says on standard error why not all is done, unless a line of judge has said it; the status,
    /// or the error that ends the program.
    pub fn report(self, rt: &HostRuntime) -> io::Result<ExitCode> {
        match self {
            CommandError::Misused(why, argument) => {
                let misused = CommandError::Misused(why, argument);
                eprintln!(rt; "kutsvame: {misused}\n")?;
                rt.eprint(help_text(rt.alloc())?)?;
            }
            CommandError::Reported => {}
            CommandError::Io(error) => return Err(error),
            error => rt.eprintln(error)?,
        }
        Ok(ExitCode::FAILURE)
    }
}

/// The bytes of a file that judging accepts, and its layout.
pub fn read_accepted<'a>(
    rt: &HostRuntime,
    name: &'a str,
) -> Result<(Vec<u8>, Layout), CommandError<'a>> {
    let bytes = read_file(rt, name)?;
    let layout = judge(bytes.as_slice()).map_err(|fault| CommandError::Refused(name, fault))?;
    Ok((bytes, layout))
}

/// The number that an argument writes in decimal digits, if it fits its type.
pub fn number<N: Number>(argument: &str) -> Result<N, CommandError<'_>>
    ensures number { NamesNumber N.number N.part argument.now (result_ok result) }
    ensures told { IfErr result (SaysNoNumber argument.now) }
{
    N::named(argument).ok_or(CommandError::Misused("no decimal number", argument))
}
