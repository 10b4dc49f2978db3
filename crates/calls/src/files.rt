//! The reading of a file, and the writing of one, whole or not at all.
use std::fs::File;
use std::io::Write;
use std::{fs, io, process};
use thiserror::Error;

/// A file that cannot be read, and why.
#[derive(Debug, Drop, Error)]
#[error("{name}: cannot be read: {error}")]
pub struct ReadError<'a> {
    name: &'a str,
    error: io::Error,
}

/// The bytes of a file.
pub fn read_file<'a>(rt: &HostRuntime, name: &'a str) -> Result<Vec<u8>, ReadError<'a>> {
    fs::read(rt, name).map_err(|error| ReadError { name, error })
}

/// Why a file is not written.
#[derive(Debug, Drop, Error)]
pub enum WriteError<'a> {
    /// A file of that name is there already.
    #[error("{0}: is there already; it is written over only with --force")]
    Taken(&'a str),
    /// The file of that name cannot be written, and why.
    #[error("{0}: cannot be written: {1}")]
    Failed(&'a str, io::Error),
}

/// Refuses a name that a file has already, unless the new one may take its place.
pub fn check_free<'a>(rt: &HostRuntime, name: &'a str, over: bool) -> Result<(), WriteError<'a>> {
    match fs::exists(rt, name) {
        Ok(there) if there && !over => Err(WriteError::Taken(name)),
        Ok(_) => Ok(()),
        Err(error) => Err(WriteError::Failed(name, error)),
    }
}

/// Writes a new file of that name.
fn write_new(rt: &HostRuntime, name: &str, bytes: &[u8]) -> io::Result<()> {
    let mut file = File::create_new(rt, name)?;
    file.write_all(bytes)?;
    file.sync_all()
}

/// Gives a file its name, in place of the file that has it, or only where none has.
fn name_file(rt: &HostRuntime, from: &str, to: &str, over: bool) -> io::Result<()> {
    if over {
        return fs::rename(rt, from, to);
    }
    fs::hard_link(rt, from, to)?;
    fs::remove_file(rt, from)
}

/// Writes a file beside the one of that name, and gives it the name once it is whole.
fn write_beside(rt: &HostRuntime, name: &str, bytes: &[u8], over: bool) -> io::Result<()> {
    let number = process::id(rt.process());
    let beside = format!(in rt.alloc(); "{name}.{number}.new")?;
    let outcome = match write_new(rt, beside.as_str(), bytes) {
        Ok(()) => name_file(rt, beside.as_str(), name, over),
        Err(error) => Err(error),
    };
    if outcome.is_err() {
        // What was begun is taken away; where that fails too, the first error is told.
        let _ = fs::remove_file(rt, beside.as_str());
    }
    outcome
}

/// Writes the file of that name, whole or not at all; in place of another only where `over` says
/// so.
pub fn write_whole<'a>(
    rt: &HostRuntime,
    name: &'a str,
    bytes: &[u8],
    over: bool,
) -> Result<(), WriteError<'a>> {
    check_free(rt, name, over)?;
    write_beside(rt, name, bytes, over).map_err(|error| WriteError::Failed(name, error))
}
