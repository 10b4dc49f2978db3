//! The verbs raise and add: a file is read, one edit made, and the new file written.
ghost use Rattle.std.specs.Prelude.{IfOk, string_bytes, ◌≡◌};
ghost use Rattle.kutsvame.specs.Lines.{raised_text, added_text};

use crate::arguments::split_force;
use crate::command_error::{CommandError, read_accepted};
use crate::judge::judge_bytes;
use calls::{Outcome, Room, check_free, write_whole};
use format::{Layout, MOST_BYTES, judge};
use script::Arguments;
use session::{Edit, Working};
use std::alloc::{AllocError, Global};

/// What the arguments ask for.
#[derive(Clone, Copy)]
struct Request<'a> {
    /// The name of the file that is read.
    from: &'a str,
    /// The name of the new file.
    to: &'a str,
    /// Whether it may take the place of another.
    over: bool,
    /// The arguments of the edit.
    arguments: &'a [String],
}

/// What the arguments IN OUT WORD... [--force] ask for.
fn request_of<'a>(
    verb: &'static str,
    arguments: &'a [String],
) -> Result<Request<'a>, CommandError<'a>> {
    let (arguments, over) = split_force(arguments);
    match arguments {
        [from, to, arguments @ ..] => Ok(Request {
            from: from.as_str(),
            to: to.as_str(),
            over,
            arguments,
        }),
        _ => Err(CommandError::Misused("wrong count of words", verb)),
    }
}

/// The arguments as those of one line.
fn line_of(heap: Global, arguments: &[String]) -> Result<String, AllocError> {
    let mut line = String::new(heap);
    for argument in arguments {
        line.push_str(argument.as_str())?;
        line.push(' ')?;
    }
    Ok(line)
}

/// Reads the file and makes the edit, in a buffer that grows as it must; the file then, and the
/// layout that it had.
fn change<'a>(
    rt: &HostRuntime,
    verb: &'static str,
    edit: Edit,
    request: Request<'a>,
) -> Result<(Working, Layout), CommandError<'a>> {
    check_free(rt, request.to, request.over)?;
    let (bytes, layout) = read_accepted(rt, request.from)?;
    let size = bytes.len();
    let mut working = Working::of(
        Room {
            bytes,
            most: MOST_BYTES,
        },
        size,
    );
    let line = line_of(rt.alloc(), request.arguments)?;
    match working.edit(rt, edit, Arguments::of(line.as_str())) {
        Ok(Outcome::Refused(fault)) => Err(CommandError::Refused(request.from, fault)),
        Ok(_) => Ok((working, layout)),
        Err(error) => {
            eprintln!(rt; "kutsvame: {verb}: {error}")?;
            Err(CommandError::Reported)
        }
    }
}

/// Writes the new file, and prints what was done and the line of judge for it.
fn write_changed<'a>(
    rt: &HostRuntime,
    request: Request<'a>,
    file: &[u8],
    done: &str,
) -> Result<(), CommandError<'a>> {
    write_whole(rt, request.to, file, request.over)?;
    rt.println(done)?;
    judge_bytes(rt, request.to, file)?;
    Ok(())
}

/// What is said of a file that was raised.
fn raised_line(
    heap: Global,
    name: &str,
    from: u16,
    to: u16,
    size: usize,
) -> Result<String, AllocError>
    ensures { IfOk result (λ s. string_bytes s ≡ raised_text name.now from to size) }
{
    format!(in heap; "{name}: raised from version {from} to {to}, {size} bytes")
}

/// What is said of a file that has a block more.
fn added_line(
    heap: Global,
    name: &str,
    kind: &str,
    number: usize,
    size: usize,
) -> Result<String, AllocError>
    ensures { IfOk result (λ s. string_bytes s ≡ added_text name.now kind.now number size) }
{
    format!(in heap; "{name}: {kind} added as block {number}, {size} bytes")
}

/// Does what the arguments IN OUT VALUE... [--force] ask.
pub fn raise_verb<'a>(rt: &HostRuntime, arguments: &'a [String]) -> Result<(), CommandError<'a>> {
    let request = request_of("raise", arguments)?;
    let (working, layout) = change(rt, "raise", Edit::Raise, request)?;
    let file = working.file();
    let now = judge(file).map_err(|fault| CommandError::Refused(request.to, fault))?;
    let done = raised_line(
        rt.alloc(),
        request.to,
        layout.version,
        now.version,
        file.len(),
    )?;
    write_changed(rt, request, file, done.as_str())
}

/// Does what the arguments IN OUT KIND NUMBER... [TEXT] [--force] ask.
pub fn add_verb<'a>(rt: &HostRuntime, arguments: &'a [String]) -> Result<(), CommandError<'a>> {
    let request = request_of("add", arguments)?;
    let Some(kind) = request.arguments.first() else {
        return Err(CommandError::Misused("wrong count of words", "add"));
    };
    let (working, _) = change(rt, "add", Edit::Add, request)?;
    let file = working.file();
    let now = judge(file).map_err(|fault| CommandError::Refused(request.to, fault))?;
    let done = added_line(
        rt.alloc(),
        request.to,
        kind.as_str(),
        now.blocks,
        file.len(),
    )?;
    write_changed(rt, request, file, done.as_str())
}
