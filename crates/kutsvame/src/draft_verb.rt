//! The verb draft: a new file, written from nothing by the calls of a script.
ghost use Rattle.std.specs.Prelude.{◌≡◌, IfOk, IfErr, IsNone, MatchOption};
ghost use Rattle.calls.specs.declared.drafting.Drafting.TheVariants.{Closed};

use crate::arguments::split_force;
use crate::command_error::{CommandError, number};
use crate::judge::judge_bytes;
use calls::{
    Answer, CallError, Drafting, Line, Outcome, Room, ScriptError, check_free, write_whole,
};
use draft::Start;
use format::MOST_BYTES;
use std::alloc::{AllocError, Global};
use std::io;
use std::io::Read;

/// How many bytes the buffer of a draft has at first.
const LEAST: usize = 256;

/// What the arguments ask for.
#[derive(Clone, Copy)]
struct Request<'a> {
    /// The name of the new file.
    name: &'a str,
    /// Whether it may take the place of another.
    over: bool,
    /// What the draft begins with.
    start: Start,
    /// The arguments of the values for the other fields.
    values: &'a [String],
}

/// What the arguments OUT VERSION KIND BINS RANGES VALUE... [--force] ask for.
fn request_of<'a>(arguments: &'a [String]) -> Result<Request<'a>, CommandError<'a>> {
    let (arguments, over) = split_force(arguments);
    match arguments {
        [name, version, kind, bins, ranges, values @ ..] => Ok(Request {
            name: name.as_str(),
            over,
            start: Start {
                version: number(version.as_str())?,
                kind: number(kind.as_str())?,
                bins: number(bins.as_str())?,
                ranges: number(ranges.as_str())?,
            },
            values,
        }),
        _ => Err(CommandError::Misused("wrong count of words", "draft")),
    }
}

/// The numbers that the arguments write.
fn numbers<'a>(heap: Global, arguments: &'a [String]) -> Result<Vec<u32>, CommandError<'a>> {
    let mut values = Vec::new(heap);
    for argument in arguments {
        values
            .push(number(argument.as_str())?)
            .map_err(AllocError::from)?;
    }
    Ok(values)
}

/// Prints the line of a call, by the number of its line in the script.
pub fn print_outcome(
    rt: &HostRuntime,
    line: usize,
    verb: &str,
    outcome: Outcome,
) -> io::Result<()> {
    rt.println(Answer {
        line,
        verb,
        outcome,
    })
}

/// Begins a draft, and prints how that came out, under the number 0.
fn begin<'s>(
    rt: &HostRuntime,
    room: &mut Room,
    start: Start,
    values: &[u32],
) -> Result<Drafting, CallError<'s>> {
    let verb = "begin";
    match Drafting::begin(room, start, values)? {
        Ok(drafting) => match print_outcome(rt, 0, verb, Outcome::Done) {
            Ok(()) => Ok(drafting),
            Err(error) => {
                drafting.give_up();
                Err(error.into())
            }
        },
        Err(fault) => {
            print_outcome(rt, 0, verb, Outcome::Refused(fault))?;
            Err(CallError::Refused(verb))
        }
    }
}

/// Prints how the call of a line came out; fails where it was refused.
fn print_call<'s>(
    rt: &HostRuntime,
    line: Line<'s>,
    called: Result<Outcome, CallError<'s>>,
) -> Result<(), CallError<'s>> {
    let outcome = called?;
    let refused = matches!(&outcome, Outcome::Refused(_));
    print_outcome(rt, line.number, line.verb, outcome)?;
    if refused {
        return Err(CallError::Refused(line.verb));
    }
    Ok(())
}

/// Makes the call of a line, and prints how it came out; the stage of the draft then, and why the
/// line is not done.
fn step<'s>(
    rt: &HostRuntime,
    drafting: Drafting,
    room: &mut Room,
    number: usize,
    bytes: &'s [u8],
) -> (Drafting, Result<(), CallError<'s>>) {
    match Line::read(number, bytes) {
        Ok(None) => (drafting, Ok(())),
        Ok(Some(line)) => {
            let (drafting, called) = drafting.call(rt, room, line);
            (drafting, print_call(rt, line, called))
        }
        Err(error) => (drafting, Err(error)),
    }
}

/// The length of a draft that is closed, if no call was refused; else the line that was refused, or
/// the last, of that number.
fn finish<'s>(
    drafting: Drafting,
    refused: Option<ScriptError<'s>>,
    last: usize,
) -> Result<usize, ScriptError<'s>>
    ensures closed { IfOk result (λ length. (drafting ≡ Closed length) × IsNone refused.entry) }
    ensures told { IfErr result (λ error. MatchOption refused.entry (error.line ≡ last) (λ first. error.line ≡ first.line)) }
{
    match (drafting, refused) {
        (Drafting::Closed(length), None) => Ok(length),
        (open, Some(error)) => {
            open.give_up();
            Err(error)
        }
        (open, None) => {
            open.give_up();
            Err(ScriptError {
                line: last,
                why: CallError::Last,
            })
        }
    }
}

/// Makes the calls of a script one after the other, also after a call that is refused, up to a line
/// that has no call; the length of the draft when it is closed, or the line that keeps it from
/// being written.
fn follow<'s>(
    rt: &HostRuntime,
    mut drafting: Drafting,
    room: &mut Room,
    script: &'s [u8],
) -> Result<usize, ScriptError<'s>> {
    let mut refused = None;
    let mut last = 0;
    for (number, bytes) in (1..).zip(script.split_inclusive(|byte| *byte == b'\n')) {
        last = number;
        let (next, outcome) = step(rt, drafting, room, number, bytes);
        drafting = next;
        match outcome {
            Ok(()) => {}
            Err(CallError::Refused(verb)) => {
                refused = refused.or(Some(ScriptError {
                    line: number,
                    why: CallError::Refused(verb),
                }));
            }
            Err(why) => {
                drafting.give_up();
                return Err(ScriptError { line: number, why });
            }
        }
    }
    finish(drafting, refused, last)
}

/// Begins a draft and makes the calls of a script; the length of the draft when it is closed, or
/// the line that keeps it from being written.
fn draft_script<'s>(
    rt: &HostRuntime,
    room: &mut Room,
    start: Start,
    values: &[u32],
    script: &'s [u8],
) -> Result<usize, ScriptError<'s>> {
    match begin(rt, room, start, values) {
        Ok(drafting) => follow(rt, drafting, room, script),
        Err(why) => Err(ScriptError { line: 0, why }),
    }
}

/// Judges the draft and writes it.
fn write_draft<'a>(
    rt: &HostRuntime,
    request: Request<'a>,
    bytes: &[u8],
) -> Result<(), CommandError<'a>> {
    if !judge_bytes(rt, request.name, bytes)? {
        return Err(CommandError::Reported);
    }
    write_whole(rt, request.name, bytes, request.over)?;
    Ok(())
}

/// Does what the arguments OUT VERSION KIND BINS RANGES VALUE... [--force] ask.
pub fn draft_verb<'a>(rt: &HostRuntime, arguments: &'a [String]) -> Result<(), CommandError<'a>> {
    let request = request_of(arguments)?;
    let values = numbers(rt.alloc(), request.values)?;
    check_free(rt, request.name, request.over)?;
    let mut script = Vec::new(rt.alloc());
    rt.reader().read_to_end(&mut script)?;
    let mut room = Room::of_zeros(rt.alloc(), LEAST, MOST_BYTES)?;
    let values = values.as_slice();
    match draft_script(rt, &mut room, request.start, values, script.as_slice()) {
        Ok(length) => write_draft(rt, request, room.bytes.get(..length).unwrap_or(&[])),
        Err(error) => {
            eprintln!(rt; "kutsvame: {error}")?;
            Err(CommandError::Reported)
        }
    }
}
