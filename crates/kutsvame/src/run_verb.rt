//! The verb run: the calls of a script, which act on a working file and on a draft.
use crate::command_error::CommandError;
use crate::draft_verb::print_outcome;
use crate::progress::Progress;
use calls::{CallError, Line, Outcome, ScriptError, read_file};
use session::Session;

/// Prints how the call of a line came out.
fn print_call<'s>(
    rt: &HostRuntime,
    line: Line<'s>,
    called: Result<Outcome, CallError<'s>>,
) -> Result<(), CallError<'s>> {
    print_outcome(rt, line.number, line.verb, called?)?;
    Ok(())
}

/// Makes the call of a line, and prints how it came out; the session then, and why the line is not
/// done.
fn step<'s>(
    rt: &HostRuntime,
    session: Session,
    number: usize,
    bytes: &'s [u8],
) -> (Session, Result<(), CallError<'s>>) {
    match Line::read(number, bytes) {
        Ok(None) => (session, Ok(())),
        Ok(Some(line)) => {
            let (session, called) = session.call(rt, line);
            (session, print_call(rt, line, called))
        }
        Err(error) => (session, Err(error)),
    }
}

/// Makes the calls of a script one after the other, also after a call that is refused, up to a line
/// that is no call; that line, if there is one.
fn follow<'s>(rt: &HostRuntime, script: &'s [u8]) -> Result<(), ScriptError<'s>> {
    let mut session = Session::start();
    let mut progress = Progress::start(rt);
    for (number, bytes) in (1..).zip(script.split_inclusive(|byte| *byte == b'\n')) {
        if progress.is_due(rt) {
            let _ = eprintln!(rt; "kutsvame: line {number}");
        }
        let (next, outcome) = step(rt, session, number, bytes);
        session = next;
        if let Err(why) = outcome {
            session.end();
            return Err(ScriptError { line: number, why });
        }
    }
    session.end();
    Ok(())
}

/// Does what the argument SCRIPT asks.
pub fn run_verb<'a>(rt: &HostRuntime, arguments: &'a [String]) -> Result<(), CommandError<'a>> {
    let [name] = arguments else {
        return Err(CommandError::Misused("wrong count of words", "run"));
    };
    let script = read_file(rt, name.as_str())?;
    match follow(rt, script.as_slice()) {
        Ok(()) => Ok(()),
        Err(error) => {
            eprintln!(rt; "kutsvame: {error}")?;
            Err(CommandError::Reported)
        }
    }
}
