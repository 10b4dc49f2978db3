//! A run: the working file and the draft that the lines of a script act on.
use crate::names::Call;
use crate::working::Working;
use calls::{
    CallError, Drafting, Line, Outcome, Room, all_numbers, bytes_text, only_bytes, only_number,
    write_whole,
};
use draft::Start;
use faults::Fault;
use format::judge;
use script::{ArgumentError, Arguments};

/// A draft that is open, in a buffer of its own.
struct Opened {
    drafting: Drafting,
    room: Room,
}

/// A working file and a draft, as far as they are made. It is no `Drop`, as a draft is none:
/// whoever has it ends it.
pub struct Session {
    working: Option<Working>,
    draft: Option<Opened>,
}

/// What a call leaves: the session, and how the call came out, or why the line is not done.
type Called<'a> = (Session, Result<Outcome, CallError<'a>>);

/// How making a buffer came out, by how many bytes its file has.
fn held(size: usize) -> Outcome {
    match size {
        0 => Outcome::NoFile,
        size => Outcome::Held(size),
    }
}

/// Judges the bytes that the only argument says.
fn judge_bytes<'a>(rt: &HostRuntime, arguments: Arguments<'a>) -> Result<Outcome, CallError<'a>> {
    Ok(judge(only_bytes(rt, arguments)?.as_slice()).into())
}

/// A buffer of so many bytes, as the first argument says, that begins with the bytes that the other
/// says; zeros stand after.
fn make<'a>(rt: &HostRuntime, mut arguments: Arguments<'a>) -> Result<Working, CallError<'a>> {
    let most = arguments.number()?;
    let mut bytes = only_bytes(rt, arguments)?;
    let size = bytes.len();
    bytes.resize(most, 0)?;
    Ok(Working::of(Room { bytes, most }, size))
}

/// Writes the file under the name that the first argument is, in place of another only where
/// `--force` stands after.
fn save<'a>(rt: &HostRuntime, working: &Working, line: Line<'a>) -> Result<Outcome, CallError<'a>> {
    let mut arguments = line.arguments;
    let name = arguments.next().ok_or(ArgumentError::Missing)?;
    let over = match arguments.next() {
        None => false,
        Some("--force") => true,
        Some(_) => return Err(CallError::Argument(ArgumentError::TooMany)),
    };
    arguments.end()?;
    let bytes = working.file();
    if bytes.is_empty() {
        return Err(CallError::NoFile(line.verb));
    }
    write_whole(rt, name, bytes, over)?;
    Ok(Outcome::Number(bytes.len()))
}

/// The bytes of the buffer that the arguments ask for: from which, and how many.
fn show_bytes<'a>(
    rt: &HostRuntime,
    working: &Working,
    mut arguments: Arguments<'a>,
) -> Result<Outcome, CallError<'a>> {
    let from = arguments.number()?;
    let count = only_number(arguments)?;
    Ok(Outcome::Items(bytes_text(rt.alloc(), working.bytes(from, count))?))
}

/// Makes a call of the working file.
fn call_working<'a>(
    rt: &HostRuntime,
    working: &mut Working,
    call: Call,
    line: Line<'a>,
) -> Result<Outcome, CallError<'a>> {
    match call {
        Call::Change(edit) => working.edit(rt, edit, line.arguments),
        Call::Ask(question) => working.ask(rt.alloc(), question, line.arguments),
        Call::Bytes => show_bytes(rt, working, line.arguments),
        Call::Save => save(rt, working, line),
        _ => Err(CallError::NoCall(line.verb)),
    }
}

/// Begins a draft, as the arguments say: the capacity of its buffer, what it begins with, and its
/// values.
fn begin<'a>(
    rt: &HostRuntime,
    mut arguments: Arguments<'a>,
) -> Result<Result<Opened, Fault>, CallError<'a>> {
    let capacity = arguments.number()?;
    let start = Start {
        version: arguments.number()?,
        kind: arguments.number()?,
        bins: arguments.number()?,
        ranges: arguments.number()?,
    };
    let values = all_numbers(rt.alloc(), arguments)?;
    let mut room = Room::of_zeros(rt.alloc(), capacity, capacity)?;
    match Drafting::begin(&mut room, start, values.as_slice())? {
        Ok(drafting) => Ok(Ok(Opened { drafting, room })),
        Err(fault) => Ok(Err(fault)),
    }
}

/// Gives up a draft, if one is open.
fn give_up(draft: Option<Opened>) {
    match draft {
        Some(Opened { drafting, room: _ }) => drafting.give_up(),
        None => {}
    }
}

impl Session {
    /// A session with no buffer and no draft.
    pub fn start() -> Session {
        Session {
            working: None,
            draft: None,
        }
    }

    /// Ends the session; a draft that is open is given up.
    pub fn end(self) {
        let Session { working: _, draft } = self;
        give_up(draft);
    }

    /// Makes the working buffer anew.
    fn make<'a>(self, rt: &HostRuntime, arguments: Arguments<'a>) -> Called<'a> {
        // The old buffer goes before the new one is made, so that there are never two.
        let Session { working: _, draft } = self;
        match make(rt, arguments) {
            Ok(working) => {
                let outcome = held(working.size());
                let working = Some(working);
                (Session { working, draft }, Ok(outcome))
            }
            Err(error) => {
                let working = None;
                (Session { working, draft }, Err(error))
            }
        }
    }

    /// Begins a draft; one that is open is given up before.
    fn begin<'a>(self, rt: &HostRuntime, arguments: Arguments<'a>) -> Called<'a> {
        let Session { working, draft } = self;
        give_up(draft);
        match begin(rt, arguments) {
            Ok(Ok(opened)) => {
                let draft = Some(opened);
                (Session { working, draft }, Ok(Outcome::Done))
            }
            Ok(Err(fault)) => {
                let draft = None;
                (Session { working, draft }, Ok(Outcome::Refused(fault)))
            }
            Err(error) => {
                let draft = None;
                (Session { working, draft }, Err(error))
            }
        }
    }

    /// Makes a call of the draft; where it closes the draft, the file is the working file from
    /// there on.
    fn step<'a>(self, rt: &HostRuntime, line: Line<'a>) -> Called<'a> {
        let Session { working, draft } = self;
        let (drafting, mut room) = match draft {
            Some(Opened { drafting, room }) => (drafting, room),
            None => {
                let draft = None;
                return (
                    Session { working, draft },
                    Err(CallError::NoCall(line.verb)),
                );
            }
        };
        let (drafting, outcome) = drafting.call(rt, &mut room, line);
        match drafting {
            Drafting::Closed(length) => {
                let working = Some(Working::of(room, length));
                let draft = None;
                (Session { working, draft }, outcome)
            }
            open => {
                let draft = Some(Opened {
                    drafting: open,
                    room,
                });
                (Session { working, draft }, outcome)
            }
        }
    }

    /// Makes a call of the working file.
    fn call_working<'a>(mut self, rt: &HostRuntime, call: Call, line: Line<'a>) -> Called<'a> {
        let outcome = match &mut self.working {
            Some(working) => call_working(rt, working, call, line),
            None => Err(CallError::NoBuffer(line.verb)),
        };
        (self, outcome)
    }

    /// Makes the call of a line; how it came out, or why the line is not done.
    pub fn call<'a>(
        self,
        rt: &HostRuntime,
        line: Line<'a>,
    ) -> (Session, Result<Outcome, CallError<'a>>) {
        match Call::named(line.verb) {
            Call::Judge => (self, judge_bytes(rt, line.arguments)),
            Call::Make => self.make(rt, line.arguments),
            Call::Begin => self.begin(rt, line.arguments),
            Call::Other => self.step(rt, line),
            call => self.call_working(rt, call, line),
        }
    }
}
