//! How a call came out, and the line that says it.
ghost use Rattle.std.specs.Prelude.{◌≡◌, Some};
ghost use Rattle.calls.specs.Outcome.{answer_text, outcome_of, number_or_refused, span_or_refused, head_or_refused, judged_or_refused};

use crate::listed::HexWord;
use faults::Fault;
use format::Layout;
use reader::Entry;
use std::fmt;

/// How a call came out.
#[derive(Drop)]
pub enum Outcome {
    /// It did what it says.
    Done,
    /// It was refused, and changed nothing.
    Refused(Fault),
    /// It answered a number, or a file's length.
    Number(usize),
    /// It answered a place and a length.
    Span(usize, usize),
    /// It judged a file that has that layout.
    Judged(Layout),
    /// It made a buffer with a file of so many bytes.
    Held(usize),
    /// It made a buffer without a file.
    NoFile,
    /// It answered a block, by its head.
    Head(Entry),
    /// It answered a list of items, each after a space.
    Items(String),
}

impl From<Result<(), Fault>> for Outcome {
    ghost from_gives = { λ answer outcome. outcome ≡ outcome_of answer };

    fn from(answer: Result<(), Fault>) -> Outcome {
        match answer {
            Ok(()) => Outcome::Done,
            Err(fault) => Outcome::Refused(fault),
        }
    }
}

impl From<Result<usize, Fault>> for Outcome {
    ghost from_gives = { λ answer outcome. outcome ≡ number_or_refused answer };

    fn from(answer: Result<usize, Fault>) -> Outcome {
        match answer {
            Ok(number) => Outcome::Number(number),
            Err(fault) => Outcome::Refused(fault),
        }
    }
}

impl From<Result<(usize, usize), Fault>> for Outcome {
    ghost from_gives = { λ answer outcome. outcome ≡ span_or_refused answer };

    fn from(answer: Result<(usize, usize), Fault>) -> Outcome {
        match answer {
            Ok((place, length)) => Outcome::Span(place, length),
            Err(fault) => Outcome::Refused(fault),
        }
    }
}

impl From<Result<Entry, Fault>> for Outcome {
    ghost from_gives = { λ answer outcome. outcome ≡ head_or_refused answer };

    fn from(answer: Result<Entry, Fault>) -> Outcome {
        match answer {
            Ok(entry) => Outcome::Head(entry),
            Err(fault) => Outcome::Refused(fault),
        }
    }
}

impl From<Result<Layout, Fault>> for Outcome {
    ghost from_gives = { λ answer outcome. outcome ≡ judged_or_refused answer };

    fn from(answer: Result<Layout, Fault>) -> Outcome {
        match answer {
            Ok(layout) => Outcome::Judged(layout),
            Err(fault) => Outcome::Refused(fault),
        }
    }
}

/// How the call of a line came out, as one line.
#[derive(Drop)]
pub struct Answer<'a> {
    /// The line's number.
    pub line: usize,
    /// The name of the call.
    pub verb: &'a str,
    /// How it came out.
    pub outcome: Outcome,
}

impl fmt::Display for Answer<'_> {
    ghost output = { λ x. Some (answer_text x.line x.verb.now x.outcome) };

    fn fmt<W: fmt::Write>(&self, f: &mut fmt::Formatter<W>) -> fmt::Result {
        let line = self.line;
        let verb = self.verb;
        match &self.outcome {
            Outcome::Done => write!(f, "{line} {verb} ok"),
            Outcome::Refused(fault) => write!(
                f,
                "{line} {verb} refused {} layer {} block {} place {}",
                fault.refusal.number(),
                fault.layer.number(),
                fault.block,
                fault.place,
            ),
            Outcome::Number(number) => write!(f, "{line} {verb} ok {number}"),
            Outcome::Span(place, length) => write!(f, "{line} {verb} ok {place} {length}"),
            Outcome::Judged(layout) => write!(
                f,
                "{line} {verb} ok version {} start {} blocks {}",
                layout.version, layout.start, layout.blocks,
            ),
            Outcome::Held(length) => write!(f, "{line} {verb} ok file {length}"),
            Outcome::NoFile => write!(f, "{line} {verb} ok no file"),
            Outcome::Head(entry) => write!(
                f,
                "{line} {verb} ok {} {} {}",
                HexWord(entry.key),
                entry.place,
                entry.size,
            ),
            Outcome::Items(items) => write!(f, "{line} {verb} ok{}", items.as_str()),
        }
    }
}
