//! What calls answered, as it is printed.
use faults::Fault;
use printed::Refused;
use std::fmt;

/// A call by its name, and what it answered.
#[derive(Drop)]
pub struct Outcome<'a>(pub &'a str, pub Result<(), Fault>);

impl fmt::Display for Outcome<'_> {
    fn fmt<W: fmt::Write>(&self, f: &mut fmt::Formatter<W>) -> fmt::Result {
        let Outcome(call, outcome) = *self;
        match outcome {
            Ok(()) => write!(f, "{call}: accepted"),
            Err(fault) => write!(f, "{}: {}", call, Refused(fault)),
        }
    }
}
