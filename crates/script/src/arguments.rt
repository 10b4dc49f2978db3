//! The arguments of a line, one after the other.
ghost use Rattle.std.specs.Prelude.{◌≡◌, ◌==◌, ◌≤◌, ℕ, List, IfOk, OnErr, IsSome, length, option_copied, take, drop};
ghost use Rattle.std.specs.Iterator.{at_most};
ghost use Rattle.std.specs.List.{position_or_len, prefix_len};
ghost use Rattle.script.specs.Numbers.{IsNumeralFor, ReadsNumber};
ghost use Rattle.script.specs.Arguments.{first_argument, argument, after_argument, unspaced, argument_length, is_space};
ghost use Rattle.script.specs.Rest.{rest_of};

use crate::argument_error::ArgumentError;
use crate::numbers::Number;

/// What of a line is still to be read; its arguments come one after the other.
#[derive(Clone, Copy, Debug)]
pub struct Arguments<'a> {
    rest: &'a str,
}

/// How many bytes a text has before the first that is this one, or in all.
fn length_before(text: &[u8], stop: u8) -> usize
    ensures count { result ≡ position_or_len (λ c. c == stop) text.now }
    ensures within { result ≤ length text.now }
{
    text.iter().take_while(|byte| **byte != stop).count()
}

/// How many spaces a text begins with.
fn count_spaces(text: &[u8]) -> usize
    ensures { result ≡ prefix_len is_space text.now }
{
    text.iter().take_while(|byte| **byte == b' ').count()
}

/// What stands after the spaces that a text begins with.
#[tactic(auto, using(crate::proofs::Cuts::cut_after_spaces))]
fn skip_spaces(text: &str) -> &str
    ensures { result.now ≡ unspaced text.now }
{
    text.split_at(count_spaces(text.as_bytes())).1
}

/// How many bytes the argument has that a text begins with.
fn argument_length(text: &[u8]) -> usize
    ensures { result ≡ argument_length text.now }
{
    match text.split_first() {
        Some((b'"', inner)) => text.len().min(length_before(inner, b'"') + 2),
        _ => length_before(text, b' '),
    }
}

/// The argument that a text begins with, and what stands after it.
#[tactic(auto, using(crate::proofs::Cuts::cut_after_argument))]
fn split_argument(text: &str) -> (&str, &str)
    ensures argument { result.0.now ≡ take (argument_length text.now) text.now }
    ensures rest { result.1.now ≡ drop (argument_length text.now) text.now }
{
    text.split_at(argument_length(text.as_bytes()))
}

impl<'a> Arguments<'a> {
    /// The arguments of a line.
    pub fn of(line: &'a str) -> Arguments<'a>
        ensures { rest_of result ≡ line.now }
    {
        Arguments { rest: line }
    }

    /// The number that the next argument writes; refuses an argument that writes none.
    pub fn number<N: Number>(&mut self) -> Result<N, ArgumentError>
        ensures ok { IfOk result (λ n. ReadsNumber N.part (rest_of self.old) (N.number n)) }
        ensures err { OnErr result (IsNumeralFor N.part (argument (rest_of self.old)) → ⊥) }
        ensures rest { rest_of self.new ≡ after_argument (rest_of self.old) }
    {
        let argument = self.next().ok_or(ArgumentError::Missing)?;
        N::named(argument).ok_or(ArgumentError::NoNumber)
    }

    /// Refuses a line that has arguments left.
    pub fn end(mut self) -> Result<(), ArgumentError>
        ensures ok { IfOk result (λ done. first_argument (rest_of self.entry) ≡ None) }
        ensures err { OnErr result (IsSome (first_argument (rest_of self.entry))) }
    {
        match self.next() {
            None => Ok(()),
            Some(_) => Err(ArgumentError::TooMany),
        }
    }
}

impl<'a> Iterator for Arguments<'a> {
    type Item = &'a str;

    ghost next_gives = { λ s r t. (option_copied r ≡ first_argument s.rest.now) × (t.rest.now ≡ after_argument s.rest.now) };

    ghost remaining = { λ s. at_most (length s.rest.now) };

    #[tactic(auto, unfolding(crate::specs::Arguments::argument, crate::specs::Arguments::after_argument))]
    fn next(&mut self) -> Option<&'a str> {
        let text = skip_spaces(self.rest);
        let (argument, rest) = split_argument(text);
        self.rest = rest;
        if argument.is_empty() {
            return None;
        }
        Some(argument)
    }
}
