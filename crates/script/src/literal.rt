//! Bytes, as arguments say them.
ghost use Rattle.std.specs.Prelude.{◌≡◌, ◌≢◌, ◌<◌, ◌%◌, ◌⊎◌, ◌++◌, ◌∷◌, [], ℕ, List, MatchOption, MatchResult, IfOk, IfErr, IsErr, length};
ghost use Rattle.script.specs.declared.argument_error.ArgumentError.TheVariants.{OddDigits, OutOfMemory};
ghost use Rattle.hex.specs.Hex.{decode_of};
ghost use Rattle.script.specs.Literal.{SaysBytes};

use crate::argument_error::ArgumentError;
use hex::FromHexError;
use std::alloc::Global;

/// How an argument says bytes.
#[derive(Clone, Copy, Debug)]
pub enum Literal<'a> {
    /// By hexadecimal digits, after an x.
    Hexadecimal(&'a str),
    /// As a text, between quotation marks.
    Text(&'a str),
    /// By the path of the file that has them, after an @.
    File(&'a str),
}

/// What stands after a mark, if the argument begins with it.
#[tactic(auto, using(std::proofs::lemmas::Str::Pattern::strip_prefix_char))]
fn after_mark(argument: &str, mark: char) -> Option<&str>
    requires { mark < 128 }
    ensures { MatchOption result ((bs : List ℕ) → argument.now ≢ mark ∷ bs) (λ rest. argument.now ≡ mark ∷ rest.now) }
{
    argument.strip_prefix(mark)
}

/// What stands before a mark, if the argument ends with it.
#[tactic(auto, using(std::proofs::lemmas::Str::Pattern::strip_suffix_char))]
fn before_mark(argument: &str, mark: char) -> Option<&str>
    requires { mark < 128 }
    ensures { MatchOption result ((bs : List ℕ) → argument.now ≢ bs ++ mark ∷ []) (λ rest. argument.now ≡ rest.now ++ mark ∷ []) }
{
    argument.strip_suffix(mark)
}

/// The text between quotation marks, if the argument begins with one and ends with another.
fn quoted(argument: &str) -> Option<&str>
    ensures { MatchOption result ((bs : List ℕ) → argument.now ≢ 34 ∷ (bs ++ 34 ∷ [])) (λ text. argument.now ≡ 34 ∷ (text.now ++ 34 ∷ [])) }
{
    before_mark(after_mark(argument, '"')?, '"')
}

impl<'a> Literal<'a> {
    /// How an argument says bytes; refuses an argument that says none.
    pub fn of(argument: &'a str) -> Result<Literal<'a>, ArgumentError>
        ensures { SaysBytes argument.now result }
    {
        if let Some(digits) = after_mark(argument, 'x') {
            return Ok(Literal::Hexadecimal(digits));
        }
        if let Some(path) = after_mark(argument, '@') {
            return Ok(Literal::File(path));
        }
        match quoted(argument) {
            Some(text) => Ok(Literal::Text(text)),
            None => Err(ArgumentError::NoBytes),
        }
    }
}

/// The bytes that hexadecimal digits say, two digits a byte; refuses an odd count of digits and any
/// other character.
pub fn hexadecimal(heap: Global, digits: &str) -> Result<Vec<u8>, ArgumentError>
    ensures bytes { IfOk result (λ v. decode_of digits.now ≡ Ok v.items) }
    ensures odd { length digits.now % 2 ≡ 1 → result ≡ Err OddDigits }
    ensures told { IfErr result (λ e. (e ≡ OutOfMemory) ⊎ IsErr (decode_of digits.now)) }
{
    hex::decode(heap, digits).map_err(|error| match error {
        FromHexError::OddLength => ArgumentError::OddDigits,
        FromHexError::OutOfMemory => ArgumentError::OutOfMemory,
        _ => ArgumentError::NoDigit,
    })
}

/// The key that bytes are; refuses another count of bytes than four.
pub fn key_of(bytes: &[u8]) -> Result<[u8; 4], ArgumentError>
    ensures { MatchResult result (λ key. key ≡ bytes.now) (λ e. length bytes.now ≢ 4) }
{
    bytes.try_into().map_err(|_| ArgumentError::NoKey)
}
