//! What calls answer, as items: each stands after a space.
ghost use Rattle.std.specs.Prelude.{◌≡◌, ◌<◌, IfOk, Some, string_bytes};
ghost use Rattle.calls.specs.Listed.{digit_of, byte_text, word_text, patterns_text, entries_text, bytes_text, reading_text};

use kinds::Reading;
use reader::Entry;
use script::{Fields, arguments_text};
use std::alloc::{AllocError, Global};
use std::fmt;

/// A byte, as two hexadecimal digits.
#[derive(Clone, Copy, PartialEq, Eq, Debug)]
struct HexByte(u8);

/// A number of 32 bits, as eight hexadecimal digits.
#[derive(Clone, Copy, PartialEq, Eq, Debug)]
pub struct HexWord(pub u32);

/// A number below 16 as a hexadecimal digit.
fn digit(number: u8) -> char
    requires { number < 16 }
    ensures { result ≡ digit_of number }
{
    if number < 10 {
        (b'0' + number) as char
    } else {
        (b'a' + (number - 10)) as char
    }
}

impl fmt::Display for HexByte {
    ghost output = { λ x. Some (byte_text x.0) };

    fn fmt<W: fmt::Write>(&self, f: &mut fmt::Formatter<W>) -> fmt::Result {
        let high = digit(self.0 / 16);
        let low = digit(self.0 % 16);
        write!(f, "{high}{low}")
    }
}

impl fmt::Display for HexWord {
    ghost output = { λ x. Some (word_text x.0) };

    fn fmt<W: fmt::Write>(&self, f: &mut fmt::Formatter<W>) -> fmt::Result {
        let [a, b, c, d] = self.0.to_be_bytes().map(HexByte);
        write!(f, "{a}{b}{c}{d}")
    }
}

/// What a kind reads in a block: the bytes used, place and length of the text, and the numbers.
pub fn reading_text<R: Fields>(heap: Global, reading: Reading<R>) -> Result<String, AllocError>
    ensures { IfOk result (λ s. string_bytes s ≡ reading_text reading.used reading.text reading.length R.parts (R.numbers reading.record)) }
{
    let numbers = arguments_text(heap, reading.record)?;
    format!(in heap;
        " used {} text {} {}{}",
        reading.used,
        reading.text,
        reading.length,
        numbers.as_str(),
    )
}

/// Patterns of 32 bits, each as eight hexadecimal digits.
pub fn patterns_text(heap: Global, patterns: &[u32]) -> Result<String, AllocError>
    ensures { IfOk result (λ s. string_bytes s ≡ patterns_text patterns.now) }
{
    let mut text = String::new(heap);
    for pattern in patterns {
        let word = HexWord(*pattern);
        let more = format!(in heap; " {word}")?;
        text.push_str(more.as_str())?;
    }
    Ok(text)
}

/// The count of blocks, and of each its key, its place and the size of its data.
pub fn entries_text(heap: Global, entries: &[Entry]) -> Result<String, AllocError>
    ensures { IfOk result (λ s. string_bytes s ≡ entries_text entries.now) }
{
    let mut text = format!(in heap; " {}", entries.len())?;
    for entry in entries {
        let key = HexWord(entry.key);
        let more = format!(in heap; " {key} {} {}", entry.place, entry.size)?;
        text.push_str(more.as_str())?;
    }
    Ok(text)
}

/// Bytes, as x and their hexadecimal digits.
pub fn bytes_text(heap: Global, bytes: &[u8]) -> Result<String, AllocError>
    ensures { IfOk result (λ s. string_bytes s ≡ bytes_text bytes.now) }
{
    let mut text = String::from_str(heap, " x")?;
    let digits = hex::encode(heap, bytes)?;
    text.push_str(digits.as_str())?;
    Ok(text)
}
