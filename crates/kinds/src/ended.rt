//! What texts that end before a zero share.
ghost use Rattle.std.specs.Prelude.{◌≡◌, ◌+◌, ◌<◌, ◌≤◌, length, take, IfOk};
ghost use Rattle.kinds.specs.Ended.{before_zero, ended_length, front as front_of, closed_text, text_output};
ghost use Rattle.kinds.specs.Kind.{output_length, put_answer, put_buffer};

use buffers::{write_bytes, write_word};
use faults::{Fault, Refusal};

/// How many bytes stand before the first zero, or all of them where there is none.
pub fn first_zero(bytes: &[u8]) -> usize
    ensures { result ≡ before_zero bytes.now }
{
    bytes
        .iter()
        .position(|byte| *byte == 0)
        .unwrap_or(bytes.len())
}

/// The length of the text before the first zero; refuses 14, at 0, where there is no zero.
pub fn ended_length(bytes: &[u8]) -> Result<usize, Fault>
    ensures exact { result ≡ ended_length bytes.now }
    ensures within { IfOk result (λ n. n < length bytes.now) }
{
    let length = first_zero(bytes);
    if length < bytes.len() {
        Ok(length)
    } else {
        Err(Fault::at(Refusal::TextWithoutZero, 0))
    }
}

/// The length of the text in a block's data; refuses 14, at 0, where no zero ends it within the
/// most bytes that it may have.
pub fn read_text(bytes: &[u8], most: Option<usize>) -> Result<usize, Fault>
    ensures exact { result ≡ ended_length (front_of most bytes.now) }
    ensures within { IfOk result (λ n. n < length bytes.now) }
{
    let front = match most {
        Some(most) => bytes.get(..=most).unwrap_or(bytes),
        None => bytes,
    };
    ended_length(front)
}

/// The length of a text with its zero, one byte more; refuses 15 for a zero in it, at the first.
fn measure_closed(text: &[u8]) -> Result<usize, Fault>
    ensures exact { result ≡ output_length (closed_text text.now) }
    ensures short { IfOk result (λ n. n ≤ length text.now + 1) }
{
    let plain = first_zero(text);
    if plain < text.len() {
        return Err(Fault::at(Refusal::TextUnfit, plain));
    }
    Ok(text.len() + 1)
}

/// The length of a text with its zero, one byte more; refuses 15 for a text of more bytes than it
/// may have, at the most of them, then for one with a zero in it, at the first.
pub fn measure_text(text: &[u8], most: Option<usize>) -> Result<usize, Fault>
    ensures exact { result ≡ output_length (text_output most text.now) }
    ensures short { IfOk result (λ n. n ≤ length text.now + 1) }
{
    match most {
        Some(most) if text.len() > most => Err(Fault::at(Refusal::TextUnfit, most)),
        _ => measure_closed(text),
    }
}

/// Writes a text and its zero to the start of `out`; refuses 15 as `measure_text` does, then 22.
pub fn write_text(text: &[u8], most: Option<usize>, out: &mut [u8]) -> Result<usize, Fault>
    ensures answer { result ≡ put_answer (text_output most text.now) (length out.old) }
    ensures buffer { out.new ≡ put_buffer (text_output most text.now) out.old }
{
    let size = measure_text(text, most)?;
    if out.len() < size {
        return Err(Fault::at(Refusal::ListOrTableTooShort, size));
    }
    let _ = write_bytes(out, 0, text);
    let _ = write_word(out, text.len(), 0u8);
    Ok(size)
}
