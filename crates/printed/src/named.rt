//! What the kinds read in a block's data, as it is printed: each number after its name, and the
//! text in quotes.
ghost use Rattle.std.specs.Prelude.{◌≡◌, ◌++◌, IfOk, string_bytes};
ghost use Rattle.printed.specs.Blocks.{quoted_text};
ghost use Rattle.printed.specs.Named.{IsNumberText, IsFieldText, IsFieldList, text_after, IsRecordText};

use crate::keys::{SPACE, TILDE, letter};
use script::{Fields, NamedNumeral, Numeral};
use std::alloc::{AllocError, Global};
use std::num::f64_from_bits_with_nan;

/// Puts a text in quotes after what a list has; a byte of it that is no printable ASCII is shown as
/// a question mark.
fn push_quoted(list: &mut String, text: &[u8]) -> Result<(), AllocError>
    ensures { IfOk result (λ _. string_bytes list.new ≡ string_bytes list.old ++ quoted_text text.now) }
{
    list.push('"')?;
    for byte in text {
        list.push(letter::<SPACE, TILDE>(*byte))?;
    }
    list.push('"')
}

/// A text in quotes; a byte of it that is no printable ASCII is shown as a question mark.
pub fn quoted(heap: Global, text: &[u8]) -> Result<String, AllocError>
    ensures { IfOk result (λ s. string_bytes s ≡ quoted_text text.now) }
{
    let mut quoted = String::new(heap);
    push_quoted(&mut quoted, text)?;
    Ok(quoted)
}

/// A number in decimal.
fn number_text(heap: Global, number: Numeral) -> Result<String, AllocError>
    ensures { IfOk result (λ s. IsNumberText number (string_bytes s)) }
{
    match number {
        Numeral::Unsigned(number) => format!(in heap; "{number}"),
        Numeral::Signed(number) => format!(in heap; "{number}"),
        Numeral::Float(pattern) => {
            let number = f64_from_bits_with_nan(pattern);
            format!(in heap; "{number}")
        }
    }
}

/// A field's name and its number.
fn field_text(heap: Global, field: NamedNumeral) -> Result<String, AllocError>
    ensures { IfOk result (λ s. IsFieldText field (string_bytes s)) }
{
    let name = field.0;
    let number = number_text(heap, field.1)?;
    format!(in heap; "{name} {}", number.as_str())
}

/// Fields, parted by commas.
fn field_list(heap: Global, fields: &[NamedNumeral]) -> Result<String, AllocError>
    ensures { IfOk result (λ s. IsFieldList fields.now (string_bytes s)) }
{
    let Some((first, rest)) = fields.split_first() else {
        return Ok(String::new(heap));
    };
    let mut list = field_text(heap, *first)?;
    for field in rest {
        let more = field_text(heap, *field)?;
        list.push_str(", ")?;
        list.push_str(more.as_str())?;
    }
    Ok(list)
}

/// Puts what leads to the text of a record's block after its fields, and then the text in quotes;
/// nothing where the block has no text.
fn push_text<R: Fields>(shown: &mut String, text: &[u8]) -> Result<(), AllocError>
    ensures { IfOk result (λ _. string_bytes shown.new
        ≡ string_bytes shown.old ++ text_after R.text_lead text.now) }
{
    match R::text_lead() {
        Some(lead) => {
            shown.push_str(lead)?;
            push_quoted(shown, text)
        }
        None => Ok(()),
    }
}

/// The fields of a record by their names and numbers, and the text of its block in quotes.
pub fn record_text<R: Fields>(heap: Global, value: R, text: &[u8]) -> Result<String, AllocError>
    ensures { IfOk result (λ s. IsRecordText R.names R.parts (R.numbers value) R.text_lead text.now (string_bytes s)) }
{
    let fields = value.fields(heap)?;
    let mut shown = field_list(heap, fields.as_slice())?;
    push_text::<R>(&mut shown, text)?;
    Ok(shown)
}
