//! Several fields, written into a header: the caller's values, and numbers that are given.
ghost use Rattle.std.specs.Prelude.{◌≡◌, ◌+◌, ◌≤◌, ◌<◌, ◌&&◌, if◌then◌else◌, Some, None};
ghost use Rattle.format.specs.Conditions.{field_number};
ghost use Rattle.format.specs.Header.{field_count};
ghost use Rattle.headers.specs.Fields.{FillingSpec, values_wanted, with_fields};
ghost use Rattle.headers.specs.Turns.{turn_buffer, turn_used};

use crate::fields::write_field;
use format::{FIELD_COUNT, Field};

/// How a header is filled.
pub trait Filling {
    ghost filling: { Self → FillingSpec };

    /// Whether a field is one of those that are written.
    fn has(&self, field: Field) -> bool
        ensures { result ≡ (filling self.now).has (field_number field) };

    /// The number that a field is given, or none where it takes a value of the caller's.
    fn given(&self, field: Field) -> Option<u32>
        ensures { result
            ≡ (if (filling self.now).takes (field_number field) then None
            else Some ((filling self.now).given (field_number field))) };
}

/// Whether the field of that number is written, and with a value of the caller's.
fn takes_value<F: Filling>(filling: &F, number: usize) -> bool
    requires from { 1 ≤ number }
    requires to { number ≤ field_count }
    ensures { result
        ≡ ((F.filling filling.now).has number && (F.filling filling.now).takes number) }
{
    match Field::try_from(number) {
        Ok(field) => filling.has(field) && filling.given(field).is_none(),
        Err(_) => false,
    }
}

/// How many values of the caller's are taken.
pub fn values_wanted<F: Filling>(filling: &F) -> usize
    ensures { result ≡ values_wanted (F.filling filling.now) }
{
    let mut wanted = 0;
    for number in 1..FIELD_COUNT + 1 {
        if takes_value(filling, number) {
            wanted += 1;
        }
    }
    wanted
}

/// Writes the field of that number, if it is one of those, when so many of the values are used; how
/// many are used then.
fn fill_field<F: Filling>(
    buffer: &mut [u8],
    filling: &F,
    number: usize,
    values: &[u32],
    used: usize,
) -> usize
    requires from { 1 ≤ number }
    requires to { number ≤ field_count }
    requires few { used < number }
    ensures buffer { buffer.new
        ≡ turn_buffer (F.filling filling.now) number buffer.old values.now used }
    ensures used { result ≡ turn_used (F.filling filling.now) number used }
{
    let Ok(field) = Field::try_from(number) else {
        return used;
    };
    if !filling.has(field) {
        return used;
    }
    match filling.given(field) {
        Some(value) => {
            write_field(buffer, field, value);
            used
        }
        None => {
            write_field(buffer, field, values.get(used).copied().unwrap_or(0));
            used + 1
        }
    }
}

/// Writes the fields: the values in order into those that take one, and what they are given into
/// the others. A value that is lacking counts as 0; a field that does not lie in the buffer, or
/// whose value does not fit it, is not written.
pub fn fill_fields<F: Filling>(buffer: &mut [u8], filling: &F, values: &[u32])
    ensures { buffer.new ≡ with_fields buffer.old (F.filling filling.now) values.now }
{
    let mut used = 0;
    for number in 1..FIELD_COUNT + 1 {
        used = fill_field(buffer, filling, number, values, used);
    }
}
