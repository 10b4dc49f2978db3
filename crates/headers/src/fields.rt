//! A field, written into a header.
ghost use Rattle.std.specs.Prelude.{◌≡◌};
ghost use Rattle.format.specs.Conditions.{field_number};
ghost use Rattle.headers.specs.Fields.{field_fits, put_header_field};

use buffers::write_word;
use format::Field;

/// Writes a field at its place. Answers false, and writes nothing, where the value does not fit it,
/// as field 2 has 16 bits, or it does not all lie in the buffer.
pub fn write_field(buffer: &mut [u8], field: Field, value: u32) -> bool
    ensures answer { result ≡ field_fits buffer.old (field_number field) value }
    ensures buffer { buffer.new ≡ put_header_field buffer.old (field_number field) value }
{
    if field.size() == 4 {
        return write_word(buffer, field.place(), value);
    }
    match u16::try_from(value) {
        Ok(value) => write_word(buffer, field.place(), value),
        Err(_) => false,
    }
}
