//! The fields of a file's header: their names, and the line of each.
ghost use Rattle.std.specs.Prelude.{◌≡◌};
ghost use Rattle.printed.specs.Fields.{header_field_name, field_form, field_line, IsLineOf};

use crate::keys::{Key, SPACE, TILDE};
use std::fmt;
use std::num::f32_from_bits_with_nan;

/// How the pattern of a field is printed.
#[derive(Clone, Copy, PartialEq, Eq, Debug)]
pub enum Form {
    /// As an unsigned number.
    Number,
    /// As an unsigned number, and as four letters.
    Letters,
    /// As eight hexadecimal digits, and as a floating point number.
    Float,
}

/// The line of a field: its number, CODAR's name, and its pattern.
#[derive(Clone, Copy, PartialEq, Eq, Debug)]
pub struct FieldLine {
    number: usize,
    form: Form,
    pattern: u32,
}

/// CODAR's names of the fields, from field 1 on; there is no field 0.
const NAMES: [&str; 21] = [
    "",
    "nDateTime",
    "nCsKind",
    "nSiteCodeName",
    "nCoverMinutes",
    "bDeletedSource",
    "bOverrideSrcInfo",
    "fStartFreqMHz",
    "fRepFreqHz",
    "fBandwidthKHz",
    "bSweepUp",
    "nDopplerCells",
    "nRangeCells",
    "nFirstRangeCell",
    "fRangeCellDistKm",
    "nOutputInterval",
    "nCreateTypeCode",
    "nCreatorVersion",
    "nActiveChannels",
    "nSpectraChannels",
    "nActiveChanBits",
];

/// CODAR's name of a field; nothing is printed for a field that there is not.
fn field_name(number: usize) -> &'static str
    ensures { result.now ≡ header_field_name number }
{
    if number < NAMES.len() {
        NAMES[number]
    } else {
        ""
    }
}

/// How a field is printed.
fn field_form(number: usize) -> Form
    ensures { result ≡ field_form number }
{
    match number {
        3 | 16 | 17 => Form::Letters,
        7 | 8 | 9 | 14 => Form::Float,
        _ => Form::Number,
    }
}

impl FieldLine {
    /// The line of the field of that number, which has that pattern.
    pub fn of(number: usize, pattern: u32) -> FieldLine
        ensures { IsLineOf result number pattern }
    {
        FieldLine {
            number,
            form: field_form(number),
            pattern,
        }
    }
}

impl fmt::Display for FieldLine {
    ghost output = { λ x. field_line x.form x.number x.pattern };

    fn fmt<W: fmt::Write>(&self, f: &mut fmt::Formatter<W>) -> fmt::Result {
        let FieldLine {
            number,
            form,
            pattern,
        } = *self;
        let name = field_name(number);
        match form {
            Form::Number => write!(f, "field {number} {name}: {pattern}"),
            Form::Letters => {
                let letters = Key::<SPACE, TILDE>(pattern);
                write!(f, "field {number} {name}: {pattern} \"{letters}\"")
            }
            Form::Float => {
                let value = f32_from_bits_with_nan(pattern);
                write!(f, "field {number} {name}: {pattern:08x} {value}")
            }
        }
    }
}
