//! The fields of the seven records: their names and numbers, and the records from arguments.
ghost use Rattle.std.specs.Prelude.{◌≡◌, ℕ, List, [], codes, map, IfOk, OnErr, MatchOption, Some, None, Option, string_bytes};
ghost use Rattle.std.specs.List.{flat_map};
ghost use Rattle.kinds.specs.Packed.{Part};
ghost use Rattle.records.specs.Fill.{fill_parts, fill_numbers};
ghost use Rattle.records.specs.Fwin.{fwin_parts, fwin_numbers};
ghost use Rattle.records.specs.Glrm.{glrm_parts, glrm_numbers};
ghost use Rattle.records.specs.Loca.{loca_parts, loca_numbers};
ghost use Rattle.records.specs.Rcvi.{rcvi_parts, rcvi_numbers};
ghost use Rattle.records.specs.Supi.{supi_parts, supi_numbers};
ghost use Rattle.records.specs.Time.{time_parts, time_numbers};
ghost use Rattle.script.specs.Fields.{field_name, HaveNumbers, numeral_text, field_argument, arguments_for, time_names, loca_names, rcvi_names, glrm_names, supi_names, fwin_names, fill_names};
ghost use Rattle.script.specs.Records.{HasNumeralsFor, ReadsNumbers};
ghost use Rattle.script.specs.Rest.{rest_of};

use crate::argument_error::ArgumentError;
use crate::arguments::Arguments;
use records::{Fill, Fwin, Glrm, Loca, Rcvi, Supi, Time};
use std::alloc::{AllocError, Global};
use std::fmt;

/// A number of a record.
#[derive(Clone, Copy, PartialEq, Eq, Debug)]
pub enum Numeral {
    /// One without a sign.
    Unsigned(u64),
    /// One that may be negative.
    Signed(i16),
    /// A 64-bit float, by its bit pattern.
    Float(u64),
}

impl fmt::Display for Numeral {
    ghost output = { λ x. Some (numeral_text x) };

    fn fmt<W: fmt::Write>(&self, f: &mut fmt::Formatter<W>) -> fmt::Result {
        match self {
            Numeral::Unsigned(number) => write!(f, "{number}"),
            Numeral::Signed(number) => write!(f, "{number}"),
            Numeral::Float(pattern) => write!(f, "{pattern}"),
        }
    }
}

/// A field of a record: its name and its number.
#[derive(Clone, Copy, Debug)]
pub struct NamedNumeral(pub &'static str, pub Numeral);

/// A record by its fields.
pub trait Fields: Copy {
    ghost parts: { List Part };

    ghost numbers: { Self → List ℕ };

    ghost names: { List (List ℕ) };

    ghost text_lead: { Option (List ℕ) };

    /// The names and the numbers, in the order of the record's bytes.
    fn fields(self, heap: Global) -> Result<Vec<NamedNumeral>, AllocError>
        ensures names { IfOk result (λ fs. map field_name fs.items ≡ names) }
        ensures numbers { IfOk result (λ fs. HaveNumbers parts (numbers self) fs.items) };

    /// The record whose numbers, in order, are those that the next arguments write; refuses where
    /// one of them writes none that fits.
    fn from_arguments(arguments: &mut Arguments) -> Result<Self, ArgumentError>
        ensures ok { IfOk result (λ r. ReadsNumbers parts (rest_of arguments.old) (numbers r) (rest_of arguments.new)) }
        ensures err { OnErr result (HasNumeralsFor parts (rest_of arguments.old) → ⊥) };

    /// What is shown between the fields and the text of the record's block; nothing where the block
    /// has no text.
    fn text_lead() -> Option<&'static str>
        ensures { MatchOption result (text_lead ≡ None) (λ lead. text_lead ≡ Some lead.now) };
}

/// The numbers of the fields as arguments, each after a space.
fn numbers_text(heap: Global, fields: &[NamedNumeral]) -> Result<String, AllocError>
    ensures { IfOk result (λ s. string_bytes s ≡ flat_map field_argument fields.now) }
{
    let mut text = String::new(heap);
    for field in fields {
        let number = field.1;
        let more = format!(in heap; " {number}")?;
        text.push_str(more.as_str())?;
    }
    Ok(text)
}

/// The numbers of a record as arguments, in order, each in decimal digits after a space.
#[tactic(auto, using(crate::proofs::Written::numbers_written))]
pub fn arguments_text<R: Fields>(heap: Global, value: R) -> Result<String, AllocError>
    ensures { IfOk result (λ s. string_bytes s ≡ arguments_for R.parts (R.numbers value)) }
{
    let fields = value.fields(heap)?;
    numbers_text(heap, fields.as_slice())
}

impl Fields for Time {
    ghost parts = { time_parts };

    ghost numbers = { time_numbers };

    ghost names = { time_names };

    ghost text_lead = { None };

    fn fields(self, heap: Global) -> Result<Vec<NamedNumeral>, AllocError> {
        Vec::from_slice(
            heap,
            &[
                NamedNumeral("mark", Numeral::Unsigned(self.mark as u64)),
                NamedNumeral("year", Numeral::Unsigned(self.year as u64)),
                NamedNumeral("month", Numeral::Unsigned(self.month as u64)),
                NamedNumeral("day", Numeral::Unsigned(self.day as u64)),
                NamedNumeral("hour", Numeral::Unsigned(self.hour as u64)),
                NamedNumeral("minute", Numeral::Unsigned(self.minute as u64)),
                NamedNumeral("seconds", Numeral::Float(self.seconds)),
                NamedNumeral("coverage", Numeral::Float(self.coverage)),
                NamedNumeral("utc", Numeral::Float(self.utc)),
            ],
        )
    }

    fn from_arguments(arguments: &mut Arguments) -> Result<Time, ArgumentError> {
        Ok(Time {
            mark: arguments.number()?,
            year: arguments.number()?,
            month: arguments.number()?,
            day: arguments.number()?,
            hour: arguments.number()?,
            minute: arguments.number()?,
            seconds: arguments.number()?,
            coverage: arguments.number()?,
            utc: arguments.number()?,
        })
    }

    fn text_lead() -> Option<&'static str> {
        None
    }
}

impl Fields for Loca {
    ghost parts = { loca_parts };

    ghost numbers = { loca_numbers };

    ghost names = { loca_names };

    ghost text_lead = { None };

    fn fields(self, heap: Global) -> Result<Vec<NamedNumeral>, AllocError> {
        Vec::from_slice(
            heap,
            &[
                NamedNumeral("latitude", Numeral::Float(self.latitude)),
                NamedNumeral("longitude", Numeral::Float(self.longitude)),
                NamedNumeral("altitude", Numeral::Float(self.altitude)),
            ],
        )
    }

    fn from_arguments(arguments: &mut Arguments) -> Result<Loca, ArgumentError> {
        Ok(Loca {
            latitude: arguments.number()?,
            longitude: arguments.number()?,
            altitude: arguments.number()?,
        })
    }

    fn text_lead() -> Option<&'static str> {
        None
    }
}

impl Fields for Rcvi {
    ghost parts = { rcvi_parts };

    ghost numbers = { rcvi_numbers };

    ghost names = { rcvi_names };

    ghost text_lead = { Some (codes ", firmware ") };

    fn fields(self, heap: Global) -> Result<Vec<NamedNumeral>, AllocError> {
        Vec::from_slice(
            heap,
            &[
                NamedNumeral("receiver", Numeral::Unsigned(self.receiver as u64)),
                NamedNumeral("antenna", Numeral::Unsigned(self.antenna as u64)),
                NamedNumeral("gain", Numeral::Float(self.gain)),
            ],
        )
    }

    fn from_arguments(arguments: &mut Arguments) -> Result<Rcvi, ArgumentError> {
        Ok(Rcvi {
            receiver: arguments.number()?,
            antenna: arguments.number()?,
            gain: arguments.number()?,
        })
    }

    fn text_lead() -> Option<&'static str> {
        Some(", firmware ")
    }
}

impl Fields for Glrm {
    ghost parts = { glrm_parts };

    ghost numbers = { glrm_numbers };

    ghost names = { glrm_names };

    ghost text_lead = { None };

    fn fields(self, heap: Global) -> Result<Vec<NamedNumeral>, AllocError> {
        Vec::from_slice(
            heap,
            &[
                NamedNumeral("method", Numeral::Unsigned(self.method as u64)),
                NamedNumeral("version", Numeral::Unsigned(self.version as u64)),
                NamedNumeral("points", Numeral::Unsigned(self.points as u64)),
                NamedNumeral("times", Numeral::Unsigned(self.times as u64)),
                NamedNumeral("segments", Numeral::Unsigned(self.segments as u64)),
                NamedNumeral("point_power", Numeral::Float(self.point_power)),
                NamedNumeral("range_power", Numeral::Float(self.range_power)),
                NamedNumeral("range_bin", Numeral::Float(self.range_bin)),
                NamedNumeral("remove_dc", Numeral::Unsigned(self.remove_dc as u64)),
            ],
        )
    }

    fn from_arguments(arguments: &mut Arguments) -> Result<Glrm, ArgumentError> {
        Ok(Glrm {
            method: arguments.number()?,
            version: arguments.number()?,
            points: arguments.number()?,
            times: arguments.number()?,
            segments: arguments.number()?,
            point_power: arguments.number()?,
            range_power: arguments.number()?,
            range_bin: arguments.number()?,
            remove_dc: arguments.number()?,
        })
    }

    fn text_lead() -> Option<&'static str> {
        None
    }
}

impl Fields for Supi {
    ghost parts = { supi_parts };

    ghost numbers = { supi_numbers };

    ghost names = { supi_names };

    ghost text_lead = { None };

    fn fields(self, heap: Global) -> Result<Vec<NamedNumeral>, AllocError> {
        Vec::from_slice(
            heap,
            &[
                NamedNumeral("method", Numeral::Unsigned(self.method as u64)),
                NamedNumeral("version", Numeral::Unsigned(self.version as u64)),
                NamedNumeral("mode", Numeral::Unsigned(self.mode as u64)),
                NamedNumeral("debug_mode", Numeral::Unsigned(self.debug_mode as u64)),
                NamedNumeral("cells", Numeral::Unsigned(self.cells as u64)),
                NamedNumeral("power", Numeral::Float(self.power)),
                NamedNumeral("range_bin", Numeral::Float(self.range_bin)),
                NamedNumeral("banding", Numeral::Signed(self.banding)),
                NamedNumeral("smoothing", Numeral::Signed(self.smoothing)),
            ],
        )
    }

    fn from_arguments(arguments: &mut Arguments) -> Result<Supi, ArgumentError> {
        Ok(Supi {
            method: arguments.number()?,
            version: arguments.number()?,
            mode: arguments.number()?,
            debug_mode: arguments.number()?,
            cells: arguments.number()?,
            power: arguments.number()?,
            range_bin: arguments.number()?,
            banding: arguments.number()?,
            smoothing: arguments.number()?,
        })
    }

    fn text_lead() -> Option<&'static str> {
        None
    }
}

impl Fields for Fwin {
    ghost parts = { fwin_parts };

    ghost numbers = { fwin_numbers };

    ghost names = { fwin_names };

    ghost text_lead = { None };

    fn fields(self, heap: Global) -> Result<Vec<NamedNumeral>, AllocError> {
        Vec::from_slice(
            heap,
            &[
                NamedNumeral("range", Numeral::Unsigned(self.range as u64)),
                NamedNumeral("doppler", Numeral::Unsigned(self.doppler as u64)),
                NamedNumeral("range_parameter", Numeral::Float(self.range_parameter)),
                NamedNumeral("doppler_parameter", Numeral::Float(self.doppler_parameter)),
            ],
        )
    }

    fn from_arguments(arguments: &mut Arguments) -> Result<Fwin, ArgumentError> {
        Ok(Fwin {
            range: arguments.number()?,
            doppler: arguments.number()?,
            range_parameter: arguments.number()?,
            doppler_parameter: arguments.number()?,
        })
    }

    fn text_lead() -> Option<&'static str> {
        None
    }
}

impl Fields for Fill {
    ghost parts = { fill_parts };

    ghost numbers = { fill_numbers };

    ghost names = { fill_names };

    ghost text_lead = { None };

    fn fields(self, heap: Global) -> Result<Vec<NamedNumeral>, AllocError> {
        Vec::from_slice(
            heap,
            &[
                NamedNumeral("range_method", Numeral::Unsigned(self.range_method as u64)),
                NamedNumeral(
                    "range_multiple",
                    Numeral::Unsigned(self.range_multiple as u64),
                ),
                NamedNumeral(
                    "doppler_method",
                    Numeral::Unsigned(self.doppler_method as u64),
                ),
                NamedNumeral(
                    "doppler_multiple",
                    Numeral::Unsigned(self.doppler_multiple as u64),
                ),
            ],
        )
    }

    fn from_arguments(arguments: &mut Arguments) -> Result<Fill, ArgumentError> {
        Ok(Fill {
            range_method: arguments.number()?,
            range_multiple: arguments.number()?,
            doppler_method: arguments.number()?,
            doppler_multiple: arguments.number()?,
        })
    }

    fn text_lead() -> Option<&'static str> {
        None
    }
}

/// What has no numbers, as the record of a text.
impl Fields for () {
    ghost parts = { [] };

    ghost numbers = { λ x. [] };

    ghost names = { [] };

    ghost text_lead = { Some [] };

    fn fields(self, heap: Global) -> Result<Vec<NamedNumeral>, AllocError> {
        Ok(Vec::new(heap))
    }

    fn from_arguments(_arguments: &mut Arguments) -> Result<(), ArgumentError> {
        Ok(())
    }

    fn text_lead() -> Option<&'static str> {
        Some("")
    }
}
