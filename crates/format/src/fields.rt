//! The fields of a header, in one table.
ghost use Rattle.std.specs.Prelude.{◌≡◌, IfOk};
ghost use Rattle.buffers.specs.Words.{size};
ghost use Rattle.format.specs.Checks.{passed};
ghost use Rattle.format.specs.Conditions.{field_known, field_number};
ghost use Rattle.format.specs.Header.{the_field, is_steering, field_pattern};

use crate::field::Field;
use buffers::Word;
use faults::{Fault, Refusal};

/// How many fields a header may have.
pub const FIELD_COUNT: usize = 20;

/// A field: the level from which a file has it, its place, and its size in bytes.
#[derive(Clone, Copy)]
struct FieldLayout(u8, u8, u8);

/// Fields 1 to 20, in order, with CODAR's names.
const FIELDS: [FieldLayout; FIELD_COUNT] = [
    FieldLayout(1, 2, 4), // 1 nDateTime
    FieldLayout(2, 10, 2), // 2 nCsKind
    FieldLayout(3, 16, 4), // 3 nSiteCodeName
    FieldLayout(4, 24, 4), // 4 nCoverMinutes
    FieldLayout(4, 28, 4), // 5 bDeletedSource
    FieldLayout(4, 32, 4), // 6 bOverrideSrcInfo
    FieldLayout(4, 36, 4), // 7 fStartFreqMHz
    FieldLayout(4, 40, 4), // 8 fRepFreqHz
    FieldLayout(4, 44, 4), // 9 fBandwidthKHz
    FieldLayout(4, 48, 4), // 10 bSweepUp
    FieldLayout(4, 52, 4), // 11 nDopplerCells
    FieldLayout(4, 56, 4), // 12 nRangeCells
    FieldLayout(4, 60, 4), // 13 nFirstRangeCell
    FieldLayout(4, 64, 4), // 14 fRangeCellDistKm
    FieldLayout(5, 72, 4), // 15 nOutputInterval
    FieldLayout(5, 76, 4), // 16 nCreateTypeCode
    FieldLayout(5, 80, 4), // 17 nCreatorVersion
    FieldLayout(5, 84, 4), // 18 nActiveChannels
    FieldLayout(5, 88, 4), // 19 nSpectraChannels
    FieldLayout(5, 92, 4), // 20 nActiveChanBits
];

impl TryFrom<usize> for Field {
    type Error = Fault;

    // Refuses 18 for no such field.
    ghost try_from_gives = { λ number result.
        (passed result ≡ field_known number) × IfOk result (λ field. field_number field ≡ number) };

    fn try_from(number: usize) -> Result<Field, Fault> {
        match number {
            1..=FIELD_COUNT => Ok(Field { number }),
            _ => Err(Fault::at(Refusal::NoSuchField, 0)),
        }
    }
}

impl Field {
    /// What the table says of the field.
    fn layout(self) -> FieldLayout
        ensures level { result.0 ≡ (the_field (field_number self)).level }
        ensures place { result.1 ≡ (the_field (field_number self)).place }
        ensures size { result.2 ≡ size (the_field (field_number self)).width }
    {
        FIELDS[self.number - 1]
    }

    /// The field's number.
    pub fn number(self) -> usize
        ensures { result ≡ field_number self }
    {
        self.number
    }

    /// The level from which a file has the field.
    pub fn level(self) -> usize
        ensures { result ≡ (the_field (field_number self)).level }
    {
        self.layout().0 as usize
    }

    /// Where the field stands.
    pub fn place(self) -> usize
        ensures { result ≡ (the_field (field_number self)).place }
    {
        self.layout().1 as usize
    }

    /// How many bytes the field has.
    pub fn size(self) -> usize
        ensures { result ≡ size (the_field (field_number self)).width }
    {
        self.layout().2 as usize
    }

    /// Whether the field steers the layout of the data.
    pub fn is_steering(self) -> bool
        ensures { result ≡ is_steering (field_number self) }
    {
        matches!(self.number, 2 | 11 | 12 | 19)
    }

    /// The bits of the field in a file's bytes, as an unsigned number; a byte behind the end counts
    /// as 0.
    pub fn pattern(self, bytes: &[u8]) -> u32
        ensures { result ≡ field_pattern bytes.now (field_number self) }
    {
        if self.size() == 2 {
            u16::at(bytes, self.place()) as u32
        } else {
            u32::at(bytes, self.place())
        }
    }
}
