//! The sizes of a file's data, and what is asked of them.
ghost use Rattle.std.specs.Prelude.{◌≡◌, ◌≤◌, IfOk};
ghost use Rattle.format.specs.Conditions.{field_number};
ghost use Rattle.format.specs.Header.{field_count};
ghost use Rattle.format.specs.Checks.{first_of};
ghost use Rattle.format.specs.Judging.{size_checks};
ghost use Rattle.format.specs.Sizes.{early_ranges, early_bins, most_ranges, most_bins, kind_has_quality, has_quality, sizes_of};

use crate::field::Field;
use crate::header::Header;
use buffers::Word;
use faults::{Fault, Refusal};

/// The range cells that a file below version 4 is assumed to have.
pub const EARLY_RANGES: u32 = 31;

/// The bins that such a file is assumed to have.
pub const EARLY_BINS: u32 = 512;

/// The most range cells that a file has.
pub const MOST_RANGES: u32 = 8192;

/// The most bins that a file has.
pub const MOST_BINS: u32 = 32768;

/// How many range cells, bins and channels the data have.
#[derive(Clone, Copy, PartialEq, Eq, Debug)]
pub struct Sizes {
    /// The count of range cells.
    pub ranges: u32,
    /// The count of Doppler bins in a row.
    pub bins: u32,
    /// The count of antenna channels.
    pub channels: u32,
    /// The number of the first range cell.
    pub first: u32,
    /// Whether each cell has a quality row.
    pub quality: bool,
}

/// The fields that the sizes come from, by number, with CODAR's names: nCsKind, nDopplerCells, nRangeCells, nFirstRangeCell and
/// nSpectraChannels.
const KIND: usize = 2;

const DOPPLER_CELLS: usize = 11;

const RANGE_CELLS: usize = 12;

const FIRST_RANGE_CELL: usize = 13;

const CHANNELS: usize = 19;

/// The field of one of these numbers.
fn field(number: usize) -> Field
    requires from { 1 ≤ number }
    requires to { number ≤ field_count }
    ensures { field_number result ≡ number }
{
    Field { number }
}

/// Whether field 2, taken as signed, says that there is a quality row.
pub fn has_quality(kind: u16) -> bool
    ensures { result ≡ kind_has_quality kind }
{
    kind.cast_signed() >= 2
}

impl<'a> Header<'a> {
    /// Whether each cell has a quality row.
    fn has_quality(&self) -> bool
        ensures { result ≡ has_quality self.now.bytes.now self.now.version }
    {
        self.version >= 2 && has_quality(u16::at(self.bytes, field(KIND).place()))
    }

    /// The sizes that the header gives, or those assumed for an early version.
    pub(crate) fn sizes(&self) -> Sizes
        ensures { result ≡ sizes_of self.now.bytes.now self.now.version }
    {
        let bytes = self.bytes;
        let early = self.version < 4;
        Sizes {
            ranges: if early {
                EARLY_RANGES
            } else {
                field(RANGE_CELLS).pattern(bytes)
            },
            bins: if early {
                EARLY_BINS
            } else {
                field(DOPPLER_CELLS).pattern(bytes)
            },
            channels: if self.version < 5 {
                3
            } else {
                field(CHANNELS).pattern(bytes)
            },
            first: if early {
                1
            } else {
                field(FIRST_RANGE_CELL).pattern(bytes)
            },
            quality: self.has_quality(),
        }
    }

    /// Refuses 5, 6 and 7 for bins, cells and channels out of range.
    pub(crate) fn check_sizes(&self) -> Result<Sizes, Fault>
        ensures exact { result
            ≡ first_of (size_checks self.now.bytes.now self.now.version) (sizes_of self.now.bytes.now self.now.version) }
        ensures same { IfOk result (λ s. s ≡ sizes_of self.now.bytes.now self.now.version) }
    {
        let sizes = self.sizes();
        if self.version >= 4 && !(1..=MOST_BINS).contains(&sizes.bins) {
            return Err(Fault::at(Refusal::Bins, field(DOPPLER_CELLS).place()));
        }
        if self.version >= 4 && !(1..=MOST_RANGES).contains(&sizes.ranges) {
            return Err(Fault::at(Refusal::Cells, field(RANGE_CELLS).place()));
        }
        if self.version >= 5 && sizes.channels != 3 {
            return Err(Fault::at(Refusal::Channels, field(CHANNELS).place()));
        }
        Ok(sizes)
    }
}
