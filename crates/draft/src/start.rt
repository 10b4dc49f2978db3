//! What a draft begins with, and what is asked of it.
ghost use Rattle.std.specs.Prelude.{◌≡◌, ◌≤◌, IfOk};
ghost use Rattle.format.specs.Checks.{all_of};
ghost use Rattle.format.specs.Header.{header_end};
ghost use Rattle.format.specs.Rows.{cell_size};
ghost use Rattle.format.specs.Sizes.{most_ranges, most_bins};
ghost use Rattle.draft.specs.Drafts.{call_fault, start_sizes, begin_conditions};

use crate::stages::Draft;
use faults::{Fault, Layer, Refusal};
use format::{MOST_BINS, MOST_RANGES, Sizes, has_quality, header_end};
use headers::values_wanted;

/// The numbers of a new file that steer its layout.
#[derive(Clone, Copy, PartialEq, Eq, Debug)]
pub struct Start {
    /// The version, 4 to 6.
    pub version: u16,
    /// The bits of field 2: taken as signed, at least 2 means that each cell has a quality row.
    pub kind: u16,
    /// The count of Doppler bins, 1 to 32768.
    pub bins: u32,
    /// The count of range cells, 1 to 8192.
    pub ranges: u32,
}

/// A fault of the call, where a file would be refused at another layer.
fn of_call(refusal: Refusal) -> Fault
    ensures { result ≡ call_fault refusal }
{
    Fault {
        refusal,
        layer: Layer::Call,
        block: 0,
        place: 0,
    }
}

impl Start {
    /// Refuses 2, 5 and 6 for a version, bins and cells out of range, and 17, with the count
    /// wanted, for another count of values.
    pub(crate) fn check(self, count: usize) -> Result<(), Fault>
        ensures refuses { result ≡ all_of (begin_conditions self count) }
        ensures version { IfOk result (λ _. (4 ≤ self.version) × (self.version ≤ 6)) }
        ensures bins { IfOk result (λ _. (1 ≤ self.bins) × (self.bins ≤ most_bins)) }
        ensures ranges { IfOk result (λ _. (1 ≤ self.ranges) × (self.ranges ≤ most_ranges)) }
    {
        if !(4..=6).contains(&self.version) {
            return Err(of_call(Refusal::Version));
        }
        if !(1..=MOST_BINS).contains(&self.bins) {
            return Err(of_call(Refusal::Bins));
        }
        if !(1..=MOST_RANGES).contains(&self.ranges) {
            return Err(of_call(Refusal::Cells));
        }
        let wanted = values_wanted(&self);
        if count != wanted {
            return Err(Fault::at(Refusal::WrongLengthOrCount, wanted));
        }
        Ok(())
    }

    /// The sizes of the data; the first range cell's number is a value of the caller's, and counts
    /// as 1 here.
    fn sizes(self) -> Sizes
        ensures { result ≡ start_sizes self }
    {
        Sizes {
            ranges: self.ranges,
            bins: self.bins,
            channels: 3,
            first: 1,
            quality: has_quality(self.kind),
        }
    }

    /// What a draft knows that has its header alone.
    pub(crate) fn draft(self) -> Draft
        requires from { 4 ≤ self.version }
        requires to { self.version ≤ 6 }
        requires bins { self.bins ≤ most_bins }
        requires ranges { self.ranges ≤ most_ranges }
        ensures version { result.version ≡ self.version }
        ensures cells { result.cells ≡ self.ranges }
        ensures cell { result.cell ≡ cell_size (start_sizes self) }
        ensures size { result.size ≡ header_end self.version }
    {
        let sizes = self.sizes();
        Draft {
            version: self.version,
            cells: self.ranges as usize,
            cell: sizes.cell_size(),
            size: header_end(self.version),
        }
    }
}
