//! Judging a file: the checks in their order, and the layout of a file that passes them all.
ghost use Rattle.std.specs.Prelude.{◌≡◌, MatchResult};
ghost use Rattle.format.specs.Checks.{all_of};
ghost use Rattle.format.specs.Changes.{WritingChanges};
ghost use Rattle.format.specs.Content.{content, IsOnlyWriting, IsUnwritten};
ghost use Rattle.format.specs.Judging.{holding_checks, blocks_of, judged, judged_in_groups, IsFirstRefusal, IsFilled, IsCutThere};

use crate::extents::{SECTION_BEGIN, SECTION_SIZE_PLACE};
use crate::header::{Header, check_opening};
use crate::section::count_blocks;
use crate::sizes::Sizes;
use faults::{Fault, Refusal};

/// Where the parts of an accepted file stand.
#[derive(Clone, Copy, PartialEq, Eq, Debug)]
pub struct Layout {
    /// The file's version.
    pub version: u16,
    /// Where the data begin.
    pub start: usize,
    /// How many cells, bins and channels the data have.
    pub sizes: Sizes,
    /// The size of the section of blocks, in bytes.
    pub section: usize,
    /// The count of blocks.
    pub blocks: usize,
}

impl<'a> Header<'a> {
    /// Refuses 11 unless the cells lie within the file, then 8 unless the section of blocks lies
    /// before them.
    fn check_holding(&self) -> Result<(), Fault>
        ensures { result ≡ all_of (holding_checks self.now.bytes.now self.now.version) }
    {
        let start = self.data_start();
        if start as u128 + self.sizes().cells_size() > self.bytes.len() as u128 {
            return Err(Fault::at(Refusal::DataCut, start));
        }
        if self.version >= 6 && SECTION_BEGIN + self.section_size() > start {
            return Err(Fault::at(Refusal::SectionTooLong, SECTION_SIZE_PLACE));
        }
        Ok(())
    }

    /// The count of the blocks that fill the section; refuses 9 and 10 at the first that does not
    /// fit.
    fn check_filling(&self) -> Result<usize, Fault>
        ensures { result ≡ blocks_of self.now.bytes.now self.now.version }
    {
        if self.version < 6 {
            Ok(0)
        } else {
            count_blocks(self.bytes, SECTION_BEGIN + self.section_size())
        }
    }
}

/// The layout, or the first refusal, one group of checks after the other.
fn run_checks(bytes: &[u8]) -> Result<Layout, Fault>
    ensures { result ≡ judged_in_groups bytes.now }
{
    let version = check_opening(bytes)?;
    let header = Header { bytes, version };
    header.check_covering()?;
    header.check_agreeing()?;
    let sizes = header.check_sizes()?;
    header.check_holding()?;
    let blocks = header.check_filling()?;
    Ok(Layout {
        version,
        start: header.data_start(),
        sizes,
        section: header.section_size(),
        blocks,
    })
}

/// Judges a whole file: the layout of a sound one, or the first rule that it breaks.
///
/// Accepts the bytes exactly where a sound content is written so; that content is the only one.
///
/// Looks at the header and at the head of each block only, and allocates nothing.
pub fn judge(bytes: &[u8]) -> Result<Layout, Fault>
    ensures exact { result ≡ judged bytes.now }
    ensures first { IsFirstRefusal bytes.now result }
    ensures blocks { MatchResult result (IsFilled bytes.now) (IsCutThere bytes.now) }
    ensures content { MatchResult result (λ _. IsOnlyWriting bytes.now (content bytes.now)) (λ _.
        IsUnwritten bytes.now) }
    ensures changes { WritingChanges }
{
    run_checks(bytes)
}
