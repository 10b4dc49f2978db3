//! The section of blocks: each block fits, and together they fill it.
ghost use Rattle.std.specs.Prelude.{◌≡◌, ◌+◌, ◌<◌, ◌≤◌, IfOk};
ghost use Rattle.format.specs.Header.{section_begin};
ghost use Rattle.format.specs.Section.{next_block, section_blocks};

use crate::extents::SECTION_BEGIN;
use crate::head::BlockHead;
use faults::{Fault, Refusal};

/// Where the block of that number ends, which begins at `at` in a section that ends at `end`;
/// refuses 9 if its key and size are cut, 10 if its data are.
fn end_of_block(bytes: &[u8], end: usize, at: usize, number: usize) -> Result<usize, Fault>
    requires { at ≤ end }
    ensures exact { result ≡ next_block bytes.now end at number }
    ensures onward { IfOk result (λ next. (at + 8 ≤ next) × (next ≤ end)) }
{
    let left = end - at;
    if left < BlockHead::SIZE {
        return Err(Fault::in_block(Refusal::BlockHeadCut, number, at));
    }
    let size = BlockHead::read(bytes, at).size as usize;
    if size > left - BlockHead::SIZE {
        return Err(Fault::in_block(Refusal::BlockDataCut, number, at + BlockHead::SIZE_PLACE));
    }
    Ok(at + BlockHead::SIZE + size)
}

/// The count of the blocks that fill the section up to `end`; refuses 9 and 10 at the first that
/// does not fit.
pub(crate) fn count_blocks(bytes: &[u8], end: usize) -> Result<usize, Fault>
    requires { section_begin ≤ end }
    ensures { result ≡ section_blocks bytes.now end }
{
    let mut at = SECTION_BEGIN;
    let mut count = 0;
    while at < end {
        at = end_of_block(bytes, end, at, count + 1)?;
        count += 1;
    }
    Ok(count)
}
