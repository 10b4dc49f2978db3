//! The ten checks of judging, each at both sides of its edge: what the tests share.
mod edges;
mod quality;
mod sizes;

use crate::files::{EXTENTS, put};
use crate::questions::{Answer, Numbers, told, wanted};
use faults::Fault;
use format::judge;
use std::alloc::{AllocError, Global};
use std::process::Abort;

/// A file of that version, kind and size, whose data begin at `start`: one cell of one bin, where
/// the header says so, and three channels.
fn file(
    heap: Global,
    version: i16,
    kind: i16,
    start: u32,
    size: usize,
) -> Result<Vec<u8>, AllocError> {
    let mut bytes = vec![in heap; 0u8; size]?;
    let all = bytes.as_mut_slice();
    put(all, 0, version.to_be_bytes());
    put(all, 10, kind.to_be_bytes());
    for (place, end) in EXTENTS.into_iter().take(version.max(1) as usize) {
        put(all, place, start.saturating_sub(end).to_be_bytes());
    }
    if version >= 4 {
        put(all, 52, 1u32.to_be_bytes());
        put(all, 56, 1u32.to_be_bytes());
    }
    if version >= 5 {
        put(all, 88, 3u32.to_be_bytes());
    }
    Ok(bytes)
}

/// What judging answers: where the data begin, the size of the section, the count of blocks, and 1
/// for quality.
pub fn layout_of(bytes: &[u8]) -> Result<Numbers, Fault> {
    let layout = judge(bytes)?;
    let quality = layout.sizes.quality as usize;
    Ok([layout.start, layout.section, layout.blocks, quality])
}

/// A file of that version, kind, start and size, 32-bit numbers at some of its places, and what
/// judging answers.
#[derive(Clone, Copy)]
pub struct Judged(i16, i16, u32, usize, &'static [(usize, u32)], Answer);

/// Judges the files of a table.
pub fn judge_all(
    rt: &impl Abort,
    heap: Global,
    table: &[Judged],
    name: &str,
) -> Result<(), AllocError> {
    for (number, line) in table.iter().enumerate() {
        let mut bytes = file(heap, line.0, line.1, line.2, line.3)?;
        for (place, value) in line.4 {
            put(bytes.as_mut_slice(), *place, value.to_be_bytes());
        }
        let told = told(layout_of(bytes.as_slice()));
        assert_eq!(rt; told, wanted(line.5), "{name}, line {number}");
    }
    Ok(())
}
