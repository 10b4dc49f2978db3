//! The words of a header that follow from where the data begin.
ghost use Rattle.std.specs.Prelude.{◌≡◌, ◌^◌, ◌<◌, ◌≤◌, length, if◌then◌else◌};
ghost use Rattle.format.specs.Changes.{with_extent};
ghost use Rattle.format.specs.Header.{extent_end};
ghost use Rattle.headers.specs.Extents.{with_extents, with_following, header_fits};

use buffers::write_word;
use format::{EXTENTS, Extent, SECTION_SIZE_PLACE, header_end};

/// Writes an extent, if the version has it.
fn write_extent(buffer: &mut [u8], version: u16, start: usize, extent: Extent)
    requires room { extent.level ≤ version → extent_end extent ≤ length buffer.old }
    requires reach { extent.level ≤ version → extent_end extent ≤ start }
    requires small { start < 2 ^ 32 }
    ensures { buffer.new ≡ with_extent buffer.old version start extent }
{
    if version >= extent.level {
        let _ = write_word(buffer, extent.place as usize, (start - extent.end()) as u32);
    }
}

/// Whether a header of that version lies in the buffer, before data that begin within reach of a
/// word.
fn fits(buffer: &[u8], version: u16, start: usize) -> bool
    ensures { result ≡ header_fits buffer.now version start }
{
    let end = header_end(version);
    end <= buffer.len() && end <= start && start <= 4294967295
}

/// Writes the extents that the version has, to data that begin at a place. Answers false, and
/// writes nothing, where the header does not all lie in the buffer or before the data, or the place
/// is beyond a word.
#[tactic(auto, unfolding(crate::specs::Extents::with_extents))]
pub fn write_extents(buffer: &mut [u8], version: u16, start: usize) -> bool
    ensures answer { result ≡ header_fits buffer.old version start }
    ensures buffer { buffer.new
        ≡ (if header_fits buffer.old version start then with_extents buffer.old version start
        else buffer.old) }
{
    if !fits(buffer, version, start) {
        return false;
    }
    for extent in EXTENTS {
        write_extent(buffer, version, start, extent);
    }
    true
}

/// Writes the extents, and from version 6 on the size of the section. Answers false, and writes
/// nothing, where the extents cannot be written.
#[tactic(auto, unfolding(crate::specs::Extents::with_following))]
pub fn write_following(buffer: &mut [u8], version: u16, start: usize, section: u32) -> bool
    ensures answer { result ≡ header_fits buffer.old version start }
    ensures buffer { buffer.new
        ≡ (if header_fits buffer.old version start then
        with_following buffer.old version start section else buffer.old) }
{
    if !write_extents(buffer, version, start) {
        return false;
    }
    version < 6 || write_word(buffer, SECTION_SIZE_PLACE, section)
}
