//! The files that tests begin with or expect, put together byte by byte from the rules of the format.
ghost use Rattle.std.specs.Prelude.{◌≡◌};
ghost use Rattle.examples.specs.FileM.{file_m};

use crate::{example_file, example_with_extent, example_with_section};

/// The places of extents 1 to 5, and where each of them ends.
pub const EXTENTS: [(usize, u32); 5] = [(6, 10), (12, 16), (20, 24), (68, 72), (96, 100)];

/// The cell of the small file: the numbers from 72 to 107, as letters and signs.
const CELL: &[u8] = b"HIJKLMNOPQRSTUVWXYZ[\\]^_`abcdefghijk";

/// A file, by its content.
#[derive(Clone, Copy)]
pub enum File {
    /// So many zeros, which are no file.
    Zeros(usize),
    /// File M.
    M,
    /// File M with extent 2 one too small.
    MWithExtent,
    /// File M with a section one byte too short for its blocks.
    MWithSection,
    /// File M, but for a section of these blocks, of at most 60 bytes.
    MWith(&'static [u8]),
    /// Version 4, two cells of one bin with quality, and a gap of eight bytes before the data at 80.
    Early,
    /// The small file: version 4, one cell of one bin without quality, 72 bytes of header and 36 of data.
    Small,
    /// The small file, but for a gap of one byte before the data.
    SmallWithGap,
    /// The small file raised to version 5 with the values 1 to 5.
    Raised,
    /// That raised to version 6, but for a section of these blocks, of at most 60 bytes.
    RaisedWith(&'static [u8]),
}

/// Puts bytes at a place, where they fit.
// By its own means, and not by the moves of `buffers`, which these tests try.
pub fn lay(bytes: &mut [u8], at: usize, new: &[u8]) {
    if bytes.len() >= new.len() && at <= bytes.len() - new.len() {
        bytes[at..at + new.len()].copy_from_slice(new);
    }
}

/// Puts the bytes of a number at a place, where they fit.
pub fn put<const N: usize>(bytes: &mut [u8], at: usize, number: [u8; N]) {
    lay(bytes, at, &number);
}

/// Puts the extents to data at `start`, as a header of version 6 has them.
fn lay_extents(bytes: &mut [u8], start: u32) {
    for (place, end) in EXTENTS {
        put(bytes, place, start.saturating_sub(end).to_be_bytes());
    }
}

/// File M; of all that is proved of it, its bytes alone.
fn bytes_of_example() -> [u8; 160]
    ensures { result ≡ file_m }
{
    example_file()
}

/// Puts a whole file.
fn lay_whole(bytes: &mut [u8], file: &[u8]) -> usize {
    lay(bytes, 0, file);
    file.len()
}

/// Puts zeros.
fn lay_zeros(bytes: &mut [u8], size: usize) -> usize {
    for byte in bytes.iter_mut().take(size) {
        *byte = 0;
    }
    size
}

/// Puts file M, but for a section of these blocks.
fn lay_m(bytes: &mut [u8], section: &[u8]) -> usize {
    let m = bytes_of_example();
    let size = section.len().min(60);
    lay(bytes, 0, &m[..104]);
    lay_extents(bytes, 104 + size as u32);
    put(bytes, 100, (size as u32).to_be_bytes());
    lay(bytes, 104, &section[..size]);
    lay(bytes, 104 + size, &m[124..]);
    140 + section.len()
}

/// Puts the file of two cells with quality, whose data are the numbers of their places.
fn lay_early(bytes: &mut [u8]) -> usize {
    for (place, byte) in bytes.iter_mut().take(160).enumerate() {
        *byte = if place < 80 { 0 } else { place as u8 };
    }
    for (place, byte) in [(1, 4), (5, 7), (9, 70), (11, 2), (15, 64)] {
        put(bytes, place, [byte]);
    }
    for (place, byte) in [(23, 56), (55, 1), (59, 2), (63, 1), (71, 8)] {
        put(bytes, place, [byte]);
    }
    160
}

/// Puts the header of the small file.
fn lay_small_header(bytes: &mut [u8]) {
    lay(bytes, 0, &[0; 72]);
    for (place, byte) in [
        (1, 4),
        (9, 62),
        (11, 1),
        (15, 56),
        (23, 48),
        (55, 1),
        (59, 1),
    ] {
        put(bytes, place, [byte]);
    }
}

/// Puts the small file.
fn lay_small(bytes: &mut [u8]) -> usize {
    lay_small_header(bytes);
    lay(bytes, 72, CELL);
    108
}

/// Puts the small file with a gap of one byte: all that says where the data begin is one more.
fn lay_gap(bytes: &mut [u8]) -> usize {
    lay_small_header(bytes);
    for (place, extent) in [(9, 63), (15, 57), (23, 49), (71, 1)] {
        put(bytes, place, [extent]);
    }
    lay(bytes, 73, CELL);
    109
}

/// Puts the small file, raised to a version of 5 or 6 and with data at `start`.
fn lay_raised(bytes: &mut [u8], version: u8, start: u32) -> usize {
    lay_small_header(bytes);
    lay(bytes, 72, &[0; 32]);
    put(bytes, 1, [version]);
    lay_extents(bytes, start);
    // fields 15 to 20: the fifth of them is the count of channels
    for (place, value) in [(72, 1u32), (76, 2), (80, 3), (84, 4), (88, 3), (92, 5)] {
        put(bytes, place, value.to_be_bytes());
    }
    lay(bytes, start as usize, CELL);
    36 + start as usize
}

/// Puts the small file, raised to version 6, but for a section of these blocks.
fn lay_raised_with(bytes: &mut [u8], section: &[u8]) -> usize {
    let size = section.len().min(60);
    let end = lay_raised(bytes, 6, 104 + size as u32);
    put(bytes, 100, (size as u32).to_be_bytes());
    lay(bytes, 104, &section[..size]);
    end
}

/// Puts a file at the start of a buffer, where it fits, and answers how many bytes it has.
pub fn lay_file(bytes: &mut [u8], file: File) -> usize {
    match file {
        File::Zeros(size) => lay_zeros(bytes, size),
        File::M => lay_whole(bytes, &bytes_of_example()),
        File::MWithExtent => lay_whole(bytes, &example_with_extent()),
        File::MWithSection => lay_whole(bytes, &example_with_section()),
        File::MWith(section) => lay_m(bytes, section),
        File::Early => lay_early(bytes),
        File::Small => lay_small(bytes),
        File::SmallWithGap => lay_gap(bytes),
        File::Raised => lay_raised(bytes, 5, 100),
        File::RaisedWith(section) => lay_raised_with(bytes, section),
    }
}
