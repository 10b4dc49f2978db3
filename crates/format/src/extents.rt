//! The extents of a header, in one table, and where a header ends.
ghost use Rattle.std.specs.Prelude.{◌≡◌, ◌^◌, ◌<◌};
ghost use Rattle.format.specs.Header.{start_by, extent_end, header_end};

use buffers::Word;

/// Where the section of blocks begins, in the files that have one.
pub const SECTION_BEGIN: usize = 104;

/// Where the size of the section stands, the last word of the header of such a file.
pub const SECTION_SIZE_PLACE: usize = 100;

/// An extent: the level from which a file has it, which is its number, and where it stands.
#[derive(Clone, Copy)]
pub struct Extent {
    /// The level.
    pub level: u16,
    /// The place, of 32 bits.
    pub place: u8,
}

/// Extents 1 to 5.
pub const EXTENTS: [Extent; 5] = [
    Extent { level: 1, place: 6 },
    Extent {
        level: 2,
        place: 12,
    },
    Extent {
        level: 3,
        place: 20,
    },
    Extent {
        level: 4,
        place: 68,
    },
    Extent {
        level: 5,
        place: 96,
    },
];

impl Extent {
    /// Where the extent ends.
    pub fn end(self) -> usize
        ensures { result ≡ extent_end self }
    {
        self.place as usize + 4
    }

    /// Where the extent says that the data begin: that many bytes behind its own end.
    pub fn start(self, bytes: &[u8]) -> usize
        ensures value { result ≡ start_by bytes.now self }
        ensures small { result < 2 ^ 33 }
    {
        self.end() + u32::at(bytes, self.place as usize) as usize
    }
}

/// Where the header of a file of that version ends: behind the extent of the version, and from
/// version 6 on behind the size of the section.
pub fn header_end(version: u16) -> usize
    ensures { result ≡ header_end version }
{
    match version {
        0 => EXTENTS[0].end(),
        1..=5 => EXTENTS[version as usize - 1].end(),
        _ => SECTION_BEGIN,
    }
}
