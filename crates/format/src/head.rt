//! The head of a block: its key, and the size of its data.
ghost use Rattle.std.specs.Prelude.{◌≡◌, if◌then◌else◌};
ghost use Rattle.buffers.specs.Moves.{room, written};
ghost use Rattle.buffers.specs.Words.{be32};
ghost use Rattle.format.specs.Section.{head_at, head_bytes};

use buffers::{Word, write_bytes, write_word};
use std::convert::AsSlice;

/// What stands before the data of a block, 8 bytes.
#[derive(Clone, Copy, PartialEq, Eq, Debug)]
pub struct BlockHead {
    /// The key, byte by byte.
    pub key: [u8; 4],
    /// How many bytes of data follow.
    pub size: u32,
}

impl BlockHead {
    /// The bytes of a head.
    pub const SIZE: usize = 8;

    /// Where in a head the size stands.
    pub const SIZE_PLACE: usize = 4;

    /// The head that stands at a place; a byte behind the end counts as 0.
    pub fn read(bytes: &[u8], at: usize) -> BlockHead
        ensures { result ≡ head_at bytes.now at }
    {
        BlockHead {
            key: u32::at(bytes, at).to_be_bytes(),
            size: u32::at(bytes, at.saturating_add(4)),
        }
    }

    /// Writes the head at a place. Answers false, and writes nothing, where it does not all lie in
    /// the buffer.
    pub fn write(self, buffer: &mut [u8], at: usize) -> bool
        ensures answer { result ≡ room buffer.old at 8 }
        ensures buffer { buffer.new
            ≡ (if room buffer.old at 8 then written buffer.old at (head_bytes self)
            else buffer.old) }
    {
        if at > buffer.len() || buffer.len() - at < BlockHead::SIZE {
            return false;
        }
        write_bytes(buffer, at, self.key.as_slice()) && write_word(buffer, at + 4, self.size)
    }
}
