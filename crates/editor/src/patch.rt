//! A patch: bytes of a file give way to others, and its header follows.
ghost use Rattle.std.specs.Prelude.{◌≡◌, ◌+◌, ◌-◌, ◌<◌, ◌≤◌, ◌^◌, length};
ghost use Rattle.format.specs.Changes.{settled_header};
ghost use Rattle.editor.specs.Calls.{view};
ghost use Rattle.editor.specs.steps.Patches.{opened_buffer, with_room_made, with_size_put, with_head_put, IsFittingPatch};

use crate::working::WorkingFile;
use buffers::{shift_down, shift_up, write_word, zero_bytes};
use format::BlockHead;
use headers::write_following;

/// Where bytes of a file give way to others, how many to how many, and what is so afterwards.
#[derive(Clone, Copy)]
pub(crate) struct Patch {
    /// Where.
    pub(crate) at: usize,
    /// How many bytes give way.
    pub(crate) removed: usize,
    /// How many come in their place.
    pub(crate) added: usize,
    /// How many bytes the file has then.
    pub(crate) size: usize,
    /// Where its data begin then.
    pub(crate) start: usize,
    /// The size of its section then.
    pub(crate) section: usize,
    /// Where the block begins whose data change.
    pub(crate) head: usize,
    /// How many bytes of data it has then.
    pub(crate) body: usize,
}

/// Opens the file of `size` bytes at a place: `added` bytes, whichever stood there, come in the
/// place of `removed`. What a longer file leaves behind becomes zero.
#[tactic(auto, using(crate::proofs::patches::Opened::opened_up, crate::proofs::patches::Opened::opened_down))]
fn open(buffer: &mut [u8], size: usize, at: usize, removed: usize, added: usize)
    requires inside { at + removed ≤ size }
    requires within { size ≤ length buffer.old }
    requires room { size - removed + added ≤ length buffer.old }
    ensures { buffer.new ≡ opened_buffer buffer.old size at removed added }
{
    let behind = at + removed;
    let rest = size - behind;
    if added >= removed {
        let _ = shift_up(buffer, behind, rest, added - removed);
    } else {
        let less = removed - added;
        let _ = shift_down(buffer, behind, rest, less);
        let _ = zero_bytes(buffer, size - less, less);
    }
}

impl<'a> WorkingFile<'a> {
    /// Makes room in the file as a patch says, and settles its header.
    pub(crate) fn make_room(&mut self, patch: Patch)
        requires { IsFittingPatch (view self.old) patch }
        ensures same { self.new.buffer.ghost_name ≡ self.old.buffer.ghost_name }
        ensures length { length self.new.buffer.now ≡ length self.old.buffer.now }
        ensures buffer { self.new.buffer.now ≡ with_room_made self.old.buffer.now self.old.size patch }
        ensures size { self.new.size ≡ patch.size }
    {
        open(self.buffer, self.size, patch.at, patch.removed, patch.added);
        let _ = write_following(self.buffer, 6, patch.start, patch.section as u32);
        self.size = patch.size;
    }

    /// Makes room in a block, or for one, as a patch says, and gives the block's head the size of
    /// its data.
    pub(crate) fn make_room_in_block(&mut self, patch: Patch)
        requires { IsFittingPatch (view self.old) patch }
        ensures same { self.new.buffer.ghost_name ≡ self.old.buffer.ghost_name }
        ensures length { length self.new.buffer.now ≡ length self.old.buffer.now }
        ensures buffer { self.new.buffer.now ≡ with_size_put (view self.old) patch }
        ensures size { self.new.size ≡ patch.size }
    {
        self.make_room(patch);
        let _ = write_word(
            self.buffer,
            patch.head + BlockHead::SIZE_PLACE,
            patch.body as u32,
        );
    }

    /// Makes room for a block as a patch says, and writes its head; its data are to come behind
    /// that.
    pub(crate) fn begin_block(&mut self, patch: Patch, key: [u8; 4])
        requires fits { IsFittingPatch (view self.old) patch }
        requires head { 8 ≤ patch.added }
        ensures same { self.new.buffer.ghost_name ≡ self.old.buffer.ghost_name }
        ensures length { length self.new.buffer.now ≡ length self.old.buffer.now }
        ensures buffer { self.new.buffer.now ≡ with_head_put (view self.old) key patch }
        ensures size { self.new.size ≡ patch.size }
    {
        self.make_room(patch);
        let size = patch.body as u32;
        let _ = BlockHead { key, size }.write(self.buffer, patch.at);
    }
}
