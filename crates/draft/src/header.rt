//! The header of a draft, written one word after the other.
ghost use Rattle.std.specs.Prelude.{◌≡◌, ◌≤◌, length};
ghost use Rattle.format.specs.Header.{header_end};
ghost use Rattle.draft.specs.Drafts.{begin_filling};
ghost use Rattle.draft.specs.steps.Headers.{with_begun};

use crate::start::Start;
use buffers::write_word;
use format::{Field, header_end};
use headers::{Filling, fill_fields, write_following};

impl Filling for Start {
    ghost filling = { begin_filling };

    fn has(&self, field: Field) -> bool {
        field.level() <= self.version as usize
    }

    fn given(&self, field: Field) -> Option<u32> {
        match field.number() {
            2 => Some(self.kind as u32),
            11 => Some(self.bins),
            12 => Some(self.ranges),
            19 => Some(3),
            _ => None,
        }
    }
}

/// Writes the whole header of a file whose data begin right behind it.
pub(crate) fn put_header(buffer: &mut [u8], start: Start, values: &[u32])
    requires from { 4 ≤ start.version }
    requires to { start.version ≤ 6 }
    requires room { header_end start.version ≤ length buffer.old }
    ensures { buffer.new ≡ with_begun buffer.old start values.now }
{
    let _ = write_word(buffer, 0, start.version);
    fill_fields(buffer, &start, values);
    let _ = write_following(buffer, start.version, header_end(start.version), 0);
}
