//! Raising: the file gets the next version, in place.
ghost use Rattle.std.specs.Prelude.{◌≡◌, ◌+◌, ◌^◌, ◌<◌, ◌≤◌, length, IfOk};
ghost use Rattle.format.specs.Checks.{all_of};
ghost use Rattle.format.specs.Header.{header_end};
ghost use Rattle.reader.specs.Laws.{ReadFile};
ghost use Rattle.editor.specs.Calls.{view, file, edit, call_answer, state_after};
ghost use Rattle.editor.specs.Edits.{raise, raise_filling};
ghost use Rattle.editor.specs.Law.{IsGiven};
ghost use Rattle.editor.specs.steps.Raising.{raised_size, layout_conditions, layout_to_raise, raised_in};

use crate::working::WorkingFile;
use buffers::{shift_up, write_word};
use faults::{Fault, Refusal};
use format::{Field, Layout, Sizes, check_capacity, header_end};
use headers::{Filling, fill_fields, values_wanted, write_extents};

/// What fills the header of a raised file: the fields of its new level.
#[derive(Clone, Copy)]
struct Raise {
    /// The version that the file had.
    version: u16,
    /// The sizes that it had.
    sizes: Sizes,
}

impl Filling for Raise {
    ghost filling = { λ r. raise_filling r.version r.sizes };

    fn has(&self, field: Field) -> bool {
        field.level() == self.version as usize + 1
    }

    fn given(&self, field: Field) -> Option<u32> {
        match field.number() {
            2 => Some(1),
            11 => Some(self.sizes.bins),
            12 => Some(self.sizes.ranges),
            13 => Some(self.sizes.first),
            19 => Some(self.sizes.channels),
            _ => None,
        }
    }
}

/// Refuses 35 for a file from version 6 on, 36 for a gap before the data, and 17, with the count
/// wanted, for another count of values.
fn check_raise(layout: Layout, count: usize) -> Result<(), Fault>
    requires { 1 ≤ layout.version }
    ensures refuses { result ≡ all_of (layout_conditions layout count) }
    ensures early { IfOk result (λ _. layout.version < 6) }
{
    if layout.version >= 6 {
        return Err(Fault::at(Refusal::NothingToRaise, 0));
    }
    if layout.start != header_end(layout.version) {
        return Err(Fault::at(Refusal::Gap, 0));
    }
    let wanted = values_wanted(&Raise {
        version: layout.version,
        sizes: layout.sizes,
    });
    if count != wanted {
        return Err(Fault::at(Refusal::WrongLengthOrCount, wanted));
    }
    Ok(())
}

/// Raises the file in the first `size` bytes of a buffer, which has that layout: its data give way
/// to the longer header.
fn put_raised(buffer: &mut [u8], size: usize, layout: Layout, values: &[u32])
    requires from { 1 ≤ layout.version }
    requires to { layout.version < 6 }
    requires inside { header_end layout.version ≤ size }
    requires room { raised_size size layout.version ≤ length buffer.old }
    ensures { buffer.new ≡ raised_in buffer.old size layout.version layout.sizes values.now }
{
    let version = layout.version;
    let start = header_end(version);
    let end = header_end(version + 1);
    let _ = shift_up(buffer, start, size - start, end - start);
    let raise = Raise {
        version,
        sizes: layout.sizes,
    };
    fill_fields(buffer, &raise, values);
    // The new level's last word: an extent that ends where the data begin, or the size of a section
    // without blocks.
    let _ = write_word(buffer, end - 4, 0u32);
    let _ = write_word(buffer, 0, version + 1);
    let _ = write_extents(buffer, version, end);
}

impl<'a> WorkingFile<'a> {
    /// The layout of a file that can be raised with that many values, and how long the file is
    /// then; refuses 31, 35 from version 6 on, 36 for a gap before the data, 17, with the count
    /// wanted, for another count of values, and 32, with the length that the file would have, for
    /// more than the capacity.
    fn layout_to_raise(&self, count: usize) -> Result<(Layout, usize), Fault>
        ensures layout { result ≡ layout_to_raise (view self.now) count }
        ensures read { ReadFile (file (view self.now)) }
    {
        let layout = self.judged().layout()?;
        check_raise(layout, count)?;
        let size = self.size + (header_end(layout.version + 1) - header_end(layout.version));
        check_capacity(self.buffer, size)?;
        Ok((layout, size))
    }

    /// Gives the file the next version, with values for the fields that it has more, in order;
    /// refuses 31, 35 from version 6 on, 36 for a gap before the data, 17, with the count wanted,
    /// for another count of values, and 32, with the length that the file would have, for more than
    /// the capacity.
    pub fn raise(&mut self, values: &[u32]) -> Result<(), Fault>
        ensures given { IsGiven (edit (raise values.now)) }
        ensures same { self.new.buffer.ghost_name ≡ self.old.buffer.ghost_name }
        ensures answer { result ≡ call_answer (edit (raise values.now)) (view self.old) }
        ensures after { view self.new ≡ state_after (edit (raise values.now)) (view self.old) }
    {
        let (layout, size) = self.layout_to_raise(values.len())?;
        put_raised(self.buffer, self.size, layout, values);
        self.size = size;
        Ok(())
    }
}
