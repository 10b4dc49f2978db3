//! Storing a row.
ghost use Rattle.std.specs.Prelude.{◌≡◌, length};
ghost use Rattle.reader.specs.Laws.{ReadFile};
ghost use Rattle.editor.specs.Calls.{view, file, edit, call_answer, state_after};
ghost use Rattle.editor.specs.Edits.{store};
ghost use Rattle.editor.specs.steps.Places.{store_place};
ghost use Rattle.editor.specs.Law.{IsGiven};

use crate::working::WorkingFile;
use buffers::write_bytes;
use faults::{Fault, Refusal};
use reader::RowAt;

impl<'a> WorkingFile<'a> {
    /// Where a row stands for which that many bytes are given; refuses 31, 16 for no such cell or
    /// row, and 17, with the row's length, for another length.
    fn place_to_store(&self, cell: usize, row: usize, size: usize) -> Result<usize, Fault>
        ensures place { result ≡ store_place (file (view self.now)) cell row size }
        ensures read { ReadFile (file (view self.now)) }
    {
        // At level 6 a row is refused for its cell and its number alone.
        let level = 6;
        let (place, length) = self.judged().row(RowAt { level, cell, row })?;
        if size != length {
            return Err(Fault::at(Refusal::WrongLengthOrCount, length));
        }
        Ok(place)
    }

    /// Gives a row other bytes; refuses 31, 16 for no such cell or row, and 17, with the row's
    /// length, for another length.
    pub fn store(&mut self, cell: usize, row: usize, bytes: &[u8]) -> Result<(), Fault>
        ensures given { IsGiven (edit (store cell row bytes.now)) }
        ensures same { self.new.buffer.ghost_name ≡ self.old.buffer.ghost_name }
        ensures answer { result ≡ call_answer (edit (store cell row bytes.now)) (view self.old) }
        ensures after { view self.new
            ≡ state_after (edit (store cell row bytes.now)) (view self.old) }
    {
        let place = self.place_to_store(cell, row, bytes.len())?;
        let _ = write_bytes(self.buffer, place, bytes);
        Ok(())
    }
}
