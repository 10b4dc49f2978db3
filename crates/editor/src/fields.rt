//! Setting a field.
ghost use Rattle.std.specs.Prelude.{◌≡◌, ◌+◌, ◌≤◌, length, IfOk};
ghost use Rattle.reader.specs.Laws.{ReadFile};
ghost use Rattle.editor.specs.Calls.{view, file, edit, call_answer, state_after};
ghost use Rattle.editor.specs.Edits.{set};
ghost use Rattle.editor.specs.steps.Places.{set_place};
ghost use Rattle.editor.specs.Law.{IsGiven};

use crate::working::WorkingFile;
use buffers::write_word;
use faults::{Fault, Refusal};
use format::Field;

impl<'a> WorkingFile<'a> {
    /// Where a field that may be set stands; refuses 31, 18 for no such field, 21 for one that
    /// steers the layout, and 33 if its level is above the file's version.
    fn place_to_set(&self, number: usize) -> Result<usize, Fault>
        ensures place { result ≡ set_place (file (view self.now)) number }
        ensures read { ReadFile (file (view self.now)) }
    {
        let file = self.judged();
        let layout = file.layout()?;
        let field = Field::try_from(number)?;
        if field.is_steering() {
            return Err(Fault::at(Refusal::SteeringField, 0));
        }
        if field.level() > layout.version as usize {
            return Err(Fault::at(Refusal::VersionLacksIt, 0));
        }
        Ok(field.place())
    }

    /// Gives a field another value; refuses 31, 18 for no such field, 21 for one that steers the
    /// layout, and 33 if its level is above the file's version.
    pub fn set(&mut self, number: usize, value: u32) -> Result<(), Fault>
        ensures given { IsGiven (edit (set number value)) }
        ensures same { self.new.buffer.ghost_name ≡ self.old.buffer.ghost_name }
        ensures answer { result ≡ call_answer (edit (set number value)) (view self.old) }
        ensures after { view self.new ≡ state_after (edit (set number value)) (view self.old) }
    {
        let place = self.place_to_set(number)?;
        let _ = write_word(self.buffer, place, value);
        Ok(())
    }
}
