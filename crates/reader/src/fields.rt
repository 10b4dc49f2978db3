//! Fields: the pattern of one, as a reader of a level sees it.
ghost use Rattle.std.specs.Prelude.{◌≡◌, IfOk};
ghost use Rattle.format.specs.Checks.{all_of, passed};
ghost use Rattle.format.specs.Conditions.{field_number};
ghost use Rattle.reader.specs.Answers.{field_answer};
ghost use Rattle.reader.specs.Judged.{judged_bytes};
ghost use Rattle.reader.specs.Levels.{field_conditions};

use crate::file::JudgedFile;
use crate::judged::check_level;
use faults::{Fault, Refusal};
use format::{Field, Layout};

/// The field of that number, as it is asked for; refuses 19, 18, 20 and 33.
fn check_field(layout: Layout, level: usize, number: usize) -> Result<Field, Fault>
    ensures refuses { passed result ≡ all_of (field_conditions layout.version level number) }
    ensures same { IfOk result (λ field. field_number field ≡ number) }
{
    check_level(level)?;
    let field = Field::try_from(number)?;
    if field.level() > level {
        return Err(Fault::at(Refusal::LevelTooLow, 0));
    }
    if field.level() > layout.version as usize {
        return Err(Fault::at(Refusal::VersionLacksIt, 0));
    }
    Ok(field)
}

impl<'a> JudgedFile<'a> {
    /// The pattern of a field, as a reader of that level sees it; refuses 31, 19, 18 for no such
    /// field, 20 if its level is above the reader's, and 33 if it is above the file's version.
    pub fn field(&self, level: usize, number: usize) -> Result<u32, Fault>
        ensures { result ≡ field_answer (judged_bytes self.now) level number }
    {
        let layout = self.layout()?;
        let field = check_field(layout, level, number)?;
        Ok(field.pattern(self.bytes))
    }
}
