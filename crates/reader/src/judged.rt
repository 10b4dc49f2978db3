//! The judged file: how it is made, its version, and where each level finds the data.
ghost use Rattle.std.specs.Prelude.{◌≡◌, IfOk};
ghost use Rattle.reader.specs.Answers.{version_answer, start_answer};
ghost use Rattle.reader.specs.Laws.{IsPlaced, AgreedFile, ReadFile};
ghost use Rattle.reader.specs.Judged.{judged_bytes};
ghost use Rattle.reader.specs.Levels.{layout_of_file, level_known};

use crate::file::JudgedFile;
use faults::{Fault, Refusal};
use format::{EXTENTS, Layout, judge};

/// Refuses 19 for a level that is none of 1 to 6.
pub(crate) fn check_level(level: usize) -> Result<(), Fault>
    ensures { result ≡ level_known level }
{
    if (1..=6).contains(&level) {
        Ok(())
    } else {
        Err(Fault::at(Refusal::Level, 0))
    }
}

impl<'a> JudgedFile<'a> {
    /// Judges the bytes and keeps them.
    ///
    /// Its contract has the laws of reading: of an accepted file the readers of all levels agree.
    #[tactic(auto, using(crate::proofs::Known::kept_of))]
    pub fn of(bytes: &'a [u8]) -> JudgedFile<'a>
        ensures bytes { judged_bytes result ≡ bytes.now }
        ensures agree { AgreedFile bytes.now }
        ensures read { ReadFile bytes.now }
    {
        JudgedFile {
            bytes,
            layout: judge(bytes).ok(),
        }
    }

    /// Where the parts of the file stand; refuses 31 if it was refused.
    #[tactic(auto, using(crate::proofs::Known::held_or, crate::proofs::Place::placed_if))]
    pub fn layout(&self) -> Result<Layout, Fault>
        ensures exact { result ≡ layout_of_file (judged_bytes self.now) }
        ensures placed { IfOk result (IsPlaced (judged_bytes self.now)) }
    {
        self.layout.ok_or(Fault::at(Refusal::NoFile, 0))
    }

    /// The file's version; refuses 31.
    pub fn version(&self) -> Result<u16, Fault>
        ensures { result ≡ version_answer (judged_bytes self.now) }
    {
        let layout = self.layout()?;
        Ok(layout.version)
    }

    /// Where a reader of that level finds the data; refuses 31, then 19.
    pub fn start(&self, level: usize) -> Result<usize, Fault>
        ensures { result ≡ start_answer (judged_bytes self.now) level }
    {
        let layout = self.layout()?;
        check_level(level)?;
        let extent = EXTENTS[level.min(layout.version as usize).min(5) - 1];
        Ok(extent.start(self.bytes))
    }
}
