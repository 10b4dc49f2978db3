//! The walk over all blocks, one at a time.
ghost use Rattle.std.specs.Prelude.{◌≡◌, Ok, Err, MatchResult};
ghost use Rattle.reader.specs.Answers.{blocks_answer};
ghost use Rattle.reader.specs.Judged.{judged_bytes};
ghost use Rattle.reader.specs.Walk.{entries_left};

use crate::blocks::Heads;
use crate::file::JudgedFile;
use faults::Fault;

impl<'a> JudgedFile<'a> {
    /// The entries of all blocks in order, one at a time and with no table; none below version 6.
    /// Refuses 31.
    pub fn blocks(&self) -> Result<Heads<'a>, Fault>
        ensures { MatchResult result (λ heads. blocks_answer (judged_bytes self.now)
            ≡ Ok (entries_left heads)) (λ f. blocks_answer (judged_bytes self.now) ≡ Err f) }
    {
        let layout = self.layout()?;
        Ok(self.heads(layout))
    }
}
