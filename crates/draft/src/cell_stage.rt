//! The second stage of a draft: its cells are laid, one after the other, and then it is closed.
ghost use Rattle.std.specs.Prelude.{◌≡◌, ◌+◌, ◌≤◌, length, IfOk, IfErr};
ghost use Rattle.std.specs.Result.{result_ok};
ghost use Rattle.format.specs.Checks.{passed};
ghost use Rattle.format.specs.Content.{Content};
ghost use Rattle.format.specs.InBuffer.{most_bytes};
ghost use Rattle.draft.specs.Drafts.{lay};
ghost use Rattle.draft.specs.Law.{IsStepGiven, IsDraftOf, IsFollowing};
ghost use Rattle.draft.specs.Stages.{of_cells, draft_state, step_answer, draft_after, close_answer};

use crate::stages::CellStage;
use buffers::write_bytes;
use faults::{Fault, Refusal};

impl CellStage {
    /// Refuses 38, with the cells laid, if all are laid, 17, with the bytes of a cell, for another
    /// count of bytes, and 32, with the bytes that the draft would have, for more than the
    /// capacity.
    fn check_lay(&self, buffer: &[u8], bytes: &[u8]) -> Result<(), Fault>
        ensures refuses { result
            ≡ step_answer (lay bytes.now) (draft_state (of_cells self.now) buffer.now) }
        ensures inside { IfOk result (λ _.
            (self.now.draft.size + self.now.draft.cell ≤ length buffer.now)
            × (self.now.draft.size + self.now.draft.cell ≤ most_bytes)) }
        ensures few { IfOk result (λ _. self.now.laid + 1 ≤ self.now.draft.cells) }
        ensures long { IfOk result (λ _. length bytes.now ≡ self.now.draft.cell) }
    {
        if self.laid >= self.draft.cells {
            return Err(Fault::at(Refusal::CellCount, self.laid));
        }
        if bytes.len() != self.draft.cell {
            return Err(Fault::at(Refusal::WrongLengthOrCount, self.draft.cell));
        }
        self.draft.check_room(buffer, self.draft.cell)
    }

    /// Lays the bytes of the next cell and gives the draft back; refuses 38, with the cells laid,
    /// if all are laid, 17, with the bytes of a cell, for another count of bytes, and 32, with the
    /// bytes that the draft would have, for more than the capacity.
    pub fn lay(self, buffer: &mut [u8], bytes: &[u8]) -> (CellStage, Result<(), Fault>)
        ensures answer { result.1
            ≡ step_answer (lay bytes.now) (draft_state (of_cells self) buffer.old) }
        ensures given { IsStepGiven (lay bytes.now) }
        ensures after { draft_state (of_cells result.0) buffer.new
            ≡ draft_after (lay bytes.now) (draft_state (of_cells self) buffer.old) }
        ensures content { (c : Content) → IsDraftOf c (of_cells self)
            → IsFollowing (lay bytes.now) (draft_state (of_cells self) buffer.old) c }
    {
        let outcome = self.check_lay(buffer, bytes);
        if outcome.is_err() {
            return (self, outcome);
        }
        let CellStage { draft, laid } = self;
        let _ = write_bytes(buffer, draft.size, bytes);
        let draft = draft.grown(draft.size + draft.cell);
        let laid = laid + 1;
        (CellStage { draft, laid }, Ok(()))
    }

    /// Ends the draft: how many bytes the file has; refuses 38, with the cells laid, while some are
    /// missing, and gives the draft back.
    pub fn close(self) -> Result<usize, (Fault, CellStage)>
        ensures closed { IfOk result (λ n. Ok n ≡ close_answer (of_cells self)) }
        ensures refused { IfErr result (λ r. (Err r.0 ≡ close_answer (of_cells self))
            × (of_cells r.1 ≡ of_cells self)) }
    {
        if self.laid < self.draft.cells {
            return Err((Fault::at(Refusal::CellCount, self.laid), self));
        }
        let CellStage { draft, laid: _ } = self;
        Ok(draft.size)
    }

    /// Ends the draft without a file. What was written into the buffer stays there.
    pub fn give_up(self) {
        let CellStage { draft: _, laid: _ } = self;
    }
}
