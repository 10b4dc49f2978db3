//! Loading: other bytes are taken over as the file.
ghost use Rattle.std.specs.Prelude.{◌≡◌, ◌≤◌, length, IfOk, IsOk};
ghost use Rattle.editor.specs.Calls.{view, file_end, load, call_answer, state_after};
ghost use Rattle.format.specs.InBuffer.{capacity, with_file};
ghost use Rattle.format.specs.Checks.{passed};
ghost use Rattle.format.specs.Content.{content, write};
ghost use Rattle.format.specs.Judging.{judged};
ghost use Rattle.editor.specs.Law.{IsGiven};

use crate::working::{WorkingFile, end_of};
use buffers::{write_bytes, zero_bytes};
use faults::Fault;
use format::{check_capacity, judge};

/// Puts a file in the place of one that ended at `old`: what that one had behind the new end
/// becomes zero.
#[tactic(auto, using(crate::proofs::calls::Done::put_whole))]
fn put_file(buffer: &mut [u8], old: usize, new: &[u8])
    requires within { old ≤ length buffer.old }
    requires room { length new.now ≤ length buffer.old }
    ensures { buffer.new ≡ with_file buffer.old old new.now }
{
    let _ = write_bytes(buffer, 0, new);
    let _ = zero_bytes(buffer, new.len(), old.saturating_sub(new.len()));
}

impl<'a> WorkingFile<'a> {
    /// Where the file ends that gives way to other bytes; refuses as judging does, its fault passed
    /// on whole, and 32, with their count, for more than the capacity.
    fn end_to_load(&self, bytes: &[u8]) -> Result<usize, Fault>
        ensures answer { passed result ≡ call_answer (load bytes.now) (view self.now) }
        ensures end { IfOk result (λ old. old ≡ file_end (view self.now)) }
        ensures room { IfOk result (λ old. length bytes.now ≤ capacity self.now.buffer.now) }
        ensures accepted { IfOk result (λ old. IsOk (judged bytes.now)) }
        ensures whole { IfOk result (λ old. write (content bytes.now) ≡ bytes.now) }
    {
        judge(bytes)?;
        check_capacity(self.buffer, bytes.len())?;
        Ok(end_of(self.buffer, self.size))
    }

    /// Takes over other bytes as the file; refuses as judging does, its fault passed on whole, and
    /// 32, with their count, for more than the capacity.
    pub fn load(&mut self, bytes: &[u8]) -> Result<(), Fault>
        ensures given { IsGiven (load bytes.now) }
        ensures same { self.new.buffer.ghost_name ≡ self.old.buffer.ghost_name }
        ensures answer { result ≡ call_answer (load bytes.now) (view self.old) }
        ensures after { view self.new ≡ state_after (load bytes.now) (view self.old) }
    {
        let old = self.end_to_load(bytes)?;
        put_file(self.buffer, old, bytes);
        self.size = bytes.len();
        Ok(())
    }
}
