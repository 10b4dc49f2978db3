//! The working file: how it is made.
ghost use Rattle.std.specs.Prelude.{◌≡◌, length};
ghost use Rattle.editor.specs.Calls.{work_state, view, file_end, made_state, file};
ghost use Rattle.editor.specs.Ledger.{begun_ledger};
ghost use Rattle.editor.specs.Law.{ReadersLaw};
ghost use Rattle.reader.specs.Laws.{ReadFile};

use format::capacity;
use reader::JudgedFile;

/// A buffer that holds a file at its start, or none.
#[derive(Drop)]
pub struct WorkingFile<'a> {
    pub(crate) buffer: &'a mut [u8],
    pub(crate) size: usize,
}

/// The first bytes of a buffer, as a file; no bytes where they would exceed the capacity.
pub(crate) fn file_in(buffer: &[u8], size: usize) -> &[u8]
    ensures { result.now ≡ file (work_state buffer.now size) }
{
    if size <= capacity(buffer) {
        &buffer[..size]
    } else {
        &[]
    }
}

/// Where the file in the first bytes of a buffer ends; 0 if they are none.
pub(crate) fn end_of(buffer: &[u8], size: usize) -> usize
    ensures end { result ≡ file_end (work_state buffer.now size) }
    ensures read { ReadFile (file (work_state buffer.now size)) }
{
    match JudgedFile::of(file_in(buffer, size)).layout() {
        Ok(_) => size,
        Err(_) => 0,
    }
}

impl<'a> WorkingFile<'a> {
    /// A working file over the buffer: it holds the file in the first `size` bytes, if they are one
    /// within the capacity.
    #[tactic(auto, using(crate::proofs::laws::EveryRun::every_run))]
    pub fn make(buffer: &'a mut [u8], size: usize) -> WorkingFile<'a>
        ensures same { result.buffer.ghost_name ≡ buffer.entry.ghost_name }
        ensures law { ReadersLaw (begun_ledger buffer.old size) (view result) }
        ensures state { view result ≡ made_state buffer.old size }
    {
        let size = end_of(buffer, size);
        WorkingFile { buffer, size }
    }
}
