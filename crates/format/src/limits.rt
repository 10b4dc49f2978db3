//! How long a file may be.
ghost use Rattle.std.specs.Prelude.{◌≡◌, ◌≤◌, length, IfOk};
ghost use Rattle.format.specs.InBuffer.{most_bytes, capacity, within_capacity};

use faults::{Fault, Refusal};

/// No file that is written has more bytes than this.
pub const MOST_BYTES: usize = 1073741824;

/// How many bytes a file in the buffer may have: as many as the buffer has, and at most 2^30.
pub fn capacity(buffer: &[u8]) -> usize
    ensures { result ≡ capacity buffer.now }
{
    buffer.len().min(MOST_BYTES)
}

/// Fails with 32, with the length, for a file of more bytes than one in the buffer may have.
pub fn check_capacity(buffer: &[u8], size: usize) -> Result<(), Fault>
    ensures refuses { result ≡ within_capacity (capacity buffer.now) size }
    ensures room { IfOk result (λ _. size ≤ length buffer.now) }
    ensures small { IfOk result (λ _. size ≤ most_bytes) }
{
    if size > capacity(buffer) {
        return Err(Fault::at(Refusal::Capacity, size));
    }
    Ok(())
}
