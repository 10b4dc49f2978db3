//! The buffer of a draft or of a working file, which may grow as calls want more room.
ghost use Rattle.std.specs.Prelude.{◌≡◌, IfOk};
ghost use Rattle.calls.specs.Room.{IsGrown};

use faults::{Fault, Refusal};
use std::alloc::{AllocError, Global};

/// A buffer, and how long it may become.
#[derive(Drop)]
pub struct Room {
    /// The buffer.
    pub bytes: Vec<u8>,
    /// How many bytes it may have at most.
    pub most: usize,
}

impl Room {
    /// A buffer of so many zeros.
    pub fn of_zeros(heap: Global, length: usize, most: usize) -> Result<Room, AllocError> {
        let bytes = vec![in heap; 0; length]?;
        Ok(Room { bytes, most })
    }

    /// Makes the buffer longer, with zeros after, for a call that was refused for want of room;
    /// whether it is longer now, so that the call may be made again.
    pub fn grow(&mut self, outcome: Result<(), Fault>) -> Result<bool, AllocError>
        ensures grown { IfOk result (λ made. IsGrown self.old.most self.old.bytes.items outcome made self.new.bytes.items) }
        ensures most { self.new.most ≡ self.old.most }
    {
        let Err(fault) = outcome else {
            return Ok(false);
        };
        let had = self.bytes.len();
        let most = self.most;
        if fault.refusal != Refusal::Capacity || fault.place > most || fault.place <= had {
            return Ok(false);
        }
        let length = fault.place.max(most.min(had.saturating_mul(2)));
        self.bytes.resize(length, 0)?;
        Ok(true)
    }
}
