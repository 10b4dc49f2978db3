//! The numbers of a row, in a list of just their count.
ghost use Rattle.std.specs.Prelude.{◌≡◌, vec_items};
ghost use Rattle.printed.specs.declared.rows.RowError.TheVariants.{Refused, OutOfMemory};
ghost use Rattle.printed.specs.Patterns.{row_patterns, HoldsPatterns};
ghost use Rattle.reader.specs.Judged.{judged_bytes};

use faults::Fault;
use reader::{JudgedFile, RowAt};
use std::alloc::{AllocError, Global};
use thiserror::Error;

/// Why a row has no list of numbers.
#[derive(Clone, Copy, PartialEq, Eq, Debug, Error)]
pub enum RowError {
    /// The row is refused.
    #[error(transparent)]
    Refused(Fault),
    /// There is no memory for the list.
    #[error(transparent)]
    OutOfMemory(AllocError),
}

impl From<Fault> for RowError {
    ghost from_gives = { λ fault e. e ≡ Refused fault };

    fn from(fault: Fault) -> RowError {
        RowError::Refused(fault)
    }
}

impl From<AllocError> for RowError {
    ghost from_gives = { λ error e. e ≡ OutOfMemory error };

    fn from(error: AllocError) -> RowError {
        RowError::OutOfMemory(error)
    }
}

/// The patterns of a row; refuses as `JudgedFile::row` does.
pub fn row_patterns(heap: Global, file: &JudgedFile, at: RowAt) -> Result<Vec<u32>, RowError>
    ensures { HoldsPatterns vec_items (row_patterns (judged_bytes file.now) at.level at.cell at.row) result }
{
    let (_, length) = file.row(at)?;
    let mut list = vec![in heap; 0; length / 4]?;
    file.numbers(at, list.as_mut_slice())?;
    Ok(list)
}
