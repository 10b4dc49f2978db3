//! The stages of a draft, and what each knows: numbers alone.
ghost use Rattle.std.specs.Prelude.{◌≡◌, ◌+◌, ◌*◌, ◌≤◌, length, IfOk};
ghost use Rattle.format.specs.Header.{header_end};
ghost use Rattle.format.specs.Rows.{most_cell_size};
ghost use Rattle.format.specs.Sizes.{most_ranges};
ghost use Rattle.format.specs.InBuffer.{most_bytes, capacity, within_capacity};
ghost use Rattle.kinds.specs.Kind.{most_written};

use faults::Fault;
use format::check_capacity;

/// What a draft knows of its file: numbers alone.
#[derive(Clone, Copy)]
pub(crate) struct Draft {
    /// The version.
    pub(crate) version: u16,
    /// How many cells the file is to have.
    pub(crate) cells: usize,
    /// How many bytes each of them has.
    pub(crate) cell: usize,
    /// How many bytes are written so far.
    pub(crate) size: usize,
    ghost version_known: { (4 ≤ version) × (version ≤ 6) },
    ghost cells_known: { (cells ≤ most_ranges) × (cell ≤ most_cell_size) },
    ghost size_known: { (header_end version ≤ size) × (size ≤ most_bytes) },
}

/// A draft that takes blocks. Each call that writes is handed the buffer. It is used up by turning
/// it to its cells or giving it up, and cannot be let go.
pub struct BlockStage {
    pub(crate) draft: Draft,
}

/// A draft whose blocks are ended, and which takes cells. Each call that writes is handed the
/// buffer. It is used up by closing it or giving it up, and cannot be let go.
pub struct CellStage {
    pub(crate) draft: Draft,
    pub(crate) laid: usize,
    ghost few: { laid ≤ draft.cells },
}

impl Draft {
    /// Refuses 32, with the bytes that the draft would have, where so many more would exceed the
    /// capacity.
    pub(crate) fn check_room(self, buffer: &[u8], added: usize) -> Result<(), Fault>
        requires { added ≤ 8 + most_written }
        ensures refuses { result ≡ within_capacity (capacity buffer.now) (self.size + added) }
        ensures inside { IfOk result (λ _. (self.size + added ≤ length buffer.now)
            × (self.size + added ≤ most_bytes)) }
    {
        let size = self.size + added;
        check_capacity(buffer, size)
    }

    /// The same with so many bytes written.
    pub(crate) fn grown(self, size: usize) -> Draft
        requires from { self.size ≤ size }
        requires to { size ≤ most_bytes }
        ensures version { result.version ≡ self.version }
        ensures cells { result.cells ≡ self.cells }
        ensures cell { result.cell ≡ self.cell }
        ensures size { result.size ≡ size }
    {
        let Draft {
            version,
            cells,
            cell,
            size: _,
        } = self;
        Draft {
            version,
            cells,
            cell,
            size,
        }
    }
}
