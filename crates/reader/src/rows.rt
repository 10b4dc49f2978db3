//! Rows: where one stands, and its numbers.
ghost use Rattle.std.specs.Prelude.{◌≡◌, ◌+◌, ◌/◌, ◌^◌, ◌<◌, ◌≤◌, length, Ok, IfOk};
ghost use Rattle.format.specs.Checks.{all_of, ◌then◌};
ghost use Rattle.format.specs.Rows.{cells_size, row_span};
ghost use Rattle.reader.specs.Answers.{patterns, filled_list, row_answer, numbers_answer, numbers_list};
ghost use Rattle.reader.specs.Judged.{judged_bytes};
ghost use Rattle.reader.specs.Levels.{row_conditions};

use crate::file::JudgedFile;
use crate::judged::check_level;
use buffers::Word;
use faults::{Fault, Refusal};
use format::Layout;

/// A row that is asked for, and the level of the reader who asks.
#[derive(Clone, Copy, PartialEq, Eq, Debug)]
pub struct RowAt {
    /// The reader's level.
    pub level: usize,
    /// The cell, from 1.
    pub cell: usize,
    /// The row in the cell, from 1.
    pub row: usize,
}

/// Place and length in a file with that layout of the row that is asked for; refuses 19, 37 and 16.
fn span_of(layout: Layout, at: RowAt) -> Result<(usize, usize), Fault>
    requires { layout.start + cells_size layout.sizes < 2 ^ 64 }
    ensures { result
        ≡ (all_of (row_conditions layout.version layout.sizes at.level at.cell at.row) then
        Ok (row_span layout at.cell at.row)) }
{
    check_level(at.level)?;
    if at.level < 4.min(layout.version as usize) {
        return Err(Fault::at(Refusal::LayoutUnknown, 0));
    }
    let none = Fault::at(Refusal::NoSuchCellOrRow, 0);
    let (place, length) = layout.sizes.row_in(at.cell, at.row).ok_or(none)?;
    Ok((layout.start + place as usize, length))
}

/// Copies the numbers in the bytes to the start of the list, four bytes to a number.
fn copy_numbers(bytes: &[u8], list: &mut [u32])
    requires { length bytes.now / 4 ≤ length list.old }
    ensures { list.new ≡ filled_list (patterns bytes.now) list.old }
{
    for (i, word) in bytes.chunks_exact(4).enumerate() {
        list[i] = u32::at(word, 0);
    }
}

impl<'a> JudgedFile<'a> {
    /// Place and length of a row in the file; refuses 31, 19, 37 if the level does not know the
    /// file's layout, and 16 for no such cell or row.
    pub fn row(&self, at: RowAt) -> Result<(usize, usize), Fault>
        ensures answer { result ≡ row_answer (judged_bytes self.now) at.level at.cell at.row }
        ensures inside { IfOk result (λ p. p.0 + p.1 ≤ length (judged_bytes self.now)) }
    {
        let layout = self.layout()?;
        span_of(layout, at)
    }

    /// Copies a row's 32-bit patterns to the start of the list, the rest of which stays; refuses as
    /// `row` does, then 22, with the count wanted, for a list that is too short.
    pub fn numbers(&self, at: RowAt, list: &mut [u32]) -> Result<(), Fault>
        ensures answer { result
            ≡ numbers_answer (judged_bytes self.now) at.level at.cell at.row (length list.old) }
        ensures list { list.new
            ≡ numbers_list (judged_bytes self.now) at.level at.cell at.row list.old }
    {
        let (place, length) = self.row(at)?;
        let count = length / 4;
        if count > list.len() {
            return Err(Fault::at(Refusal::ListOrTableTooShort, count));
        }
        let bytes = self.bytes;
        copy_numbers(&bytes[place..place + length], list);
        Ok(())
    }
}
