//! What programs in C or Rust link: the library's questions under C names.
#![tactic(auto)]

mod editing;

ghost use Rattle.std.specs.Prelude.{◌≡◌};
ghost use Rattle.std.specs.Result.{result_unwrap_or};
ghost use Rattle.exports.specs.Rows.{copy_answer, copy_list};
ghost use Rattle.reader.specs.Judged.{judged_bytes};

use faults::{Fault, Refusal};
use reader::{JudgedFile, RowAt};

/// Copies the numbers of all rows of all cells to the start of the list and returns how many there
/// are; fails with 31, then with 22 and the count wanted for a list that is too short, which stays
/// as it was.
fn copy_rows(file: &JudgedFile, list: &mut [u32]) -> Result<usize, Fault>
    ensures answer { result_unwrap_or result 0 ≡ copy_answer (judged_bytes file.now) list.old }
    ensures list { list.new ≡ copy_list (judged_bytes file.now) list.old }
{
    let layout = file.layout()?;
    let count = layout.sizes.ranges as usize * layout.sizes.cell_size() / 4;
    if count > list.len() {
        return Err(Fault::at(Refusal::ListOrTableTooShort, count));
    }
    let mut end = 0;
    for cell in 1..=layout.sizes.ranges as usize {
        for row in 1..=layout.sizes.row_count() {
            let at = RowAt {
                level: 6,
                cell,
                row,
            };
            let (_, length) = file.row(at)?;
            file.numbers(at, &mut list[end..])?;
            end += length / 4;
        }
    }
    Ok(end)
}

/// Judges the file and copies the numbers of its rows, as 32-bit patterns, to the start of the
/// list, the rest of which stays: all rows of all cells, in order. Returns how many numbers there
/// are; returns 0, and leaves the list as it was, if the file is refused or the list is too short.
#[unsafe(no_mangle)]
pub extern "C" fn kutsvame_copy_rows(file: &[u8], list: &mut [u32]) -> usize
    ensures answer { result ≡ copy_answer file.now list.old }
    ensures list { list.new ≡ copy_list file.now list.old }
{
    copy_rows(&JudgedFile::of(file), list).unwrap_or(0)
}
