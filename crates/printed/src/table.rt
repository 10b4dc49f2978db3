//! The table of a file's blocks.
ghost use Rattle.std.specs.Prelude.{◌≡◌, replicate, IfOk};
ghost use Rattle.reader.specs.Answers.{table_list};
ghost use Rattle.printed.specs.Table.{no_entry};
ghost use Rattle.reader.specs.Judged.{judged_bytes};

use reader::{Entry, JudgedFile};
use std::alloc::{AllocError, Global};

/// The entries of a file's blocks, of which there are as many as judging counted.
pub fn block_table(heap: Global, file: &JudgedFile, blocks: usize) -> Result<Vec<Entry>, AllocError>
    ensures { IfOk result (λ v. v.items ≡ table_list (judged_bytes file.now) (replicate blocks no_entry)) }
{
    let none = Entry {
        key: 0,
        place: 0,
        size: 0,
    };
    let mut table = vec![in heap; none; blocks]?;
    // What it answers is let go: its contract says what the table holds, refused or not.
    let _ = file.table(table.as_mut_slice());
    Ok(table)
}
