//! The blocks of a file, as they are printed.
ghost use Rattle.std.specs.Prelude.{⊤};

use calls::{ForKind, by_key};
use faults::Fault;
use format::Layout;
use kinds::{Kind, Reading};
use printed::{Head, Refused, block_table, record_text};
use reader::{Entry, JudgedFile};
use script::Fields;
use std::io;
use std::str::from_utf8;

/// What a kind reads in a block, and its text.
fn read_block<'a, K: Kind>(
    file: &JudgedFile<'a>,
    number: usize,
) -> Result<(Reading<K::Record>, &'a [u8]), Fault> {
    Ok((file.look::<K>(number)?, file.text_part::<K>(number)?))
}

/// Prints the line of a block that is read as a kind.
fn show_kind<K: Kind>(rt: &HostRuntime, file: &JudgedFile, head: Head) -> io::Result<()>
where
    K::Record: Fields,
{
    match read_block::<K>(file, head.0) {
        Ok((reading, text)) => {
            let record = record_text(rt.alloc(), reading.record, text)?;
            let record = record.as_str();
            let behind = head.1.size.saturating_sub(reading.used);
            if behind > 0 {
                println!(rt; "{head}: {record}; bytes behind {behind}")
            } else {
                println!(rt; "{head}: {record}")
            }
        }
        Err(fault) => {
            let refused = Refused(fault);
            println!(rt; "{head}: {refused}")
        }
    }
}

/// A block that is shown as a kind.
#[derive(Drop)]
struct BlockToShow<'c, 'f> {
    rt: &'c HostRuntime,
    file: &'c JudgedFile<'f>,
    head: Head,
}

impl<'c, 'f> ForKind for BlockToShow<'c, 'f> {
    type Output = io::Result<()>;

    ghost gives = { λ call key outcome. ⊤ };

    fn of<K: Kind>(self) -> io::Result<()>
    where
        K::Record: Fields,
    {
        show_kind::<K>(self.rt, self.file, self.head)
    }
}

/// Prints the line of a block, which is read as the kind that its key names.
fn show_block(rt: &HostRuntime, file: &JudgedFile, number: usize, entry: Entry) -> io::Result<()> {
    let key = entry.key.to_be_bytes();
    let head = Head(number, entry);
    let shown = match from_utf8(&key) {
        Ok(key) => by_key(key, BlockToShow { rt, file, head }),
        Err(_) => None,
    };
    match shown {
        Some(outcome) => outcome,
        None => {
            let head = Head(number, entry);
            println!(rt; "{head}: unknown kind")
        }
    }
}

/// Prints a line for each block, or why a reader of that level sees none.
pub fn show_blocks(
    rt: &HostRuntime,
    file: &JudgedFile,
    layout: Layout,
    level: usize,
) -> io::Result<()> {
    if level < 6 {
        return rt.println("blocks are not seen at this level");
    }
    if layout.version < 6 {
        return rt.println("this version has no blocks");
    }
    let table = block_table(rt.alloc(), file, layout.blocks)?;
    for (number, entry) in (1..).zip(table.iter()) {
        show_block(rt, file, number, *entry)?;
    }
    Ok(())
}
