//! A block read as a kind: written once, for every kind.
ghost use Rattle.std.specs.Prelude.{◌≡◌, ◌≤◌, length};
ghost use Rattle.format.specs.Section.{block_end};
ghost use Rattle.reader.specs.Answers.{reading_sight, block_sight};

use faults::{Fault, Refusal};
use format::BlockHead;
use kinds::{Kind, Reading, is_kind};

/// Reads the block that begins at a place of a file, and has that number, as a kind: its record,
/// its text as a place in the file, and the bytes used. Refuses 12 for another key, then as the
/// kind does.
pub(crate) fn look_at<K: Kind>(
    bytes: &[u8],
    at: usize,
    number: usize,
) -> Result<Reading<K::Record>, Fault>
    requires { block_end bytes.now at ≤ length bytes.now }
    ensures { reading_sight K.numbers result ≡ block_sight K.kind bytes.now number at }
{
    let head = BlockHead::read(bytes, at);
    if !is_kind::<K>(head.key) {
        return Err(Fault::in_block(Refusal::Key, number, at));
    }
    let place = at + BlockHead::SIZE;
    let data = &bytes[place..place + head.size as usize];
    let reading = K::read(data).map_err(|fault| Fault::in_block(
        fault.refusal,
        number,
        place + fault.place,
    ))?;
    Ok(Reading {
        text: place + reading.text,
        ..reading
    })
}
