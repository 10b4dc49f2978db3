//! Bytes and the keys of a file's blocks, as they are printed.
ghost use Rattle.std.specs.Prelude.{◌≡◌, IfOk, Some, string_bytes};
ghost use Rattle.printed.specs.Keys.{letter_of, key_text, keys_text};

use reader::Entry;
use std::alloc::{AllocError, Global};
use std::fmt;

/// The first and the last byte that `show` prints as themselves: a space and a tilde.
pub const SPACE: u8 = 32;

pub const TILDE: u8 = 126;

/// A block's key or another code of four letters, as the big-endian number of its bytes, with the
/// first and the last byte that are shown as themselves.
#[derive(Clone, Copy)]
pub struct Key<const FIRST: u8, const LAST: u8>(pub u32);

/// A byte as a letter; what lies before the first byte shown or after the last is a question mark.
pub fn letter<const FIRST: u8, const LAST: u8>(byte: u8) -> char
    ensures { result ≡ letter_of FIRST LAST byte }
{
    if (FIRST..=LAST).contains(&byte) {
        byte as char
    } else {
        '?'
    }
}

impl<const FIRST: u8, const LAST: u8> fmt::Display for Key<FIRST, LAST> {
    ghost output = { λ x. Some (key_text FIRST LAST x.0) };

    fn fmt<W: fmt::Write>(&self, f: &mut fmt::Formatter<W>) -> fmt::Result {
        let [a, b, c, d] = self.0.to_be_bytes().map(letter::<FIRST, LAST>);
        write!(f, "{a}{b}{c}{d}")
    }
}

/// The keys of blocks in order, as `: FILL, XTRA`; nothing where there are none.
pub fn key_list<const FIRST: u8, const LAST: u8>(
    heap: Global,
    table: &[Entry],
) -> Result<String, AllocError>
    ensures { IfOk result (λ s. string_bytes s ≡ keys_text FIRST LAST table.now) }
{
    let Some((first, rest)) = table.split_first() else {
        return Ok(String::new(heap));
    };
    let key = Key::<FIRST, LAST>(first.key);
    let mut list = format!(in heap; ": {key}")?;
    for entry in rest {
        let key = Key::<FIRST, LAST>(entry.key);
        let more = format!(in heap; ", {key}")?;
        list.push_str(more.as_str())?;
    }
    Ok(list)
}
