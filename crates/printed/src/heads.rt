//! The head of a block: its number, key, place and size.
ghost use Rattle.std.specs.Prelude.{Some};
ghost use Rattle.printed.specs.Blocks.{head_text};

use crate::keys::{Key, SPACE, TILDE};
use reader::Entry;
use std::fmt;

/// A block's number, and its entry.
#[derive(Drop)]
pub struct Head(pub usize, pub Entry);

impl fmt::Display for Head {
    ghost output = { λ x. Some (head_text x.0 x.1) };

    fn fmt<W: fmt::Write>(&self, f: &mut fmt::Formatter<W>) -> fmt::Result {
        let Head(number, entry) = self;
        let key = Key::<SPACE, TILDE>(entry.key);
        write!(
            f,
            "block {number} {key} at {}, size {}",
            entry.place, entry.size
        )
    }
}
