//! A text that ends before a zero, without numbers. A label says its key and how long it may be;
//! here each is read, measured and written as a kind.
ghost use Rattle.std.specs.Prelude.{◌≡◌, ℕ, List, [], Option};
ghost use Rattle.kinds.specs.Ended.{text_kind};
ghost use Rattle.kinds.specs.Kind.{KindSpec, IsSoundKind};
ghost use Rattle.std.proofs.Common.{rules};

use faults::Fault;
use kinds::{Kind, Reading, measure_text, read_text, write_text};
use std::marker::PhantomData;

/// The limit of a text of at most 255 bytes, 256 with its zero.
pub(crate) const SHORT_TEXT: Option<usize> = Some(255);

/// What tells one kind of text from another.
pub trait Label {
    /// The key of the text's kind.
    const KEY: [u8; 4];

    /// How many bytes the text may have at most, if not any number.
    const MOST: Option<usize>;

    ghost KEY: { List ℕ };

    ghost MOST: { Option ℕ };

    ghost kind: { KindSpec };

    ghost ends: { kind ≡ text_kind KEY MOST };

    ghost keeps: { IsSoundKind kind };
}

/// The kind of text that has this label.
#[derive_where(Clone, Copy, PartialEq, Debug)]
pub struct Text<L> {
    label: PhantomData<L>,
}

impl<L: Label> Kind for Text<L> {
    type Record = ();

    ghost kind = { L.kind };

    ghost numbers = { λ x. [] };

    ghost IsRecord = { λ x. Unit {0} };

    ghost keeps = { L.keeps };

    ghost apart = { Prim.search rules };

    fn key() -> [u8; 4] {
        L::KEY
    }

    fn read(bytes: &[u8]) -> Result<Reading<()>, Fault> {
        let length = read_text(bytes, L::MOST)?;
        Ok(Reading {
            record: (),
            text: 0,
            length,
            used: length + 1,
        })
    }

    fn measure(_value: (), text: &[u8]) -> Result<usize, Fault> {
        measure_text(text, L::MOST)
    }

    fn write(_value: (), text: &[u8], out: &mut [u8]) -> Result<usize, Fault> {
        write_text(text, L::MOST, out)
    }
}
