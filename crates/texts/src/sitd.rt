//! SITD: a description of the site.
ghost use Rattle.std.specs.Prelude.{None, codes, refl};
ghost use Rattle.kinds.proofs.Texts.{text_keeps};
ghost use Rattle.texts.specs.Sitd.{sitd_kind};

use crate::text::{Label, Text};

/// The kind of a SITD block.
pub type Sitd = Text<SitdLabel>;

/// The label of a SITD block.
#[derive(Clone, Copy, PartialEq, Debug)]
pub struct SitdLabel;

impl Label for SitdLabel {
    const KEY: [u8; 4] = *b"SITD";

    const MOST: Option<usize> = None;

    ghost KEY = { codes "SITD" };

    ghost MOST = { None };

    ghost kind = { sitd_kind };

    ghost ends = { refl };

    ghost keeps = { text_keeps (codes "SITD") None refl };
}
