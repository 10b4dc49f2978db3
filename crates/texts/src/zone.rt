//! ZONE: a label of the time zone.
ghost use Rattle.std.specs.Prelude.{codes, refl};
ghost use Rattle.kinds.proofs.Texts.{text_keeps};
ghost use Rattle.texts.specs.Limit.{short_text};
ghost use Rattle.texts.specs.Zone.{zone_kind};

use crate::text::{Label, SHORT_TEXT, Text};

/// The kind of a ZONE block.
pub type Zone = Text<ZoneLabel>;

/// The label of a ZONE block.
#[derive(Clone, Copy, PartialEq, Debug)]
pub struct ZoneLabel;

impl Label for ZoneLabel {
    const KEY: [u8; 4] = *b"ZONE";

    const MOST: Option<usize> = SHORT_TEXT;

    ghost KEY = { codes "ZONE" };

    ghost MOST = { short_text };

    ghost kind = { zone_kind };

    ghost ends = { refl };

    ghost keeps = { text_keeps (codes "ZONE") short_text refl };
}
