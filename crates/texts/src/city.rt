//! CITY: the time zone by the name of a city.
ghost use Rattle.std.specs.Prelude.{codes, refl};
ghost use Rattle.kinds.proofs.Texts.{text_keeps};
ghost use Rattle.texts.specs.City.{city_kind};
ghost use Rattle.texts.specs.Limit.{short_text};

use crate::text::{Label, SHORT_TEXT, Text};

/// The kind of a CITY block.
pub type City = Text<CityLabel>;

/// The label of a CITY block.
#[derive(Clone, Copy, PartialEq, Debug)]
pub struct CityLabel;

impl Label for CityLabel {
    const KEY: [u8; 4] = *b"CITY";

    const MOST: Option<usize> = SHORT_TEXT;

    ghost KEY = { codes "CITY" };

    ghost MOST = { short_text };

    ghost kind = { city_kind };

    ghost ends = { refl };

    ghost keeps = { text_keeps (codes "CITY") short_text refl };
}
