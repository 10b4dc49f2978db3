//! A layout in plain words.
ghost use Rattle.std.specs.Prelude.{◌≡◌, Some};
ghost use Rattle.format.specs.Shown.{count_text, quality_text, layout_text};

use crate::judging::Layout;
use crate::sizes::Sizes;
use std::fmt;

impl Sizes {
    /// Whether there is a quality row, in words.
    pub fn quality_word(&self) -> &'static str
        ensures { result.now ≡ quality_text self.now.quality }
    {
        if self.quality {
            "quality"
        } else {
            "no quality"
        }
    }
}

/// A count of things, which are named in the singular.
#[derive(Drop)]
struct Counted(usize, &'static str);

impl fmt::Display for Counted {
    ghost output = { λ x. Some (count_text x.0 x.1.now) };

    fn fmt<W: fmt::Write>(&self, f: &mut fmt::Formatter<W>) -> fmt::Result {
        let Counted(count, thing) = self;
        let plural = if *count == 1 { "" } else { "s" };
        write!(f, "{count} {thing}{plural}")
    }
}

impl fmt::Display for Layout {
    ghost output = { λ x. Some (layout_text x) };

    fn fmt<W: fmt::Write>(&self, f: &mut fmt::Formatter<W>) -> fmt::Result {
        write!(
            f,
            "version {}, {} of {}, {}, data at {}, {}",
            self.version,
            Counted(self.sizes.ranges as usize, "range cell"),
            Counted(self.sizes.bins as usize, "Doppler bin"),
            self.sizes.quality_word(),
            self.start,
            Counted(self.blocks, "block")
        )
    }
}
