//! What is said of a file before its fields: version, level, start and sizes.
ghost use Rattle.std.specs.Prelude.{Some};
ghost use Rattle.printed.specs.Overview.{sizes_text, opening_text};

use format::Sizes;
use std::fmt;

/// What is said of a file first.
#[derive(Drop)]
pub struct Opening {
    /// The file's version.
    pub version: u16,
    /// The reader's level.
    pub level: usize,
    /// Where the reader finds the data.
    pub start: usize,
}

/// The line of the sizes of a file's data.
#[derive(Drop)]
pub struct SizesText(pub Sizes);

impl fmt::Display for Opening {
    ghost output = { λ x. Some (opening_text x.version x.level x.start) };

    fn fmt<W: fmt::Write>(&self, f: &mut fmt::Formatter<W>) -> fmt::Result {
        write!(
            f,
            "version {}, read at level {}\ndata at {}",
            self.version, self.level, self.start
        )
    }
}

impl fmt::Display for SizesText {
    ghost output = { λ x. Some (sizes_text x.0) };

    fn fmt<W: fmt::Write>(&self, f: &mut fmt::Formatter<W>) -> fmt::Result {
        let quality = self.0.quality_word();
        write!(
            f,
            "range cells {}, Doppler bins {}, first range cell {}, channels {}, {quality}",
            self.0.ranges, self.0.bins, self.0.first, self.0.channels
        )
    }
}
