//! The judged file: bytes, and where their parts stand.
ghost use Rattle.std.specs.Prelude.{◌≡◌};
ghost use Rattle.reader.specs.Levels.{file_layout, layout_numbers};

use format::Layout;

/// Bytes that were judged, and where their parts stand if they were accepted. Of refused bytes it
/// answers 31 to every question.
#[derive(Clone, Copy)]
pub struct JudgedFile<'a> {
    pub(crate) bytes: &'a [u8],
    pub(crate) layout: Option<Layout>,
    ghost known: { layout_numbers layout ≡ layout_numbers (file_layout bytes.now) },
}
