//! TOOL: name and version of a program that made or worked on the file.
ghost use Rattle.std.specs.Prelude.{codes, refl};
ghost use Rattle.kinds.proofs.Texts.{text_keeps};
ghost use Rattle.texts.specs.Limit.{short_text};
ghost use Rattle.texts.specs.Tool.{tool_kind};

use crate::text::{Label, SHORT_TEXT, Text};

/// The kind of a TOOL block.
pub type Tool = Text<ToolLabel>;

/// The label of a TOOL block.
#[derive(Clone, Copy, PartialEq, Debug)]
pub struct ToolLabel;

impl Label for ToolLabel {
    const KEY: [u8; 4] = *b"TOOL";

    const MOST: Option<usize> = SHORT_TEXT;

    ghost KEY = { codes "TOOL" };

    ghost MOST = { short_text };

    ghost kind = { tool_kind };

    ghost ends = { refl };

    ghost keeps = { text_keeps (codes "TOOL") short_text refl };
}
