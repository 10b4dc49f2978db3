//! Drafts: a new file, written into a buffer stage by stage.
#![tactic(auto)]

mod block_stage;
mod cell_stage;
mod drafting;
mod header;
mod stages;
mod start;

pub use drafting::{Drafted, Parts, draft_file};
pub use stages::{BlockStage, CellStage};
pub use start::Start;
