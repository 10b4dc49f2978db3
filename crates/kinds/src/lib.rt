//! The kinds of block: what a block's data mean, read and written by its kind.
#![tactic(auto)]

mod ended;
mod kind;
mod packed;
mod writing;

pub use ended::{ended_length, first_zero, measure_text, read_text, write_text};
pub use kind::{Kind, Reading, is_kind};
pub use packed::{Packed, check_record, measure_record};
pub use writing::write_at;
