//! The session of a run: a working file and a draft, and the calls that a script makes of them.
#![tactic(auto)]

mod edits;
mod names;
mod questions;
mod running;
mod working;

pub use names::{Call, Edit, Question};
pub use running::Session;
pub use working::Working;
