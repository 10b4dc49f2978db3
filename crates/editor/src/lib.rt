//! The working file: a buffer that holds a file at its start, changed and read by calls.
#![tactic(auto)]

mod amending;
mod blocks;
mod fields;
mod loading;
mod patch;
mod raising;
mod readings;
mod rows;
mod working;

pub use amending::{Amended, Amendment, amend};
pub use working::WorkingFile;
