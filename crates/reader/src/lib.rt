//! The judged file: a file's bytes with what judging read in them, and every question that a reader
//! of a level may ask.
#![tactic(auto)]

mod blocks;
mod fields;
mod file;
mod judged;
mod parts;
mod rows;
mod sight;
mod walk;

pub use blocks::{Entry, Heads};
pub use file::JudgedFile;
pub use rows::RowAt;
