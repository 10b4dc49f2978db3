//! Big-endian words in a slice of bytes, and moves inside a buffer.
#![tactic(auto)]

mod moves;
mod words;

pub use moves::{shift_down, shift_up, write_bytes, write_word, zero_bytes};
pub use words::Word;
