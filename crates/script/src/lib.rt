//! The reading of scripts: text with one call to a line, and arguments parted by spaces.
#![tactic(auto)]

mod argument_error;
mod arguments;
mod fields;
mod literal;
mod numbers;

pub use argument_error::ArgumentError;
pub use arguments::Arguments;
pub use fields::{Fields, NamedNumeral, Numeral, arguments_text};
pub use literal::{Literal, hexadecimal, key_of};
pub use numbers::Number;
