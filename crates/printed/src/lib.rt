//! What is printed of a file, as values that say their own text, and as lists.
#![tactic(auto)]

mod fields;
mod heads;
mod keys;
mod named;
mod overview;
mod refused;
mod rows;
mod table;

pub use fields::{FieldLine, Form};
pub use heads::Head;
pub use keys::{Key, SPACE, TILDE, key_list, letter};
pub use named::{quoted, record_text};
pub use overview::{Opening, SizesText};
pub use refused::Refused;
pub use rows::{RowError, row_patterns};
pub use table::block_table;
