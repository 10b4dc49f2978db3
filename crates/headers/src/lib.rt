//! The header of a file, written into a buffer: a field, several fields, and the words that follow
//! from where the data begin.
#![tactic(auto)]

mod extents;
mod fields;
mod filling;

pub use extents::{write_extents, write_following};
pub use fields::write_field;
pub use filling::{Filling, fill_fields, values_wanted};
