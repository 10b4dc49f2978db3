//! The calls of a script's lines, and what is said of each: what `draft` and `run` share.
#![tactic(auto)]

mod bytes;
mod drafting;
mod errors;
mod files;
mod lines;
mod listed;
mod named;
mod outcome;
mod room;

pub use bytes::{all_numbers, last_text, next_bytes, only_bytes, only_number};
pub use drafting::Drafting;
pub use errors::{CallError, ScriptError};
pub use files::{ReadError, WriteError, check_free, read_file, write_whole};
pub use lines::Line;
pub use listed::{HexWord, bytes_text, entries_text, patterns_text, reading_text};
pub use named::{ForKind, by_key};
pub use outcome::{Answer, Outcome};
pub use room::Room;
