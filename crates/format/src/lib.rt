//! The cross spectra format: judging a file, the layout of an accepted one, and the tables that
//! reading and writing share.
#![tactic(auto)]

mod extents;
mod field;
mod fields;
mod head;
mod header;
mod judging;
mod limits;
mod rows;
mod section;
mod shown;
mod sizes;

pub use extents::{EXTENTS, Extent, SECTION_BEGIN, SECTION_SIZE_PLACE, header_end};
pub use field::Field;
pub use fields::FIELD_COUNT;
pub use head::BlockHead;
pub use judging::{Layout, judge};
pub use limits::{MOST_BYTES, capacity, check_capacity};
pub use sizes::{EARLY_BINS, EARLY_RANGES, MOST_BINS, MOST_RANGES, Sizes, has_quality};
