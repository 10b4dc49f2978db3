//! The edits of blocks and the raise, and each of their refusals: what the tests share.
mod blocks;
mod raise;
mod refused;
mod room;

use crate::refusals::Told;
use records::Fill;

pub const DONE: Told = None;

pub const NO_FILE: Told = Some((31, 5, 0, 0));

pub const VERSION_LACKS_IT: Told = Some((33, 5, 0, 0));

pub const NO_SUCH_BLOCK: Told = Some((34, 5, 0, 0));

pub const NOT_BELOW_VERSION_6: Told = Some((35, 5, 0, 0));

/// Other numbers than those in file M.
pub const OTHER_FILL: Fill = Fill {
    range_method: 2,
    range_multiple: 3,
    doppler_method: 0,
    doppler_multiple: 5,
};
