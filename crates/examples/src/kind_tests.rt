//! The kinds of block: what the tests of reading, writing and looking share.
mod look;
mod read;
mod write;

use crate::questions::{Numbers, seen};
use crate::refusals::{Refused, refused_by};
use faults::Fault;
use kinds::Reading;
use records::{Fill, Rcvi, Supi};

/// What is seen of a block, or a refusal.
pub fn seen_or<R: Copy>(outcome: Result<Reading<R>, Fault>) -> Result<Numbers, Refused> {
    match outcome {
        Ok(reading) => Ok(seen(reading)),
        Err(fault) => Err(refused_by(fault)),
    }
}

pub const FILL: Fill = Fill {
    range_method: 1,
    range_multiple: 2,
    doppler_method: 2,
    doppler_multiple: 4,
};

pub const RCVI: Rcvi = Rcvi {
    receiver: 1094795585,
    antenna: 1094795585,
    gain: 4702111234474983745,
};

pub const SUPI: Supi = Supi {
    method: 1,
    version: 0,
    mode: 3,
    debug_mode: 255,
    cells: 16909060,
    power: 4614253070214989087,
    range_bin: 1,
    banding: -2,
    smoothing: 515,
};
