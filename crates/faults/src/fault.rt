//! The fault: a refusal with the layer, the block and the place that it speaks of.
ghost use Rattle.std.specs.Prelude.{◌≡◌, Some};
ghost use Rattle.faults.specs.Faults.{fault, in_block, fault_text};

use crate::refusal::{Layer, Refusal};
use std::error::Error;
use std::fmt;

/// Why a call refused, and where.
#[derive(Clone, Copy, PartialEq, Eq, Debug)]
pub struct Fault {
    /// The refusal, which has the number.
    pub refusal: Refusal,
    /// The part of the file, or the call, that is at fault.
    pub layer: Layer,
    /// The block's number from 1 at the layers section and block, else 0.
    pub block: usize,
    /// The byte in the file, or what the refusal counts.
    pub place: usize,
}

impl Fault {
    /// A fault outside the blocks, at the layer that the refusal has by itself.
    pub fn at(refusal: Refusal, place: usize) -> Fault
        ensures { result ≡ fault refusal place }
    {
        Fault::in_block(refusal, 0, place)
    }

    /// A fault in the block of that number.
    pub fn in_block(refusal: Refusal, block: usize, place: usize) -> Fault
        ensures { result ≡ in_block refusal block place }
    {
        Fault {
            refusal,
            layer: refusal.layer(),
            block,
            place,
        }
    }
}

impl fmt::Display for Fault {
    ghost output = { λ x. Some (fault_text x) };

    fn fmt<W: fmt::Write>(&self, f: &mut fmt::Formatter<W>) -> fmt::Result {
        write!(
            f,
            "refused {}: {} ({})",
            self.refusal.number(),
            self.refusal,
            self.layer
        )?;
        if self.block > 0 {
            write!(f, ", block {}", self.block)?;
        }
        if self.layer != Layer::Call {
            write!(f, ", place {}", self.place)?;
        }
        Ok(())
    }
}

impl Error for Fault {}
