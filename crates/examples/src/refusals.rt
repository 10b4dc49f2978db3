//! What a test compares of a refusal.
use faults::Fault;

/// Number, layer, block and place of a refusal.
// Four numbers and no fault: the format speaks of refusals by number, and the tests hold the names to it.
pub type Refused = (u8, u8, usize, usize);

/// A refusal, or nothing of an answer.
pub type Told = Option<Refused>;

/// The numbers of a fault.
pub fn refused_by(fault: Fault) -> Refused {
    (
        fault.refusal.number(),
        fault.layer.number(),
        fault.block,
        fault.place,
    )
}
