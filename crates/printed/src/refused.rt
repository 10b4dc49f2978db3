//! A refusal in full.
ghost use Rattle.std.specs.Prelude.{Some};
ghost use Rattle.printed.specs.Refusal.{refusal_text};

use faults::Fault;
use std::fmt;

/// A fault with all its parts, also where block and place say nothing.
#[derive(Drop)]
pub struct Refused(pub Fault);

impl fmt::Display for Refused {
    ghost output = { λ x. Some (refusal_text x.0) };

    fn fmt<W: fmt::Write>(&self, f: &mut fmt::Formatter<W>) -> fmt::Result {
        let fault = self.0;
        write!(
            f,
            "refused {}: {} ({}), block {}, place {}",
            fault.refusal.number(),
            fault.refusal.name(),
            fault.layer.name(),
            fault.block,
            fault.place,
        )
    }
}
