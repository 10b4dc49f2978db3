//! FILL: how range cells and Doppler bins were filled in.
ghost use Rattle.std.specs.Prelude.{codes, refl};
ghost use Rattle.records.specs.Fill.{fill_parts, fill_numbers, fill_kind};
ghost use Rattle.kinds.proofs.Records.{record_keeps};
ghost use Rattle.std.proofs.Common.{rules};

use buffers::{Word, write_word};
use kinds::Packed;

/// The numbers of a FILL block.
#[derive(Clone, Copy, PartialEq, Debug)]
pub struct Fill {
    /// The range method, CODAR's nRangeMethod: 0 none, 1 linear, 2 padding.
    pub range_method: u8,
    /// By how much range cells were multiplied, nRangeMult: 1 for not at all.
    pub range_multiple: u8,
    /// The Doppler method, nDopplerMethod, numbered as that of range.
    pub doppler_method: u8,
    /// By how much Doppler bins were multiplied, nDopplerMult: 1 for not at all.
    pub doppler_multiple: u8,
}

impl Packed for Fill {
    const KEY: [u8; 4] = *b"FILL";

    ghost KEY = { codes "FILL" };

    ghost kind = { fill_kind };

    ghost parts = { fill_parts };

    ghost numbers = { fill_numbers };

    ghost IsRecord = { λ x. Unit {0} };

    ghost packs = { refl };

    ghost keeps = { record_keeps (codes "FILL") fill_parts refl };

    ghost apart = { Prim.search rules };

    fn unpack(bytes: &[u8]) -> Fill {
        Fill {
            range_method: u8::at(bytes, 0),
            range_multiple: u8::at(bytes, 1),
            doppler_method: u8::at(bytes, 2),
            doppler_multiple: u8::at(bytes, 3),
        }
    }

    fn size(self) -> usize {
        4
    }

    fn pack(self, out: &mut [u8]) -> bool {
        out.len() >= 4
            && write_word(out, 0, self.range_method)
            && write_word(out, 1, self.range_multiple)
            && write_word(out, 2, self.doppler_method)
            && write_word(out, 3, self.doppler_multiple)
    }
}
