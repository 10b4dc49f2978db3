//! FWIN: the windows of the range and Doppler transforms.
ghost use Rattle.std.specs.Prelude.{codes, refl};
ghost use Rattle.records.specs.Fwin.{fwin_parts, fwin_numbers, fwin_kind};
ghost use Rattle.kinds.proofs.Records.{record_keeps};
ghost use Rattle.std.proofs.Common.{rules};

use buffers::{Word, write_word};
use kinds::Packed;

/// The windows of a FWIN block; parameters are the bit patterns of 64-bit floats.
#[derive(Clone, Copy, PartialEq, Debug)]
pub struct Fwin {
    /// The range window, CODAR's nRangeWindowType: 0 none, 1 Blackman, 2 Hamming, 3 Tukey.
    pub range: u8,
    /// The Doppler window, nDopplerWindowType, numbered as that of range.
    pub doppler: u8,
    /// The parameter of the range window, fRangeWindowParam.
    pub range_parameter: u64,
    /// The parameter of the Doppler window, fDopplerWindowParam.
    pub doppler_parameter: u64,
}

impl Packed for Fwin {
    const KEY: [u8; 4] = *b"FWIN";

    ghost KEY = { codes "FWIN" };

    ghost kind = { fwin_kind };

    ghost parts = { fwin_parts };

    ghost numbers = { fwin_numbers };

    ghost IsRecord = { λ x. Unit {0} };

    ghost packs = { refl };

    ghost keeps = { record_keeps (codes "FWIN") fwin_parts refl };

    ghost apart = { Prim.search rules };

    fn unpack(bytes: &[u8]) -> Fwin {
        Fwin {
            range: u8::at(bytes, 0),
            doppler: u8::at(bytes, 1),
            range_parameter: u64::at(bytes, 2),
            doppler_parameter: u64::at(bytes, 10),
        }
    }

    fn size(self) -> usize {
        18
    }

    fn pack(self, out: &mut [u8]) -> bool {
        out.len() >= 18
            && write_word(out, 0, self.range)
            && write_word(out, 1, self.doppler)
            && write_word(out, 2, self.range_parameter)
            && write_word(out, 10, self.doppler_parameter)
    }
}
