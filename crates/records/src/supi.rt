//! SUPI: what was done to suppress stripes.
ghost use Rattle.std.specs.Prelude.{codes, refl};
ghost use Rattle.records.specs.Supi.{supi_parts, supi_numbers, IsSupi, supi_kind};
ghost use Rattle.kinds.proofs.Patterns.{same_pattern};
ghost use Rattle.kinds.proofs.Records.{record_keeps};
ghost use Rattle.std.proofs.Common.{rules};

use buffers::{Word, write_word};
use kinds::Packed;

/// The numbers of a SUPI block; thresholds are the bit patterns of 64-bit floats.
#[derive(Clone, Copy, PartialEq, Debug)]
pub struct Supi {
    /// The method, CODAR's nMethod: 0 off, 1 normal.
    pub method: u8,
    /// The version of the method, nVersion.
    pub version: u8,
    /// The mode, nMode: 0 light, 1 heavy, 2 the most light, 3 the most heavy.
    pub mode: u8,
    /// The debug mode, nDebugMode: 0 off, 1 on.
    pub debug_mode: u8,
    /// How many Doppler cells were suppressed, nDopplerSuppressed.
    pub cells: u32,
    /// The power threshold, fPowerThreshold.
    pub power: u64,
    /// The range bin threshold, fRangeBinThreshold.
    pub range_bin: u64,
    /// The banding in range, nRangeBanding.
    pub banding: i16,
    /// The smoothing of the Doppler detection, nDopplerDetectionSmoothing.
    pub smoothing: i16,
}

impl Packed for Supi {
    const KEY: [u8; 4] = *b"SUPI";

    ghost KEY = { codes "SUPI" };

    ghost kind = { supi_kind };

    ghost parts = { supi_parts };

    ghost numbers = { supi_numbers };

    ghost IsRecord = { IsSupi };

    ghost packs = { refl };

    ghost keeps = { record_keeps (codes "SUPI") supi_parts refl };

    ghost apart = { Prim.search (rules, same_pattern) };

    fn unpack(bytes: &[u8]) -> Supi {
        Supi {
            method: u8::at(bytes, 0),
            version: u8::at(bytes, 1),
            mode: u8::at(bytes, 2),
            debug_mode: u8::at(bytes, 3),
            cells: u32::at(bytes, 4),
            power: u64::at(bytes, 8),
            range_bin: u64::at(bytes, 16),
            banding: i16::at(bytes, 24),
            smoothing: i16::at(bytes, 26),
        }
    }

    fn size(self) -> usize {
        28
    }

    fn pack(self, out: &mut [u8]) -> bool {
        out.len() >= 28
            && write_word(out, 0, self.method)
            && write_word(out, 1, self.version)
            && write_word(out, 2, self.mode)
            && write_word(out, 3, self.debug_mode)
            && write_word(out, 4, self.cells)
            && write_word(out, 8, self.power)
            && write_word(out, 16, self.range_bin)
            && write_word(out, 24, self.banding)
            && write_word(out, 26, self.smoothing)
    }
}
