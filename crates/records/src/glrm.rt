//! GLRM: what was done to remove glitches.
ghost use Rattle.std.specs.Prelude.{codes, refl};
ghost use Rattle.records.specs.Glrm.{glrm_parts, glrm_numbers, glrm_kind};
ghost use Rattle.kinds.proofs.Records.{record_keeps};
ghost use Rattle.std.proofs.Common.{rules};

use buffers::{Word, write_word};
use kinds::Packed;

/// The numbers of a GLRM block; thresholds are the bit patterns of 64-bit floats.
#[derive(Clone, Copy, PartialEq, Debug)]
pub struct Glrm {
    /// The method, CODAR's nMethod: 0 off, 1 point, 2 range, 3 range and point, 4 DC only.
    pub method: u8,
    /// The version of the method, nVersion.
    pub version: u8,
    /// How many points were removed, nPointsRemoved.
    pub points: u32,
    /// How many times something was removed, nTimesRemoved.
    pub times: u32,
    /// How many segments were removed, nSegmentsRemoved.
    pub segments: u32,
    /// The power threshold of a point, fPointPowerThreshold.
    pub point_power: u64,
    /// The power threshold of a range, fRangePowerThreshold.
    pub range_power: u64,
    /// The threshold of a range bin, fRangeBinThreshold.
    pub range_bin: u64,
    /// bRemoveDC: 0 where DC was left alone, else it was removed.
    pub remove_dc: u8,
}

impl Packed for Glrm {
    const KEY: [u8; 4] = *b"GLRM";

    ghost KEY = { codes "GLRM" };

    ghost kind = { glrm_kind };

    ghost parts = { glrm_parts };

    ghost numbers = { glrm_numbers };

    ghost IsRecord = { λ x. Unit {0} };

    ghost packs = { refl };

    ghost keeps = { record_keeps (codes "GLRM") glrm_parts refl };

    ghost apart = { Prim.search rules };

    fn unpack(bytes: &[u8]) -> Glrm {
        Glrm {
            method: u8::at(bytes, 0),
            version: u8::at(bytes, 1),
            points: u32::at(bytes, 2),
            times: u32::at(bytes, 6),
            segments: u32::at(bytes, 10),
            point_power: u64::at(bytes, 14),
            range_power: u64::at(bytes, 22),
            range_bin: u64::at(bytes, 30),
            remove_dc: u8::at(bytes, 38),
        }
    }

    fn size(self) -> usize {
        39
    }

    fn pack(self, out: &mut [u8]) -> bool {
        out.len() >= 39
            && write_word(out, 0, self.method)
            && write_word(out, 1, self.version)
            && write_word(out, 2, self.points)
            && write_word(out, 6, self.times)
            && write_word(out, 10, self.segments)
            && write_word(out, 14, self.point_power)
            && write_word(out, 22, self.range_power)
            && write_word(out, 30, self.range_bin)
            && write_word(out, 38, self.remove_dc)
    }
}
