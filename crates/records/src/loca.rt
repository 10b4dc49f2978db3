//! LOCA: where the receiver stands.
ghost use Rattle.std.specs.Prelude.{codes, refl};
ghost use Rattle.records.specs.Loca.{loca_parts, loca_numbers, loca_kind};
ghost use Rattle.kinds.proofs.Records.{record_keeps};
ghost use Rattle.std.proofs.Common.{rules};

use buffers::{Word, write_word};
use kinds::Packed;

/// The location of a LOCA block; its numbers are the bit patterns of 64-bit floats.
#[derive(Clone, Copy, PartialEq, Debug)]
pub struct Loca {
    /// The latitude in degrees, CODAR's fLatitude.
    pub latitude: u64,
    /// The longitude in degrees, fLongitude.
    pub longitude: u64,
    /// The altitude in metres, fAltitudeMeters.
    pub altitude: u64,
}

impl Packed for Loca {
    const KEY: [u8; 4] = *b"LOCA";

    ghost KEY = { codes "LOCA" };

    ghost kind = { loca_kind };

    ghost parts = { loca_parts };

    ghost numbers = { loca_numbers };

    ghost IsRecord = { λ x. Unit {0} };

    ghost packs = { refl };

    ghost keeps = { record_keeps (codes "LOCA") loca_parts refl };

    ghost apart = { Prim.search rules };

    fn unpack(bytes: &[u8]) -> Loca {
        Loca {
            latitude: u64::at(bytes, 0),
            longitude: u64::at(bytes, 8),
            altitude: u64::at(bytes, 16),
        }
    }

    fn size(self) -> usize {
        24
    }

    fn pack(self, out: &mut [u8]) -> bool {
        out.len() >= 24
            && write_word(out, 0, self.latitude)
            && write_word(out, 8, self.longitude)
            && write_word(out, 16, self.altitude)
    }
}
