//! RCVI: the description of the receiver.
ghost use Rattle.std.specs.Prelude.{◌≡◌, ◌≤◌, length, codes, nat_le, refl};
ghost use Rattle.kinds.specs.Field.{field_size, put_text_field};
ghost use Rattle.kinds.proofs.Fields.{field_keeps};
ghost use Rattle.records.specs.Rcvi.{rcvi_parts, rcvi_numbers, rcvi_most, rcvi_kind};
ghost use Rattle.std.proofs.Common.{rules};

use buffers::{Word, write_bytes, write_word, zero_bytes};
use faults::{Fault, Refusal};
use kinds::{Kind, Reading, check_record, first_zero, measure_text};

/// The numbers of an RCVI block; its text is the firmware, CODAR's szFirmware.
#[derive(Clone, Copy, PartialEq, Debug)]
pub struct Rcvi {
    /// The receiver model, CODAR's nReceiverModel: 0 unknown, 1 Awg3/Rcvr2 chassis AC, 2 the same
    /// DC, 3 AllInOne, 4 Awg4 chassis AC, 5 the same DC.
    pub receiver: u32,
    /// The antenna model, nRxAntennaModel: 0 unknown, 1 box loops, 4 dome loops, 5 TR dome loops.
    pub antenna: u32,
    /// The reference gain in dB, fReferenceGainDB, as the bit pattern of a 64-bit float; a loss is
    /// negative.
    pub gain: u64,
}

/// The most bytes of the firmware.
const MOST: usize = 31;

/// The bytes of the numbers, after which the firmware stands.
const NUMBERS: usize = 16;

/// The bytes of the whole.
const SIZE: usize = 48;

/// Writes numbers, text and zeros at the start of `out`; returns false, and writes nothing, where
/// there is no room for them.
fn put(value: Rcvi, text: &[u8], out: &mut [u8]) -> bool
    requires { length text.now ≤ rcvi_most }
    ensures answer { result ≡ nat_le (field_size rcvi_parts rcvi_most) (length out.old) }
    ensures buffer { out.new
        ≡ put_text_field rcvi_parts rcvi_most (rcvi_numbers value) text.now out.old }
{
    out.len() >= SIZE
        && write_word(out, 0, value.receiver)
        && write_word(out, 4, value.antenna)
        && write_word(out, 8, value.gain)
        && write_bytes(out, NUMBERS, text)
        && zero_bytes(out, NUMBERS + text.len(), SIZE - NUMBERS - text.len())
}

impl Kind for Rcvi {
    type Record = Rcvi;

    ghost kind = { rcvi_kind };

    ghost numbers = { rcvi_numbers };

    ghost IsRecord = { λ x. Unit {0} };

    ghost keeps = { field_keeps rcvi_parts rcvi_most (codes "RCVI") refl };

    ghost apart = { Prim.search rules };

    fn key() -> [u8; 4] {
        *b"RCVI"
    }

    fn read(bytes: &[u8]) -> Result<Reading<Rcvi>, Fault> {
        check_record(bytes, SIZE)?;
        let length = first_zero(&bytes[NUMBERS..SIZE]);
        if length <= MOST {
            Ok(Reading {
                record: Rcvi {
                    receiver: u32::at(bytes, 0),
                    antenna: u32::at(bytes, 4),
                    gain: u64::at(bytes, 8),
                },
                text: NUMBERS,
                length,
                used: SIZE,
            })
        } else {
            Err(Fault::at(Refusal::TextWithoutZero, NUMBERS))
        }
    }

    fn measure(_value: Rcvi, text: &[u8]) -> Result<usize, Fault> {
        measure_text(text, Some(MOST))?;
        Ok(SIZE)
    }

    fn write(value: Rcvi, text: &[u8], out: &mut [u8]) -> Result<usize, Fault> {
        let size = Self::measure(value, text)?;
        if !put(value, text, out) {
            return Err(Fault::at(Refusal::ListOrTableTooShort, size));
        }
        Ok(size)
    }
}
