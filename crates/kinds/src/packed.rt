//! Packed records: numbers of fixed widths, one after the other, and no text. A record says which
//! numbers it has, and how they stand in bytes; here each is read, measured and written as a kind.
ghost use Rattle.std.specs.Prelude.{◌≡◌, ◌≤◌, ℕ, true, List, length, IfOk, nat_le};
ghost use Rattle.kinds.specs.Kind.{KindSpec, IsSoundKind};
ghost use Rattle.kinds.specs.Packed.{Part, record_size, numbers_at, numbers_fit, put_record, size_check, textless_size, record_kind};

use crate::kind::{Kind, Reading};
use faults::{Fault, Refusal};

/// Numbers that stand in bytes one after the other.
pub trait Packed: Copy {
    /// The key of the record's kind.
    const KEY: [u8; 4];

    ghost KEY: { List ℕ };

    ghost kind: { KindSpec };

    ghost parts: { List Part };

    ghost numbers: { Self → List ℕ };

    // What the type of a record says of each: a signed number fits its bits. `size` promises it.
    ghost IsRecord: { Self → Type 0 };

    /// The numbers at the start of the bytes; a byte after the end counts as 0.
    fn unpack(bytes: &[u8]) -> Self
        ensures { numbers result ≡ numbers_at parts bytes.now 0 };

    /// How many bytes the numbers have, each of which fits its part: at most 4096.
    fn size(self) -> usize
        ensures exact { result ≡ record_size parts }
        ensures fits { numbers_fit parts (numbers self) ≡ true }
        ensures short { result ≤ 4096 }
        ensures record { IsRecord self };

    /// Writes the numbers at the start of `out`; returns false, and writes nothing, where there is
    /// no room for them.
    fn pack(self, out: &mut [u8]) -> bool
        ensures answer { result ≡ nat_le (record_size parts) (length out.old) }
        ensures buffer { out.new ≡ put_record parts (numbers self) out.old };

    ghost packs: { kind ≡ record_kind KEY parts };

    ghost keeps: { IsSoundKind kind };

    ghost apart: { (x y : Self) → IsRecord x → IsRecord y → numbers x ≡ numbers y → x ≡ y };
}

/// Refuses 13, with the data's length, for data shorter than a record.
pub fn check_record(bytes: &[u8], size: usize) -> Result<(), Fault>
    ensures { result ≡ size_check size bytes.now }
{
    if bytes.len() < size {
        return Err(Fault::at(Refusal::RecordShort, bytes.len()));
    }
    Ok(())
}

/// The size of a record, as it was given; refuses 15 for any text.
pub fn measure_record(size: usize, text: &[u8]) -> Result<usize, Fault>
    ensures exact { result ≡ textless_size size text.now }
    ensures short { IfOk result (λ n. n ≡ size) }
{
    if !text.is_empty() {
        return Err(Fault::at(Refusal::TextUnfit, 0));
    }
    Ok(size)
}

impl<R: Packed> Kind for R {
    type Record = R;

    ghost kind = { R.kind };

    ghost numbers = { R.numbers };

    ghost IsRecord = { R.IsRecord };

    ghost keeps = { R.keeps };

    ghost apart = { R.apart };

    fn key() -> [u8; 4] {
        R::KEY
    }

    fn read(bytes: &[u8]) -> Result<Reading<R>, Fault> {
        let record = R::unpack(bytes);
        let used = record.size();
        check_record(bytes, used)?;
        Ok(Reading {
            record,
            text: 0,
            length: 0,
            used,
        })
    }

    fn measure(value: R, text: &[u8]) -> Result<usize, Fault> {
        measure_record(value.size(), text)
    }

    fn write(value: R, text: &[u8], out: &mut [u8]) -> Result<usize, Fault> {
        let size = Self::measure(value, text)?;
        if !value.pack(out) {
            return Err(Fault::at(Refusal::ListOrTableTooShort, size));
        }
        Ok(size)
    }
}
