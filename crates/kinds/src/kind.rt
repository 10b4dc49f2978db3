//! The trait that every kind of block implements.
ghost use Rattle.std.specs.Prelude.{◌≡◌, ◌≤◌, ℕ, List, length, IfOk};
ghost use Rattle.std.specs.Str.{bytes_eq};
ghost use Rattle.kinds.specs.Kind.{KindSpec, IsSoundKind, EveryKindReturns, IsReading, most_written, output_length, put_answer, put_buffer};

use faults::Fault;

/// What a kind reads in a block's data.
#[derive(Clone, Copy)]
pub struct Reading<R> {
    /// The numbers, as the kind's record.
    pub record: R,
    /// Where the text begins in the data.
    pub text: usize,
    /// How many bytes the text has.
    pub length: usize,
    /// How many bytes of the data the kind uses.
    pub used: usize,
}

/// A kind of block: its key, and how its data are read and written.
pub trait Kind {
    /// The numbers of the kind.
    type Record: Copy;

    ghost kind: { KindSpec };

    ghost numbers: { Self.Record → List ℕ };

    // What the type of a record says of each, as `read` and `measure` promise: a signed number fits
    // its bits.
    ghost IsRecord: { Self.Record → Type 0 };

    /// The kind's key.
    fn key() -> [u8; 4]
        ensures { result ≡ kind.key };

    /// Record, text and bytes used; refuses 13 for data that are too short, and 14 for a text
    /// without a zero.
    fn read(bytes: &[u8]) -> Result<Reading<Self::Record>, Fault>
        ensures exact { IsReading numbers (kind.reads bytes.now) result }
        ensures record { IfOk result (λ r. IsRecord r.record) };

    /// The length of record and text when they are written, at most 2^63; refuses 15 for a text
    /// that cannot be written.
    fn measure(value: Self::Record, text: &[u8]) -> Result<usize, Fault>
        ensures answer { result ≡ output_length (kind.writes (numbers value) text.now) }
        ensures short { IfOk result (λ n. n ≤ most_written) }
        ensures record { IsRecord value };

    /// Writes record and text to the start of `out`, and returns their length; refuses 15 as
    /// `measure` does, then 22, with the bytes wanted, where `out` is too short. Refusing, it
    /// writes nothing.
    fn write(value: Self::Record, text: &[u8], out: &mut [u8]) -> Result<usize, Fault>
        ensures answer { result
            ≡ put_answer (kind.writes (numbers value) text.now) (length out.old) }
        ensures buffer { out.new ≡ put_buffer (kind.writes (numbers value) text.now) out.old };

    ghost keeps: { IsSoundKind kind };

    ghost apart: { (x y : Self.Record) → IsRecord x → IsRecord y → numbers x ≡ numbers y → x ≡ y };
}

/// Whether a key is the kind's own. Its contract has the law of all kinds: what is written, with
/// any bytes after it, is read back as written.
#[tactic(auto, using(crate::proofs::Laws::every_kind_returns))]
pub fn is_kind<K: Kind>(key: [u8; 4]) -> bool
    ensures same { result ≡ bytes_eq key K.kind.key }
    ensures law { EveryKindReturns }
{
    key == K::key()
}
