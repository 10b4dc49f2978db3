//! Writing a record and a text into a buffer: written once, for every kind.
ghost use Rattle.std.specs.Prelude.{◌≡◌};
ghost use Rattle.kinds.specs.Kind.{payload};
ghost use Rattle.kinds.specs.Writing.{IsBytesIfRoom, put_at, put_at_answer};

use crate::kind::Kind;
use faults::Fault;

/// Writes record and text at a place of a buffer, as their kind does, and returns their length;
/// refuses 15 as the kind does, and 22, with the bytes wanted, where they do not fit there.
/// Refusing, it writes nothing.
pub fn write_at<K: Kind>(
    buf: &mut [u8],
    at: usize,
    value: K::Record,
    text: &[u8],
) -> Result<usize, Fault>
    ensures answer { result ≡ put_at_answer buf.old at (payload K.kind (K.numbers value) text.now) }
    ensures buffer { buf.new ≡ put_at buf.old at (payload K.kind (K.numbers value) text.now) }
    ensures bytes { IsBytesIfRoom buf.old at (payload K.kind (K.numbers value) text.now) }
{
    let start = at.min(buf.len());
    K::write(value, text, &mut buf[start..])
}
