//! Moves inside a buffer: bytes written, shifted or set to 0. A move whose bytes do not lie within
//! the buffer is not made: it answers false, and the buffer is as it was.
ghost use Rattle.std.specs.Prelude.{◌≡◌, ◌+◌, ◌-◌, ◌&&◌, length, if◌then◌else◌, nat_le};
ghost use Rattle.buffers.specs.Moves.{room, written, shifted, zeroed};

use crate::words::Word;
use std::convert::AsSlice;

/// Whether `n` bytes from `at` on lie in the buffer.
fn has_room(buf: &[u8], at: usize, n: usize) -> bool
    ensures { result ≡ room buf.now at n }
{
    at <= buf.len() && n <= buf.len() - at
}

/// Writes bytes at a place. Answers false, and writes none, where they do not all lie in the
/// buffer.
#[tactic(auto, using(std::proofs::lemmas::Slice::overwrites), unfolding(crate::specs::Moves::written))]
pub fn write_bytes(buf: &mut [u8], at: usize, bytes: &[u8]) -> bool
    ensures answer { result ≡ room buf.old at (length bytes.now) }
    ensures buffer { buf.new
        ≡ (if room buf.old at (length bytes.now) then written buf.old at bytes.now else buf.old) }
{
    if !has_room(buf, at, bytes.len()) {
        return false;
    }
    buf[at..at + bytes.len()].copy_from_slice(bytes);
    true
}

/// Writes a number at a place, the highest byte first. Answers false, and writes nothing, where its
/// bytes do not all lie in the buffer.
pub fn write_word<W: Word>(buf: &mut [u8], at: usize, value: W) -> bool
    ensures answer { result ≡ room buf.old at W.size }
    ensures buffer { buf.new
        ≡ (if room buf.old at W.size then written buf.old at (W.encoded value) else buf.old) }
{
    let bytes = value.to_bytes();
    write_bytes(buf, at, bytes.as_slice())
}

/// Moves the `n` bytes at `at` up by `by` places; the two ranges may overlap. Answers false, and
/// moves none, where the place that they go to does not lie in the buffer.
#[tactic(auto, using(crate::proofs::Lists::paste_shifted))]
pub fn shift_up(buf: &mut [u8], at: usize, n: usize, by: usize) -> bool
    ensures answer { result ≡ room buf.old (at + by) n }
    ensures buffer { buf.new
        ≡ (if room buf.old (at + by) n then shifted buf.old at n (at + by) else buf.old) }
{
    if !has_room(buf, at, by) || !has_room(buf, at + by, n) {
        return false;
    }
    buf.copy_within(at..at + n, at + by);
    true
}

/// Moves the `n` bytes at `at` down by `by` places; the two ranges may overlap. Answers false, and
/// moves none, where they do not lie in the buffer or `by` is more than `at`.
#[tactic(auto, using(crate::proofs::Lists::paste_shifted))]
pub fn shift_down(buf: &mut [u8], at: usize, n: usize, by: usize) -> bool
    ensures answer { result ≡ (nat_le by at && room buf.old at n) }
    ensures buffer { buf.new
        ≡ (if nat_le by at && room buf.old at n then shifted buf.old at n (at - by) else buf.old) }
{
    if by > at || !has_room(buf, at, n) {
        return false;
    }
    buf.copy_within(at..at + n, at - by);
    true
}

/// Sets the `n` bytes at `at` to 0. Answers false, and sets none, where they do not all lie in the
/// buffer.
#[tactic(auto, using(std::proofs::lemmas::Slice::overwrites), unfolding(crate::specs::Moves::written))]
pub fn zero_bytes(buf: &mut [u8], at: usize, n: usize) -> bool
    ensures answer { result ≡ room buf.old at n }
    ensures buffer { buf.new ≡ (if room buf.old at n then zeroed buf.old at n else buf.old) }
{
    if !has_room(buf, at, n) {
        return false;
    }
    buf[at..at + n].fill(0);
    true
}
