//! Words: numbers of fixed width, the highest byte first. A word is defined at every place, since a
//! byte behind the end counts as 0.
ghost use Rattle.std.specs.Prelude.{◌≡◌, ℕ, ◌+◌, List, [], ◌∷◌, length, slice_index, refl};
ghost use Rattle.std.specs.Int.{w16, w32};
ghost use Rattle.std.proofs.Common.{of_z};
ghost use Rattle.buffers.specs.Words.{word16, word32, word64, int16, int32, be16, be32, be64};

use std::convert::AsSlice;

/// A number that stands in bytes, the highest byte first.
pub trait Word: Copy {
    /// The bytes of a number.
    type Bytes: AsSlice<u8> + Drop;

    ghost size: { ℕ };

    ghost word: { List ℕ → ℕ → Self };

    ghost encoded: { Self → List ℕ };

    /// The number at a place.
    fn at(bytes: &[u8], at: usize) -> Self
        ensures { result ≡ word bytes.now at };

    /// The number's bytes.
    fn to_bytes(self) -> Self::Bytes
        ensures { Self.Bytes.items result ≡ encoded self };

    ghost sized: { (x : Self) → length (encoded x) ≡ size };
}

/// The byte `by` places behind `at`, or 0 behind the end.
fn byte_after(bytes: &[u8], at: usize, by: usize) -> u8
    ensures { result ≡ slice_index bytes.now (at + by) }
{
    if at < bytes.len() && by < bytes.len() - at {
        bytes[at + by]
    } else {
        0
    }
}

impl Word for u8 {
    type Bytes = [u8; 1];

    ghost size = { 1 };

    ghost word = { λ b at. slice_index b at };

    ghost encoded = { λ x. x ∷ [] };

    ghost sized = { λ x. refl };

    fn at(bytes: &[u8], at: usize) -> u8 {
        bytes.get(at).copied().unwrap_or(0)
    }

    fn to_bytes(self) -> [u8; 1] {
        [self]
    }
}

impl Word for u16 {
    type Bytes = [u8; 2];

    ghost size = { 2 };

    ghost word = { word16 };

    ghost encoded = { be16 };

    ghost sized = { λ x. refl };

    fn at(bytes: &[u8], at: usize) -> u16 {
        u16::from_be_bytes([byte_after(bytes, at, 0), byte_after(bytes, at, 1)])
    }

    fn to_bytes(self) -> [u8; 2] {
        u16::to_be_bytes(self)
    }
}

impl Word for u32 {
    type Bytes = [u8; 4];

    ghost size = { 4 };

    ghost word = { word32 };

    ghost encoded = { be32 };

    ghost sized = { λ x. refl };

    fn at(bytes: &[u8], at: usize) -> u32 {
        u32::from_be_bytes([
            byte_after(bytes, at, 0),
            byte_after(bytes, at, 1),
            byte_after(bytes, at, 2),
            byte_after(bytes, at, 3),
        ])
    }

    fn to_bytes(self) -> [u8; 4] {
        u32::to_be_bytes(self)
    }
}

impl Word for u64 {
    type Bytes = [u8; 8];

    ghost size = { 8 };

    ghost word = { word64 };

    ghost encoded = { be64 };

    ghost sized = { λ x. refl };

    fn at(bytes: &[u8], at: usize) -> u64 {
        u64::from_be_bytes([
            byte_after(bytes, at, 0),
            byte_after(bytes, at, 1),
            byte_after(bytes, at, 2),
            byte_after(bytes, at, 3),
            byte_after(bytes, at, 4),
            byte_after(bytes, at, 5),
            byte_after(bytes, at, 6),
            byte_after(bytes, at, 7),
        ])
    }

    fn to_bytes(self) -> [u8; 8] {
        u64::to_be_bytes(self)
    }
}

impl Word for i16 {
    type Bytes = [u8; 2];

    ghost size = { 2 };

    ghost word = { int16 };

    ghost encoded = { λ x. be16 (of_z w16 x) };

    ghost sized = { λ x. refl };

    fn at(bytes: &[u8], at: usize) -> i16 {
        u16::at(bytes, at).cast_signed()
    }

    fn to_bytes(self) -> [u8; 2] {
        i16::to_be_bytes(self)
    }
}

impl Word for i32 {
    type Bytes = [u8; 4];

    ghost size = { 4 };

    ghost word = { int32 };

    ghost encoded = { λ x. be32 (of_z w32 x) };

    ghost sized = { λ x. refl };

    fn at(bytes: &[u8], at: usize) -> i32 {
        u32::at(bytes, at).cast_signed()
    }

    fn to_bytes(self) -> [u8; 4] {
        i32::to_be_bytes(self)
    }
}
