//! Bytes of a class in front of others, sixteen at once.
ghost use Rattle.std.specs.{Prelude.◌≡◌, Prelude.◌≤◌, Prelude.Bool, Prelude.ℕ, Prelude.length, Prelude.take, List.prefix_len};
ghost use Rattle.csicodec_looks.specs.Bytes.{behind, first_set};

use std::simd::prelude::*;

/// How many bytes are told at once.
pub const LANES: usize = 16;

/// A class of bytes, which are told one by one and sixteen at once.
pub trait ByteClass {
    /// Whether a byte is of the class.
    ghost class: { ℕ → Bool };

    fn has(byte: u8) -> bool
        ensures { result ≡ class byte };

    /// How many of the first sixteen bytes are of the class, up to the first that isn't.
    fn lanes(bytes: &[u8]) -> usize
        requires { 16 ≤ length bytes.now }
        ensures { result ≡ prefix_len class (take 16 bytes.now) };
}

/// A newline, a tab, and the characters of ASCII that are no controls.
pub struct PlainAscii;

impl ByteClass for PlainAscii {
    ghost use Rattle.csicodec_looks.specs.Bytes.{plain_byte};

    ghost class = { plain_byte };

    #[inline(always)]
    fn has(byte: u8) -> bool {
        byte == b'\n' || byte == b'\t' || b' ' <= byte && byte < 0x7f
    }

    #[inline(always)]
    fn lanes(bytes: &[u8]) -> usize {
        let lanes = u8x16::from_slice(bytes);
        let control = lanes.simd_lt(u8x16::splat(b' '))
            & lanes.simd_ne(u8x16::splat(b'\n'))
            & lanes.simd_ne(u8x16::splat(b'\t'));
        let odd = control | lanes.simd_ge(u8x16::splat(0x7f));
        first_set(odd.to_bitmask())
    }
}

/// The place of the lowest bit that is set, and 16 where none is.
#[inline(always)]
pub fn first_set(mask: u64) -> usize
    ensures { result ≡ first_set mask }
{
    if mask == 0 {
        LANES
    } else {
        mask.trailing_zeros() as usize
    }
}

/// What is behind the bytes of the class in front, byte by byte.
#[tactic(auto, using(crate::proofs::Fronts::behind_one))]
fn behind_few<'a, C: ByteClass>(bytes: &'a [u8]) -> &'a [u8]
    ensures { result.now ≡ behind C.class bytes.now }
{
    let mut rest = bytes;
    while let Some((byte, others)) = rest.split_first() {
        if !C::has(*byte) {
            return rest;
        }
        rest = others;
    }
    rest
}

/// What is behind the bytes of the class in front.
#[tactic(auto, using(crate::proofs::Fronts::front_within, crate::proofs::Fronts::behind_drop, crate::proofs::Fronts::front_ends))]
#[inline(always)]
pub fn behind<'a, C: ByteClass>(bytes: &'a [u8]) -> &'a [u8]
    ensures { result.now ≡ behind C.class bytes.now }
{
    let mut rest = bytes;
    while rest.len() >= LANES {
        let count = C::lanes(rest);
        rest = rest.split_at(count).1;
        if count < LANES {
            return rest;
        }
    }
    behind_few::<C>(rest)
}

/// The bytes of the class in front, and what is behind them.
#[inline(always)]
pub fn split_front<'a, C: ByteClass>(bytes: &'a [u8]) -> (&'a [u8], &'a [u8])
    ensures front { result.0.now ≡ take (prefix_len C.class bytes.now) bytes.now }
    ensures rest { result.1.now ≡ behind C.class bytes.now }
{
    let rest = behind::<C>(bytes);
    bytes.split_at(bytes.len() - rest.len())
}
