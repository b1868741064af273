//! A walk over the body of a control sequence, which is all between `ESC [` and the final byte.
ghost use Rattle.std.specs.Prelude.{◌≡◌, ◌-◌, ◌<◌, ◌≤◌, [], ◌∷◌, length, take, slice_index, IfOk, MatchOption, MatchResult};
ghost use Rattle.std.specs.List.{prefix_len};
ghost use Rattle.csicodec_tokens.specs.{Digits.IsDigit, Body.Adds, Body.IsStopped, Body.Stops, Private.Walking.IsWalked, Private.Walking.body_byte};
ghost use Rattle.csicodec_tokens.specs.{Private.Walking.first_set};

use crate::reader::with_digit;
use std::simd::prelude::*;

/// How many bytes are told at once. So few digits write no number that is too large.
const LANES: usize = 16;

/// The place of the lowest bit that is set, and 16 where none is.
#[inline(always)]
fn first_set(mask: u64) -> usize
    ensures { result ≡ first_set mask }
{
    if mask == 0 {
        LANES
    } else {
        mask.trailing_zeros() as usize
    }
}

/// How many of the first 16 bytes are intermediate or parameter bytes, up to the first that is neither.
#[inline(always)]
fn body_len(bytes: &[u8]) -> usize
    requires { 16 ≤ length bytes.now }
    ensures { result ≡ prefix_len body_byte (take 16 bytes.now) }
{
    let lanes = u8x16::from_slice(bytes);
    let odd = lanes.simd_lt(u8x16::splat(b' ')) | lanes.simd_ge(u8x16::splat(b'@'));
    first_set(odd.to_bitmask())
}

/// How many of the first 16 bytes stand up to the last of them that is no digit; 0 where all are digits.
#[inline(always)]
fn whole_len(bytes: &[u8]) -> usize
    requires { 16 ≤ length bytes.now }
    ensures within { result ≤ 16 }
    ensures last { 0 < result → ¬ IsDigit (slice_index bytes.now (result - 1)) }
{
    let mut len = LANES;
    while len > 0 {
        let b'0'..=b'9' = bytes[len - 1] else {
            return len;
        };
        len -= 1;
    }
    0
}

/// The number that ends a body with one more byte, where the body ends in `number`; none where no body goes on so.
#[inline(always)]
fn with_byte(number: u64, byte: u8) -> Option<u64>
    ensures { MatchOption result (Stops number (byte ∷ [])) (Adds number (byte ∷ [])) }
{
    match byte {
        b'0'..=b'9' => with_digit(number, byte),
        b' '..=b'/' => Some(0),
        b':'..=b'?' => Some(0),
        0x00..=0x1f => None,
        0x40..=0xff => None,
    }
}

/// A step of such a walk over these bytes, of which the first is `byte`: the number and the bytes behind those that it passed, or the bytes from the
/// first on that is no more of the body. Where no number is begun, 16 bytes are told at once. Leading zeros begin none, and are told one by one.
#[inline(always)]
fn walk_some<'a>(
    number: u64,
    bytes: &'a [u8],
    byte: u8,
    others: &'a [u8],
) -> Result<(u64, &'a [u8]), &'a [u8]>
    requires { bytes.now ≡ byte ∷ others.now }
    ensures walked { MatchResult result (λ (last, rest). IsWalked number bytes.now last rest.now)
        (λ rest. IsStopped number bytes.now rest.now) }
    ensures fewer { IfOk result (λ (last, rest). length rest.now < length bytes.now) }
{
    if number == 0 && bytes.len() >= LANES {
        let len = body_len(bytes);
        if len < LANES {
            return Err(bytes.split_at(len).1);
        }
        if byte != b'0' {
            let len = whole_len(bytes);
            if len > 0 {
                return Ok((0, bytes.split_at(len).1));
            }
        }
    }
    match with_byte(number, byte) {
        Some(longer) => Ok((longer, others)),
        None => Err(bytes),
    }
}

/// Walks over bytes that go on with the body of a control sequence, where the digits at its end write `number`: what the digits at the end
/// write then, or the bytes from the first on with which it's no body.
///
/// ```text
/// walk_body(12, b";3")        // Ok(3)
/// walk_body(12, b"3;4mab")    // Err(b"mab")
/// ```
#[inline(always)]
#[tactic(auto, using(crate::proofs::Reading::first_cut, crate::proofs::Walks::walked_none, crate::proofs::Walks::walked_on, crate::proofs::Walks::stopped_on, crate::proofs::Walks::walked_all))]
pub fn walk_body(number: u64, bytes: &[u8]) -> Result<u64, &[u8]>
    ensures { MatchResult result (Adds number bytes.now) (λ rest. IsStopped number bytes.now rest.now) }
{
    let mut last = number;
    let mut rest = bytes;
    while let [byte, others @ ..] = rest {
        match walk_some(last, rest, *byte, others) {
            Ok((longer, behind)) => {
                last = longer;
                rest = behind;
            }
            Err(left) => return Err(left),
        }
    }
    Ok(last)
}
