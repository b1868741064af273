//! How many bytes in front stay in what is open.
ghost use Rattle.std.specs.Prelude.{◌≡◌, ◌<◌, ◌≤◌, ℕ, length, slice_index, true};
ghost use Rattle.csicodec_spans.specs.Private.TableBy.{stays};

use crate::table::Mode;
use memchr::{memchr, memchr3};
use std::simd::prelude::*;

/// How many bytes in front stay in a mode, byte by byte.
fn staying_one_by_one(mode: Mode, bytes: &[u8]) -> usize
    ensures within { result ≤ length bytes.now }
    ensures stay { (k : ℕ) → k < result → stays mode (slice_index bytes.now k) ≡ true }
{
    for (i, byte) in bytes.iter().enumerate() {
        if !mode.stays(*byte) {
            return i;
        }
    }
    bytes.len()
}

/// How many of 32 lanes stand before the first among them that doesn't stay in an OSC.
#[inline(always)]
fn in_osc_32(lanes: u8x32) -> usize
    ensures { (k : ℕ) → k < result → k < 32 → stays Mode.Osc (slice_index lanes k) ≡ true }
{
    let cancels = lanes.simd_eq(u8x32::splat(0x18)) | lanes.simd_eq(u8x32::splat(0x1a));
    let others = lanes.simd_eq(u8x32::splat(0x1b)) | lanes.simd_eq(u8x32::splat(0x07));
    (cancels | others).to_bitmask().trailing_zeros() as usize
}

/// How many bytes in front stay in an OSC. Behind the byte that doesn't, none is looked at but those of its 32.
fn staying_in_osc(bytes: &[u8]) -> usize
    ensures within { result ≤ length bytes.now }
    ensures stay { (k : ℕ) → k < result → stays Mode.Osc (slice_index bytes.now k) ≡ true }
{
    let mut at = 0;
    while bytes.len() - at >= 32 {
        let near = in_osc_32(u8x32::from_slice(&bytes[at..]));
        if near < 32 {
            return at + near;
        }
        at += 32;
    }
    at + staying_one_by_one(Mode::Osc, bytes.split_at(at).1)
}

/// How many bytes in front stay in the mode.
pub(crate) fn staying(mode: Mode, bytes: &[u8]) -> usize
    ensures within { result ≤ length bytes.now }
    ensures stay { (k : ℕ) → k < result → stays mode (slice_index bytes.now k) ≡ true }
{
    match mode {
        Mode::Text => memchr(0x1b, bytes).unwrap_or(bytes.len()),
        Mode::Osc => staying_in_osc(bytes),
        Mode::Dcs | Mode::Str => memchr3(0x18, 0x1a, 0x1b, bytes).unwrap_or(bytes.len()),
        Mode::BadCsi | Mode::BadEsc => staying_one_by_one(mode, bytes),
    }
}
