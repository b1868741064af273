//! What passes at a glance where nothing is open: text, and escape sequences.
ghost use Rattle.std.specs.Prelude.{◌≡◌, ◌<◌, ◌≤◌, ℕ, length, slice_index, true};
ghost use Rattle.csicodec_spans.specs.{Private.TableBy.stays, Parts.IsPlain, Parts.IsPlainFront, Table.ahead};

use crate::staying::staying;
use crate::table::{Ahead, Mode, look};
use std::simd::prelude::*;

/// How many lanes stand before the first ESC among them.
#[inline(always)]
fn before_esc_16(lanes: u8x16) -> usize
    ensures { (k : ℕ) → k < result → k < 16 → stays Mode.Text (slice_index lanes k) ≡ true }
{
    lanes
        .simd_eq(u8x16::splat(0x1b))
        .to_bitmask()
        .trailing_zeros() as usize
}

/// How many of 32 lanes stand before the first ESC among them.
#[inline(always)]
fn before_esc_32(lanes: u8x32) -> usize
    ensures { (k : ℕ) → k < result → k < 32 → stays Mode.Text (slice_index lanes k) ≡ true }
{
    lanes
        .simd_eq(u8x32::splat(0x1b))
        .to_bitmask()
        .trailing_zeros() as usize
}

/// How many bytes in front stand before the first ESC.
#[inline(always)]
fn text_len(bytes: &[u8]) -> usize
    ensures within { result ≤ length bytes.now }
    ensures stay { (k : ℕ) → k < result → stays Mode.Text (slice_index bytes.now k) ≡ true }
{
    if bytes.len() < 48 {
        return staying(Mode::Text, bytes);
    }
    let near = before_esc_16(u8x16::from_slice(bytes));
    if near < 16 {
        return near;
    }
    let far = before_esc_32(u8x32::from_slice(bytes.split_at(16).1));
    if far < 32 {
        return 16 + far;
    }
    48 + staying(Mode::Text, bytes.split_at(48).1)
}

/// How many bytes in front are text, or one escape sequence, where nothing is open ([`Mode::Text`]); nothing is open behind them. It is 0 where
/// neither stands there, or where that isn't sure.
///
/// ```text
/// plain_len(b"ab\x1b[1m")      // 2
/// plain_len(b"\x1b(Bab")       // 3
/// plain_len(b"\x1b[1m")        // 0
/// ```
#[inline(always)]
pub fn plain_len(bytes: &[u8]) -> usize
    ensures within { result ≤ length bytes.now }
    // They are one text or one escape sequence, by the table of modes.
    ensures plain { 0 < result → IsPlainFront bytes.now result }
    ensures none { result ≡ 0 → ¬ IsPlain (ahead Mode.Text bytes.now) }
{
    let text = text_len(bytes);
    if text > 0 {
        return text;
    }
    match look(Mode::Text, bytes) {
        Ahead::GoesOn(len) => len,
        Ahead::Esc(len) => len,
        Ahead::Ends(_) | Ahead::New(..) | Ahead::Csi | Ahead::Unsure => 0,
    }
}
