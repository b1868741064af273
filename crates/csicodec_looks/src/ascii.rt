//! Text of ASCII, which takes no reading.
ghost use Rattle.std.specs.{Prelude.◌≡◌, Prelude.◌++◌, Prelude.◌≤◌, Prelude.length, Prelude.min, Prelude.IfSome, List.AllByRecursion};
ghost use Rattle.csicodec_looks.specs.Plain.{AreLines, IsUntabbed, end_of};

use crate::bytes::{ByteClass, PlainAscii, first_set, split_front};
use memchr::memrchr;
use std::simd::prelude::*;

/// Eight blanks, and the bits by which bytes of ASCII are told from those from 20 to 3f.
const BLANKS: u64 = 0x2020_2020_2020_2020;

const BLOCKS: u64 = 0xe0e0_e0e0_e0e0_e0e0;

/// A tab, and the characters of ASCII that are no controls.
pub struct InLine;

impl ByteClass for InLine {
    ghost use Rattle.csicodec_looks.specs.Plain.{line_byte};

    ghost class = { line_byte };

    #[inline(always)]
    fn has(byte: u8) -> bool {
        byte == b'\t' || b' ' <= byte && byte < 0x7f
    }

    #[inline(always)]
    fn lanes(bytes: &[u8]) -> usize {
        let lanes = u8x16::from_slice(bytes);
        let control = lanes.simd_lt(u8x16::splat(b' ')) & lanes.simd_ne(u8x16::splat(b'\t'));
        let odd = control | lanes.simd_ge(u8x16::splat(0x7f));
        first_set(odd.to_bitmask())
    }
}

/// All bytes but a tab.
pub(crate) struct Untabbed;

impl ByteClass for Untabbed {
    ghost use Rattle.csicodec_looks.specs.Plain.{untabbed_byte};

    ghost class = { untabbed_byte };

    #[inline(always)]
    fn has(byte: u8) -> bool {
        byte != b'\t'
    }

    #[inline(always)]
    fn lanes(bytes: &[u8]) -> usize {
        let lanes = u8x16::from_slice(bytes);
        first_set(lanes.simd_eq(u8x16::splat(b'\t')).to_bitmask())
    }
}

/// The lines of text alone in front, of at most so many bytes, and what is behind them, if there is one.
pub fn split_lines(bytes: &[u8], most: usize) -> Option<(&[u8], &[u8])>
    ensures { IfSome result (λ (lines, rest). AreLines most bytes.now lines.now rest.now) }
{
    let near = bytes.split_at(most.min(bytes.len())).0;
    let text = split_front::<PlainAscii>(near).0;
    let last = memrchr(b'\n', text)?;
    Some(bytes.split_at(last + 1))
}

/// What is behind the end of a line in front, if one stands there: a newline, or a return and a newline.
pub fn behind_end(bytes: &[u8]) -> Option<&[u8]>
    ensures { IfSome result (λ rest. (returned : _) × (bytes.now ≡ end_of returned ++ rest.now)) }
{
    match bytes {
        [b'\n', rest @ ..] => Some(rest),
        [b'\r', b'\n', rest @ ..] => Some(rest),
        _ => None,
    }
}

/// The bytes in front that are no tabs, so many at most, and what is behind them.
#[inline(always)]
pub(crate) fn split_run(text: &[u8], room: usize) -> (&[u8], &[u8])
    ensures parts { text.now ≡ result.0.now ++ result.1.now }
    ensures untabbed { AllByRecursion IsUntabbed result.0.now }
    ensures room { length result.0.now ≤ room }
{
    let near = text.split_at(room.min(text.len())).0;
    let run = split_front::<Untabbed>(near).0;
    (run, text.split_at(run.len()).1)
}

/// How many bytes in front are from `low` to `high`.
fn range_len(bytes: &[u8], low: u8, high: u8) -> usize
    ensures { result ≤ length bytes.now }
{
    let len = bytes.iter().position(|byte| *byte < low || high < *byte);
    len.unwrap_or(bytes.len())
}

/// How many bytes in front are from 20 to 3f, as those of a list of parameters.
#[inline(always)]
fn list_len(bytes: &[u8]) -> usize
    ensures { result ≤ length bytes.now }
{
    if let Some(front) = bytes.first_chunk::<8>() {
        let others = (u64::from_le_bytes(*front) ^ BLANKS) & BLOCKS;
        if others != 0 {
            return others.trailing_zeros() as usize / 8;
        }
    }
    range_len(bytes, b' ', b'?')
}

/// How many bytes are read at once where no such text stands in front: a sequence that is introduced there, or characters that aren't of
/// ASCII; behind what is open, up to the next control.
#[inline(always)]
pub fn odd_len(bytes: &[u8], open: bool) -> usize
    ensures within { result ≤ length bytes.now }
    ensures some { min 1 (length bytes.now) ≤ result }
{
    if open {
        return range_len(bytes, b' ', 0xff).max(1).min(bytes.len());
    }
    match bytes {
        [0x1b, b'[', rest @ ..] => (3 + list_len(rest)).min(bytes.len()),
        [0x1b, rest @ ..] => (2 + range_len(rest, b' ', b'/')).min(bytes.len()),
        [_, rest @ ..] => 1 + range_len(rest, 0x80, 0xff),
        [] => 0,
    }
}

/// How many bytes the control sequence in front has, if it sets how characters look (SGR), or may erase up to the end of the line (EL);
/// 0 where no such stands there.
pub fn style_len(bytes: &[u8]) -> usize
    ensures { result ≤ length bytes.now }
{
    let [0x1b, b'[', list @ ..] = bytes else {
        return 0;
    };
    let len = list_len(list);
    match list.get(len) {
        Some(b'm' | b'K') => 3 + len,
        _ => 0,
    }
}
