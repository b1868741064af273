//! Text in UTF-8 that a line has as it comes: tabs, and characters that are no controls.
ghost use Rattle.std.specs.Prelude.{◌≡◌, ◌<◌, ◌≤◌, ◌++◌, ℕ, List, IfSome, false, length, take, true};
ghost use Rattle.bstr.specs.Utf8.{decoded};
ghost use Rattle.csicodec_clean.specs.Shown.{IsBehind, IsTextOf};
ghost use Rattle.csicodec_looks.specs.Cells.{width};
ghost use Rattle.csicodec_overwrite.specs.Private.Front.{IsLineText, line_char};

use bstr::decode_utf8;
use csicodec_looks::{InLine, behind, split_front};
use unicode_width::UnicodeWidthChar;

/// How many bytes the character in front has; 0 where none from U+00A0 on stands there.
#[inline(always)]
fn beyond_len(bytes: &[u8]) -> usize
    ensures within { result ≤ length bytes.now }
    ensures text { IsTextOf line_char (take result bytes.now) }
{
    match decode_utf8(bytes) {
        (Some(char), len) if '\u{a0}' <= char => len,
        _ => 0,
    }
}

/// What is behind the characters from U+00A0 on that stand in front.
#[inline(always)]
fn behind_beyond(bytes: &[u8]) -> &[u8]
    ensures { IsBehind line_char bytes.now result.now }
{
    let mut rest = bytes;
    loop {
        let len = beyond_len(rest);
        if len == 0 {
            return rest;
        }
        rest = rest.split_at(len).1;
    }
}

/// What is behind the text of a line in front.
#[inline(always)]
fn behind_text(bytes: &[u8]) -> &[u8]
    ensures { IsBehind line_char bytes.now result.now }
{
    let mut rest = behind::<InLine>(bytes);
    loop {
        let further = behind_beyond(rest);
        if further.len() == rest.len() {
            return rest;
        }
        rest = behind::<InLine>(further);
    }
}

/// Whether a character takes no column.
#[tactic(auto, using(crate::proofs::LineTexts::low_led, crate::proofs::LineTexts::wide_led))]
#[inline(always)]
fn is_mark(char: char) -> bool
    ensures { result ≡ false → (column : ℕ) → line_char char ≡ true → 0 < width char column }
{
    if char < '\u{a0}' {
        return false;
    }
    char.width().unwrap_or(0) == 0
}

/// Whether a character that takes no column stands in front.
#[inline(always)]
fn begins_with_mark(bytes: &[u8]) -> bool
    ensures { result ≡ false → IfSome (decoded bytes.now).char
        (λ c. (column : ℕ) → line_char c ≡ true → 0 < width c column) }
{
    let (found, _len) = decode_utf8(bytes);
    match found {
        Some(char) => is_mark(char),
        None => false,
    }
}

/// The text of a line in front, and what is behind it, where not all of it is ASCII. Where it begins with a mark, it is left behind.
#[tactic(auto, using(crate::proofs::LineTexts::none_led))]
#[inline(never)]
fn split_beyond(bytes: &[u8]) -> (&[u8], &[u8])
    ensures parts { bytes.now ≡ result.0.now ++ result.1.now }
    ensures text { (chars : List ℕ) × IsLineText result.0.now chars }
{
    if begins_with_mark(bytes) {
        return bytes.split_at(0);
    }
    let rest = behind_text(bytes);
    bytes.split_at(bytes.len() - rest.len())
}

/// The text of a line in front, and what is behind it. Where that text begins with a mark, it is left behind.
#[tactic(auto, using(crate::proofs::LineTexts::ascii_run, crate::proofs::LineTexts::ascii_parts))]
#[inline(always)]
pub(crate) fn split_text(bytes: &[u8]) -> (&[u8], &[u8])
    ensures parts { bytes.now ≡ result.0.now ++ result.1.now }
    ensures text { (chars : List ℕ) × IsLineText result.0.now chars }
{
    let (run, behind) = split_front::<InLine>(bytes);
    match behind.first() {
        Some(byte) if *byte >= 0x80 => split_beyond(bytes),
        Some(_) | None => (run, behind),
    }
}
