//! Characters from U+00A0 on, told by their bytes.
ghost use Rattle.std.specs.Prelude.{◌≡◌, ◌≤◌, ◌<◌, ◌++◌, length, take, true};
ghost use Rattle.bstr.specs.Utf8.{continues, second};
ghost use Rattle.csicodec_clean.specs.{Shown.IsBehind, Shown.IsPlain, Shown.shown, Private.Steps.IsWide};

use csicodec_looks::{PlainAscii, behind};

/// Whether the byte may continue a character.
#[inline(always)]
fn is_continuing(byte: u8) -> bool
    ensures { result ≡ continues byte }
{
    0x7f < byte && byte < 0xc0
}

/// Whether the second byte may stand behind the first of three.
#[inline(always)]
fn is_second_of_three(first: u8, byte: u8) -> bool
    requires { (0xE0 ≤ first) × (first < 0xF0) }
    ensures { result ≡ true → second first byte ≡ true }
{
    is_continuing(byte) && (first != 0xe0 || 0x9f < byte) && (first != 0xed || byte < 0xa0)
}

/// Whether the second byte may stand behind the first of four.
#[inline(always)]
fn is_second_of_four(first: u8, byte: u8) -> bool
    requires { (0xF0 ≤ first) × (first ≤ 0xF4) }
    ensures { result ≡ true → second first byte ≡ true }
{
    is_continuing(byte) && (first != 0xf0 || 0x8f < byte) && (first != 0xf4 || byte < 0x90)
}

/// How many bytes the character has that begins with these; 0 where none from U+00A0 on does.
#[tactic(auto, using(crate::proofs::Told::two, crate::proofs::Told::three, crate::proofs::Told::four))]
#[inline(always)]
fn char_len(first: u8, second: u8, third: u8, fourth: u8) -> usize
    ensures { 0 < result → IsWide first second third fourth result }
{
    if first < 0xc2 {
        return 0;
    }
    if first < 0xe0 {
        if is_continuing(second) && (first != 0xc2 || 0x9f < second) {
            return 2;
        }
    } else if first < 0xf0 {
        if is_second_of_three(first, second) && is_continuing(third) {
            return 3;
        }
    } else if first <= 0xf4 {
        if is_second_of_four(first, second) && is_continuing(third) && is_continuing(fourth) {
            return 4;
        }
    }
    0
}

/// How many bytes the character in front has; 0 where none from U+00A0 on stands there, or fewer than four bytes.
#[tactic(auto, using(crate::proofs::Told::none_shown, crate::proofs::Told::wide_front))]
#[inline(always)]
fn front_len(bytes: &[u8]) -> usize
    ensures within { result ≤ length bytes.now }
    ensures shown { IsPlain (take result bytes.now) }
{
    if bytes.len() < 4 {
        return 0;
    }
    char_len(bytes[0], bytes[1], bytes[2], bytes[3])
}

/// What is behind the characters from U+00A0 on that stand in front.
#[tactic(auto, using(crate::proofs::Told::none_behind))]
#[inline(always)]
fn behind_wide<'a>(bytes: &'a [u8]) -> &'a [u8]
    ensures { IsBehind shown bytes.now result.now }
{
    let mut rest = bytes;
    loop {
        let len = front_len(rest);
        if len == 0 {
            return rest;
        }
        rest = rest.split_at(len).1;
    }
}

/// What is behind the bytes in front that are shown as they are.
#[inline(always)]
pub(crate) fn behind_shown<'a>(bytes: &'a [u8]) -> &'a [u8]
    ensures { IsBehind shown bytes.now result.now }
{
    let mut rest = behind::<PlainAscii>(bytes);
    loop {
        let further = behind_wide(rest);
        if further.len() == rest.len() {
            return rest;
        }
        rest = behind::<PlainAscii>(further);
    }
}

/// The characters in front that are shown as they are, and what is behind them.
#[tactic(auto, using(crate::proofs::Told::front_taken))]
#[inline(always)]
pub fn split_shown<'a>(bytes: &'a [u8]) -> (&'a [u8], &'a [u8])
    ensures whole { bytes.now ≡ result.0.now ++ result.1.now }
    ensures shown { IsPlain result.0.now }
{
    let rest = behind_shown(bytes);
    bytes.split_at(bytes.len() - rest.len())
}
