//! What passes as it came: positions of the cursor that are their own normal form.
ghost use Rattle.std.specs.Prelude.{◌≡◌, ◌<◌, ◌≤◌, ◌++◌, ℕ, true, length, take, OnErr, OnOk};
ghost use Rattle.csicodec_tokens.specs.Digits.{AreDigits, IsDigit};
ghost use Rattle.csicodec_streams.specs.{Known.IsNormal, Known.IsPosition, Private.Steps.IsNumber};

use csicodec_base::TextBuffer;
use csicodec_transform::WIDE;
use std::alloc::AllocError;

fn is_digit(byte: u8) -> bool
    ensures { result ≡ true → IsDigit byte }
{
    b'0' <= byte && byte <= b'9'
}

/// How many digits stand in front, five at most.
#[inline(never)]
fn more_len(bytes: &[u8]) -> usize
    ensures digits { AreDigits (take result bytes.now) }
    ensures within { result ≤ length bytes.now }
    ensures few { result ≤ 5 }
{
    let mut len = 0;
    while len < 5 && len < bytes.len() && is_digit(bytes[len]) {
        len += 1;
    }
    len
}

/// How many digits stand in front, eight at most.
#[inline(always)]
fn digits_len(bytes: &[u8]) -> usize
    ensures digits { AreDigits (take result bytes.now) }
    ensures within { result ≤ length bytes.now }
    ensures few { result ≤ 8 }
{
    let [first, others @ ..] = bytes else {
        return 0;
    };
    if !is_digit(*first) {
        return 0;
    }
    match others {
        [second, third, more @ ..] if is_digit(*second) && is_digit(*third) => 3 + more_len(more),
        [second, ..] if is_digit(*second) => 2,
        _ => 1,
    }
}

/// How many digits the number in front has: one to nine, the first of them not 0, and one by itself not below `least`. 0 where none
/// stands there.
#[inline(always)]
fn number_len(least: u8, bytes: &[u8]) -> usize
    ensures number { 0 < result → IsNumber (take result bytes.now) }
    ensures within { result ≤ length bytes.now }
    ensures few { result ≤ 9 }
{
    let [first, others @ ..] = bytes else {
        return 0;
    };
    let behind = digits_len(others);
    if *first < b'1' || b'9' < *first || behind == 0 && *first < least {
        return 0;
    }
    1 + behind
}

/// The same as [`position_len`].
#[inline(always)]
fn placed_len(least: u8, bytes: &[u8]) -> usize
    ensures own { 0 < result → IsPosition (take result bytes.now) }
    ensures within { result ≤ length bytes.now }
    ensures short { result ≤ 48 }
{
    let [0x1b, b'[', list @ ..] = bytes else {
        return 0;
    };
    let line = number_len(least, list);
    let [b';', behind @ ..] = list.split_at(line).1 else {
        return 0;
    };
    let column = number_len(least, behind);
    if line == 0 || column == 0 {
        return 0;
    }
    match behind.split_at(column).1 {
        [b'H', ..] => line + column + 4,
        [b'f', ..] => line + column + 4,
        _ => 0,
    }
}

/// How many bytes the position in front has, of CUP or HVP: `ESC [`, a line, `;`, a column, and `H` or `f`, each number from 1 to
/// 999999999 and without a 0 in front. One of a single digit isn't below `least`. 0 where it finds
/// none.
#[inline(always)]
pub fn position_len(least: u8, bytes: &[u8]) -> usize
    ensures own { 0 < result → IsPosition (take result bytes.now) }
    ensures within { result ≤ length bytes.now }
    ensures short { result ≤ 48 }
{
    // A length that is known is compared once.
    match bytes.first_chunk::<WIDE>() {
        Some(front) => placed_len(least, front),
        None => placed_len(least, bytes),
    }
}

/// Appends so many of the first bytes: by one copy of a fixed length where they are few, and others stand behind them. On `Err`, out of memory, the bytes stay.
#[inline(always)]
pub fn append_front(bytes: &[u8], len: usize, out: &mut TextBuffer) -> Result<(), AllocError>
    requires { len ≤ length bytes.now }
    ensures ok { OnOk result (out.new ≡ out.old ++ take len bytes.now) }
    ensures err { OnErr result (out.new ≡ out.old) }
{
    match bytes.first_chunk::<WIDE>() {
        Some(front) if len <= WIDE => out.push_front(front, len),
        _ => out.push_slice(bytes.split_at(len).0),
    }
}

/// Appends the position in front, its own normal form, and answers how many bytes it has; 0 where none stands there, or without memory.
#[inline(never)]
pub(crate) fn take_position(bytes: &[u8], out: &mut TextBuffer) -> usize
    ensures own { 0 < result → IsNormal (take result bytes.now) (take result bytes.now)
        × (out.new ≡ out.old ++ take result bytes.now) }
    ensures none { result ≡ 0 → out.new ≡ out.old }
    ensures within { result ≤ length bytes.now }
    ensures short { result ≤ 48 }
{
    let len = position_len(b'1', bytes);
    if len == 0 {
        return 0;
    }
    match append_front(bytes, len, out) {
        Ok(()) => len,
        Err(_) => 0,
    }
}
