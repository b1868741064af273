//! What a control string says.
ghost use Rattle.std.specs.Prelude.{◌≡◌, ◌≤◌, ◌+◌, ◌++◌, ◌&&◌, Some, None, length, nat_lt, option_map, take, if◌then◌else◌, OnOk};
ghost use Rattle.csicodec_events.specs.{Events.begins, Input.is_digit, declared.event.Event.TheVariants.Str as Piece};
ghost use Rattle.csicodec_screen.specs.Feeds.{before_end, collected, command, content, most, numbered, to_end, with_digit};

use csicodec_spans::LIMIT;
use std::alloc::AllocError;

fn is_digit(byte: u8) -> bool
    ensures { result ≡ is_digit byte }
{
    b'0' <= byte && byte <= b'9'
}

/// The number with a digit behind it, where that is one, and all fits in 32 bits.
fn with_digit(number: u32, byte: u8) -> Option<u32>
    ensures { result ≡ (if is_digit byte && nat_lt (with_digit number byte) 4294967296 then Some (with_digit number byte) else None) }
{
    if !is_digit(byte) {
        return None;
    }
    let next = 10 * number as u64 + (byte - b'0') as u64;
    if next > 0xffff_ffff {
        return None;
    }
    Some(next as u32)
}

/// Digits and `;`: the number, and what is behind it.
fn numbered(bytes: &[u8]) -> Option<(u32, &[u8])>
    ensures { option_map (λ r. (r.0, r.1.now)) result ≡ numbered 0 bytes.now }
{
    let mut number = 0;
    let mut rest = bytes;
    while let Some((byte, others)) = rest.split_first() {
        if *byte == b';' {
            return Some((number, others));
        }
        number = with_digit(number, *byte)?;
        rest = others;
    }
    None
}

/// How many bytes stand in front of BEL or ST.
fn to_end(bytes: &[u8]) -> usize
    ensures is { result ≡ to_end bytes.now }
    ensures within { result ≤ length bytes.now }
{
    let mut count = 0;
    let mut rest = bytes;
    while let Some((byte, others)) = rest.split_first() {
        if *byte == 0x07 || *byte == 0x1b {
            return count;
        }
        count += 1;
        rest = others;
    }
    count
}

/// What is in front of BEL or ST.
fn before_end(bytes: &[u8]) -> &[u8]
    ensures { result.now ≡ before_end bytes.now }
{
    bytes.split_at(to_end(bytes)).0
}

/// The number and the text of an OSC, by what stands behind ESC and `]`.
fn content(bytes: &[u8]) -> Option<(u32, &[u8])>
    ensures { option_map (λ r. (r.0, r.1.now)) result ≡ content bytes.now }
{
    match bytes {
        [first, ..] if is_digit(*first) => {
            let (number, text) = numbered(bytes)?;
            Some((number, before_end(text)))
        }
        _ => None,
    }
}

/// The number and the text of a string, where it is an OSC that has both and isn't too long.
pub(crate) fn command(string: &[u8]) -> Option<(u32, &[u8])>
    ensures { option_map (λ r. (r.0, r.1.now)) result ≡ command string.now }
{
    if LIMIT < string.len() {
        return None;
    }
    match string {
        [_, b']', bytes @ ..] => content(bytes),
        _ => None,
    }
}

/// Whether a string begins with this piece.
fn begins(bytes: &[u8]) -> bool
    ensures { result ≡ begins Piece bytes.now }
{
    matches!(bytes, [0x1b, b'P' | b'X' | b']' | b'^' | b'_', ..])
}

/// Appends bytes, but no more than one more than are kept.
fn join(string: &mut Vec<u8>, bytes: &[u8]) -> Result<(), AllocError>
    ensures { OnOk result (string.new.items ≡ take (most + 1) (string.old.items ++ bytes.now)) }
{
    string.extend_from_slice(bytes)?;
    string.truncate(LIMIT + 1);
    Ok(())
}

/// Puts the next piece of a string behind those that came, or in their place where it begins one.
pub(crate) fn collect(string: &mut Vec<u8>, bytes: &[u8]) -> Result<(), AllocError>
    ensures { OnOk result (string.new.items ≡ collected string.old.items bytes.now) }
{
    if begins(bytes) {
        string.clear();
    }
    join(string, bytes)
}
