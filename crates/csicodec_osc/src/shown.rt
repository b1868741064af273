//! Bytes as they are shown to people: nothing that a terminal would carry out.
ghost use Rattle.std.specs.Prelude.{◌≤◌, length};

use std::fmt;
use std::simd::prelude::*;

/// So many bytes are looked at at once.
const LANES: usize = 16;

/// So many bytes of what is quoted are shown.
const MOST: usize = 120;

/// Bytes that print as UTF-8 where they are characters that can be seen. Tab, line feed, carriage return, ESC and the
/// backslash print as `\t`, `\n`, `\r`, `\e` and `\\`, other controls and bytes that are no UTF-8 by their number, as `\x07`, and
/// characters that can't be seen or that turn the order of a line as `\u{202e}`.
#[derive(Clone, Copy)]
pub struct Shown<'a>(pub &'a [u8]);

/// The same between quotation marks, of which one among the bytes prints as `\"`. Of many bytes the first are shown, and `..`
/// stands behind the marks; so it does where `more` says that there are more.
#[derive(Clone, Copy)]
pub struct Quoted<'a> {
    /// The bytes.
    pub bytes: &'a [u8],
    /// Whether there are more behind them.
    pub more: bool,
}

/// How many of the first sixteen bytes stand ahead of a control character, and where it says so ahead of anything else that doesn't stand
/// for itself between quotation marks; more where all do.
#[inline(always)]
fn front_of_lanes(bytes: &[u8], plain: bool) -> usize
    requires { 16 ≤ length bytes.now }
{
    let lanes = u8x16::from_slice(bytes);
    let mut odd = lanes.simd_lt(u8x16::splat(b' ')) | lanes.simd_eq(u8x16::splat(0x7f));
    if plain {
        odd = odd
            | lanes.simd_gt(u8x16::splat(b'~'))
            | lanes.simd_eq(u8x16::splat(b'"'))
            | lanes.simd_eq(u8x16::splat(b'\\'));
    }
    odd.to_bitmask().trailing_zeros() as usize
}

/// The same of all bytes: the last sixteen may overlap those ahead of them, and fewer have controls behind them.
#[inline(always)]
fn front_len(bytes: &[u8], plain: bool) -> usize {
    if bytes.len() < LANES {
        let mut lanes = [0u8; LANES];
        lanes[..bytes.len()].copy_from_slice(bytes);
        return front_of_lanes(&lanes, plain);
    }
    let last = bytes.len() - LANES;
    for block in 0..bytes.len().div_ceil(LANES) {
        let at = block.saturating_mul(LANES).min(last);
        let front = front_of_lanes(bytes.split_at(at).1, plain);
        if front < LANES {
            return at + front;
        }
    }
    bytes.len()
}

/// How many bytes in front are ASCII characters that stand for themselves between quotation marks: none is a backslash or such a mark.
pub fn plain_len(bytes: &[u8]) -> usize {
    front_len(bytes, true)
}

/// How many bytes stand ahead of the first control character of ASCII.
pub fn text_len(bytes: &[u8]) -> usize {
    front_len(bytes, false)
}

/// Whether all bytes are ASCII characters that stand for themselves between quotation marks.
pub fn are_plain(bytes: &[u8]) -> bool {
    plain_len(bytes) == bytes.len()
}

/// Whether a character is seen, in its place: it is no control, and none that has no width or turns the order of a line.
pub fn is_seen(character: char) -> bool {
    !matches!(
        character,
        '\u{0}'..='\u{1f}'
            | '\u{7f}'..='\u{9f}'
            | '\u{ad}'
            | '\u{61c}'
            | '\u{180e}'
            | '\u{200b}'
            | '\u{200e}'..='\u{200f}'
            | '\u{2028}'..='\u{202e}'
            | '\u{2060}'..='\u{206f}'
            | '\u{feff}'
            | '\u{fff9}'..='\u{fffb}'
            | '\u{e0000}'..='\u{e007f}'
    )
}

fn write_character<W: fmt::Write>(
    f: &mut fmt::Formatter<W>,
    character: char,
    quoted: bool,
) -> fmt::Result {
    let number = u32::from(character);
    f.write_str(match character {
        '\u{1b}' => "\\e",
        '\t' => "\\t",
        '\n' => "\\n",
        '\r' => "\\r",
        '\\' => "\\\\",
        '"' if quoted => "\\\"",
        _ if is_seen(character) => return f.write_char(character),
        _ if number < 128 => return write!(f, "\\x{number:02x}"),
        _ => return write!(f, "\\u{{{number:x}}}"),
    })
}

/// A run of text.
fn write_text<W: fmt::Write>(f: &mut fmt::Formatter<W>, text: &str, quoted: bool) -> fmt::Result {
    if are_plain(text.as_bytes()) {
        return f.write_str(text);
    }
    for character in text.chars() {
        write_character(f, character, quoted)?;
    }
    Ok(())
}

/// Bytes as they are shown; between quotation marks such a mark has a backslash ahead of it.
pub(crate) fn write_bytes<W: fmt::Write>(
    f: &mut fmt::Formatter<W>,
    bytes: &[u8],
    quoted: bool,
) -> fmt::Result {
    for chunk in bytes.utf8_chunks() {
        write_text(f, chunk.valid(), quoted)?;
        for byte in chunk.invalid() {
            write!(f, "\\x{byte:02x}")?;
        }
    }
    Ok(())
}

impl<'a> fmt::Display for Shown<'a> {
    fn fmt<W: fmt::Write>(&self, f: &mut fmt::Formatter<W>) -> fmt::Result {
        write_bytes(f, self.0, false)
    }
}

impl<'a> fmt::Display for Quoted<'a> {
    fn fmt<W: fmt::Write>(&self, f: &mut fmt::Formatter<W>) -> fmt::Result {
        let more = self.more || self.bytes.len() > MOST;
        f.write_char('"')?;
        write_bytes(f, self.bytes.get(..MOST).unwrap_or(self.bytes), true)?;
        f.write_str(if more { "\".." } else { "\"" })
    }
}
