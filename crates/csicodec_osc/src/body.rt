//! The parts of a string: what stands between separators, and numbers.
ghost use Rattle.std.specs.Prelude.{◌≡◌, ◌==◌, option_map, position};
ghost use Rattle.csicodec_osc.specs.Private.Reading.{halves};

use crate::shown::Quoted;
use std::fmt;

/// Whether a byte is the semicolon that stands between fields.
pub fn is_semicolon(byte: &u8) -> bool {
    *byte == b';'
}

/// What stands in a string, or the rest of it.
#[derive(Clone, Copy)]
pub struct Body<'a> {
    /// The bytes that are there.
    pub bytes: &'a [u8],
    /// How many more there are behind them.
    pub more: u64,
}

impl<'a> Body<'a> {
    /// How many bytes there are.
    pub fn len(self) -> u64 {
        (self.bytes.len() as u64).saturating_add(self.more)
    }

    /// Between quotation marks.
    pub fn quoted(self) -> Quoted<'a> {
        Quoted {
            bytes: self.bytes,
            more: self.more > 0,
        }
    }

    /// The same with other bytes, whose end is the body's.
    pub fn with(self, bytes: &'a [u8]) -> Body<'a> {
        Body {
            bytes,
            more: self.more,
        }
    }

    /// What is behind these bytes, where it begins with them.
    pub fn behind(self, front: &[u8]) -> Option<Body<'a>> {
        Some(self.with(self.bytes.strip_prefix(front)?))
    }

    /// What is ahead of the first such byte, and what is behind it; nothing is, where there is none.
    pub fn cut(self, at: u8) -> (&'a [u8], Body<'a>) {
        let (front, bytes) = halves(self.bytes, at);
        (front, self.with(bytes))
    }
}

/// Words, and what stands in a string, between quotation marks.
pub fn tell<W: fmt::Write>(f: &mut fmt::Formatter<W>, words: &str, body: Body<'_>) -> fmt::Result {
    let quoted = body.quoted();
    write!(f, "{words}: {quoted}")
}

/// What is ahead of the first such byte, and what is behind it.
pub(crate) fn split_at(bytes: &[u8], at: u8) -> Option<(&[u8], &[u8])>
    ensures { option_map (λ cut. (cut.0.now, cut.1.now)) result ≡ halves at bytes.now }
{
    let place = place_of(bytes, at)?;
    Some((&bytes[..place], &bytes[place + 1..]))
}

/// Where the first such byte stands.
fn place_of(bytes: &[u8], at: u8) -> Option<usize>
    ensures { result ≡ position (λ b. b == at) bytes.now }
{
    bytes.iter().position(|byte| *byte == at)
}

/// What is ahead of the first such byte, all where there is none; and what is behind it, nothing where there is none.
pub fn halves(bytes: &[u8], at: u8) -> (&[u8], &[u8]) {
    split_at(bytes, at).unwrap_or((bytes, &[]))
}

/// The bytes in front that are from one to another, and the rest.
pub fn while_in(bytes: &[u8], low: u8, high: u8) -> (&[u8], &[u8]) {
    for len in 0..bytes.len() {
        if bytes[len] < low || bytes[len] > high {
            return bytes.split_at(len);
        }
    }
    (bytes, &[])
}

/// The number that decimal digits are.
pub fn number(digits: &[u8]) -> Option<u32> {
    std::str::from_utf8(digits).ok()?.parse::<u32>().ok()
}
