//! A search for places within the text of a stream.
ghost use Rattle.std.specs.Prelude.{◌≡◌, ◌++◌, ℕ, List, OnOk, true};
ghost use Rattle.csicodec_clean.specs.Cleaned.{is_text};
ghost use Rattle.csicodec_lines.specs.{Cuts.Found, Cuts.behind_byte, Cuts.each_of, Cuts.first, Cuts.is_cut, Cuts.is_shown, Cuts.line_of, Private.Steps.FindsIn};
ghost use Rattle.csicodec_lines.specs.{Private.Steps.IsAt, Private.Steps.passed};

use csicodec_spans::Kind;
use itoa::write_digits;
use std::alloc::AllocError;

/// How many bytes a newline is waited for.
const PATIENCE: u64 = 65536;

/// Whether it is an ASCII character that is no control.
fn is_shown(byte: u8) -> bool
    ensures { result ≡ is_shown byte }
{
    b' ' <= byte && byte < 0x7f
}

/// Appends a place, and what ends its line.
fn append_line(place: u64, out: &mut Vec<u8>) -> Result<(), AllocError>
    ensures { OnOk result (out.new.items ≡ out.old.items ++ line_of place) }
{
    let mut digits = [0u8; 20];
    let begin = write_digits(place, &mut digits, 20);
    out.extend_from_slice(&digits[begin..])?;
    out.push(b'\n')?;
    Ok(())
}

/// A search for the next place.
#[derive(Clone, Copy)]
pub(crate) struct CutSearch {
    /// How many bytes at least stand between two.
    every: u64,
    /// How many bytes have come.
    at: u64,
    /// How many of those that follow don't reach the first place that is far enough.
    near: u64,
    /// Behind these, how many more wait for a newline.
    wait: u64,
}

impl CutSearch {
    /// Where nothing has come.
    pub(crate) fn new(every: u64) -> CutSearch
        ensures { IsAt result (first every) }
    {
        CutSearch {
            every,
            at: 0,
            near: every,
            wait: PATIENCE,
        }
    }

    /// So many bytes came behind which no place is.
    fn pass(&mut self, len: u64)
        ensures { (s : Found) → IsAt self.old s → IsAt self.new (passed len s) }
    {
        self.at = self.at.saturating_add(len);
        self.wait = self.wait.saturating_sub(len.saturating_sub(self.near));
        self.near = self.near.saturating_sub(len);
    }

    /// Takes a byte of text. Whether the stream may be cut behind it.
    fn take_byte(&mut self, byte: u8) -> bool
        ensures { (s : Found) → IsAt self.old s
            → IsAt self.new (behind_byte s (true, byte)) × (result ≡ is_cut s (true, byte)) }
    {
        self.pass(1);
        let is_cut = self.near == 0 && (byte == b'\n' || self.wait == 0 && is_shown(byte));
        if is_cut {
            self.near = self.every;
            self.wait = PATIENCE;
        }
        is_cut
    }

    /// Takes some text, byte by byte, and appends the places in it.
    fn take_near(&mut self, text: &[u8], out: &mut Vec<u8>) -> Result<(), AllocError>
        ensures { OnOk result ((more : List ℕ) × FindsIn self.old (each_of true text.now) more self.new
            × (out.new.items ≡ out.old.items ++ more)) }
    {
        let mut rest = text;
        while let Some((byte, behind)) = rest.split_first() {
            if self.take_byte(*byte) {
                append_line(self.at, out)?;
            }
            rest = behind;
        }
        Ok(())
    }

    /// The same at once, as far as no place is near enough.
    fn take_text(&mut self, text: &[u8], out: &mut Vec<u8>) -> Result<(), AllocError>
        ensures { OnOk result ((more : List ℕ) × FindsIn self.old (each_of true text.now) more self.new
            × (out.new.items ≡ out.old.items ++ more)) }
    {
        let len = self.near.saturating_sub(1).min(text.len() as u64);
        let (front, rest) = text.split_at(len as usize);
        self.pass(front.len() as u64);
        self.take_near(rest, out)
    }

    /// Takes a span of this kind, and appends the places in it.
    pub(crate) fn take(
        &mut self,
        kind: Kind,
        bytes: &[u8],
        out: &mut Vec<u8>,
    ) -> Result<(), AllocError>
        ensures { OnOk result ((more : List ℕ) × FindsIn self.old (each_of (is_text kind) bytes.now) more self.new
            × (out.new.items ≡ out.old.items ++ more)) }
    {
        if kind == Kind::Text {
            return self.take_text(bytes, out);
        }
        self.pass(bytes.len() as u64);
        Ok(())
    }
}
