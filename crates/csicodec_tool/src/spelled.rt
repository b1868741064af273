//! What `--visible` makes of a text: a character that isn't seen, or that changes the order of text, is spelled by its number.
ghost use Rattle.std.specs.{Prelude.◌≡◌, Prelude.◌++◌, Prelude.[], Prelude.ℕ, Prelude.List, Prelude.OnErr, Prelude.OnOk, Prelude.IfOk, Io.KnownBytes.Appends};
ghost use Rattle.std.specs.{Io.KnownBytes.Consumes, Io.KnownBytes.IsAtEnd};
ghost use Rattle.csicodec_transform.specs.Transform.{Begins, Sends, Transforms};
ghost use Rattle.csicodec_clean.specs.Shown.{IsCut};
ghost use Rattle.csicodec_tool.specs.Spelled.{SpelledAs, SpelledSure, Spells, spelled, spelled_text, stays};

use bstr::ByteVec;
use csicodec_clean::{CharClass, first_sure};
use csicodec_inspect::VisibleText;
use csicodec_transform::{RunError, Transform, keep_from, transform_all};
use std::alloc::{AllocError, Global};
use std::io::{Read, Write};

/// Whether a character stays as it is.
fn stays(char: char) -> bool
    ensures { result ≡ stays char }
{
    char < '\u{80}' || VisibleText::has(char)
}

/// Appends a character, or its number where it doesn't stay.
fn append_char(char: char, out: &mut Vec<u8>) -> Result<(), AllocError>
    ensures { OnOk result (out.new.items ≡ out.old.items ++ spelled char) }
{
    if stays(char) {
        return out.push_char(char);
    }
    let number = u32::from(char);
    let text = format!(in *out.allocator(); "\\u{{{number:X}}}")?;
    out.extend_from_slice(text.as_bytes())
}

/// Appends what is written of the characters that are sure, whatever follows, and answers the bytes behind them.
pub fn append_sure<'a>(text: &'a [u8], out: &mut Vec<u8>) -> Result<&'a [u8], AllocError>
    ensures spelled { IfOk result (λ rest. (more : List ℕ) × Spells text.now more rest.now
        × (out.new.items ≡ out.old.items ++ more)) }
    ensures behind { IfOk result (λ rest. (front : List ℕ) × (text.now ≡ front ++ rest.now)) }
    ensures cut { IfOk result (λ rest. IsCut rest.now) }
{
    let mut rest = text;
    while let Some((char, size)) = first_sure(rest) {
        append_char(char, out)?;
        rest = rest.split_at(size).1;
    }
    Ok(rest)
}

/// Appends what is written of a text: nothing follows it.
pub fn append_spelled(text: &[u8], out: &mut Vec<u8>) -> Result<(), AllocError>
    ensures { OnOk result (out.new.items ≡ out.old.items ++ spelled_text text.now) }
{
    let rest = append_sure(text, out)?;
    if !rest.is_empty() {
        append_char('\u{FFFD}', out)?;
    }
    Ok(())
}

/// A transform whose text is spelled.
#[derive(Drop)]
pub struct Speller<T> {
    inner: T,
    /// What it wrote, of which no character is over.
    text: Vec<u8>,
}

impl<T> Speller<T> {
    /// Of which nothing was written.
    fn new(alloc: Global, inner: T) -> Speller<T>
        ensures inner { result.inner ≡ inner }
        ensures none { result.text.items ≡ [] }
    {
        Speller {
            inner,
            text: Vec::new(alloc),
        }
    }

    /// Appends what is written of the characters that are over.
    fn pass(&mut self, out: &mut Vec<u8>) -> Result<(), AllocError>
        ensures spelled { OnOk result ((more : List ℕ) × Spells self.old.text.items more self.new.text.items
            × (out.new.items ≡ out.old.items ++ more)) }
        ensures inner { self.new.inner ≡ self.old.inner }
    {
        let rest = append_sure(&self.text, out)?;
        let over = self.text.len() - rest.len();
        keep_from(&mut self.text, over);
        Ok(())
    }
}

impl<T: Transform + Drop> Transform for Speller<T> {
    ghost use Rattle.csicodec_tool.specs.Spelled.{EndsSpelled, PassesSpelled};

    ghost stands = { λ s. T.stands s.inner };

    ghost passes = { PassesSpelled T.passes };

    ghost rests = { λ s. T.rests s.inner };

    ghost ends = { EndsSpelled T.ends };

    fn take(&mut self, bytes: &[u8], out: &mut Vec<u8>) -> Result<(), AllocError> {
        self.inner.take(bytes, &mut self.text)?;
        self.pass(out)
    }

    fn pause(&mut self, out: &mut Vec<u8>) -> Result<(), AllocError> {
        self.inner.pause(&mut self.text)?;
        self.pass(out)
    }

    fn end(&mut self, out: &mut Vec<u8>) -> Result<(), AllocError> {
        self.inner.end(&mut self.text)?;
        append_spelled(&self.text, out)
    }
}

/// Reads to the end, and writes what the stream becomes by a transform, spelled where it is to be visible.
///
/// The errors are those of `transform_all`.
pub fn transform_as<T: Transform + Drop, R: Read, W: Write>(
    alloc: Global,
    visible: bool,
    transform: T,
    input: &mut R,
    output: &mut W,
) -> Result<(), RunError>
    requires stands { T.stands transform }
    requires begun { T.passes transform [] [] transform }
    ensures ok { OnOk result ((bytes : List ℕ) × (text : List ℕ)
        × Consumes (R.remaining input.old) (R.remaining input.new) bytes
        × IsAtEnd (R.remaining input.new)
        × SpelledAs visible (Transforms T.passes T.ends transform) bytes text
        × Appends (W.contents output.old) (W.contents output.new) text) }
    // After any error, what went out is a front of what is written of bytes that were read.
    ensures front { OnErr result ((bytes : List ℕ) × (more : List ℕ) × (sent : List ℕ)
        × Consumes (R.remaining input.old) (R.remaining input.new) (bytes ++ more)
        × Begins (SpelledSure visible (Sends T.passes transform))
        (SpelledAs visible (Transforms T.passes T.ends transform))
        ((more ≡ []) × IsAtEnd (R.remaining input.new)) bytes sent
        × Appends (W.contents output.old) (W.contents output.new) sent) }
{
    if visible {
        return transform_all(alloc, Speller::new(alloc, transform), input, output);
    }
    transform_all(alloc, transform, input, output)
}
