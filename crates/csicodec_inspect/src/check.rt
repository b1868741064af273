//! Where a stream is plain text no more, or plain text that is all seen.
ghost use Rattle.std.specs.{Prelude.◌≡◌, Prelude.◌⊎◌, Prelude.◌<◌, Prelude.◌++◌, Prelude.ℕ, Prelude.List, Prelude.[], Prelude.length, Prelude.IfOk, Prelude.IfErr};
ghost use Rattle.std.specs.{Io.KnownBytes.Consumes, Io.KnownBytes.IsAtEnd};
ghost use Rattle.csicodec_clean.specs.Shown.{IsTextOf};
ghost use Rattle.csicodec_command.specs.{declared.failure.Failure.TheVariants.NotPlain, declared.failure.Failure.TheVariants.Run as Ran};
ghost use Rattle.csicodec_command.specs.{declared.failure.Found.Found as FoundOf};
ghost use Rattle.csicodec_transform.specs.declared.error.RunError.{RunError as RunErrorOf};
ghost use Rattle.csicodec_inspect.specs.{Found.IsFound, Found.by_char, Found.found_at, Visible.class_of};

use crate::visible::{VisibleText, is_tag, turns};
use bstr::decode_utf8;
use csicodec_clean::{CharClass, Checked, PlainText, check_all, is_shown};
use csicodec_command::{Failure, Found, Recording};
use std::alloc::{AllocError, Global};
use std::io::{BufRead, Read};

const ESC: u8 = 0x1b;

/// What the character in front is told as, if there is one.
fn by_char(front: Option<char>) -> Found
    ensures { result ≡ by_char front }
{
    match front {
        Some(char) if !is_shown(char) => Found::Control(char as u8),
        Some(char) if turns(char) => Found::Turning(u32::from(char)),
        Some(char) if is_tag(char) => Found::Tag(u32::from(char)),
        Some(char) => Found::Unseen(u32::from(char)),
        None => Found::NotUtf8,
    }
}

/// What stands in front, where that is no plain text, or none that is seen.
pub(crate) fn found(bytes: &[u8]) -> Found
    ensures { result ≡ found_at bytes.now }
{
    match bytes {
        [ESC, b'[', ..] => Found::Sequence,
        [ESC, b']' | b'P' | b'X' | b'^' | b'_', ..] => Found::String,
        [ESC, ..] => Found::Escape,
        _ => by_char(decode_utf8(bytes).0),
    }
}

/// Whether the stream that was read is as it is to be, or where it is so no more.
fn outcome(checked: &Checked) -> Result<(), Failure>
    ensures ok { IfOk result (λ _. checked.now.rest.items ≡ []) }
    ensures err { IfErr result (λ e. (0 < length checked.now.rest.items)
        × (e ≡ NotPlain checked.now.at checked.now.line (found_at checked.now.rest.items))) }
{
    if checked.rest.is_empty() {
        return Ok(());
    }
    let found = found(&checked.rest);
    Err(Failure::NotPlain(checked.at, checked.line, found))
}

/// Reads up to the first character that isn't of the class, which is the error; or to the end.
fn check_class<C: CharClass, R: Read>(alloc: Global, input: &mut R) -> Result<(), Failure>
    ensures ok { IfOk result (λ _. (bytes : List ℕ)
        × Consumes (R.remaining input.old) (R.remaining input.new) bytes
        × IsAtEnd (R.remaining input.new) × IsTextOf C.class bytes) }
    ensures fault { IfErr result (λ e. ((error : RunErrorOf) × (e ≡ Ran error))
        ⊎ ((at line : ℕ) × (found : FoundOf) × (bytes rest : List ℕ) × (e ≡ NotPlain at line found)
        × Consumes (R.remaining input.old) (R.remaining input.new) bytes
        × (((more : List ℕ) → IsFound C.class (bytes ++ more) (rest ++ more) at line found)
        ⊎ (IsAtEnd (R.remaining input.new) × IsFound C.class bytes rest at line found)))) }
{
    let checked = check_all::<C, R>(alloc, input)?;
    outcome(&checked)
}

/// Reads up to the first place where the input is plain text no more, or where a character isn't seen if it is to be visible, which is the
/// error; or to its end.
pub fn check_stream<R: Read>(alloc: Global, visible: bool, input: &mut R) -> Result<(), Failure>
    ensures ok { IfOk result (λ _. (bytes : List ℕ)
        × Consumes (R.remaining input.old) (R.remaining input.new) bytes
        × IsAtEnd (R.remaining input.new) × IsTextOf (class_of visible) bytes) }
    // A place that is told is that of the first character which isn't as it is to be, and what is told of it holds, whatever follows.
    ensures fault { IfErr result (λ e. ((error : RunErrorOf) × (e ≡ Ran error))
        ⊎ ((at line : ℕ) × (found : FoundOf) × (bytes rest : List ℕ) × (e ≡ NotPlain at line found)
        × Consumes (R.remaining input.old) (R.remaining input.new) bytes
        × (((more : List ℕ) → IsFound (class_of visible) (bytes ++ more) (rest ++ more) at line found)
        ⊎ (IsAtEnd (R.remaining input.new) × IsFound (class_of visible) bytes rest at line found)))) }
{
    if visible {
        check_class::<VisibleText, R>(alloc, input)
    } else {
        check_class::<PlainText, R>(alloc, input)
    }
}

/// Takes a line that a program wrote. In a recording CR LF ends one, and its CR passes as what it is for.
fn push_line<C: CharClass>(checked: &mut Checked, line: &[u8]) -> Result<bool, AllocError> {
    let Some(text) = line.strip_suffix(b"\r\n".as_slice()) else {
        return checked.push::<C>(line);
    };
    checked.push::<C>(text)?;
    if !checked.rest.is_empty() {
        return Ok(false);
    }
    checked.at = checked.at.saturating_add(1);
    checked.push::<C>(b"\n")
}

/// What the programs of a recording wrote. All of it is held.
fn written_of<R: BufRead>(alloc: Global, input: &mut R) -> Result<Vec<u8>, Failure> {
    let mut reading = Recording::new(alloc);
    let mut line = Vec::new(alloc);
    let mut written = Vec::new(alloc);
    for _ in 0..u64::MAX {
        let Some(text) = reading.next_line(input, &mut line)? else {
            break;
        };
        if let Some(data) = reading.take(text.as_bytes())? {
            written.extend_from_slice(data.as_bytes())?;
        }
    }
    reading.end()?;
    Ok(written)
}

/// What they wrote, with LF in place of CR LF, which ends a line in a recording.
pub fn lines_written<R: BufRead>(alloc: Global, input: &mut R) -> Result<Vec<u8>, Failure> {
    let written = written_of(alloc, input)?;
    let mut text = Vec::new(alloc);
    for line in written.split_inclusive(|byte| *byte == b'\n') {
        match line.strip_suffix(b"\r\n".as_slice()) {
            Some(front) => {
                text.extend_from_slice(front)?;
                text.extend_from_slice(b"\n")?;
            }
            None => text.extend_from_slice(line)?,
        }
    }
    Ok(text)
}

/// Checks what the programs of a recording wrote; the places are those in it.
pub fn check_cast<R: BufRead>(alloc: Global, visible: bool, input: &mut R) -> Result<(), Failure> {
    let written = written_of(alloc, input)?;
    let mut checked = Checked::new(alloc);
    for line in written.split_inclusive(|byte| *byte == b'\n') {
        let is_so = if visible {
            push_line::<VisibleText>(&mut checked, line)?
        } else {
            push_line::<PlainText>(&mut checked, line)?
        };
        if !is_so {
            break;
        }
    }
    outcome(&checked)
}
