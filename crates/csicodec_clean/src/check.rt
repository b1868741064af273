//! Whether a stream is text of one class of characters, as plain text is, and where it is so no more.
ghost use Rattle.std.specs.Prelude.{◌≡◌, ◌⊎◌, ◌<◌, ◌≤◌, ◌++◌, ℕ, Bool, List, [], length, take, true, false, OnOk, IfOk, IfErr};
ghost use Rattle.std.specs.Io.KnownBytes.{Consumes, IsAtEnd};
ghost use Rattle.bstr.specs.Utf8.{decoded};
ghost use Rattle.csicodec_clean.specs.{Check.IsFault, Check.IsOutside, Check.IsSure, Check.Stands, Check.line_ends, Shown.IsBehind, Shown.IsTextOf};

use crate::text::{first_sure, is_shown};
use crate::wide::behind_shown;
use bstr::decode_utf8;
use csicodec_transform::{CHUNK, RunError, keep_from, receive};
use std::alloc::{AllocError, Global};
use std::io::Read;

const ESC: u8 = 0x1b;

/// A class of characters.
pub trait CharClass {
    /// Whether a character is of the class.
    ghost class: { ℕ → Bool };

    fn has(char: char) -> bool
        ensures { result ≡ class char };

    /// What is behind characters of the class in front: as many as are told at a glance.
    fn behind<'a>(bytes: &'a [u8]) -> &'a [u8]
        ensures { IsBehind class bytes.now result.now };
}

/// The characters of plain text: a newline, a tab, and all that are no controls.
pub struct PlainText;

impl CharClass for PlainText {
    ghost use Rattle.csicodec_clean.specs.Shown.{shown};

    ghost class = { shown };

    fn has(char: char) -> bool {
        is_shown(char)
    }

    fn behind<'a>(bytes: &'a [u8]) -> &'a [u8] {
        behind_shown(bytes)
    }
}

/// How many bytes the character in front has, if it is of the class; 0 where none is.
fn member_len<C: CharClass>(bytes: &[u8]) -> usize
    ensures within { result ≤ length bytes.now }
    ensures text { IsTextOf C.class (take result bytes.now) }
    ensures none { result ≡ 0 → IsOutside C.class bytes.now }
{
    let (found, size) = decode_utf8(bytes);
    match found {
        Some(char) => { if C::has(char) { size } else { 0 } }
        None => 0,
    }
}

/// What is behind the characters of the class in front.
fn behind_text<'a, C: CharClass>(bytes: &'a [u8]) -> &'a [u8]
    ensures behind { IsBehind C.class bytes.now result.now }
    ensures outside { IsOutside C.class result.now }
{
    let mut rest = C::behind(bytes);
    loop {
        let len = member_len::<C>(rest);
        if len == 0 {
            return rest;
        }
        rest = C::behind(rest.split_at(len).1);
    }
}

/// How many lines end in the text.
fn line_ends(text: &[u8]) -> usize
    ensures { result ≡ line_ends text.now }
{
    let mut count = 0;
    for byte in text {
        if *byte == b'\n' {
            count += 1;
        }
    }
    count
}

/// Whether more may follow these: of a character that isn't over, or of an ESC alone, which tells what that begins.
#[tactic(auto, using(crate::proofs::Plain::cut_short))]
fn waits(rest: &[u8]) -> bool
    ensures short { result ≡ true → length rest.now ≤ 3 }
    ensures sure { result ≡ false → (0 < length rest.now) × IsSure rest.now }
{
    match first_sure(rest) {
        Some(_) => matches!(rest, [ESC]),
        None => true,
    }
}

/// A stream as far as it is text of a class of characters.
#[derive(Drop)]
pub struct Checked {
    /// How many bytes of it are.
    pub at: u64,
    /// The line that goes on behind them, counted from 1.
    pub line: u64,
    /// What came behind them: if nothing more comes, it is no such text.
    pub rest: Vec<u8>,
}

impl Checked {
    /// Of which nothing has come.
    pub fn new(alloc: Global) -> Checked
        ensures { ((class : ℕ → Bool) → Stands class [] result.rest.items result.at result.line)
            × (result.rest.items ≡ []) }
    {
        Checked {
            at: 0,
            line: 1,
            rest: Vec::new(alloc),
        }
    }

    /// Takes the characters of the class in front of the rest.
    fn pass<C: CharClass>(&mut self)
        ensures stands { (bytes : List ℕ)
            → Stands C.class bytes self.old.rest.items self.old.at self.old.line
            → Stands C.class bytes self.new.rest.items self.new.at self.new.line }
        ensures outside { IsOutside C.class self.new.rest.items }
    {
        let behind = behind_text::<C>(&self.rest).len();
        let len = self.rest.len() - behind;
        let ends = line_ends(&self.rest[..len]);
        self.at = self.at.saturating_add(len as u64);
        self.line = self.line.saturating_add(ends as u64);
        keep_from(&mut self.rest, len);
    }

    /// Takes the next bytes. Whether more may follow: of such text, of a character that isn't over, or of an ESC alone, which tells
    /// what that begins.
    pub fn push<C: CharClass>(&mut self, bytes: &[u8]) -> Result<bool, AllocError>
        ensures stands { OnOk result ((before : List ℕ)
            → Stands C.class before self.old.rest.items self.old.at self.old.line
            → Stands C.class (before ++ bytes.now) self.new.rest.items self.new.at self.new.line) }
        ensures outside { OnOk result (IsOutside C.class self.new.rest.items) }
        ensures short { IfOk result (λ waits. waits ≡ true → length self.new.rest.items ≤ 3) }
        // Whatever follows, no character of the class stands there.
        ensures over { IfOk result (λ waits. waits ≡ false → (0 < length self.new.rest.items)
            × ((more : List ℕ) → IsOutside C.class (self.new.rest.items ++ more))) }
        ensures sure { IfOk result (λ waits. waits ≡ false → IsSure self.new.rest.items) }
    {
        self.rest.extend_from_slice(bytes)?;
        self.pass::<C>();
        Ok(waits(&self.rest))
    }
}

/// Reads up to the first character that isn't of the class, or to the end of the input, and keeps of it what stands there.
///
/// A read that answers `Interrupted` is tried again; any other error of a read is `RunError::Read`.
///
/// ```text
/// check_all::<PlainText, _>(alloc, &mut input)?;      // reads "a\nb\x1b[m": at 3, in line 2; the rest begins with "\x1b[m"
/// ```
pub fn check_all<C: CharClass, R: Read>(alloc: Global, input: &mut R) -> Result<Checked, RunError>
    // Where no rest is left, all is such text, to its end.
    ensures text { IfOk result (λ found. found.rest.items ≡ [] → (bytes : List ℕ)
        × Consumes (R.remaining input.old) (R.remaining input.new) bytes
        × IsAtEnd (R.remaining input.new) × IsTextOf C.class bytes) }
    // Else this is the place of the first that isn't: whatever follows, or at its end, with nothing behind.
    ensures fault { IfOk result (λ found. 0 < length found.rest.items → (bytes : List ℕ)
        × Consumes (R.remaining input.old) (R.remaining input.new) bytes
        × ((IsSure found.rest.items
        × ((more : List ℕ) → IsFault C.class (bytes ++ more) (found.rest.items ++ more) found.at found.line))
        ⊎ (IsAtEnd (R.remaining input.new) × IsFault C.class bytes found.rest.items found.at found.line))) }
    ensures err { IfErr result (λ e. (e ≡ RunError.Read) ⊎ (e ≡ RunError.Memory)) }
{
    let mut checked = Checked::new(alloc);
    let mut chunk = [0u8; CHUNK];
    for _ in 0..u64::MAX {
        let count = receive(input, &mut chunk)?;
        if count == 0 {
            return Ok(checked);
        }
        match checked.push::<C>(&chunk[..count]) {
            Ok(true) => {}
            Ok(false) => return Ok(checked),
            Err(_) => return Err(RunError::Memory),
        }
    }
    Err(RunError::Read)
}
