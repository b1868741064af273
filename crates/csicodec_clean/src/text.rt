//! The characters of a run of text that are shown.
ghost use Rattle.std.specs.Prelude.{◌≡◌, ◌<◌, ◌≤◌, ◌-◌, ◌++◌, ◌∷◌, [], ℕ, List, length, take, drop, OnOk, IfOk, IfSome, IfNone};
ghost use Rattle.bstr.specs.Utf8.{decoded};
ghost use Rattle.csicodec_clean.specs.{Shown.chars_as, Shown.run_as, Shown.shown, Shown.IsCut, Shown.IsRead, Private.Steps.ReadsTo, Private.Steps.Tells};
ghost use Rattle.csicodec_clean.specs.{Private.Steps.dropped_byte};

use crate::rule::Rule;
use crate::wide::behind_shown;
use bstr::decode_utf8;
use std::alloc::AllocError;

/// Whether the character is a newline, a tab, or no control.
pub fn is_shown(char: char) -> bool
    ensures { result ≡ shown char }
{
    char == '\n' || char == '\t' || ' ' <= char && (char < '\u{7f}' || '\u{a0}' <= char)
}

/// Whether the byte is a control that is dropped, and no ESC, SO or SI.
#[inline(always)]
fn is_dropped(byte: u8) -> bool
    ensures { result ≡ dropped_byte byte }
{
    if byte == 0x1b || byte == 0x0e || byte == 0x0f {
        return false;
    }
    byte < b' ' && byte != b'\n' && byte != b'\t' || byte == 0x7f
}

/// Appends the character, if it is shown.
pub(crate) fn append_char<T: Rule>(char: char, out: &mut Vec<u8>) -> Result<(), AllocError>
    ensures { OnOk result
        (out.new.items ≡ out.old.items ++ chars_as T.gives.writing (char ∷ [])) }
{
    if is_shown(char) {
        T::append_char(char, out)?;
    }
    Ok(())
}

/// The character in front, or U+FFFD for a piece that is none, and its length; none where it depends on what follows, and of
/// no bytes.
#[tactic(auto, using(crate::proofs::Plain::read_bad))]
pub fn first_sure(bytes: &[u8]) -> Option<(char, usize)>
    ensures none { IfNone result (IsCut bytes.now) }
    ensures some { IfSome result
        (λ (char, size). IsRead bytes.now (char ∷ []) (drop size bytes.now) × (0 < size)
        × (size ≤ length bytes.now)
        × ((more : List ℕ) → decoded (bytes.now ++ more) ≡ decoded bytes.now)) }
{
    if bytes.is_empty() {
        return None;
    }
    let (found, size) = decode_utf8(bytes);
    match found {
        Some(char) => Some((char, size)),
        None if size == bytes.len() => None,
        None => Some(('\u{FFFD}', size)),
    }
}

/// Appends so many of the first bytes, up to `N` of them by one copy of `N`.
#[inline(always)]
pub(crate) fn append_front<const N: usize>(
    bytes: &[u8],
    len: usize,
    out: &mut Vec<u8>,
) -> Result<(), AllocError>
    requires { len ≤ length bytes.now }
    ensures { OnOk result (out.new.items ≡ out.old.items ++ take len bytes.now) }
{
    if len == 0 {
        return Ok(());
    }
    if len > N || bytes.len() < N {
        return out.extend_from_slice(bytes.split_at(len).0);
    }
    let end = out.len() + len;
    out.extend_from_slice(bytes.split_at(N).0)?;
    out.truncate(end);
    Ok(())
}

/// Appends the characters in front that are shown, and answers the bytes behind them.
#[tactic(auto, using(crate::proofs::Told::tells_shown))]
#[inline(always)]
fn append_plain<'a, T: Rule>(bytes: &'a [u8], out: &mut Vec<u8>) -> Result<&'a [u8], AllocError>
    ensures { IfOk result
        (λ rest. Tells T.gives.writing bytes.now rest.now out.old.items out.new.items) }
{
    let rest = behind_shown(bytes);
    T::append_text(bytes, bytes.len() - rest.len(), out)?;
    Ok(rest)
}

/// Appends what is shown of the text in front, up to an ESC, SO, SI, a control of C1 or what is no UTF-8, and answers what is behind it.
#[tactic(auto, using(crate::proofs::Told::tells_none))]
#[inline(always)]
pub(crate) fn append_told<'a, T: Rule>(
    bytes: &'a [u8],
    out: &mut Vec<u8>,
) -> Result<&'a [u8], AllocError>
    ensures { IfOk result
        (λ rest. Tells T.gives.writing bytes.now rest.now out.old.items out.new.items) }
{
    if bytes.first() == Some(&0x1b) {
        return Ok(bytes);
    }
    let mut rest = bytes;
    loop {
        let behind = append_plain::<T>(rest, out)?;
        let Some((byte, others)) = behind.split_first() else {
            return Ok(behind);
        };
        if !is_dropped(*byte) {
            return Ok(behind);
        }
        rest = others;
    }
}

/// Appends what is shown of the characters that are sure, whatever follows, and answers the others: three bytes at most.
#[tactic(auto, using(crate::proofs::Plain::cut_short))]
pub(crate) fn append_sure<'a, T: Rule>(
    bytes: &'a [u8],
    out: &mut Vec<u8>,
) -> Result<&'a [u8], AllocError>
    ensures chars { IfOk result
        (λ rest. (chars : List ℕ) × ReadsTo bytes.now chars rest.now
        × (out.new.items ≡ out.old.items ++ chars_as T.gives.writing chars)) }
    ensures cut { IfOk result (λ rest. IsCut rest.now) }
    ensures short { IfOk result (λ rest. length rest.now ≤ 3) }
{
    let told = append_told::<T>(bytes, out)?;
    let mut rest = told;
    while let Some((char, size)) = first_sure(rest) {
        append_char::<T>(char, out)?;
        rest = append_told::<T>(rest.split_at(size).1, out)?;
    }
    Ok(rest)
}

/// Appends what is shown of the run: nothing follows it.
pub(crate) fn append_shown<T: Rule>(bytes: &[u8], out: &mut Vec<u8>) -> Result<(), AllocError>
    ensures { OnOk result
        (out.new.items ≡ out.old.items ++ run_as T.gives.writing bytes.now) }
{
    let rest = append_sure::<T>(bytes, out)?;
    if !rest.is_empty() {
        append_char::<T>('\u{FFFD}', out)?;
    }
    Ok(())
}
