//! What `--decode` shows: what a program puts into the clipboard (OSC 52), decoded from base64 (RFC 4648).

use crate::Result;
use base64::DecodeAllocError;
use base64::engine::general_purpose::STANDARD;
use csicodec_osc::{Quoted, Shown};
use memchr::memchr;
use std::alloc::{AllocError, Global};
use std::fmt::Write;

/// The text of an OSC 52 in base64, where the string is one, whole and closed.
fn clipboard_text(string: &[u8]) -> Option<&[u8]> {
    let rest = string.strip_prefix(b"\x1b]52;".as_slice())?;
    let at = memchr(b';', rest)?;
    let text = rest.get(at.saturating_add(1)..)?;
    let closed = text.strip_suffix(b"\x07".as_slice());
    closed.or(text.strip_suffix(b"\x1b\\".as_slice()))
}

/// The bytes that a string puts into the clipboard; none where it isn't an OSC 52 that does.
pub fn clipboard_bytes(alloc: Global, string: &[u8]) -> Result<Option<Vec<u8>>> {
    match clipboard_text(string) {
        Some(text) if !text.is_empty() => match STANDARD.decode(alloc, text) {
            Ok(bytes) => Ok(Some(bytes)),
            Err(DecodeAllocError::OutOfMemory) => Err(AllocError),
            Err(DecodeAllocError::DecodeError(_)) => Ok(None),
        },
        _ => Ok(None),
    }
}

/// The words of such bytes: all of them, or the first 120.
pub fn append_words(words: &mut String, bytes: &[u8], full: bool) -> Result<()> {
    let (shown, more) = (Shown(bytes), false);
    if full {
        Ok(write!(words, "OSC 52  text: \"{shown}\"")?)
    } else {
        let quoted = Quoted { bytes, more };
        Ok(write!(words, "OSC 52  text: {quoted}")?)
    }
}
