//! A text that is looked for: in the bytes of a span, in these as a line shows them, and in the words.

use crate::Result;
use crate::columns::{ToldSpan, append_shown};
use crate::style::Style;
use bstr::ByteSlice;
use memchr::memmem::find;
use std::alloc::Global;

/// Room for what is searched.
#[derive(Drop)]
pub struct Search {
    /// The bytes of a span as a line shows them.
    shown: Vec<u8>,
    /// Where capitals and small letters are the same: what is looked for, and behind it what is searched, in small letters.
    letters: Vec<u8>,
}

/// Whether a text that is looked for stands in these bytes.
fn is_in(letters: &mut Vec<u8>, style: &Style<'_>, text: &str, bytes: &[u8]) -> Result<bool> {
    if !style.ignore_case {
        return Ok(find(bytes, text.as_bytes()).is_some());
    }
    letters.clear();
    text.as_bytes().to_lowercase_into(letters)?;
    let len = letters.len();
    bytes.to_lowercase_into(letters)?;
    match letters.split_at_checked(len) {
        Some((text, bytes)) => Ok(find(bytes, text).is_some()),
        None => Ok(false),
    }
}

impl Search {
    /// Of which nothing is used.
    pub fn new(alloc: Global) -> Search {
        Search {
            shown: Vec::new(alloc),
            letters: Vec::new(alloc),
        }
    }

    /// Whether what is looked for, if anything is, stands in a span or in its words.
    #[inline(never)]
    pub fn finds(&mut self, style: &Style<'_>, span: &ToldSpan<'_>, words: &str) -> Result<bool> {
        let Some(text) = style.grep else {
            return Ok(true);
        };
        let letters = &mut self.letters;
        if is_in(letters, style, text, span.bytes)?
            || is_in(letters, style, text, words.as_bytes())?
        {
            return Ok(true);
        }
        // What a line shows otherwise than it came begins with a backslash.
        if !text.contains('\\') {
            return Ok(false);
        }
        self.shown.clear();
        let _columns = append_shown(&mut self.shown, span, usize::MAX)?;
        is_in(letters, style, text, &self.shown)
    }
}
