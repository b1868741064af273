//! The name and the fields of an action as members of an object of JSON, under the names of the Rust types: from its `Debug`
//! text, which has them all.
//!
//! ```text
//! Cursor(Position { line: OneBased { value: 3 }, col: OneBased { value: 5 } })    "action":"Cursor::Position","line":3,"col":5
//! Sgr(Foreground(PaletteIndex(9)))                                                "action":"Sgr::Foreground","value":{"PaletteIndex":9}
//! Cursor(SaveCursor)                                                              "action":"Cursor::SaveCursor"
//! ```
//!
//! A struct of one field stands as that field's value, `Some(x)` as `x`, `None` as `null`, a name alone and a character as a text.

use crate::Result;
use crate::to_json::append_plain;
use memchr::memchr;
use std::alloc::Global;

/// A `Debug` text that is written as JSON, word by word.
#[derive(Drop)]
pub struct JsonFields {
    /// Members of an object, each with a comma ahead of it.
    pub out: Vec<u8>,
    /// What closes all that is open, the innermost last.
    closers: Vec<&'static str>,
    /// Whether the name of the next field is left out.
    bare: bool,
}

/// The name or number in front, and what is behind it.
fn name_front(text: &[u8]) -> (&[u8], &[u8]) {
    let mut len = 0usize;
    for byte in text {
        if !matches!(byte, b'0'..=b'9' | b'A'..=b'Z' | b'a'..=b'z' | b'_' | b'-') {
            break;
        }
        len = len.wrapping_add(1);
    }
    text.split_at_checked(len).unwrap_or((text, &[]))
}

/// The word in front, which may be empty, the byte that ends it, and what is behind that. A character stands between its marks.
fn word_front(text: &[u8]) -> Option<(&[u8], u8, &[u8])> {
    let text = text.trim_ascii_start();
    let (word, behind) = match text {
        [b'\'', marked @ ..] => {
            let len = memchr(b'\'', marked)?.saturating_add(2);
            text.split_at_checked(len)?
        }
        _ => name_front(text),
    };
    let (byte, behind) = behind.trim_ascii_start().split_first()?;
    Some((word, *byte, behind))
}

/// A word as a value; nothing where it is empty.
fn append_word(out: &mut Vec<u8>, word: &[u8]) -> Result<()> {
    let shown = match word {
        [] | [b'0'..=b'9' | b'-', ..] => word,
        [b'\'', character @ .., b'\''] => return append_plain(out, character),
        _ if word == b"None".as_slice() => b"null".as_slice(),
        _ if word == b"true".as_slice() || word == b"false".as_slice() => word,
        _ => return append_plain(out, word),
    };
    out.extend_from_slice(shown)
}

/// Whether a comma stands in what is open in front of these bytes, and not deeper.
fn has_comma(text: &[u8]) -> bool {
    let mut depth = 0u32;
    let mut marked = false;
    for byte in text {
        match *byte {
            b'\'' => marked = !marked,
            _ if marked => {}
            b'(' | b'[' | b'{' => depth = depth.saturating_add(1),
            b')' | b']' | b'}' => {
                if depth == 0 {
                    return false;
                }
                depth = depth.saturating_sub(1);
            }
            b',' if depth == 0 => return true,
            _ => {}
        }
    }
    false
}

/// The names of an action of a kind, or of one whose text begins with that, the second nothing where it has one, and what stands behind
/// them.
fn names_front<'a>(kind: &'a [u8], text: &'a [u8]) -> (&'a [u8], &'a [u8], &'a [u8]) {
    let (first, behind) = name_front(text);
    if !kind.is_empty() {
        return (kind, first, behind);
    }
    let [b'(', inner @ ..] = behind else {
        return (first, &[], behind);
    };
    let (second, rest) = match name_front(inner) {
        ([], _) | (_, [b',', ..]) => return (first, &[], behind),
        (second, [rest @ .., b')']) => (second, rest),
        names => names,
    };
    let second = if second == first { &[] } else { second };
    (first, second, rest)
}

impl JsonFields {
    /// Nothing is written.
    pub fn new(alloc: Global) -> JsonFields {
        JsonFields {
            out: Vec::new(alloc),
            closers: Vec::new(alloc),
            bare: false,
        }
    }

    /// Takes away what was written.
    pub fn clear(&mut self) {
        self.out.clear();
        self.closers.clear();
        self.bare = false;
    }

    /// Writes the members of the action that has this `Debug` text, to which the name of its kind belongs, if it isn't empty.
    pub fn write(&mut self, kind: &[u8], text: &[u8]) -> Result<()> {
        self.clear();
        let (first, second, rest) = names_front(kind, text);
        self.out.extend_from_slice(b",\"action\":\"")?;
        self.out.extend_from_slice(first)?;
        if !second.is_empty() {
            self.out.extend_from_slice(b"::")?;
            self.out.extend_from_slice(second)?;
        }
        self.out.push(b'"')?;
        let rest = match rest {
            [b'(', items @ ..] => {
                self.out.extend_from_slice(b",\"value\":")?;
                self.open(has_comma(items), b'[', "]")?;
                items
            }
            [b' ', b'{', b' ', members @ ..] => {
                self.open(true, b',', "")?;
                members
            }
            _ => return Ok(()),
        };
        self.write_all(rest)
    }

    /// Writes what stands in brackets, up to the last of them.
    fn write_all(&mut self, text: &[u8]) -> Result<()> {
        let mut rest = text;
        for _ in 0..text.len() {
            let Some((word, byte, behind)) = word_front(rest) else {
                return Ok(());
            };
            self.step(word, byte, behind)?;
            rest = behind;
        }
        Ok(())
    }

    /// Opens a list or an object, and remembers what closes it; if it isn't wanted, neither is written.
    fn open(&mut self, wanted: bool, opener: u8, closer: &'static str) -> Result<()> {
        if wanted {
            self.out.push(opener)?;
        }
        Ok(self.closers.push(if wanted { closer } else { "" })?)
    }

    /// A word, the byte that ends it, and what is behind that.
    fn step(&mut self, word: &[u8], byte: u8, behind: &[u8]) -> Result<()> {
        match byte {
            b'(' => self.open_tuple(word, has_comma(behind)),
            b'{' => {
                self.bare = !has_comma(behind);
                self.open(!self.bare, b'{', "}")
            }
            b'[' => self.open(true, b'[', "]"),
            b':' if self.bare => {
                self.bare = false;
                Ok(())
            }
            b':' | b',' => {
                append_word(&mut self.out, word)?;
                Ok(self.out.push(byte)?)
            }
            _ => {
                append_word(&mut self.out, word)?;
                let closer = self.closers.pop().unwrap_or("");
                self.out.extend_from_slice(closer.as_bytes())
            }
        }
    }

    /// A variant with values: an object of its name, unless it is `Some`.
    fn open_tuple(&mut self, word: &[u8], several: bool) -> Result<()> {
        if word == b"Some".as_slice() {
            return self.open(false, b'(', "");
        }
        self.out.push(b'{')?;
        append_word(&mut self.out, word)?;
        self.out.push(b':')?;
        if several {
            self.open(true, b'[', "]}")
        } else {
            Ok(self.closers.push("}")?)
        }
    }
}
