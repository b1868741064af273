//! Spans as objects of JSON (RFC 8259), a line each.

use crate::Result;
use crate::columns::{Offset, Sort, append_time};
use crate::style::{Style, name_of};
use csicodec_osc::{are_plain, is_seen, plain_len};

/// A character that can't stand in a string of JSON, or can't be seen: by its number, in two halves where it is above FFFF.
fn append_by_number(text: &mut Vec<u8>, character: char) -> Result<()> {
    for unit in character.encode_utf16(&mut [0u16; 2]).iter() {
        text.extend_from_slice(b"\\u")?;
        let digits = hex::encode(*text.allocator(), &unit.to_be_bytes())?;
        text.extend_from_slice(digits.as_bytes())?;
    }
    Ok(())
}

/// A character that can't stand in a string for itself.
fn append_character(text: &mut Vec<u8>, character: char) -> Result<()> {
    let shown = match character {
        '"' => "\\\"",
        '\\' => "\\\\",
        '\n' => "\\n",
        '\r' => "\\r",
        '\t' => "\\t",
        '\u{1b}' => "\\u001b",
        _ => return append_by_number(text, character),
    };
    text.extend_from_slice(shown.as_bytes())
}

/// Bytes that stand for themselves, between quotation marks.
pub fn append_plain(out: &mut Vec<u8>, bytes: &[u8]) -> Result<()> {
    out.push(b'"')?;
    out.extend_from_slice(bytes)?;
    Ok(out.push(b'"')?)
}

/// How many bytes in front are characters beside ASCII that can be seen.
fn seen_len(text: &str) -> usize {
    for (at, character) in text.char_indices() {
        if character.is_ascii() || !is_seen(character) {
            return at;
        }
    }
    text.len()
}

/// A text between quotation marks.
pub fn append_string(out: &mut Vec<u8>, text: &str) -> Result<()> {
    let mut rest = text;
    out.push(b'"')?;
    for _ in 0..text.len() {
        let plain = plain_len(rest.as_bytes());
        let others = seen_len(rest.get(plain..).unwrap_or(""));
        let len = plain.saturating_add(others);
        let (run, behind) = rest.split_at_checked(len).unwrap_or((rest, ""));
        out.extend_from_slice(run.as_bytes())?;
        rest = behind;
        if rest.is_empty() {
            break;
        }
        if len == 0 {
            let mut characters = rest.chars();
            if let Some(character) = characters.next() {
                append_character(out, character)?;
            }
            rest = characters.as_str();
        }
    }
    Ok(out.push(b'"')?)
}

/// The begin of an object: where the span stands, and when it came, if that is told; the member that says of which file, if there
/// is one.
#[inline(always)]
pub fn append_begin_object(
    text: &mut Vec<u8>,
    style: &Style<'_>,
    file: &[u8],
    time: u64,
    place: &Offset,
) -> Result<()> {
    text.extend_from_slice(b"{\"at\":")?;
    text.extend_from_slice(place.digits())?;
    if style.timed {
        text.extend_from_slice(b",\"time\":")?;
        append_time(text, time, 0)?;
    }
    if file.is_empty() {
        Ok(())
    } else {
        text.extend_from_slice(file)
    }
}

/// Bytes, as text where they are UTF-8; the names of both members.
fn append_member(out: &mut Vec<u8>, bytes: &[u8], text: &[u8], hex: &[u8]) -> Result<()> {
    if are_plain(bytes) {
        out.extend_from_slice(text)?;
        return append_plain(out, bytes);
    }
    match std::str::from_utf8(bytes) {
        Ok(bytes) => {
            out.extend_from_slice(text)?;
            append_string(out, bytes)
        }
        Err(_) => {
            out.extend_from_slice(hex)?;
            let digits = hex::encode(*out.allocator(), bytes)?;
            append_plain(out, digits.as_bytes())
        }
    }
}

/// What a span is, and its bytes.
pub fn append_object(text: &mut Vec<u8>, sort: Sort, bytes: &[u8]) -> Result<()> {
    text.extend_from_slice(match sort {
        Sort::Text => b",\"kind\":\"text\"".as_slice(),
        Sort::Control => b",\"kind\":\"control\"",
        Sort::Sequence => b",\"kind\":\"csi\"",
        Sort::Escape => b",\"kind\":\"escape\"",
        Sort::String => b",\"kind\":\"string\"",
        Sort::Malformed => b",\"kind\":\"malformed\"",
        Sort::Event => b",\"kind\":\"event\"",
    })?;
    append_member(text, bytes, b",\"text\":", b",\"hex\":")
}

/// An action of an object: its name, its words, and its fields.
pub fn append_action(text: &mut Vec<u8>, words: &str, fields: &[u8], first: bool) -> Result<()> {
    let (name, words) = name_of(words);
    let begin: &[u8] = if first {
        b",\"actions\":[{\"name\":"
    } else {
        b",{\"name\":"
    };
    text.extend_from_slice(begin)?;
    append_string(text, name)?;
    text.extend_from_slice(b",\"words\":")?;
    append_string(text, words)?;
    text.extend_from_slice(fields)?;
    Ok(text.push(b'}')?)
}

/// What stands in the only action of a span, decoded: a member of that action.
pub fn append_decoded(text: &mut Vec<u8>, bytes: &[u8]) -> Result<()> {
    text.truncate(text.len().saturating_sub(1));
    append_member(text, bytes, b",\"decoded\":", b",\"decoded_hex\":")?;
    Ok(text.push(b'}')?)
}
