//! kitty's Terminal graphics protocol: keys with values, a semicolon, and data in base64.

use crate::body::{Body, halves, tell};
use crate::shown::Shown;
use crate::string_rows::GRAPHICS;
use std::fmt;

/// What a key, or a key with a value, says behind this action.
fn said_of(action: u8, key: &[u8]) -> Option<&'static str> {
    for row in &GRAPHICS {
        let (of, known) = row.as_bytes().split_first()?;
        let is_of = *of == b'-' || *of == action;
        let is_as_long = known.get(key.len()).copied() == Some(b'|');
        if is_of && is_as_long && known.starts_with(key) {
            return row.get(key.len().saturating_add(2)..);
        }
    }
    None
}

/// A key with its value: what they say, or themselves.
fn write_key<W: fmt::Write>(f: &mut fmt::Formatter<W>, action: u8, field: &[u8]) -> fmt::Result {
    let (key, value) = halves(field, b'=');
    let words = said_of(action, field).or(said_of(action, key));
    let (key, shown) = (Shown(key), Shown(value));
    let Some(words) = words else {
        return write!(f, "{key}={shown}");
    };
    let Some((ahead, rest)) = words.split_once('{') else {
        return f.write_str(words);
    };
    let (unit, behind) = rest.split_once('}').unwrap_or((rest, ""));
    let ending = match (unit, value) {
        ("", _) | (_, b"1") => "",
        _ => "s",
    };
    write!(f, "{ahead}{shown}{unit}{ending}{behind}")
}

/// Whether a byte is the comma that stands between keys.
fn is_comma(byte: &u8) -> bool {
    *byte == b','
}

/// Whether a key may stand in an answer.
fn may_answer(field: &[u8]) -> bool {
    matches!(halves(field, b'=').0, b"i" | b"I" | b"p")
}

/// The action that the keys tell.
fn action_of(keys: &[u8]) -> u8 {
    for field in keys.split(is_comma) {
        match field {
            [b'a', b'=', action] => return *action,
            [b'a', b'=', ..] => return 0,
            _ => {}
        }
    }
    0
}

/// The keys, with commas between.
fn write_keys<W: fmt::Write>(f: &mut fmt::Formatter<W>, keys: &[u8]) -> fmt::Result {
    let action = action_of(keys);
    for (place, field) in keys.split(is_comma).enumerate() {
        f.write_str(if place > 0 { ", " } else { "" })?;
        write_key(f, action, field)?;
    }
    Ok(())
}

/// The words of what stands behind `ESC _ G`.
pub fn graphics<W: fmt::Write>(f: &mut fmt::Formatter<W>, body: Body<'_>) -> fmt::Result {
    let (keys, data) = body.cut(b';');
    let len = data.len();
    let is_answer = len > 0 && keys.split(is_comma).all(may_answer);
    f.write_str(if is_answer {
        "kitty graphics  answer: "
    } else {
        "kitty graphics  "
    })?;
    write_keys(f, keys)?;
    match len {
        0 => Ok(()),
        _ if is_answer => tell(f, "", data),
        _ => write!(f, ", {len} bytes"),
    }
}
