//! What stands for an action in a pattern.

use crate::Result;
use crate::patterns::CODES;
use csicodec_listing::columns::append_number;
use csicodec_words::find;
use serde_json::Value;

/// A byte by its number, or nothing where it is `null`; whether it is one of them.
fn append_byte(text: &mut Vec<u8>, value: &Value) -> Result<bool> {
    match value.as_u64() {
        Some(byte @ 0..=255) => {
            text.push(byte as u8)?;
            Ok(true)
        }
        _ => Ok(value.is_null()),
    }
}

/// What one value says, by itself or within `Unspecified`: a number, a name or the number of that, a token, or nothing; whether it says
/// that.
fn append_one(text: &mut Vec<u8>, value: &Value) -> Result<bool> {
    let value = value.get("Unspecified").unwrap_or(value);
    if let Some(byte) = value.get("P") {
        return append_byte(text, byte);
    }
    let value = value.get("Integer").or(value.get("Code")).unwrap_or(value);
    if let Some(number) = value.as_u64() {
        append_number(text, number, 0)?;
        return Ok(true);
    }
    let Some(name) = value.as_str() else {
        return Ok(value.is_null());
    };
    let code = find(&CODES, name.as_bytes());
    text.extend_from_slice(code.unwrap_or(name).as_bytes())?;
    Ok(true)
}

/// What a value says, or each item of a list, with this between them; whether each says something that a text can have.
fn append_value(text: &mut Vec<u8>, value: &Value, between: &str) -> Result<bool> {
    let Some(items) = value.as_array() else {
        return append_one(text, value);
    };
    let mut ahead = "";
    for item in items {
        text.extend_from_slice(ahead.as_bytes())?;
        if !append_one(text, item)? {
            return Ok(false);
        }
        ahead = between;
    }
    Ok(true)
}

/// What stands for the name of a place in a pattern; whether the action has it.
fn append_place(text: &mut Vec<u8>, place: &str, action: &Value, number: u8) -> Result<bool> {
    if place.is_empty() {
        append_number(text, u64::from(number), 0)?;
        return Ok(true);
    }
    let byte = place.strip_suffix('\'');
    let (path, between) = place.split_once('|').unwrap_or((place, ""));
    match action.pointer(byte.unwrap_or(path)) {
        Some(value) if byte.is_some() => append_byte(text, value),
        Some(value) => append_value(text, value, between),
        None => Ok(false),
    }
}

/// ESC and the pattern, with what the action has at each place; whether it has that.
pub(crate) fn append_filled(
    text: &mut Vec<u8>,
    pattern: &str,
    action: &Value,
    number: u8,
) -> Result<bool> {
    text.push(0x1b)?;
    for piece in pattern.split('{') {
        let behind = match piece.split_once('}') {
            Some((place, behind)) => {
                if !append_place(text, place, action, number)? {
                    return Ok(false);
                }
                behind
            }
            None => piece,
        };
        text.extend_from_slice(behind.as_bytes())?;
    }
    Ok(true)
}
