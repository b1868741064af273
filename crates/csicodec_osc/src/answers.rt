//! Settings and capabilities that are asked for and told (DEC's DECRQSS; xterm's XTGETTCAP).

use crate::body::{Body, halves, is_semicolon};
use crate::shown::write_bytes;
use crate::string_rows::SETTINGS;
use hex::decode_to_slice;
use std::fmt;

/// The setting that ends in these bytes.
fn setting(text: &[u8]) -> Option<&'static str> {
    for row in &SETTINGS {
        let (finals, words) = row.split_once('=')?;
        if text.ends_with(finals.as_bytes()) {
            return Some(words);
        }
    }
    None
}

/// The setting that DECRQSS asks for.
pub fn setting_asked<W: fmt::Write>(f: &mut fmt::Formatter<W>, data: Body<'_>) -> fmt::Result {
    let quoted = data.quoted();
    match setting(data.bytes) {
        Some(words) => f.write_str(words),
        None => write!(f, "the setting {quoted}"),
    }
}

/// What DECRPSS tells: with 1 the setting (xterm; the VT510's manual has 0 for it), else nothing.
pub fn setting_told<W: fmt::Write>(
    f: &mut fmt::Formatter<W>,
    params: &[u8],
    data: Body<'_>,
) -> fmt::Result {
    if data.len() == 0 {
        return f.write_str("no such setting");
    }
    let (words, quoted) = (setting(data.bytes).unwrap_or("a setting"), data.quoted());
    let validity = match params {
        b"1" => "",
        _ => ", not valid",
    };
    write!(f, "{words}: {quoted}{validity}")
}

/// XTGETTCAP: names, and behind `=` values, in hexadecimal digits, with semicolons between.
pub fn capabilities<W: fmt::Write>(f: &mut fmt::Formatter<W>, data: Body<'_>) -> fmt::Result {
    for (place, field) in data.bytes.split(is_semicolon).enumerate() {
        let ahead = if place > 0 { ", " } else { "" };
        let (name, value) = halves(field, b'=');
        let equals = if value.is_empty() { "" } else { " = " };
        let (name, value) = (Decoded(name), Decoded(value));
        write!(f, "{ahead}{name}{equals}{value}")?;
    }
    Ok(())
}

/// Hexadecimal digits. They print as the bytes that they stand for, each by itself; what is no such digits prints as it is.
#[derive(Clone, Copy)]
struct Decoded<'a>(&'a [u8]);

impl<'a> fmt::Display for Decoded<'a> {
    fn fmt<W: fmt::Write>(&self, f: &mut fmt::Formatter<W>) -> fmt::Result {
        if self.0.len() % 2 != 0 || !self.0.iter().all(u8::is_ascii_hexdigit) {
            return write_bytes(f, self.0, false);
        }
        for pair in self.0.chunks(2) {
            let mut byte = [0u8; 1];
            if decode_to_slice(pair, &mut byte).is_ok() {
                write_bytes(f, &byte, false)?;
            }
        }
        Ok(())
    }
}
