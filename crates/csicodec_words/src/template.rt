//! Words with holes for numbers.

use crate::out::Out;
use crate::rows::{cut, number};
use crate::told::tell_by_code;
use csicodec_base::CsiParam;
use itoa::Buffer;
use std::fmt::Write;

/// Writes words. `{2}` stands for the third number, 0 where it is left out; `{2?1=on|=to #}` for the words of its value, those behind nothing where it is
/// any other, with the value in the place of a `#`, and the first ones where it is left out and the list begins with `~`; `{2*1=a|2=b}` for those of it
/// and of all behind it; `{2&, with |1=a|2=b}` for those of its bits; and `{2@m}` for what code tells of it, by a letter.
pub(crate) fn fill<W: Write>(out: &mut Out<'_, W>, words: &str, params: &[CsiParam]) {
    let mut pieces = words.split('{');
    out.put(pieces.next().unwrap_or(""));
    for piece in pieces {
        let (hole, text) = cut(piece, '}');
        fill_hole(out, hole, params);
        out.put(text);
    }
}

/// A hole is a place, a digit of base 16, and what is told of the number there.
fn fill_hole<W: Write>(out: &mut Out<'_, W>, hole: &str, params: &[CsiParam]) {
    let mut rest = hole.chars();
    let place = rest.next().unwrap_or('0').to_digit(16).unwrap_or(0);
    let (kind, value) = (rest.next(), number(params, place));
    match kind {
        None => out.put_number(value.unwrap_or(0)),
        Some('@') => {
            let letter = rest.next().unwrap_or(' ');
            tell_by_code(out, letter, value.unwrap_or(0), params);
        }
        Some('&') => bits_told(out, rest.as_str(), value.unwrap_or(0)),
        Some('*') => each_told(out, rest.as_str(), place, params),
        _ => told(out, rest.as_str(), value),
    }
}

/// The words of a value in a list, and the value by itself where that has none.
fn told<W: Write>(out: &mut Out<'_, W>, list: &str, value: Option<i64>) {
    let mut buffer = Buffer::new();
    let digits = buffer.format(value.unwrap_or(0));
    let is_absent = value.is_none() && list.starts_with('~');
    for entry in list.trim_start_matches('~').split('|') {
        let (key, words) = cut(entry, '=');
        if is_absent || key.is_empty() || key == digits {
            let Some((ahead, behind)) = words.split_once('#') else {
                return out.put(words);
            };
            out.put(ahead);
            out.put(digits);
            return out.put(behind);
        }
    }
    out.put(digits);
}

/// The words of the value at a place and of those behind it, up to one that is left out; the first one may be, where the list has words for
/// that ahead of all others.
fn each_told<W: Write>(out: &mut Out<'_, W>, list: &str, from: u32, params: &[CsiParam]) {
    let mut ahead = ": ";
    for place in from..32 {
        let value = number(params, place);
        if value.is_none() && (place > from || !list.starts_with('~')) {
            break;
        }
        out.put(ahead);
        told(out, list, value);
        ahead = ", ";
    }
}

/// The words in a list of which a value has one of the bits: what the list begins with ahead of the first, and commas between them.
fn bits_told<W: Write>(out: &mut Out<'_, W>, list: &str, value: i64) {
    let (first, entries) = cut(list, '|');
    let mut is_first = true;
    for entry in entries.split('|') {
        let (bits, words) = cut(entry, '=');
        if bits.parse::<i64>().unwrap_or(0) & value != 0 {
            out.put(if is_first { first } else { ", " });
            out.put(words);
            is_first = false;
        }
    }
}
