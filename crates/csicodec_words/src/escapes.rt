//! Control characters in words, and escape sequences: those that the codec has a code for, those that designate a character set, and others with a name.

use crate::escape_rows::{CONTROLS, NAMES, OTHERS, SETS, SETS_OF_96, SETS_OF_SEVERAL};
use crate::out::Out;
use crate::rows::{Rows, find};
use std::fmt::{self, Formatter, Write};

/// What an escape sequence is: of one that designates a set, which of G0 to G3 that becomes, and the set; of another only its name and deed.
type Escape = (&'static str, &'static str);

/// Which of G0 to G3 an intermediate byte means (ECMA-35, 14.3.2).
fn place_of(byte: u8) -> Option<&'static str> {
    match byte {
        b'(' => Some("SCS  G0: "),
        b')' | b'-' => Some("SCS  G1: "),
        b'*' | b'.' => Some("SCS  G2: "),
        b'+' | b'/' => Some("SCS  G3: "),
        _ => None,
    }
}

/// What an escape sequence is, by its bytes behind ESC. Behind `$` stands a set of several bytes a character, which becomes G0 where no intermediate
/// byte stands there. From `-` on such a byte means a set of 96 characters.
fn escape_of(bytes: &[u8]) -> Option<Escape> {
    let behind = bytes.strip_prefix(b"$".as_slice()).unwrap_or(bytes);
    let is_of_several = behind.len() < bytes.len();
    let (first, set) = behind.split_first()?;
    let (sets, otherwise): (Rows, _) = match first {
        _ if is_of_several => (&SETS_OF_SEVERAL, "a set of several bytes a character"),
        b'-'.. => (&SETS_OF_96, "another set of 96"),
        _ => (&SETS, "another set"),
    };
    match place_of(*first) {
        Some(place) if !set.is_empty() => Some((place, find(sets, set).unwrap_or(otherwise))),
        _ if is_of_several => {
            let set = find(sets, behind).unwrap_or(otherwise);
            (behind.len() == 1).then_some(("SCS  G0: ", set))
        }
        _ => {
            let (_, between) = bytes.split_last()?;
            Some(("", find(&NAMES, bytes).or(find(&OTHERS, between))?))
        }
    }
}

/// An escape sequence by its bytes behind ESC, as a terminal reads it. It prints as its words: a name, two blanks, and what it does.
#[derive(Clone, Copy)]
pub struct EscReading<'a>(pub &'a [u8]);

impl<'a> EscReading<'a> {
    /// That of these bytes with more than one intermediate byte, for which the codec has no code; none where they aren't such a sequence,
    /// whole (ECMA-35, 13.2.1).
    pub fn long(bytes: &'a [u8]) -> Option<EscReading<'a>> {
        let [0x1b, behind @ ..] = bytes else {
            return None;
        };
        let [between @ .., 0x30..=0x7e] = behind else {
            return None;
        };
        for byte in between {
            if !matches!(byte, 0x20..=0x2f) {
                return None;
            }
        }
        (between.len() > 1).then_some(EscReading(behind))
    }
}

impl<'a> fmt::Display for EscReading<'a> {
    fn fmt<W: Write>(&self, f: &mut Formatter<W>) -> fmt::Result {
        let mut out = Out::new(f);
        match escape_of(self.0) {
            Some((ahead, words)) => {
                out.put(ahead);
                out.put(words);
            }
            None => tell_unknown(&mut out, self.0),
        }
        out.done
    }
}

/// One without a name is told by its bytes, with SP for a blank.
fn tell_unknown<W: Write>(out: &mut Out<'_, W>, bytes: &[u8]) {
    if bytes.len() > 2 {
        return out.put("unknown  escape sequence");
    }
    out.put("unknown  ESC");
    for byte in bytes {
        out.put(" ");
        match *byte {
            b' ' => out.put("SP"),
            byte => out.show(&char::from(byte)),
        }
    }
}

/// The name of a control character, or of a carriage return with a line feed behind it, and what it does.
pub fn words_of_control(bytes: &[u8]) -> &'static str {
    match bytes {
        [0x7f] => "DEL  nothing",
        [byte @ 0..=31] => CONTROLS[usize::from(*byte)],
        [_] => "control",
        _ => "CR LF  cursor to column 1, down 1 line, scrolling",
    }
}
