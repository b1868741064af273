//! The clipboard (xterm's ctlseqs, Operating System Command 52): letters for what is meant, and text in base64.

use crate::asked::Asked;
use crate::body::Body;
use std::fmt;

/// Letters for what is meant. They print as it; with no letter it is the selection and the first cut buffer.
#[derive(Clone, Copy)]
struct Selections<'a>(&'a [u8]);

/// What a letter means.
fn selection(letter: u8) -> &'static str {
    match letter {
        b'c' => "clipboard",
        b'p' => "primary selection",
        b'q' => "secondary selection",
        b's' => "selection",
        b'0' => "cut buffer 0",
        b'1' => "cut buffer 1",
        b'2' => "cut buffer 2",
        b'3' => "cut buffer 3",
        b'4' => "cut buffer 4",
        b'5' => "cut buffer 5",
        b'6' => "cut buffer 6",
        b'7' => "cut buffer 7",
        b'8' => "other selection 8",
        b'9' => "other selection 9",
        _ => "other selection",
    }
}

impl<'a> fmt::Display for Selections<'a> {
    fn fmt<W: fmt::Write>(&self, f: &mut fmt::Formatter<W>) -> fmt::Result {
        if self.0.is_empty() {
            return f.write_str("selection and cut buffer 0");
        }
        let mut ahead = "";
        for letter in self.0 {
            let name = selection(*letter);
            write!(f, "{ahead}{name}")?;
            ahead = ", ";
        }
        Ok(())
    }
}

/// How many bytes a text in base64 is, where all of it is there; about how many, where it isn't; none where it is no base64.
fn decoded(text: Body<'_>) -> Option<u64> {
    let mut letters = text.more;
    for byte in text.bytes {
        match byte {
            b'A'..=b'Z' | b'a'..=b'z' | b'0'..=b'9' | b'+' | b'/' => {
                letters = letters.saturating_add(1);
            }
            b'=' => {}
            _ => return None,
        }
    }
    let whole = (letters / 4).saturating_mul(3);
    Some(whole.saturating_add((letters % 4).saturating_sub(1)))
}

/// OSC 52: which, and what is done with it; so many bytes of the content aren't there. What is no base64 clears it.
pub fn clipboard<W: fmt::Write>(
    f: &mut fmt::Formatter<W>,
    letters: &[u8],
    content: Asked<'_>,
    more: u64,
) -> fmt::Result {
    let selections = Selections(letters);
    let Asked::Value(bytes) = content else {
        return write!(f, "ask for the {selections}");
    };
    let text = Body { bytes, more };
    match decoded(text) {
        Some(count) if text.len() > 0 => {
            let about = if more > 0 { "about " } else { "" };
            let plural = if count == 1 { "" } else { "s" };
            write!(f, "{selections}: {about}{count} byte{plural}")
        }
        _ => write!(f, "clear the {selections}"),
    }
}
