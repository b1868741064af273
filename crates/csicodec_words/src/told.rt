//! What is told of a number by code.

use crate::device::{extensions, graphics_values};
use crate::mode_words::{PRIVATE, RESET, SET, TERMINAL, TERMINAL_RESET, TERMINAL_SET};
use crate::out::Out;
use crate::rows::{Rows, number, words_of};
use csicodec_base::CsiParam;
use std::fmt::Write;

/// Tells of a number what the letter of a hole says.
pub(crate) fn tell_by_code<W: Write>(
    out: &mut Out<'_, W>,
    letter: char,
    value: i64,
    params: &[CsiParam],
) {
    match letter {
        'm' | 's' | 'r' | 'M' | 'S' | 'R' => tell_mode(out, letter, value),
        'e' => extensions(out, params),
        // The mouse, in a report of three characters, and in one of numbers where a button went down, and up.
        't' => mouse_event(out, value.saturating_sub(32), false),
        'b' => mouse_event(out, value, false),
        'u' => mouse_event(out, value, true),
        // In a report of three characters; too small where the place is too far for the form.
        'p' if value <= 32 => out.put("out of range"),
        'p' => out.put_number(value.saturating_sub(32)),
        'a' => out.show(&char::from(u8::try_from(value).unwrap_or(0))),
        'l' => margins(out, "line", params, value),
        'c' => margins(out, "column", params, value),
        _ => graphics_values(out, params),
    }
}

/// A mode that is asked for, set or reset, of which private ones have capitals: the words of its own for that, or its name and a word behind it.
fn tell_mode<W: Write>(out: &mut Out<'_, W>, letter: char, value: i64) {
    let is_private = letter.is_ascii_uppercase();
    let (modes, set, reset): (Rows, Rows, Rows) = match is_private {
        true => (&PRIVATE, &SET, &RESET),
        false => (&TERMINAL, &TERMINAL_SET, &TERMINAL_RESET),
    };
    let (own, behind): (Rows, _) = match letter {
        's' | 'S' => (set, " on"),
        'r' | 'R' => (reset, " off"),
        _ => (&[], ""),
    };
    if let Some(words) = words_of(own, value) {
        return out.put(words);
    }
    // A private mode above 65535 is none.
    let unnamed = if is_private && value <= 65535 {
        "unnamed private mode"
    } else {
        "unnamed mode"
    };
    out.put(words_of(modes, value).unwrap_or(unnamed));
    out.put(behind);
}

/// The buttons of the mouse, and the ways of its wheel, by bits 128 and 64 and bits 2 and 1 of the code of a report.
static BUTTONS: [&str; 16] = pieces! {
    "1", "2", "3", "", "up", "down", "left", "right", "8", "9", "10", "11", "1", "2", "3", "",
};

/// What the mouse did, by the code of a report: bits 1 and 2 are the button, 32 says that it moved, 64 that it is the wheel, 128 a button
/// from 8 on (xterm's ctlseqs, Mouse Tracking).
fn mouse_event<W: Write>(out: &mut Out<'_, W>, code: i64, released: bool) {
    let place = usize::try_from(((code >> 4) & 12) | (code & 3)).unwrap_or(0);
    let button = BUTTONS.get(place).copied().unwrap_or("");
    let (ahead, done) = match (button, code & 192, released, code & 32) {
        ("", _, _, 0) => ("button ", "released at"),
        ("", _, _, _) => ("moved to", ""),
        (_, 64, true, _) => ("wheel ", " released at"),
        (_, 64, false, _) => ("wheel turned ", " at"),
        (_, _, true, _) => ("button ", " released at"),
        (_, _, false, 0) => ("button ", " pressed at"),
        (_, _, false, _) => ("button ", " dragged to"),
    };
    out.put(ahead);
    out.put(button);
    out.put(done);
}

/// The lines or columns from one to another, both counted, of which 4294967295 is the screen's last. Without numbers they are all.
fn margins<W: Write>(out: &mut Out<'_, W>, unit: &str, params: &[CsiParam], last: i64) {
    let first = number(params, 0).unwrap_or(1);
    if matches!((first, last), (1, 0 | 0xffff_ffff)) {
        return out.put(" the whole screen");
    }
    out.put(" ");
    out.put(unit);
    out.put(if last == 0xffff_ffff { " " } else { "s " });
    out.put_number(first);
    out.put(" to ");
    if last == 0xffff_ffff {
        out.put("the last");
    } else {
        out.put_number(last);
    }
}
