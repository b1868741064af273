//! How looks are changed where characters were drawn (DECCARA and DECRARA, DEC VT510).
ghost use Rattle.std.specs.Prelude.{◌≡◌, ◌<◌};
ghost use Rattle.csicodec_screen.specs.Areas.{blinks, has_line, look_set, look_turned, natural, nth, with_blink, with_line};
ghost use Rattle.csicodec_screen.specs.Private.Changes.{look_behind, look_changed};

use crate::look::Look;
use csicodec_base::{Blink, Cracked, Underline};

/// A number of a list; 0 where it is left out, or negative.
fn natural(number: Option<i64>) -> usize
    ensures is { result ≡ natural number }
    ensures few { result < 9223372036854775808 }
{
    match number {
        Some(number) if 0 <= number => number as usize,
        Some(_) | None => 0,
    }
}

/// The number of a field.
pub(crate) fn nth(index: usize, fields: &Cracked) -> usize
    ensures is { result ≡ nth index fields.now }
    ensures few { result < 9223372036854775808 }
{
    natural(fields.opt_int(index))
}

/// With a line below, or without.
fn with_line(on: bool, look: Look) -> Look
    ensures { result ≡ with_line on look }
{
    Look {
        underline: if on {
            Underline::Single
        } else {
            Underline::None
        },
        ..look
    }
}

/// Blinking, or not.
fn with_blink(on: bool, look: Look) -> Look
    ensures { result ≡ with_blink on look }
{
    Look {
        blink: if on { Blink::Slow } else { Blink::None },
        ..look
    }
}

/// Whether there is a line below.
fn has_line(look: Look) -> bool
    ensures { result ≡ has_line look }
{
    !matches!(look.underline, Underline::None)
}

/// Whether it blinks.
fn blinks(look: Look) -> bool
    ensures { result ≡ blinks look }
{
    !matches!(look.blink, Blink::None)
}

/// With what a number of SGR sets.
fn look_set(number: usize, look: Look) -> Look
    ensures { result ≡ look_set number look }
{
    match number {
        0 => Look {
            bold: false,
            inverse: false,
            concealed: false,
            ..with_line(false, with_blink(false, look))
        },
        1 => Look { bold: true, ..look },
        4 => with_line(true, look),
        5 => with_blink(true, look),
        7 => Look {
            inverse: true,
            ..look
        },
        8 => Look {
            concealed: true,
            ..look
        },
        22 => Look {
            bold: false,
            ..look
        },
        24 => with_line(false, look),
        25 => with_blink(false, look),
        27 => Look {
            inverse: false,
            ..look
        },
        28 => Look {
            concealed: false,
            ..look
        },
        _ => look,
    }
}

/// With what a number turns over; 0 turns over all.
fn look_turned(number: usize, look: Look) -> Look
    ensures { result ≡ look_turned number look }
{
    let mut turned = look;
    if number == 0 || number == 1 {
        turned.bold = !look.bold;
    }
    if number == 0 || number == 4 {
        turned.underline = with_line(!has_line(look), look).underline;
    }
    if number == 0 || number == 5 {
        turned.blink = with_blink(!blinks(look), look).blink;
    }
    if number == 0 || number == 7 {
        turned.inverse = !look.inverse;
    }
    turned
}

/// With what a number sets, or turns over.
fn look_changed(turns: bool, number: usize, look: Look) -> Look
    ensures { result ≡ look_changed turns number look }
{
    if turns {
        look_turned(number, look)
    } else {
        look_set(number, look)
    }
}

/// With what the numbers behind an area set, or turn over.
pub(crate) fn change_attributes(turns: bool, fields: &Cracked, look: Look) -> Look
    ensures { result ≡ look_behind turns fields.now look }
{
    let count = fields.len();
    if count <= 4 {
        return look_changed(turns, 0, look);
    }
    let mut new = look;
    for i in 4..count {
        new = look_changed(turns, nth(i, fields), new);
    }
    new
}
