//! Device control strings (DCS): parameters and intermediate bytes, a final byte, and data.

use crate::answers::{capabilities, setting_asked, setting_told};
use crate::body::{Body, halves, number, tell, while_in};
use crate::shown::Shown;
use crate::string_rows::{CONTROL_WORDS, CONTROLS};
use std::fmt;

/// The parts of a DCS.
#[derive(Clone, Copy)]
struct Control<'a> {
    /// The bytes from 0 to ?.
    params: &'a [u8],
    /// The intermediate byte, 0 where there is none.
    between: u8,
    /// The final byte.
    last: u8,
    /// What is behind it.
    data: Body<'a>,
}

/// The parts of a DCS, where it has a final byte.
fn parts(body: Body<'_>) -> Option<Control<'_>> {
    let (params, rest) = while_in(body.bytes, b'0', b'?');
    let (intermediates, rest) = while_in(rest, b' ', b'/');
    let (last, bytes) = rest.split_first()?;
    Some(Control {
        params,
        between: intermediates.last().copied().unwrap_or(0),
        last: *last,
        data: body.with(bytes),
    })
}

/// What is told of the data of a string with these parts, where a row is of it. Of one whose data is more than quoted the parameters
/// say nothing.
fn told_by(row: &[u8], control: Control<'_>) -> Option<u8> {
    let (last, front) = row.split_last()?;
    if *last != control.last {
        return None;
    }
    let (tells, front) = front.split_first()?;
    let (params, between) = while_in(front, b'0', b'?');
    let is_marked = control.params.first().copied() == Some(b'>');
    let is_between = between.first().copied().unwrap_or(0) == control.between;
    let is_of = match params {
        b">" => is_marked,
        b"" => is_between && !(is_marked && *tells == b'd'),
        params => is_between && params == control.params,
    };
    is_of.then_some(*tells)
}

/// Tells words, and what is told of the data.
fn tell_data<W: fmt::Write>(
    f: &mut fmt::Formatter<W>,
    words: &str,
    tells: u8,
    control: Control<'_>,
) -> fmt::Result {
    if tells == b'd' {
        return tell(f, words, control.data);
    }
    f.write_str(words)?;
    match tells {
        b'p' => sixel(f, control.data),
        b'a' => setting_asked(f, control.data),
        b't' => setting_told(f, control.params, control.data),
        b'c' => capabilities(f, control.data),
        _ => Ok(()),
    }
}

/// The words of a DCS with these parts.
fn tell_control<W: fmt::Write>(
    f: &mut fmt::Formatter<W>,
    body: Body<'_>,
    control: Control<'_>,
) -> fmt::Result {
    for (row, words) in CONTROLS.iter().zip(&CONTROL_WORDS) {
        if let Some(tells) = told_by(row.as_bytes(), control) {
            return tell_data(f, words, tells, control);
        }
    }
    tell(f, "DCS  unknown", body)
}

/// The words of a DCS.
pub fn device_control<W: fmt::Write>(f: &mut fmt::Formatter<W>, body: Body<'_>) -> fmt::Result {
    if let Some(inner) = body.behind(b"tmux;") {
        return passed_on(f, inner);
    }
    if let Some(json) = body.behind(b"@kitty-cmd") {
        return tell(f, "kitty  remote control", json);
    }
    match parts(body) {
        Some(control) => tell_control(f, body, control),
        None if body.len() == 0 => f.write_str("DCS  empty"),
        None => tell(f, "DCS  unknown", body),
    }
}

/// The width and the height that raster attributes in front tell, behind two numbers for the form of a pixel.
fn size(data: &[u8]) -> Option<(u32, u32)> {
    let raster = data.strip_prefix(b"\"")?;
    // Digits and semicolons: between these are only colons.
    let (raster, _) = halves(while_in(raster, b'0', b';').0, b':');
    let (_numerator, rest) = halves(raster, b';');
    let (_denominator, rest) = halves(rest, b';');
    let (width, height) = halves(rest, b';');
    number(width).zip(number(height))
}

/// How large a picture of sixels is (VT330/VT340 Programmer Reference, volume 2): its size, where its raster attributes tell it.
fn sixel<W: fmt::Write>(f: &mut fmt::Formatter<W>, data: Body<'_>) -> fmt::Result {
    let len = data.len();
    match size(data.bytes) {
        Some((width, height)) => write!(f, " of {width} x {height} pixels, {len} bytes"),
        None => write!(f, ", {len} bytes"),
    }
}

/// What tmux passes on: each ESC is doubled in it.
fn passed_on<W: fmt::Write>(f: &mut fmt::Formatter<W>, inner: Body<'_>) -> fmt::Result {
    let shown = inner.bytes.get(..120).unwrap_or(inner.bytes);
    for (place, piece) in shown.split(|byte| *byte == 0x1b).enumerate() {
        let ahead = match (place, place % 2) {
            (0, _) => "tmux  pass on \"",
            (_, 0) => "\\e",
            _ => "",
        };
        let piece = Shown(piece);
        write!(f, "{ahead}{piece}")?;
    }
    f.write_str(if inner.len() > 120 { "\".." } else { "\"" })
}
