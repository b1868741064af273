//! Spellings that are tried. Nothing rests on how they are made: each is read before it is written.
ghost use Rattle.std.specs.Prelude.{◌≤◌, length};

use csicodec_base::CsiParam::{Integer, P};
use csicodec_base::{CsiParam, Text, TextBuffer};
use std::alloc::AllocError;

/// Below which number a parameter may be left out of a list before this final (ECMA-48, 8.3).
fn least_said(control: char) -> i64 {
    match control {
        'J' | 'K' | 'W' | 'c' | 'g' => 1,
        '@'..='I' | 'L' | 'M' | 'P' | 'S' | 'T' | 'X'..='Z' | '`' | 'a' | 'b' | 'd'..='f' | 'j' => {
            2
        }
        _ => 0,
    }
}

/// Whether the token is a number that may be left out there.
fn is_left_out(token: CsiParam, least: i64) -> bool {
    matches!(token, Integer(number) if 0 <= number && number < least)
}

/// The list without what may be left out at its end, and the `;` before that.
fn without_end(params: &[CsiParam], least: i64) -> &[CsiParam] {
    let mut front = params;
    while let Some((last, others)) = front.split_last() {
        if least == 0 || !matches!(last, P(b';')) && !is_left_out(*last, least) {
            return front;
        }
        front = others;
    }
    front
}

/// Appends a token, and `;` for a colon where it is one of a colour.
fn append_token(token: CsiParam, colored: bool, out: &mut TextBuffer) -> Result<(), AllocError> {
    match token {
        Integer(number) => {
            let mut text = Text::new();
            text.push_i64(number);
            out.push_text(&text)
        }
        P(b':') if colored => out.push_slice(b";"),
        P(byte) => out.push_slice(&[byte]),
    }
}

/// Appends the tokens but those that may be left out.
fn append_tokens(
    tokens: &[CsiParam],
    least: i64,
    colored: bool,
    out: &mut TextBuffer,
) -> Result<(), AllocError> {
    for token in tokens {
        if !is_left_out(*token, least) {
            append_token(*token, colored, out)?;
        }
    }
    Ok(())
}

/// How many tokens the style in front has: up to the next `;`, or up to the end of a colour with semicolons.
fn style_len(rest: &[CsiParam]) -> usize
    ensures { result ≤ length rest.now }
{
    match rest {
        [Integer(38 | 48 | 58), P(b';'), Integer(2), ..] => rest.len().min(9),
        [Integer(38 | 48 | 58), P(b';'), Integer(5), ..] => rest.len().min(5),
        _ => {
            for (i, token) in rest.iter().enumerate() {
                if matches!(token, P(b';')) {
                    return i;
                }
            }
            rest.len()
        }
    }
}

/// Appends one style: colours of the character and the ground with semicolons, `4:0` as `24`, `4:1` as `4`, and 0 as nothing, unless
/// it is the last. `58` and `4:2` stay: terminals that don't know the first read what is behind a `;` by itself, and 21 isn't a
/// double line for all of them.
fn append_style(style: &[CsiParam], last: bool, out: &mut TextBuffer) -> Result<(), AllocError> {
    match style {
        [Integer(0)] if !last => Ok(()),
        [Integer(4), P(b':'), Integer(0)] => out.push_slice(b"24"),
        [Integer(4), P(b':'), Integer(1)] => out.push_slice(b"4"),
        [Integer(38 | 48), P(b':'), Integer(5), ..] => append_tokens(style, 0, true, out),
        [Integer(38 | 48), P(b':'), Integer(2), P(b':'), ..] if 9 <= style.len() => {
            append_tokens(&style[..4], 0, true, out)?;
            append_tokens(&style[style.len() - 5..], 0, true, out)
        }
        _ => append_tokens(style, 0, false, out),
    }
}

/// Appends the styles of a list before `m`.
fn append_styles(params: &[CsiParam], out: &mut TextBuffer) -> Result<(), AllocError> {
    let mut rest = match params {
        [Integer(0)] => &[],
        _ => params,
    };
    while !rest.is_empty() {
        let (style, behind) = rest.split_at(style_len(rest));
        append_style(style, behind.is_empty(), out)?;
        rest = match behind.split_first() {
            Some((mark, others)) => {
                append_token(*mark, false, out)?;
                others
            }
            None => behind,
        };
    }
    Ok(())
}

/// Whether a number begins with 0, or there is a colon.
fn has_zero_or_colon(bytes: &[u8]) -> bool {
    let mut before = 0u8;
    for byte in bytes {
        if *byte == b':' || *byte == b'0' && !before.is_ascii_digit() {
            return true;
        }
        before = *byte;
    }
    false
}

/// Whether another spelling may be shorter, or have other marks.
pub(crate) fn may_be_shorter(bytes: &[u8], params: &[CsiParam], control: char) -> bool {
    has_zero_or_colon(bytes) || least_said(control) == 2 && params.contains(&Integer(1))
}

/// Writes a spelling of the list: `plainly` as its numbers are printed, without zeros ahead of them, and else without what is a default
/// there too.
pub(crate) fn spell(
    params: &[CsiParam],
    control: char,
    plainly: bool,
    out: &mut TextBuffer,
) -> Result<(), AllocError> {
    out.clear();
    out.push_slice(b"\x1b[")?;
    if control == 'm' && !plainly {
        append_styles(params, out)?;
    } else {
        let least = if plainly { 0 } else { least_said(control) };
        append_tokens(without_end(params, least), least, false, out)?;
    }
    let mut bytes = [0u8; 4];
    out.push_slice(control.encode_utf8(&mut bytes).as_bytes())
}
