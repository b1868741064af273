//! Colours: the sequence of one is read at the front, and its normal form written, without a list of its tokens.
ghost use Rattle.std.specs.Prelude.{◌≡◌, ◌+◌, ◌-◌, ◌<◌, ◌≤◌, ◌∷◌, [], ◌++◌, ℕ, Bool, List, false, length, take, IfSome, OnErr, OnOk};
ghost use Rattle.csicodec_tokens.specs.{declared.param.CsiParam.CsiParam, Sequence.Reads};
ghost use Rattle.csicodec_actions.specs.Actions.{Sgr as Styled};
ghost use Rattle.csicodec_base.specs.{Shapes.Plane, Shapes.painted, SgrText.sgr_text, declared.sgr.Sgr.Sgr as Attribute};
ghost use Rattle.csicodec_parser.specs.Segments.{Actions};
ghost use Rattle.csicodec_streams.specs.{Colors.IsColored, Colors.plane_byte, Known.IsNormal, Private.Steps.IsColor, Private.Steps.IsPainted, Private.Steps.IsPart};
ghost use Rattle.csicodec_streams.specs.{Private.Steps.styles};
ghost use Rattle.csicodec_transform.specs.Known.{AreKnown};

use crate::normal::Normal;
use crate::position::take_position;
use csicodec_base::{ColorSpec, Sgr, SrgbaTuple, Text, TextBuffer};
use csicodec_transform::Memo;
use std::alloc::AllocError;
use std::simd::prelude::*;

/// A digit in front, and what is behind it.
#[inline(always)]
fn digit_front(bytes: &[u8]) -> Option<(u8, &[u8])>
    ensures { IfSome result (λ f. (f.0 < 10) × (bytes.now ≡ (48 + f.0) ∷ f.1.now)) }
{
    match bytes {
        [digit @ b'0'..=b'9', rest @ ..] => Some((*digit - b'0', rest)),
        _ => None,
    }
}

/// A part of a colour in front, without a 0 ahead, and what is behind it.
#[inline(always)]
fn part_front(bytes: &[u8]) -> Option<(u8, &[u8])>
    ensures { IfSome result (λ f. IsPart bytes.now f.0 f.1.now) }
{
    let (first, rest) = digit_front(bytes)?;
    let Some((second, behind)) = digit_front(rest) else {
        return Some((first, rest));
    };
    if first == 0 {
        return None;
    }
    let Some((third, last)) = digit_front(behind) else {
        return Some((10 * first + second, behind));
    };
    let number = 100 * u16::from(first) + 10 * u16::from(second) + u16::from(third);
    if number > 255 {
        return None;
    }
    Some((number as u8, last))
}

/// The colour behind its code and a `;` in front, `2;` and three parts or `5;` and one, and what is behind it.
#[inline(always)]
fn color_front(bytes: &[u8]) -> Option<(ColorSpec, &[u8])>
    ensures { IfSome result (λ f. IsColor bytes.now f.0 f.1.now) }
{
    let [kind, b';', parts @ ..] = bytes else {
        return None;
    };
    let (first, rest) = part_front(parts)?;
    if *kind == b'5' {
        return Some((ColorSpec::PaletteIndex(first), rest));
    }
    let [b';', behind @ ..] = rest else {
        return None;
    };
    let (green, next) = part_front(behind)?;
    let [b';', last @ ..] = next else {
        return None;
    };
    let (blue, end) = part_front(last)?;
    if *kind != b'2' {
        return None;
    }
    let color = SrgbaTuple(first, green, blue, 255);
    Some((ColorSpec::TrueColor(color), end))
}

/// The attribute that gives a colour to the plane of a code, by its first digit.
#[inline(always)]
fn painted(digit: u8, color: ColorSpec) -> Option<Sgr>
    ensures { IfSome result (λ sgr. (plane : Plane) × (digit ≡ plane_byte plane) × (sgr ≡ painted plane color)) }
{
    match digit {
        b'3' => Some(Sgr::Foreground(color)),
        b'4' => Some(Sgr::Background(color)),
        b'5' => Some(Sgr::UnderlineColor(color)),
        _ => None,
    }
}

/// The attribute that gives the colour in front, `38;2;r;g;b` or `38;5;n`, or with 48 or 58, and what is behind it.
#[inline(always)]
fn painted_front(bytes: &[u8]) -> Option<(Sgr, &[u8])>
    ensures { IfSome result (λ f. IsPainted bytes.now f.0 f.1.now) }
{
    let [digit, b'8', b';', behind @ ..] = bytes else {
        return None;
    };
    let (color, rest) = color_front(behind)?;
    Some((painted(*digit, color)?, rest))
}

/// The attribute of a sequence in front that gives one colour with semicolons, `38;2;r;g;b` or `38;5;n` before `m`, or with 48 or 58,
/// and what is behind it. It may be None of other spellings, as of a number with a 0 in front.
#[inline(always)]
pub fn read_color(bytes: &[u8]) -> Option<(Sgr, &[u8])>
    ensures spelled { IfSome result (λ f. IsColored bytes.now f.0 f.1.now) }
    ensures read { IfSome result (λ f. (list : List CsiParam) × Reads bytes.now list 109 f.1.now
        × Actions list false 109 (Styled f.0 ∷ [])) }
    ensures short { IfSome result (λ f. (length f.1.now ≤ length bytes.now) × (length bytes.now ≤ length f.1.now + 19)) }
{
    let [0x1b, b'[', behind @ ..] = bytes else {
        return None;
    };
    let (sgr, end) = painted_front(behind)?;
    let [b'm', rest @ ..] = end else {
        return None;
    };
    Some((sgr, rest))
}

/// The attributes of a sequence in front that gives one colour or two, and what is behind it.
#[inline(always)]
pub(crate) fn read_colors(bytes: &[u8]) -> Option<(Sgr, Option<Sgr>, &[u8])>
    ensures read { IfSome result (λ f. (list : List CsiParam) × Reads bytes.now list 109 f.2.now
        × ((flag : Bool) → Actions list flag 109 (styles f.0 f.1))) }
    ensures fewer { IfSome result (λ f. length f.2.now < length bytes.now) }
{
    let [0x1b, b'[', behind @ ..] = bytes else {
        return None;
    };
    let (first, end) = painted_front(behind)?;
    match end {
        [b'm', rest @ ..] => Some((first, None, rest)),
        [b';', more @ ..] => {
            let (second, last) = painted_front(more)?;
            let [b'm', rest @ ..] = last else {
                return None;
            };
            Some((first, Some(second), rest))
        }
        _ => None,
    }
}

/// Appends the normal form of an attribute. On `Err`, out of memory, the bytes stay.
#[inline(never)]
fn append_sgr(sgr: Sgr, out: &mut TextBuffer) -> Result<(), AllocError>
    ensures ok { OnOk result (out.new ≡ out.old ++ 27 ∷ 91 ∷ sgr_text sgr) }
    ensures err { OnErr result (out.new ≡ out.old) }
{
    let mut text = Text::new();
    text.push_str("\x1b[");
    sgr.write_to(&mut text);
    out.push_text(&text)
}

/// What begins with the normal form of a true colour in front, which has one byte more than its sequence. It may be None.
#[inline(always)]
pub fn color_text(bytes: &[u8]) -> Option<[u8; 24]>
    ensures { IfSome result (λ text. (sgr : Attribute) (rest : List ℕ) → IsColored bytes.now sgr rest
        → take (length bytes.now - length rest + 1) text ≡ 27 ∷ 91 ∷ sgr_text sgr) }
{
    match bytes {
        [_, _, digit, _, _, b'2', _, parts @ ..] if parts.len() >= 16 => {
            let lanes = u8x16::from_slice(parts);
            let colons = lanes
                .simd_eq(u8x16::splat(b';'))
                .select(u8x16::splat(b':'), lanes);
            let mut text = [0; 24];
            text[..8].copy_from_slice(&[0x1b, b'[', *digit, b'8', b':', b'2', b':', b':']);
            text[8..].copy_from_slice(&colons.to_array());
            Some(text)
        }
        _ => None,
    }
}

/// Appends the normal form of the colour in front. On `Err`, out of memory, the bytes stay.
#[inline(always)]
fn append_color(bytes: &[u8], sgr: Sgr, rest: &[u8], out: &mut TextBuffer) -> Result<(), AllocError>
    requires colored { IsColored bytes.now sgr rest.now }
    requires short { (length rest.now ≤ length bytes.now) × (length bytes.now ≤ length rest.now + 19) }
    ensures ok { OnOk result (out.new ≡ out.old ++ 27 ∷ 91 ∷ sgr_text sgr) }
    ensures err { OnErr result (out.new ≡ out.old) }
{
    match color_text(bytes) {
        Some(text) => out.push_front(&text, bytes.len() - rest.len() + 1),
        None => append_sgr(sgr, out),
    }
}

/// Appends the normal form of the colour in front, and answers how many bytes its sequence has; 0 where none is read, or without memory.
#[inline(never)]
fn take_color(bytes: &[u8], out: &mut TextBuffer) -> usize
    ensures normal { 0 < result
        → (text : List ℕ) × IsNormal (take result bytes.now) text × (out.new ≡ out.old ++ text) }
    ensures none { result ≡ 0 → out.new ≡ out.old }
    ensures within { result ≤ length bytes.now }
    ensures short { result ≤ 48 }
{
    let Some((sgr, rest)) = read_color(bytes) else {
        return 0;
    };
    match append_color(bytes, sgr, rest, out) {
        Ok(()) => bytes.len() - rest.len(),
        Err(_) => 0,
    }
}

/// Appends the normal form of a new sequence in front, if it is read at a glance: that of a position, or that of a colour, which is kept.
/// It answers how many bytes the sequence has, and 0 where it appends nothing.
#[inline(always)]
pub fn take_simple(memo: &mut Memo<Normal>, bytes: &[u8], out: &mut TextBuffer) -> usize
    requires { AreKnown IsNormal memo.old.slots.items }
    ensures normal { 0 < result
        → (text : List ℕ) × IsNormal (take result bytes.now) text × (out.new ≡ out.old ++ text) }
    ensures none { result ≡ 0 → out.new ≡ out.old }
    ensures within { result ≤ length bytes.now }
    ensures short { result ≤ 48 }
    ensures known { AreKnown IsNormal memo.new.slots.items }
{
    let moved = take_position(bytes, out);
    if moved > 0 {
        return moved;
    }
    let before = out.as_slice().len();
    let len = take_color(bytes, out);
    if len > 0 {
        let (_, text) = out.as_slice().split_at(before);
        memo.keep(bytes, len, text);
    }
    len
}
