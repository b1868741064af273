//! The longest spelling of an attribute at the front of a list before `m`.
ghost use Rattle.std.specs.{Prelude.◌≡◌, Prelude.◌∷◌, Prelude.◌<◌, Prelude.◌≤◌, Prelude.List, Prelude.[], Prelude.IfSome, Prelude.None, Prelude.Some, Prelude.pos};
ghost use Rattle.std.specs.{Prelude.take, Prelude.length, Option.option_map};
ghost use Rattle.csicodec_names.specs.Numbers.{number_of};
ghost use Rattle.csicodec_base.specs.Shapes.{byte_of, color_of_tokens, color_shapes, four_shape, palette_shapes, three_shape, underline_rows};
ghost use Rattle.csicodec_base.specs.{Attributes.action_of as attribute_of, FrontBy.behind_space, FrontBy.captured, FrontBy.color_by, FrontBy.front_by, FrontBy.piece};
ghost use Rattle.csicodec_base.specs.{FrontBy.spaced_by, Pieces.IsFront};
ghost use Rattle.csicodec_tokens.specs.{declared.param.CsiParam.CsiParam, declared.param.CsiParam.TheVariants.Integer};

use crate::ready::attribute_alone;
use crate::sgr::Sgr;
use csicodec_names::{ColorSpec, SgrCode, SrgbaTuple, Underline};
use csicodec_tokens::CsiParam::{self, Integer, P};

/// The longest piece of the table of attributes at the front of a parameter list before `m`, and its number of tokens,
/// without the `;` after it.
///
/// It is none for an empty list, and where the front is unknown: no attribute begins with it, or a part of the colour
/// that its longest shape spells is not a number from 0 to 255. No more than the first 13 tokens decide it.
///
/// The table is that of ECMA-48, 8.3.117, with the colours behind 38 and 48 as ISO/IEC 8613-6 has them or with
/// semicolons (xterm), and with what terminals have added since; see `SgrCode`.
///
/// ```text
/// sgr_front(&[Integer(1), P(b';'), Integer(3)])                       // Some((Intensity(Bold), 1))
/// sgr_front(&[Integer(38), P(b';'), Integer(5), P(b';'), Integer(9)])  // Some((Foreground(PaletteIndex(9)), 5))
/// sgr_front(&[Integer(38)])                                           // None
/// ```
#[inline(always)]
pub fn sgr_front(rest: &[CsiParam]) -> Option<(Sgr, usize)>
    ensures piece { IsFront rest.now result }
    // It is the answer for every list with the same first 13 tokens.
    ensures near { (list : List CsiParam) → take 13 list ≡ take 13 rest.now → IsFront list result }
    ensures within { IfSome result (λ f. (0 < f.1) × (f.1 ≤ length rest.now)) }
{
    match rest {
        [] => None,
        [P(mark), ..] if *mark != b';' => None,
        [P(_), ..] => Some((Sgr::Reset, 1)),
        [Integer(number), after @ ..] => {
            let code = SgrCode::from_i64(*number)?;
            match attribute_alone(*number) {
                Some(sgr) => Some((sgr, 1)),
                None => code_front(code, after),
            }
        }
    }
}

/// The piece that begins with a code that sets no attribute alone, by the tokens behind it.
#[tactic(auto, using(crate::proofs::Table::front_38, crate::proofs::Table::front_48, crate::proofs::Table::front_58, crate::proofs::Table::color_front, crate::proofs::Table::underline_front))]
fn code_front(code: SgrCode, after: &[CsiParam]) -> Option<(Sgr, usize)>
    requires { attribute_of code ≡ None }
    ensures { result ≡ piece (Integer (pos (number_of code)) ∷ after.now) }
{
    match code {
        SgrCode::UnderlineOn => Some(underline_front(after)),
        SgrCode::ForegroundColor => {
            let (color, tokens) = color_front(after)?;
            Some((Sgr::Foreground(color), tokens))
        }
        SgrCode::BackgroundColor => {
            let (color, tokens) = color_front(after)?;
            Some((Sgr::Background(color), tokens))
        }
        SgrCode::UnderlineColor => {
            let (color, tokens) = color_front(after)?;
            Some((Sgr::UnderlineColor(color), tokens))
        }
        _ => None,
    }
}

/// The underline behind its code: the kind behind a colon, or none.
fn underline_front(after: &[CsiParam]) -> (Sgr, usize)
    ensures { Some result ≡ front_by 1 underline_rows after.now }
{
    match after {
        [P(b':'), Integer(0), ..] => (Sgr::Underline(Underline::None), 3),
        [P(b':'), Integer(1), ..] => (Sgr::Underline(Underline::Single), 3),
        [P(b':'), Integer(2), ..] => (Sgr::Underline(Underline::Double), 3),
        [P(b':'), Integer(3), ..] => (Sgr::Underline(Underline::Curly), 3),
        [P(b':'), Integer(4), ..] => (Sgr::Underline(Underline::Dotted), 3),
        [P(b':'), Integer(5), ..] => (Sgr::Underline(Underline::Dashed), 3),
        _ => (Sgr::Underline(Underline::Single), 1),
    }
}

/// The colour behind its code, and the number of tokens with the code.
fn color_front(after: &[CsiParam]) -> Option<(ColorSpec, usize)>
    ensures { result ≡ color_by 1 color_shapes after.now }
{
    let [P(mark), Integer(kind), P(second), parts @ ..] = after else {
        return None;
    };
    match (*mark, *kind, *second) {
        (b':', 6, b':') => rgba_front(parts),
        (b':', 2, b':') => rgb_front(parts),
        (b';', 2, b';') => three_front(parts, b';'),
        (b':', 5, b':') | (b';', 5, b';') => palette_front(parts),
        _ => None,
    }
}

/// What stands behind a colour space, or behind the colon of one that is left out, and how many tokens are ahead of it.
fn behind_space(parts: &[CsiParam]) -> Option<(&[CsiParam], usize)>
    ensures behind { option_map (λ f. (f.0.now, f.1)) result ≡ behind_space parts.now }
    ensures short { IfSome result (λ f. f.1 ≤ 2) }
{
    match parts {
        [Integer(_), P(b':'), rest @ ..] => Some((rest, 2)),
        [P(b':'), rest @ ..] => Some((rest, 1)),
        _ => None,
    }
}

/// Red, green, blue and alpha behind `38:6:`, and the number of tokens with these four.
fn rgba_front(parts: &[CsiParam]) -> Option<(ColorSpec, usize)>
    ensures { result ≡ spaced_by 4 four_shape parts.now (behind_space parts.now) }
{
    if let Some((rest, space)) = behind_space(parts)
        && let Some(channels) = four_parts(rest)
    {
        return rgba(channels, 11 + space);
    }
    four_front(parts)
}

/// The same where no colour space stands.
fn four_front(parts: &[CsiParam]) -> Option<(ColorSpec, usize)>
    ensures { result ≡ color_by 4 (four_shape ∷ []) parts.now }
{
    rgba(four_parts(parts)?, 11)
}

/// Red, green and blue behind `38:2:`, and the number of tokens with these four.
fn rgb_front(parts: &[CsiParam]) -> Option<(ColorSpec, usize)>
    ensures { result ≡ spaced_by 4 (three_shape 58) parts.now (behind_space parts.now) }
{
    if let Some((rest, space)) = behind_space(parts)
        && let Some(channels) = three_parts(rest, b':')
    {
        return rgb(channels, 9 + space);
    }
    three_front(parts, b':')
}

/// The same with this mark between them, where no colour space stands.
fn three_front(parts: &[CsiParam], mark: u8) -> Option<(ColorSpec, usize)>
    ensures { result ≡ color_by 4 (three_shape mark ∷ []) parts.now }
{
    rgb(three_parts(parts, mark)?, 9)
}

/// A place in the palette behind `38:5:` or `38;5;`.
fn palette_front(parts: &[CsiParam]) -> Option<(ColorSpec, usize)>
    ensures { result ≡ color_by 4 palette_shapes parts.now }
{
    let index = byte(parts.first()?)?;
    Some((ColorSpec::PaletteIndex(index), 5))
}

/// Three tokens at the front with the mark between them.
fn three_parts(parts: &[CsiParam], mark: u8) -> Option<[CsiParam; 3]>
    ensures { result ≡ captured (three_shape mark) parts.now }
{
    match parts {
        [red, P(first), green, P(second), blue, ..] if *first == mark && *second == mark => {
            Some([*red, *green, *blue])
        }
        _ => None,
    }
}

/// Four tokens at the front with colons between them.
fn four_parts(parts: &[CsiParam]) -> Option<[CsiParam; 4]>
    ensures { result ≡ captured four_shape parts.now }
{
    match parts {
        [red, P(b':'), green, P(b':'), blue, P(b':'), alpha, ..] => {
            Some([*red, *green, *blue, *alpha])
        }
        _ => None,
    }
}

/// The colour of these channels, and this number of tokens.
fn rgb(channels: [CsiParam; 3], tokens: usize) -> Option<(ColorSpec, usize)>
    ensures { result ≡ option_map (λ c. (c, tokens)) (color_of_tokens channels) }
{
    let [red, green, blue] = channels;
    let color = SrgbaTuple(byte(&red)?, byte(&green)?, byte(&blue)?, 255);
    Some((ColorSpec::TrueColor(color), tokens))
}

fn rgba(channels: [CsiParam; 4], tokens: usize) -> Option<(ColorSpec, usize)>
    ensures { result ≡ option_map (λ c. (c, tokens)) (color_of_tokens channels) }
{
    let [red, green, blue, alpha] = channels;
    let color = SrgbaTuple(byte(&red)?, byte(&green)?, byte(&blue)?, byte(&alpha)?);
    Some((ColorSpec::TrueColor(color), tokens))
}

/// A part of a colour.
fn byte(param: &CsiParam) -> Option<u8>
    ensures { result ≡ byte_of param.now }
{
    match param {
        Integer(number) => u8::try_from(*number).ok(),
        P(_) => None,
    }
}
