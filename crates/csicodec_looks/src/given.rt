//! A palette as it is given: colours as texts.
ghost use Rattle.std.specs.Prelude.{◌≡◌, slice_get};
ghost use Rattle.csicodec_looks.specs.Given.{digit_of, digits_color, given_color, given_palette, part_of};

use crate::palette::Palette;
use csicodec_base::SrgbaTuple;

/// The value of a digit of base sixteen, of either case.
fn digit_of(code: u8) -> Option<u8>
    ensures { result ≡ digit_of code }
{
    match code {
        b'0'..=b'9' => Some(code - 48),
        b'a'..=b'f' => Some(code - 87),
        b'A'..=b'F' => Some(code - 55),
        _ => None,
    }
}

/// A part of a colour by its two digits.
fn part_of(high: u8, low: u8) -> Option<u8>
    ensures { result ≡ part_of (digit_of high) (digit_of low) }
{
    Some(digit_of(high)? * 16 + digit_of(low)?)
}

/// The colour of six digits.
fn digits_color(text: &[u8]) -> Option<SrgbaTuple>
    ensures { result ≡ digits_color text.now }
{
    let [a, b, c, d, e, f] = text else {
        return None;
    };
    Some(SrgbaTuple(part_of(*a, *b)?, part_of(*c, *d)?, part_of(*e, *f)?, 255))
}

/// The colour that is given by `#rrggbb`, in digits of base sixteen of either case; none by any other text.
///
/// ```text
/// given_color(b"#cd00Ff")         // Some(SrgbaTuple(205, 0, 255, 255))
/// ```
pub fn given_color(text: &[u8]) -> Option<SrgbaTuple>
    ensures { result ≡ given_color text.now }
{
    match text.split_first() {
        Some((b'#', digits)) => digits_color(digits),
        _ => None,
    }
}

/// The colour at a place, if there are so many.
fn nth(colors: &[SrgbaTuple], index: usize) -> Option<SrgbaTuple>
    ensures { result ≡ slice_get colors.now index }
{
    if index < colors.len() {
        Some(colors[index])
    } else {
        None
    }
}

/// The palette of 16 colours, and of 18 with the page's own: of text, and of what is behind it. None of any other number.
pub fn given_palette(colors: &[SrgbaTuple]) -> Option<Palette>
    ensures { result ≡ given_palette colors.now }
{
    if colors.len() != 16 && colors.len() != 18 {
        return None;
    }
    let first = *colors.first_chunk::<16>()?;
    Some(Palette {
        first: Some(first),
        foreground: nth(colors, 16),
        background: nth(colors, 17),
    })
}
