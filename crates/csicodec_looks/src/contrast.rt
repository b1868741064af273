//! Text that can be read on its ground.
ghost use Rattle.std.specs.Prelude.{◌≡◌, ◌<◌, ◌≤◌, ◌+◌, ◌*◌, ℕ};
ghost use Rattle.csicodec_looks.specs.Contrast.{black_or_white, is_near, is_there, known, legible, light, luminance, on_ground, on_page, place_like};

use crate::xterm::palette;
use csicodec_base::{ColorSpec, SrgbaTuple};

const WHITE: SrgbaTuple = SrgbaTuple(255, 255, 255, 255);

const BLACK: SrgbaTuple = SrgbaTuple(0, 0, 0, 255);

/// The lightest ground that a browser has for a dark page.
const DARK: SrgbaTuple = SrgbaTuple(30, 30, 30, 255);

/// The light of a part of a colour, by a curve beside sRGB's.
fn light(part: u8) -> u64
    ensures same { result ≡ light part }
    ensures bounded { result ≤ 16581375000 }
{
    let part = part as u64;
    part * (part * (305 * part + 173910) + 845325)
}

/// The relative luminance of a colour: that of white is the greatest.
#[tactic(auto, unfolding(crate::specs::Contrast::luminance))]
fn luminance(color: SrgbaTuple) -> u64
    ensures same { result ≡ luminance color }
    ensures bounded { result ≤ 165813750000000 }
{
    2126 * light(color.0) + 7152 * light(color.1) + 722 * light(color.2)
}

/// Whether two colours can't be told from each other.
#[tactic(auto, unfolding(crate::specs::Contrast::are_near))]
fn is_near(one: SrgbaTuple, other: SrgbaTuple) -> bool
    ensures { result ≡ is_near one other }
{
    let one = luminance(one) + 8290687500000;
    let other = luminance(other) + 8290687500000;
    20 * one < 31 * other && 20 * other < 31 * one
}

/// The colour, if it is the same on a light and on a dark page.
pub(crate) fn known(color: ColorSpec) -> Option<SrgbaTuple>
    ensures { result ≡ known color }
{
    match color {
        ColorSpec::Default => None,
        ColorSpec::PaletteIndex(index) if index < 16 => None,
        ColorSpec::PaletteIndex(index) => Some(palette(index)),
        ColorSpec::TrueColor(color) => Some(color),
    }
}

/// The one of black and white that can be read on a ground.
fn black_or_white(ground: SrgbaTuple) -> SrgbaTuple
    ensures { result ≡ black_or_white ground }
{
    if luminance(ground) < 29846475000000 {
        WHITE
    } else {
        BLACK
    }
}

/// Text as it can be read on a ground that is known.
fn on_ground(ground: SrgbaTuple, text: ColorSpec) -> ColorSpec
    ensures { result ≡ on_ground ground text (known text) }
{
    if let Some(color) = known(text) {
        if !is_near(color, ground) {
            return text;
        }
    }
    ColorSpec::TrueColor(black_or_white(ground))
}

/// One, if a part of a colour is so great.
fn is_there(least: u8, part: u8) -> u8
    ensures same { result ≡ is_there least part }
    ensures bounded { result < 2 }
{
    if part < least { 0 } else { 1 }
}

/// The one of the places 0 to 7 that has the parts that are so great in a colour.
fn place_like(least: u8, color: SrgbaTuple) -> u8
    ensures same { result ≡ place_like least color }
    ensures bounded { result < 8 }
{
    is_there(least, color.0) + 2 * is_there(least, color.1) + 4 * is_there(least, color.2)
}

/// Text as it can be read on the page's own ground, be the page light or dark.
fn on_page(text: ColorSpec) -> ColorSpec
    ensures { result ≡ on_page text (known text) }
{
    let Some(color) = known(text) else {
        return text;
    };
    if is_near(color, WHITE) {
        return ColorSpec::PaletteIndex(8 + place_like(192, color));
    }
    if is_near(color, DARK) {
        return ColorSpec::PaletteIndex(place_like(64, color));
    }
    text
}

/// Text as it can be read on a ground.
pub(crate) fn legible(ground: ColorSpec, text: ColorSpec) -> ColorSpec
    ensures { result ≡ legible ground text }
{
    match known(ground) {
        Some(ground) => on_ground(ground, text),
        None => on_page(text),
    }
}
