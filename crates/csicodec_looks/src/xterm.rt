//! Colours of fewer kinds.
ghost use Rattle.std.specs.Prelude.{◌≡◌, ◌<◌, ◌+◌, ◌-◌, get_or};
ghost use Rattle.csicodec_looks.specs.Xterm.{apart, distance, first_places, nearest_among, palette, reduced, reduced_color, rgb, square, step};

use csicodec_base::{ColorSpec, Sgr, SrgbaTuple};

/// Which colours stay.
#[derive(Clone, Copy, PartialEq, Eq, Debug)]
pub enum Depth {
    /// All, as they are.
    Full,
    /// The 256 places of the palette; a colour by its red, green and blue becomes the nearest place from 16 on.
    Palette,
    /// The first 16 places; every other colour becomes the nearest of them.
    Ansi,
}

/// A step of the cube, 0 to 5: 0, 95, 135, 175, 215 or 255.
fn step(index: u8) -> u8
    requires { index < 6 }
    ensures { result ≡ step index }
{
    if index == 0 {
        return 0;
    }
    55 + 40 * index
}

/// The colour of one of the first 16 places, as xterm has them where nobody chose others.
fn first_place(index: u8) -> SrgbaTuple
    requires { index < 16 }
    ensures { result ≡ get_or first_places index (rgb 0 0 0) }
{
    match index {
        0 => SrgbaTuple(0, 0, 0, 255),
        1 => SrgbaTuple(205, 0, 0, 255),
        2 => SrgbaTuple(0, 205, 0, 255),
        3 => SrgbaTuple(205, 205, 0, 255),
        4 => SrgbaTuple(0, 0, 238, 255),
        5 => SrgbaTuple(205, 0, 205, 255),
        6 => SrgbaTuple(0, 205, 205, 255),
        7 => SrgbaTuple(229, 229, 229, 255),
        8 => SrgbaTuple(127, 127, 127, 255),
        9 => SrgbaTuple(255, 0, 0, 255),
        10 => SrgbaTuple(0, 255, 0, 255),
        11 => SrgbaTuple(255, 255, 0, 255),
        12 => SrgbaTuple(92, 92, 255, 255),
        13 => SrgbaTuple(255, 0, 255, 255),
        14 => SrgbaTuple(0, 255, 255, 255),
        _ => SrgbaTuple(255, 255, 255, 255),
    }
}

/// The colour of a place of xterm's palette, from 0 to 255.
#[tactic(auto, unfolding(crate::specs::Xterm::palette))]
pub fn palette(index: u8) -> SrgbaTuple
    ensures { result ≡ palette index }
{
    if index < 16 {
        return first_place(index);
    }
    if index < 232 {
        let place = index - 16;
        return SrgbaTuple(step(place / 36), step(place / 6 % 6), step(place % 6), 255);
    }
    let light = 8 + 10 * (index - 232);
    SrgbaTuple(light, light, light, 255)
}

/// The square of the difference of two parts of a colour.
fn square_apart(one: u8, other: u8) -> u32
    ensures { result ≡ square (apart one other) }
{
    let apart = if one < other {
        other - one
    } else {
        one - other
    };
    apart as u32 * apart as u32
}

/// How far two colours are from each other: the squares of the differences of their parts, added up.
#[tactic(auto, unfolding(crate::specs::Xterm::distance))]
fn distance(one: SrgbaTuple, other: SrgbaTuple) -> u32
    ensures { result ≡ distance one other }
{
    square_apart(one.0, other.0) + square_apart(one.1, other.1) + square_apart(one.2, other.2)
}

/// The nearest of a place and those behind it, up to another: the first, where several are as near.
#[tactic(auto, using(crate::proofs::Reduced::none_more))]
fn nearest(color: SrgbaTuple, first: u8, last: u8) -> u8
    requires { first < last }
    ensures { result ≡ nearest_among color first (first + 1) (last - first) }
{
    let mut best = first;
    let mut least = distance(color, palette(first));
    let mut place = first;
    while place < last {
        place += 1;
        let here = distance(color, palette(place));
        if here < least {
            least = here;
            best = place;
        }
    }
    best
}

/// The colour among those that stay.
fn reduced_color(depth: Depth, color: ColorSpec) -> ColorSpec
    ensures { result ≡ reduced_color depth color }
{
    match (depth, color) {
        (Depth::Full, _) | (_, ColorSpec::Default) | (Depth::Palette, ColorSpec::PaletteIndex(_)) =>
            color,
        (Depth::Palette, ColorSpec::TrueColor(color)) => ColorSpec::PaletteIndex(nearest(
            color, 16, 255,
        )),
        (Depth::Ansi, ColorSpec::TrueColor(color)) => ColorSpec::PaletteIndex(nearest(
            color, 0, 15,
        )),
        (Depth::Ansi, ColorSpec::PaletteIndex(index)) => {
            if index < 16 {
                color
            } else {
                ColorSpec::PaletteIndex(nearest(palette(index), 0, 15))
            }
        }
    }
}

/// The attribute with its colour among those that stay.
pub fn reduced(depth: Depth, style: Sgr) -> Sgr
    ensures { result ≡ reduced depth style }
{
    match style {
        Sgr::Foreground(color) => Sgr::Foreground(reduced_color(depth, color)),
        Sgr::Background(color) => Sgr::Background(reduced_color(depth, color)),
        Sgr::UnderlineColor(color) => Sgr::UnderlineColor(reduced_color(depth, color)),
        _ => style,
    }
}
