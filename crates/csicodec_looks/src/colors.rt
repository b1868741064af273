//! Colours as CSS has them.
ghost use Rattle.std.specs.Prelude.{◌≡◌, ◌<◌, ◌≤◌, ◌++◌, [], OnOk, drop, get_or, length, take};
ghost use Rattle.csicodec_looks.specs.{Look.color_text, Look.hex_color, Look.hex_digit, Look.own_name, Look.property_of, Palette.pair_of, Palette.pairs};

use crate::classes::Layer;
use crate::palette::Palette;
use csicodec_base::{ColorSpec, SrgbaTuple};
use std::alloc::AllocError;

/// A digit of base sixteen.
fn hex_digit(value: u8) -> u8
    requires { value < 16 }
    ensures { result ≡ hex_digit value }
{
    if value < 10 { value + 48 } else { value + 87 }
}

/// Appends a colour by its parts. Its alpha isn't looked at.
pub(crate) fn append_parts(color: SrgbaTuple, out: &mut Vec<u8>) -> Result<(), AllocError>
    ensures { OnOk result (out.new.items ≡ out.old.items ++ hex_color color) }
{
    out.extend_from_slice(&[
        b'#',
        hex_digit(color.0 / 16),
        hex_digit(color.0 % 16),
        hex_digit(color.1 / 16),
        hex_digit(color.1 % 16),
        hex_digit(color.2 / 16),
        hex_digit(color.2 % 16),
    ])
}

/// Appends the name of the property of a colour.
pub(crate) fn append_property_of(part: Layer, out: &mut Vec<u8>) -> Result<(), AllocError>
    ensures { OnOk result (out.new.items ≡ out.old.items ++ property_of part) }
{
    match part {
        Layer::Text | Layer::TextAsGround => out.extend_from_slice(b"color:"),
        Layer::Ground | Layer::GroundAsText => out.extend_from_slice(b"background-color:"),
        Layer::Line => out.extend_from_slice(b"text-decoration-color:"),
    }
}

/// Appends the name of the page's own colour that a part has where text and what is behind it change places.
fn append_own_name(part: Layer, out: &mut Vec<u8>) -> Result<(), AllocError>
    ensures { OnOk result (out.new.items ≡ out.old.items ++ own_name part) }
{
    match part {
        Layer::TextAsGround => out.extend_from_slice(b"Canvas"),
        Layer::GroundAsText => out.extend_from_slice(b"CanvasText"),
        Layer::Text | Layer::Ground | Layer::Line => Ok(()),
    }
}

/// The colours of one of the first 16 places where none are given, on a light page and on a dark one: of text, and behind these 27 bytes
/// those of what is behind it.
fn pair(place: u8) -> &'static [u8]
    requires { place < 16 }
    ensures long { 27 ≤ length result.now }
    ensures text { take 27 result.now ≡ (get_or pairs place ([], [])).0 }
    ensures ground { drop 27 result.now ≡ (get_or pairs place ([], [])).1 }
{
    match place {
        0 => b"light-dark(#000000,#a9b1ba)light-dark(#d8dde2,#000000)",
        1 => b"light-dark(#9f0017,#ff8e86)light-dark(#fed3ce,#581c1a)",
        2 => b"light-dark(#015a14,#5fc366)light-dark(#b7eab8,#04390c)",
        3 => b"light-dark(#634901,#dca603)light-dark(#f7da9c,#3f2d00)",
        4 => b"light-dark(#0049a3,#7ab0ff)light-dark(#c9dffe,#0f2f5d)",
        5 => b"light-dark(#890092,#e68eec)light-dark(#fdceff,#49204c)",
        6 => b"light-dark(#03565e,#00c0cf)light-dark(#93ebf4,#00363b)",
        7 => b"light-dark(#3d444d,#d5dbe1)light-dark(#eef0f2,#31373d)",
        8 => b"light-dark(#57606a,#b4bcc5)light-dark(#e2e6ea,#262b31)",
        9 => b"light-dark(#bf001d,#ffb3ac)light-dark(#ffe4e1,#6f2120)",
        10 => b"light-dark(#006e1a,#77db7d)light-dark(#bdf9bd,#00470d)",
        11 => b"light-dark(#795900,#f6bd2a)light-dark(#ffe8b8,#4f3900)",
        12 => b"light-dark(#005ac4,#a3c8fe)light-dark(#deebfe,#123b76)",
        13 => b"light-dark(#a600b1,#faaafe)light-dark(#fee1ff,#5c2760)",
        14 => b"light-dark(#046871,#04daeb)light-dark(#aef6fe,#00434a)",
        _ => b"light-dark(#24292f,#ffffff)light-dark(#ffffff,#3a4148)",
    }
}

/// Appends the colours of a place: those of text for what text has, also where it changed places with what is behind it.
fn append_pair(part: Layer, place: u8, out: &mut Vec<u8>) -> Result<(), AllocError>
    requires { place < 16 }
    ensures { OnOk result (out.new.items ≡ out.old.items ++ pair_of part place) }
{
    let (text, ground) = pair(place).split_at(27);
    match part {
        Layer::Text | Layer::Line | Layer::GroundAsText => out.extend_from_slice(text),
        Layer::Ground | Layer::TextAsGround => out.extend_from_slice(ground),
    }
}

/// Appends a colour, or the name of the page's own.
pub(crate) fn append_color(
    palette: &Palette,
    part: Layer,
    color: ColorSpec,
    out: &mut Vec<u8>,
) -> Result<(), AllocError>
    ensures { OnOk result (out.new.items ≡ out.old.items ++ color_text palette.now part color) }
{
    match color {
        ColorSpec::Default => append_own_name(part, out),
        ColorSpec::PaletteIndex(index) => match palette.color(index) {
            Some(color) => append_parts(color, out),
            None => append_pair(part, index, out),
        },
        ColorSpec::TrueColor(color) => append_parts(color, out),
    }
}
