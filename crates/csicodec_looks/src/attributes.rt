//! The tag that begins a span.
ghost use Rattle.std.specs.Prelude.{◌≡◌, ◌++◌, false, OnOk};
ghost use Rattle.csicodec_looks.specs.Classes.{attributes, classes_of, has_true, is_true, names, rest_attribute, style_attribute, true_color, true_colors};
ghost use Rattle.csicodec_looks.specs.{Look.css, Look.legible_look, Look.settled, Look.settled_color, Pieces.Begin, Pieces.piece_text};

use crate::classes::{Layer, append_classes};
use crate::colors::{append_parts, append_property_of};
use crate::contrast::{known, legible};
use crate::css::append_css;
use crate::look::Look;
use crate::markup::Markup;
use crate::palette::Palette;
use crate::xterm::palette;
use csicodec_base::ColorSpec;
use std::alloc::AllocError;

/// Whether it is a colour by its parts.
fn is_true(color: ColorSpec) -> bool
    ensures { result ≡ is_true color }
{
    matches!(color, ColorSpec::TrueColor(_))
}

/// Whether one of its colours is.
fn has_true(look: Look) -> bool
    ensures { result ≡ has_true look }
{
    let (text, ground) = look.colors();
    is_true(text) || is_true(ground) || is_true(look.lines_color())
}

/// Appends the declaration of a colour by its parts.
fn append_true(part: Layer, color: ColorSpec, out: &mut Vec<u8>) -> Result<(), AllocError>
    ensures { OnOk result (out.new.items ≡ out.old.items ++ true_color part color) }
{
    let ColorSpec::TrueColor(color) = color else {
        return Ok(());
    };
    append_property_of(part, out)?;
    append_parts(color, out)?;
    Ok(out.push(b';')?)
}

/// Appends those of all colours by their parts.
#[tactic(auto, unfolding(crate::specs::Classes::true_colors))]
fn append_true_colors(look: Look, out: &mut Vec<u8>) -> Result<(), AllocError>
    ensures { OnOk result (out.new.items ≡ out.old.items ++ true_colors look) }
{
    let (text, ground) = look.colors();
    append_true(Layer::Text, text, out)?;
    append_true(Layer::Ground, ground, out)?;
    append_true(Layer::Line, look.lines_color(), out)
}

/// Appends the style of what no class says, if there is anything.
fn append_rest(look: Look, out: &mut Vec<u8>) -> Result<(), AllocError>
    ensures { OnOk result (out.new.items ≡ out.old.items ++ rest_attribute look) }
{
    if !has_true(look) {
        return Ok(());
    }
    out.extend_from_slice(b" style=\"")?;
    append_true_colors(look, out)?;
    Ok(out.push(b'"')?)
}

/// The colour, for which xterm's stands where each page may have its own.
fn settled_color(color: ColorSpec) -> ColorSpec
    ensures { result ≡ settled_color color }
{
    match color {
        ColorSpec::PaletteIndex(index) if index < 16 => ColorSpec::TrueColor(palette(index)),
        _ => color,
    }
}

/// The look with text that can be read on its ground, with which it may have changed places.
fn legible_look(look: Look) -> Look
    ensures { result ≡ legible_look look }
{
    if look.inverse {
        Look {
            background: legible(look.foreground, look.background),
            ..look
        }
    } else {
        Look {
            foreground: legible(look.background, look.foreground),
            ..look
        }
    }
}

/// The look with colours that can be read beside each other: where one of them is the same on a light and on a dark page, both are,
/// and text that would be too near to its ground has another one.
fn settled(palette: &Palette, look: Look) -> Look
    ensures { result ≡ settled palette.now look }
{
    if palette.first.is_none()
        && (known(look.foreground).is_some() || known(look.background).is_some())
    {
        return legible_look(Look {
            foreground: settled_color(look.foreground),
            background: settled_color(look.background),
            ..look
        });
    }
    look
}

/// Appends the attributes of a span of this look: classes, and a style for colours by their parts.
fn append_classed(look: Look, out: &mut Vec<u8>) -> Result<(), AllocError>
    ensures { OnOk result
        (out.new.items ≡ out.old.items ++ (names false (classes_of look) ++ rest_attribute look)) }
{
    append_classes(&look.classes(), out)?;
    append_rest(look, out)
}

/// The same with a style for all.
fn append_styled(palette: &Palette, look: Look, out: &mut Vec<u8>) -> Result<(), AllocError>
    ensures { OnOk result
        (out.new.items ≡ out.old.items ++ style_attribute (css palette.now look)) }
{
    out.extend_from_slice(b" style=\"")?;
    append_css(palette, look, out)?;
    Ok(out.push(b'"')?)
}

/// Appends the attributes of a span that looks so, with colours that can be read beside each other.
fn append_attributes(markup: &Markup, look: Look, out: &mut Vec<u8>) -> Result<(), AllocError>
    ensures { OnOk result (out.new.items ≡ out.old.items ++ attributes markup.now look) }
{
    let shown = settled(&markup.palette, look);
    if markup.classes {
        append_classed(shown, out)
    } else {
        append_styled(&markup.palette, shown, out)
    }
}

/// Appends the tag that begins a span that looks so.
#[inline(never)]
pub(crate) fn append_span(markup: &Markup, look: Look, out: &mut Vec<u8>) -> Result<(), AllocError>
    ensures { OnOk result (out.new.items ≡ out.old.items ++ piece_text (Begin markup.now look)) }
{
    out.extend_from_slice(b"<span")?;
    append_attributes(markup, look, out)?;
    Ok(out.push(b'>')?)
}
