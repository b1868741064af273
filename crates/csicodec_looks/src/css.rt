//! The declarations of CSS that say how text looks.
ghost use Rattle.std.specs.Prelude.{◌≡◌, ◌++◌, [], OnOk, codes, if◌then◌else◌};
ghost use Rattle.csicodec_looks.specs.Look.{colored, colors, css, line_color, line_kind, lines, property, slant, weight};

use crate::classes::Layer;
use crate::colors::{append_color, append_property_of};
use crate::look::{Look, is_default, is_none};
use crate::palette::{Palette, or_own};
use csicodec_base::{ColorSpec, Intensity, Underline};
use std::alloc::AllocError;

/// Appends the words, if they are to stand there.
fn append_if(is_there: bool, words: &[u8], out: &mut Vec<u8>) -> Result<(), AllocError>
    ensures { OnOk result (out.new.items ≡ out.old.items ++ (if is_there then words.now else [])) }
{
    if is_there {
        out.extend_from_slice(words)?;
    }
    Ok(())
}

/// Appends how strong the strokes are.
#[tactic(auto, unfolding(crate::specs::Look::weight))]
fn append_weight(intensity: Intensity, out: &mut Vec<u8>) -> Result<(), AllocError>
    ensures { OnOk result (out.new.items ≡ out.old.items ++ weight intensity) }
{
    match intensity {
        Intensity::Normal => Ok(()),
        Intensity::Bold => out.extend_from_slice(b"font-weight:bold;"),
        Intensity::Half => out.extend_from_slice(b"opacity:.7;"),
    }
}

/// Appends the kind of the lines, if it isn't a single one.
#[tactic(auto, unfolding(crate::specs::Look::line_kind))]
fn append_line_kind(underline: Underline, out: &mut Vec<u8>) -> Result<(), AllocError>
    ensures { OnOk result (out.new.items ≡ out.old.items ++ line_kind underline) }
{
    match underline {
        Underline::None | Underline::Single => Ok(()),
        Underline::Double => out.extend_from_slice(b" double"),
        Underline::Curly => out.extend_from_slice(b" wavy"),
        Underline::Dotted => out.extend_from_slice(b" dotted"),
        Underline::Dashed => out.extend_from_slice(b" dashed"),
    }
}

/// Appends the colour of the lines, if it isn't the text's.
#[tactic(auto, unfolding(crate::specs::Look::line_color))]
fn append_line_color(
    palette: &Palette,
    color: ColorSpec,
    out: &mut Vec<u8>,
) -> Result<(), AllocError>
    ensures { OnOk result (out.new.items ≡ out.old.items ++ line_color palette.now color) }
{
    if is_default(color) {
        return Ok(());
    }
    out.push(b' ')?;
    append_color(palette, Layer::Line, color, out)
}

/// Appends the lines: where they are, and how they look.
#[tactic(auto, unfolding(crate::specs::Look::lines))]
fn append_lines(palette: &Palette, look: Look, out: &mut Vec<u8>) -> Result<(), AllocError>
    ensures { OnOk result (out.new.items ≡ out.old.items ++ lines palette.now look) }
{
    if !look.has_line() {
        return Ok(());
    }
    out.extend_from_slice(b"text-decoration:")?;
    append_if(!is_none(look.underline), b" underline", out)?;
    append_if(look.overline, b" overline", out)?;
    append_if(look.strike, b" line-through", out)?;
    append_line_kind(look.underline, out)?;
    append_line_color(palette, look.line, out)?;
    Ok(out.push(b';')?)
}

/// Appends what a colour is of, and the colour.
#[tactic(auto, unfolding(crate::specs::Look::property))]
pub(crate) fn append_property(
    palette: &Palette,
    part: Layer,
    color: ColorSpec,
    out: &mut Vec<u8>,
) -> Result<(), AllocError>
    ensures { OnOk result (out.new.items ≡ out.old.items ++ property palette.now part color) }
{
    append_property_of(part, out)?;
    append_color(palette, part, color, out)?;
    Ok(out.push(b';')?)
}

/// Appends the same of a colour that isn't the page's own.
#[tactic(auto, unfolding(crate::specs::Look::colored))]
fn append_colored(
    palette: &Palette,
    part: Layer,
    color: ColorSpec,
    out: &mut Vec<u8>,
) -> Result<(), AllocError>
    ensures { OnOk result (out.new.items ≡ out.old.items ++ colored palette.now part color) }
{
    if is_default(color) {
        return Ok(());
    }
    append_property(palette, part, color, out)
}

/// Appends the colours of text and background, which may have changed places.
#[tactic(auto, unfolding(crate::specs::Look::colors))]
fn append_colors(palette: &Palette, look: Look, out: &mut Vec<u8>) -> Result<(), AllocError>
    ensures { OnOk result (out.new.items ≡ out.old.items ++ colors palette.now look) }
{
    if look.inverse {
        let text = or_own(palette.background, look.background);
        let ground = or_own(palette.foreground, look.foreground);
        append_property(palette, Layer::TextAsGround, text, out)?;
        return append_property(palette, Layer::GroundAsText, ground, out);
    }
    append_colored(palette, Layer::Text, look.foreground, out)?;
    append_colored(palette, Layer::Ground, look.background, out)
}

/// Appends the declarations of a look.
pub(crate) fn append_css(palette: &Palette, look: Look, out: &mut Vec<u8>) -> Result<(), AllocError>
    ensures { OnOk result (out.new.items ≡ out.old.items ++ css palette.now look) }
{
    append_weight(look.intensity, out)?;
    append_if(look.italic, b"font-style:italic;", out)?;
    append_lines(palette, look, out)?;
    append_colors(palette, look, out)
}
