//! What the style sheet of a page has of the markup.
ghost use Rattle.std.specs.Prelude.{◌≡◌, ◌++◌, OnOk};
ghost use Rattle.csicodec_looks.specs.{Sheet.class_rules, Sheet.color_rules, Sheet.own_color, Sheet.own_colors, Sheet.rule_of, Sheet.sheet, Look.property};

use crate::classes::{Class, Layer, append_name};
use crate::colors::append_parts;
use crate::css::append_property;
use crate::markup::Markup;
use crate::palette::{Palette, or_own};
use csicodec_base::{ColorSpec, SrgbaTuple};
use std::alloc::AllocError;

/// What the classes mean that are no colours.
pub const RULES: &str = ".bold{font-weight:bold;}
.faint{opacity:.7;}
.italic{font-style:italic;}
.underline{text-decoration-line:underline;}
.overline{text-decoration-line:overline;}
.strike{text-decoration-line:line-through;}
.underline.overline{text-decoration-line:underline overline;}
.underline.strike{text-decoration-line:underline line-through;}
.overline.strike{text-decoration-line:overline line-through;}
.underline.overline.strike{text-decoration-line:underline overline line-through;}
.underline-double{text-decoration-style:double;}
.underline-curly{text-decoration-style:wavy;}
.underline-dotted{text-decoration-style:dotted;}
.underline-dashed{text-decoration-style:dashed;}
";

/// Appends a colour of the page's own, if one is given.
fn append_own(what: &[u8], given: Option<SrgbaTuple>, out: &mut Vec<u8>) -> Result<(), AllocError>
    ensures { OnOk result (out.new.items ≡ out.old.items ++ own_color what.now given) }
{
    let Some(color) = given else {
        return Ok(());
    };
    out.extend_from_slice(what)?;
    append_parts(color, out)?;
    Ok(out.push(b';')?)
}

/// Appends the page's own colours, and the end of the rule that they stand in.
#[tactic(auto, using(std::proofs::Common::append_assoc), unfolding(crate::specs::Sheet::own_colors))]
fn append_own_colors(palette: &Palette, out: &mut Vec<u8>) -> Result<(), AllocError>
    ensures { OnOk result (out.new.items ≡ out.old.items ++ own_colors palette.now) }
{
    append_own(b"color:", palette.foreground, out)?;
    append_own(b"background-color:", palette.background, out)?;
    out.extend_from_slice(b"}\n")?;
    Ok(())
}

/// Appends what a class means that is a colour's.
#[tactic(auto, using(std::proofs::Common::append_assoc))]
fn append_rule(
    palette: &Palette,
    class: Class,
    part: Layer,
    color: ColorSpec,
    out: &mut Vec<u8>,
) -> Result<(), AllocError>
    ensures { OnOk result
        (out.new.items ≡ out.old.items ++ rule_of class (property palette.now part color)) }
{
    out.push(b'.')?;
    append_name(class, out)?;
    out.push(b'{')?;
    append_property(palette, part, color, out)?;
    out.extend_from_slice(b"}\n")?;
    Ok(())
}

/// Appends what the classes of all colours of a part mean.
fn append_color_rules(palette: &Palette, part: Layer, out: &mut Vec<u8>) -> Result<(), AllocError>
    ensures { OnOk result (out.new.items ≡ out.old.items ++ color_rules palette.now part 256) }
{
    for place in 0..256u16 {
        let place = place as u8;
        let color = ColorSpec::PaletteIndex(place);
        append_rule(palette, Class::Color(part, place), part, color, out)?;
    }
    Ok(())
}

/// Appends what each class means.
fn append_class_rules(palette: &Palette, out: &mut Vec<u8>) -> Result<(), AllocError>
    ensures { OnOk result (out.new.items ≡ out.old.items ++ class_rules palette.now) }
{
    out.extend_from_slice(RULES.as_bytes())?;
    let text = or_own(palette.background, ColorSpec::Default);
    append_rule(palette, Class::TextAsGround, Layer::TextAsGround, text, out)?;
    let ground = or_own(palette.foreground, ColorSpec::Default);
    append_rule(
        palette,
        Class::GroundAsText,
        Layer::GroundAsText,
        ground,
        out,
    )?;
    append_color_rules(palette, Layer::Text, out)?;
    append_color_rules(palette, Layer::Ground, out)?;
    append_color_rules(palette, Layer::Line, out)?;
    append_color_rules(palette, Layer::TextAsGround, out)?;
    append_color_rules(palette, Layer::GroundAsText, out)
}

/// Appends what the style sheet of a page has of the markup: the page's own colours, and classes.
#[tactic(auto, using(std::proofs::Common::append_assoc), unfolding(crate::specs::Sheet::sheet))]
pub fn append_sheet(markup: &Markup, out: &mut Vec<u8>) -> Result<(), AllocError>
    ensures { OnOk result (out.new.items ≡ out.old.items ++ sheet markup.now) }
{
    append_own_colors(&markup.palette, out)?;
    if !markup.classes {
        return Ok(());
    }
    append_class_rules(&markup.palette, out)
}
