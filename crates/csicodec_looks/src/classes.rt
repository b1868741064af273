//! Classes of CSS that say how text looks.
ghost use Rattle.std.specs.Prelude.{◌≡◌, ◌++◌, [], ◌∷◌, false, IfOk, OnOk};
ghost use Rattle.csicodec_looks.specs.Classes.{ahead, behind_slot, class_if, class_name, classes_of, color_class, ground_color, ground_part, lines_class, lines_color, names, part_name, slot_text, text_color, text_part, weight_class};

use crate::look::{Look, is_none};
use csicodec_base::{ColorSpec, Intensity, Underline};
use csicodec_tokens::Text as Short;
use std::alloc::AllocError;

/// What a colour is of.
#[derive(Clone, Copy)]
pub enum Layer {
    Text,
    Ground,
    /// The lines below, above and through text.
    Line,
    /// Text in the colour of what was behind it, since the two changed places.
    TextAsGround,
    /// What is behind text, in the colour of that.
    GroundAsText,
}

/// A class that a span may have.
#[derive(Clone, Copy)]
pub enum Class {
    Bold,
    Faint,
    Italic,
    /// A line below of any kind.
    Underline,
    Double,
    Curly,
    Dotted,
    Dashed,
    Overline,
    Strike,
    /// Text has the page's own background, since the two changed places.
    TextAsGround,
    /// The background has the page's own colour of text.
    GroundAsText,
    /// The colour of a place of the palette, from 0 to 255.
    Color(Layer, u8),
}

/// The class, if it is there.
fn class_if(is_there: bool, class: Class) -> Option<Class>
    ensures { result ≡ class_if is_there class }
{
    if is_there { Some(class) } else { None }
}

/// How strong the strokes are.
fn weight_class(intensity: Intensity) -> Option<Class>
    ensures { result ≡ weight_class intensity }
{
    match intensity {
        Intensity::Normal => None,
        Intensity::Bold => Some(Class::Bold),
        Intensity::Half => Some(Class::Faint),
    }
}

/// The kind of the lines, if it isn't a single one.
fn lines_class(underline: Underline) -> Option<Class>
    ensures { result ≡ lines_class underline }
{
    match underline {
        Underline::None | Underline::Single => None,
        Underline::Double => Some(Class::Double),
        Underline::Curly => Some(Class::Curly),
        Underline::Dotted => Some(Class::Dotted),
        Underline::Dashed => Some(Class::Dashed),
    }
}

/// A colour by its number, and `own` for the page's own.
fn color_class(part: Layer, own: Option<Class>, color: ColorSpec) -> Option<Class>
    ensures { result ≡ color_class part own color }
{
    match color {
        ColorSpec::Default => own,
        ColorSpec::PaletteIndex(index) => Some(Class::Color(part, index)),
        ColorSpec::TrueColor(_) => None,
    }
}

impl Look {
    /// What the colour of its text is of, and that behind it.
    fn parts(self) -> (Layer, Layer)
        ensures text { result.0 ≡ text_part self }
        ensures ground { result.1 ≡ ground_part self }
    {
        if self.inverse {
            (Layer::TextAsGround, Layer::GroundAsText)
        } else {
            (Layer::Text, Layer::Ground)
        }
    }

    /// The colour that text has, and that behind it.
    pub(crate) fn colors(self) -> (ColorSpec, ColorSpec)
        ensures text { result.0 ≡ text_color self }
        ensures ground { result.1 ≡ ground_color self }
    {
        if self.inverse {
            (self.background, self.foreground)
        } else {
            (self.foreground, self.background)
        }
    }

    /// The colour of the lines, if there are any.
    pub(crate) fn lines_color(self) -> ColorSpec
        ensures { result ≡ lines_color self }
    {
        if self.has_line() {
            self.line
        } else {
            ColorSpec::Default
        }
    }

    /// The classes of a span that looks so, each in a place of its own.
    pub(crate) fn classes(self) -> [Option<Class>; 9]
        ensures { result ≡ classes_of self }
    {
        let (text_part, ground_part) = self.parts();
        let (text, ground) = self.colors();
        let text_own = class_if(self.inverse, Class::TextAsGround);
        let ground_own = class_if(self.inverse, Class::GroundAsText);
        [
            weight_class(self.intensity),
            class_if(self.italic, Class::Italic),
            class_if(!is_none(self.underline), Class::Underline),
            lines_class(self.underline),
            class_if(self.overline, Class::Overline),
            class_if(self.strike, Class::Strike),
            color_class(text_part, text_own, text),
            color_class(ground_part, ground_own, ground),
            color_class(Layer::Line, None, self.lines_color()),
        ]
    }
}

/// Appends the begin of the name of a colour.
fn append_part(part: Layer, out: &mut Vec<u8>) -> Result<(), AllocError>
    ensures { OnOk result (out.new.items ≡ out.old.items ++ part_name part) }
{
    match part {
        Layer::Text => out.extend_from_slice(b"fg-"),
        Layer::Ground => out.extend_from_slice(b"bg-"),
        Layer::Line => out.extend_from_slice(b"line-"),
        Layer::TextAsGround => out.extend_from_slice(b"fg-background-"),
        Layer::GroundAsText => out.extend_from_slice(b"bg-foreground-"),
    }
}

/// Appends the name of a class.
pub(crate) fn append_name(class: Class, out: &mut Vec<u8>) -> Result<(), AllocError>
    ensures { OnOk result (out.new.items ≡ out.old.items ++ class_name class) }
{
    match class {
        Class::Bold => out.extend_from_slice(b"bold"),
        Class::Faint => out.extend_from_slice(b"faint"),
        Class::Italic => out.extend_from_slice(b"italic"),
        Class::Underline => out.extend_from_slice(b"underline"),
        Class::Double => out.extend_from_slice(b"underline-double"),
        Class::Curly => out.extend_from_slice(b"underline-curly"),
        Class::Dotted => out.extend_from_slice(b"underline-dotted"),
        Class::Dashed => out.extend_from_slice(b"underline-dashed"),
        Class::Overline => out.extend_from_slice(b"overline"),
        Class::Strike => out.extend_from_slice(b"strike"),
        Class::TextAsGround => out.extend_from_slice(b"fg-background"),
        Class::GroundAsText => out.extend_from_slice(b"bg-foreground"),
        Class::Color(part, place) => {
            append_part(part, out)?;
            let mut number = Short::new();
            number.push_u8(place);
            number.append_to(out)
        }
    }
}

/// Appends what stands ahead of a class: of the first the begin of the attribute.
fn append_ahead(came: bool, out: &mut Vec<u8>) -> Result<(), AllocError>
    ensures { OnOk result (out.new.items ≡ out.old.items ++ ahead came) }
{
    if came {
        return Ok(out.push(b' ')?);
    }
    out.extend_from_slice(b" class=\"")
}

/// Appends a class, if it is there; whether one came by now.
fn append_slot(came: bool, slot: Option<Class>, out: &mut Vec<u8>) -> Result<bool, AllocError>
    ensures text { OnOk result (out.new.items ≡ out.old.items ++ slot_text came slot) }
    ensures came { IfOk result (λ now. now ≡ behind_slot came slot) }
{
    let Some(class) = slot else {
        return Ok(came);
    };
    append_ahead(came, out)?;
    append_name(class, out)?;
    Ok(true)
}

/// Appends the attribute of these classes, if one is there.
pub(crate) fn append_classes(slots: &[Option<Class>], out: &mut Vec<u8>) -> Result<(), AllocError>
    ensures { OnOk result (out.new.items ≡ out.old.items ++ names false slots.now) }
{
    let mut came = false;
    let mut rest = slots;
    while let Some((slot, behind)) = rest.split_first() {
        came = append_slot(came, *slot, out)?;
        rest = behind;
    }
    if came {
        out.push(b'"')?;
    }
    Ok(())
}
