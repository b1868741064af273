//! How text looks by the attributes that are set.
ghost use Rattle.std.specs.Prelude.{◌≡◌};
ghost use Rattle.csicodec_looks.specs.Look.{behind, has_line, is_default, is_none, is_plain, plain};

use csicodec_base::{ColorSpec, Intensity, Sgr, Underline};

/// What a page shows of the attributes of text.
#[derive(Clone, Copy, PartialEq, Eq, Debug)]
pub struct Look {
    /// Bold or faint.
    pub intensity: Intensity,
    /// Italicized or not.
    pub italic: bool,
    /// The line below.
    pub underline: Underline,
    /// The colour of that line; the default is the text's.
    pub line: ColorSpec,
    /// A line above, or none.
    pub overline: bool,
    /// Crossed out or not.
    pub strike: bool,
    /// Whether the colours of text and ground change places.
    pub inverse: bool,
    /// The colour of the text.
    pub foreground: ColorSpec,
    /// The colour of the ground.
    pub background: ColorSpec,
}

/// Whether it is the page's own colour.
pub(crate) fn is_default(color: ColorSpec) -> bool
    ensures { result ≡ is_default color }
{
    matches!(color, ColorSpec::Default)
}

/// Whether there is no line below.
pub(crate) fn is_none(underline: Underline) -> bool
    ensures { result ≡ is_none underline }
{
    matches!(underline, Underline::None)
}

impl Look {
    /// Where nothing is set.
    pub fn plain() -> Look
        ensures { result ≡ plain }
    {
        Look {
            intensity: Intensity::Normal,
            italic: false,
            underline: Underline::None,
            line: ColorSpec::Default,
            overline: false,
            strike: false,
            inverse: false,
            foreground: ColorSpec::Default,
            background: ColorSpec::Default,
        }
    }

    /// Whether there is a line below, above or through it.
    pub(crate) fn has_line(self) -> bool
        ensures { result ≡ has_line self }
    {
        !is_none(self.underline) || self.overline || self.strike
    }

    /// Whether it looks as text without attributes.
    pub fn is_plain(self) -> bool
        ensures { result ≡ is_plain self }
    {
        matches!(self.intensity, Intensity::Normal)
            && !self.italic
            && !self.has_line()
            && !self.inverse
            && is_default(self.foreground)
            && is_default(self.background)
    }

    /// Text looks so behind one more attribute. What is concealed is shown; blinking, fonts and raised text aren't.
    #[inline(always)]
    pub fn set(&mut self, attribute: &Sgr)
        ensures { self.new ≡ behind self.old attribute.now }
    {
        match *attribute {
            Sgr::Reset => *self = Look::plain(),
            Sgr::Intensity(intensity) => self.intensity = intensity,
            Sgr::Underline(underline) => self.underline = underline,
            Sgr::UnderlineColor(line) => self.line = line,
            Sgr::Italic(italic) => self.italic = italic,
            Sgr::Inverse(inverse) => self.inverse = inverse,
            Sgr::StrikeThrough(strike) => self.strike = strike,
            Sgr::Foreground(foreground) => self.foreground = foreground,
            Sgr::Background(background) => self.background = background,
            Sgr::Overline(overline) => self.overline = overline,
            Sgr::Blink(_) | Sgr::Invisible(_) | Sgr::Font(_) | Sgr::VerticalAlign(_) => (),
        }
    }
}
