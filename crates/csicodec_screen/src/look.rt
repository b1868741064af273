//! How characters look, and with what they are drawn.
ghost use Rattle.std.specs.Prelude.{◌≡◌};
ghost use Rattle.csicodec_screen.specs.Cells.{behind, plain, plain_pen, with_intensity};

use csicodec_base::{Blink, ColorSpec, Intensity, Sgr, Underline};

/// How a character looks: what SGR sets (ECMA-48, 8.3.117; xterm, ctlseqs, "CSI Pm m").
#[derive(Clone, Copy, PartialEq, Eq, Debug)]
pub struct Look {
    pub bold: bool,
    pub faint: bool,
    pub italic: bool,
    /// The line below.
    pub underline: Underline,
    pub blink: Blink,
    /// Whether the colours of character and background change places.
    pub inverse: bool,
    /// Not to be seen, in its place.
    pub concealed: bool,
    /// Crossed out.
    pub struck: bool,
    /// With a line above.
    pub overlined: bool,
    pub foreground: ColorSpec,
    pub background: ColorSpec,
    /// The colour of the line below; the default is the character's.
    pub line: ColorSpec,
}

impl Look {
    /// Where nothing is set.
    pub fn plain() -> Look
        ensures { result ≡ plain }
    {
        Look {
            bold: false,
            faint: false,
            italic: false,
            underline: Underline::None,
            blink: Blink::None,
            inverse: false,
            concealed: false,
            struck: false,
            overlined: false,
            foreground: ColorSpec::Default,
            background: ColorSpec::Default,
            line: ColorSpec::Default,
        }
    }

    /// Bold and faint are set together or alone, and both are reset at once.
    fn set_intensity(&mut self, intensity: Intensity)
        ensures { self.new ≡ with_intensity self.old intensity }
    {
        match intensity {
            Intensity::Normal => {
                self.bold = false;
                self.faint = false;
            }
            Intensity::Bold => self.bold = true,
            Intensity::Half => self.faint = true,
        }
    }

    /// Characters look so behind one more attribute. Fonts and raised text aren't shown.
    pub fn set(&mut self, attribute: &Sgr)
        ensures { self.new ≡ behind self.old attribute.now }
    {
        match *attribute {
            Sgr::Reset => *self = Look::plain(),
            Sgr::Intensity(intensity) => self.set_intensity(intensity),
            Sgr::Underline(underline) => self.underline = underline,
            Sgr::UnderlineColor(line) => self.line = line,
            Sgr::Blink(blink) => self.blink = blink,
            Sgr::Italic(italic) => self.italic = italic,
            Sgr::Inverse(inverse) => self.inverse = inverse,
            Sgr::Invisible(concealed) => self.concealed = concealed,
            Sgr::StrikeThrough(struck) => self.struck = struck,
            Sgr::Foreground(foreground) => self.foreground = foreground,
            Sgr::Background(background) => self.background = background,
            Sgr::Overline(overlined) => self.overlined = overlined,
            Sgr::Font(_) | Sgr::VerticalAlign(_) => (),
        }
    }
}

/// What a character is drawn with.
#[derive(Clone, Copy, PartialEq, Eq, Debug)]
pub struct Pen {
    pub look: Look,
    /// The number of its link (OSC 8), from 1 on in the order in which addresses came, and 0 without one.
    pub link: u32,
    /// Whether it is protected (DECSCA, DEC VT510).
    pub protected: bool,
}

impl Pen {
    /// Without attributes, link and protection.
    pub fn plain() -> Pen
        ensures { result ≡ plain_pen }
    {
        Pen {
            look: Look::plain(),
            link: 0,
            protected: false,
        }
    }
}
