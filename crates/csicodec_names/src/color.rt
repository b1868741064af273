//! Colours, and the other values that an attribute of text can have.
ghost use Rattle.std.specs.Prelude.{◌≡◌, ◌↔◌, Some};
ghost use Rattle.csicodec_names.specs.Palette.{place_of};
ghost use Rattle.csicodec_names.specs.declared.color.ColorSpec.TheVariants as spec;

/// The names of the first 16 places of a terminal's palette. The first 8 are the colours that codes 30 to 37 and 40 to
/// 47 set (ECMA-48, 8.3.117), the others the bright ones behind them, 90 to 97 and 100 to 107 (aixterm, xterm).
///
/// ```text
/// ColorSpec::from(AnsiColor::Maroon)      // PaletteIndex(1), the colour of "\x1b[31m"
/// AnsiColor::from_u8(9)                   // Some(Red), the colour of "\x1b[91m"
/// ```
#[derive(Clone, Copy, PartialEq, Eq, Hash, Debug)]
pub enum AnsiColor {
    Black = 0,
    /// The red of ECMA-48.
    Maroon = 1,
    Green = 2,
    /// The yellow of ECMA-48.
    Olive = 3,
    /// The blue of ECMA-48.
    Navy = 4,
    /// The magenta of ECMA-48.
    Purple = 5,
    /// The cyan of ECMA-48.
    Teal = 6,
    /// The white of ECMA-48.
    Silver = 7,
    /// Bright black.
    Grey = 8,
    Red = 9,
    /// Bright green.
    Lime = 10,
    Yellow = 11,
    Blue = 12,
    /// Bright magenta.
    Fuchsia = 13,
    /// Bright cyan.
    Aqua = 14,
    White = 15,
}

impl AnsiColor {
    /// The place in the palette, 0 to 15.
    pub fn to_u8(&self) -> u8
        ensures { result ≡ place_of self.now }
    {
        *self as u8
    }

    /// The name of a place in the palette, and none from 16 on.
    pub fn from_u8(place: u8) -> Option<Self>
        ensures { (color : AnsiColor) → (result ≡ Some color) ↔ (place ≡ place_of color) }
    {
        numbered! { place, AnsiColor:
            0 Black, 1 Maroon, 2 Green, 3 Olive, 4 Navy, 5 Purple, 6 Teal, 7 Silver, 8 Grey, 9 Red, 10 Lime, 11 Yellow,
            12 Blue, 13 Fuchsia, 14 Aqua, 15 White,
        }
    }
}

/// A colour by its parts: red, green, blue and alpha, each 0 to 255. An alpha of 255 is opaque, 0 is unseen.
///
/// ```text
/// SrgbaTuple::from((255, 128, 0))         // SrgbaTuple(255, 128, 0, 255)
/// ```
#[derive(Clone, Copy, PartialEq, Eq, Hash, Debug)]
pub struct SrgbaTuple(pub u8, pub u8, pub u8, pub u8);

impl SrgbaTuple {
    /// Red, green, blue and alpha.
    pub fn to_srgb_u8(&self) -> (u8, u8, u8, u8)
        ensures { result ≡ (self.now.0, self.now.1, self.now.2, self.now.3) }
    {
        (self.0, self.1, self.2, self.3)
    }
}

/// Red, green and blue make an opaque colour.
impl From<(u8, u8, u8)> for SrgbaTuple {
    ghost from_gives = { λ parts color. color ≡ record { 0 = parts.0; 1 = parts.1; 2 = parts.2; 3 = 255 } };

    fn from((red, green, blue): (u8, u8, u8)) -> Self {
        SrgbaTuple(red, green, blue, 255)
    }
}

/// Red, green, blue and alpha.
impl From<(u8, u8, u8, u8)> for SrgbaTuple {
    ghost from_gives = { λ parts color. color ≡ record { 0 = parts.0; 1 = parts.1; 2 = parts.2; 3 = parts.3 } };

    fn from((red, green, blue, alpha): (u8, u8, u8, u8)) -> Self {
        SrgbaTuple(red, green, blue, alpha)
    }
}

/// Which colour a sequence asks for.
///
/// ```text
/// "\x1b[39m"                Default, of the character
/// "\x1b[38:5:200m"          PaletteIndex(200)
/// "\x1b[38:2::1:2:3m"       TrueColor(SrgbaTuple(1, 2, 3, 255))
/// ```
#[derive(Clone, Copy, PartialEq, Eq, Hash, Debug)]
pub enum ColorSpec {
    /// The terminal's own: of the character code 39 and of the ground 49 (ECMA-48), of an underline 59 (kitty, VTE).
    Default,
    /// A place in the palette, 0 to 255. The first 16 have names (`AnsiColor`); how the others look is the terminal's
    /// choice, in xterm a cube of 216 colours and 24 greys.
    PaletteIndex(u8),
    /// A colour by its parts (ISO/IEC 8613-6, which is ITU-T T.416; with an alpha, WezTerm).
    TrueColor(SrgbaTuple),
}

/// The terminal's own colour.
impl Default for ColorSpec {
    ghost is_default = { λ color. color ≡ spec.Default };

    fn default() -> Self {
        ColorSpec::Default
    }
}

/// The place in the palette that has the name.
impl From<AnsiColor> for ColorSpec {
    ghost from_gives = { λ named color. color ≡ spec.PaletteIndex (place_of named) };

    fn from(named: AnsiColor) -> Self {
        ColorSpec::PaletteIndex(named.to_u8())
    }
}

/// The colour of these parts.
impl From<SrgbaTuple> for ColorSpec {
    ghost from_gives = { λ parts color. color ≡ spec.TrueColor parts };

    fn from(parts: SrgbaTuple) -> Self {
        ColorSpec::TrueColor(parts)
    }
}

/// How strong the strokes of a character are (ECMA-48, 8.3.117).
#[derive(Clone, Copy, PartialEq, Eq, Hash, Debug)]
pub enum Intensity {
    /// Neither bold nor faint, code 22.
    Normal,
    /// Bold or increased intensity, code 1.
    Bold,
    /// Faint or decreased intensity, code 2.
    Half,
}

/// The line below a character: 21 and 24 are from ECMA-48, 8.3.117, the kinds behind a colon from kitty and VTE.
#[derive(Clone, Copy, PartialEq, Eq, Hash, Debug)]
pub enum Underline {
    /// No line, code 24 or `4:0`.
    None,
    /// One line, code 4 or `4:1`.
    Single,
    /// Two lines, code 21 or `4:2`.
    Double,
    /// A wavy line, `4:3`.
    Curly,
    /// A line of dots, `4:4`.
    Dotted,
    /// A line of dashes, `4:5`.
    Dashed,
}

/// Whether a character blinks, and how fast (ECMA-48, 8.3.117).
#[derive(Clone, Copy, PartialEq, Eq, Hash, Debug)]
pub enum Blink {
    /// Steady, code 25.
    None,
    /// Less than 150 times a minute, code 5.
    Slow,
    /// 150 times a minute or more, code 6.
    Rapid,
}

/// Where on its line a character stands (mintty).
#[derive(Clone, Copy, PartialEq, Eq, Hash, Debug)]
pub enum VerticalAlign {
    /// On the line, code 75.
    BaseLine,
    /// Raised and small, code 73.
    SuperScript,
    /// Lowered and small, code 74.
    SubScript,
}
