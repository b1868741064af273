//! Attributes of text (SGR), and the texts that set them.
ghost use Rattle.std.specs.{Prelude.◌≡◌, Prelude.◌+◌, Prelude.◌≤◌, Prelude.◌++◌, Prelude.Some, Prelude.length, Prelude.codes, Fmt.decimal};
ghost use Rattle.csicodec_base.specs.SgrText.{font_text, palette_text, sgr_text, true_color_text};

use csicodec_names::{Blink, ColorSpec, Intensity, SrgbaTuple, Underline, VerticalAlign};
use csicodec_tokens::Text;
use std::fmt;

/// The font of a character (ECMA-48, 8.3.117).
#[derive(Clone, Copy, PartialEq, Eq, Debug)]
pub enum Font {
    /// The primary font, code 10.
    Default,
    /// An alternative font by its number from 1 to 9, codes 11 to 19. Another number stands for no font and has no text, not
    /// even a final byte: `ESC [` alone is printed for it, which makes a terminal take what follows for the rest of the
    /// sequence. `CSI::is_canonical` is false of it.
    Alternate(u8),
}

/// An attribute of text: what one parameter of `CSI .. m` sets (SGR, "select graphic rendition"; ECMA-48, 8.3.117).
/// It holds for the characters that follow, until it is set anew. It prints its parameters and the `m`; `CSI` prints the
/// `ESC [` too.
///
/// ```text
/// "\x1b[1m"                 Intensity(Bold)
/// "\x1b[4:3m"               Underline(Curly)
/// "\x1b[31m"                Foreground(PaletteIndex(1))
/// "\x1b[48:2::1:2:3m"       Background(TrueColor(SrgbaTuple(1, 2, 3, 255)))
/// ```
#[derive(Clone, Copy, PartialEq, Eq, Debug)]
pub enum Sgr {
    /// All attributes back to the default rendition.
    Reset,
    /// How strong the strokes are.
    Intensity(Intensity),
    /// The line below.
    Underline(Underline),
    /// The colour of that line (kitty, VTE); the default is the colour of the character.
    UnderlineColor(ColorSpec),
    /// Whether it blinks.
    Blink(Blink),
    /// Italicized or not.
    Italic(bool),
    /// Negative or positive image: whether the colours of character and ground change places.
    Inverse(bool),
    /// Concealed or revealed.
    Invisible(bool),
    /// Crossed out or not.
    StrikeThrough(bool),
    /// The font.
    Font(Font),
    /// The colour of the character.
    Foreground(ColorSpec),
    /// The colour of the ground behind it.
    Background(ColorSpec),
    /// A line above, or none.
    Overline(bool),
    /// Raised, lowered or on the line (mintty).
    VerticalAlign(VerticalAlign),
}

impl Sgr {
    /// Appends the bytes that set this attribute, those behind `ESC [` with the final `m`: 22 at most. The text holds 10 at
    /// most before.
    ///
    /// A true colour has colons between its parts and an empty colour space (ISO/IEC 8613-6), so that a terminal that
    /// doesn't know it drops all of it. An alternative font that is not 1 to 9 has no bytes at all, not even the `m`.
    pub fn write_to(&self, text: &mut Text)
        requires room { length text.old ≤ 10 }
        ensures { text.new ≡ text.old ++ sgr_text self.now }
    {
        match self {
            Sgr::Reset => text.push_str("0m"),
            Sgr::Intensity(Intensity::Normal) => text.push_str("22m"),
            Sgr::Intensity(Intensity::Bold) => text.push_str("1m"),
            Sgr::Intensity(Intensity::Half) => text.push_str("2m"),
            Sgr::Underline(Underline::None) => text.push_str("24m"),
            Sgr::Underline(Underline::Single) => text.push_str("4m"),
            Sgr::Underline(Underline::Double) => text.push_str("21m"),
            Sgr::Underline(Underline::Curly) => text.push_str("4:3m"),
            Sgr::Underline(Underline::Dotted) => text.push_str("4:4m"),
            Sgr::Underline(Underline::Dashed) => text.push_str("4:5m"),
            Sgr::UnderlineColor(ColorSpec::Default) => text.push_str("59m"),
            Sgr::UnderlineColor(ColorSpec::PaletteIndex(index)) => write_line_palette(text, *index),
            Sgr::UnderlineColor(ColorSpec::TrueColor(color)) => write_true_color(text, 58, *color),
            Sgr::Blink(Blink::None) => text.push_str("25m"),
            Sgr::Blink(Blink::Slow) => text.push_str("5m"),
            Sgr::Blink(Blink::Rapid) => text.push_str("6m"),
            Sgr::Italic(on) => text.push_str(if *on { "3m" } else { "23m" }),
            Sgr::Inverse(on) => text.push_str(if *on { "7m" } else { "27m" }),
            Sgr::Invisible(on) => text.push_str(if *on { "8m" } else { "28m" }),
            Sgr::StrikeThrough(on) => text.push_str(if *on { "9m" } else { "29m" }),
            Sgr::Font(Font::Default) => text.push_str("10m"),
            Sgr::Font(Font::Alternate(number)) => write_font(text, *number),
            Sgr::Foreground(ColorSpec::Default) => text.push_str("39m"),
            Sgr::Foreground(ColorSpec::PaletteIndex(index)) => write_palette(text, 30, *index),
            Sgr::Foreground(ColorSpec::TrueColor(color)) => write_true_color(text, 38, *color),
            Sgr::Background(ColorSpec::Default) => text.push_str("49m"),
            Sgr::Background(ColorSpec::PaletteIndex(index)) => write_palette(text, 40, *index),
            Sgr::Background(ColorSpec::TrueColor(color)) => write_true_color(text, 48, *color),
            Sgr::Overline(on) => text.push_str(if *on { "53m" } else { "55m" }),
            Sgr::VerticalAlign(VerticalAlign::BaseLine) => text.push_str("75m"),
            Sgr::VerticalAlign(VerticalAlign::SuperScript) => text.push_str("73m"),
            Sgr::VerticalAlign(VerticalAlign::SubScript) => text.push_str("74m"),
        }
    }
}

/// The same bytes as those of `write_to`.
impl fmt::Display for Sgr {
    ghost output = { λ s. Some (sgr_text s) };

    fn fmt<W: fmt::Write>(&self, f: &mut fmt::Formatter<W>) -> fmt::Result {
        let mut text = Text::new();
        self.write_to(&mut text);
        f.write_str(text.as_str())
    }
}

/// One of the nine alternative fonts, or nothing.
fn write_font(text: &mut Text, number: u8)
    requires room { length text.old ≤ 10 }
    ensures { text.new ≡ text.old ++ font_text number }
{
    if number >= 1 && number <= 9 {
        write_code(text, number + 10);
    }
}

/// A place in the palette, for the plane whose code of black is `first`.
fn write_palette(text: &mut Text, first: u8, index: u8)
    requires room { length text.old ≤ 10 }
    requires plane { first ≤ 40 }
    ensures { text.new ≡ text.old ++ palette_text first index }
{
    if index < 8 {
        write_code(text, index + first);
    } else if index < 16 {
        write_code(text, index + first + 52);
    } else {
        text.push_u8(first + 8);
        text.push_str(":5:");
        write_code(text, index);
    }
}

/// A place in the palette for the underline, which has no codes of its own for the first 16.
fn write_line_palette(text: &mut Text, index: u8)
    requires room { length text.old ≤ 10 }
    ensures { text.new ≡ text.old ++ (codes "58:5:" ++ (decimal index ++ codes "m")) }
{
    text.push_str("58:5:");
    write_code(text, index);
}

/// A true colour behind the code of its plane.
fn write_true_color(text: &mut Text, code: u8, color: SrgbaTuple)
    requires room { length text.old ≤ 10 }
    requires plane { code ≤ 58 }
    ensures { text.new ≡ text.old ++ true_color_text code color }
{
    let SrgbaTuple(red, green, blue, alpha) = color;
    text.push_u8(code);
    if alpha == 255 {
        text.push_str(":2::");
        write_part(text, red);
        write_part(text, green);
        write_code(text, blue);
    } else {
        text.push_str(":6::");
        write_part(text, red);
        write_part(text, green);
        write_part(text, blue);
        write_code(text, alpha);
    }
}

/// A number and a colon.
fn write_part(text: &mut Text, part: u8)
    requires room { length text.old ≤ 28 }
    ensures value { text.new ≡ text.old ++ (decimal part ++ codes ":") }
    ensures len { length text.new ≤ length text.old + 4 }
{
    text.push_u8(part);
    text.push(b':');
}

/// A number and the final byte.
fn write_code(text: &mut Text, code: u8)
    requires room { length text.old ≤ 28 }
    ensures { text.new ≡ text.old ++ (decimal code ++ codes "m") }
{
    text.push_u8(code);
    text.push(b'm');
}
