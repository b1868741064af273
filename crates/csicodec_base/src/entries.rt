// Written by tools/table from table/sgr.toml: change that, and run python3 tools/table.
//! What each number before `m` sets alone, and the text that sets it.

use crate::sgr::{Font, Sgr};
use csicodec_names::{Blink, ColorSpec, Intensity, Underline, VerticalAlign};

/// What a number sets alone: the attribute, none where it sets none or can have further tokens; its text, ESC and `[` ahead of it; and how
/// long that is, 0 where there is none.
#[derive(Clone, Copy)]
pub(crate) struct Entry {
    pub attribute: Option<Sgr>,
    pub text: [u8; 8],
    pub len: u8,
}

macro_rules! entry {
    (()) => { Entry { attribute: None, text: [0, 0, 0, 0, 0, 0, 0, 0], len: 0 } };
    (($len:literal $($byte:literal)*: $attribute:expr)) => { Entry { attribute: Some($attribute), text: [0x1b, b'[', $($byte),*], len: $len } };
    (($a:literal, $b:literal, $c:literal $($set:tt)*)) => { entry!((6 $a $b $c b'm' 0 0: Sgr::$($set)*)) };
    (($a:literal, $b:literal $($set:tt)*)) => { entry!((5 $a $b b'm' 0 0 0: Sgr::$($set)*)) };
    (($a:literal $($set:tt)*)) => { entry!((4 $a b'm' 0 0 0 0: Sgr::$($set)*)) };
}

/// Entries, several on a line: the digits of what stands in the text ahead of `m`, and the attribute; `()` where a number sets none alone.
macro_rules! entries {
    ($($row:tt,)*) => { [$(entry!($row)),*] };
}

/// Each number from 0 to 107, a place for each.
pub(crate) static ENTRIES: [Entry; 108] = entries! {
    (b'0' Reset), (b'1' Intensity(Intensity::Bold)), (b'2' Intensity(Intensity::Half)), (b'3' Italic(true)), (),
    (b'5' Blink(Blink::Slow)), (b'6' Blink(Blink::Rapid)), (b'7' Inverse(true)), (b'8' Invisible(true)),
    (b'9' StrikeThrough(true)), (b'1', b'0' Font(Font::Default)), (b'1', b'1' Font(Font::Alternate(1))),
    (b'1', b'2' Font(Font::Alternate(2))), (b'1', b'3' Font(Font::Alternate(3))),
    (b'1', b'4' Font(Font::Alternate(4))), (b'1', b'5' Font(Font::Alternate(5))),
    (b'1', b'6' Font(Font::Alternate(6))), (b'1', b'7' Font(Font::Alternate(7))),
    (b'1', b'8' Font(Font::Alternate(8))), (b'1', b'9' Font(Font::Alternate(9))), (),
    (b'2', b'1' Underline(Underline::Double)), (b'2', b'2' Intensity(Intensity::Normal)),
    (b'2', b'3' Italic(false)), (b'2', b'4' Underline(Underline::None)), (b'2', b'5' Blink(Blink::None)), (),
    (b'2', b'7' Inverse(false)), (b'2', b'8' Invisible(false)), (b'2', b'9' StrikeThrough(false)),
    (b'3', b'0' Foreground(ColorSpec::PaletteIndex(0))), (b'3', b'1' Foreground(ColorSpec::PaletteIndex(1))),
    (b'3', b'2' Foreground(ColorSpec::PaletteIndex(2))), (b'3', b'3' Foreground(ColorSpec::PaletteIndex(3))),
    (b'3', b'4' Foreground(ColorSpec::PaletteIndex(4))), (b'3', b'5' Foreground(ColorSpec::PaletteIndex(5))),
    (b'3', b'6' Foreground(ColorSpec::PaletteIndex(6))), (b'3', b'7' Foreground(ColorSpec::PaletteIndex(7))), (),
    (b'3', b'9' Foreground(ColorSpec::Default)), (b'4', b'0' Background(ColorSpec::PaletteIndex(0))),
    (b'4', b'1' Background(ColorSpec::PaletteIndex(1))), (b'4', b'2' Background(ColorSpec::PaletteIndex(2))),
    (b'4', b'3' Background(ColorSpec::PaletteIndex(3))), (b'4', b'4' Background(ColorSpec::PaletteIndex(4))),
    (b'4', b'5' Background(ColorSpec::PaletteIndex(5))), (b'4', b'6' Background(ColorSpec::PaletteIndex(6))),
    (b'4', b'7' Background(ColorSpec::PaletteIndex(7))), (), (b'4', b'9' Background(ColorSpec::Default)), (), (),
    (), (b'5', b'3' Overline(true)), (), (b'5', b'5' Overline(false)), (), (), (),
    (b'5', b'9' UnderlineColor(ColorSpec::Default)), (), (), (), (), (), (), (), (), (), (), (), (), (),
    (b'7', b'3' VerticalAlign(VerticalAlign::SuperScript)), (b'7', b'4' VerticalAlign(VerticalAlign::SubScript)),
    (b'7', b'5' VerticalAlign(VerticalAlign::BaseLine)), (), (), (), (), (), (), (), (), (), (), (), (), (), (),
    (b'9', b'0' Foreground(ColorSpec::PaletteIndex(8))), (b'9', b'1' Foreground(ColorSpec::PaletteIndex(9))),
    (b'9', b'2' Foreground(ColorSpec::PaletteIndex(10))), (b'9', b'3' Foreground(ColorSpec::PaletteIndex(11))),
    (b'9', b'4' Foreground(ColorSpec::PaletteIndex(12))), (b'9', b'5' Foreground(ColorSpec::PaletteIndex(13))),
    (b'9', b'6' Foreground(ColorSpec::PaletteIndex(14))), (b'9', b'7' Foreground(ColorSpec::PaletteIndex(15))),
    (), (), (b'1', b'0', b'0' Background(ColorSpec::PaletteIndex(8))),
    (b'1', b'0', b'1' Background(ColorSpec::PaletteIndex(9))),
    (b'1', b'0', b'2' Background(ColorSpec::PaletteIndex(10))),
    (b'1', b'0', b'3' Background(ColorSpec::PaletteIndex(11))),
    (b'1', b'0', b'4' Background(ColorSpec::PaletteIndex(12))),
    (b'1', b'0', b'5' Background(ColorSpec::PaletteIndex(13))),
    (b'1', b'0', b'6' Background(ColorSpec::PaletteIndex(14))),
    (b'1', b'0', b'7' Background(ColorSpec::PaletteIndex(15))),
};
