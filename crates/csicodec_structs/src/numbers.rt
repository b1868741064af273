//! What stands as a number in a struct, both ways.
ghost use Rattle.std.specs.{Prelude.◌≡◌, Prelude.◌==◌, Prelude.◌||◌, Prelude.pos, Int.FitsUnsignedBits};
ghost use Rattle.csicodec_names.specs.{FlagBits.kitty_bits, declared.color.Blink.Blink, declared.color.Intensity.Intensity, declared.color.Underline.Underline};
ghost use Rattle.csicodec_names.specs.{declared.color.VerticalAlign.VerticalAlign};
ghost use Rattle.csicodec_actions.specs.{Modes.dec_number, Modes.terminal_number, declared.mouse.MouseButton.MouseButton, Ranges.ColorInRange};
ghost use Rattle.csicodec_structs.specs.Structs.{align_number, blink_number, color_row, button_number, flag_number, font_number, intensity_number, underline_number, HasText, IsNamedDec, IsNamedTerminal};
ghost use Rattle.csicodec_structs.specs.Private.Steps.{Finds, IsPlace, IsTen, Reads, itself, unless};

use crate::structs::Struct;
use bitflags::Flags;
use csicodec_actions::{DecPrivateMode, MouseButton, TerminalMode};
use csicodec_base::{
    Blink, ColorSpec, Font, Intensity, KittyKeyboardFlags, OneBased, SrgbaTuple, Underline,
    VerticalAlign,
};

/// The variant of a number, and the first one where there is none.
macro_rules! variant_of {
    ($value:ident $type:ident $first:literal $other:ident $(, $number:literal $name:ident)*) => {
        match $value { $($number => $type::$name,)* _ => $type::$other }
    };
}

/// The number of a variant.
macro_rules! number_of {
    ($value:ident $type:ident $($number:literal $name:ident),*) => {
        match $value { $($type::$name => $number,)* }
    };
}

/// The buttons of the mouse, and their numbers.
macro_rules! buttons {
    ($arms:ident $value:ident) => {
        $arms! { $value MouseButton
            0 None, 1 Button1Press, 2 Button2Press, 3 Button3Press, 4 Button4Press, 5 Button5Press, 6 Button6Press, 7 Button7Press,
            11 Button1Release, 12 Button2Release, 13 Button3Release, 14 Button4Release, 15 Button5Release, 16 Button6Release, 17 Button7Release,
            21 Button1Drag, 22 Button2Drag, 23 Button3Drag
        }
    };
}

pub(crate) fn font_number(font: Font) -> i64
    ensures { result ≡ pos (font_number font) }
{
    match font {
        Font::Default => 0,
        Font::Alternate(number) => i64::from(number),
    }
}

pub(crate) fn button_number(button: MouseButton) -> u8
    ensures { result ≡ button_number button }
{
    buttons!(number_of button)
}

// What a number stands for, and something of its type where it stands for nothing.

/// The first number, as a count.
pub(crate) fn count(given: &Struct) -> u32
    ensures { Reads itself (FitsUnsignedBits 32) given.now.first result }
{
    (given.first.cast_unsigned() % 4294967296) as u32
}

/// A number of 16 bits.
pub(crate) fn word(number: i64) -> u16
    ensures { Reads itself (FitsUnsignedBits 16) number result }
{
    (number.cast_unsigned() % 65536) as u16
}

/// A side of an area.
pub(crate) fn side(number: u32) -> OneBased
    ensures { Reads itself IsPlace (pos number) result }
{
    OneBased::new(number.max(1))
}

/// A line or a column.
pub(crate) fn place(number: i64) -> OneBased
    ensures { Reads itself IsPlace number result }
{
    side((number.cast_unsigned() % 4294967296) as u32)
}

/// The first number, as 1 for on and 0 for off.
pub(crate) fn flag(given: &Struct) -> bool
    ensures { Reads flag_number (FitsUnsignedBits 1) given.now.first result }
{
    given.first == 1
}

/// The first number, as flags of the keyboard.
pub(crate) fn flags(given: &Struct) -> KittyKeyboardFlags
    ensures { Reads kitty_bits (FitsUnsignedBits 16) given.now.first result }
{
    KittyKeyboardFlags::from_bits_retain(word(given.first))
}

/// The first number, as that of a private mode, by its code where it has one.
#[tactic(auto, using(crate::proofs::ModeNumbers::dec_read))]
pub(crate) fn private_mode(given: &Struct) -> DecPrivateMode
    ensures number { Reads dec_number (FitsUnsignedBits 16) given.now.first result }
    ensures named { IsNamedDec result }
{
    DecPrivateMode::from(word(given.first))
}

/// The first number, as that of a mode, by its code where it has one.
#[tactic(auto, using(crate::proofs::ModeNumbers::terminal_read))]
pub(crate) fn terminal_mode(given: &Struct) -> TerminalMode
    ensures number { Reads terminal_number (FitsUnsignedBits 16) given.now.first result }
    ensures named { IsNamedTerminal result }
{
    TerminalMode::from(word(given.first))
}

/// The first number, unless it is absent.
pub(crate) fn first(given: &Struct) -> Option<i64>
    ensures { result ≡ unless (given.now.absent == 1 || given.now.absent == 3) given.now.first }
{
    match given.absent {
        1 | 3 => None,
        _ => Some(given.first),
    }
}

/// The second number, unless it is absent.
pub(crate) fn second(given: &Struct) -> Option<i64>
    ensures { result ≡ unless (given.now.absent == 2 || given.now.absent == 3) given.now.second }
{
    match given.absent {
        2 | 3 => None,
        _ => Some(given.second),
    }
}

/// Its colour.
#[inline(always)]
pub(crate) fn color(given: Struct) -> ColorSpec
    ensures value { Finds (color_row given.kind) ColorInRange given result }
    ensures in_range { ColorInRange result }
{
    match given.first {
        1 => ColorSpec::PaletteIndex((given.second.cast_unsigned() % 256) as u8),
        2 => { ColorSpec::TrueColor(SrgbaTuple(given.red, given.green, given.blue, given.alpha)) }
        _ => ColorSpec::Default,
    }
}

/// The first number, as that of a font that has a text.
pub(crate) fn font(given: &Struct) -> Font
    ensures value { Reads font_number IsTen given.now.first result }
    ensures text { HasText result }
{
    match given.first {
        1..=9 => Font::Alternate(given.first as u8),
        _ => Font::Default,
    }
}

pub(crate) fn intensity(number: i64) -> Intensity
    ensures { (v : Intensity) → number ≡ pos (intensity_number v) → result ≡ v }
{
    variant_of!(number Intensity 0 Normal, 1 Bold, 2 Half)
}

pub(crate) fn underline(number: i64) -> Underline
    ensures { (v : Underline) → number ≡ pos (underline_number v) → result ≡ v }
{
    variant_of!(number Underline 0 None, 1 Single, 2 Double, 3 Curly, 4 Dotted, 5 Dashed)
}

pub(crate) fn blink(number: i64) -> Blink
    ensures { (v : Blink) → number ≡ pos (blink_number v) → result ≡ v }
{
    variant_of!(number Blink 0 None, 1 Slow, 2 Rapid)
}

pub(crate) fn align(number: i64) -> VerticalAlign
    ensures { (v : VerticalAlign) → number ≡ pos (align_number v) → result ≡ v }
{
    variant_of!(number VerticalAlign 0 BaseLine, 1 SuperScript, 2 SubScript)
}

pub(crate) fn button(number: u8) -> MouseButton
    ensures { (v : MouseButton) → number ≡ button_number v → result ≡ v }
{
    buttons!(variant_of number)
}
