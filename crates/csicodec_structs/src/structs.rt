//! The structs that cross to C.
ghost use Rattle.std.specs.Prelude.{◌≡◌, length, pos};
ghost use Rattle.csicodec_structs.specs.Structs.{color_row, list_row, report_row, row, sized_row, unknown_row};

use crate::numbers::button_number;
use bitflags::Flags;
use csicodec_actions::{DeviceAttributeFlags, MouseButton};
use csicodec_base::{ColorSpec, Modifiers, OneBased};

/// An action. A field that its kind has no use for is 0. It has 64 bytes, and no gaps.
#[repr(C)]
#[derive(Clone, Copy, PartialEq)]
pub struct Struct {
    /// Which action; 0 for one that none of the rules reads.
    pub kind: u32,
    /// Of kind 0, the final character.
    pub final_char: u32,
    /// A count, a position, the number of a mode, of an enumeration, or of the kind of a colour.
    pub first: i64,
    /// A second position, a place in the palette, or a value.
    pub second: i64,
    /// The first line of an area.
    pub top: u32,
    /// Its first column.
    pub left: u32,
    /// Its last line.
    pub bottom: u32,
    /// Its last column.
    pub right: u32,
    /// Where its tokens begin.
    pub place: usize,
    /// How many they are.
    pub len: usize,
    /// The red of a true colour.
    pub red: u8,
    /// Its green.
    pub green: u8,
    /// Its blue.
    pub blue: u8,
    /// Its opacity.
    pub alpha: u8,
    /// The keys that are held while the mouse reports.
    pub modifiers: u16,
    /// The button that it reports.
    pub button: u8,
    /// 1 where `first` is absent, and 2 where `second` is, or their sum.
    pub absent: u8,
}

/// A token of a list, or a value.
#[repr(C)]
#[derive(Clone, Copy)]
pub struct Param {
    /// 0 for a number, 1 for a byte.
    pub kind: u64,
    /// The number or the byte.
    pub value: i64,
}

/// A kind and two numbers.
#[inline(always)]
pub fn row(kind: u32, first: i64, second: i64) -> Struct
    ensures { result ≡ row kind first second }
{
    Struct {
        kind,
        final_char: 0,
        first,
        second,
        top: 0,
        left: 0,
        bottom: 0,
        right: 0,
        place: 0,
        len: 0,
        red: 0,
        green: 0,
        blue: 0,
        alpha: 0,
        modifiers: 0,
        button: 0,
        absent: 0,
    }
}

/// A line and a column, or two margins.
#[inline(always)]
pub(crate) fn places_row(kind: u32, first: OneBased, second: OneBased) -> Struct
    ensures { result ≡ row kind (pos first) (pos second) }
{
    let first = i64::from(first.as_one_based());
    row(kind, first, i64::from(second.as_one_based()))
}

/// With tokens from this place on.
pub(crate) fn list_row(kind: u32, first: i64, second: i64, place: usize, len: usize) -> Struct
    ensures { result ≡ list_row kind first second place len }
{
    Struct {
        place,
        len,
        ..row(kind, first, second)
    }
}

/// A service class, whose extensions stand from this place on.
pub(crate) fn flags_row(kind: u32, place: usize, flags: &DeviceAttributeFlags) -> Struct
    ensures { result ≡ list_row kind (pos 0) (pos 0) place (length flags.now.attributes.items) }
{
    list_row(kind, 0, 0, place, flags.attributes.len())
}

/// What none of the rules reads.
pub(crate) fn unknown_row(control: char, place: usize, len: usize) -> Struct
    ensures { result ≡ unknown_row control place len }
{
    Struct {
        final_char: u32::from(control),
        place,
        len,
        ..row(0, 0, 0)
    }
}

/// A colour.
pub(crate) fn color_row(kind: u32, color: &ColorSpec) -> Struct
    ensures { result ≡ color_row kind color.now }
{
    match color {
        ColorSpec::Default => row(kind, 0, 0),
        ColorSpec::PaletteIndex(index) => row(kind, 1, i64::from(*index)),
        ColorSpec::TrueColor(color) => {
            let (red, green, blue, alpha) = color.to_srgb_u8();
            Struct {
                red,
                green,
                blue,
                alpha,
                ..row(kind, 2, 0)
            }
        }
    }
}

/// Two numbers that may be absent.
pub(crate) fn sized_row(kind: u32, first: Option<i64>, second: Option<i64>) -> Struct
    ensures { result ≡ sized_row kind first second }
{
    Struct {
        absent: u8::from(first.is_none()) + 2 * u8::from(second.is_none()),
        ..row(kind, first.unwrap_or(0), second.unwrap_or(0))
    }
}

/// A report of the mouse.
pub(crate) fn report_row(
    kind: u32,
    x: u16,
    y: u16,
    button: MouseButton,
    modifiers: Modifiers,
) -> Struct
    ensures { result ≡ report_row kind x y button modifiers }
{
    Struct {
        modifiers: modifiers.bits(),
        button: button_number(button),
        ..row(kind, i64::from(x), i64::from(y))
    }
}
