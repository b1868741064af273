//! The struct of each action, subject by subject, and what a struct without tokens may stand for: a value with this struct is found
//! wherever there is one, by its name. Of another struct nothing is promised: the caller sees whether what is found has it. Written by
//! tools/table.
ghost use Rattle.std.specs.Prelude.{◌≡◌, [], IfOk, IfSome};
ghost use Rattle.std.specs.Option.{option_map};
ghost use Rattle.csicodec_actions.specs.Devices.{device_of};
ghost use Rattle.csicodec_parser.specs.ActionOf.{action_of};
ghost use Rattle.csicodec_structs.specs.Private.Steps.{Finds, FindsSome, HasNoList, IsBare, IsOwn, IsSmall};
ghost use Rattle.csicodec_structs.specs.Rows.{CursorInRange, DeviceInRange, EditInRange, IsNamedDevice, IsNamedMode, KeyboardInRange, ModeInRange, MouseInRange, SgrInRange, WindowInRange, cursor_struct, device_params, device_struct, edit_struct, keyboard_struct, mode_struct, mouse_struct, sgr_struct, struct_of, window_struct};

use crate::numbers::{
    align, blink, button, color, count, first, flag, flags, font, font_number, intensity, place,
    private_mode, second, side, terminal_mode, underline, word,
};
use crate::structs::{
    Struct, color_row, flags_row, list_row, places_row, report_row, row, sized_row, unknown_row,
};
use bitflags::Flags;
use csicodec_actions::{
    CharacterPath, Cursor, Device, DeviceAttributes, Edit, Keyboard, KittyKeyboardMode, Mode,
    MouseReport, Window, XtermKeyModifierResource,
};
use csicodec_base::{
    CursorStyle, CursorTabulationControl, EraseInDisplay, EraseInLine, Modifiers, Sgr,
    TabulationClear,
};
use csicodec_parser::CSI;
use std::alloc::{AllocError, Global};

/// What none of the rules reads.
pub(crate) const UNSPECIFIED: u32 = 0;
/// `Vt220`.
pub(crate) const VT220: u32 = 404;
/// `Vt320`.
pub(crate) const VT320: u32 = 405;
/// `Vt420`.
pub(crate) const VT420: u32 = 406;
/// `XtSmGraphics`.
pub(crate) const XT_SM_GRAPHICS: u32 = 414;

/// The struct of a kind, by its number and what it says.
macro_rules! kind_row {
    ($number:literal) => { row($number, 0, 0) };
    ($number:literal place $value:ident) => { row($number, i64::from($value.as_one_based()), 0) };
    ($number:literal number $value:ident) => { row($number, *$value, 0) };
    ($number:literal coded $value:ident) => { row($number, $value.to_i64(), 0) };
    ($number:literal listed $value:ident) => { row($number, *$value as i64, 0) };
    ($number:literal font $value:ident) => { row($number, font_number(*$value), 0) };
    ($number:literal color $value:ident) => { color_row($number, $value) };
    ($number:literal private_mode $value:ident) => { row($number, i64::from($value.number()), 0) };
    ($number:literal terminal_mode $value:ident) => { row($number, i64::from($value.number()), 0) };
    ($number:literal flags $value:ident) => { row($number, i64::from($value.bits()), 0) };
    ($number:literal $form:ident $value:ident) => { row($number, i64::from(*$value), 0) };
    ($number:literal places $a:ident $b:ident) => { places_row($number, *$a, *$b) };
    ($number:literal numbers $a:ident $b:ident) => { row($number, *$a, *$b) };
    ($number:literal sizes $a:ident $b:ident) => { sized_row($number, *$a, *$b) };
    ($number:literal keys $a:ident $b:ident) => { sized_row($number, Some(i64::from($a.number())), *$b) };
    ($number:literal state $a:ident $b:ident) => { row($number, i64::from($a.bits()), i64::from($b.number())) };
    ($number:literal report $x:ident $y:ident $a:ident $b:ident) => { report_row($number, *$x, *$y, *$a, *$b) };
    ($number:literal area $a:ident $b:ident $($side:ident)*) => { Struct { $($side: $side.as_one_based(),)* ..row($number, *$a, *$b) } };
}

/// What a struct says in a field, for a value of a kind.
macro_rules! said {
    ($given:ident place) => { place($given.first) };
    ($given:ident number) => { $given.first };
    ($given:ident coded $type:ident $other:ident) => { $type::from_i64($given.first).unwrap_or($type::$other) };
    ($given:ident listed $by:ident) => { $by($given.first) };
    ($given:ident color) => { color(*$given) };
    ($given:ident $form:ident) => { $form($given) };
    ($given:ident places $at:ident) => { place($given.$at) };
    ($given:ident numbers $at:ident) => { $given.$at };
    ($given:ident sizes $at:ident) => { $at($given) };
    ($given:ident keys first) => { XtermKeyModifierResource::parse($given.first).unwrap_or(XtermKeyModifierResource::Keyboard) };
    ($given:ident keys second) => { second($given) };
    ($given:ident state first) => { flags($given) };
    ($given:ident state second) => { KittyKeyboardMode::from_i64($given.second).unwrap_or(KittyKeyboardMode::AssignAll) };
    ($given:ident report button) => { button($given.button) };
    ($given:ident report modifiers) => { Modifiers::from_bits_retain($given.modifiers) };
    ($given:ident report $at:ident) => { word($given.$at) };
    ($given:ident area first) => { $given.first };
    ($given:ident area second) => { $given.second };
    ($given:ident area $side:ident) => { side($given.$side) };
}

/// The struct of a value, whatever its kind.
macro_rules! struct_of_value {
    ($value:ident $type:ident $($number:literal $name:ident $(($form:ident $($of:ident)*))? $($fields:ident { $($field:ident: $at:ident),* })?,)*) => {
        match $value {
            $($type::$name $(($form))? $({ $($field),* })? => kind_row!($number $($form $form)? $($fields $($field)*)?),)*
        }
    };
}

/// A value of a kind, with what a struct says.
macro_rules! value_of_kind {
    ($given:ident $type:ident $name:ident $(($form:ident $($of:ident)*))? $($fields:ident { $($field:ident: $at:ident),* })?) => {
        $type::$name $((said!($given $form $($of)*)))? $({ $($field: said!($given $fields $at)),* })?
    };
}

/// What a struct may stand for, by its kind; one of another kind is taken for the first.
macro_rules! value_of_struct {
    ($given:ident $type:ident $first:literal $other:ident $(($($of:tt)*))? $($fields:ident { $($at:tt)* })?,
        $($number:literal $name:ident $(($($form:tt)*))? $($said:ident { $($field:tt)* })?,)*) => {
        match $given.kind {
            $($number => value_of_kind!($given $type $name $(($($form)*))? $($said { $($field)* })?),)*
            _ => value_of_kind!($given $type $other $(($($of)*))? $($fields { $($at)* })?),
        }
    };
}

/// The kinds of each subject: their numbers, and what they say.
macro_rules! kinds {
    (Sgr $arms:ident $value:ident) => {
        $arms! { $value Sgr
            1 Reset, 2 Intensity(listed intensity), 3 Underline(listed underline), 4 UnderlineColor(color), 5 Blink(listed blink),
            6 Italic(flag), 7 Inverse(flag), 8 Invisible(flag), 9 StrikeThrough(flag), 10 Font(font), 11 Foreground(color),
            12 Background(color), 13 Overline(flag), 14 VerticalAlign(listed align),
        }
    };
    (Cursor $arms:ident $value:ident) => {
        $arms! { $value Cursor
            101 Up(count), 102 Down(count), 103 Right(count), 104 Left(count), 105 NextLine(count), 106 PrecedingLine(count),
            107 CharacterAbsolute(place), 108 CharacterPositionAbsolute(place), 109 Position places { line: first, col: second },
            110 ActivePositionReport places { line: first, col: second }, 111 CharacterAndLinePosition places { line: first, col: second },
            112 ForwardTabulation(count), 113 BackwardTabulation(count), 114 LineTabulation(count), 115 CharacterPositionForward(count),
            116 CharacterPositionBackward(count), 117 LinePositionAbsolute(count), 118 LinePositionForward(count),
            119 LinePositionBackward(count), 120 TabulationControl(coded CursorTabulationControl SetCharacterTabStopAtActivePosition),
            121 TabulationClear(coded TabulationClear ClearCharacterTabStopAtActivePosition),
            122 SetTopAndBottomMargins places { top: first, bottom: second },
            123 SetLeftAndRightMargins places { left: first, right: second }, 124 SaveCursor, 125 RestoreCursor,
            126 RequestActivePositionReport, 127 CursorStyle(coded CursorStyle Default),
        }
    };
    (Edit $arms:ident $value:ident) => {
        $arms! { $value Edit
            201 InsertCharacter(count), 202 InsertLine(count), 203 DeleteCharacter(count), 204 DeleteLine(count), 205 EraseCharacter(count),
            206 ScrollUp(count), 207 ScrollDown(count), 208 Repeat(count), 209 EraseInDisplay(coded EraseInDisplay EraseToEndOfDisplay),
            210 EraseInLine(coded EraseInLine EraseToEndOfLine),
        }
    };
    (Mode $arms:ident $value:ident) => {
        $arms! { $value Mode
            301 SetDecPrivateMode(private_mode), 302 ResetDecPrivateMode(private_mode), 303 SaveDecPrivateMode(private_mode),
            304 RestoreDecPrivateMode(private_mode), 305 QueryDecPrivateMode(private_mode), 306 SetMode(terminal_mode),
            307 ResetMode(terminal_mode), 308 QueryMode(terminal_mode), 309 XtermKeyMode keys { resource: first, value: second },
        }
    };
    (MouseReport $arms:ident $value:ident) => {
        $arms! { $value MouseReport
            501 SGR1006 report { x: first, y: second, button: button, modifiers: modifiers },
            502 SGR1016 report { x_pixels: first, y_pixels: second, button: button, modifiers: modifiers },
        }
    };
    (Window $arms:ident $value:ident) => {
        $arms! { $value Window
            601 DeIconify, 602 Iconify, 603 MoveWindow numbers { x: first, y: second },
            604 ResizeWindowPixels sizes { width: first, height: second }, 605 RaiseWindow, 606 LowerWindow,
            607 ReportCellSizePixelsResponse sizes { width: first, height: second }, 608 RefreshWindow,
            609 ResizeWindowCells sizes { width: first, height: second }, 610 RestoreMaximizedWindow, 611 MaximizeWindow,
            612 MaximizeWindowVertically, 613 MaximizeWindowHorizontally, 614 UndoFullScreenMode, 615 ChangeToFullScreenMode,
            616 ToggleFullScreen, 617 ReportWindowState, 618 ReportWindowPosition, 619 ReportTextAreaPosition, 620 ReportTextAreaSizePixels,
            621 ReportWindowSizePixels, 622 ReportScreenSizePixels, 623 ReportCellSizePixels, 624 ReportTextAreaSizeCells,
            625 ReportScreenSizeCells, 626 ReportIconLabel, 627 ReportWindowTitle, 628 PushIconAndWindowTitle, 629 PushIconTitle,
            630 PushWindowTitle, 631 PopIconAndWindowTitle, 632 PopIconTitle, 633 PopWindowTitle,
            634 ChecksumRectangularArea area { request_id: first, page_number: second, top: top, left: left, bottom: bottom, right: right },
        }
    };
    (Keyboard $arms:ident $value:ident) => {
        $arms! { $value Keyboard
            701 SetKittyState state { flags: first, mode: second }, 702 PushKittyState state { flags: first, mode: second },
            703 PopKittyState(count), 704 QueryKittySupport, 705 ReportKittyState(flags),
        }
    };
}

/// The struct of an attribute.
#[inline(always)]
pub(crate) fn sgr_struct(sgr: &Sgr) -> Struct
    ensures { result ≡ sgr_struct sgr.now }
{
    kinds!(Sgr struct_of_value sgr)
}

fn sgr_candidate(given: &Struct) -> Sgr
    ensures in_range { SgrInRange result }
    ensures finds { Finds sgr_struct SgrInRange given.now result }
{
    kinds!(Sgr value_of_struct given)
}

/// The struct of an action of the cursor.
#[inline(always)]
pub(crate) fn cursor_struct(cursor: &Cursor) -> Struct
    ensures { result ≡ cursor_struct cursor.now }
{
    kinds!(Cursor struct_of_value cursor)
}

fn cursor_candidate(given: &Struct) -> Cursor
    ensures in_range { CursorInRange result }
    ensures finds { Finds cursor_struct CursorInRange given.now result }
{
    kinds!(Cursor value_of_struct given)
}

/// The struct of an edit.
#[inline(always)]
pub(crate) fn edit_struct(edit: &Edit) -> Struct
    ensures { result ≡ edit_struct edit.now }
{
    kinds!(Edit struct_of_value edit)
}

fn edit_candidate(given: &Struct) -> Edit
    ensures in_range { EditInRange result }
    ensures finds { Finds edit_struct EditInRange given.now result }
{
    kinds!(Edit value_of_struct given)
}

/// The struct of a change of a mode, or of a question for one.
#[inline(always)]
pub(crate) fn mode_struct(mode: &Mode) -> Struct
    ensures { result ≡ mode_struct mode.now }
{
    kinds!(Mode struct_of_value mode)
}

fn mode_candidate(given: &Struct) -> Mode
    ensures in_range { ModeInRange result }
    ensures named { IsNamedMode result }
    ensures finds { Finds mode_struct ModeInRange given.now result }
{
    kinds!(Mode value_of_struct given)
}

pub(crate) fn device_struct(place: usize, device: &Device) -> Struct
    ensures { result ≡ device_struct place (device_of device.now) }
{
    match device {
        Device::DeviceAttributes(DeviceAttributes::Vt100WithAdvancedVideoOption) => row(401, 0, 0),
        Device::DeviceAttributes(DeviceAttributes::Vt101WithNoOptions) => row(402, 0, 0),
        Device::DeviceAttributes(DeviceAttributes::Vt102) => row(403, 0, 0),
        Device::DeviceAttributes(DeviceAttributes::Vt220(flags)) => flags_row(404, place, flags),
        Device::DeviceAttributes(DeviceAttributes::Vt320(flags)) => flags_row(405, place, flags),
        Device::DeviceAttributes(DeviceAttributes::Vt420(flags)) => flags_row(406, place, flags),
        Device::SoftReset => row(407, 0, 0),
        Device::RequestPrimaryDeviceAttributes => row(408, 0, 0),
        Device::RequestSecondaryDeviceAttributes => row(409, 0, 0),
        Device::RequestTertiaryDeviceAttributes => row(410, 0, 0),
        Device::RequestTerminalNameAndVersion => row(411, 0, 0),
        Device::RequestTerminalParameters(number) => row(412, *number, 0),
        Device::StatusReport => row(413, 0, 0),
        Device::XtSmGraphics(graphics) => list_row(
            414,
            graphics.item.number(),
            graphics.action_or_status,
            place,
            graphics.value.len(),
        ),
    }
}

fn device_candidate(given: &Struct) -> Device
    ensures in_range { DeviceInRange (device_of result) }
    ensures named { IsNamedDevice (device_of result) }
    ensures bare { device_params (device_of result) ≡ [] }
    ensures finds { Finds (device_struct given.now.place) HasNoList given.now (device_of result) }
{
    match given.kind {
        401 => Device::DeviceAttributes(DeviceAttributes::Vt100WithAdvancedVideoOption),
        402 => Device::DeviceAttributes(DeviceAttributes::Vt101WithNoOptions),
        403 => Device::DeviceAttributes(DeviceAttributes::Vt102),
        407 => Device::SoftReset,
        408 => Device::RequestPrimaryDeviceAttributes,
        409 => Device::RequestSecondaryDeviceAttributes,
        410 => Device::RequestTertiaryDeviceAttributes,
        411 => Device::RequestTerminalNameAndVersion,
        412 => Device::RequestTerminalParameters(given.first),
        _ => Device::StatusReport,
    }
}

fn mouse_struct(mouse: &MouseReport) -> Struct
    ensures { result ≡ mouse_struct mouse.now }
{
    kinds!(MouseReport struct_of_value mouse)
}

fn mouse_candidate(given: &Struct) -> MouseReport
    ensures in_range { MouseInRange result }
    ensures finds { Finds mouse_struct MouseInRange given.now result }
{
    kinds!(MouseReport value_of_struct given)
}

pub(crate) fn window_struct(window: &Window) -> Struct
    ensures { result ≡ window_struct window.now }
{
    kinds!(Window struct_of_value window)
}

fn window_candidate(given: &Struct) -> Window
    ensures in_range { WindowInRange result }
    ensures finds { Finds window_struct WindowInRange given.now result }
{
    kinds!(Window value_of_struct given)
}

fn keyboard_struct(keyboard: &Keyboard) -> Struct
    ensures { result ≡ keyboard_struct keyboard.now }
{
    kinds!(Keyboard struct_of_value keyboard)
}

fn keyboard_candidate(given: &Struct) -> Keyboard
    ensures in_range { KeyboardInRange result }
    ensures finds { Finds keyboard_struct KeyboardInRange given.now result }
{
    kinds!(Keyboard value_of_struct given)
}

/// An action whose tokens, if it has any, stand from this place on.
pub(crate) fn struct_of(place: usize, action: &CSI) -> Struct
    ensures { result ≡ struct_of place (action_of action.now) }
{
    match action {
        CSI::Sgr(sgr) => sgr_struct(sgr),
        CSI::Cursor(cursor) => cursor_struct(cursor),
        CSI::Edit(edit) => edit_struct(edit),
        CSI::Mode(mode) => mode_struct(mode),
        CSI::Mouse(mouse) => mouse_struct(mouse),
        CSI::Device(device) => device_struct(place, device),
        CSI::Window(window) => window_struct(window),
        CSI::Keyboard(keyboard) => keyboard_struct(keyboard),
        CSI::SelectCharacterPath(path, effect) => row(801, i64::from(path.number()), *effect),
        CSI::Unspecified(unknown) => unknown_row(unknown.control, place, unknown.params.len()),
    }
}

/// Of what takes no memory.
pub(crate) fn small_candidate(given: &Struct) -> Option<CSI>
    ensures fits { IfSome result (λ csi. IsOwn [] (action_of csi)) }
    ensures finds { FindsSome (struct_of given.now.place) IsSmall given.now
        (option_map action_of result) }
{
    match given.kind {
        1..=100 => Some(CSI::Sgr(sgr_candidate(given))),
        101..=200 => Some(CSI::Cursor(cursor_candidate(given))),
        201..=300 => Some(CSI::Edit(edit_candidate(given))),
        301..=400 => Some(CSI::Mode(mode_candidate(given))),
        501..=600 => Some(CSI::Mouse(mouse_candidate(given))),
        701..=800 => Some(CSI::Keyboard(keyboard_candidate(given))),
        801 => Some(CSI::SelectCharacterPath(CharacterPath::from_i64(given.first)?, given.second)),
        _ => None,
    }
}

/// Of all that have no tokens.
pub(crate) fn candidate(alloc: Global, given: &Struct) -> Result<Option<CSI>, AllocError>
    ensures fits { IfOk result (λ r. IfSome r (λ csi. IsOwn [] (action_of csi))) }
    ensures finds { IfOk result (λ r. FindsSome (struct_of given.now.place) IsBare given.now
        (option_map action_of r)) }
{
    match given.kind {
        401..=403 | 407..=413 => {
            Ok(Some(CSI::Device(Box::new(alloc, device_candidate(given))?)))
        }
        601..=634 => { Ok(Some(CSI::Window(Box::new(alloc, window_candidate(given))?))) }
        _ => Ok(small_candidate(given)),
    }
}
