//! Operations on the terminal's window and its title, and the checksum of an area of the page.
ghost use Rattle.csicodec_actions.specs.{Table.Window.maybe, Table.Window.written_window, Private.WindowTexts.written_numbers, Written.AllGood, Written.shown};
ghost use Rattle.csicodec_actions.specs.{Written.written_text, Common.[], Common.Some, Common.IsTrue};
ghost use Rattle.std.specs.Prelude.{◌≡◌, ◌↔◌};

use crate::canonical::{is_one_based, is_said};
use csicodec_base::OneBased;
use std::fmt;

/// What is done to the window of a terminal, asked of it and answered: XTWINOPS (xterm's ctlseqs, "Window manipulation";
/// the operations 1 to 8, 11, 13, 14, 18, 20 and 21 and their numbers come from dtterm), and DECRQCRA (DEC VT420).
///
/// Sizes and places are of 64 bits and take any sign where a value is built by hand; what is read from a sequence is 0
/// or more, and one below 0 isn't read back. An absent number is one that the sequence leaves out: the terminal then keeps
/// that size as it is (xterm).
///
/// It prints its parameters and the final character; `CSI` prints the `ESC [` too.
///
/// ```text
/// "\x1b[8;24;80t"            ResizeWindowCells { width: Some(80), height: Some(24) }
/// "\x1b[21t"                 ReportWindowTitle
/// "\x1b[1;1;1;1;9;9*y"       ChecksumRectangularArea of request 1 and page 1, from line 1 and column 1 to 9 and 9
/// ```
#[derive(Clone, Copy, Debug, PartialEq, Eq)]
pub enum Window {
    /// 1: the window is opened again, if it was an icon.
    DeIconify,
    /// 2: it becomes an icon.
    Iconify,
    /// 3: it is moved; a place that a sequence leaves out is 0.
    MoveWindow {
        /// The left edge, in pixels from the screen's.
        x: i64,
        /// The upper edge, in pixels from the screen's.
        y: i64,
    },
    /// 4: the window gets this size, in pixels; 0 is that of the display (xterm).
    ResizeWindowPixels {
        /// The width, in pixels.
        width: Option<i64>,
        /// The height, in pixels, which a sequence names first.
        height: Option<i64>,
    },
    /// 5: it is put in front of the others.
    RaiseWindow,
    /// 6, alone: it is put behind the others.
    LowerWindow,
    /// 6, with a size: the answer to `ReportCellSizePixels`.
    ReportCellSizePixelsResponse {
        /// The width of a cell, in pixels.
        width: Option<i64>,
        /// Its height, in pixels, which a sequence names first.
        height: Option<i64>,
    },
    /// 7: it is drawn again.
    RefreshWindow,
    /// 8: the text area gets this size, in cells; 0 is that of the display (xterm).
    ResizeWindowCells {
        /// The columns.
        width: Option<i64>,
        /// The lines, which a sequence names first.
        height: Option<i64>,
    },
    /// 9 and 0: a window that was maximized gets its size back.
    RestoreMaximizedWindow,
    /// 9 and 1: it becomes as large as the screen.
    MaximizeWindow,
    /// 9 and 2: it becomes as high as the screen.
    MaximizeWindowVertically,
    /// 9 and 3: it becomes as wide as the screen.
    MaximizeWindowHorizontally,
    /// 10 and 0: full screen ends.
    UndoFullScreenMode,
    /// 10 and 1: full screen begins.
    ChangeToFullScreenMode,
    /// 10 and 2: full screen begins or ends.
    ToggleFullScreen,
    /// 11: asks whether the window is open or an icon; the answer is `CSI 1 t` or `CSI 2 t`, which are read back as `DeIconify`
    /// and `Iconify`.
    ReportWindowState,
    /// 13: asks for the window's place; the answer is `CSI 3 ; x ; y t`, in pixels, which is read back as `MoveWindow`.
    ReportWindowPosition,
    /// 13 and 2: asks for the place of the text area; the answer is the same.
    ReportTextAreaPosition,
    /// 14: asks for the size of the text area; the answer is `CSI 4 ; height ; width t`, in pixels, which is read back as
    /// `ResizeWindowPixels`.
    ReportTextAreaSizePixels,
    /// 14 and 2: asks for the size of the window; the answer is the same.
    ReportWindowSizePixels,
    /// 15: asks for the size of the screen; the answer is `CSI 5 ; height ; width t`, in pixels, which is read back as
    /// `RaiseWindow`.
    ReportScreenSizePixels,
    /// 16: asks for the size of a cell; the answer is `ReportCellSizePixelsResponse`.
    ReportCellSizePixels,
    /// 18: asks for the size of the text area; the answer is `CSI 8 ; lines ; columns t`, which is read back as
    /// `ResizeWindowCells`.
    ReportTextAreaSizeCells,
    /// 19: asks for the size of the screen in cells; the answer is `CSI 9 ; lines ; columns t`, which is unknown but where the
    /// lines are 0 to 3.
    ReportScreenSizeCells,
    /// 20: asks for the icon's label; the answer is `OSC L label ST`.
    ReportIconLabel,
    /// 21: asks for the window's title; the answer is `OSC l title ST`.
    ReportWindowTitle,
    /// 22 and 0: the icon's label and the window's title are put onto a stack.
    PushIconAndWindowTitle,
    /// 22 and 1: the icon's label is.
    PushIconTitle,
    /// 22 and 2: the window's title is.
    PushWindowTitle,
    /// 23 and 0: the icon's label and the window's title are taken off the stack.
    PopIconAndWindowTitle,
    /// 23 and 1: the icon's label is.
    PopIconTitle,
    /// 23 and 2: the window's title is.
    PopWindowTitle,
    /// DECRQCRA (DEC VT420): asks for the checksum of the characters in an area of a page, in cells; the answer is
    /// `DCS request_id ! ~ checksum ST`. A side that a sequence leaves out, or that is 0, is 1.
    ChecksumRectangularArea {
        /// Comes back with the answer, so that it can be told from others.
        request_id: i64,
        /// The page of the terminal's memory.
        page_number: i64,
        /// The first line.
        top: OneBased,
        /// The first column.
        left: OneBased,
        /// The last line.
        bottom: OneBased,
        /// The last column.
        right: OneBased,
    },
}

/// A number that may be absent, which then leaves nothing.
#[derive(Clone, Copy)]
struct Field(Option<i64>);

impl fmt::Display for Field {
    ghost output = { λ field. Some (shown (maybe field.0) []) };

    fn fmt<W: fmt::Write>(&self, f: &mut fmt::Formatter<W>) -> fmt::Result {
        match self.0 {
            Some(number) => write!(f, "{number}"),
            None => Ok(()),
        }
    }
}

/// What a window's text is made of: a number alone, with another, or with two that may be absent; and those of an area.
#[derive(Clone, Copy)]
enum Numbers {
    Alone(u8),
    Which(u8, u8),
    Two(u8, Option<i64>, Option<i64>),
    Area(i64, i64, OneBased, OneBased, OneBased, OneBased),
}

impl fmt::Display for Numbers {
    ghost output = { λ n. Some (written_text (written_numbers n)) };

    fn fmt<W: fmt::Write>(&self, f: &mut fmt::Formatter<W>) -> fmt::Result {
        match self {
            Numbers::Alone(code) => write!(f, "{code}t"),
            Numbers::Which(code, number) => write!(f, "{code};{number}t"),
            Numbers::Two(code, first, second) => {
                let (first, second) = (Field(*first), Field(*second));
                write!(f, "{code};{first};{second}t")
            }
            Numbers::Area(request_id, page_number, top, left, bottom, right) => write!(
                f,
                "{request_id};{page_number};{top};{left};{bottom};{right}*y"
            ),
        }
    }
}

fn numbers_of(window: &Window) -> Numbers
    ensures { written_numbers result ≡ written_window window.now }
{
    match window {
        Window::DeIconify => Numbers::Alone(1),
        Window::Iconify => Numbers::Alone(2),
        Window::MoveWindow { x, y } => Numbers::Two(3, Some(*x), Some(*y)),
        Window::ResizeWindowPixels { width, height } => Numbers::Two(4, *height, *width),
        Window::RaiseWindow => Numbers::Alone(5),
        Window::LowerWindow => Numbers::Alone(6),
        Window::ReportCellSizePixelsResponse { width, height } => Numbers::Two(6, *height, *width),
        Window::RefreshWindow => Numbers::Alone(7),
        Window::ResizeWindowCells { width, height } => Numbers::Two(8, *height, *width),
        Window::RestoreMaximizedWindow => Numbers::Which(9, 0),
        Window::MaximizeWindow => Numbers::Which(9, 1),
        Window::MaximizeWindowVertically => Numbers::Which(9, 2),
        Window::MaximizeWindowHorizontally => Numbers::Which(9, 3),
        Window::UndoFullScreenMode => Numbers::Which(10, 0),
        Window::ChangeToFullScreenMode => Numbers::Which(10, 1),
        Window::ToggleFullScreen => Numbers::Which(10, 2),
        Window::ReportWindowState => Numbers::Alone(11),
        Window::ReportWindowPosition => Numbers::Alone(13),
        Window::ReportTextAreaPosition => Numbers::Which(13, 2),
        Window::ReportTextAreaSizePixels => Numbers::Alone(14),
        Window::ReportWindowSizePixels => Numbers::Which(14, 2),
        Window::ReportScreenSizePixels => Numbers::Alone(15),
        Window::ReportCellSizePixels => Numbers::Alone(16),
        Window::ReportTextAreaSizeCells => Numbers::Alone(18),
        Window::ReportScreenSizeCells => Numbers::Alone(19),
        Window::ReportIconLabel => Numbers::Alone(20),
        Window::ReportWindowTitle => Numbers::Alone(21),
        Window::PushIconAndWindowTitle => Numbers::Which(22, 0),
        Window::PushIconTitle => Numbers::Which(22, 1),
        Window::PushWindowTitle => Numbers::Which(22, 2),
        Window::PopIconAndWindowTitle => Numbers::Which(23, 0),
        Window::PopIconTitle => Numbers::Which(23, 1),
        Window::PopWindowTitle => Numbers::Which(23, 2),
        Window::ChecksumRectangularArea {
            request_id,
            page_number,
            top,
            left,
            bottom,
            right,
        } => Numbers::Area(*request_id, *page_number, *top, *left, *bottom, *right),
    }
}

impl Window {
    /// Whether each number of a window or an area is read as itself.
    pub fn is_canonical(&self) -> bool
        ensures { IsTrue result ↔ AllGood (written_window self.now).items }
    {
        match self {
            Window::MoveWindow { x, y } => is_said(*x) && is_said(*y),
            Window::ResizeWindowPixels { width, height }
            | Window::ReportCellSizePixelsResponse { width, height }
            | Window::ResizeWindowCells { width, height } => {
                is_said_or_absent(*width) && is_said_or_absent(*height)
            }
            Window::ChecksumRectangularArea {
                request_id,
                page_number,
                top,
                left,
                bottom,
                right,
            } => {
                is_said(*request_id)
                    && is_said(*page_number)
                    && is_one_based(*top)
                    && is_one_based(*left)
                    && is_one_based(*bottom)
                    && is_one_based(*right)
            }
            _ => true,
        }
    }
}

/// An absent number is read as itself, and so is one from 0 on.
fn is_said_or_absent(number: Option<i64>) -> bool
    ensures { IsTrue result ↔ AllGood (maybe number) }
{
    match number {
        Some(number) => is_said(number),
        None => true,
    }
}

/// Writes the parameters and the final character, without `ESC [`.
impl fmt::Display for Window {
    ghost output = { λ w. Some (written_text (written_window w)) };

    fn fmt<W: fmt::Write>(&self, f: &mut fmt::Formatter<W>) -> fmt::Result {
        let numbers = numbers_of(self);
        write!(f, "{numbers}")
    }
}
