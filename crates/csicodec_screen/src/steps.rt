//! A screen, step by step.
ghost use Rattle.std.specs.Prelude.{◌≡◌, OnOk};
ghost use Rattle.csicodec_parser.specs.ActionOf.{action_of};
ghost use Rattle.csicodec_screen.specs.{Screen.settled, Steps.keeps_last, Steps.of_action, Steps.of_window, Steps.step};
ghost use Rattle.csicodec_screen.specs.Steps as input;

use crate::screen::Screen;
use csicodec_actions::{Edit, Window};
use csicodec_parser::CSI;
use std::alloc::AllocError;

/// Whether it is REP, behind which REP may repeat again.
fn repeats(action: &CSI) -> bool
    ensures { result ≡ keeps_last (input.Csi (action_of action.now)) }
{
    matches!(action, CSI::Edit(Edit::Repeat(_)))
}

impl Screen {
    /// In a row of double width the cursor stands in its first half, and a wrap is pending at the edge alone.
    fn settle(&mut self)
        ensures { self.new ≡ settled self.old }
    {
        let last = self.last_column();
        self.column = self.column.min(last);
        let edge = self.edge();
        self.pending = self.pending && self.column == edge;
    }

    /// A character of text: it is drawn, or joins the one in front. After an `Err`, which is out of memory, the screen is of no more use.
    pub fn print_char(&mut self, char: char) -> Result<(), AllocError>
        ensures { OnOk result (self.new ≡ step (input.Print char) self.old) }
    {
        self.print(char)?;
        self.settle();
        Ok(())
    }

    /// A control of C0. After an `Err` the screen is of no more use.
    pub fn execute(&mut self, byte: u8) -> Result<(), AllocError>
        ensures { OnOk result (self.new ≡ step (input.Control byte) self.old) }
    {
        self.control(byte)?;
        self.last = None;
        self.settle();
        Ok(())
    }

    /// An escape sequence: its intermediate bytes, and its final byte. After an `Err` the screen is of no more use.
    pub fn esc_dispatch(&mut self, intermediates: &[u8], last: u8) -> Result<(), AllocError>
        ensures { OnOk result (self.new ≡ step (input.Escape intermediates.now last) self.old) }
    {
        self.escape(intermediates, last)?;
        self.last = None;
        self.settle();
        Ok(())
    }

    /// An operating system command: its number, and its text. After an `Err` the screen is of no more use.
    pub fn osc_dispatch(&mut self, number: u32, text: &[u8]) -> Result<(), AllocError>
        ensures { OnOk result (self.new ≡ step (input.Osc number text.now) self.old) }
    {
        self.command(number, text)?;
        self.last = None;
        self.settle();
        Ok(())
    }

    /// A control string that isn't an operating system command: REP doesn't repeat over it.
    pub fn pass_string(&mut self)
        ensures { self.new ≡ step input.OtherString self.old }
    {
        self.last = None;
        self.settle();
    }

    /// What a window does: only its titles change. A new size is the caller's.
    fn window(&mut self, window: &Window) -> Result<(), AllocError>
        ensures { OnOk result (self.new ≡ of_window window.now self.old) }
    {
        match window {
            Window::PushIconAndWindowTitle | Window::PushIconTitle | Window::PushWindowTitle => {
                return self.push_titles();
            }
            Window::PopIconAndWindowTitle => self.pop_titles(true, true),
            Window::PopIconTitle => self.pop_titles(true, false),
            Window::PopWindowTitle => self.pop_titles(false, true),
            Window::ResizeWindowCells { .. }
            | Window::DeIconify
            | Window::Iconify
            | Window::MoveWindow { .. }
            | Window::ResizeWindowPixels { .. }
            | Window::RaiseWindow
            | Window::LowerWindow
            | Window::ReportCellSizePixelsResponse { .. }
            | Window::RefreshWindow
            | Window::RestoreMaximizedWindow
            | Window::MaximizeWindow
            | Window::MaximizeWindowVertically
            | Window::MaximizeWindowHorizontally
            | Window::UndoFullScreenMode
            | Window::ChangeToFullScreenMode
            | Window::ToggleFullScreen
            | Window::ReportWindowState
            | Window::ReportWindowPosition
            | Window::ReportTextAreaPosition
            | Window::ReportTextAreaSizePixels
            | Window::ReportWindowSizePixels
            | Window::ReportScreenSizePixels
            | Window::ReportCellSizePixels
            | Window::ReportTextAreaSizeCells
            | Window::ReportScreenSizeCells
            | Window::ReportIconLabel
            | Window::ReportWindowTitle
            | Window::ChecksumRectangularArea { .. } => (),
        }
        Ok(())
    }

    /// What an action does.
    fn act(&mut self, action: &CSI) -> Result<(), AllocError>
        ensures { OnOk result (self.new ≡ of_action (action_of action.now) self.old) }
    {
        match action {
            CSI::Sgr(attribute) => self.pen.look.set(attribute),
            CSI::Cursor(cursor) => return self.move_cursor(cursor),
            CSI::Edit(edit) => return self.edit(edit),
            CSI::Mode(mode) => return self.set_mode(mode),
            CSI::Device(device) => self.ask_device(device),
            CSI::Window(window) => return self.window(window),
            CSI::Unspecified(unread) => return self.unknown(&unread.params, unread.control),
            CSI::Mouse(_) | CSI::Keyboard(_) | CSI::SelectCharacterPath(_, _) => (),
        }
        Ok(())
    }

    /// An action of a control sequence. After an `Err` the screen is of no more use.
    pub fn perform(&mut self, action: &CSI) -> Result<(), AllocError>
        ensures { OnOk result (self.new ≡ step (input.Csi (action_of action.now)) self.old) }
    {
        self.act(action)?;
        if !repeats(action) {
            self.last = None;
        }
        self.settle();
        Ok(())
    }
}
