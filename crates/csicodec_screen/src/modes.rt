//! What modes do to a screen, and what sets it back.
ghost use Rattle.std.specs.Prelude.{◌≡◌, OnOk};
ghost use Rattle.csicodec_actions.specs.Devices.{device_of};
ghost use Rattle.csicodec_screen.specs.Acts.{alternate_1047, alternate_1049, columns_mode, columns_set, forgotten, of_code, of_device, of_mode, of_private, of_terminal, reset, shown, soft_reset};

use crate::cell::Cell;
use crate::look::Pen;
use crate::rows::Uniform;
use crate::screen::Screen;
use crate::sets::Sets;
use crate::state::Margins;
use csicodec_actions::{DecPrivateMode, Device, Mode, TerminalMode};
use csicodec_base::{ColorSpec, DecPrivateModeCode, TerminalModeCode};
use std::alloc::AllocError;
use std::mem;

impl Screen {
    /// The alternate screen is shown, or the main one. The cursor stays, and each has its saved cursor.
    fn show_screen(&mut self, alternate: bool)
        ensures { self.new ≡ shown alternate self.old }
    {
        if self.alternate == alternate {
            return;
        }
        mem::swap(&mut self.grid, &mut self.other);
        mem::swap(&mut self.wrapped, &mut self.other_wrapped);
        mem::swap(&mut self.saved, &mut self.other_saved);
        self.alternate = alternate;
    }

    /// If the alternate screen is shown, nothing is left of it.
    fn forget(&mut self) -> Result<(), AllocError>
        ensures { OnOk result (self.new ≡ forgotten self.old) }
    {
        if self.alternate {
            let blank = Uniform {
                columns: self.columns as usize,
                cell: Cell::Empty(ColorSpec::Default),
            };
            self.grid.renew(self.rows as usize, blank)?;
            self.wrapped.renew(self.rows as usize)?;
        }
        Ok(())
    }

    /// Mode 1047.
    fn show_cleared(&mut self, alternate: bool) -> Result<(), AllocError>
        ensures { OnOk result (self.new ≡ alternate_1047 alternate self.old) }
    {
        if !alternate {
            self.forget()?;
        }
        self.show_screen(alternate);
        Ok(())
    }

    /// Mode 1049.
    fn show_and_save(&mut self, alternate: bool) -> Result<(), AllocError>
        ensures { OnOk result (self.new ≡ alternate_1049 alternate self.old) }
    {
        if alternate {
            let rows = self.rows as usize;
            self.save();
            self.show_screen(true);
            return self.clear(0, rows);
        }
        self.forget()?;
        self.show_screen(false);
        self.restore();
        Ok(())
    }

    /// DECCOLM, where mode 40 lets it. The size stays.
    fn set_width(&mut self) -> Result<(), AllocError>
        ensures { OnOk result (self.new ≡ columns_set self.old) }
    {
        if self.modes.resizes {
            self.clear(0, self.rows as usize)?;
            self.margins = Margins::whole(self.rows, self.columns);
            self.at(0, 0);
        }
        Ok(())
    }

    /// DECLRMM: without it left and right margins are the edges of the screen.
    fn set_columns_mode(&mut self, on: bool)
        ensures { self.new ≡ columns_mode on self.old }
    {
        if !on {
            self.margins.left = 0;
            self.margins.right = self.columns.saturating_sub(1);
        }
        self.modes.columns = on;
    }

    /// DECOM: places are counted from the margins' corner, and the cursor is there.
    fn set_origin(&mut self, on: bool)
        ensures { self.new ≡ of_code on DecPrivateModeCode.OriginMode self.old }
    {
        self.modes.origin = on;
        self.place(0, 0);
    }

    /// A private mode with a name is set or reset.
    fn set_code(&mut self, on: bool, code: DecPrivateModeCode) -> Result<(), AllocError>
        ensures { OnOk result (self.new ≡ of_code on code self.old) }
    {
        match code {
            DecPrivateModeCode::Select132Columns => self.set_width()?,
            DecPrivateModeCode::ReverseVideo => self.modes.reverse = on,
            DecPrivateModeCode::OriginMode => self.set_origin(on),
            DecPrivateModeCode::AutoWrap => self.modes.autowrap = on,
            DecPrivateModeCode::ShowCursor => self.modes.visible = on,
            DecPrivateModeCode::LeftRightMarginMode => self.set_columns_mode(on),
            DecPrivateModeCode::EnableAlternateScreen => self.show_screen(on),
            DecPrivateModeCode::OptEnableAlternateScreen => self.show_cleared(on)?,
            DecPrivateModeCode::SaveCursor if on => self.save(),
            DecPrivateModeCode::SaveCursor => self.restore(),
            DecPrivateModeCode::ClearAndEnableAlternateScreen => self.show_and_save(on)?,
            DecPrivateModeCode::ApplicationCursorKeys
            | DecPrivateModeCode::DecAnsiMode
            | DecPrivateModeCode::SmoothScroll
            | DecPrivateModeCode::AutoRepeat
            | DecPrivateModeCode::StartBlinkingCursor
            | DecPrivateModeCode::ReverseWraparound
            | DecPrivateModeCode::SixelDisplayMode
            | DecPrivateModeCode::MouseTracking
            | DecPrivateModeCode::HighlightMouseTracking
            | DecPrivateModeCode::ButtonEventMouse
            | DecPrivateModeCode::AnyEventMouse
            | DecPrivateModeCode::FocusTracking
            | DecPrivateModeCode::Utf8Mouse
            | DecPrivateModeCode::SGRMouse
            | DecPrivateModeCode::SGRPixelsMouse
            | DecPrivateModeCode::XTermMetaSendsEscape
            | DecPrivateModeCode::XTermAltSendsEscape
            | DecPrivateModeCode::UsePrivateColorRegistersForEachGraphic
            | DecPrivateModeCode::BracketedPaste
            | DecPrivateModeCode::SynchronizedOutput
            | DecPrivateModeCode::GraphemeClustering
            | DecPrivateModeCode::MinTTYApplicationEscapeKeyMode
            | DecPrivateModeCode::SixelScrollsRight
            | DecPrivateModeCode::Win32InputMode => (),
        }
        Ok(())
    }

    /// A private mode is set or reset.
    fn set_private(&mut self, on: bool, mode: DecPrivateMode) -> Result<(), AllocError>
        ensures { OnOk result (self.new ≡ of_private on mode self.old) }
    {
        match mode {
            DecPrivateMode::Code(code) => self.set_code(on, code)?,
            DecPrivateMode::Unspecified(40) => self.modes.resizes = on,
            DecPrivateMode::Unspecified(_) => (),
        }
        Ok(())
    }

    /// A mode of the standard is set or reset.
    fn set_terminal(&mut self, on: bool, mode: TerminalMode)
        ensures { self.new ≡ of_terminal on mode self.old }
    {
        match mode {
            TerminalMode::Code(TerminalModeCode::Insert) => self.modes.inserts = on,
            TerminalMode::Code(TerminalModeCode::AutomaticNewline) => self.modes.new_line = on,
            TerminalMode::Code(
                TerminalModeCode::KeyboardAction
                | TerminalModeCode::BiDirectionalSupportMode
                | TerminalModeCode::SendReceive
                | TerminalModeCode::ShowCursor,
            )
            | TerminalMode::Unspecified(_) => (),
        }
    }

    /// What becomes of a mode.
    pub(crate) fn set_mode(&mut self, mode: &Mode) -> Result<(), AllocError>
        ensures { OnOk result (self.new ≡ of_mode mode.now self.old) }
    {
        match mode {
            Mode::SetDecPrivateMode(mode) => self.set_private(true, *mode)?,
            Mode::ResetDecPrivateMode(mode) => self.set_private(false, *mode)?,
            Mode::SetMode(mode) => self.set_terminal(true, *mode),
            Mode::ResetMode(mode) => self.set_terminal(false, *mode),
            Mode::SaveDecPrivateMode(_)
            | Mode::RestoreDecPrivateMode(_)
            | Mode::QueryDecPrivateMode(_)
            | Mode::QueryMode(_)
            | Mode::XtermKeyMode { .. } => (),
        }
        Ok(())
    }

    /// DECSTR: the cursor, LNM and the saved cursors stay.
    fn reset_softly(&mut self)
        ensures { self.new ≡ soft_reset self.old }
    {
        self.margins = Margins::whole(self.rows, self.columns);
        self.pen = Pen::plain();
        self.sets = Sets::first();
        self.modes.autowrap = true;
        self.modes.origin = false;
        self.modes.columns = false;
        self.modes.visible = true;
        self.modes.inserts = false;
    }

    /// What a device does.
    pub(crate) fn ask_device(&mut self, device: &Device)
        ensures { self.new ≡ of_device (device_of device.now) self.old }
    {
        match device {
            Device::SoftReset => self.reset_softly(),
            Device::DeviceAttributes(_)
            | Device::RequestPrimaryDeviceAttributes
            | Device::RequestSecondaryDeviceAttributes
            | Device::RequestTertiaryDeviceAttributes
            | Device::RequestTerminalNameAndVersion
            | Device::RequestTerminalParameters(_)
            | Device::StatusReport
            | Device::XtSmGraphics(_) => (),
        }
    }

    /// RIS.
    pub(crate) fn reset(&mut self) -> Result<(), AllocError>
        ensures { OnOk result (self.new ≡ reset self.old) }
    {
        let alloc = self.grid.allocator();
        *self = Screen::new(alloc, self.rows, self.columns, self.room)?;
        Ok(())
    }
}
