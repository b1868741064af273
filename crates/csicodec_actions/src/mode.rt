//! Modes: what is set, reset, saved, restored or asked for.
ghost use Rattle.std.specs.Prelude.{IsAscii, ◌≤◌, ◌++◌, ◌∷◌, ◌≡◌, ◌↔◌, ◌<◌};
ghost use Rattle.csicodec_actions.specs.{Common.[], Common.length, Common.Some, Common.pos, Common.IsTrue, Common.XtermKeyModifierResource, Table.Mode.written_mode};
ghost use Rattle.csicodec_actions.specs.{Written.AllGood, Written.Byte, Written.The, Written.shown, Written.written_text, Modes.changed, Modes.dec_number};
ghost use Rattle.csicodec_actions.specs.{Modes.resource_number, Modes.switched, Modes.terminal_number, Kinds.Good, Kinds.Dec, Kinds.Resource, Kinds.Terminal};
ghost use Rattle.csicodec_actions.specs.{Kinds.read};

use crate::canonical::is_said;
use csicodec_base::{DecPrivateModeCode, TerminalModeCode, Text};
use std::fmt;

/// A private mode.
///
/// ```text
/// DecPrivateMode::from(2004)         // Code(BracketedPaste)
/// DecPrivateMode::from(7777)         // Unspecified(7777)
/// ```
#[derive(Clone, Copy, Debug, PartialEq, Eq)]
pub enum DecPrivateMode {
    /// One that has a name.
    Code(DecPrivateModeCode),
    /// Any other number from 0 to 65535; `from` makes the one or the other of a number. The number of a mode that has a
    /// name is read back as its `Code`.
    Unspecified(u16),
}

impl DecPrivateMode {
    /// The mode of a number from 0 to 65535, and none for another one.
    #[tactic(auto, unfolding(crate::specs::Kinds::read))]
    pub fn at(number: i64) -> Option<DecPrivateMode>
        ensures { result ≡ read Dec number }
    {
        match DecPrivateModeCode::from_i64(number) {
            Some(code) => Some(DecPrivateMode::Code(code)),
            None => Some(DecPrivateMode::Unspecified(u16::try_from(number).ok()?)),
        }
    }

    /// The number of this mode.
    pub fn number(&self) -> u32
        ensures { result ≡ dec_number self.now }
    {
        match self {
            DecPrivateMode::Code(code) => code.to_i64() as u32,
            DecPrivateMode::Unspecified(number) => u32::from(*number),
        }
    }
}

/// The mode of a number: by its code where it has a name.
impl From<u16> for DecPrivateMode {
    ghost from_gives = { λ number mode. Some mode ≡ read Dec (pos number) };

    #[tactic(auto, unfolding(crate::specs::Kinds::read))]
    fn from(number: u16) -> DecPrivateMode {
        match DecPrivateModeCode::from_i64(i64::from(number)) {
            Some(code) => DecPrivateMode::Code(code),
            None => DecPrivateMode::Unspecified(number),
        }
    }
}

impl From<DecPrivateModeCode> for DecPrivateMode {
    ghost use Rattle.csicodec_actions.specs.declared.mode.DecPrivateMode.TheVariants as dec;

    ghost from_gives = { λ code mode. mode ≡ dec.Code code };

    fn from(code: DecPrivateModeCode) -> DecPrivateMode {
        DecPrivateMode::Code(code)
    }
}

/// A mode of the standard, or of a terminal that took a number beside it.
///
/// ```text
/// TerminalMode::from(4)              // Code(Insert)
/// TerminalMode::from(99)             // Unspecified(99)
/// ```
#[derive(Clone, Copy, Debug, PartialEq, Eq)]
pub enum TerminalMode {
    /// One that has a name.
    Code(TerminalModeCode),
    /// Any other number from 0 to 65535; `from` makes the one or the other of a number. The number of a mode that has a
    /// name is read back as its `Code`.
    Unspecified(u16),
}

impl TerminalMode {
    /// The mode of a number from 0 to 65535, and none for another one.
    #[tactic(auto, unfolding(crate::specs::Kinds::read))]
    pub fn at(number: i64) -> Option<TerminalMode>
        ensures { result ≡ read Terminal number }
    {
        match TerminalModeCode::from_i64(number) {
            Some(code) => Some(TerminalMode::Code(code)),
            None => Some(TerminalMode::Unspecified(u16::try_from(number).ok()?)),
        }
    }

    /// The number of this mode.
    pub fn number(&self) -> u32
        ensures { result ≡ terminal_number self.now }
    {
        match self {
            TerminalMode::Code(code) => code.to_i64() as u32,
            TerminalMode::Unspecified(number) => u32::from(*number),
        }
    }
}

/// The mode of a number: by its code where it has a name.
impl From<u16> for TerminalMode {
    ghost from_gives = { λ number mode. Some mode ≡ read Terminal (pos number) };

    #[tactic(auto, unfolding(crate::specs::Kinds::read))]
    fn from(number: u16) -> TerminalMode {
        match TerminalModeCode::from_i64(i64::from(number)) {
            Some(code) => TerminalMode::Code(code),
            None => TerminalMode::Unspecified(number),
        }
    }
}

impl From<TerminalModeCode> for TerminalMode {
    ghost use Rattle.csicodec_actions.specs.declared.mode.TerminalMode.TheVariants as terminal;

    ghost from_gives = { λ code mode. mode ≡ terminal.Code code };

    fn from(code: TerminalModeCode) -> TerminalMode {
        TerminalMode::Code(code)
    }
}

/// Which keys `XtermKeyMode` is about (xterm, XTMODKEYS).
#[derive(Clone, Copy, Debug, PartialEq, Eq)]
pub enum XtermKeyModifierResource {
    /// `modifyKeyboard`, number 0.
    Keyboard = 0,
    /// `modifyCursorKeys`, number 1.
    CursorKeys = 1,
    /// `modifyFunctionKeys`, number 2.
    FunctionKeys = 2,
    /// `modifyOtherKeys`, number 4.
    OtherKeys = 4,
}

impl XtermKeyModifierResource {
    /// The resource that has this number: 0, 1, 2 or 4. None has another one.
    #[tactic(auto, unfolding(crate::specs::Kinds::read))]
    pub fn parse(value: i64) -> Option<Self>
        ensures each { (resource : XtermKeyModifierResource) → (result ≡ Some resource)
            ↔ (value ≡ pos (resource_number resource)) }
        ensures read { result ≡ read Resource value }
    {
        match value {
            0 => Some(XtermKeyModifierResource::Keyboard),
            1 => Some(XtermKeyModifierResource::CursorKeys),
            2 => Some(XtermKeyModifierResource::FunctionKeys),
            4 => Some(XtermKeyModifierResource::OtherKeys),
            _ => None,
        }
    }

    /// The number of this resource.
    pub fn number(&self) -> u8
        ensures value { result ≡ resource_number self.now }
        ensures short { result < 10 }
    {
        *self as u8
    }
}

/// What a sequence does with one mode of the terminal, and what xterm sends for a key with modifiers. It prints its
/// parameters and the final character; `CSI` prints the `ESC [` too.
///
/// ```text
/// "\x1b[?25l"        ResetDecPrivateMode(Code(ShowCursor))
/// "\x1b[4h"          SetMode(Code(Insert))
/// "\x1b[?2004$p"     QueryDecPrivateMode(Code(BracketedPaste))
/// "\x1b[>4;2m"       XtermKeyMode { resource: OtherKeys, value: Some(2) }
/// ```
#[derive(Clone, Copy, Debug, PartialEq, Eq)]
pub enum Mode {
    /// DECSET (xterm's name; SM in DEC VT510): the private mode is set.
    SetDecPrivateMode(DecPrivateMode),
    /// DECRST (xterm's name; RM in DEC VT510): the private mode is reset.
    ResetDecPrivateMode(DecPrivateMode),
    /// XTSAVE (xterm): whether the private mode is set is kept aside.
    SaveDecPrivateMode(DecPrivateMode),
    /// XTRESTORE (xterm): the private mode becomes what was kept aside.
    RestoreDecPrivateMode(DecPrivateMode),
    /// DECRQM (DEC VT300 and up): asks whether the private mode is set.
    QueryDecPrivateMode(DecPrivateMode),
    /// SM (ECMA-48, 8.3.125): the mode is set.
    SetMode(TerminalMode),
    /// RM (ECMA-48, 8.3.106): the mode is reset.
    ResetMode(TerminalMode),
    /// DECRQM (DEC VT300 and up): asks whether the mode is set.
    QueryMode(TerminalMode),
    /// XTMODKEYS (xterm): how modifiers are told with these keys.
    XtermKeyMode {
        /// The keys.
        resource: XtermKeyModifierResource,
        /// The new value, 0 or more where it was read from bytes; none sets the initial one. One below 0 isn't read back.
        value: Option<i64>,
    },
}

/// What `h` and `l` do to a mode.
#[derive(Clone, Copy)]
pub enum Switch {
    Set,
    Reset,
}

impl Switch {
    /// This done to a mode.
    pub fn of(self, mode: TerminalMode) -> Mode
        ensures { result ≡ switched self mode }
    {
        match self {
            Switch::Set => Mode::SetMode(mode),
            Switch::Reset => Mode::ResetMode(mode),
        }
    }

    /// The final byte of the sequence that does it.
    #[inline(always)]
    pub fn final_byte(self) -> u8
        ensures is { (mode : TerminalMode) → (written_mode (switched self mode)).final ≡ result }
        ensures ascii { result < 128 }
    {
        match self {
            Switch::Set => b'h',
            Switch::Reset => b'l',
        }
    }
}

/// What `h`, `l`, `s` and `r` do to a private mode.
#[derive(Clone, Copy)]
pub enum Change {
    Set,
    Reset,
    Save,
    Restore,
}

impl Change {
    /// This done to a private mode.
    pub fn of(self, mode: DecPrivateMode) -> Mode
        ensures { result ≡ changed self mode }
    {
        match self {
            Change::Set => Mode::SetDecPrivateMode(mode),
            Change::Reset => Mode::ResetDecPrivateMode(mode),
            Change::Save => Mode::SaveDecPrivateMode(mode),
            Change::Restore => Mode::RestoreDecPrivateMode(mode),
        }
    }

    /// The final byte of the sequence that does it.
    #[inline(always)]
    pub fn final_byte(self) -> u8
        ensures is { (mode : DecPrivateMode) → (written_mode (changed self mode)).final ≡ result }
        ensures ascii { result < 128 }
    {
        match self {
            Change::Set => b'h',
            Change::Reset => b'l',
            Change::Save => b's',
            Change::Restore => b'r',
        }
    }
}

impl Mode {
    /// Appends the parameters and the final byte: 24 bytes at most. The text holds 7 at most before.
    pub fn write_to(&self, text: &mut Text)
        requires room { length text.old ≤ 7 }
        ensures { text.new ≡ text.old ++ written_text (written_mode self.now) }
    {
        match self {
            Mode::SetDecPrivateMode(mode) => write_dec(text, mode, "h"),
            Mode::ResetDecPrivateMode(mode) => write_dec(text, mode, "l"),
            Mode::SaveDecPrivateMode(mode) => write_dec(text, mode, "s"),
            Mode::RestoreDecPrivateMode(mode) => write_dec(text, mode, "r"),
            Mode::QueryDecPrivateMode(mode) => write_dec(text, mode, "$p"),
            Mode::SetMode(mode) => write_terminal(text, mode, "h"),
            Mode::ResetMode(mode) => write_terminal(text, mode, "l"),
            Mode::QueryMode(mode) => write_terminal(text, mode, "$p"),
            Mode::XtermKeyMode { resource, value } => {
                text.push(b'>');
                text.push_u8(resource.number());
                text.push(b';');
                if let Some(value) = value {
                    text.push_i64(*value);
                }
                text.push(b'm');
            }
        }
    }

    /// Whether each number of a mode is read as itself.
    pub fn is_canonical(&self) -> bool
        ensures { IsTrue result ↔ AllGood (written_mode self.now).items }
    {
        match self {
            Mode::SetDecPrivateMode(mode)
            | Mode::ResetDecPrivateMode(mode)
            | Mode::SaveDecPrivateMode(mode)
            | Mode::RestoreDecPrivateMode(mode)
            | Mode::QueryDecPrivateMode(mode) => is_dec_mode(*mode),
            Mode::SetMode(mode) | Mode::ResetMode(mode) | Mode::QueryMode(mode) => {
                is_terminal_mode(*mode)
            }
            Mode::XtermKeyMode { value: None, .. } => true,
            Mode::XtermKeyMode {
                value: Some(value),
                ..
            } => is_said(*value),
        }
    }
}

/// A private mode is read as itself by its code, or by a number that has none.
fn is_dec_mode(mode: DecPrivateMode) -> bool
    ensures { IsTrue result ↔ Good Dec mode }
{
    match mode {
        DecPrivateMode::Code(_) => true,
        DecPrivateMode::Unspecified(number) => {
            DecPrivateModeCode::from_i64(i64::from(number)).is_none()
        }
    }
}

/// A mode of the standard is read as itself by its code, or by a number that has none.
fn is_terminal_mode(mode: TerminalMode) -> bool
    ensures { IsTrue result ↔ Good Terminal mode }
{
    match mode {
        TerminalMode::Code(_) => true,
        TerminalMode::Unspecified(number) => {
            TerminalModeCode::from_i64(i64::from(number)).is_none()
        }
    }
}

/// A `?`, the number of a mode, and this end.
fn write_dec(text: &mut Text, mode: &DecPrivateMode, end: &str)
    requires room { length text.old ≤ 8 }
    requires short { length end.now ≤ 2 }
    requires ascii { IsAscii end.now }
    ensures { text.new ≡ text.old ++ shown (Byte 63 ∷ The Dec mode.now ∷ []) end.now }
{
    text.push(b'?');
    text.push_u32(mode.number());
    text.push_str(end);
}

/// The number of a mode, and this end.
fn write_terminal(text: &mut Text, mode: &TerminalMode, end: &str)
    requires room { length text.old ≤ 8 }
    requires short { length end.now ≤ 2 }
    requires ascii { IsAscii end.now }
    ensures { text.new ≡ text.old ++ shown (The Terminal mode.now ∷ []) end.now }
{
    text.push_u32(mode.number());
    text.push_str(end);
}

/// Writes the parameters and the final character, without `ESC [`.
impl fmt::Display for Mode {
    ghost output = { λ m. Some (written_text (written_mode m)) };

    fn fmt<W: fmt::Write>(&self, f: &mut fmt::Formatter<W>) -> fmt::Result {
        let mut text = Text::new();
        self.write_to(&mut text);
        f.write_str(text.as_str())
    }
}
