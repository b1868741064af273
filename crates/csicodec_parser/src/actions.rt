//! The actions that a control sequence stands for, and what each of them does: how it is copied and printed, whether it is
//! read back, and which list that is read whole it is. What has an arm for each of them stands here.
ghost use Rattle.std.specs.{Prelude.IsOk, Prelude.IsSome, Prelude.OnErr, Prelude.◌≡◌, Prelude.◌⊎◌, Prelude.◌↔◌, Prelude.◌++◌, Prelude.◌<◌, Io.StartsWith};
ghost use Rattle.std.specs.{Option.option_map};
ghost use Rattle.csicodec_parser.specs.Common.{IfOk, IsTrue, OnOk, Some, length, TakesMemory, device_of, boxed, unboxed, text};
ghost use Rattle.csicodec_parser.specs.{ActionOf.action_of, ActionOf.unspecified_of, ActionOf.unspecified_text, Canonical.Canonical, Canonical.IsUnspecified};
ghost use Rattle.csicodec_actions.specs.Actions as action;

use crate::canonical::{is_canonical_sgr, is_canonical_unknown};
use crate::sink::{append_displayed, append_list};
use csicodec_actions::{
    CharacterPath, Cursor, Device, Edit, Keyboard, Mode, MouseReport, Window, cursor_action,
    device_action, edit_action, graphics_action, is_said, keyboard_action, mode_action,
    mouse_action, path_action, window_action, write_path,
};
use csicodec_base::{CsiParam, Sgr, Text, TextBuffer};
use std::alloc::{AllocError, Global};
use std::fmt;

/// A parameter list, or what is left of one, that none of the rules reads: nothing of it is lost. It prints its tokens and the
/// final character; `CSI` prints the `ESC [` too.
///
/// ```text
/// "\x1b[1;A"         Unspecified { params: 1 and ';', parameters_truncated: false, control: 'A' }
/// ```
#[derive(Debug, Drop, PartialEq, Eq)]
pub struct Unspecified {
    /// The tokens, as they came. What is left behind private modes has a `?` ahead of it, so that its text means the same.
    pub params: Vec<CsiParam>,
    /// What the caller of the parser said: whether the layer below had to drop parameters.
    pub parameters_truncated: bool,
    /// The final character.
    pub control: char,
}

impl Unspecified {
    /// A copy, in memory of its own. Of no tokens it takes none.
    pub fn clone(&self, alloc: Global) -> Result<Self, AllocError>
        ensures same { IfOk result (λ copy. unspecified_of copy ≡ unspecified_of self.now) }
        ensures memory { OnErr result (0 < length self.now.params.items) }
    {
        let mut params = Vec::new(alloc);
        params.extend_from_slice(&self.params)?;
        Ok(Unspecified {
            params,
            parameters_truncated: self.parameters_truncated,
            control: self.control,
        })
    }
}

impl fmt::Display for Unspecified {
    ghost output = { λ u. Some (unspecified_text u) };

    fn fmt<W: fmt::Write>(&self, f: &mut fmt::Formatter<W>) -> fmt::Result {
        for param in &self.params {
            write!(f, "{param}")?;
        }
        let control = self.control;
        write!(f, "{control}")
    }
}

/// One action of a control sequence (ECMA-48, 5.4). A sequence before `m`, `h` or `l` can
/// stand for several, and so can one that saves or restores private modes. It prints a sequence of its own, from `ESC [` on.
///
/// ```text
/// CSI::from(Cursor::Up(2))                                      // "\x1b[2A"
/// CSI::from(Mode::SetDecPrivateMode(DecPrivateMode::from(2004)))   // "\x1b[?2004h"
/// ```
#[derive(Debug, Drop, PartialEq, Eq)]
pub enum CSI {
    /// SGR, select graphic rendition: an attribute of the text that follows.
    Sgr(Sgr),
    /// Moving the cursor, tab stops and margins.
    Cursor(Cursor),
    /// Inserting, deleting, erasing and scrolling.
    Edit(Edit),
    /// Setting, resetting, saving, restoring and asking for modes.
    Mode(Mode),
    /// What a terminal is, asked and answered.
    Device(Box<Device>),
    /// A report of the mouse.
    Mouse(MouseReport),
    /// What is done to the terminal's window, and the checksum of an area of the page.
    Window(Box<Window>),
    /// The keyboard's protocol of kitty: its flags set, asked and answered.
    Keyboard(Keyboard),
    /// SCP (ECMA-48, 8.3.111): the path of characters, and what becomes of those that are shown.
    SelectCharacterPath(CharacterPath, i64),
    /// What none of the rules reads.
    Unspecified(Box<Unspecified>),
}

impl CSI {
    /// The action of a device, in a box. On `Err`, out of memory, the device is gone.
    pub fn from_device(alloc: Global, device: Device) -> Result<Self, AllocError>
        ensures { IfOk result (λ csi. action_of csi ≡ action.Device (device_of device)) }
    {
        Ok(CSI::Device(Box::new(alloc, device)?))
    }

    /// The action of a window, in a box. `Err` is out of memory.
    pub fn from_window(alloc: Global, window: Window) -> Result<Self, AllocError>
        ensures { IfOk result (λ csi. action_of csi ≡ action.Window window) }
    {
        Ok(CSI::Window(Box::new(alloc, window)?))
    }

    /// The action of a list that none of the rules reads, in a box. On `Err`, out of memory, the list is gone.
    pub fn from_unspecified(alloc: Global, unspecified: Unspecified) -> Result<Self, AllocError>
        ensures { IfOk result (λ csi. action_of csi ≡ unspecified_of unspecified) }
    {
        Ok(CSI::Unspecified(Box::new(alloc, unspecified)?))
    }

    /// A copy. Only a `Device`, a `Window` and an `Unspecified` take memory.
    pub fn clone(&self, alloc: Global) -> Result<Self, AllocError>
        ensures same { IfOk result (λ copy. action_of copy ≡ action_of self.now) }
        ensures memory { TakesMemory (action_of self.now) ⊎ IsOk result }
    {
        Ok(match self {
            CSI::Sgr(sgr) => CSI::Sgr(*sgr),
            CSI::Cursor(cursor) => CSI::Cursor(*cursor),
            CSI::Edit(edit) => CSI::Edit(*edit),
            CSI::Mode(mode) => CSI::Mode(*mode),
            CSI::Device(device) => return CSI::from_device(alloc, (**device).clone(alloc)?),
            CSI::Mouse(mouse) => CSI::Mouse(*mouse),
            CSI::Window(window) => return CSI::from_window(alloc, **window),
            CSI::Keyboard(keyboard) => CSI::Keyboard(*keyboard),
            CSI::SelectCharacterPath(path, effect) => CSI::SelectCharacterPath(*path, *effect),
            CSI::Unspecified(unspecified) => {
                return CSI::from_unspecified(alloc, (**unspecified).clone(alloc)?);
            }
        })
    }

    /// Whether the text of this value, read with the flag, is this one value. It holds of all that is read, but for left
    /// and right margins from 1 to 4294967295 and requests for the terminal's parameters, and not of each value that is
    /// built by hand: counts are 1 or more, other numbers 0 or more; a mode, an extension or an item of graphics without a
    /// name has no number of one that has a name; an alternative font is 1 to 9; flags and modifiers are those that have
    /// names; no report of the mouse is in pixels; and what is unknown has this flag, tokens and a final character that a
    /// sequence can have, and none of the rules reads it. An `Err` comes only for an `Unspecified`.
    ///
    /// ```text
    /// CSI::from(Cursor::Up(2)).is_canonical(alloc, false)?      // true
    /// CSI::from(Cursor::Up(0)).is_canonical(alloc, false)?      // false: its text "\x1b[0A" is read as Up(1)
    /// ```
    pub fn is_canonical(
        &self,
        alloc: Global,
        parameters_truncated: bool,
    ) -> Result<bool, AllocError>
        ensures exact { IfOk result (λ yes. IsTrue yes
            ↔ Canonical (action_of self.now) parameters_truncated) }
        ensures memory { IsUnspecified (action_of self.now) ⊎ IsOk result }
    {
        match self {
            CSI::Sgr(sgr) => Ok(is_canonical_sgr(sgr)),
            CSI::Cursor(cursor) => Ok(cursor.is_canonical() && !cursor.is_special()),
            CSI::Edit(edit) => Ok(edit.is_canonical()),
            CSI::Mode(mode) => Ok(mode.is_canonical()),
            CSI::Device(device) => Ok(device.is_canonical()),
            CSI::Mouse(report) => Ok(report.is_canonical()),
            CSI::Window(window) => Ok(window.is_canonical()),
            CSI::Keyboard(keyboard) => Ok(keyboard.is_canonical()),
            CSI::SelectCharacterPath(_, effect) => Ok(is_said(*effect)),
            CSI::Unspecified(unknown) => is_canonical_unknown(alloc, unknown, parameters_truncated),
        }
    }
}

impl From<Sgr> for CSI {
    ghost from_gives = { λ sgr csi. action_of csi ≡ action.Sgr sgr };

    fn from(sgr: Sgr) -> CSI {
        CSI::Sgr(sgr)
    }
}

impl From<Cursor> for CSI {
    ghost from_gives = { λ cursor csi. action_of csi ≡ action.Cursor cursor };

    fn from(cursor: Cursor) -> CSI {
        CSI::Cursor(cursor)
    }
}

impl From<Edit> for CSI {
    ghost from_gives = { λ edit csi. action_of csi ≡ action.Edit edit };

    fn from(edit: Edit) -> CSI {
        CSI::Edit(edit)
    }
}

impl From<Mode> for CSI {
    ghost from_gives = { λ mode csi. action_of csi ≡ action.Mode mode };

    fn from(mode: Mode) -> CSI {
        CSI::Mode(mode)
    }
}

impl From<Keyboard> for CSI {
    ghost from_gives = { λ keyboard csi. action_of csi ≡ action.Keyboard keyboard };

    fn from(keyboard: Keyboard) -> CSI {
        CSI::Keyboard(keyboard)
    }
}

impl From<MouseReport> for CSI {
    ghost from_gives = { λ report csi. action_of csi ≡ action.Mouse report };

    fn from(report: MouseReport) -> CSI {
        CSI::Mouse(report)
    }
}

impl fmt::Display for CSI {
    ghost output = { λ value. Some (text (action_of value)) };

    fn fmt<W: fmt::Write>(&self, f: &mut fmt::Formatter<W>) -> fmt::Result {
        match self {
            CSI::Sgr(sgr) => write!(f, "\x1b[{sgr}"),
            CSI::Cursor(cursor) => write!(f, "\x1b[{cursor}"),
            CSI::Edit(edit) => write!(f, "\x1b[{edit}"),
            CSI::Mode(mode) => write!(f, "\x1b[{mode}"),
            CSI::Device(device) => write!(f, "\x1b[{device}"),
            CSI::Mouse(mouse) => write!(f, "\x1b[{mouse}"),
            CSI::Window(window) => write!(f, "\x1b[{window}"),
            CSI::Keyboard(keyboard) => write!(f, "\x1b[{keyboard}"),
            CSI::SelectCharacterPath(path, effect) => {
                let mut text = Text::new();
                write_path(&mut text, path, *effect);
                let text = text.as_str();
                write!(f, "\x1b[{text}")
            }
            CSI::Unspecified(unspecified) => write!(f, "\x1b[{unspecified}"),
        }
    }
}

/// Appends the text of an action. On `Err`, out of memory, what stood there stands in front, unless the action takes
/// memory.
#[inline(always)]
pub fn append_text(alloc: Global, out: &mut TextBuffer, action: &CSI) -> Result<(), AllocError>
    ensures ok { OnOk result (out.new ≡ out.old ++ text (action_of action.now)) }
    ensures err { OnErr result (TakesMemory (action_of action.now) ⊎ StartsWith out.new out.old) }
{
    let mut text = Text::new();
    text.push_str("\x1b[");
    match action {
        CSI::Sgr(sgr) => sgr.write_to(&mut text),
        CSI::Cursor(cursor) => cursor.write_to(&mut text),
        CSI::Edit(edit) => edit.write_to(&mut text),
        CSI::Mode(mode) => mode.write_to(&mut text),
        CSI::Device(_) | CSI::Window(_) => return append_displayed(alloc, out, action),
        CSI::Mouse(mouse) => mouse.write_to(&mut text),
        CSI::Keyboard(keyboard) => keyboard.write_to(&mut text),
        CSI::SelectCharacterPath(path, effect) => write_path(&mut text, path, *effect),
        CSI::Unspecified(unspecified) => {
            out.push_slice(b"\x1b[")?;
            return append_list(out, unspecified.params.as_slice(), unspecified.control);
        }
    }
    out.push_text(&text)
}

/// The action of a list that is read whole, if a row reads it, and its value holds no memory.
#[inline(always)]
#[tactic(auto, unfolding(csicodec_actions::specs::Table::unboxed))]
pub(crate) fn unboxed_action(params: &[CsiParam], control: char) -> Option<CSI>
    ensures { option_map action_of result ≡ unboxed params.now control }
{
    if let Some(cursor) = cursor_action(params, control) {
        return Some(CSI::Cursor(cursor));
    }
    if let Some(edit) = edit_action(params, control) {
        return Some(CSI::Edit(edit));
    }
    if let Some(mode) = mode_action(params, control) {
        return Some(CSI::Mode(mode));
    }
    if let Some(mouse) = mouse_action(params, control) {
        return Some(CSI::Mouse(mouse));
    }
    if let Some(keyboard) = keyboard_action(params, control) {
        return Some(CSI::Keyboard(keyboard));
    }
    let (path, effect) = path_action(params, control)?;
    Some(CSI::SelectCharacterPath(path, effect))
}

/// The action of a list that is read whole, if a row reads it, and its value holds memory. An `Err` comes only where there is
/// one.
#[cold]
#[inline(never)]
#[tactic(auto, unfolding(csicodec_actions::specs::Table::boxed))]
pub(crate) fn boxed_action(
    alloc: Global,
    params: &[CsiParam],
    control: char,
) -> Result<Option<CSI>, AllocError>
    ensures ok { IfOk result (λ action. option_map action_of action ≡ boxed params.now control) }
    ensures err { OnErr result (IsSome (boxed params.now control)) }
{
    if let Some(device) = device_action(alloc, params, control)? {
        return Ok(Some(CSI::Device(Box::new(alloc, device)?)));
    }
    if let Some(window) = window_action(params, control) {
        return Ok(Some(CSI::Window(Box::new(alloc, window)?)));
    }
    match graphics_action(alloc, params, control)? {
        Some(graphics) => Ok(Some(CSI::Device(Box::new(alloc, Device::XtSmGraphics(graphics))?))),
        None => Ok(None),
    }
}
