//! Reports of the mouse.
ghost use Rattle.csicodec_actions.specs.{Actions.Mouse as Reports, Kinds.AreHeld, Special.IsNeverRead, Mouse.button_code, Mouse.held_buttons, Mouse.is_release};
ghost use Rattle.csicodec_actions.specs.{Mouse.modifiers_code, Table.Mouse.written_mouse, Written.AllGood, Written.written_text, Common.Some, Common.length};
ghost use Rattle.csicodec_actions.specs.{Common.IsTrue};
ghost use Rattle.std.specs.Prelude.{◌≡◌, ◌↔◌, ◌<◌, ◌≤◌, ◌++◌};
ghost use Rattle.csicodec_names.specs.FlagBits.{button_bits};

use bitflags::Flags;
use csicodec_base::{Modifiers, MouseButtons, Text};
use std::fmt;

/// A button.
#[derive(Clone, Copy, PartialEq, Eq, Debug)]
pub enum MouseButton {
    Button1Press,
    Button2Press,
    Button3Press,
    Button4Press,
    Button5Press,
    Button6Press,
    Button7Press,
    Button1Release,
    Button2Release,
    Button3Release,
    Button4Release,
    Button5Release,
    Button6Release,
    Button7Release,
    Button1Drag,
    Button2Drag,
    Button3Drag,
    None,
}

/// A report (xterm's ctlseqs, modes 1006 and 1016): the place, the button and what is held. It prints its parameters and
/// the final character; `CSI` prints the `ESC [` too.
///
/// ```text
/// "\x1b[<0;5;6M"     SGR1006 { x: 5, y: 6, button: Button1Press, modifiers: NONE }
/// "\x1b[<4;5;6m"     SGR1006 { x: 5, y: 6, button: Button1Release, modifiers: SHIFT }
/// ```
#[derive(Clone, Copy, PartialEq, Eq, Debug)]
pub enum MouseReport {
    /// In cells.
    SGR1006 {
        /// The column.
        x: u16,
        /// The line.
        y: u16,
        /// The button.
        button: MouseButton,
        /// What is held.
        modifiers: Modifiers,
    },
    /// In pixels. It is written as a report in cells is, and so is never read: which of the two modes the terminal is in
    /// stands in no report.
    SGR1016 {
        /// How far it is to the right.
        x_pixels: u16,
        /// How far it is down.
        y_pixels: u16,
        /// The button.
        button: MouseButton,
        /// What is held.
        modifiers: Modifiers,
    },
}

/// The buttons that are held down, and the turn of a wheel. After a release there are none.
impl From<MouseButton> for MouseButtons {
    ghost from_gives = { λ button buttons. button_bits buttons ≡ held_buttons button };

    fn from(button: MouseButton) -> MouseButtons {
        match button {
            MouseButton::Button1Press | MouseButton::Button1Drag => MouseButtons::LEFT,
            MouseButton::Button2Press | MouseButton::Button2Drag => MouseButtons::MIDDLE,
            MouseButton::Button3Press | MouseButton::Button3Drag => MouseButtons::RIGHT,
            MouseButton::Button4Press => {
                MouseButtons::VERT_WHEEL.union(MouseButtons::WHEEL_POSITIVE)
            }
            MouseButton::Button5Press => MouseButtons::VERT_WHEEL,
            MouseButton::Button6Press => {
                MouseButtons::HORZ_WHEEL.union(MouseButtons::WHEEL_POSITIVE)
            }
            MouseButton::Button7Press => MouseButtons::HORZ_WHEEL,
            _ => MouseButtons::NONE,
        }
    }
}

impl MouseButton {
    /// The code of this button.
    pub(crate) fn code(&self) -> u8
        ensures value { result ≡ button_code self.now }
        ensures short { result < 68 }
    {
        match self {
            MouseButton::Button1Press | MouseButton::Button1Release => 0,
            MouseButton::Button2Press | MouseButton::Button2Release => 1,
            MouseButton::Button3Press | MouseButton::Button3Release => 2,
            MouseButton::Button4Press | MouseButton::Button4Release => 64,
            MouseButton::Button5Press | MouseButton::Button5Release => 65,
            MouseButton::Button6Press | MouseButton::Button6Release => 66,
            MouseButton::Button7Press | MouseButton::Button7Release => 67,
            MouseButton::Button1Drag => 32,
            MouseButton::Button2Drag => 33,
            MouseButton::Button3Drag => 34,
            MouseButton::None => 35,
        }
    }

    /// Whether it is a release.
    pub(crate) fn is_release(&self) -> bool
        ensures { result ≡ is_release self.now }
    {
        matches!(
            self,
            MouseButton::Button1Release
                | MouseButton::Button2Release
                | MouseButton::Button3Release
                | MouseButton::Button4Release
                | MouseButton::Button5Release
                | MouseButton::Button6Release
                | MouseButton::Button7Release
        )
    }
}

/// What the keys that are held add to the code of a button: 4 for SHIFT, 8 for ALT, 16 for CTRL.
pub(crate) fn modifiers_code(modifiers: Modifiers) -> u8
    ensures value { result ≡ modifiers_code modifiers }
    ensures short { result ≤ 28 }
{
    4 * u8::from(modifiers.contains(Modifiers::SHIFT))
        + 8 * u8::from(modifiers.contains(Modifiers::ALT))
        + 16 * u8::from(modifiers.contains(Modifiers::CTRL))
}

impl MouseReport {
    /// Appends the parameters and the final byte: 16 bytes at most, as the place is of 16 bits. The text holds 10 at most
    /// before.
    pub fn write_to(&self, text: &mut Text)
        requires room { length text.old ≤ 10 }
        ensures { text.new ≡ text.old ++ written_text (written_mouse self.now) }
    {
        let (MouseReport::SGR1006 {
            x,
            y,
            button,
            modifiers,
        }
        | MouseReport::SGR1016 {
            x_pixels: x,
            y_pixels: y,
            button,
            modifiers,
        }) = self;
        text.push(b'<');
        text.push_u8(button.code() + modifiers_code(*modifiers));
        text.push(b';');
        text.push_u16(*x);
        text.push(b';');
        text.push_u16(*y);
        text.push(if button.is_release() { b'm' } else { b'M' });
    }

    /// A report in pixels is read as one in cells.
    pub fn is_canonical(&self) -> bool
        ensures { IsTrue result
            ↔ (AllGood (written_mouse self.now).items × ¬ IsNeverRead (Reports self.now)) }
    {
        match self {
            MouseReport::SGR1006 {
                x,
                y,
                button,
                modifiers,
            } => {
                // each number of 16 bits
                let _place = (*x, *y);
                are_held(*modifiers)
            }
            MouseReport::SGR1016 { .. } => false,
        }
    }
}

/// Shift, alt and control.
fn are_held(modifiers: Modifiers) -> bool
    ensures { IsTrue result ↔ AreHeld modifiers }
{
    modifiers.bits() & 14 == modifiers.bits()
}

/// Writes the parameters and the final character, without `ESC [`.
impl fmt::Display for MouseReport {
    ghost output = { λ m. Some (written_text (written_mouse m)) };

    fn fmt<W: fmt::Write>(&self, f: &mut fmt::Formatter<W>) -> fmt::Result {
        let mut text = Text::new();
        self.write_to(&mut text);
        f.write_str(text.as_str())
    }
}
