//! A key that was pressed, whichever encoding it came in.
ghost use Rattle.std.specs.Prelude.{◌≡◌};
ghost use Rattle.csicodec_keys.specs.Keys.{is_press, is_release, stroke_of};

use crate::code::KeyCode;
use crate::modifiers::KeyModifiers;
use arrayvec::ArrayVec;

/// How many characters a key types at most.
pub const MOST: usize = 32;

/// What a key types.
pub type Typed = ArrayVec<char, MOST>;

/// What happens to a key.
#[derive(Clone, Copy, PartialEq, Eq, Hash, Debug)]
pub enum KeyEvent {
    /// It goes down. All but kitty's encoding and Win32's know only this.
    Press,
    /// It is held down.
    Repeat,
    /// It goes up.
    Release,
}

impl KeyEvent {
    pub(crate) fn is_press(self) -> bool
        ensures { result ≡ is_press self }
    {
        matches!(self, KeyEvent::Press)
    }

    pub(crate) fn is_release(self) -> bool
        ensures { result ≡ is_release self }
    {
        matches!(self, KeyEvent::Release)
    }
}

/// How a terminal says which key it is.
#[derive(Clone, Copy, PartialEq, Eq, Hash, Debug)]
pub enum Encoding {
    /// Characters, controls, ESC ahead for alt, SS3 and xterm's control sequences with modifiers.
    Legacy,
    /// xterm's resource modifyOtherKeys: keys of characters with modifiers, by `CSI 27 ; modifiers ; character ~`.
    ModifyOtherKeys,
    /// kitty's protocol: its keys, modifiers, events and text. Of the alternate keys, the shifted and the base one, nothing is kept.
    Kitty,
    /// Win32-input-mode, of Windows' console: all keys, by `CSI Vk ; Sc ; Uc ; Kd ; Cs ; Rc _`.
    Win32,
    /// What rxvt has of its own.
    Rxvt,
    /// What Linux' console has of its own.
    Linux,
}

/// A key that was pressed, repeated or released.
#[derive(Debug, Drop)]
pub struct Key {
    /// Which key.
    pub code: KeyCode,
    /// What is held down with it.
    pub modifiers: KeyModifiers,
    /// What happens to it.
    pub event: KeyEvent,
    /// The characters that it types; none where it types nothing, or the encoding doesn't say.
    pub text: Typed,
}

impl Key {
    /// The key, by the bits of the modifiers.
    pub(crate) fn of(code: KeyCode, held: u8, event: KeyEvent, text: Typed) -> Key
        ensures { stroke_of result ≡ record { code = code; held = held; event = event; text = text.items } }
    {
        Key {
            code,
            modifiers: KeyModifiers { bits: held },
            event,
            text,
        }
    }
}
