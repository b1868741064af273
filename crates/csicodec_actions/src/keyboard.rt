//! The keyboard, and paths of characters.
ghost use Rattle.csicodec_actions.specs.{Common.[], Common.length, Common.Some, Common.pos, Common.IsTrue, Common.KittyKeyboardMode, Kinds.Good};
ghost use Rattle.csicodec_actions.specs.{Kinds.Flags as FlagsKind, Kinds.Way, Kinds.read, Kinds.kitty_mode_number, Table.Keyboard.written_keyboard, Written.AllGood};
ghost use Rattle.csicodec_actions.specs.{Written.Byte, Written.The, Written.shown, Written.written_text};
ghost use Rattle.std.specs.Prelude.{◌≤◌, ◌++◌, ◌∷◌, ◌≡◌, ◌↔◌, ◌<◌};

use bitflags::Flags;
use csicodec_base::{KittyKeyboardFlags, Text};
use std::fmt;

/// How flags change what the keyboard reports.
#[derive(Clone, Copy, Debug, PartialEq, Eq)]
pub enum KittyKeyboardMode {
    /// They take the place of the old ones.
    AssignAll = 1,
    /// They are added.
    SetSpecified = 2,
    /// They are taken away.
    ClearSpecified = 3,
}

impl KittyKeyboardMode {
    /// The way of 1, 2 or 3, and none for another number.
    #[tactic(auto, unfolding(crate::specs::Kinds::read))]
    pub fn from_i64(number: i64) -> Option<Self>
        ensures each { (mode : KittyKeyboardMode) → (result ≡ Some mode)
            ↔ (number ≡ pos (kitty_mode_number mode)) }
        ensures read { result ≡ read Way number }
    {
        match number {
            1 => Some(KittyKeyboardMode::AssignAll),
            2 => Some(KittyKeyboardMode::SetSpecified),
            3 => Some(KittyKeyboardMode::ClearSpecified),
            _ => None,
        }
    }

    /// The number of this way, 1 to 3.
    pub fn number(&self) -> u8
        ensures value { result ≡ kitty_mode_number self.now }
        ensures short { result < 10 }
    {
        *self as u8
    }
}

/// What the keyboard reports, set and asked for: kitty's keyboard protocol. It prints its parameters and the final `u`;
/// `CSI` prints the `ESC [` too.
///
/// ```text
/// "\x1b[=1;1u"       SetKittyState { flags: DISAMBIGUATE_ESCAPE_CODES, mode: AssignAll }
/// "\x1b[<2u"         PopKittyState(2)
/// "\x1b[?u"          QueryKittySupport
/// ```
#[derive(Clone, Copy, Debug, PartialEq, Eq)]
pub enum Keyboard {
    /// The flags change in this way.
    SetKittyState {
        /// The flags.
        flags: KittyKeyboardFlags,
        /// The way.
        mode: KittyKeyboardMode,
    },
    /// They are put onto a stack, and changed.
    PushKittyState {
        /// The flags.
        flags: KittyKeyboardFlags,
        /// The way.
        mode: KittyKeyboardMode,
    },
    /// This many are taken off the stack.
    PopKittyState(u32),
    /// Asks for the flags.
    QueryKittySupport,
    /// The answer.
    ReportKittyState(KittyKeyboardFlags),
}

impl Keyboard {
    /// Appends the parameters and the final byte: 16 bytes at most. The text holds 10 at most before.
    pub fn write_to(&self, text: &mut Text)
        requires room { length text.old ≤ 10 }
        ensures { text.new ≡ text.old ++ written_text (written_keyboard self.now) }
    {
        match self {
            Keyboard::SetKittyState { flags, mode } => write_state(text, b'=', flags, mode),
            Keyboard::PushKittyState { flags, mode } => write_state(text, b'>', flags, mode),
            Keyboard::PopKittyState(count) => {
                text.push(b'<');
                text.push_u32(*count);
                text.push(b'u');
            }
            Keyboard::QueryKittySupport => text.push_str("?u"),
            Keyboard::ReportKittyState(flags) => {
                text.push(b'?');
                text.push_u32(u32::from(flags.bits()));
                text.push(b'u');
            }
        }
    }

    /// Whether each number of what the keyboard reports is read as itself.
    pub fn is_canonical(&self) -> bool
        ensures { IsTrue result ↔ AllGood (written_keyboard self.now).items }
    {
        match self {
            Keyboard::SetKittyState { flags, .. }
            | Keyboard::PushKittyState { flags, .. }
            | Keyboard::ReportKittyState(flags) => are_flags(*flags),
            Keyboard::PopKittyState(pops) => {
                // each number of 32 bits
                let _pops = *pops;
                true
            }
            Keyboard::QueryKittySupport => true,
        }
    }
}

/// The five flags that have a name.
fn are_flags(flags: KittyKeyboardFlags) -> bool
    ensures { IsTrue result ↔ Good FlagsKind flags }
{
    flags.bits() < 32
}

/// This mark, flags and the way that they are set.
fn write_state(text: &mut Text, mark: u8, flags: &KittyKeyboardFlags, mode: &KittyKeyboardMode)
    requires room { length text.old ≤ 10 }
    requires ascii { mark < 128 }
    ensures { text.new ≡ text.old ++ shown (Byte mark ∷ The FlagsKind flags.now ∷ Byte 59 ∷ The Way mode.now ∷ []) (117 ∷ []) }
{
    text.push(mark);
    text.push_u32(u32::from(flags.bits()));
    text.push(b';');
    text.push_u8(mode.number());
    text.push(b'u');
}

/// Writes the parameters and the final character, without `ESC [`.
impl fmt::Display for Keyboard {
    ghost output = { λ k. Some (written_text (written_keyboard k)) };

    fn fmt<W: fmt::Write>(&self, f: &mut fmt::Formatter<W>) -> fmt::Result {
        let mut text = Text::new();
        self.write_to(&mut text);
        f.write_str(text.as_str())
    }
}
