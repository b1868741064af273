//! Which modifiers are held down beside a key.
ghost use Rattle.std.specs.Prelude.{◌∷◌, [], ⊤, codes};
ghost use Rattle.csicodec_keys.specs.Keys.{modifier_bits};

use bitflags::{Flag, Flags};

/// The modifiers that are held down, and the locks that are on, by the bits of kitty's protocol. Those of shift, alt, and ctrl are
/// xterm's too; its meta is 8, which is super here.
///
/// Its operations are those of the trait `bitflags::Flags`.
#[derive(Clone, Copy, PartialEq, Eq, Hash, Debug)]
pub struct KeyModifiers {
    pub(crate) bits: u8,
}

impl KeyModifiers {
    /// No key.
    pub const NONE: KeyModifiers = KeyModifiers { bits: 0 };
    /// Shift.
    pub const SHIFT: KeyModifiers = KeyModifiers { bits: 1 };
    /// Alt, Option of a Mac.
    pub const ALT: KeyModifiers = KeyModifiers { bits: 2 };
    /// Control.
    pub const CTRL: KeyModifiers = KeyModifiers { bits: 4 };
    /// Super, the key of Windows, Command of a Mac.
    pub const SUPER: KeyModifiers = KeyModifiers { bits: 8 };
    /// Hyper.
    pub const HYPER: KeyModifiers = KeyModifiers { bits: 16 };
    /// Meta.
    pub const META: KeyModifiers = KeyModifiers { bits: 32 };
    /// Caps lock is on.
    pub const CAPS_LOCK: KeyModifiers = KeyModifiers { bits: 64 };
    /// Num lock is on.
    pub const NUM_LOCK: KeyModifiers = KeyModifiers { bits: 128 };
}

macro_rules! flag {
    ($name:expr, $value:expr) => {
        Flag { name: $name, value: $value }
    };
}

static MODIFIERS: [Flag<KeyModifiers>; 9] = [
    flag!("NONE", KeyModifiers::NONE),
    flag!("SHIFT", KeyModifiers::SHIFT),
    flag!("ALT", KeyModifiers::ALT),
    flag!("CTRL", KeyModifiers::CTRL),
    flag!("SUPER", KeyModifiers::SUPER),
    flag!("HYPER", KeyModifiers::HYPER),
    flag!("META", KeyModifiers::META),
    flag!("CAPS_LOCK", KeyModifiers::CAPS_LOCK),
    flag!("NUM_LOCK", KeyModifiers::NUM_LOCK),
];

impl Flags for KeyModifiers {
    type Bits = u8;

    ghost exact = { ⊤ };

    ghost table = { (codes "NONE", 0) ∷ (codes "SHIFT", 1) ∷ (codes "ALT", 2) ∷ (codes "CTRL", 4) ∷ (codes "SUPER", 8) ∷ (codes "HYPER", 16) ∷ (codes "META", 32) ∷ (codes "CAPS_LOCK", 64) ∷ (codes "NUM_LOCK", 128) ∷ [] };

    ghost set_of = { modifier_bits };

    fn flags<'a>() -> &'a [Flag<KeyModifiers>] {
        &MODIFIERS
    }

    fn bits(&self) -> u8 {
        self.bits
    }

    fn from_bits_retain(bits: u8) -> KeyModifiers {
        KeyModifiers { bits }
    }
}
