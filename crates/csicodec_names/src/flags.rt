//! Sets of keys, buttons and wishes, each a bit of a number.
ghost use Rattle.std.specs.Prelude.{◌∷◌, [], ⊤, codes};
ghost use Rattle.csicodec_names.specs.FlagBits.{button_bits, kitty_bits, modifier_bits};

use bitflags::{Flag, Flags};

/// Each of these constants of a type, with its name.
macro_rules! flags {
    ($type:ident: $($name:ident),*) => {
        [$(Flag { name: stringify!($name), value: $type::$name }),*]
    };
}

/// The keys that are held down while another key or a button is pressed. The bits of shift, meta and control in a report
/// of the mouse are 4, 8 and 16 (xterm): twice these.
///
/// Its operations are those of the trait `bitflags::Flags`.
///
/// ```text
/// let held = Modifiers::SHIFT.union(Modifiers::CTRL);
/// held.contains(Modifiers::CTRL)                      // true
/// held.bits()                                         // 10
/// ```
#[derive(Clone, Copy, PartialEq, Eq, Hash, Debug)]
pub struct Modifiers {
    bits: u16,
}

impl Modifiers {
    /// No key.
    pub const NONE: Modifiers = Modifiers { bits: 0 };
    /// A shift key.
    pub const SHIFT: Modifiers = Modifiers { bits: 2 };
    /// An alt key, or meta.
    pub const ALT: Modifiers = Modifiers { bits: 4 };
    /// A control key.
    pub const CTRL: Modifiers = Modifiers { bits: 8 };
}

static MODIFIERS: [Flag<Modifiers>; 4] = flags!(Modifiers: NONE, SHIFT, ALT, CTRL);

impl Flags for Modifiers {
    type Bits = u16;

    ghost exact = { ⊤ };

    ghost table = { (codes "NONE", 0) ∷ (codes "SHIFT", 2) ∷ (codes "ALT", 4) ∷ (codes "CTRL", 8) ∷ [] };

    ghost set_of = { modifier_bits };

    fn flags<'a>() -> &'a [Flag<Modifiers>] {
        &MODIFIERS
    }

    fn bits(&self) -> u16 {
        self.bits
    }

    fn from_bits_retain(bits: u16) -> Modifiers {
        Modifiers { bits }
    }
}

/// The buttons of a mouse that are held down, and the turns of its wheels.
///
/// Its operations are those of the trait `bitflags::Flags`.
///
/// ```text
/// MouseButtons::LEFT.union(MouseButtons::RIGHT).bits()                 // 3
/// ```
#[derive(Clone, Copy, PartialEq, Eq, Hash, Debug)]
pub struct MouseButtons {
    bits: u8,
}

impl MouseButtons {
    /// No button.
    pub const NONE: MouseButtons = MouseButtons { bits: 0 };
    /// The left button.
    pub const LEFT: MouseButtons = MouseButtons { bits: 1 };
    /// The right button.
    pub const RIGHT: MouseButtons = MouseButtons { bits: 2 };
    /// The middle button.
    pub const MIDDLE: MouseButtons = MouseButtons { bits: 4 };
    /// A wheel that turns up and down.
    pub const VERT_WHEEL: MouseButtons = MouseButtons { bits: 8 };
    /// A wheel that turns left and right.
    pub const HORZ_WHEEL: MouseButtons = MouseButtons { bits: 16 };
    /// The turn of the wheel is positive; without it, negative.
    pub const WHEEL_POSITIVE: MouseButtons = MouseButtons { bits: 32 };
}

static MOUSE_BUTTONS: [Flag<MouseButtons>; 7] =
    flags!(MouseButtons: NONE, LEFT, RIGHT, MIDDLE, VERT_WHEEL, HORZ_WHEEL, WHEEL_POSITIVE);

impl Flags for MouseButtons {
    type Bits = u8;

    ghost exact = { ⊤ };

    ghost table = { (codes "NONE", 0) ∷ (codes "LEFT", 1) ∷ (codes "RIGHT", 2) ∷ (codes "MIDDLE", 4) ∷ (codes "VERT_WHEEL", 8) ∷ (codes "HORZ_WHEEL", 16) ∷ (codes "WHEEL_POSITIVE", 32) ∷ [] };

    ghost set_of = { button_bits };

    fn flags<'a>() -> &'a [Flag<MouseButtons>] {
        &MOUSE_BUTTONS
    }

    fn bits(&self) -> u8 {
        self.bits
    }

    fn from_bits_retain(bits: u8) -> MouseButtons {
        MouseButtons { bits }
    }
}

/// What a program asks of the reports of keys (kitty's keyboard protocol, progressive enhancement).
///
/// Its operations are those of the trait `bitflags::Flags`.
///
/// ```text
/// KittyKeyboardFlags::from_bits_truncate(33)      // DISAMBIGUATE_ESCAPE_CODES, which is 1; 32 has no name
/// ```
#[derive(Clone, Copy, PartialEq, Eq, Hash, Debug)]
pub struct KittyKeyboardFlags {
    bits: u16,
}

impl KittyKeyboardFlags {
    /// Nothing: keys are sent as ever.
    pub const NONE: KittyKeyboardFlags = KittyKeyboardFlags { bits: 0 };
    /// Keys whose bytes can be taken for those of another key, as Esc, are sent as control sequences.
    pub const DISAMBIGUATE_ESCAPE_CODES: KittyKeyboardFlags = KittyKeyboardFlags { bits: 1 };
    /// It is told whether a key was pressed, repeated or released.
    pub const REPORT_EVENT_TYPES: KittyKeyboardFlags = KittyKeyboardFlags { bits: 2 };
    /// The key is also told as it is with shift, and as it is on the base layout.
    pub const REPORT_ALTERNATE_KEYS: KittyKeyboardFlags = KittyKeyboardFlags { bits: 4 };
    /// Keys that write text are sent as control sequences too.
    pub const REPORT_ALL_KEYS_AS_ESCAPE_CODES: KittyKeyboardFlags = KittyKeyboardFlags { bits: 8 };
    /// The text that a key writes stands in its control sequence.
    pub const REPORT_ASSOCIATED_TEXT: KittyKeyboardFlags = KittyKeyboardFlags { bits: 16 };
}

static KITTY_KEYBOARD_FLAGS: [Flag<KittyKeyboardFlags>; 6] =
    flags!(KittyKeyboardFlags: NONE, DISAMBIGUATE_ESCAPE_CODES, REPORT_EVENT_TYPES,
        REPORT_ALTERNATE_KEYS, REPORT_ALL_KEYS_AS_ESCAPE_CODES, REPORT_ASSOCIATED_TEXT);

impl Flags for KittyKeyboardFlags {
    type Bits = u16;

    ghost exact = { ⊤ };

    ghost table = { (codes "NONE", 0) ∷ (codes "DISAMBIGUATE_ESCAPE_CODES", 1) ∷ (codes "REPORT_EVENT_TYPES", 2) ∷ (codes "REPORT_ALTERNATE_KEYS", 4) ∷ (codes "REPORT_ALL_KEYS_AS_ESCAPE_CODES", 8) ∷ (codes "REPORT_ASSOCIATED_TEXT", 16) ∷ [] };

    ghost set_of = { kitty_bits };

    fn flags<'a>() -> &'a [Flag<KittyKeyboardFlags>] {
        &KITTY_KEYBOARD_FLAGS
    }

    fn bits(&self) -> u16 {
        self.bits
    }

    fn from_bits_retain(bits: u16) -> KittyKeyboardFlags {
        KittyKeyboardFlags { bits }
    }
}
