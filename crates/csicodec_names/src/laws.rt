//! Laws of the sets of bits: which bit each constant is. Each is the contract of a function that does nothing.
ghost use Rattle.std.specs.Prelude.{◌≡◌};
ghost use Rattle.csicodec_names.specs.FlagBits.{button_bits, kitty_bits, modifier_bits};

use crate::flags::{KittyKeyboardFlags, Modifiers, MouseButtons};

/// The bits of the keys that are held.
pub fn modifiers()
    ensures none { modifier_bits Modifiers.NONE ≡ 0 }
    ensures shift { modifier_bits Modifiers.SHIFT ≡ 2 }
    ensures alt { modifier_bits Modifiers.ALT ≡ 4 }
    ensures ctrl { modifier_bits Modifiers.CTRL ≡ 8 }
{}

/// The bits of the buttons and wheels of a mouse.
pub fn mouse_buttons()
    ensures none { button_bits MouseButtons.NONE ≡ 0 }
    ensures left { button_bits MouseButtons.LEFT ≡ 1 }
    ensures right { button_bits MouseButtons.RIGHT ≡ 2 }
    ensures middle { button_bits MouseButtons.MIDDLE ≡ 4 }
    ensures vertical { button_bits MouseButtons.VERT_WHEEL ≡ 8 }
    ensures horizontal { button_bits MouseButtons.HORZ_WHEEL ≡ 16 }
    ensures positive { button_bits MouseButtons.WHEEL_POSITIVE ≡ 32 }
{}

/// The bits of what is asked of the reports of keys.
pub fn kitty_flags()
    ensures none { kitty_bits KittyKeyboardFlags.NONE ≡ 0 }
    ensures escape_codes { kitty_bits KittyKeyboardFlags.DISAMBIGUATE_ESCAPE_CODES ≡ 1 }
    ensures event_types { kitty_bits KittyKeyboardFlags.REPORT_EVENT_TYPES ≡ 2 }
    ensures alternate_keys { kitty_bits KittyKeyboardFlags.REPORT_ALTERNATE_KEYS ≡ 4 }
    ensures all_keys { kitty_bits KittyKeyboardFlags.REPORT_ALL_KEYS_AS_ESCAPE_CODES ≡ 8 }
    ensures associated_text { kitty_bits KittyKeyboardFlags.REPORT_ASSOCIATED_TEXT ≡ 16 }
{}
