//! The names of what control and escape sequences say by a number.
#![tactic(auto)]

/// The variant of a number, and none of another one: each behind its number, several on a line.
macro_rules! numbered {
    ($number:ident, $type:ident: $($value:literal $name:ident,)*) => {
        match $number {
            $($value => Some($type::$name),)*
            _ => None,
        }
    };
}

mod codes;
mod color;
mod device;
mod enums;
mod esc;
mod esc_codes;
mod flags;
pub mod laws;
mod modes;
mod sgr_code;

pub use codes::SgrCode;
pub use color::{AnsiColor, Blink, ColorSpec, Intensity, SrgbaTuple, Underline, VerticalAlign};
pub use device::DeviceAttributeCodes;
pub use enums::{
    CursorStyle, CursorTabulationControl, EraseInDisplay, EraseInLine, TabulationClear,
};
pub use esc::Esc;
pub use esc_codes::EscCode;
pub use flags::{KittyKeyboardFlags, Modifiers, MouseButtons};
pub use modes::{DecPrivateModeCode, TerminalModeCode};
