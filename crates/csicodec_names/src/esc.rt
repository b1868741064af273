//! Escape sequences (ESC): one or two characters after the character ESC.
ghost use Rattle.std.specs.Prelude.{◌≡◌, Some};
ghost use Rattle.csicodec_names.specs.{Esc.EscOf, Esc.esc_number, Esc.esc_text, Esc.in_turn, EscCodes.characters_of};

use crate::esc_codes::EscCode;
use std::fmt;

/// An escape sequence without its ESC, as ECMA-48 and ECMA-35 know them.
///
/// It prints ESC and its characters.
#[derive(Clone, Copy, PartialEq, Eq, Debug)]
pub enum Esc {
    /// Two bytes that are no [`EscCode`]. Each is printed as the character of that number, from
    /// U+0000 to U+00FF.
    Unspecified {
        /// What stands between ESC and the control, in ECMA-35 (13) a byte from 02/00 to 02/15.
        intermediate: Option<u8>,
        /// The last byte, which says with the intermediate what is asked for.
        control: u8,
    },
    /// The one or two characters of a code.
    Code(EscCode),
}

impl Esc {
    /// The code whose number is 256 times the intermediate and the control, where no intermediate
    /// counts as 0; or the two arguments as they are where no code has that number.
    ///
    /// So `Some(0)` says the same as `None` before a control that is a code by itself.
    ///
    /// ```text
    /// Esc::parse(None, b'7')              // Code(DecSaveCursorPosition), printed as "\x1b7"
    /// Esc::parse(Some(b'('), b'0')        // Code(DecLineDrawingG0), "\x1b(0"
    /// Esc::parse(Some(b'!'), b'a')        // Unspecified { intermediate: Some(b'!'), control: b'a' }, "\x1b!a"
    /// ```
    pub fn parse(intermediate: Option<u8>, control: u8) -> Esc
        ensures { EscOf intermediate control result }
    {
        let number = 256 * u16::from(intermediate.unwrap_or(0)) + u16::from(control);
        match EscCode::from_u16(number) {
            Some(code) => Esc::Code(code),
            None => Esc::Unspecified {
                intermediate,
                control,
            },
        }
    }
}

impl fmt::Display for Esc {
    ghost output = { λ esc. Some (esc_text esc) };

    fn fmt<W: fmt::Write>(&self, f: &mut fmt::Formatter<W>) -> fmt::Result {
        let (intermediate, control) = match self {
            Esc::Unspecified {
                intermediate,
                control,
            } => (*intermediate, *control),
            Esc::Code(code) => code.halves(),
        };
        f.write_char('\x1b')?;
        if let Some(high) = intermediate {
            f.write_char(char::from(high))?;
        }
        f.write_char(char::from(control))
    }
}

impl EscCode {
    /// The code's number, from 0x36 to 0x4f53.
    pub fn to_u16(&self) -> u16
        ensures { result ≡ esc_number self.now }
    {
        *self as u16
    }

    /// The halves of its number, where a high half of 0 is none.
    fn halves(&self) -> (Option<u8>, u8)
        ensures { in_turn result.0 result.1 ≡ characters_of self.now }
    {
        let number = self.to_u16();
        let low = (number & 0xff) as u8;
        match (number >> 8) as u8 {
            0 => (None, low),
            high => (Some(high), low),
        }
    }
}
