//! What one token, one control sequence and one piece of a parameter list is, and what has a name.
#![tactic(auto)]

mod entries;
pub mod laws;
mod pieces;
mod ready;
mod sgr;

pub use csicodec_names::{
    AnsiColor, Blink, ColorSpec, CursorStyle, CursorTabulationControl, DecPrivateModeCode,
    DeviceAttributeCodes, EraseInDisplay, EraseInLine, Esc, EscCode, Intensity, KittyKeyboardFlags,
    Modifiers, MouseButtons, SgrCode, SrgbaTuple, TabulationClear, TerminalModeCode, Underline,
    VerticalAlign,
};
pub use csicodec_tokens::{
    Cracked, CsiParam, CsiTail, NotOneBased, NotSpelled, OneBased, ParseRefusal, ReadCsi,
    ReadError, ShortCsi, Text, TextBuffer, behind_csi, read_csi, read_csi_into, read_csi_within,
};
pub use pieces::sgr_front;
pub use ready::append_code;
pub use sgr::{Font, Sgr};
