//! A codec of the control sequences (CSI) and escape sequences (ESC) of terminals: what they stand for, and how they are
//! written.
#![tactic(auto)]

pub mod laws;

pub use csicodec_actions::{
    CharacterPath, Cursor, DecPrivateMode, Device, DeviceAttribute, DeviceAttributeFlags,
    DeviceAttributes, Edit, Keyboard, KittyKeyboardMode, Mode, MouseButton, MouseReport,
    TerminalMode, Window, XtSmGraphics, XtSmGraphicsAction, XtSmGraphicsItem, XtSmGraphicsStatus,
    XtermKeyModifierResource,
};
pub use csicodec_base::{
    AnsiColor, Blink, ColorSpec, Cracked, CsiParam, CsiTail, CursorStyle, CursorTabulationControl,
    DecPrivateModeCode, DeviceAttributeCodes, EraseInDisplay, EraseInLine, Esc, EscCode, Font,
    Intensity, KittyKeyboardFlags, Modifiers, MouseButtons, NotOneBased, NotSpelled, OneBased,
    ParseRefusal, ReadCsi, ReadError, Sgr, SgrCode, ShortCsi, SrgbaTuple, TabulationClear,
    TerminalModeCode, Text, TextBuffer, Underline, VerticalAlign, append_code, behind_csi,
    read_csi, read_csi_into, read_csi_within, sgr_front,
};
pub use csicodec_filter::{Faithful, Filter, NormalForm, Rewrite, append_spans, filter_all};
pub use csicodec_parser::{
    ActionRef, CSI, CSIParser, Look, ParseGraphics, Run, Tokens, Unspecified, parse_all,
    parse_all_over,
};
pub use csicodec_streams::{decode_all, encode, encode_all, normal_form, normalise};
pub use csicodec_tokens::Count;
pub use csicodec_transform::{DecodeError, RunError};
