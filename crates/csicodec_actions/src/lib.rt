//! The actions of control sequences, subject by subject: the table of the lists that stand for them, which list is read whole as which
//! action, how they are written, and which of them are read back from their own texts. `csicodec` exports what is for users.
#![tactic(auto)]

mod canonical;
mod cursor;
mod device;
mod edit;
mod encode;
pub mod fields;
mod keyboard;
pub mod laws;
mod lists;
mod mode;
mod mouse;
mod path;
mod window;
mod xtsmgraphics;

pub use canonical::{is_said, is_spellable_token};
pub use cursor::Cursor;
pub use device::{Device, DeviceAttribute, DeviceAttributeFlags, DeviceAttributes};
pub use edit::Edit;
pub use keyboard::{Keyboard, KittyKeyboardMode};
pub use lists::{
    cursor_action, device_action, edit_action, keyboard_action, mode_action, mouse_action,
    path_action, window_action,
};
pub use mode::{Change, DecPrivateMode, Mode, Switch, TerminalMode, XtermKeyModifierResource};
pub use mouse::{MouseButton, MouseReport};
pub use path::{CharacterPath, write_path};
pub use window::Window;
pub use xtsmgraphics::{
    GraphicsRef, XtSmGraphics, XtSmGraphicsAction, XtSmGraphicsItem, XtSmGraphicsStatus,
    graphics_action, graphics_ref,
};
