//! Lists that are read whole: which list is which action before which final character.

mod cursor;
mod device;
mod edit;
mod keyboard;
mod mode;
mod mouse;
mod params;
mod path;
mod window;

pub use cursor::cursor_action;
pub use device::device_action;
pub use edit::edit_action;
pub use keyboard::keyboard_action;
pub use mode::mode_action;
pub use mouse::mouse_action;
pub use path::path_action;
pub use window::window_action;
