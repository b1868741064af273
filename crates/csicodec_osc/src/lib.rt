//! Control strings. What an OSC says, the one between `ESC ]` and ST or BEL: titles, colours, links, the clipboard, folders, marks of
//! shells and editors, notifications, progress and the pointer. It is read in place, and written back byte for byte. And what any
//! control string does in words, as the documents of xterm, DEC, kitty, iTerm2 and others say, with bytes as they are shown.
//!
//! ```text
//! Osc::read(b"2;vim")                    // Title(Window, "vim")
//! Osc::read(b"8;id=1;https://a.b/")      // Link { params: "id=1", address: "https://a.b/" }
//! Osc::read(b"52;c;?")                   // Clipboard { selection: "c", content: Query }
//! Osc::read(b"9;4;1;50")                 // Progress(Shown, 50)
//! Osc::read(b"1337;SetMark")             // Unknown("1337;SetMark")
//! ```
#![tactic(auto)]

/// Several rows on one line.
macro_rules! pieces {
    ($($row:tt)*) => { [$($row)*] };
}

mod answers;
mod asked;
mod body;
mod clipboard;
mod colors;
mod command;
mod control_string;
mod device;
mod escape;
mod fields;
mod kitty_graphics;
pub mod laws;
mod osc;
mod osc_told;
mod osc_words;
mod shown;
mod string_rows;

pub use asked::Asked;
pub use command::{ColorTable, Dynamic, EditorMark, Folder, Mark, Progress, Title};
pub use control_string::{ControlString, FRONT};
pub use escape::append_escaped;
pub use fields::OscFields;
pub use osc::Osc;
pub use shown::{Quoted, Shown, are_plain, is_seen, plain_len, text_len};
