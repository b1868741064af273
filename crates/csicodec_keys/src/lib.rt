//! Keys as one type: which key, what is held down, what happens to it and what it types, whichever encoding it came in, and back to
//! each encoding.
//!
//! [`read`] gives the key of an event of `csicodec_events`, [`write`] the bytes of a key. What is written of a key is read back as
//! what the encoding can say of it (law `round_trip`).
#![tactic(auto)]

mod code;
mod fields;
mod key;
pub mod laws;
mod modifiers;
mod reading;
mod rows;
mod tables;
mod win32;
mod writing;

pub use code::KeyCode;
pub use key::{Encoding, Key, KeyEvent, MOST, Typed};
pub use modifiers::KeyModifiers;
pub use reading::{read, read_char};
pub use writing::write;
