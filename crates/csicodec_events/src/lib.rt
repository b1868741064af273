//! The events of a stream for a terminal, one after the other: text, controls, control sequences, escape sequences, and pieces
//! of control strings and of what went wrong.
//!
//! All but control sequences are cut as [`Spans`](csicodec_spans::Spans) cuts them. Within a control sequence a C0 control is an
//! event of its own, as soon as it comes, and the sequence is read as if it weren't there, as DEC's terminals and xterm do; DEL is
//! ignored. `specs/Events.antt` is all of the rules.
#![tactic(auto)]

mod event;
mod front;
mod input;
pub mod laws;
mod sequence;
mod text;

pub use event::{Event, Events, Told, begins_csi};
pub use front::Front;
pub use input::{Dialect, InputEvent, Sent};
pub use sequence::append_read;
