//! What a stream becomes, from a reader to a writer, and how that ends. Nothing of this knows what a sequence means.
#![tactic(auto)]

mod driven;
mod error;
mod io;
mod known;
mod memo;
mod transform;

pub use error::{DecodeError, RunError};
pub use io::{CHUNK, MOST, keep_from, read_out, read_some, receive, send, write_out};
pub use known::Known;
pub use memo::{Memo, Note, Noted, WIDE};
pub use transform::{READ, Transform, transform_all};
