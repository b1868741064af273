//! Each line of a stream as it stands when it ends: what was written over, or erased, is gone. It is plain text, or a page.
#![tactic(auto)]

mod front;
pub mod laws;
mod line_text;
mod overwriter;
mod reader;
mod run;
mod seen;
mod text;

pub use csicodec_looks::Marking;
pub use overwriter::Overwriter;
pub use run::{html_overwritten_all, overwrite_all};
