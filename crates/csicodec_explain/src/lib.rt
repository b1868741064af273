//! A stream in words, as it comes: a line, or an object of JSON, for each of its spans, with what was asked for; and how often each name
//! stood. And bytes for a line of JSON that has actions and no bytes.
#![tactic(auto)]

mod copied;
mod digits;
mod explain;
mod fill;
mod input;
mod made;
mod page;
mod patterns;
mod sheet;
mod taken;

use csicodec_listing::Result;
pub use explain::Explainer;
pub use made::Maker;
