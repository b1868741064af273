//! Streams for terminals: each control sequence in the shortest of its spellings that is found. `csicodec_filter` has what goes on
//! around it.
#![tactic(auto)]

mod alike;
mod all;
mod compact;
mod encode;
mod form;
pub mod laws;
mod lists;
mod notes;
mod runs;
mod shortener;
mod spell;
mod stream;

pub use all::compact_all;
pub use compact::Compact;
pub use encode::encode_compact;
pub use stream::{Compactor, compact_bytes};
