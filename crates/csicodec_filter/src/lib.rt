//! Any stream with something else in the place of its control sequences, as it comes. `csicodec` exports what is for users.
#![tactic(auto)]

mod faithful;
mod filter;
pub mod laws;
mod rewrite;
mod run;

pub use faithful::{Faithful, stays};
pub use filter::{Filter, append_spans};
pub use rewrite::{NormalForm, Rewrite};
pub use run::filter_all;
