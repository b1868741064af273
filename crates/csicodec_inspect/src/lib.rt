//! The words of the program that rewrite no stream: `explain`, also of two files, `check`, `strip --check`, `cuts`, `assemble` and
//! `normalise`. They are a crate of their own since none of them waits for pages and overwritten lines.
#![tactic(auto)]

mod all_names;
mod assemble;
mod check;
mod checks;
mod compare;
mod cuts;
mod danger;
mod diff;
mod explain;
mod explained_cast;
mod names;
mod normal;
mod places;
mod timing;
mod visible;

pub use assemble::Assembly;
pub use check::{check_cast, check_stream, lines_written};
pub use checks::check_inputs;
pub use cuts::Cuts;
pub use explain::explain_inputs;
pub use normal::Normaliser;
pub use places::Spot;
pub use visible::VisibleText;
