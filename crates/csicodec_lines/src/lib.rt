//! Untrusted logs for a terminal: each line is cleaned by itself, so that what one leaves open reaches no other.
//! And where a stream may be cut, so that each piece is as good as a stream of its own.
#![tactic(auto)]

mod cuts;
mod finder;
pub mod laws;
mod lines;
mod run;
mod search;

pub use cuts::cuts_all;
pub use lines::Lines;
pub use run::{clean_lines_all, strip_lines_all};
