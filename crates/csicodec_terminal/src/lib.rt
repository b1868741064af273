//! A second reading of a parameter list: as terminals take it, where the table of actions reads nothing of it or less.
#![tactic(auto)]

mod cut;
pub mod laws;
mod regular;
mod terminal;

pub use terminal::{terminal_actions, terminal_actions_into};
