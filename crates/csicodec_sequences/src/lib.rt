//! Control sequences that terminals know and that have no action of their own: a table of rows, each a form with the numbers
//! that it has, and one reader and one writer for all rows.
#![tactic(auto)]

mod known;
pub mod laws;
mod parts;
mod row;
mod rows;

pub use known::KnownSequence;
pub use parts::Parts;
pub use row::{LONGEST, MOST, NumberSlot, SequenceForm, SlotValues};
