//! Actions as structs, of which other languages' calls are made.
#![tactic(auto)]

mod attributes;
mod by_number;
mod digits;
mod encode;
mod front;
pub mod laws;
mod lay;
mod movement;
mod next;
mod normalise;
mod numbers;
mod room;
mod rows;
mod status;
mod structs;
mod token;

pub use encode::{
    Encoded, Judged, actions_of, judge, part, put_text, put_texts, put_unknown, refused,
};
pub use front::lay_front;
pub use next::{NextSequence, lay_as_terminals, refused as unlaid};
pub use normalise::{Normalised, put_normal_form};
pub use room::{fill, put};
pub use status::Status;
pub use structs::{Param, Struct, row};
