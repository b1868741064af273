//! Control sequences and escape sequences in words for people: the name that the standard or the terminal's maker gave, and
//! what it does. And what a terminal sends: keys, the mouse and the focus.
#![tactic(auto)]

/// Words, or parts of them, on a line.
macro_rules! pieces {
    ($($piece:tt)*) => { [$($piece)*] };
}

mod action_words;
mod actions;
mod device;
mod escape_rows;
mod escapes;
mod input;
mod key_words;
mod keys;
mod mode_words;
mod out;
mod reading;
mod rows;
mod sequence_rows;
mod sequences;
mod sgr;
mod sgr_words;
mod template;
mod told;

pub use actions::{ActionList, ActionWords};
pub use escapes::{EscReading, words_of_control};
pub use input::Did;
pub use reading::Reading;
pub use rows::find;
