//! What all words of the program share: the command line, inputs one after the other, recordings of asciinema, and what is told of a
//! run that failed.
#![tactic(auto)]

mod command;
mod failure;
mod note;
mod options;
mod packed;
mod recorded;
mod recording;
mod replaced;
mod run;

pub use command::{Request, ScreenSize, Task, Wrong, nearest};
pub use failure::{Failure, Found};
pub use packed::Packing;
pub use recorded::Recorded;
pub use recording::{Recording, line_front, micros, time_of};
pub use run::{
    Alone, Inputs, Output, Recordings, Source, Worker, asked, failed, is_cast, refused,
    run_through, text_of, words_of, work_through,
};
