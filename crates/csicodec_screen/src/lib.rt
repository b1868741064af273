//! The screen of a terminal: what a stream shows. `specs/` says what that is.
#![tactic(auto)]

mod acts;
mod areas;
mod attributes;
mod cell;
mod cells;
mod drawing;
mod emulator;
mod escapes;
mod flags;
mod kept;
pub mod laws;
mod list;
mod look;
mod modes;
mod moving;
mod receiver;
mod rows;
mod screen;
mod scrolling;
mod sets;
mod state;
mod steps;
mod strings;
mod titles;
mod views;

pub use cell::{Cell, Glyph, MARKS};
pub use cells::Cells;
pub use csicodec_looks::Set;
pub use emulator::Emulator;
pub use flags::Flags;
pub use kept::{Back, Links, TitleStack};
pub use look::{Look, Pen};
pub use rows::{Area, Row, Rows, Size};
pub use screen::Screen;
pub use sets::{Sets, Slot};
pub use state::{Margins, Modes, Saved, Titles};
