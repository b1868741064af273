//! What text looks like: bytes that stand as they are, its attributes as a look, the markup of a look, and the cells of a line.
#![tactic(auto)]

mod ascii;
mod attributes;
mod bytes;
mod cells;
mod classes;
mod colors;
mod contrast;
mod css;
mod escaped;
mod given;
pub mod laws;
mod line;
mod look;
mod marking;
mod markup;
pub mod paint;
mod palette;
mod pen;
mod pieces;
mod row;
mod sets;
mod sheet;
mod step;
mod tags;
mod turns;
mod width;
pub mod xterm;

pub use ascii::{InLine, behind_end, odd_len, split_lines, style_len};
pub use bytes::{ByteClass, LANES, PlainAscii, behind, first_set, split_front};
pub use cells::{Cell, Glyph};
pub use given::{given_color, given_palette};
pub use look::Look;
pub use marking::Marking;
pub use markup::Markup;
pub use palette::Palette;
pub use pen::Pen;
pub use pieces::{append_char, append_text, append_turn};
pub use row::Row;
pub use sets::Set;
pub use sheet::{RULES, append_sheet};
pub use step::{Step, WIDEST, char_step};
pub use tags::{append_end, append_shut, append_switch};
pub use turns::{InFront, Turning, Turns};
