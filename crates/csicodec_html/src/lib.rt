//! Terminal streams as HTML: the text, escaped, its attributes as spans, and its links. Nothing else of a stream gets into a tag.
#![tactic(auto)]

pub mod laws;
mod page;
mod rule;
mod run;
mod sheet;

pub use csicodec_looks::{
    InFront, Look, Markup, Palette, RULES, Turning, Turns, append_char, append_text, append_turn,
    given_color, given_palette,
};
pub use page::{html, html_with};
pub use rule::SpanWriter;
pub use run::{html_all, html_all_with};
pub use sheet::{BEHIND, BODY, HEAD, STYLE, UNNAMED, front, title};
