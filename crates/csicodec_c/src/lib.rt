//! The codec for C, and for every language that calls C.
#![tactic(auto)]

mod filter;
mod html;
mod input;
mod key;
pub mod laws;
mod osc;
mod sequences;
mod span;
mod step;
mod strip;
mod version;

pub use filter::{
    Filtered, csicodec_compact, csicodec_compact_semicolons, csicodec_compact_whole,
    csicodec_encode_compact, csicodec_filter,
};
pub use html::{Choices, csicodec_html, csicodec_overwrite};
pub use input::{Evented, Received, csicodec_event, csicodec_input, csicodec_pause};
pub use key::{FrontKey, csicodec_key};
pub use osc::{Commanded, csicodec_osc};
pub use sequences::{
    Recognised, csicodec_encode, csicodec_is_canonical, csicodec_known, csicodec_next,
    csicodec_normalise, csicodec_terminal_actions,
};
pub use span::{Spanned, csicodec_esc, csicodec_span};
pub use step::{Cleaned, Cleaning, csicodec_clean_end, csicodec_clean_step, csicodec_strip_step};
pub use strip::{Stripped, csicodec_clean, csicodec_clean_with, csicodec_strip};
pub use version::csicodec_version;
