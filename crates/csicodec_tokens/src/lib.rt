//! What one token and one control sequence is, the fields of a list of tokens, and a short text to build one in.
#![tactic(auto)]

mod body;
mod count;
mod fields;
pub mod laws;
mod param;
mod reader;
mod refusal;
mod text;
mod words;

pub use body::walk_body;
pub use count::Count;
pub use fields::Cracked;
pub use param::{CsiParam, OneBased};
pub use reader::{
    CsiTail, ReadCsi, ReadError, ShortCsi, behind_csi, read_csi, read_csi_into, read_csi_within,
};
pub use refusal::{NotOneBased, NotSpelled, ParseRefusal};
pub use text::{Text, TextBuffer};
