//! What one list of parameters stands for: its actions, one after the other, and the list or the text that they go into.
//! `csicodec` exports what is for users.
#![tactic(auto)]

mod actions;
mod canonical;
mod group;
pub mod laws;
mod list;
mod look;
mod parser;
mod sink;
mod tokens;
mod xtsmgraphics;

pub use actions::{CSI, Unspecified, append_text};
pub use group::Group;
pub use list::{list_into, parse_all, parse_all_over, parse_into};
pub use look::Look;
pub use parser::{ActionRef, CSIParser, Run};
pub use sink::{Sink, Texts};
pub use tokens::Tokens;
pub use xtsmgraphics::ParseGraphics;
