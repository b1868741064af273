//! Streams of control sequences: bytes to actions, actions to bytes, and bytes to their normal form. `csicodec` exports what is for
//! users.
#![tactic(auto)]

mod color;
mod decode;
mod normal;
mod position;
mod stream;
mod texts;

pub use color::{color_text, read_color, take_simple};
pub use decode::{decode_all, normal_form};
pub use normal::Normal;
pub use position::{append_front, position_len};
pub use stream::normalise;
pub use texts::{encode, encode_all};
