//! A listing of a stream: the rows and the objects of JSON that stand for its spans, and what is asked for of them. And the bytes that
//! objects of JSON stand for, a line each, as `csicodec explain --json` writes them: so a stream that was edited there becomes bytes again.
//!
//! ```text
//! {"at":0,"kind":"text","text":"hi"}          hi
//! {"at":2,"kind":"text","hex":"ff"}           the byte FF
//! {"at":3,"kind":"event","text":""}           nothing
//! {"kind":"csi","actions":[]}                 a refusal
//! ```
#![tactic(auto)]

pub mod cache;
pub mod clipboard;
pub mod columns;
pub mod counts;
pub mod fields;
mod glance;
pub mod keyed;
pub mod laws;
mod lines;
mod object;
mod rests;
pub mod search;
pub mod style;
pub mod to_json;

pub use lines::{Assembler, split_line};
pub use object::{Fault, Finds, Refusal, bytes_of, bytes_of_line};
use std::alloc::AllocError;

/// Of what fails only where memory runs out.
pub type Result<T> = std::result::Result<T, AllocError>;
