//! Control strings in words: what an OSC, a DCS or an APC does.

use crate::body::{Body, tell};
use crate::device::device_control;
use crate::kitty_graphics::graphics;
use crate::osc_told::command;
use std::fmt;

/// So many of the first bytes of a string are enough for its words.
pub const FRONT: usize = 4096;

/// A control string, of which the first bytes are there. It prints as its words: the name that its document gives, two
/// blanks, and what it does.
///
/// ```text
/// \e]2;a title\x07        OSC 2  window title: "a title"
/// ```
#[derive(Clone, Copy)]
pub struct ControlString<'a> {
    /// Its first bytes, from the ESC that opens it on: all of them, or at least [`FRONT`].
    pub front: &'a [u8],
    /// How many bytes it has in all.
    pub len: u64,
    /// Whether ST, or BEL behind an OSC, closed it: it isn't over else, or something cancelled it.
    pub closed: bool,
    /// Whether it was BEL that closed it.
    pub bell: bool,
}

impl<'a> ControlString<'a> {
    /// What stands between the two characters that open it and the ones that close it.
    fn body(&self) -> Body<'a> {
        let front = self.front;
        let more = self.len.saturating_sub(front.len() as u64);
        let bytes = front.get(2..).unwrap_or(front);
        let ends: &[u8] = match (self.closed, self.bell) {
            (false, _) => b"",
            (true, true) => b"\x07",
            (true, false) => b"\x1b\\",
        };
        let bytes = match more {
            0 => bytes.strip_suffix(ends).unwrap_or(bytes),
            _ => bytes,
        };
        let more = more.saturating_sub(ends.len() as u64);
        Body { bytes, more }
    }
}

impl<'a> fmt::Display for ControlString<'a> {
    fn fmt<W: fmt::Write>(&self, f: &mut fmt::Formatter<W>) -> fmt::Result {
        let body = self.body();
        let told = match (self.front.get(1).copied(), body.behind(b"G")) {
            (Some(b']'), _) => command(f, body),
            (Some(b'P'), _) => device_control(f, body),
            (Some(b'_'), Some(keys)) => graphics(f, keys),
            (Some(b'_'), None) => tell(f, "APC  command to a program", body),
            (Some(b'^'), _) => tell(f, "PM  privacy message", body),
            _ => tell(f, "SOS  string", body),
        };
        told?;
        f.write_str(if self.closed { "" } else { " (not closed)" })
    }
}
