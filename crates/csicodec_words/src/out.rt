//! Where words are written.

use itoa::Buffer;
use std::fmt::{self, Display, Formatter, Write};

/// A formatter, and whether all that was written went into it: behind what didn't, nothing is written.
#[derive(Drop)]
pub(crate) struct Out<'a, W> {
    f: &'a mut Formatter<W>,
    pub(crate) done: fmt::Result,
}

impl<'a, W: Write> Out<'a, W> {
    /// To which nothing was written yet.
    pub(crate) fn new(f: &'a mut Formatter<W>) -> Out<'a, W> {
        Out { f, done: Ok(()) }
    }

    /// Writes a text.
    pub(crate) fn put(&mut self, text: &str) {
        if self.done.is_ok() {
            self.done = self.f.write_str(text);
        }
    }

    /// Writes a number in decimal digits.
    pub(crate) fn put_number(&mut self, number: i64) {
        self.put(Buffer::new().format(number));
    }

    /// Writes what prints by itself.
    pub(crate) fn show<T: Display>(&mut self, value: &T) {
        if self.done.is_ok() {
            self.done = write!(self.f, "{value}");
        }
    }
}
