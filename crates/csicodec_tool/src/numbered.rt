//! What `--ids` makes of a page: in front of each line stands an anchor with its number, as `#L42` names it.
ghost use Rattle.std.specs.Prelude.{◌≡◌, ◌++◌, [], ℕ, List, OnOk, IfOk};
ghost use Rattle.csicodec_tool.specs.Numbered.{anchor, behind, front, front_of, further, numbered};

use csicodec_transform::Transform;
use std::alloc::{AllocError, Global};

/// A place in a page: whether a line starts there, and its number, counted from 1.
#[derive(Clone, Copy)]
pub struct Place {
    starts: bool,
    line: u64,
}

impl Place {
    /// Where a page begins.
    fn front() -> Place
        ensures { result ≡ front }
    {
        Place {
            starts: true,
            line: 1,
        }
    }

    /// A byte further.
    fn further(self, byte: u8) -> Place
        ensures { result ≡ further self byte }
    {
        if byte == b'\n' {
            return Place {
                starts: true,
                line: self.line.saturating_add(1),
            };
        }
        Place {
            starts: false,
            line: self.line,
        }
    }
}

/// Appends the anchor of a line.
fn append_anchor(line: u64, out: &mut Vec<u8>) -> Result<(), AllocError>
    ensures { OnOk result (out.new.items ≡ out.old.items ++ anchor line) }
{
    let text = format!(in *out.allocator(); "<span id=\"L{line}\"></span>")?;
    out.extend_from_slice(text.as_bytes())?;
    Ok(())
}

/// Appends it where a line starts.
fn append_front(place: Place, out: &mut Vec<u8>) -> Result<(), AllocError>
    ensures { OnOk result (out.new.items ≡ out.old.items ++ front_of place) }
{
    if place.starts {
        return append_anchor(place.line, out);
    }
    Ok(())
}

/// Appends the bytes from a place on, with an anchor in front of the first of each line, and answers the place behind them.
fn append_numbered(place: Place, bytes: &[u8], out: &mut Vec<u8>) -> Result<Place, AllocError>
    ensures text { OnOk result (out.new.items ≡ out.old.items ++ numbered place bytes.now) }
    ensures place { IfOk result (λ last. last ≡ behind place bytes.now) }
{
    let mut now = place;
    let mut rest = bytes;
    while let Some((byte, others)) = rest.split_first() {
        append_front(now, out)?;
        out.push(*byte)?;
        now = now.further(*byte);
        rest = others;
    }
    Ok(now)
}

/// A transform whose lines are numbered.
#[derive(Drop)]
pub struct Numberer<T> {
    inner: T,
    place: Place,
    /// A place that is kept for what it writes.
    text: Vec<u8>,
}

impl<T> Numberer<T> {
    /// At the front of a page.
    pub fn new(alloc: Global, inner: T) -> Numberer<T>
        ensures inner { result.inner ≡ inner }
        ensures place { result.place ≡ front }
    {
        Numberer {
            inner,
            place: Place::front(),
            text: Vec::new(alloc),
        }
    }

    /// Appends what was written, with its anchors.
    fn pass(&mut self, out: &mut Vec<u8>) -> Result<(), AllocError>
        ensures passes { OnOk result ((out.new.items ≡ out.old.items ++ numbered self.old.place self.old.text.items)
            × (self.new.place ≡ behind self.old.place self.old.text.items)) }
        ensures inner { self.new.inner ≡ self.old.inner }
    {
        self.place = append_numbered(self.place, &self.text, out)?;
        Ok(())
    }
}

impl<T: Transform + Drop> Transform for Numberer<T> {
    ghost use Rattle.csicodec_tool.specs.Numbered.{EndsNumbered, PassesNumbered};

    ghost stands = { λ n. T.stands n.inner };

    ghost passes = { PassesNumbered T.passes };

    ghost rests = { λ n. T.rests n.inner };

    ghost ends = { EndsNumbered T.ends };

    fn take(&mut self, bytes: &[u8], out: &mut Vec<u8>) -> Result<(), AllocError> {
        self.text.clear();
        self.inner.take(bytes, &mut self.text)?;
        self.pass(out)
    }

    fn pause(&mut self, out: &mut Vec<u8>) -> Result<(), AllocError> {
        self.text.clear();
        self.inner.pause(&mut self.text)?;
        self.pass(out)
    }

    fn end(&mut self, out: &mut Vec<u8>) -> Result<(), AllocError> {
        self.text.clear();
        self.inner.end(&mut self.text)?;
        let _last = append_numbered(self.place, &self.text, out)?;
        Ok(())
    }
}
