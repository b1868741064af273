//! A stream of lines, each of which is cleaned by itself, as it comes.
ghost use Rattle.std.specs.{Prelude.◌≡◌, Prelude.◌<◌, Prelude.◌++◌, Prelude.◌∷◌, Prelude.[], Prelude.ℕ, Prelude.List, Prelude.OnOk, Prelude.IfOk, Prelude.true};
ghost use Rattle.std.specs.{Prelude.length, Prelude.⊤, List.AllByRecursion};
ghost use Rattle.csicodec_lines.specs.{Lines.ends_line, Lines.joins, Private.Steps.IsWithin, Stream.Passes, Stream.begun};
ghost use Rattle.csicodec_transform.specs.Transform.{Adds, AddsFront};
ghost use Rattle.csicodec_clean.specs.{Steps.bare, Stream.start_of, Styled.first_kept};

use csicodec_clean::{
    Anew, ByteClass, Cleaner, Dropped, Kept, LANES, Passing, Rule, first_set, split_front,
    split_shown,
};
use csicodec_transform::Transform;
use std::alloc::{AllocError, Global};
use std::simd::prelude::*;

/// Whether the byte is the LF of a CR LF, which ends no line of its own.
fn joins(returned: bool, byte: u8) -> bool
    ensures { result ≡ joins returned byte }
{
    returned && byte == b'\n'
}

/// The bytes that end no line.
struct Within;

impl ByteClass for Within {
    ghost use Rattle.csicodec_lines.specs.Private.Steps.{is_within};

    ghost class = { is_within };

    #[inline(always)]
    fn has(byte: u8) -> bool {
        byte != b'\n' && byte != b'\r'
    }

    #[inline(always)]
    fn lanes(bytes: &[u8]) -> usize {
        let lanes = u8x16::from_slice(bytes);
        let ends = lanes.simd_eq(u8x16::splat(b'\n')) | lanes.simd_eq(u8x16::splat(b'\r'));
        first_set(ends.to_bitmask())
    }
}

/// A stream that is cleaned by a rule, line by line, as it comes: a newline ends what is open, and stands in the output.
///
/// A CR alone ends a line as LF does, and CR LF is one end. Of a line it holds what a [`Cleaner`] does.
#[derive(Drop)]
pub struct Lines<R, P> {
    /// By what the rule begins each line.
    by: P,
    /// What has come of the line.
    line: Cleaner<R>,
    /// The line before it ended with a CR, and nothing has come behind that.
    returned: bool,
}

impl Lines<Dropped, ()> {
    /// A stream that is stripped, of which nothing has come.
    pub fn stripped(alloc: Global) -> Lines<Dropped, ()>
        ensures { result ≡ begun (λ (_ : ⊤). bare) tt }
    {
        Lines {
            by: (),
            line: Cleaner::new(alloc, Dropped),
            returned: false,
        }
    }
}

impl Lines<Kept, Passing> {
    /// A stream of which this passes, and of which nothing has come.
    pub fn cleaned(alloc: Global, passing: Passing) -> Lines<Kept, Passing>
        ensures { result ≡ begun first_kept passing }
    {
        Lines {
            by: passing,
            line: Cleaner::new(alloc, Kept::letting(alloc, passing)),
            returned: false,
        }
    }
}

impl<R: Rule + Anew<P> + Drop, P: Copy> Lines<R, P> {
    /// Takes bytes that end no line.
    fn take_within(&mut self, bytes: &[u8], out: &mut Vec<u8>) -> Result<(), AllocError>
        requires { AllByRecursion IsWithin bytes.now }
        ensures { OnOk result (Adds (Passes R.begins R.gives R.closes)
            self.old bytes.now out.old.items out.new.items self.new) }
    {
        if bytes.is_empty() {
            return Ok(());
        }
        self.line.push(bytes, out)?;
        self.returned = false;
        Ok(())
    }

    /// Takes a byte that ends a line, or joins the one that has. Whether a line begins behind it.
    fn take_end(&mut self, byte: u8, out: &mut Vec<u8>) -> Result<bool, AllocError>
        requires { ends_line byte ≡ true }
        ensures taken { OnOk result (Adds (Passes R.begins R.gives R.closes)
            self.old (byte ∷ []) out.old.items out.new.items self.new) }
        ensures begun { IfOk result
            (λ begins. begins ≡ true → self.new.line ≡ start_of (R.begins self.new.by)) }
    {
        if joins(self.returned, byte) {
            self.returned = false;
            return Ok(false);
        }
        self.line.finish(out)?;
        out.push(b'\n')?;
        self.line.begin(self.by);
        self.returned = byte == b'\r';
        Ok(true)
    }

    /// Takes the characters in front that are shown, of however many lines, where a line begins that its rule ends without a byte, and
    /// answers what is behind them.
    fn take_shown<'a>(&mut self, bytes: &'a [u8], out: &mut Vec<u8>) -> Result<&'a [u8], AllocError>
        requires { self.old.line ≡ start_of (R.begins self.old.by) }
        ensures { IfOk result (λ rest. AddsFront (Passes R.begins R.gives R.closes)
            self.old bytes.now rest.now out.old.items out.new.items self.new) }
    {
        let (front, rest) = split_shown(bytes);
        if front.len() < LANES || self.returned {
            return Ok(bytes);
        }
        let before = out.len();
        self.line.finish(out)?;
        self.line.begin(self.by);
        if out.len() > before {
            out.truncate(before);
            return Ok(bytes);
        }
        R::append_text(front, front.len(), out)?;
        Ok(rest)
    }

    /// Takes bytes up to the end of a line, and text behind that which is shown as it is, and answers what is behind it.
    fn take_line<'a>(&mut self, bytes: &'a [u8], out: &mut Vec<u8>) -> Result<&'a [u8], AllocError>
        ensures taken { IfOk result (λ rest. AddsFront (Passes R.begins R.gives R.closes)
            self.old bytes.now rest.now out.old.items out.new.items self.new) }
        ensures less { IfOk result
            (λ rest. 0 < length bytes.now → length rest.now < length bytes.now) }
    {
        let (front, behind) = split_front::<Within>(bytes);
        self.take_within(front, out)?;
        let Some((end, rest)) = behind.split_first() else {
            return Ok(behind);
        };
        if !self.take_end(*end, out)? {
            return Ok(rest);
        }
        let behind = self.take_shown(rest, out)?;
        Ok(behind)
    }
}

impl<R: Rule + Anew<P> + Drop, P: Copy> Transform for Lines<R, P> {
    ghost use Rattle.std.specs.Prelude.{⊤};
    ghost use Rattle.csicodec_lines.specs.Stream.{Ending, Passes};

    ghost stands = { λ now. ⊤ };

    ghost passes = { Passes R.begins R.gives R.closes };

    ghost rests = { λ _. ⊤ };

    ghost ends = { Ending R.gives R.closes };

    fn take(&mut self, bytes: &[u8], out: &mut Vec<u8>) -> Result<(), AllocError> {
        let mut rest = bytes;
        while !rest.is_empty() {
            rest = self.take_line(rest, out)?;
        }
        Ok(())
    }

    fn pause(&mut self, _out: &mut Vec<u8>) -> Result<(), AllocError> {
        Ok(())
    }

    fn end(&mut self, out: &mut Vec<u8>) -> Result<(), AllocError> {
        self.line.finish(out)
    }
}
