//! Streams whose lines are written as they stand when they end, as plain text or with their styles: as a log each by itself, or as one.
ghost use Rattle.std.specs.Prelude.{◌≡◌, ◌==◌, ◌++◌, ◌∷◌, [], ℕ, List, OnOk, not, true};
ghost use Rattle.csicodec_transform.specs.Transform.{GoesOn};
ghost use Rattle.csicodec_tool.specs.{Log.IsLine, Stream.EndsLog, Stream.GoesIn, Stream.IsBegun, Stream.PassesLog};

use csicodec_clean::{Anew, Cleaner, Depth, Kept, Passing};
use csicodec_listing::split_line;
use csicodec_overwrite::Overwriter;
use csicodec_transform::Transform;
use std::alloc::{AllocError, Global};

/// A log of which some has come.
#[derive(Drop)]
pub struct Log {
    /// Whether each line is one by itself.
    each: bool,
    /// What of the styles of a line passes. None where all is plain text.
    styles: Option<Passing>,
    /// The line that isn't over.
    line: Overwriter,
    /// What its styles go through, if they pass.
    cleaner: Cleaner<Kept>,
    /// A place that is kept for what is painted.
    painted: Vec<u8>,
}

impl Log {
    /// Of which nothing has come, with each line by itself or as one.
    pub fn new(alloc: Global, styles: Option<Passing>, each: bool) -> Log
        ensures each { result.each ≡ each }
        ensures styles { result.styles ≡ styles }
        ensures begun { PassesLog result [] [] result }
    {
        let line = match styles {
            Some(_) => Overwriter::painting(alloc),
            None => Overwriter::new(alloc),
        };
        let passing = styles.unwrap_or(Passing {
            depth: Depth::Full,
            links: false,
            restores: true,
        });
        Log {
            each,
            styles,
            line,
            cleaner: Cleaner::new(alloc, Kept::letting(alloc, passing)),
            painted: Vec::new(alloc),
        }
    }

    /// Takes a part of the line.
    fn take_part(&mut self, part: &[u8], out: &mut Vec<u8>) -> Result<(), AllocError>
        ensures { OnOk result ((text : List ℕ) × GoesIn self.old part.now text self.new
            × (out.new.items ≡ out.old.items ++ text)) }
    {
        let Some(_) = self.styles else {
            return self.line.push(part, out);
        };
        self.painted.clear();
        self.line.push(part, &mut self.painted)?;
        self.cleaner.push(&self.painted, out)
    }

    /// Appends what is left of the line: nothing of it comes any more, and the next one begins.
    fn end_line(&mut self, out: &mut Vec<u8>) -> Result<(), AllocError>
        ensures text { OnOk result ((text : List ℕ) × EndsLog self.old text
            × (out.new.items ≡ out.old.items ++ text)) }
        ensures begun { OnOk result (IsBegun self.old self.new) }
    {
        let Some(passing) = self.styles else {
            return self.line.finish(out);
        };
        self.painted.clear();
        self.line.finish(&mut self.painted)?;
        self.cleaner.push(&self.painted, out)?;
        self.cleaner.finish(out)?;
        self.cleaner.begin(passing);
        Ok(())
    }

    /// Takes what stands ahead of a newline, and that.
    fn take_line(&mut self, line: &[u8], out: &mut Vec<u8>) -> Result<(), AllocError>
        requires each { self.old.each ≡ true }
        requires line { IsLine line.now }
        ensures goes { OnOk result ((more : List ℕ)
            × GoesOn PassesLog self.old (line.now ++ 10 ∷ []) more self.new
            × (out.new.items ≡ out.old.items ++ more)) }
        ensures each { OnOk result (self.new.each ≡ true) }
    {
        self.take_part(line, out)?;
        self.end_line(out)?;
        Ok(out.push(b'\n')?)
    }
}

impl Transform for Log {
    ghost use Rattle.std.specs.Prelude.{⊤};
    ghost use Rattle.csicodec_tool.specs.Stream.{EndsLog, PassesLog};

    ghost stands = { λ _. ⊤ };

    ghost passes = { PassesLog };

    ghost rests = { λ _. ⊤ };

    ghost ends = { EndsLog };

    fn take(&mut self, bytes: &[u8], out: &mut Vec<u8>) -> Result<(), AllocError> {
        if !self.each {
            return self.take_part(bytes, out);
        }
        let mut rest = bytes;
        while let Some((line, behind)) = split_line(rest) {
            self.take_line(line, out)?;
            rest = behind;
        }
        self.take_part(rest, out)
    }

    fn pause(&mut self, _out: &mut Vec<u8>) -> Result<(), AllocError> {
        Ok(())
    }

    fn end(&mut self, out: &mut Vec<u8>) -> Result<(), AllocError> {
        self.end_line(out)
    }
}
