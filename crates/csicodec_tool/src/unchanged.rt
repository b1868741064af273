//! What `clean --check` does: it says whether `clean` with its options would change a stream, and where.
ghost use Rattle.std.specs.Prelude.{⊤};

use crate::rewrite::Work;
use crate::rewritten_cast::Rewriter;
use crate::spelled::{append_spelled, append_sure};
use csicodec_command::{Failure, Request, Worker, work_through};
use csicodec_inspect::{Spot, lines_written};
use csicodec_transform::{CHUNK, RunError, keep_from, receive, send};
use std::alloc::{AllocError, Global};
use std::io::{BufRead, Read, Write};

/// How many bytes two texts begin with alike.
fn alike_len(first: &[u8], second: &[u8]) -> usize {
    let pairs = first.iter().zip(second.iter());
    pairs.take_while(|(one, other)| **one == **other).count()
}

/// What came of a stream and what was made of it, behind what was alike in both.
#[derive(Drop)]
struct Comparison {
    stage: Box<Rewriter>,
    /// Whether characters that aren't seen are spelled.
    visible: bool,
    /// What the stage made, where some of that isn't spelled yet.
    unspelled: Vec<u8>,
    came: Vec<u8>,
    made: Vec<u8>,
    /// Where both begin.
    spot: Spot,
}

impl Comparison {
    /// Of which nothing came.
    fn new(alloc: Global, stage: Box<Rewriter>, visible: bool) -> Comparison {
        Comparison {
            stage,
            visible,
            unspelled: Vec::new(alloc),
            came: Vec::new(alloc),
            made: Vec::new(alloc),
            spot: Spot::first(),
        }
    }

    /// Takes the next bytes.
    fn push(&mut self, bytes: &[u8]) -> Result<(), AllocError> {
        self.came.extend_from_slice(bytes)?;
        if !self.visible {
            return self.stage.push(bytes, &mut self.made);
        }
        self.stage.push(bytes, &mut self.unspelled)?;
        let rest = append_sure(&self.unspelled, &mut self.made)?.len();
        let over = self.unspelled.len().saturating_sub(rest);
        keep_from(&mut self.unspelled, over);
        Ok(())
    }

    /// Nothing comes any more.
    fn finish(&mut self) -> Result<(), AllocError> {
        if !self.visible {
            return self.stage.finish(&mut self.made);
        }
        self.stage.finish(&mut self.unspelled)?;
        append_spelled(&self.unspelled, &mut self.made)
    }

    /// Drops what both begin with alike, as far as both go; whether they do. The spot goes on behind what is alike.
    fn drop_alike(&mut self) -> bool {
        let len = self.came.len().min(self.made.len());
        let (came, made) = (&self.came[..len], &self.made[..len]);
        if came == made {
            self.spot.pass(came);
            keep_from(&mut self.came, len);
            keep_from(&mut self.made, len);
            return true;
        }
        let alike = alike_len(came, made);
        self.spot.pass(came.get(..alike).unwrap_or(came));
        false
    }

    /// Where what is made of a stream begins to be something else than what comes, if it does.
    fn first_change<R: Read>(&mut self, input: &mut R) -> Result<Option<Spot>, Failure> {
        let mut chunk = [0u8; CHUNK];
        for _ in 0..u64::MAX {
            let len = receive(input, &mut chunk)?;
            if len == 0 {
                self.finish()?;
            } else {
                self.push(&chunk[..len])?;
            }
            if !self.drop_alike() {
                return Ok(Some(self.spot));
            }
            if len == 0 {
                let is_same = self.came.is_empty() && self.made.is_empty();
                return Ok(if is_same { None } else { Some(self.spot) });
            }
        }
        Err(Failure::Run(RunError::Read))
    }
}

/// One stream after the other, and whether one would be changed.
#[derive(Drop)]
struct Unchanged<'a> {
    work: Work<'a>,
    /// The name of the stream.
    name: String,
    changes: bool,
}

impl<'a> Unchanged<'a> {
    /// Compares a stream with what is made of it. Where that begins to be otherwise is told.
    fn compare<R: Read, W: Write>(
        &mut self,
        alloc: Global,
        input: &mut R,
        output: &mut W,
    ) -> Result<(), Failure> {
        let Some(stage) = self.work.stage(alloc)? else {
            return Ok(());
        };
        let mut comparison = Comparison::new(alloc, stage, self.work.is_visible());
        let Some(spot) = comparison.first_change(input)? else {
            return Ok(());
        };
        self.changes = true;
        let mut text = String::new(alloc);
        spot.append_to(&self.name, &mut text)?;
        text.push_str("clean would change this\n")?;
        Ok(send(output, text.as_bytes())?)
    }
}

impl<'a> Worker for Unchanged<'a> {
    ghost steps = { λ _ _ _ _. ⊤ };

    fn begin<W: Write>(&mut self, name: &str, _output: &mut W) -> Result<(), Failure> {
        self.name.clear();
        Ok(self.name.push_str(name)?)
    }

    fn read<R: Read, W: Write>(
        &mut self,
        alloc: Global,
        input: &mut R,
        output: &mut W,
    ) -> Result<(), Failure> {
        self.compare(alloc, input, output)
    }

    /// What its programs wrote is compared, in which CR LF ends a line. All of it is held.
    fn read_cast<R: BufRead, W: Write>(
        &mut self,
        alloc: Global,
        input: &mut R,
        output: &mut W,
    ) -> Result<(), Failure> {
        let text = lines_written(alloc, input)?;
        self.compare(alloc, &mut text.as_slice(), output)
    }

    fn end<W: Write>(&mut self, _output: &mut W) -> Result<(), Failure> {
        Ok(())
    }
}

/// Says of the files of a run whether `clean` would change them; the status, which is 1 where it would.
pub fn check_cleaned(rt: &HostRuntime, run: &Request<'_>) -> Result<(), u8> {
    let mut work = Unchanged {
        work: Work::clean(run),
        name: String::new(rt.alloc()),
        changes: false,
    };
    work_through(rt, &mut work, run)?;
    if work.changes { Err(1) } else { Ok(()) }
}
