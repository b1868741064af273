//! What `check` and `strip --check --all` do: they say whether streams are plain text, and where not.
ghost use Rattle.std.specs.Prelude.{⊤};

use crate::check::lines_written;
use crate::places::Places;
use csicodec_command::{Failure, Request, Worker, Wrong, refused, work_through};
use csicodec_transform::{CHUNK, RunError, receive, send};
use std::alloc::{AllocError, Global};
use std::io::{BufRead, Read, Write};

/// One stream after the other, and whether one is no plain text.
#[derive(Drop)]
pub struct Check<'a> {
    found: bool,
    places: Places<'a>,
}

impl<'a> Check<'a> {
    /// As it is asked for.
    fn of(alloc: Global, run: &Request<'_>) -> Result<Check<'a>, AllocError> {
        let visible = run.has("--visible") || run.value("--check").is_some();
        Ok(Check {
            found: false,
            places: Places::new(alloc, visible, run.has("--all"))?,
        })
    }

    /// Whether a stream has a place that is no plain text, as far as it is read. The places are told, each as it is over.
    fn check_text<R: Read, W: Write>(
        &mut self,
        input: &mut R,
        output: &mut W,
    ) -> Result<bool, RunError> {
        let mut chunk = [0u8; CHUNK];
        for _ in 0..u64::MAX {
            let len = receive(input, &mut chunk)?;
            if len == 0 {
                self.places.end()?;
            } else {
                self.places.push(&chunk[..len])?;
            }
            if !self.places.text().is_empty() {
                send(output, self.places.text())?;
                self.places.clear();
            }
            if len == 0 || self.places.is_done() {
                return Ok(self.places.any());
            }
        }
        Err(RunError::Read)
    }
}

impl<'a> Worker for Check<'a> {
    ghost steps = { λ _ _ _ _. ⊤ };

    fn begin<W: Write>(&mut self, name: &str, _output: &mut W) -> Result<(), Failure> {
        Ok(self.places.begin(name)?)
    }

    fn read<R: Read, W: Write>(
        &mut self,
        _alloc: Global,
        input: &mut R,
        output: &mut W,
    ) -> Result<(), Failure> {
        let found = self.check_text(input, output)?;
        self.found = self.found || found;
        Ok(())
    }

    /// What its programs wrote is checked, in which CR LF ends a line. All of it is held.
    fn read_cast<R: BufRead, W: Write>(
        &mut self,
        alloc: Global,
        input: &mut R,
        output: &mut W,
    ) -> Result<(), Failure> {
        let text = lines_written(alloc, input)?;
        self.read(alloc, &mut text.as_slice(), output)
    }

    fn end<W: Write>(&mut self, _output: &mut W) -> Result<(), Failure> {
        Ok(())
    }
}

/// Checks what the words of the command line name; the status, which is 1 where something is otherwise than wanted.
pub fn check_inputs(rt: &HostRuntime, run: &Request<'_>) -> Result<(), u8> {
    let mut work = Check::of(rt.alloc(), run).map_err(|_| refused(rt, Wrong::Memory))?;
    work_through(rt, &mut work, run)?;
    if work.found { Err(1) } else { Ok(()) }
}
