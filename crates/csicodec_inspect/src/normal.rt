//! What `csicodec normalise` does, and `csicodec` without a word: it reads control sequences, and writes each action of theirs as a
//! sequence of its own.
ghost use Rattle.csicodec_inspect.specs.Alone.{Normalises};

use csicodec_command::{Alone, Failure};
use csicodec_streams::normalise;
use std::alloc::Global;
use std::io::{Read, Write};

/// The normal form of sequences one after the other. A recording is no control sequence.
#[derive(Drop)]
pub struct Normaliser;

impl Alone for Normaliser {
    ghost goes = { Normalises };

    fn gives_reasons(&self) -> bool {
        false
    }

    fn work<R: Read, W: Write>(
        &mut self,
        alloc: Global,
        input: &mut R,
        output: &mut W,
    ) -> Result<(), Failure> {
        Ok(normalise(alloc, input, output)?)
    }
}
