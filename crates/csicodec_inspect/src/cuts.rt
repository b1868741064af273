//! Where a stream may be cut.
ghost use Rattle.csicodec_inspect.specs.Alone.{TellsCuts};

use csicodec_command::{Alone, Failure, Request};
use csicodec_lines::cuts_all;
use std::alloc::Global;
use std::io::{Read, Write};

/// Tells where each input may be cut, with so many bytes at least in each piece. A piece of a recording is none, so its lines are taken as
/// they are.
#[derive(Drop)]
pub struct Cuts {
    every: u64,
}

impl Cuts {
    /// As it is asked for.
    pub fn of(run: &Request<'_>) -> Cuts {
        Cuts {
            every: run.every.unwrap_or(u64::MAX),
        }
    }
}

impl Alone for Cuts {
    ghost goes = { TellsCuts };

    fn reads_directly(&self) -> bool {
        false
    }

    fn work<R: Read, W: Write>(
        &mut self,
        alloc: Global,
        input: &mut R,
        output: &mut W,
    ) -> Result<(), Failure> {
        Ok(cuts_all(alloc, self.every, input, output)?)
    }
}
