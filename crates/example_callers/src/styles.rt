//! Any stream with its styles alone: of its control sequences those before `m` stay, and no other; all else is as it came.
//! `./csicodec new` begins a project with this file.
ghost use Rattle.std.specs.Prelude.{ℕ, List};
ghost use Rattle.example_callers.specs.Kept.{StyleOrNothing};

use csicodec::{CsiParam, Rewrite, RunError, filter_all};
use std::alloc::{AllocError, Global};
use std::io::{Read, Write};

/// A longer control sequence is passed on as it is.
const LIMIT: usize = 4096;

/// A rule of one's own: which text stands in the place of a control sequence.
#[derive(Clone, Copy)]
struct StylesAlone;

impl Rewrite for StylesAlone {
    ghost writes = { λ _ bytes text. StyleOrNothing bytes text };

    fn rewrite(
        &mut self,
        bytes: &[u8],
        _params: &[CsiParam],
        control: char,
        out: &mut Vec<u8>,
    ) -> Result<(), AllocError> {
        if control == 'm' {
            out.extend_from_slice(bytes)?;
        }
        Ok(())
    }
}

/// Writes what it makes of a stream.
pub(crate) fn run<R: Read, W: Write>(
    alloc: Global,
    input: &mut R,
    output: &mut W,
) -> Result<(), RunError> {
    filter_all(alloc, LIMIT, StylesAlone, input, output)
}
