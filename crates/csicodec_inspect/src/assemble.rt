//! What lines of JSON stand for, as they come.
ghost use Rattle.std.specs.{Prelude.◌≡◌, Prelude.ℕ, Prelude.List, Io.KnownBytes.Appends};
ghost use Rattle.csicodec_inspect.specs.{Alone.AssemblesLines, Assembled.IsSent, Assembled.answer_of};

use csicodec_command::{Alone, Failure};
use csicodec_explain::Maker;
use csicodec_listing::{Assembler, Refusal};
use csicodec_transform::{CHUNK, RunError, receive, send};
use std::alloc::Global;
use std::io::{Read, Write};

/// One input after the other, each of lines of its own. A line of JSON is one, whatever it has.
#[derive(Drop)]
pub struct Assembly;

/// What fails where the line of this number is refused.
fn answer(number: u64, taken: Result<(), Refusal>) -> Result<(), Failure>
    ensures { result ≡ answer_of number taken }
{
    match taken {
        Ok(()) => Ok(()),
        Err(Refusal::Line(fault)) => Err(Failure::Object(number, fault)),
        Err(Refusal::Memory) => Err(Failure::Run(RunError::Memory)),
    }
}

/// Writes what lines gave, also where the one of this number, behind them, is refused.
fn pass_on<W: Write>(
    number: u64,
    taken: Result<(), Refusal>,
    made: &[u8],
    output: &mut W,
) -> Result<(), Failure>
    ensures { (sent : List ℕ) × Appends (W.contents output.old) (W.contents output.new) sent
        × IsSent (answer_of number taken) result made.now sent }
{
    send(output, made)?;
    answer(number, taken)
}

impl Alone for Assembly {
    ghost goes = { AssemblesLines };

    /// Each read's lines are written before the next, those ahead of one that is refused too.
    fn work<R: Read, W: Write>(
        &mut self,
        alloc: Global,
        input: &mut R,
        output: &mut W,
    ) -> Result<(), Failure> {
        let mut lines = Assembler::new(alloc, Maker::new(alloc));
        let mut made = Vec::new(alloc);
        let mut chunk = [0u8; CHUNK];
        for _ in 0..u64::MAX {
            let len = receive(input, &mut chunk)?;
            made.clear();
            if len == 0 {
                let ended = lines.end(&mut made);
                return pass_on(lines.number(), ended, &made, output);
            }
            let taken = lines.take(&chunk[..len], &mut made);
            pass_on(lines.number(), taken, &made, output)?;
        }
        Err(Failure::Run(RunError::Read))
    }
}
