//! What the programs of a recording wrote, as a stream.
ghost use Rattle.csicodec_command.specs.Common.{[], false, true, Err, IfErr, IfOk, IfSome, IsErr, OnErr, OnOk, option_map, unwrap_or, Keeps, RunError};
ghost use Rattle.csicodec_command.specs.{declared.failure.Failure.TheVariants.Run as Ran, Recorded.is_over, Recorded.left, Recorded.lines_from, Recorded.lines_left};
ghost use Rattle.csicodec_command.specs.{Recorded.recorded, Recorded.to_come};
ghost use Rattle.std.specs.Prelude.{◌≡◌, ◌≢◌, ◌∷◌, if◌then◌else◌};

use crate::failure::Failure;
use crate::recording::Recording;
use csicodec_transform::RunError;
use std::alloc::Global;
use std::collections::VecDeque;
use std::io::{self, BufRead, ErrorKind, Read};

/// The data of a recording's events that a program wrote, read as one stream. A line that is refused fails a read, once what stands ahead of
/// it was read.
#[derive(Drop)]
pub struct Recorded<R> {
    input: R,
    reading: Recording,
    /// The line that comes next, as far as it was read.
    line: Vec<u8>,
    /// What is left of the data of an event.
    event: VecDeque<u8>,
    /// Whether no line comes any more.
    over: bool,
    /// What failed last, if something did.
    fault: Option<Failure>,
}

/// Whether a line is over.
fn is_over(line: &[u8]) -> bool
    ensures { result ≡ is_over line.now }
{
    match line.split_last() {
        Some((last, _)) => *last == b'\n',
        None => false,
    }
}

impl<R: BufRead> Recorded<R> {
    /// Of which nothing was read.
    pub fn new(alloc: Global, input: R) -> Recorded<R>
        ensures { left R.remaining result ≡ option_map recorded (R.remaining input) }
    {
        Recorded {
            input,
            reading: Recording::new(alloc),
            line: Vec::new(alloc),
            event: VecDeque::new(alloc),
            over: false,
            fault: None,
        }
    }

    /// Reads the line that comes next, or what is left of it; whether there is one.
    fn read_line(&mut self) -> Result<bool, Failure>
        ensures same { Keeps (to_come R.remaining self.old) (to_come R.remaining self.new) }
        ensures next { IfOk result (λ some. IfSome (R.remaining self.old.input)
            (λ _. IfSome (R.remaining self.new.input) (λ bytes.
            lines_left self.new.line.items bytes
            ≡ (if some then self.new.line.items ∷ lines_from [] bytes else [])))) }
        ensures event { self.new.event ≡ self.old.event }
        ensures over { self.new.over ≡ self.old.over }
        ensures reading { self.new.reading ≡ self.old.reading }
    {
        if is_over(&self.line) {
            return Ok(true);
        }
        match self.input.read_until(b'\n', &mut self.line) {
            Ok(_) => Ok(!self.line.as_slice().is_empty()),
            Err(_) => Err(Failure::Run(RunError::Read)),
        }
    }

    /// Takes that line: where a program wrote data, they come next.
    fn take_line(&mut self) -> Result<(), Failure>
        requires { self.old.event.items ≡ [] }
        ensures same { IfSome (R.remaining self.old.input) (λ bytes.
            lines_left self.old.line.items bytes ≡ self.old.line.items ∷ lines_from [] bytes
            → Keeps (to_come R.remaining self.old) (to_come R.remaining self.new)) }
        ensures over { self.new.over ≡ self.old.over }
    {
        let taken = self.reading.take(&self.line)?;
        self.line.clear();
        if let Some(text) = taken {
            self.event = VecDeque::from_vec(text.into_bytes());
        }
        Ok(())
    }

    /// Goes on by a line, or to the end.
    fn go_on(&mut self) -> Result<(), Failure>
        requires none { self.old.event.items ≡ [] }
        requires over { self.old.over ≡ false }
        ensures { Keeps (left R.remaining self.old) (left R.remaining self.new) }
    {
        if self.read_line()? {
            return self.take_line();
        }
        self.reading.end()?;
        self.over = true;
        Ok(())
    }

    /// Goes on to the next data, or to the end.
    #[tactic(auto, using(crate::proofs::Left::kept))]
    fn fill(&mut self) -> Result<(), Failure>
        ensures same { Keeps (left R.remaining self.old) (left R.remaining self.new) }
        ensures end { OnOk result (self.new.event.items ≡ [] → self.new.over ≡ true) }
    {
        for _ in 0..u64::MAX {
            if self.over || !self.event.is_empty() {
                return Ok(());
            }
            self.go_on()?;
        }
        Err(Failure::Run(RunError::Read))
    }

    /// How a run ended that read from here: where a read failed, with what failed it.
    pub fn outcome(&self, ended: Result<(), Failure>) -> Result<(), Failure>
        ensures ok { OnOk ended (result ≡ ended) }
        ensures err { OnErr ended (IsErr result) }
        ensures read { ended ≡ Err (Ran RunError.Read)
            → result ≡ Err (unwrap_or self.now.fault (Ran RunError.Read)) }
        ensures other { IfErr ended (λ f. f ≢ Ran RunError.Read → result ≡ ended) }
    {
        match (ended, self.fault) {
            (Err(Failure::Run(RunError::Read)), Some(fault)) => Err(fault),
            _ => ended,
        }
    }
}

impl<R: BufRead> Read for Recorded<R> {
    ghost use Rattle.csicodec_command.specs.Recorded.{left};

    ghost remaining = { left R.remaining };

    fn read(&mut self, bytes: &mut [u8]) -> io::Result<usize> {
        if let Err(failure) = self.fill() {
            self.fault = Some(failure);
            return Err(io::Error::from(ErrorKind::InvalidData));
        }
        self.event.read(bytes)
    }
}
