//! A run of a program: its words, its inputs one after the other, and what it tells of what failed.
ghost use Rattle.csicodec_command.specs.Common.{[], ℕ, List, Option, None, Some, true, map, eqb, codes, IfErr, IfOk, ends_with, Consumes, RunError};
ghost use Rattle.csicodec_command.specs.Runs.{Asked, Closes, GoesOf, HasTurn, IsReadBy, IsRun, IsStopped, IsTold, MayBeRecording, StepsOf, Through, WorksThrough, failure_of, first_of, names_of};
ghost use Rattle.csicodec_command.specs.{Failure.status, declared.failure.Failure.TheVariants.Run as Ran};
ghost use Rattle.std.specs.Prelude.{◌≡◌, ◌⊎◌, ◌∷◌};

use crate::command::{Invocation, Request, Task, UNREADABLE, Wrong, command_of};
use crate::failure::{Failure, GONE};
use crate::note::advice_of;
use crate::options::{USAGE, WAITS};
use crate::packed::packing_of;
use crate::recording::is_recording;
use crate::replaced::{Replaced, Sink};
use csicodec_transform::{READ, RunError, receive};
use std::alloc::{AllocError, Global};
use std::env::{Env, FillError};
use std::fs::File;
use std::io::{self, BufRead, BufReader, ErrorKind, IsTerminal, Read, Stdin, Write};

/// The name of standard input.
const INPUT: &str = "-";

/// Which inputs are recordings of asciinema.
#[derive(Clone, Copy)]
pub enum Recordings {
    /// None, and standard input is read at once: where its first bytes are looked at, someone at a terminal has to end it twice.
    Direct,
    /// None, whatever the input has.
    Never,
    /// A file whose name says so.
    Named,
    /// That, and standard input that begins as one.
    Known,
}

/// What is made of one input after the other.
pub trait Worker {
    /// How each step goes that is asked of it.
    ghost steps: { StepsOf Self };

    /// Which inputs are recordings.
    fn recordings(&self) -> Recordings {
        Recordings::Known
    }

    /// Whether the system's reason is told behind a read or a write that failed.
    fn tells_reasons(&self) -> bool {
        true
    }

    /// The input of this name comes next, `-` for standard input; it could be opened.
    fn begin<W: Write>(&mut self, name: &str, output: &mut W) -> Result<(), Failure>
        ensures { steps (Asked.Next name.now) (self.old, W.contents output.old) result
            (self.new, W.contents output.new) };

    /// Works on this input, to its end.
    fn read<R: Read, W: Write>(
        &mut self,
        alloc: Global,
        input: &mut R,
        output: &mut W,
    ) -> Result<(), Failure>
        ensures { steps (Asked.Stream (R.remaining input.old)) (self.old, W.contents output.old) result
            (self.new, W.contents output.new) };

    /// Works on this recording of asciinema.
    fn read_cast<R: BufRead, W: Write>(
        &mut self,
        alloc: Global,
        input: &mut R,
        output: &mut W,
    ) -> Result<(), Failure>
        ensures { steps (Asked.Recording (R.remaining input.old)) (self.old, W.contents output.old) result
            (self.new, W.contents output.new) };

    /// There are no more inputs.
    fn end<W: Write>(&mut self, output: &mut W) -> Result<(), Failure>
        ensures { steps Asked.End (self.old, W.contents output.old) result
            (self.new, W.contents output.new) };
}

/// What is made of each input by itself, whatever it has: a recording is read as it is, and nothing stands ahead of an input or behind
/// the last.
pub trait Alone {
    /// How that goes.
    ghost goes: { GoesOf Self };

    /// Whether the system's reason is told behind a read or a write that failed.
    fn gives_reasons(&self) -> bool {
        true
    }

    /// Whether standard input is read at once, and its first bytes aren't looked at.
    fn reads_directly(&self) -> bool {
        true
    }

    /// Works on this input, to its end.
    fn work<R: Read, W: Write>(
        &mut self,
        alloc: Global,
        input: &mut R,
        output: &mut W,
    ) -> Result<(), Failure>
        ensures { goes (R.remaining input.old) (self.old, W.contents output.old) result
            (self.new, W.contents output.new) };
}

impl<T: Alone> Worker for T {
    ghost use Rattle.csicodec_command.specs.Runs.{AloneSteps};

    ghost steps = { AloneSteps T.goes };

    fn recordings(&self) -> Recordings {
        if self.reads_directly() {
            Recordings::Direct
        } else {
            Recordings::Never
        }
    }

    fn tells_reasons(&self) -> bool {
        self.gives_reasons()
    }

    fn begin<W: Write>(&mut self, _name: &str, _output: &mut W) -> Result<(), Failure> {
        Ok(())
    }

    fn read<R: Read, W: Write>(
        &mut self,
        alloc: Global,
        input: &mut R,
        output: &mut W,
    ) -> Result<(), Failure> {
        self.work(alloc, input, output)
    }

    fn read_cast<R: BufRead, W: Write>(
        &mut self,
        alloc: Global,
        input: &mut R,
        output: &mut W,
    ) -> Result<(), Failure> {
        self.work(alloc, input, output)
    }

    fn end<W: Write>(&mut self, _output: &mut W) -> Result<(), Failure> {
        Ok(())
    }
}

/// Where inputs come from, by their names.
pub trait Inputs {
    type Input: Read + Drop;

    /// What the input of a name has, where that is known.
    ghost holds: { Self → List ℕ → Option (List ℕ) };

    /// Opens an input. Where that fails it is told, and this is the status.
    fn open(&self, name: &str) -> Result<Self::Input, u8>
        ensures opened { IfOk result (λ input. Self.Input.remaining input ≡ holds self.now name.now) }
        ensures failed { IfErr result (λ n. n ≡ 2) };
}

/// Whether a write failed since the reader went away.
fn is_gone(error: io::Error) -> bool {
    error.kind() == ErrorKind::BrokenPipe
}

/// An output, how many bytes it took, and why its last write failed, if it did.
#[derive(Drop)]
pub struct Output<W> {
    out: W,
    len: u64,
    fault: Option<io::Error>,
}

impl<W> Output<W> {
    /// To which nothing was written yet.
    pub fn new(out: W) -> Output<W>
        ensures { result.out ≡ out }
    {
        Output {
            out,
            len: 0,
            fault: None,
        }
    }
}

impl<W: Write> Write for Output<W> {
    ghost contents = { λ o. W.contents o.out };

    fn write(&mut self, bytes: &[u8]) -> io::Result<usize> {
        let done = self.out.write(bytes);
        self.len = self.len.saturating_add(done.unwrap_or(0) as u64);
        self.fault = done.err();
        done
    }

    fn flush(&mut self) -> io::Result<()> {
        self.out.flush()
    }
}

/// A file, or standard input.
#[derive(Drop)]
pub enum Source {
    Standard(Stdin),
    Named(File),
}

impl Read for Source {
    fn read(&mut self, bytes: &mut [u8]) -> io::Result<usize> {
        match self {
            Source::Standard(input) => input.read(bytes),
            Source::Named(file) => file.read(bytes),
        }
    }
}

/// Files, and standard input. std says of neither what it has.
impl Inputs for HostRuntime {
    type Input = Source;

    ghost holds = { λ _ _. None };

    fn open(&self, name: &str) -> Result<Source, u8> {
        if name == INPUT {
            Ok(Source::Standard(self.stdin()))
        } else {
            Ok(Source::Named(opened(self, name)?))
        }
    }
}

/// An input, and why its last read failed, if it did.
#[derive(Drop)]
struct Input<R> {
    from: R,
    fault: Option<io::Error>,
}

impl<R: Read> Read for Input<R> {
    ghost remaining = { λ i. R.remaining i.from };

    fn read(&mut self, bytes: &mut [u8]) -> io::Result<usize> {
        let done = self.from.read(bytes);
        self.fault = done.err();
        done
    }
}

/// Whether a file is a recording of asciinema, by its name.
pub fn is_cast(name: &str) -> bool
    ensures { result ≡ ends_with eqb name.now (codes ".cast") }
{
    name.ends_with(".cast")
}

/// Says what failed, at which file where it is one that was read, and the system's reason, where there is one; the status that the
/// program ends with.
pub fn failed(rt: &HostRuntime, failure: Failure, name: &str, reason: Option<io::Error>) -> u8
    ensures { result ≡ status failure }
{
    let is_of_file = name != INPUT && !matches!(failure, Failure::Run(RunError::Write));
    let (colon, name) = if is_of_file { (": ", name) } else { ("", "") };
    let name = name.escape_debug();
    // Where standard error is gone too, the status is all that can be told.
    let _told = match reason {
        Some(reason) => eprintln!(rt; "{failure}{colon}{name}: {reason}"),
        None => eprintln!(rt; "{failure}{colon}{name}"),
    };
    failure.status()
}

/// Says what failed, unless the reader of the output went away: then there is nobody to tell. The faults are those of the last read and of
/// the last write, if they failed.
#[inline(never)]
fn stopped(
    rt: &HostRuntime,
    failure: Failure,
    name: &str,
    tells_reasons: bool,
    faults: (Option<io::Error>, Option<io::Error>),
) -> u8
    ensures { IsTold failure result }
{
    let (read, written) = faults;
    let reason = match (failure, written) {
        (Failure::Run(RunError::Write), Some(fault)) if is_gone(fault) => return GONE,
        _ if !tells_reasons => None,
        (Failure::Run(RunError::Write), _) => written,
        (Failure::Run(RunError::Read), _) => read,
        _ => None,
    };
    failed(rt, failure, name, reason)
}

/// Opens a file; the status, if that failed.
fn opened(rt: &HostRuntime, name: &str) -> Result<File, u8>
    ensures { IfErr result (λ n. n ≡ 2) }
{
    if let Some(name) = name.strip_prefix(UNREADABLE) {
        return Err(failed(rt, Failure::Open, name, None));
    }
    match File::open(rt, name) {
        Ok(file) => Ok(file),
        Err(error) => Err(failed(rt, Failure::Open, name, Some(error))),
    }
}

/// The text of a file; the status, if it can't be read.
pub fn text_of(rt: &HostRuntime, name: &str) -> Result<String, u8> {
    let mut text = String::new(rt.alloc());
    let mut file = opened(rt, name)?;
    match file.read_to_string(&mut text) {
        Ok(_) => Ok(text),
        Err(error) => Err(failed(rt, Failure::Run(RunError::Read), name, Some(error))),
    }
}

/// Reads the first bytes of an input: at least its first line, if that may be an object of JSON and has no more bytes than a run asks for
/// at once. It asks for as many, so that a run which begins with these goes on as if it had read them itself.
#[tactic(auto, using(crate::proofs::Turns::none_read, crate::proofs::Turns::read_more))]
fn receive_front<R: Read>(alloc: Global, input: &mut R) -> Result<Vec<u8>, RunError>
    ensures read { IfOk result (λ front. Consumes (R.remaining input.old) (R.remaining input.new) front.items) }
    ensures err { IfErr result (λ e. (e ≡ RunError.Read) ⊎ (e ≡ RunError.Memory)) }
{
    let mut front = Vec::new(alloc);
    let mut chunk = [0u8; READ];
    for _ in 0..READ {
        let Some(room) = chunk.get_mut(front.len()..) else {
            return Ok(front);
        };
        let len = receive(input, room)?;
        let piece = &room[..len];
        let Ok(()) = front.extend_from_slice(piece) else {
            return Err(RunError::Memory);
        };
        let is_whole = piece.is_empty() || piece.contains(&b'\n') || front.len() >= READ;
        if is_whole || front.first().copied() != Some(b'{') {
            return Ok(front);
        }
    }
    Ok(front)
}

/// Whether the input of this name is a recording, if inputs may be, and which of its first bytes were read to know it. `Packed` where
/// these say that it is no stream.
#[inline(never)]
#[tactic(auto, using(crate::proofs::Turns::packed, crate::proofs::Turns::unread))]
fn look_ahead<R: Read>(
    alloc: Global,
    recordings: Recordings,
    name: &str,
    input: &mut R,
) -> Result<(bool, Vec<u8>), Failure>
    ensures front { IfOk result (λ seen. Consumes (R.remaining input.old) (R.remaining input.new) seen.1.items) }
    ensures known { IfOk result (λ seen. seen.0 ≡ true → MayBeRecording name.now (R.remaining input.old)) }
    ensures err { IfErr result (IsStopped (R.remaining input.old)) }
{
    if name == INPUT && matches!(recordings, Recordings::Direct) {
        return Ok((false, Vec::new(alloc)));
    }
    let front = receive_front(alloc, input)?;
    if let Some(packing) = packing_of(&front) {
        return Err(Failure::Packed(packing));
    }
    let is_recording = match recordings {
        Recordings::Direct | Recordings::Never => false,
        Recordings::Known if name == INPUT => is_recording(alloc, &front)?,
        _ => is_cast(name),
    };
    Ok((is_recording, front))
}

/// Works on the input of this name, which is read from there.
fn read_through<T: Worker, R: Read, W: Write>(
    alloc: Global,
    work: &mut T,
    name: &str,
    input: &mut R,
    output: &mut W,
) -> Result<(), Failure>
    ensures { IsReadBy T.steps name.now (R.remaining input.old) (work.old, W.contents output.old) result
        (work.new, W.contents output.new) }
{
    work.begin(name, output)?;
    let recordings = work.recordings();
    let (is_recording, front) = look_ahead(alloc, recordings, name, input)?;
    let mut whole = front.as_slice().chain(input);
    if !is_recording {
        return work.read(alloc, &mut whole, output);
    }
    match BufReader::new(alloc, &mut whole) {
        Ok(mut lines) => work.read_cast(alloc, &mut lines, output),
        Err(_) => Err(Failure::Run(RunError::Memory)),
    }
}

/// Works on the input of this name, and tells what failed, with the status of that.
fn work_on<T: Worker, I: Inputs, W: Write>(
    rt: &HostRuntime,
    inputs: &I,
    work: &mut T,
    name: &str,
    output: &mut Output<W>,
) -> Result<(), (Failure, u8)>
    ensures turn { HasTurn T.steps (I.holds inputs.now) name.now (work.old, W.contents output.old.out)
        (failure_of result) (work.new, W.contents output.new.out) }
    ensures told { IfErr result (λ e. IsTold e.0 e.1) }
{
    let mut input = match inputs.open(name) {
        Ok(from) => Input { from, fault: None },
        Err(status) => return Err((Failure::Open, status)),
    };
    match read_through(rt.alloc(), work, name, &mut input, output) {
        Ok(()) => Ok(()),
        Err(failure) => {
            let faults = (input.fault, output.fault);
            let status = stopped(rt, failure, name, work.tells_reasons(), faults);
            Err((failure, status))
        }
    }
}

/// Says what a run without a file waits for, where that is someone at a terminal.
#[inline(never)]
fn say_waits(rt: &HostRuntime) {
    if rt.stdin().is_terminal() {
        let _told = eprintln!(rt; "{WAITS}");
    }
}

/// Works on these inputs, one after the other, those behind one that failed too; the status of the first that did. The error is the
/// status of one that ends the run.
fn work_on_all<T: Worker, I: Inputs, W: Write>(
    rt: &HostRuntime,
    inputs: &I,
    work: &mut T,
    names: &[&str],
    output: &mut Output<W>,
) -> Result<Option<u8>, u8>
    ensures all { IfOk result (λ first. (failed : List ℕ) × (first ≡ first_of failed)
        × Through T.steps (I.holds inputs.now) (map (λ n. n.now) names.now) (work.old, W.contents output.old.out)
        failed None (work.new, W.contents output.new.out)) }
    ensures stopped { IfErr result (λ n. (failed : List ℕ)
        × Through T.steps (I.holds inputs.now) (map (λ n. n.now) names.now) (work.old, W.contents output.old.out)
        failed (Some n) (work.new, W.contents output.new.out)) }
{
    let mut first = None;
    for name in names {
        match work_on(rt, inputs, work, name, output) {
            Ok(()) => {}
            Err((failure, status)) => {
                if failure.ends_run() {
                    return Err(status);
                }
                first = first.or(Some(status));
            }
        }
    }
    Ok(first)
}

/// Writes what stands behind the inputs, of which the first that failed has this status; the status of the run.
fn close<T: Worker, W: Write>(
    rt: &HostRuntime,
    work: &mut T,
    first: Option<u8>,
    output: &mut Output<W>,
) -> Result<(), u8>
    ensures { Closes T.steps first (work.old, W.contents output.old.out) result
        (work.new, W.contents output.new.out) }
{
    match work.end(output) {
        Err(failure) => {
            let faults = (None, output.fault);
            Err(stopped(rt, failure, INPUT, work.tells_reasons(), faults))
        }
        Ok(()) => match first {
            Some(status) => Err(status),
            None => Ok(()),
        },
    }
}

/// Works on these inputs, and writes what stands behind them, unless the only one failed.
fn run_named<T: Worker, I: Inputs, W: Write>(
    rt: &HostRuntime,
    inputs: &I,
    work: &mut T,
    names: &[&str],
    output: &mut Output<W>,
) -> Result<(), u8>
    ensures { IsRun T.steps (I.holds inputs.now) (map (λ n. n.now) names.now) (work.old, W.contents output.old.out)
        result (work.new, W.contents output.new.out) }
{
    let first = work_on_all(rt, inputs, work, names, output)?;
    let Some(status) = first else {
        return close(rt, work, None, output);
    };
    if names.len() == 1 {
        return Err(status);
    }
    close(rt, work, first, output)
}

/// Works on these inputs, or on standard input where there are none, one after the other. One that can't be opened or read, or is
/// refused, is told, and the others are worked on; the status is that of the first. Where a write fails or memory runs out the run ends,
/// and the status is that of this.
pub fn run_through<T: Worker, I: Inputs, W: Write>(
    rt: &HostRuntime,
    inputs: &I,
    work: &mut T,
    files: &[&str],
    output: &mut Output<W>,
) -> Result<(), u8>
    ensures { IsRun T.steps (I.holds inputs.now) (names_of files.now) (work.old, W.contents output.old.out) result
        (work.new, W.contents output.new.out) }
{
    if files.is_empty() {
        run_named(rt, inputs, work, &[INPUT], output)
    } else {
        run_named(rt, inputs, work, files, output)
    }
}

/// A page of more bytes is one that a browser may be slow to show.
const LARGE: u64 = 20_000_000;

/// Works on the files of a run, or on standard input. Of a page that got large it is told.
fn write_through<T: Worker>(
    rt: &HostRuntime,
    work: &mut T,
    run: &Request<'_>,
    sink: Sink,
) -> Result<(), u8>
    ensures { (start : Option (List ℕ)) × (end : Option (List ℕ))
        × IsRun T.steps (λ _. None) (names_of run.now.files.items) (work.old, start) result (work.new, end) }
{
    let mut output = Output::new(sink);
    run_through(rt, rt, work, &run.files, &mut output)?;
    if matches!(run.task, Task::Html) && output.len > LARGE {
        let size = output.len / 1_000_000;
        let _told = eprintln!(rt;
            "csicodec: the page has {size} MB, and a browser may be slow to show it"
        );
    }
    Ok(())
}

/// Works on the files of a run, or on standard input, and writes standard output, or a file that is asked for: that is replaced if the
/// run went well.
pub fn work_through<T: Worker>(rt: &HostRuntime, work: &mut T, run: &Request<'_>) -> Result<(), u8>
    ensures { WorksThrough T.steps (names_of run.now.files.items) work.old result work.new }
{
    if run.files.is_empty() {
        say_waits(rt);
    }
    let Some(path) = run.output() else {
        return write_through(rt, work, run, Sink::Standard(rt.stdout()));
    };
    let (sink, file) = Replaced::new(rt, path)?;
    let done = write_through(rt, work, run, sink);
    file.end(rt, done)
}

/// Says what is wrong with the command line, and how the program is used; the status that it ends with.
pub fn refused(rt: &HostRuntime, wrong: Wrong<'_>) -> u8 {
    let wrong = match wrong {
        Wrong::NoCommand(path, _) if File::open(rt, path).is_ok() => Wrong::File(path),
        _ => wrong,
    };
    let _told = match advice_of(wrong) {
        Some(advice) => eprintln!(rt; "{wrong}\n{advice}"),
        None => eprintln!(rt; "{wrong}"),
    };
    wrong.failure().status()
}

/// Writes a text of its own.
fn say(rt: &HostRuntime, text: &str) -> Result<(), u8> {
    let failure = Failure::Run(RunError::Write);
    match println!(rt; "{text}") {
        Ok(()) => Ok(()),
        Err(error) if is_gone(error) => Err(GONE),
        Err(error) => Err(failed(rt, failure, INPUT, Some(error))),
    }
}

/// A word as text. One that isn't UTF-8 stands behind a mark, as the name of a file that can't be opened: paths are text here.
fn text_of_word(alloc: Global, word: &[u8]) -> Result<String, AllocError> {
    if let Ok(word) = std::str::from_utf8(word) {
        return String::from_str(alloc, word);
    }
    let shown = String::from_utf8_lossy(alloc, word)?;
    format!(in alloc; "{UNREADABLE}{shown} (a name that is not UTF-8)")
}

/// The word at this place, or none behind the last one.
fn word_at(rt: &HostRuntime, place: usize) -> Result<Option<String>, AllocError> {
    let (alloc, mut size) = (rt.alloc(), 256usize);
    for _ in 0..u64::BITS {
        let mut word = vec![in alloc; 0u8; size]?;
        match rt.arg(place, word.as_mut_slice()) {
            Ok(len) => {
                word.truncate(len);
                return Ok(Some(text_of_word(alloc, &word)?));
            }
            Err(FillError::NotPresent) => return Ok(None),
            Err(FillError::TooLong) => size = size.saturating_mul(2),
        }
    }
    Err(AllocError)
}

/// The words of the command line behind the program's name.
fn all_words(rt: &HostRuntime) -> Result<Vec<String>, AllocError> {
    let mut words = Vec::new(rt.alloc());
    for place in 1..usize::MAX {
        match word_at(rt, place)? {
            Some(word) => words.push(word)?,
            None => break,
        }
    }
    Ok(words)
}

/// The words of the command line behind the program's name; the status, if memory ran out.
pub fn words_of(rt: &HostRuntime) -> Result<Vec<String>, u8> {
    match all_words(rt) {
        Ok(words) => Ok(words),
        Err(_) => Err(refused(rt, Wrong::Memory)),
    }
}

/// The work that these words ask for, or none where what they ask was told; the status, if that failed. Someone at a terminal who gave
/// none is told how the program is used.
pub fn asked<'a>(rt: &HostRuntime, words: &'a [String]) -> Result<Option<Request<'a>>, u8> {
    if words.is_empty() && rt.stdin().is_terminal() {
        let _told = eprintln!(rt; "{USAGE}");
        return Err(Failure::Usage.status());
    }
    match command_of(rt.alloc(), words) {
        Ok(Invocation::Run(run)) => Ok(Some(run)),
        Ok(Invocation::Tell(text)) => {
            say(rt, text)?;
            Ok(None)
        }
        Err(wrong) => Err(refused(rt, wrong)),
    }
}
