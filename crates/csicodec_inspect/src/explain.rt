//! What `csicodec explain` does: it tells in words what stands in a stream.
ghost use Rattle.std.specs.Prelude.{⊤};

use crate::compare::explain_diff;
use crate::explained_cast::explain_cast;
use crate::names::are_known;
use crate::timing::Timing;
use csicodec_command::{
    Failure, Recordings, Request, Worker, Wrong, failed, is_cast, refused, text_of, work_through,
};
use csicodec_events::Dialect;
use csicodec_explain::Explainer;
use csicodec_listing::style::Style;
use std::alloc::{AllocError, Global};
use std::env;
use std::io::{self, BufRead, IsTerminal, Read, Write};

/// Whether nothing is written, and whether anything was to be.
#[derive(Drop)]
struct Answer {
    quiet: bool,
    any: bool,
}

/// An output, and what is kept of what was to be written; where nothing may be, that is dropped.
#[derive(Drop)]
struct Watched<'a, W> {
    output: &'a mut W,
    answer: &'a mut Answer,
}

impl<'a, W: Write> Write for Watched<'a, W> {
    fn write(&mut self, bytes: &[u8]) -> io::Result<usize> {
        self.answer.any = self.answer.any || !bytes.is_empty();
        if self.answer.quiet {
            Ok(bytes.len())
        } else {
            self.output.write(bytes)
        }
    }

    fn flush(&mut self) -> io::Result<()> {
        self.output.flush()
    }
}

/// Streams in words, and the times of their pieces, where they are given.
#[derive(Drop)]
struct Explained<'a> {
    explainer: Box<Explainer<'a>>,
    timing: Option<Timing>,
    /// Whether there are several inputs, each with its name ahead of what is told of it.
    named: bool,
    /// Whether times are told of the next input, as its name says.
    timed: bool,
    answer: Answer,
}

impl<'a> Worker for Explained<'a> {
    ghost steps = { λ _ _ _ _. ⊤ };

    /// With the times of `script` it is no recording of asciinema.
    fn recordings(&self) -> Recordings {
        match self.timing {
            Some(_) => Recordings::Named,
            None => Recordings::Known,
        }
    }

    fn begin<W: Write>(&mut self, name: &str, output: &mut W) -> Result<(), Failure> {
        self.timed = self.timing.is_some() || is_cast(name);
        let answer = &mut self.answer;
        let mut shown = Watched { output, answer };
        // What is left of the input before is told ahead of the name.
        self.explainer.begin(None, self.timed, &mut shown)?;
        if self.named && !self.answer.quiet {
            self.explainer.begin(Some(name), self.timed, output)?;
        }
        Ok(())
    }

    fn read<R: Read, W: Write>(
        &mut self,
        _alloc: Global,
        input: &mut R,
        output: &mut W,
    ) -> Result<(), Failure> {
        let answer = &mut self.answer;
        let mut shown = Watched { output, answer };
        match &mut self.timing {
            Some(timing) => timing.explain_all(&mut self.explainer, input, &mut shown)?,
            None => self.explainer.read(input, &mut shown)?,
        }
        Ok(())
    }

    fn read_cast<R: BufRead, W: Write>(
        &mut self,
        alloc: Global,
        input: &mut R,
        output: &mut W,
    ) -> Result<(), Failure> {
        if !self.timed {
            self.explainer.begin(None, true, output)?;
        }
        let answer = &mut self.answer;
        let mut shown = Watched { output, answer };
        explain_cast(alloc, &mut self.explainer, input, &mut shown)
    }

    fn end<W: Write>(&mut self, output: &mut W) -> Result<(), Failure> {
        let answer = &mut self.answer;
        let mut shown = Watched { output, answer };
        Ok(self.explainer.end(&mut shown)?)
    }
}

/// Whether lines are told in colours: if that is asked for, or where a terminal shows them to someone who didn't say by NO_COLOR that
/// they aren't wanted.
fn is_colored(rt: &HostRuntime, asked: Option<&str>, live: bool) -> bool {
    match asked {
        Some("always") => true,
        Some("never") => false,
        _ => live && env::var(rt, "NO_COLOR").is_err(),
    }
}

/// How the streams of a run are explained.
fn style_of<'a>(rt: &HostRuntime, run: &'a Request<'a>) -> Style<'a> {
    let json = run.has("--json");
    let live = run.output().is_none() && rt.stdout().is_terminal();
    let input = run.has("--input").then_some(Dialect::Input);
    let utf8_input = run.has("--utf8-mouse").then_some(Dialect::Utf8Input);
    Style {
        full: run.has("--full"),
        apart: run.has("--full"),
        json,
        count: run.has("--count"),
        stats: run.has("--stats"),
        unknown: run.has("--unknown"),
        decode: run.has("--decode"),
        color: !json && is_colored(rt, run.value("--color"), live),
        timed: false,
        live,
        only: run.value("--only"),
        at: &run.at,
        grep: run.value("--grep"),
        ignore_case: run.has("--ignore-case"),
        dialect: utf8_input.or(input),
    }
}

/// The times of a file that `script` wrote, of what was typed or of what was written; the status, if it can't be read.
fn times_of(rt: &HostRuntime, name: &str, typed: bool) -> Result<Timing, u8> {
    let text = text_of(rt, name)?;
    Timing::of(rt.alloc(), &text, typed).map_err(|failure| failed(rt, failure, name, None))
}

/// What explains streams, to which nothing came yet.
pub(crate) fn explainer_of<'a>(
    alloc: Global,
    style: Style<'a>,
) -> Result<Box<Explainer<'a>>, AllocError> {
    Ok(Box::new(alloc, Explainer::new(alloc, style))?)
}

/// What a run works with; the status, if that failed.
fn explained_of<'a>(
    rt: &HostRuntime,
    run: &Request<'a>,
    style: Style<'a>,
) -> Result<Explained<'a>, u8> {
    let timing = match run.value("--timing") {
        Some(name) => Some(times_of(rt, name, style.dialect.is_some())?),
        None => None,
    };
    Ok(Explained {
        explainer: explainer_of(rt.alloc(), style).map_err(|_| refused(rt, Wrong::Memory))?,
        timing,
        named: run.files.len() > 1,
        timed: false,
        answer: Answer {
            quiet: run.has("--quiet"),
            any: false,
        },
    })
}

/// Explains what the words of the command line ask for, if they do so in names that there are; the status, which is 1 where something is looked
/// for and isn't there.
pub fn explain_inputs(rt: &HostRuntime, run: &Request<'_>) -> Result<(), u8> {
    if let Some(names) = run.value("--only") {
        are_known(rt.alloc(), names).map_err(|wrong| refused(rt, wrong))?;
    }
    let style = style_of(rt, run);
    if run.has("--diff") {
        return explain_diff(rt, style, run);
    }
    let mut work = explained_of(rt, run, style)?;
    work_through(rt, &mut work, run)?;
    let asks = run.has("--quiet") || run.has("--unknown") || run.has("--grep");
    if asks && !work.answer.any {
        Err(1)
    } else {
        Ok(())
    }
}
