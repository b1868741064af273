//! What differs between two streams in words.
ghost use Rattle.std.specs.Prelude.{⊤};

use crate::diff::{DiffLine, Origin, TextLine, lines_of};
use crate::explain::explainer_of;
use crate::explained_cast::explain_cast;
use csicodec_command::{Failure, Request, Worker, work_through};
use csicodec_listing::style::Style;
use csicodec_osc::Shown;
use csicodec_transform::{CHUNK, RunError, receive, send};
use std::alloc::{AllocError, Global};
use std::fmt::Write as _;
use std::io::{BufRead, Read, Write};

/// So many lines that are the same stand on each side of one that differs.
const NEAR: usize = 3;

/// What is told of a stream.
#[derive(Drop)]
struct Told {
    /// With all bytes of each span.
    whole: Vec<u8>,
    /// As it is shown; nothing where that is the whole.
    shown: Vec<u8>,
}

/// What is told of two streams, one after the other.
#[derive(Drop)]
struct Compared<'a> {
    alloc: Global,
    /// Their names.
    names: &'a [&'a str],
    /// How their lines are shown.
    style: Style<'a>,
    /// What was told of those that were read to their end.
    texts: Vec<Told>,
    /// Whether a line differs.
    differs: bool,
}

/// How many lines a text has.
fn line_count(text: &[u8]) -> usize {
    text.iter().filter(|byte| **byte == b'\n').count()
}

/// The lines of what is told of a stream. Those that are shown are as many, or none: then the whole ones are shown.
fn lines_told<'b>(alloc: Global, told: &'b Told) -> Result<Vec<TextLine<'b>>, AllocError> {
    let whole = told.whole.as_slice();
    let shown = if line_count(&told.shown) == line_count(whole) {
        told.shown.as_slice()
    } else {
        whole
    };
    let whole = whole.split_inclusive(|byte| *byte == b'\n');
    let shown = shown.split_inclusive(|byte| *byte == b'\n');
    whole
        .zip(shown)
        .map(|(whole, shown)| TextLine { whole, shown })
        .collect(alloc)
}

/// All bytes of an input.
fn bytes_of<R: Read>(alloc: Global, input: &mut R) -> Result<Vec<u8>, Failure> {
    let mut bytes = Vec::new(alloc);
    let mut chunk = [0u8; CHUNK];
    for _ in 0..u64::MAX {
        let len = receive(input, &mut chunk)?;
        if len == 0 {
            return Ok(bytes);
        }
        bytes.extend_from_slice(&chunk[..len])?;
    }
    Err(Failure::Run(RunError::Read))
}

/// What is told of these bytes in a style, those of a recording or of a stream.
fn text_told(
    alloc: Global,
    style: Style<'_>,
    is_recording: bool,
    bytes: &[u8],
) -> Result<Vec<u8>, Failure> {
    let mut explainer = explainer_of(alloc, style)?;
    let (mut input, mut text) = (bytes, Vec::new(alloc));
    if is_recording {
        explain_cast(alloc, &mut explainer, &mut input, &mut text)?;
    } else {
        explainer.read(&mut input, &mut text)?;
    }
    explainer.end(&mut text)?;
    Ok(text)
}

/// Whether the line at a place differs, or stands near one that does.
fn is_near(lines: &[DiffLine<'_>], place: usize) -> bool {
    let behind = place.saturating_add(NEAR + 1).min(lines.len());
    let near = lines.get(place.saturating_sub(NEAR)..behind).unwrap_or(&[]);
    near.iter().any(|line| line.side != Origin::Both)
}

/// A line behind the mark of where it is.
fn append_marked(out: &mut Vec<u8>, line: DiffLine<'_>) -> Result<(), AllocError> {
    out.push(match line.side {
        Origin::Both => b' ',
        Origin::First => b'-',
        Origin::Second => b'+',
    })?;
    out.extend_from_slice(line.shown)
}

/// The lines that are shown, with `@@` ahead of each run of them.
fn runs(alloc: Global, lines: &[DiffLine<'_>]) -> Result<Vec<u8>, AllocError> {
    let mut out = Vec::new(alloc);
    let mut before = false;
    for (place, line) in lines.iter().enumerate() {
        let is_shown = is_near(lines, place);
        if is_shown && !before {
            out.extend_from_slice(b"@@\n")?;
        }
        if is_shown {
            append_marked(&mut out, *line)?;
        }
        before = is_shown;
    }
    Ok(out)
}

/// Which files they are, as `diff -u` has it ahead of all.
fn head(alloc: Global, names: &[&str]) -> Result<Vec<u8>, AllocError> {
    let mut out = String::new(alloc);
    for (mark, name) in ["---", "+++"].iter().zip(names) {
        let name = Shown(name.as_bytes());
        write!(out, "{mark} {name}\n").map_err(|_| AllocError)?;
    }
    Ok(out.into_bytes())
}

/// The lines that differ and those near them, as `diff -u` marks them, with `@@` ahead of each run of them; nothing where none does.
fn differences(alloc: Global, first: &Told, second: &Told) -> Result<Vec<u8>, AllocError> {
    let (first, second) = (lines_told(alloc, first)?, lines_told(alloc, second)?);
    runs(alloc, &lines_of(alloc, &first, &second)?)
}

impl<'a> Compared<'a> {
    /// Keeps what is told of these bytes.
    fn keep(&mut self, is_recording: bool, bytes: &[u8]) -> Result<(), Failure> {
        let (alloc, style) = (self.alloc, self.style);
        let shown = if style.full {
            Vec::new(alloc)
        } else {
            text_told(alloc, style, is_recording, bytes)?
        };
        let style = Style {
            full: true,
            ..style
        };
        let whole = text_told(alloc, style, is_recording, bytes)?;
        let kept = self.texts.push(Told { whole, shown });
        kept.map_err(|_| Failure::Run(RunError::Memory))
    }
}

impl<'a> Worker for Compared<'a> {
    ghost steps = { λ _ _ _ _. ⊤ };

    fn begin<W: Write>(&mut self, _name: &str, _output: &mut W) -> Result<(), Failure> {
        Ok(())
    }

    fn read<R: Read, W: Write>(
        &mut self,
        alloc: Global,
        input: &mut R,
        _output: &mut W,
    ) -> Result<(), Failure> {
        let bytes = bytes_of(alloc, input)?;
        self.keep(false, &bytes)
    }

    fn read_cast<R: BufRead, W: Write>(
        &mut self,
        alloc: Global,
        input: &mut R,
        _output: &mut W,
    ) -> Result<(), Failure> {
        let bytes = bytes_of(alloc, input)?;
        self.keep(true, &bytes)
    }

    fn end<W: Write>(&mut self, output: &mut W) -> Result<(), Failure> {
        let (Some(first), Some(second)) = (self.texts.first(), self.texts.get(1)) else {
            return Ok(());
        };
        let told = differences(self.alloc, first, second)?;
        self.differs = !told.is_empty();
        if self.differs {
            send(output, &head(self.alloc, self.names)?)?;
        }
        Ok(send(output, &told)?)
    }
}

/// Writes what differs between two streams, as lines; the status, which is 1 where something does.
pub fn explain_diff(rt: &HostRuntime, style: Style<'_>, run: &Request<'_>) -> Result<(), u8> {
    let style = Style {
        json: false,
        count: false,
        stats: false,
        color: false,
        live: false,
        ..style
    };
    let mut work = Compared {
        alloc: rt.alloc(),
        names: &run.files,
        style,
        texts: Vec::new(rt.alloc()),
        differs: false,
    };
    work_through(rt, &mut work, run)?;
    if work.differs { Err(1) } else { Ok(()) }
}
