//! A stream in words, as it comes.
ghost use Rattle.std.specs.Prelude.{◌≤◌, IfOk, length};

use crate::input::Sending;
use crate::page::Listing;
use csicodec_listing::style::Style;
use csicodec_spans::{Kind, LIMIT, Mode, next_span};
use csicodec_transform::{CHUNK, RunError, keep_from, receive, send};
use std::alloc::{AllocError, Global};
use std::fmt::Display;
use std::io::{Read, Write};

/// Adds the lines of all spans that are sure; how many bytes they are, and the mode behind them.
fn add_spans(page: &mut Listing<'_>, mode: Mode, bytes: &[u8]) -> Result<(usize, Mode), AllocError>
    ensures { IfOk result (λ (used, after). used ≤ length bytes.now) }
{
    let (mut mode, mut rest) = (mode, bytes);
    loop {
        let known = page.add_front(mode, rest)?;
        if known > 0 {
            rest = rest.split_at(known).1;
            continue;
        }
        let Some(cut) = next_span(LIMIT, mode, rest) else {
            return Ok((bytes.len() - rest.len(), mode));
        };
        let more = !cut.rest.is_empty();
        page.add((mode, cut.mode), cut.span.kind, cut.span.bytes, more)?;
        mode = cut.mode;
        rest = cut.rest;
    }
}

/// Streams one after the other, of which some has come. It holds what may go on: less than `LIMIT` bytes, or a span's first bytes.
#[derive(Drop)]
pub struct Explainer<'a> {
    style: Style<'a>,
    mode: Mode,
    pending: Vec<u8>,
    sending: Sending,
    page: Listing<'a>,
}

impl<'a> Explainer<'a> {
    /// Nothing has come.
    pub fn new(alloc: Global, style: Style<'a>) -> Explainer<'a> {
        Explainer {
            style,
            mode: Mode::Text,
            pending: Vec::new(alloc),
            sending: Sending::new(alloc),
            page: Listing::new(alloc, style),
        }
    }

    /// Whether it tells what a terminal sends, and not what it is sent.
    pub fn is_of_input(&self) -> bool {
        self.style.dialect.is_some()
    }

    /// The next bytes.
    fn push(&mut self, time: u64, bytes: &[u8]) -> Result<(), AllocError> {
        if self.is_of_input() && self.sending.come_at(time) {
            self.pause()?;
        }
        self.page.come_at(time, self.pending.is_empty());
        self.pending.extend_from_slice(bytes)?;
        let (page, bytes) = (&mut self.page, self.pending.as_slice());
        let (used, mode) = match self.style.dialect {
            Some(dialect) => self.sending.add(page, dialect, self.mode, bytes)?,
            None => add_spans(page, self.mode, bytes)?,
        };
        self.mode = mode;
        keep_from(&mut self.pending, used);
        Ok(())
    }

    /// Nothing came in time: what waits is told as far as it is keys by itself.
    fn pause(&mut self) -> Result<(), AllocError> {
        for _ in 0..self.pending.len() {
            if !self.pause_front()? {
                break;
            }
        }
        Ok(())
    }

    /// Tells the key in front of what waits, and what is sure behind it; whether there is one.
    fn pause_front(&mut self) -> Result<bool, AllocError> {
        let Some(dialect) = self.style.dialect else {
            return Ok(false);
        };
        let (page, bytes) = (&mut self.page, self.pending.as_slice());
        let len = self.sending.pause(page, self.mode, bytes)?;
        if len == 0 {
            return Ok(false);
        }
        let (used, mode) = self.sending.add(page, dialect, Mode::Text, &bytes[len..])?;
        self.mode = mode;
        keep_from(&mut self.pending, len + used);
        Ok(true)
    }

    /// Nothing comes any more: what isn't over is malformed.
    fn finish(&mut self) -> Result<(), AllocError> {
        if self.is_of_input() {
            self.pause()?;
            self.sending.end(&mut self.page, self.mode, &self.pending)?;
        } else if !self.pending.is_empty() {
            let modes = (self.mode, self.mode);
            self.page.add(modes, Kind::Other, &self.pending, false)?;
        }
        self.pending.clear();
        self.mode = Mode::Text;
        self.page.close()
    }

    /// What is told of bytes that are a stream by themselves.
    pub(crate) fn tell_alone(&mut self, bytes: &[u8]) -> Result<&[u8], AllocError> {
        self.finish()?;
        self.page.sheet.text.clear();
        self.push(0, bytes)?;
        Ok(&self.page.sheet.text)
    }

    /// Writes the lines that are there, if all that was to be told is.
    fn flush<W: Write>(
        &mut self,
        told: Result<(), AllocError>,
        output: &mut W,
    ) -> Result<(), RunError> {
        if told.is_err() {
            return Err(RunError::Memory);
        }
        send(output, &self.page.sheet.text)?;
        self.page.sheet.text.clear();
        Ok(())
    }

    /// The stream so far is over, and another one begins, of which times are told or not. A name stands ahead of its lines, or in
    /// each of its objects.
    pub fn begin<W: Write>(
        &mut self,
        name: Option<&str>,
        timed: bool,
        output: &mut W,
    ) -> Result<(), RunError> {
        let told = match self.finish() {
            Ok(()) => self.page.begin(name, timed),
            failed => failed,
        };
        self.flush(told, output)
    }

    /// The next bytes, which came at this time, in microseconds from the begin. The lines of all spans that are over are written
    /// and flushed. `RunError::Decode` never comes, nor `RunError::Read`.
    pub fn take<W: Write>(
        &mut self,
        time: u64,
        bytes: &[u8],
        output: &mut W,
    ) -> Result<(), RunError> {
        let told = self.push(time, bytes);
        self.flush(told, output)
    }

    /// What came at this time beside bytes: a name, two blanks, and words.
    pub fn take_event<T: Display, W: Write>(
        &mut self,
        time: u64,
        words: &T,
        output: &mut W,
    ) -> Result<(), RunError> {
        let told = self.page.add_event(time, words);
        self.flush(told, output)
    }

    /// The bytes of a read of at most `CHUNK` bytes. The lines of all spans that are over are written and flushed, and where someone
    /// looks on that of a text too, if nothing more is there at once.
    pub fn take_read<W: Write>(&mut self, bytes: &[u8], output: &mut W) -> Result<(), RunError> {
        let told = match self.push(0, bytes) {
            // Fewer bytes are all that was there.
            Ok(()) if self.style.live && bytes.len() < CHUNK => self.page.pause(),
            told => told,
        };
        self.flush(told, output)
    }

    /// Reads to the end of an input. After each read the lines of all spans that are over are written and flushed. A read that a
    /// signal interrupted is tried again. `RunError::Decode` never comes.
    pub fn read<R: Read, W: Write>(
        &mut self,
        input: &mut R,
        output: &mut W,
    ) -> Result<(), RunError> {
        let mut chunk = [0u8; CHUNK];
        for _ in 0..u64::MAX {
            let len = receive(input, &mut chunk)?;
            if len == 0 {
                return Ok(());
            }
            self.take_read(&chunk[..len], output)?;
        }
        Err(RunError::Read)
    }

    /// The last lines, and the sums where they are asked for.
    pub fn end<W: Write>(&mut self, output: &mut W) -> Result<(), RunError> {
        let told = match self.finish() {
            Ok(()) => self.page.add_sums(),
            failed => failed,
        };
        self.flush(told, output)
    }
}
