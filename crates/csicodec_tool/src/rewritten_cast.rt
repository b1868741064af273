//! Recordings of asciinema with other data.

use crate::log::Log;
use crate::spelled::append_spelled;
use bstr::ByteSlice;
use csicodec_clean::{Cleaner, Dropped, Kept, Passing, strip};
use csicodec_command::{Failure, Recording, time_of};
use csicodec_compact::Compactor;
use csicodec_filter::{Faithful, Filter, NormalForm};
use csicodec_lines::Lines;
use csicodec_transform::{RunError, Transform, send};
use serde_json::Value;
use std::alloc::{AllocError, Global};
use std::io::{BufRead, Write};

/// What the data of all events go through, one after the other.
#[derive(Drop)]
pub enum Rewriter {
    /// Each control sequence in its normal form.
    Normal(Filter<NormalForm>),
    /// The same, but of what terminals read otherwise.
    Faithful(Filter<Faithful>),
    /// Each in the shortest of its spellings that is found, runs of attributes as one.
    Short(Compactor),
    /// Plain text.
    Plain(Cleaner<Dropped>),
    /// The same with its styles.
    Styled(Cleaner<Kept>),
    /// Plain text, line by line.
    PlainLines(Lines<Dropped, ()>),
    /// The same with its styles.
    StyledLines(Lines<Kept, Passing>),
    /// Each line as it stands when it ends.
    Logged(Log),
}

impl Rewriter {
    /// The next data; what is sure is appended.
    pub fn push(&mut self, bytes: &[u8], out: &mut Vec<u8>) -> Result<(), AllocError> {
        match self {
            Rewriter::Normal(filter) => filter.push(bytes, out),
            Rewriter::Faithful(filter) => filter.push(bytes, out),
            Rewriter::Short(filter) => filter.push(bytes, out),
            Rewriter::Plain(cleaner) => cleaner.take(bytes, out),
            Rewriter::Styled(cleaner) => cleaner.take(bytes, out),
            Rewriter::PlainLines(lines) => lines.take(bytes, out),
            Rewriter::StyledLines(lines) => lines.take(bytes, out),
            Rewriter::Logged(log) => log.take(bytes, out),
        }
    }

    /// The next data, as a recording has them. Ahead of each newline that stays is a carriage return: they were dropped, and where a
    /// recording is played a newline alone leads down, and not to the begin of the line.
    fn push_recorded(&mut self, bytes: &[u8], out: &mut Vec<u8>) -> Result<(), AllocError> {
        if !self.is_safe() {
            return self.push(bytes, out);
        }
        let mut text = Vec::new(*out.allocator());
        self.push(bytes, &mut text)?;
        text.as_slice().replace_into(b"\n", b"\r\n", out)
    }

    /// Whether the data are made safe, so that nothing else of the recording may be a control either.
    fn is_safe(&self) -> bool {
        !matches!(
            self,
            Rewriter::Normal(_) | Rewriter::Faithful(_) | Rewriter::Short(_)
        )
    }

    /// Nothing comes any more: what was held is appended.
    pub fn finish(&mut self, out: &mut Vec<u8>) -> Result<(), AllocError> {
        match self {
            Rewriter::Normal(filter) => filter.finish(out),
            Rewriter::Faithful(filter) => filter.finish(out),
            Rewriter::Short(filter) => filter.finish(out),
            Rewriter::Plain(cleaner) => cleaner.finish(out),
            Rewriter::Styled(cleaner) => cleaner.finish(out),
            Rewriter::PlainLines(lines) => lines.end(out),
            Rewriter::StyledLines(lines) => lines.end(out),
            Rewriter::Logged(log) => log.end(out),
        }
    }
}

/// A line as it is; where the data are made safe as `strip` leaves it, since a comment, a header or an event of another kind may
/// have controls of its own.
fn send_line<W: Write>(
    alloc: Global,
    stage: &Rewriter,
    line: &str,
    output: &mut W,
) -> Result<(), Failure> {
    if !stage.is_safe() {
        return Ok(send(output, line.as_bytes())?);
    }
    let mut text = strip(alloc, line.trim_end().as_bytes())?;
    text.extend_from_slice(b"\n")?;
    Ok(send(output, &text)?)
}

/// An event of data that a program wrote, as a line.
fn send_event<W: Write>(
    alloc: Global,
    stage: &Rewriter,
    time: &str,
    data: &[u8],
    output: &mut W,
) -> Result<(), Failure> {
    let data = String::from_utf8_lossy(alloc, data)?;
    let data = Value::String(data).to_string(alloc)?;
    let line = format!(in alloc; "[{time}, \"o\", {data}]\n")?;
    send_line(alloc, stage, &line, output)
}

/// Spells the characters of the data, if they are to be visible.
fn spell(visible: bool, data: &mut Vec<u8>) -> Result<(), AllocError> {
    if !visible {
        return Ok(());
    }
    let mut text = Vec::new(*data.allocator());
    append_spelled(data, &mut text)?;
    data.clear();
    data.extend_from_slice(&text)
}

/// Writes a recording whose events have what becomes of their data, at the same times; all else stays as it is, but for controls
/// where the data are made safe. What isn't over at the last event stands in one more, at its time.
pub fn rewrite_cast<R: BufRead, W: Write>(
    alloc: Global,
    stage: &mut Rewriter,
    visible: bool,
    input: &mut R,
    output: &mut W,
) -> Result<(), Failure> {
    let mut reading = Recording::new(alloc);
    let mut line = Vec::new(alloc);
    let mut last = String::from_str(alloc, "0")?;
    let mut out = Vec::new(alloc);
    for _ in 0..u64::MAX {
        let Some(text) = reading.next_line(input, &mut line)? else {
            break;
        };
        let Some(data) = reading.take(text.as_bytes())? else {
            send_line(alloc, stage, text, output)?;
            continue;
        };
        let time = time_of(text.trim());
        out.clear();
        stage.push_recorded(data.as_bytes(), &mut out)?;
        spell(visible, &mut out)?;
        send_event(alloc, stage, time, &out, output)?;
        if reading.counts_from_begin() {
            last.clear();
            last.push_str(time)?;
        }
    }
    out.clear();
    stage.finish(&mut out)?;
    spell(visible, &mut out)?;
    if !out.is_empty() {
        send_event(alloc, stage, &last, &out, output)?;
    }
    reading.end()
}
