//! Recordings of asciinema in words.

use csicodec_command::{Failure, Recording};
use csicodec_explain::Explainer;
use csicodec_osc::Quoted;
use csicodec_transform::RunError;
use std::alloc::Global;
use std::fmt;
use std::io::{BufRead, Write};

/// What a recording has beside what was written: an event's code and its data.
#[derive(Clone, Copy)]
struct CastEvent<'a> {
    code: &'a str,
    data: &'a str,
}

/// The columns and the lines of a size, as `90x24`.
fn size_of_screen(data: &str) -> Option<(u32, u32)> {
    let (columns, lines) = data.split_once('x')?;
    Some((columns.parse::<u32>().ok()?, lines.parse::<u32>().ok()?))
}

/// The data of an event as they are shown.
fn shown(data: &str) -> Quoted<'_> {
    Quoted {
        bytes: data.as_bytes(),
        more: false,
    }
}

/// A name, two blanks, and the words: of a size that the terminal was given, a marker, or the status of the program at its end.
impl<'a> fmt::Display for CastEvent<'a> {
    fn fmt<W: fmt::Write>(&self, f: &mut fmt::Formatter<W>) -> fmt::Result {
        match self.code {
            "r" => match size_of_screen(self.data) {
                Some((columns, lines)) => write!(f, "resize  {columns} columns, {lines} lines"),
                None => write!(f, "resize  {}", shown(self.data)),
            },
            "m" => write!(f, "marker  {}", shown(self.data)),
            _ => match self.data.parse::<u32>() {
                Ok(status) => write!(f, "exit  status {status}"),
                Err(_) => write!(f, "exit  status {}", shown(self.data)),
            },
        }
    }
}

/// Explains an event: what a program wrote or what was typed, by its code; a size, a marker or the end. Others are left out.
fn explain_event<W: Write>(
    explainer: &mut Explainer<'_>,
    time: u64,
    event: CastEvent<'_>,
    output: &mut W,
) -> Result<(), RunError> {
    let wanted = if explainer.is_of_input() { "i" } else { "o" };
    match event.code {
        code if code == wanted => explainer.take(time, event.data.as_bytes(), output),
        "r" | "m" | "x" => explainer.take_event(time, &event, output),
        _ => Ok(()),
    }
}

/// Explains what the programs of a recording wrote, or what was typed, each event with its time; and its sizes, its markers and its end.
pub fn explain_cast<R: BufRead, W: Write>(
    alloc: Global,
    explainer: &mut Explainer<'_>,
    input: &mut R,
    output: &mut W,
) -> Result<(), Failure> {
    let mut reading = Recording::new(alloc);
    let mut line = Vec::new(alloc);
    for _ in 0..u64::MAX {
        let Some(text) = reading.next_line(input, &mut line)? else {
            return reading.end();
        };
        let Some((code, data)) = reading.take_any(text)? else {
            continue;
        };
        let event = CastEvent {
            code: code.as_str(),
            data: data.as_str(),
        };
        explain_event(explainer, reading.time(), event, output)?;
    }
    Ok(())
}
