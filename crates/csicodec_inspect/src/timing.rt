//! The times that `script` wrote beside a recording: a line for each piece, with the seconds since the piece before and how many
//! bytes it has; in the newer form a letter stands ahead of both, `O` for what was written, `I` for what was typed.

use csicodec_command::{Failure, line_front, micros};
use csicodec_explain::Explainer;
use csicodec_transform::{CHUNK, RunError, receive};
use std::alloc::Global;
use std::io::{Read, Write};

/// The pieces of a recording, one after the other.
#[derive(Drop)]
pub struct Timing {
    /// How many bytes each has, and when it came, in microseconds from the begin.
    pieces: Vec<(usize, u64)>,
    /// Which piece is read.
    at: usize,
    /// How many of its bytes are.
    taken: usize,
    /// Whether the line that `script` puts ahead of the recording may come.
    front: bool,
}

/// Whether a text is a number of seconds: decimal digits with at most one point.
fn is_seconds(text: &str) -> bool {
    let digits = ['0', '1', '2', '3', '4', '5', '6', '7', '8', '9'];
    let (whole, part) = text.split_once('.').unwrap_or((text, ""));
    !whole.is_empty()
        && whole.trim_start_matches(digits).is_empty()
        && part.trim_start_matches(digits).is_empty()
}

/// The seconds since the line before, and how many bytes came then of what has this letter: none where the line is another's, as of a
/// signal. Nothing of a line that `script` doesn't write.
fn line_of(line: &str, wanted: u8) -> Option<(u64, usize)> {
    let mut words = line.split_whitespace();
    let first = words.next()?;
    // In the newer form a letter stands ahead of the seconds.
    let (letter, seconds) = match first.as_bytes() {
        [letter @ b'A'..=b'Z'] => (Some(*letter), words.next()?),
        _ => (None, first),
    };
    if !is_seconds(seconds) {
        return None;
    }
    if !matches!(letter, None | Some(b'O' | b'I')) {
        return Some((micros(seconds), 0));
    }
    let count = words.next()?.parse::<usize>().ok()?;
    if words.next().is_some() {
        return None;
    }
    let is_wanted = letter.unwrap_or(wanted) == wanted;
    Some((micros(seconds), if is_wanted { count } else { 0 }))
}

impl Timing {
    /// The pieces of such a file, of what was typed or of what was written.
    pub fn of(alloc: Global, text: &str, typed: bool) -> Result<Timing, Failure> {
        let wanted = if typed { b'I' } else { b'O' };
        let mut pieces = Vec::new(alloc);
        let (mut time, mut number) = (0u64, 0u64);
        for line in text.lines() {
            number = number.saturating_add(1);
            let Some((since, count)) = line_of(line, wanted) else {
                return Err(Failure::Times(number));
            };
            time = time.saturating_add(since);
            if count > 0 && pieces.push((count, time)).is_err() {
                return Err(Failure::Run(RunError::Memory));
            }
        }
        Ok(Timing {
            pieces,
            at: 0,
            taken: 0,
            front: true,
        })
    }

    /// How many of these bytes are of the line that `script` puts ahead of the recording.
    fn ahead(&mut self, bytes: &[u8]) -> usize {
        let front = self.front;
        self.front = false;
        if !front || !bytes.starts_with(b"Script started on ".as_slice()) {
            return 0;
        }
        line_front(bytes).0.len()
    }

    /// How many of so many bytes came at once, and when. Behind the last piece all come when it did.
    fn piece(&mut self, len: usize) -> (usize, u64) {
        let Some((count, time)) = self.pieces.get(self.at).copied() else {
            let (_, last) = self.pieces.last().copied().unwrap_or((0, 0));
            return (len, last);
        };
        let left = count.saturating_sub(self.taken);
        if left > len {
            self.taken = self.taken.saturating_add(len);
            return (len, time);
        }
        self.at = self.at.saturating_add(1);
        self.taken = 0;
        (left, time)
    }

    /// Explains bytes, each piece with its time.
    fn explain<W: Write>(
        &mut self,
        explainer: &mut Explainer<'_>,
        bytes: &[u8],
        output: &mut W,
    ) -> Result<(), Failure> {
        let mut rest = bytes;
        for _ in 0..bytes.len().saturating_add(1) {
            if rest.is_empty() {
                break;
            }
            let (count, time) = match self.ahead(rest) {
                0 => self.piece(rest.len()),
                ahead => (ahead, 0),
            };
            let piece = rest.get(..count).unwrap_or(rest);
            explainer.take(time, piece, output)?;
            rest = rest.get(count..).unwrap_or(&[]);
        }
        Ok(())
    }

    /// Explains an input to its end.
    pub fn explain_all<R: Read, W: Write>(
        &mut self,
        explainer: &mut Explainer<'_>,
        input: &mut R,
        output: &mut W,
    ) -> Result<(), Failure> {
        let mut chunk = [0u8; CHUNK];
        for _ in 0..u64::MAX {
            let len = receive(input, &mut chunk)?;
            if len == 0 {
                return Ok(());
            }
            self.explain(explainer, &chunk[..len], output)?;
        }
        Err(Failure::Run(RunError::Read))
    }
}
