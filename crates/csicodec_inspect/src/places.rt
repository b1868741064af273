//! The places of a stream that are no plain text, or none that is all seen, each in a line: `file:line:column: danger: what`.

use crate::check::found;
use crate::danger::mark_of;
use crate::visible::VisibleText;
use bstr::decode_utf8;
use csicodec_clean::{CharClass, PlainText, first_sure};
use csicodec_command::Found;
use csicodec_explain::Explainer;
use csicodec_listing::style::Style;
use csicodec_osc::Shown;
use csicodec_spans::{Kind, LIMIT, Mode, next_span};
use csicodec_transform::{RunError, keep_from};
use std::alloc::{AllocError, Global};
use std::fmt::Write;

const ESC: u8 = 0x1b;

/// A place as editors count it: a line, and a character in that, each from 1.
#[derive(Clone, Copy)]
pub struct Spot {
    line: u64,
    column: u64,
}

impl Spot {
    /// The begin of a stream.
    pub fn first() -> Spot {
        Spot { line: 1, column: 1 }
    }

    /// Goes on behind bytes. A character is counted by its first byte.
    pub fn pass(&mut self, bytes: &[u8]) {
        for byte in bytes {
            match *byte {
                b'\n' => {
                    self.line = self.line.saturating_add(1);
                    self.column = 1;
                }
                0x80..=0xbf => {}
                _ => self.column = self.column.saturating_add(1),
            }
        }
    }

    /// Appends what stands ahead of a line that is told of this place.
    pub fn append_to(&self, name: &str, text: &mut String) -> Result<(), AllocError> {
        let (name, line, column) = (Shown(name.as_bytes()), self.line, self.column);
        write!(text, "{name}:{line}:{column}: ").map_err(|_| AllocError)
    }
}

/// What is behind text of the class in front.
fn behind_text<C: CharClass>(bytes: &[u8]) -> &[u8] {
    let mut rest = C::behind(bytes);
    for _ in 0..bytes.len() {
        let size = match decode_utf8(rest) {
            (Some(char), size) if C::has(char) => size,
            _ => break,
        };
        rest = C::behind(rest.get(size..).unwrap_or(&[]));
    }
    rest
}

/// How many bytes the text in front has, plain or plain and all seen.
#[inline(never)]
fn text_len(visible: bool, bytes: &[u8]) -> usize {
    let rest = if visible {
        behind_text::<VisibleText>(bytes)
    } else {
        behind_text::<PlainText>(bytes)
    };
    bytes.len().saturating_sub(rest.len())
}

/// What the span in front is in this mode, how many bytes it has, and the mode behind it; none where more has to come.
#[inline(never)]
fn span_in_front(mode: Mode, bytes: &[u8]) -> Option<(Kind, usize, Mode)> {
    let cut = next_span(LIMIT, mode, bytes)?;
    Some((cut.span.kind, cut.span.bytes.len(), cut.mode))
}

/// How many bytes the control character or the character in front has that isn't of the class, CR and LF together; none where more has to
/// come to tell.
fn char_len(bytes: &[u8], over: bool) -> usize {
    if bytes.starts_with(b"\r\n".as_slice()) {
        return 2;
    }
    if !over && (bytes == b"\r".as_slice() || first_sure(bytes).is_none()) {
        return 0;
    }
    decode_utf8(bytes).1
}

/// Appends what is told of a place, and the line's end.
fn append_line(text: &mut String, found: Found, words: &str) -> Result<(), AllocError> {
    let mark = mark_of(found, words);
    write!(text, "{mark}: {words}\n").map_err(|_| AllocError)
}

/// What stands ahead of the name of an action, and between that and its words, in what is told of a place.
const NAME: &str = "{\"name\":\"";

const WORDS: &str = "\",\"words\":\"";

/// Appends what a text of JSON stands for, up to its end; what is behind that. A character by its number is left so.
fn append_text<'a>(text: &'a str, out: &mut String) -> Result<&'a str, AllocError> {
    let mut is_escaped = false;
    for (at, char) in text.char_indices() {
        match (is_escaped, char) {
            (false, '\\') => {}
            (false, '"') => return Ok(text.get(at..).unwrap_or("")),
            (true, '"' | '\\') | (false, _) => out.push(char)?,
            (true, _) => {
                out.push('\\')?;
                out.push(char)?;
            }
        }
        is_escaped = !is_escaped && char == '\\';
    }
    Ok("")
}

/// Tells each place of one stream after the other.
#[derive(Drop)]
struct Teller<'a> {
    explainer: Box<Explainer<'a>>,
    /// The mode in which the next byte stands.
    mode: Mode,
    /// The name of the stream.
    name: String,
    /// Where the next byte stands.
    spot: Spot,
    /// Where the place begins that is read, and what it is, where it isn't over.
    open: Option<(Spot, Found)>,
    /// What is told of a place: the objects of `explain --json`.
    told: Vec<u8>,
    /// The lines that are told.
    text: String,
    /// Whether a character that isn't seen is a place too.
    visible: bool,
    /// Whether all places are told, or only the first.
    all: bool,
    /// Whether one is.
    any: bool,
}

impl<'a> Teller<'a> {
    /// A stream of this name begins. What one that couldn't be read to its end left open is told of none.
    fn begin(&mut self, name: &str) -> Result<(), RunError> {
        self.explainer.end(&mut self.told)?;
        self.told.clear();
        self.name.clear();
        self.spot = Spot::first();
        self.open = None;
        self.mode = Mode::Text;
        self.any = false;
        self.name.push_str(name).map_err(|_| RunError::Memory)
    }

    /// Whether nothing more is told of this stream.
    fn is_done(&self) -> bool {
        self.any && !self.all
    }

    /// Tells the place that is over.
    #[inline(never)]
    fn tell(&mut self, spot: Spot, found: Found) -> Result<(), RunError> {
        self.explainer.end(&mut self.told)?;
        self.append_lines(spot, found).map_err(|_| RunError::Memory)
    }

    /// Appends a line for each action of a place, and for one without a line of what it is.
    fn append_lines(&mut self, spot: Spot, found: Found) -> Result<(), AllocError> {
        self.any = true;
        let mut words = String::new(*self.told.allocator());
        let mut rest = std::str::from_utf8(&self.told).unwrap_or("");
        for _ in 0..self.told.len() {
            let Some((_, action)) = rest.split_once(NAME) else {
                break;
            };
            let (name, behind) = action.split_once(WORDS).unwrap_or(("", action));
            words.clear();
            words.push_str(name)?;
            words.push_str("  ")?;
            rest = append_text(behind, &mut words)?;
            spot.append_to(&self.name, &mut self.text)?;
            append_line(&mut self.text, found, &words)?;
        }
        if words.is_empty() {
            spot.append_to(&self.name, &mut self.text)?;
            words = format!(in *self.told.allocator(); "{found}")?;
            append_line(&mut self.text, found, &words)?;
        }
        self.told.clear();
        Ok(())
    }

    /// Takes the sequence or the string in front, as far as it is there; how many bytes that are.
    #[inline(never)]
    fn take_span(&mut self, bytes: &[u8], spot: Spot, found: Found) -> Result<usize, RunError> {
        let Some((_, len, mode)) = span_in_front(self.mode, bytes) else {
            return Ok(0);
        };
        let span = bytes.get(..len).unwrap_or(bytes);
        self.explainer.take(0, span, &mut self.told)?;
        self.spot.pass(span);
        self.mode = mode;
        self.open = Some((spot, found));
        if self.mode == Mode::Text {
            self.close()?;
            return Ok(len);
        }
        // Pieces of a long string have no words: these stand behind the last.
        self.told.clear();
        Ok(len)
    }

    /// The sequence or the string that is open is over.
    #[inline(never)]
    fn close(&mut self) -> Result<(), RunError> {
        let Some((spot, found)) = self.open.take() else {
            return Ok(());
        };
        self.mode = Mode::Text;
        self.tell(spot, found)
    }

    /// Whether what is open is over, and these bytes are none of it.
    fn is_over(&self, bytes: &[u8]) -> bool {
        match (bytes, span_in_front(self.mode, bytes)) {
            ([ESC, b'\\', ..], _) => matches!(self.mode, Mode::BadCsi | Mode::BadEsc),
            ([ESC, ESC, ..], _) => self.mode != Mode::Dcs,
            ([ESC, _, ..], _) => true,
            (_, Some((kind, _, _))) => matches!(kind, Kind::Text),
            (_, None) => false,
        }
    }

    /// Takes the character in front, which isn't of the class; how many bytes it has.
    #[inline(never)]
    fn take_char(&mut self, bytes: &[u8], over: bool) -> Result<usize, RunError> {
        let len = char_len(bytes, over);
        let bytes = bytes.get(..len).unwrap_or(bytes);
        if len == 0 {
            return Ok(0);
        }
        let (spot, found) = (self.spot, found(bytes));
        self.spot.pass(bytes);
        match found {
            Found::Control(_) if len == 2 && bytes.ends_with(b"\n".as_slice()) => {
                let line_end = b"{\"name\":\"CR LF\",\"words\":\"the end of a line\"".as_slice();
                self.told
                    .extend_from_slice(line_end)
                    .map_err(|_| RunError::Memory)?;
            }
            // A control of C1 is told as a text.
            Found::Control(0..=0x7f) => self.explainer.take(0, bytes, &mut self.told)?,
            // Such bytes count as one character.
            Found::NotUtf8 => self.spot.column = spot.column.saturating_add(1),
            _ => {}
        }
        self.tell(spot, found)?;
        Ok(len)
    }

    /// Takes what stands in front, as far as it is there: text, or a place; how many bytes it has, none where more has to come. With `over`
    /// nothing comes.
    fn take(&mut self, bytes: &[u8], over: bool) -> Result<usize, RunError> {
        if let Some((spot, found)) = self.open {
            if !self.is_over(bytes) {
                return self.take_span(bytes, spot, found);
            }
            self.close()?;
            if self.is_done() {
                return Ok(0);
            }
        }
        let text = text_len(self.visible, bytes);
        if text > 0 {
            self.spot.pass(bytes.get(..text).unwrap_or(bytes));
            return Ok(text);
        }
        if bytes.first().copied() == Some(ESC) {
            return self.take_span(bytes, self.spot, found(bytes));
        }
        self.take_char(bytes, over)
    }

    /// Takes all that is there, while more is told of the stream; how many bytes that are.
    #[inline(never)]
    fn take_all(&mut self, bytes: &[u8], over: bool) -> Result<usize, RunError> {
        let mut rest = bytes;
        for _ in 0..bytes.len() {
            if self.is_done() {
                break;
            }
            let len = self.take(rest, over)?;
            if len == 0 {
                break;
            }
            rest = rest.get(len..).unwrap_or(&[]);
        }
        Ok(bytes.len().saturating_sub(rest.len()))
    }

    /// Nothing comes any more: what is open is over, and these bytes begin a sequence that isn't.
    fn finish(&mut self, bytes: &[u8]) -> Result<(), RunError> {
        self.close()?;
        if bytes.is_empty() || self.is_done() {
            return Ok(());
        }
        self.explainer.take(0, bytes, &mut self.told)?;
        self.tell(self.spot, found(bytes))
    }
}

/// The places of streams, one after the other.
#[derive(Drop)]
pub struct Places<'a> {
    teller: Teller<'a>,
    /// The bytes that came of what isn't over.
    pending: Vec<u8>,
}

impl<'a> Places<'a> {
    /// Of which nothing has come; whether characters that aren't seen are places, and whether all are told, or the first of each stream.
    pub fn new(alloc: Global, visible: bool, all: bool) -> Result<Places<'a>, AllocError> {
        let style = Style {
            json: true,
            ..Style::default()
        };
        let teller = Teller {
            explainer: Box::new(alloc, Explainer::new(alloc, style))?,
            mode: Mode::Text,
            name: String::new(alloc),
            spot: Spot::first(),
            open: None,
            told: Vec::new(alloc),
            text: String::new(alloc),
            visible,
            all,
            any: false,
        };
        Ok(Places {
            teller,
            pending: Vec::new(alloc),
        })
    }

    /// A stream of this name begins.
    pub fn begin(&mut self, name: &str) -> Result<(), RunError> {
        self.pending.clear();
        self.teller.begin(name)
    }

    /// Whether nothing more is told of this stream, whatever comes.
    pub fn is_done(&self) -> bool {
        self.teller.is_done()
    }

    /// Takes the next bytes.
    pub fn push(&mut self, bytes: &[u8]) -> Result<(), RunError> {
        let Ok(()) = self.pending.extend_from_slice(bytes) else {
            return Err(RunError::Memory);
        };
        let used = self.teller.take_all(&self.pending, false)?;
        let used = used.min(self.pending.len());
        keep_from(&mut self.pending, used);
        Ok(())
    }

    /// Nothing comes any more of this stream.
    pub fn end(&mut self) -> Result<(), RunError> {
        let used = self.teller.take_all(&self.pending, true)?;
        if self.is_done() {
            return Ok(());
        }
        self.teller.finish(self.pending.get(used..).unwrap_or(&[]))
    }

    /// Whether a place of this stream is told.
    pub fn any(&self) -> bool {
        self.teller.any
    }

    /// The lines that are told since they were cleared.
    pub fn text(&self) -> &[u8] {
        self.teller.text.as_bytes()
    }

    /// They were written.
    pub fn clear(&mut self) {
        self.teller.text.clear();
    }
}
