//! The spans of a stream, each told when it is over.
ghost use Rattle.std.specs.Prelude.{◌≤◌, IfOk, length};

use crate::Result;
use crate::sheet::Sheet;
use csicodec_base::{CsiParam, Esc, ReadError, read_csi_into};
use csicodec_listing::columns::{Counted, Sort, ToldSpan, whole_characters};
use csicodec_listing::counts::Totals;
use csicodec_listing::keyed::{Keyed, sequence_front};
use csicodec_listing::style::Style;
use csicodec_osc::{ControlString, FRONT, text_len};
use csicodec_spans::{Kind, LIMIT, Mode};
use csicodec_transform::keep_from;
use csicodec_words::{Did, EscReading, words_of_control};
use std::alloc::{AllocError, Global};
use std::fmt::Display;

/// A span of which more may come: text, a string, or what went wrong.
#[derive(Drop)]
struct Open {
    kind: Kind,
    /// Its first byte, counted from 0, and when that came.
    place: u64,
    time: u64,
    /// How many bytes there are; 0 where no span is open.
    len: u64,
    /// Whether a string is closed, and by BEL.
    closed: bool,
    bell: bool,
    /// How many of the bytes are told in pieces.
    told: u64,
    /// The first of the bytes behind those.
    front: Vec<u8>,
    /// The first of all bytes, where some are told.
    begin: Vec<u8>,
}

impl Open {
    /// What isn't told of it yet.
    fn rest(&self) -> ToldSpan<'_> {
        ToldSpan {
            sort: match self.kind {
                Kind::Text => Sort::Text,
                Kind::Str => Sort::String,
                Kind::Csi | Kind::Esc | Kind::Other => Sort::Malformed,
            },
            place: self.place.saturating_add(self.told),
            time: self.time,
            bytes: &self.front,
            len: self.len,
            end: &[],
        }
    }

    /// The first bytes, of which words are made.
    fn first(&self) -> &[u8] {
        if self.told == 0 {
            &self.front
        } else {
            &self.begin
        }
    }

    /// So many bytes more are told.
    fn pass(&mut self, len: usize) -> Result<()> {
        if self.told == 0 {
            self.begin.clear();
            let first = self.front.get(..FRONT).unwrap_or(&self.front);
            self.begin.extend_from_slice(first)?;
        }
        self.told = self.told.saturating_add(len as u64);
        let len = len.min(self.front.len());
        keep_from(&mut self.front, len);
        Ok(())
    }
}

/// The lines of the spans that came, and the span of which more may come. It doesn't grow with that span, but where all
/// its bytes are to be shown at once.
#[derive(Drop)]
pub struct Listing<'a> {
    pub sheet: Sheet<'a>,
    /// The tokens of a control sequence.
    params: Vec<CsiParam>,
    place: u64,
    /// When the byte at the place came, and when those that are read now did, in microseconds.
    time: u64,
    now: u64,
    open: Open,
    /// Where a carriage return stands that isn't told yet, and when it came: a line feed may follow.
    held: Option<(u64, u64)>,
    /// Whether the last span was text.
    text: bool,
    totals: Totals,
}

/// A span of which all bytes are there.
fn whole_span(sort: Sort, place: u64, time: u64, bytes: &[u8]) -> ToldSpan<'_> {
    ToldSpan {
        sort,
        place,
        time,
        bytes,
        len: bytes.len() as u64,
        end: &[],
    }
}

/// What went wrong, which may be an escape sequence with more than one intermediate byte, of which nothing was left out.
#[inline(never)]
fn tell_wrong(sheet: &mut Sheet<'_>, totals: &mut Totals, span: &ToldSpan<'_>) -> Result<()> {
    let (len, sort) = (span.len, Sort::Escape);
    match EscReading::long(span.bytes) {
        Some(reading) if span.bytes.len() as u64 == len => {
            totals.add_long_escape(len);
            sheet.tell(&ToldSpan { sort, ..*span }, &reading, None)
        }
        _ => sheet.tell(span, &Counted("malformed", len), None),
    }
}

impl<'a> Listing<'a> {
    /// No line.
    pub fn new(alloc: Global, style: Style<'a>) -> Listing<'a> {
        Listing {
            sheet: Sheet::new(alloc, style),
            params: Vec::new(alloc),
            place: 0,
            time: 0,
            now: 0,
            open: Open {
                kind: Kind::Text,
                place: 0,
                time: 0,
                len: 0,
                closed: false,
                bell: false,
                told: 0,
                front: Vec::new(alloc),
                begin: Vec::new(alloc),
            },
            held: None,
            text: false,
            totals: Totals::new(),
        }
    }

    /// The sums that are asked for.
    pub fn add_sums(&mut self) -> Result<()> {
        self.sheet.add_sums(&self.totals)
    }

    /// Another stream begins, of which times are told or not, behind a heading with its name if there is one. What is open must be
    /// told before.
    pub fn begin(&mut self, name: Option<&str>, timed: bool) -> Result<()> {
        self.place = 0;
        self.time = 0;
        self.now = 0;
        self.text = false;
        self.sheet.begin_stream(name, timed)
    }

    /// So many bytes came.
    #[inline(always)]
    fn advance(&mut self, kind: Kind, spans: u64, len: usize) {
        let len = len as u64;
        self.place = self.place.saturating_add(len);
        self.time = self.now;
        self.totals.add(kind, spans, len);
    }

    /// Tells what could have gone on, if anything is: there is no more of it.
    #[inline(always)]
    pub fn close(&mut self) -> Result<()> {
        if self.open.len > 0 || self.held.is_some() {
            self.close_both()
        } else {
            Ok(())
        }
    }

    /// Tells the span of which more could have come, and the carriage return that is held.
    #[inline(never)]
    fn close_both(&mut self) -> Result<()> {
        if self.open.len > 0 {
            self.close_open(&[])?;
        }
        match self.held.take() {
            Some((place, time)) => self.tell_control(place, time, b"\r"),
            None => Ok(()),
        }
    }

    /// Tells text that may go on, if a character isn't cut there: nothing more is there at once.
    pub fn pause(&mut self) -> Result<()> {
        let front = self.open.front.as_slice();
        let whole = self.held.is_some() || whole_characters(front).len() == front.len();
        if self.open.len == 0 || (self.open.kind == Kind::Text && whole) {
            self.close()
        } else {
            Ok(())
        }
    }

    /// Tells the span of which more could have come, a text with this end of its line.
    fn close_open(&mut self, end: &[u8]) -> Result<()> {
        let (kind, len) = (self.open.kind, self.open.len);
        let (closed, bell) = (self.open.closed, self.open.bell);
        let span = ToldSpan {
            end,
            ..self.open.rest()
        };
        let string = ControlString {
            front: self.open.first(),
            len,
            closed,
            bell,
        };
        match kind {
            Kind::Text => self.sheet.tell_text(&span),
            Kind::Str => self.sheet.tell(&span, &string, None),
            _ => tell_wrong(&mut self.sheet, &mut self.totals, &span),
        }?;
        self.open.len = 0;
        Ok(())
    }

    /// The bytes that come now came at this time, in microseconds, and the first of those that are not told yet too, if none of
    /// them came before.
    pub fn come_at(&mut self, time: u64, first: bool) {
        self.now = time;
        if first {
            self.time = time;
        }
    }

    /// What stands at this place, whole.
    fn span_here<'b>(&self, sort: Sort, bytes: &'b [u8]) -> ToldSpan<'b> {
        whole_span(sort, self.place, self.time, bytes)
    }

    /// A line for each action of a control sequence; how many they are, none where it isn't one.
    #[inline(never)]
    fn tell_sequence(&mut self, front: Keyed<'_>) -> Result<Option<u64>> {
        if let Some(actions) = self.sheet.recount(front)? {
            return Ok(Some(actions));
        }
        let span = self.span_here(Sort::Sequence, front.bytes);
        let actions = match self.sheet.tell_copied(&span)? {
            Some(actions) => actions,
            None => match read_csi_into(&mut self.params, span.bytes) {
                Ok(tail) => self.sheet.tell_actions(&span, &self.params, tail.control)?,
                Err(ReadError::Memory) => return Err(AllocError),
                Err(_) => return Ok(None),
            },
        };
        self.sheet.keep(front, actions)?;
        Ok(Some(actions))
    }

    /// Bytes that a terminal sends, where the same came before and what was told of them is remembered; whether it is.
    pub fn add_again(&mut self, kind: Kind, bytes: &[u8]) -> Result<bool> {
        self.close()?;
        let keyed = Keyed::new(bytes);
        let known = match self.sheet.recall(self.time, self.place, keyed)? {
            None => self.sheet.recount(keyed)?,
            known => known,
        };
        if let Some(actions) = known {
            self.end_sequence(kind, actions, bytes.len());
        }
        Ok(known.is_some())
    }

    /// A control sequence of these tokens, which may have controls in it.
    pub fn add_read(&mut self, bytes: &[u8], params: &[CsiParam], control: char) -> Result<()> {
        self.close()?;
        let span = self.span_here(Sort::Sequence, bytes);
        let actions = self.sheet.tell_actions(&span, params, control)?;
        self.sheet.keep(Keyed::new(bytes), actions)?;
        self.end_sequence(Kind::Csi, actions, bytes.len());
        Ok(())
    }

    /// What a user did, and the bytes that say so; a control within a sequence has none.
    pub fn add_did(&mut self, kind: Kind, sort: Sort, bytes: &[u8], did: &Did) -> Result<()> {
        self.close()?;
        let span = self.span_here(sort, bytes);
        self.sheet.tell(&span, did, None)?;
        if !bytes.is_empty() {
            self.sheet.keep(Keyed::new(bytes), 0)?;
        }
        self.end_sequence(kind, 0, bytes.len());
        Ok(())
    }

    /// A sequence of so many actions and bytes was told.
    #[inline(always)]
    fn end_sequence(&mut self, kind: Kind, actions: u64, len: usize) {
        self.totals.add_actions(actions);
        self.text = false;
        self.advance(kind, 1, len);
    }

    /// The control sequence in front, where that is at a glance one, and nothing is open. How many bytes it has, 0 where there is none.
    #[inline(always)]
    pub fn add_front(&mut self, mode: Mode, bytes: &[u8]) -> Result<usize>
        ensures { IfOk result (λ used. used ≤ length bytes.now) }
    {
        if mode != Mode::Text {
            return Ok(0);
        }
        let Some(front) = sequence_front(bytes) else {
            return Ok(0);
        };
        self.close()?;
        let len = front.bytes.len();
        let told = match self.sheet.recall(self.time, self.place, front)? {
            None if len <= LIMIT => self.tell_sequence(front)?,
            known => known,
        };
        match told {
            Some(actions) => {
                self.end_sequence(Kind::Csi, actions, len);
                Ok(len)
            }
            None => Ok(0),
        }
    }

    /// An escape sequence.
    fn add_escape(&mut self, bytes: &[u8]) -> Result<()> {
        self.close()?;
        let keyed = Keyed::new(bytes);
        let known = self.sheet.recall(self.time, self.place, keyed)?;
        if known.is_none() && self.sheet.recount(keyed)?.is_none() {
            let span = self.span_here(Sort::Escape, bytes);
            let words = EscReading(bytes.get(1..).unwrap_or(&[]));
            let escape = match bytes {
                [_, between, .., last] => Esc::parse(Some(*between), *last),
                _ => Esc::parse(None, bytes.last().copied().unwrap_or(0x1b)),
            };
            self.sheet.tell(&span, &words, Some(escape))?;
            self.sheet.keep(keyed, 0)?;
        }
        self.text = false;
        self.advance(Kind::Esc, 1, bytes.len());
        Ok(())
    }

    /// What a recording has beside bytes.
    pub fn add_event<T: Display>(&mut self, time: u64, words: &T) -> Result<()> {
        self.close()?;
        let span = whole_span(Sort::Event, self.place, time, &[]);
        self.sheet.tell(&span, words, None)
    }

    /// A control character that stands in text, or a carriage return with a line feed.
    fn tell_control(&mut self, place: u64, time: u64, bytes: &[u8]) -> Result<()> {
        let control = Keyed::new(bytes);
        match self.sheet.recall(time, place, control)? {
            Some(_) => Ok(()),
            None => self.tell_new_control(place, time, control),
        }
    }

    /// One that isn't remembered.
    #[inline(never)]
    fn tell_new_control(&mut self, place: u64, time: u64, control: Keyed<'_>) -> Result<()> {
        if self.sheet.recount(control)?.is_some() {
            return Ok(());
        }
        let bytes = control.bytes;
        let span = whole_span(Sort::Control, place, time, bytes);
        if let (Some(_), [byte, ..]) = (self.sheet.style.dialect, bytes) {
            if let Some(did) = Did::of_control(*byte) {
                self.sheet.tell(&span, &did, None)?;
                return self.sheet.keep(control, 0);
            }
        }
        self.sheet.tell(&span, &words_of_control(bytes), None)?;
        self.sheet.keep(control, 0)
    }

    /// Whether a text is open.
    fn is_in_text(&self) -> bool {
        self.open.len > 0 && self.open.kind == Kind::Text
    }

    /// The end of a line: in the row of the text ahead of it, where that came at the same time, and else in a row of its own.
    fn tell_line_end(&mut self, place: u64, time: u64, end: &[u8]) -> Result<()> {
        if self.is_in_text() && self.open.time == time && self.sheet.style.ends_rows() {
            return self.close_open(end);
        }
        self.close()?;
        self.tell_control(place, time, end)
    }

    /// A carriage return waits for a line feed, and so does the text ahead of it.
    fn hold_return(&mut self) -> Result<()> {
        if self.held.is_some() || !self.is_in_text() {
            self.close()?;
        }
        self.held = Some((self.place, self.time));
        Ok(())
    }

    /// A control character.
    fn add_control(&mut self, byte: u8) -> Result<()> {
        match (byte, self.held) {
            (b'\n', Some((place, time))) => {
                self.held = None;
                self.tell_line_end(place, time, b"\r\n")
            }
            (b'\n', None) => self.tell_line_end(self.place, self.time, b"\n"),
            (b'\r', _) if self.sheet.style.joins_lines() => self.hold_return(),
            _ => {
                self.close()?;
                self.tell_control(self.place, self.time, &[byte])
            }
        }
    }

    /// Bytes of a span of which more may come; it goes on with them, or begins.
    fn add_open(&mut self, kind: Kind, same: bool, bytes: &[u8]) -> Result<()> {
        if !same {
            self.close()?;
            self.open.kind = kind;
            self.open.place = self.place;
            self.open.time = self.time;
            self.open.told = 0;
            self.open.front.clear();
        }
        let most = if self.sheet.style.holds_all() {
            usize::MAX
        } else {
            FRONT
        };
        let room = most.saturating_sub(self.open.front.len());
        self.open
            .front
            .extend_from_slice(bytes.get(..room).unwrap_or(bytes))?;
        self.open.len = self.open.len.saturating_add(bytes.len() as u64);
        if self.sheet.style.tells_pieces() {
            self.tell_pieces()
        } else {
            Ok(())
        }
    }

    /// Tells pieces of what is open, where there is more than one object has.
    #[inline(never)]
    fn tell_pieces(&mut self) -> Result<()> {
        for _ in 0..self.open.front.len() {
            let told = self.sheet.tell_piece(&self.open.rest())?;
            if told == 0 {
                break;
            }
            self.open.pass(told)?;
        }
        Ok(())
    }

    /// Text with at most one control character, its last; whether it is over there else.
    #[inline(always)]
    fn add_text_part(&mut self, part: &[u8], over: bool) -> Result<()> {
        let (run, control) = match part.split_last() {
            // C0 but for ESC, which begins something else, and DEL.
            Some((last, run)) if *last < b' ' || *last == 0x7f => (run, Some(*last)),
            _ => (part, None),
        };
        if !run.is_empty() {
            let same = self.is_in_text() && self.held.is_none();
            let alone = match control {
                Some(_) => !self.sheet.style.ends_rows(),
                None => over,
            };
            if alone && !same {
                self.close()?;
                let span = self.span_here(Sort::Text, run);
                self.sheet.tell_text(&span)?;
            } else {
                self.add_open(Kind::Text, same, run)?;
            }
            self.advance(Kind::Text, 0, run.len());
        }
        if let Some(byte) = control {
            self.add_control(byte)?;
            self.advance(Kind::Text, 0, 1);
        }
        Ok(())
    }

    /// Text: each control character stands alone; whether something else follows.
    fn add_text(&mut self, bytes: &[u8], over: bool) -> Result<()> {
        let spans = if self.text { 0 } else { 1 };
        self.text = true;
        self.totals.add(Kind::Text, spans, 0);
        let mut rest = bytes;
        for _ in 0..bytes.len() {
            if rest.is_empty() {
                break;
            }
            let front = text_len(rest).saturating_add(1);
            let (part, behind) = rest.split_at_checked(front).unwrap_or((rest, &[]));
            self.add_text_part(part, over && behind.is_empty())?;
            rest = behind;
        }
        Ok(())
    }

    /// Bytes of a string, or of what went wrong, between these modes.
    fn add_part(&mut self, (before, after): (Mode, Mode), kind: Kind, bytes: &[u8]) -> Result<()> {
        let same = self.open.len > 0 && self.open.kind == kind && before.goes_on(bytes);
        self.add_open(kind, same, bytes)?;
        let over = after == Mode::Text;
        self.open.closed = kind == Kind::Str && over;
        self.open.bell = bytes.last().copied() == Some(0x07);
        self.text = false;
        self.advance(kind, if same { 0 } else { 1 }, bytes.len());
        if over { self.close() } else { Ok(()) }
    }

    /// Bytes of one kind, at least one, between these modes, and whether more bytes are there: a span is told when it is known where it
    /// ends.
    pub fn add(&mut self, modes: (Mode, Mode), kind: Kind, bytes: &[u8], more: bool) -> Result<()> {
        match kind {
            Kind::Csi => {
                self.add_front(Mode::Text, bytes)?;
                Ok(())
            }
            Kind::Esc => self.add_escape(bytes),
            Kind::Text => self.add_text(bytes, more),
            Kind::Str | Kind::Other => self.add_part(modes, kind, bytes),
        }
    }
}
