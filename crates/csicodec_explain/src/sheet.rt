//! The lines of spans: each with its place and its bytes, and a line for each of its actions; or an object of JSON.

use crate::Result;
use crate::copied::Copied;
use crate::taken::append_taken;
use csicodec_base::{CsiParam, Esc};
use csicodec_listing::cache::Remembered;
use csicodec_listing::clipboard::{append_words, clipboard_bytes};
use csicodec_listing::columns::{
    Counted, Offset, Sort, ToldSpan, append_begin, append_bytes, append_margin, append_name,
    append_text_words, whole_characters,
};
use csicodec_listing::counts::{
    Names, Totals, append_lines, append_object as append_totals, append_stats,
};
use csicodec_listing::fields::JsonFields;
use csicodec_listing::keyed::Keyed;
use csicodec_listing::search::Search;
use csicodec_listing::style::{Style, name_of};
use csicodec_listing::to_json::{
    append_action, append_begin_object, append_decoded, append_object, append_string,
};
use csicodec_osc::Shown;
use csicodec_parser::CSI;
use csicodec_words::{ActionList, Reading};
use std::alloc::Global;
use std::fmt::{Debug, Display, Write};

/// So many bytes of a span an object of JSON has at most: 64 KiB.
const PIECE: usize = 65_536;

/// The lines of the spans that came, in a buffer that is kept.
#[derive(Drop)]
pub struct Sheet<'a> {
    /// How and what is told.
    pub style: Style<'a>,
    /// Whether what was told of bytes once is told again.
    recalls: bool,
    /// Whether what was counted of bytes once is counted again, and nothing is told.
    recounts: bool,
    /// The lines, each with its end.
    pub text: Vec<u8>,
    /// The words of one action.
    words: String,
    /// What is put into a line.
    buffer: String,
    /// The fields of one action, in JSON.
    fields: JsonFields,
    /// The list that an action prints.
    list: ActionList,
    /// The member of an object that says of which file, where that is told.
    file: Vec<u8>,
    /// Whether a file's name stands ahead of lines.
    headed: bool,
    /// Where the span that is told begins in the text, and where it goes on behind its place.
    begin: usize,
    behind: usize,
    /// How many actions of it are told.
    actions: u64,
    /// The names that are counted of it, each with a line feed, where nothing but sums is told.
    counted: Vec<u8>,
    /// The place of the last span that was told.
    place: Offset,
    known: Remembered,
    /// How often each name was told, where sums are asked for.
    names: Names,
    /// How much was told.
    totals: Totals,
    search: Search,
}

impl<'a> Sheet<'a> {
    /// No line.
    pub fn new(alloc: Global, style: Style<'a>) -> Sheet<'a> {
        Sheet {
            style,
            recalls: style.recalls() && !style.is_silent(),
            recounts: style.recalls() && style.is_silent(),
            text: Vec::new(alloc),
            words: String::new(alloc),
            buffer: String::new(alloc),
            fields: JsonFields::new(alloc),
            list: ActionList::new(alloc),
            file: Vec::new(alloc),
            headed: false,
            begin: 0,
            behind: 0,
            actions: 0,
            counted: Vec::new(alloc),
            place: Offset::new(),
            known: Remembered::new(alloc),
            names: Names::new(alloc),
            totals: Totals::new(),
            search: Search::new(alloc),
        }
    }

    /// A stream begins, of which times are told or not. A file's name is a heading, or a member of each object, unless only sums are
    /// told.
    pub fn begin_stream(&mut self, name: Option<&str>, timed: bool) -> Result<()> {
        if timed != self.style.timed {
            self.style.timed = timed;
            self.known.forget();
        }
        let name = match name {
            Some(name) if !self.style.is_silent() => name,
            _ => return Ok(()),
        };
        if self.style.json {
            self.file.clear();
            self.file.extend_from_slice(b",\"file\":")?;
            return append_string(&mut self.file, name);
        }
        let (ahead, shown) = (if self.headed { "\n" } else { "" }, Shown(name.as_bytes()));
        self.headed = true;
        self.buffer.clear();
        write!(self.buffer, "{ahead}==> {shown} <==\n")?;
        self.text.extend_from_slice(self.buffer.as_bytes())
    }

    /// Tells what was told of the same bytes before, if anything was; how many actions they have.
    #[inline(always)]
    pub fn recall(&mut self, time: u64, place: u64, span: Keyed<'_>) -> Result<Option<u64>> {
        if !self.recalls {
            return Ok(None);
        }
        let Some((begin, end, actions)) = self.known.recall(span) else {
            return Ok(None);
        };
        if begin < end {
            self.begin_at(time, place)?;
            self.text.extend_from_slice(self.known.told(begin, end))?;
        }
        Ok(Some(actions))
    }

    /// Where nothing is told, counts the names that were counted of the same bytes before, if any were; how many actions they have.
    #[inline(never)]
    pub fn recount(&mut self, span: Keyed<'_>) -> Result<Option<u64>> {
        if !self.recounts {
            return Ok(None);
        }
        let Some((begin, end, actions)) = self.known.recall(span) else {
            return Ok(None);
        };
        let mut bytes = span.bytes.len() as u64;
        let told = std::str::from_utf8(self.known.told(begin, end)).unwrap_or("");
        for name in told.lines() {
            self.names.add(name, bytes)?;
            bytes = 0;
        }
        Ok(Some(actions))
    }

    /// Keeps what was told of bytes of so many actions, or counted of them.
    pub fn keep(&mut self, span: Keyed<'_>, actions: u64) -> Result<()> {
        if self.recounts {
            return self.known.keep(span, &self.counted, actions);
        }
        if !self.recalls {
            return Ok(());
        }
        match self.text.get(self.behind..) {
            Some(told) => self.known.keep(span, told, actions),
            None => self.known.keep(span, &[], actions),
        }
    }

    /// When and where a span begins.
    #[inline(always)]
    fn begin_at(&mut self, time: u64, place: u64) -> Result<()> {
        self.place.go_to(place);
        if self.style.json {
            append_begin_object(&mut self.text, &self.style, &self.file, time, &self.place)
        } else {
            append_begin(&mut self.text, &self.style, time, &self.place)
        }
    }

    /// Tells the first piece of a span that is too long for one object; how many bytes it has, 0 where the span isn't.
    pub fn tell_piece(&mut self, span: &ToldSpan<'_>) -> Result<usize> {
        if span.bytes.len() <= PIECE {
            return Ok(0);
        }
        let bytes = whole_characters(span.bytes.get(..PIECE).unwrap_or(span.bytes));
        self.begin_at(span.time, span.place)?;
        append_object(&mut self.text, span.sort, bytes)?;
        self.text.extend_from_slice(b",\"more\":true}\n")?;
        Ok(bytes.len())
    }

    /// The begin of a span's object: ahead of it stands one for each piece of a long span, but for the last.
    fn begin_object(&mut self, span: &ToldSpan<'_>) -> Result<()> {
        let mut rest = *span;
        // A piece may lack a character that isn't whole, of at most four bytes.
        for _ in 0..span.bytes.len() / (PIECE - 4) {
            let told = self.tell_piece(&rest)?;
            if told == 0 {
                break;
            }
            rest.place = rest.place.saturating_add(told as u64);
            rest.bytes = rest.bytes.get(told..).unwrap_or(&[]);
        }
        self.begin_at(rest.time, rest.place)?;
        self.behind = self.text.len();
        append_object(&mut self.text, rest.sort, rest.bytes)
    }

    /// The lines of a control sequence whose words have its own digits, where that is all that a line has; how many, none where others
    /// are to be told.
    pub fn tell_copied(&mut self, span: &ToldSpan<'_>) -> Result<Option<u64>> {
        let [0x1b, b'[', list @ .., control] = span.bytes else {
            return Ok(None);
        };
        if !self.style.copies() {
            return Ok(None);
        }
        let (begin, mut rest) = (self.text.len(), list);
        for count in 0..list.len() {
            let Some((words, behind)) = Copied::front(rest, *control) else {
                break;
            };
            if count == 0 {
                self.begin_at(span.time, span.place)?;
                self.behind = self.text.len();
                append_bytes(&mut self.text, &self.style, span)?;
            } else {
                append_margin(&mut self.text, &self.style)?;
            }
            words.append_to(&mut self.text)?;
            self.text.push(b'\n')?;
            if behind.is_empty() {
                return Ok(Some((count as u64).saturating_add(1)));
            }
            rest = behind;
        }
        self.text.truncate(begin);
        Ok(None)
    }

    /// A text.
    pub fn tell_text(&mut self, span: &ToldSpan<'_>) -> Result<()> {
        if !self.style.is_plain() && !self.counts_text(span)? {
            return Ok(());
        }
        if self.style.json {
            self.begin_object(span)?;
            return self.text.extend_from_slice(b"}\n");
        }
        self.begin_at(span.time, span.place)?;
        append_bytes(&mut self.text, &self.style, span)?;
        append_text_words(&mut self.text, &self.style, span)
    }

    /// Whether the words that are there are told of the span.
    #[inline(always)]
    fn is_wanted(&mut self, span: &ToldSpan<'_>) -> Result<bool> {
        let (style, words) = (&self.style, &self.words);
        if style.tells_all() {
            return Ok(true);
        }
        Ok(style.tells(words, span.place, span.len) && self.search.finds(style, span, words)?)
    }

    /// Counts a text where it is one that is asked for; whether it is then told. In JSON it has no actions.
    #[inline(never)]
    fn counts_text(&mut self, span: &ToldSpan<'_>) -> Result<bool> {
        if !self.style.is_at(span.place, span.len) {
            return Ok(false);
        }
        if !self.style.tells_all() {
            let counted = Counted("text", span.len);
            self.words.clear();
            write!(self.words, "{counted}")?;
            if !self.is_wanted(span)? {
                return Ok(false);
            }
            self.totals.add_told(Sort::Text, span.len, 0);
        }
        let silent = self.style.is_silent();
        if silent {
            self.names.add("text", span.len)?;
        }
        Ok(!silent)
    }

    /// A span begins.
    fn begin(&mut self, span: &ToldSpan<'_>) -> Result<()> {
        self.begin = self.text.len();
        self.actions = 0;
        self.counted.clear();
        if self.style.is_silent() {
            return Ok(());
        }
        if self.style.json {
            return self.begin_object(span);
        }
        self.begin_at(span.time, span.place)?;
        self.behind = self.text.len();
        Ok(())
    }

    /// The fields of an action, where they are told: those of its `Debug` text, which may lack the name of its kind.
    fn take_fields<A: Debug>(&mut self, kind: &[u8], action: &A) -> Result<()> {
        if !self.style.json || self.style.is_silent() {
            return Ok(());
        }
        self.buffer.clear();
        write!(self.buffer, "{action:?}")?;
        self.fields.write(kind, self.buffer.as_bytes())
    }

    /// What a string puts into the clipboard, decoded: a line of its own, or a member of its first action.
    fn add_decoded(&mut self, span: &ToldSpan<'_>) -> Result<()> {
        let Some(bytes) = clipboard_bytes(*self.text.allocator(), span.bytes)? else {
            return Ok(());
        };
        if !self.style.json {
            self.words.clear();
            append_words(&mut self.words, &bytes, self.style.full)?;
            return self.add_words(span);
        }
        if self.actions > 0 {
            append_decoded(&mut self.text, &bytes)?;
        }
        Ok(())
    }

    /// The words that are there, of the span.
    fn add_words(&mut self, span: &ToldSpan<'_>) -> Result<()> {
        if !self.is_wanted(span)? {
            return Ok(());
        }
        let first = self.actions == 0;
        self.actions = self.actions.saturating_add(1);
        if self.style.counts() {
            let (name, _words) = name_of(&self.words);
            self.names.add(name, if first { span.len } else { 0 })?;
            if self.style.is_silent() {
                self.counted.extend_from_slice(name.as_bytes())?;
                return Ok(self.counted.push(b'\n')?);
            }
        }
        if self.style.json {
            return append_action(&mut self.text, &self.words, &self.fields.out, first);
        }
        if first {
            append_bytes(&mut self.text, &self.style, span)?;
        } else {
            append_margin(&mut self.text, &self.style)?;
        }
        self.add_line()
    }

    /// The words that are there, and the line's end.
    fn add_line(&mut self) -> Result<()> {
        let mut words = self.words.as_str();
        if self.style.color {
            let (name, rest) = name_of(words);
            append_name(&mut self.text, &self.style, name)?;
            words = rest;
        }
        self.text.extend_from_slice(words.as_bytes())?;
        Ok(self.text.push(b'\n')?)
    }

    /// The span is over. One of which nothing was wanted is taken back.
    fn end(&mut self, span: &ToldSpan<'_>) -> Result<()> {
        let (some, tells_all) = (self.actions > 0, self.style.tells_all());
        if some && !tells_all {
            self.totals.add_told(span.sort, span.len, self.actions);
        }
        if !some && !(self.style.json && tells_all) {
            self.text.truncate(self.begin);
            return Ok(());
        }
        if !self.style.json || self.style.is_silent() {
            return Ok(());
        }
        let end: &[u8] = if some { b"]}\n" } else { b"}\n" };
        self.text.extend_from_slice(end)
    }

    /// A span of these words, and of an escape sequence its fields, where one of its bytes is asked for.
    #[inline(never)]
    pub fn tell<T: Display>(
        &mut self,
        span: &ToldSpan<'_>,
        words: &T,
        escape: Option<Esc>,
    ) -> Result<()> {
        if !self.style.is_at(span.place, span.len) {
            return Ok(());
        }
        self.begin(span)?;
        self.fields.clear();
        self.words.clear();
        write!(self.words, "{words}")?;
        if let Some(escape) = escape {
            self.take_fields(b"Esc", &escape)?;
        }
        self.add_words(span)?;
        if self.style.decode && matches!(span.sort, Sort::String) && !self.style.is_silent() {
            self.add_decoded(span)?;
        }
        self.end(span)
    }

    /// A line for each action of a control sequence of these tokens; how many they are, 0 where none of its bytes is asked for.
    pub fn tell_actions(
        &mut self,
        span: &ToldSpan<'_>,
        params: &[CsiParam],
        control: char,
    ) -> Result<u64> {
        if !self.style.is_at(span.place, span.len) {
            return Ok(0);
        }
        self.begin(span)?;
        let (alloc, sent) = (*self.text.allocator(), self.style.dialect.is_some());
        let mut count = 0u64;
        for action in CSI::parse(alloc, params, false, control) {
            let action = action?;
            self.list.read(&action)?;
            let reading = Reading {
                action: &action,
                list: &self.list,
                params,
                control,
                sent,
            };
            self.words.clear();
            write!(self.words, "{reading}")?;
            if matches!(&action, CSI::Unspecified(_)) && !sent {
                append_taken(&mut self.words, &mut self.list, (params, control), count)?;
            }
            self.take_fields(b"", &action)?;
            self.add_words(span)?;
            count = count.saturating_add(1);
        }
        self.end(span)?;
        Ok(count)
    }

    /// The sums that are asked for, of a stream of which so much came: of all that came, or where only some is told, of what was.
    pub fn add_sums(&mut self, came: &Totals) -> Result<()> {
        let json = self.style.json;
        let told = if self.style.tells_all() {
            *came
        } else {
            self.totals
        };
        self.buffer.clear();
        if self.style.count && json {
            append_totals(&mut self.buffer, &told, &self.names)?;
        } else if self.style.count {
            append_lines(&mut self.buffer, &told, &self.names)?;
        }
        if self.style.stats {
            append_stats(&mut self.buffer, &self.names, came.bytes(), json)?;
        }
        self.text.extend_from_slice(self.buffer.as_bytes())
    }
}
