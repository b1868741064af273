//! The begin of a line: when and where a span came, and its bytes.

use crate::Result;
use crate::style::Style;
use bstr::decode_utf8;
use csicodec_osc::{append_escaped, are_plain, is_seen, plain_len};
use itoa::write_digits;
use std::fmt::{self, Display, Formatter, Write};

/// How many columns the bytes have, behind those of the time and the place.
const BYTES: usize = 26;

/// How many they have where the words stand in the next line.
const ROW: usize = 80;

/// The most columns of a character that can't be seen: `\u{e0001}`.
const UNSEEN: usize = 9;

/// How many columns the place has.
const PLACE: usize = 10;

/// How many columns the time has, where it is told.
const TIME: usize = 14;

/// As many blanks as stand ahead of the words of a line.
const BLANKS: &[u8; 50] = b"                                                  ";

/// The colour of a time and a place: bright black.
pub const GREY: &[u8; 5] = b"\x1b[90m";

/// The colour of bytes.
pub const GREEN: &[u8; 5] = b"\x1b[32m";

/// The colour of a name.
pub const CYAN: &[u8; 5] = b"\x1b[36m";

/// No colour.
pub const PLAIN: &[u8; 3] = b"\x1b[m";

/// What a span is told as.
#[derive(Clone, Copy)]
pub enum Sort {
    Text,
    /// A control character that stands in text, or a carriage return with a line feed.
    Control,
    Sequence,
    Escape,
    String,
    Malformed,
    /// What a recording has beside bytes.
    Event,
}

/// A span of which the first bytes are there.
#[derive(Clone, Copy)]
pub struct ToldSpan<'a> {
    /// What it is.
    pub sort: Sort,
    /// The place of its first byte in the stream, counted from 0.
    pub place: u64,
    /// When that byte came, in microseconds.
    pub time: u64,
    /// Its bytes, or the first of them.
    pub bytes: &'a [u8],
    /// How many bytes it has.
    pub len: u64,
    /// The end of a line that stands behind a text, and in its row: LF, or CR and LF. Else it is empty.
    pub end: &'a [u8],
}

/// The words of bytes that are only counted: a name, and how many they are.
#[derive(Clone, Copy)]
pub struct Counted(pub &'static str, pub u64);

impl Display for Counted {
    fn fmt<W: Write>(&self, f: &mut Formatter<W>) -> fmt::Result {
        let (name, len) = (self.0, self.1);
        let unit = if len == 1 { "byte" } else { "bytes" };
        write!(f, "{name}  {len} {unit}")
    }
}

/// So many blanks, 50 at most.
pub fn append_blanks(text: &mut Vec<u8>, count: usize) -> Result<()> {
    text.extend_from_slice(BLANKS.get(..count).unwrap_or(BLANKS))
}

/// Begins a colour, where lines have colours.
#[inline(always)]
pub fn paint(text: &mut Vec<u8>, style: &Style<'_>, color: &[u8]) -> Result<()> {
    if style.color {
        text.extend_from_slice(color)
    } else {
        Ok(())
    }
}

/// A place in a stream with its decimal digits, of which those of a place that is near behind are made.
#[derive(Clone, Copy)]
pub struct Offset {
    number: u64,
    /// The number of the last two of them.
    low: u8,
    /// The digits up to column 20, with blanks around them.
    text: [u8; 22],
    /// Where the first of them stands.
    begin: usize,
}

impl Offset {
    /// The begin.
    pub fn new() -> Offset {
        let mut text = [b' '; 22];
        text[19] = b'0';
        Offset {
            number: 0,
            low: 0,
            text,
            begin: 19,
        }
    }

    /// Any place.
    #[tactic(auto, using(crate::proofs::Decimal::twenty_digits))]
    #[inline(never)]
    fn write(&mut self, number: u64) {
        let mut text = [b' '; 22];
        let begin = write_digits(number, &mut text, 20);
        self.number = number;
        self.low = (number % 100) as u8;
        self.text = text;
        self.begin = begin;
    }

    /// A place, most often one that is near behind: then the last two digits alone are others, where there are more.
    #[inline(always)]
    pub fn go_to(&mut self, number: u64) {
        let more = number.wrapping_sub(self.number).min(100);
        let low = u64::from(self.low) + more;
        if low > 99 || number < 100 {
            return self.write(number);
        }
        self.number = number;
        self.low = low as u8;
        self.text[18] = b'0' + (low / 10) as u8;
        self.text[19] = b'0' + (low % 10) as u8;
    }

    /// The digits.
    pub fn digits(&self) -> &[u8] {
        self.text.get(self.begin..20).unwrap_or(&[])
    }

    /// Appends more than eight digits, and two blanks behind them.
    #[inline(never)]
    fn append_far(&self, text: &mut Vec<u8>) -> Result<()> {
        text.extend_from_slice(self.text.get(self.begin..).unwrap_or(&[]))
    }

    /// Appends the digits, with blanks ahead of eight at most, and two behind them.
    #[inline(always)]
    fn append_columns(&self, text: &mut Vec<u8>) -> Result<()> {
        match self.text.last_chunk::<PLACE>() {
            Some(columns) if self.begin > 11 => text.extend_from_slice(columns),
            _ => self.append_far(text),
        }
    }
}

/// A number in decimal digits, with blanks ahead where it has fewer columns than these.
#[tactic(auto, using(crate::proofs::Decimal::twenty_digits))]
pub fn append_number(text: &mut Vec<u8>, number: u64, columns: usize) -> Result<()> {
    let mut digits = [0u8; 20];
    let begin = write_digits(number, &mut digits, 20);
    append_blanks(text, columns.saturating_add(begin).saturating_sub(20))?;
    text.extend_from_slice(&digits[begin..])
}

/// A time in seconds, to the microsecond, with blanks ahead where it has fewer columns than these.
#[tactic(auto, using(crate::proofs::Decimal::twenty_digits))]
pub fn append_time(text: &mut Vec<u8>, time: u64, columns: usize) -> Result<()> {
    let (seconds, fraction) = (time / 1_000_000, time % 1_000_000);
    append_number(text, seconds, columns.saturating_sub(7))?;
    text.push(b'.')?;
    // A 1 ahead of the six digits keeps blanks and zeros.
    let mut digits = [0u8; 20];
    write_digits(1_000_000 + fraction, &mut digits, 20);
    text.extend_from_slice(&digits[14..])
}

/// When a span came, if that is told, and where it begins: `    1.500000        7  `.
#[inline(always)]
pub fn append_begin(
    text: &mut Vec<u8>,
    style: &Style<'_>,
    time: u64,
    place: &Offset,
) -> Result<()> {
    if style.color || style.timed {
        append_painted_begin(text, style, time, place)
    } else {
        place.append_columns(text)
    }
}

/// The same with colours, or with the time.
#[inline(never)]
fn append_painted_begin(
    text: &mut Vec<u8>,
    style: &Style<'_>,
    time: u64,
    place: &Offset,
) -> Result<()> {
    paint(text, style, GREY)?;
    if style.timed {
        append_time(text, time, TIME.saturating_sub(2))?;
        append_blanks(text, 2)?;
    }
    place.append_columns(text)?;
    paint(text, style, GREEN)
}

/// The bytes without a character at the end that isn't whole.
pub fn whole_characters(bytes: &[u8]) -> &[u8] {
    for back in 1..4usize {
        let front = bytes.len().saturating_sub(back);
        match bytes.get(front).copied() {
            Some(0xc0..) => return bytes.split_at(front).0,
            Some(0x80..) => {}
            _ => return bytes,
        }
    }
    bytes
}

/// At most how many columns a character of so many bytes takes where it is shown, between quotation marks or not.
fn columns_of(character: char, bytes: usize, quoted: bool) -> usize {
    match character {
        '"' | '\\' | '\t' | '\n' | '\r' | '\u{1b}' => 2,
        ' '..='~' => 1,
        '\0'..='\x7f' => 4,
        // What is no UTF-8 is given as this too.
        '\u{fffd}' => bytes.saturating_mul(4),
        _ if !quoted => bytes.saturating_mul(4),
        _ if is_seen(character) => 1,
        _ => UNSEEN,
    }
}

/// Appends a character, or bytes that are none, as it is shown; how many bytes of that take no column.
fn append_character(
    text: &mut Vec<u8>,
    character: Option<char>,
    bytes: &[u8],
    quoted: bool,
) -> Result<usize> {
    match character {
        Some('"') if quoted => text.extend_from_slice(b"\\\"")?,
        Some(character) if quoted && !character.is_ascii() => {
            if is_seen(character) {
                text.extend_from_slice(bytes)?;
                return Ok(bytes.len().saturating_sub(1));
            }
            let number = u32::from(character);
            let shown = format!(in *text.allocator(); "\\u{{{number:x}}}")?;
            text.extend_from_slice(shown.as_bytes())?;
        }
        _ => append_escaped(text, bytes)?,
    }
    Ok(0)
}

/// How many bytes the character in front has, where between quotation marks it is shown as it is in one column; else 0.
fn seen_len(bytes: &[u8]) -> usize {
    // From U+00C0 to U+05FF all are.
    if let [0xc3..=0xd7, 0x80..=0xbf, ..] = bytes {
        return 2;
    }
    match decode_utf8(bytes) {
        (Some(character), len) if character != '\u{fffd}' && is_seen(character) => len,
        _ => 0,
    }
}

/// How many bytes in front are characters that are shown as they are, each in one of so many columns, and how many columns they take.
fn seen_front(bytes: &[u8], quoted: bool, columns: usize) -> (usize, usize) {
    let (mut rest, mut room) = (bytes, columns);
    for _ in 0..bytes.len() {
        let near = rest.get(..room).unwrap_or(rest);
        let (len, taken) = match near.first() {
            Some(0x80..) if quoted => (seen_len(rest), 1),
            _ => {
                let plain = plain_len(near);
                (plain, plain)
            }
        };
        if len == 0 {
            break;
        }
        room = room.saturating_sub(taken);
        rest = rest.get(len..).unwrap_or(&[]);
    }
    let len = bytes.len().saturating_sub(rest.len());
    (len, columns.saturating_sub(room))
}

/// Appends the bytes in front that are shown in so many columns: how many they are, how many columns are left, and how many bytes of what
/// was appended take none.
fn append_front(
    text: &mut Vec<u8>,
    bytes: &[u8],
    quoted: bool,
    columns: usize,
) -> Result<(usize, usize, usize)> {
    let (mut rest, mut room, mut hidden) = (bytes, columns, 0usize);
    for _ in 0..bytes.len() {
        let (len, taken) = seen_front(rest, quoted, room);
        let (run, behind) = rest.split_at_checked(len).unwrap_or((rest, &[]));
        text.extend_from_slice(run)?;
        hidden = hidden.saturating_add(len.saturating_sub(taken));
        room = room.saturating_sub(taken);
        rest = behind;
        if rest.is_empty() {
            break;
        }
        let (character, len) = decode_utf8(rest);
        let taken = columns_of(character.unwrap_or('\u{fffd}'), len, quoted);
        if taken > room {
            break;
        }
        let (front, behind) = rest.split_at_checked(len).unwrap_or((rest, &[]));
        hidden = hidden.saturating_add(append_character(text, character, front, quoted)?);
        room = room.saturating_sub(taken);
        rest = behind;
    }
    let len = bytes.len().saturating_sub(rest.len());
    Ok((len, room, hidden))
}

/// Appends the bytes of a span that are shown in so many columns: all, or the first of them, with room for their count. How many they are,
/// and how many bytes of what was appended take no column.
fn append_most(text: &mut Vec<u8>, span: &ToldSpan<'_>, columns: usize) -> Result<(usize, usize)> {
    let quoted = matches!(span.sort, Sort::Text);
    // The count has a digit at least, and twelve columns with that.
    let digits = span.len.checked_ilog10().unwrap_or(0) as usize;
    let few = columns.saturating_sub(digits.saturating_add(12));
    let (len, left, hidden) = append_front(text, span.bytes, quoted, few)?;
    let end = text.len();
    let rest = span.bytes.get(len..).unwrap_or(&[]);
    if rest.is_empty() {
        return Ok((len, hidden));
    }
    let room = left.saturating_add(columns.saturating_sub(few));
    let (more, _left, others) = append_front(text, rest, quoted, room)?;
    if len.saturating_add(more) as u64 == span.len {
        return Ok((len.saturating_add(more), hidden.saturating_add(others)));
    }
    text.truncate(end);
    Ok((len, hidden))
}

/// The bytes of a span as a line shows them in so many columns, the first of them where not all have room; how many columns they take.
pub fn append_shown(text: &mut Vec<u8>, span: &ToldSpan<'_>, columns: usize) -> Result<usize> {
    let (begin, bytes) = (text.len(), span.bytes);
    let marks = span.end.len().saturating_add(1).saturating_mul(2);
    let room = columns.saturating_sub(marks);
    let is_whole = bytes.len() as u64 == span.len;
    let quoted = matches!(span.sort, Sort::Text);
    // Where no text is, a byte takes at most four columns.
    if is_whole && !quoted && bytes.len().saturating_mul(4) <= room {
        append_escaped(text, bytes)?;
        return Ok(text.len().saturating_sub(begin));
    }
    let mark: &[u8] = if quoted { b"\"" } else { b"" };
    text.extend_from_slice(mark)?;
    let (shown, hidden) = if is_whole && bytes.len() <= room && are_plain(bytes) {
        text.extend_from_slice(bytes)?;
        (bytes.len(), 0)
    } else {
        append_most(text, span, room)?
    };
    text.extend_from_slice(mark)?;
    if (shown as u64) < span.len {
        text.extend_from_slice(b".. (")?;
        append_number(text, span.len, 0)?;
        text.extend_from_slice(b" bytes)")?;
    }
    let end: &[u8] = match span.end.len() {
        0 => b"",
        1 => b"\\n",
        _ => b"\\r\\n",
    };
    text.extend_from_slice(end)?;
    Ok(text.len().saturating_sub(begin).saturating_sub(hidden))
}

/// The blanks ahead of the words of a line that begins with no span.
pub fn append_margin(text: &mut Vec<u8>, style: &Style<'_>) -> Result<()> {
    let time = if style.timed { TIME } else { 0 };
    append_blanks(text, time + PLACE + BYTES)
}

/// The columns of few bytes with no end of a line behind them: a text of ASCII characters that stand for themselves, or ESC and such
/// characters behind it.
#[inline(always)]
fn short_columns(span: &ToldSpan<'_>) -> Option<[u8; BYTES]> {
    let (quoted, shown) = match (span.sort, span.bytes) {
        (Sort::Text, bytes) => (true, bytes),
        (_, [0x1b, behind @ ..]) => (false, behind),
        _ => return None,
    };
    if !span.end.is_empty() || shown.len() > BYTES - 4 || !are_plain(shown) {
        return None;
    }
    let mut columns = [b' '; BYTES];
    if quoted {
        columns[0] = b'"';
        columns[1..shown.len() + 1].copy_from_slice(shown);
        columns[shown.len() + 1] = b'"';
    } else {
        columns[0] = b'\\';
        columns[1] = b'e';
        columns[2..shown.len() + 2].copy_from_slice(shown);
    }
    Some(columns)
}

/// The bytes of a span, up to the words: with `..` where more follow and how many there are. Where they leave no room for two
/// blanks, the words have a line of their own.
pub fn append_bytes(text: &mut Vec<u8>, style: &Style<'_>, span: &ToldSpan<'_>) -> Result<()> {
    if !style.color && span.len == span.bytes.len() as u64 {
        if let Some(columns) = short_columns(span) {
            return text.extend_from_slice(&columns);
        }
    }
    let room = if style.full { usize::MAX } else { ROW };
    let columns = append_shown(text, span, room)?;
    paint(text, style, PLAIN)?;
    if columns.saturating_add(2) > BYTES {
        text.push(b'\n')?;
        return append_margin(text, style);
    }
    append_blanks(text, BYTES.saturating_sub(columns))
}

/// A name, in its colour, and two blanks.
pub fn append_name(text: &mut Vec<u8>, style: &Style<'_>, name: &str) -> Result<()> {
    paint(text, style, CYAN)?;
    text.extend_from_slice(name.as_bytes())?;
    paint(text, style, PLAIN)?;
    text.extend_from_slice(b"  ")
}

/// The words of a text, and the line's end.
pub fn append_text_words(text: &mut Vec<u8>, style: &Style<'_>, span: &ToldSpan<'_>) -> Result<()> {
    if style.color {
        append_name(text, style, "text")?;
    } else {
        text.extend_from_slice(b"text  ")?;
    }
    if span.len < 10 {
        text.push(b'0' + span.len as u8)?;
    } else {
        append_number(text, span.len, 0)?;
    }
    text.extend_from_slice(match (span.len, span.end) {
        (1, []) => b" byte\n".as_slice(),
        (1, [_]) => b" byte, LF\n",
        (1, _) => b" byte, CR LF\n",
        (_, []) => b" bytes\n",
        (_, [_]) => b" bytes, LF\n",
        (_, _) => b" bytes, CR LF\n",
    })
}
