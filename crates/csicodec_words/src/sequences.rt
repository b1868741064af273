//! The words of control sequences by their lists: those that a row of csicodec_sequences reads, and others.

use crate::rows::{Rows, cut, number, rows_from};
use crate::sequence_rows::{INSTEAD, parts};
use csicodec_base::CsiParam;
use csicodec_sequences::{KnownSequence, Parts};

/// What the words of a list are found by. A row begins with the final character, the marker and the intermediate byte, `_` where there is
/// none. Behind these stand, with commas between them, its first and its second number, how many numbers it has (the list that an action
/// prints, how many tokens), and the row of csicodec_sequences that reads it; and then a tab and the words.
#[derive(Clone, Copy)]
pub(crate) struct ListKey {
    front: [u8; 3],
    first: i64,
    second: i64,
    fields: i64,
    /// The row that reads the list, where that is known; then it doesn't matter how many numbers there are.
    kind: Option<u32>,
}

/// Whether a number is among those of a row: one alone, one and those up to another or all above it, or any.
fn is_within(number: i64, span: &str) -> bool {
    let (first, last) = span.split_once('-').unwrap_or((span, span));
    number >= first.parse().unwrap_or(0) && number <= last.parse().unwrap_or(i64::MAX)
}

fn shown(byte: u8) -> u8 {
    if byte == 0 { b'_' } else { byte }
}

/// What a row of a list begins with: the final character, the marker and the intermediate byte.
fn front_of(params: &[CsiParam], control: char) -> [u8; 3] {
    let parts = Parts::of(params);
    [
        u8::try_from(u32::from(control)).unwrap_or(0),
        shown(parts.marker),
        shown(parts.intermediate),
    ]
}

/// How many fields a list has between its semicolons, an empty list one; the most that there can be where it has a colon.
fn count_fields(params: &[CsiParam]) -> i64 {
    let mut count = 1i64;
    for token in params {
        match token {
            CsiParam::P(b';') => count = count.saturating_add(1),
            CsiParam::P(b':') => return i64::MAX,
            _ => {}
        }
    }
    count
}

impl ListKey {
    /// Of a list of so many fields before this final character; of one that an action prints these are its tokens.
    pub(crate) fn new(params: &[CsiParam], control: char, fields: i64) -> ListKey {
        ListKey {
            front: front_of(params, control),
            first: number(params, 0).unwrap_or(0),
            second: number(params, 1).unwrap_or(0),
            fields,
            kind: None,
        }
    }

    /// Any bytes before the final character, and no intermediate one.
    pub(crate) fn without_intermediate(self) -> ListKey {
        let [control, marker, _] = self.front;
        ListKey {
            front: [control, marker, b'_'],
            ..self
        }
    }

    /// The same of a row that reads the list.
    fn read_by(self, known: &KnownSequence) -> ListKey {
        ListKey {
            first: known.value(0).unwrap_or(0).into(),
            second: known.value(1).unwrap_or(0).into(),
            kind: Some(known.form().kind),
            ..self
        }
    }

    /// Whether a row has the numbers.
    fn is_of(&self, numbers: &str) -> bool {
        let (first, rest) = cut(numbers, ',');
        let (second, rest) = cut(rest, ',');
        let (fields, kind) = cut(rest, ',');
        is_within(self.first, first)
            && is_within(self.second, second)
            && match self.kind {
                Some(number) => kind.parse::<u32>().ok() == Some(number),
                None => is_within(self.fields, fields),
            }
    }

    /// The words of a row, by what stands behind its first three bytes, if it is of the list.
    fn words_behind(&self, behind: &'static str) -> Option<&'static str> {
        // Most rows have no numbers, and no tab is looked for.
        if let Some(words) = behind.strip_prefix('\t') {
            return self.kind.is_none().then_some(words);
        }
        let (numbers, words) = behind.split_once('\t')?;
        self.is_of(numbers).then_some(words)
    }

    /// The words of the first row that is of the list, in a table in the order of its rows' first three bytes.
    pub(crate) fn words(&self, rows: Rows) -> Option<&'static str> {
        let front = self.front.as_slice();
        for row in rows_from(rows, front) {
            if !row.as_bytes().starts_with(front) {
                return None;
            }
            if let Some(words) = self.words_behind(row.get(3..)?) {
                return Some(words);
            }
        }
        None
    }
}

/// The words of the first row of all parts that is of a list.
fn words_in_parts(key: &ListKey) -> Option<&'static str> {
    for rows in parts() {
        if let Some(words) = key.words(rows) {
            return Some(words);
        }
    }
    None
}

/// The words of a list without an action; none of a key.
pub(crate) fn words(params: &[CsiParam], control: char) -> Option<&'static str> {
    let key = ListKey::new(params, control, count_fields(params));
    if let Some(known) = KnownSequence::read(params, control) {
        if let Some(words) = words_in_parts(&key.read_by(&known)) {
            return Some(words);
        }
    }
    words_in_parts(&key)
}

/// The words in the place of an action's, where terminals read its list otherwise.
pub(crate) fn words_instead(params: &[CsiParam], control: char) -> Option<&'static str> {
    let front = front_of(params, control);
    // Few lists have any, and a list of many attributes isn't gone through for each of them.
    for row in &INSTEAD {
        if row.as_bytes().starts_with(&front) {
            return ListKey::new(params, control, count_fields(params)).words(&INSTEAD);
        }
    }
    None
}
