//! How a stream is told, and what of it.

use csicodec_events::Dialect;

/// How a stream is told, and what of it.
#[derive(Clone, Copy, Default)]
pub struct Style<'a> {
    /// All bytes of each span are shown; it is held until it is over, however long it is.
    pub full: bool,
    /// Each end of a line has a row of its own.
    pub apart: bool,
    /// An object of JSON for each span.
    pub json: bool,
    /// Totals are told at the end, and nothing else, but for objects of JSON.
    pub count: bool,
    /// A table of names is told at the end, and nothing else.
    pub stats: bool,
    /// Only what has no name here, and what is malformed.
    pub unknown: bool,
    /// Text in base64 is decoded; a string is held until it is over.
    pub decode: bool,
    /// Lines have colours.
    pub color: bool,
    /// When each span came is told.
    pub timed: bool,
    /// Text is told where no more is there at once: someone looks on, and it may be a prompt.
    pub live: bool,
    /// Only what has one of these names, with commas between them.
    pub only: Option<&'a str>,
    /// Only what has a byte in one of these ranges, each by its first and its last place; without any, all.
    pub at: &'a [(u64, u64)],
    /// Only what has this text in its bytes, in these as they are shown, or in its words; a span is held until it is over.
    pub grep: Option<&'a str>,
    /// There capitals and small letters are the same.
    pub ignore_case: bool,
    /// What a terminal sends, in this dialect, and not what it is sent.
    pub dialect: Option<Dialect>,
}

/// The name of what is told, and its words.
pub fn name_of(words: &str) -> (&str, &str) {
    words.split_once("  ").unwrap_or((words, ""))
}

/// Whether the words say that nothing is known.
fn says_unknown(name: &str, rest: &str) -> bool {
    name == "unknown" || rest.starts_with("unknown")
}

/// Whether one of these names, with commas between them, is this, in capitals or not.
pub fn is_among(names: &str, name: &str) -> bool {
    for one in names.split(',') {
        if one.eq_ignore_ascii_case(name) {
            return true;
        }
    }
    false
}

/// Whether so many bytes, of which the first stands at this place, have one in one of the ranges; without any, true.
fn is_within(ranges: &[(u64, u64)], place: u64, len: u64) -> bool {
    let behind = place.saturating_add(len.max(1));
    for (first, last) in ranges {
        if place <= *last && behind > *first {
            return true;
        }
    }
    ranges.is_empty()
}

/// Whether one of the names that are asked for is this: the whole of it, or its first word; or `unknown`, of what has a name and is
/// unknown all the same.
fn is_named(names: &str, name: &str, rest: &str) -> bool {
    let (first, _rest) = name.split_once(' ').unwrap_or((name, ""));
    is_among(names, name)
        || is_among(names, first)
        || (says_unknown(name, rest) && is_among(names, "unknown"))
}

impl<'a> Style<'a> {
    /// Whether names are counted.
    pub fn counts(&self) -> bool {
        self.count || self.stats
    }

    /// Whether nothing is told but sums, at the end.
    pub fn is_silent(&self) -> bool {
        self.stats || (self.count && !self.json)
    }

    /// Whether all spans are told.
    pub fn tells_all(&self) -> bool {
        !self.unknown && self.only.is_none() && self.at.is_empty() && self.grep.is_none()
    }

    /// Whether all spans are told, each as it comes.
    pub fn is_plain(&self) -> bool {
        self.tells_all() && !self.is_silent()
    }

    /// Whether a line is a span's bytes and words as they are, of what is written to a terminal.
    pub fn copies(&self) -> bool {
        !self.json && !self.color && self.dialect.is_none() && self.is_plain()
    }

    /// Whether what was told of a span once, or counted where nothing is told, is so of one with the same bytes.
    pub fn recalls(&self) -> bool {
        self.at.is_empty() && (!self.counts() || (self.is_silent() && self.tells_all()))
    }

    /// Whether so many bytes, of which the first stands at this place, have one at an offset that is asked for.
    pub fn is_at(&self, place: u64, len: u64) -> bool {
        is_within(self.at, place, len)
    }

    /// Whether a carriage return and the line feed behind it are told as one.
    pub fn joins_lines(&self) -> bool {
        !self.json && self.is_plain() && self.dialect.is_none()
    }

    /// Whether the end of a line stands in the row of the text ahead of it.
    pub fn ends_rows(&self) -> bool {
        !self.apart && self.joins_lines()
    }

    /// Whether a long span is told in pieces as it comes.
    pub fn tells_pieces(&self) -> bool {
        self.json && !self.decode && self.is_plain()
    }

    /// Whether a span is held until it is over, but for pieces of it that were told.
    pub fn holds_all(&self) -> bool {
        self.full || self.json || self.decode || self.grep.is_some()
    }

    /// Whether what has these words, and so many bytes of which the first stands at this place, is told, if `Search` finds it.
    pub fn tells(&self, words: &str, place: u64, len: u64) -> bool {
        let is_there = self.is_at(place, len);
        if !is_there || (!self.unknown && self.only.is_none()) {
            return is_there;
        }
        let (name, rest) = name_of(words);
        if self.unknown && name != "malformed" && !says_unknown(name, rest) {
            return false;
        }
        match self.only {
            Some(names) => is_named(names, name, rest),
            None => true,
        }
    }
}
