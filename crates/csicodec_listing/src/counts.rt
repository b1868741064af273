//! How much of a stream is what, and how often each name was told, of how many bytes.

use crate::Result;
use crate::columns::Sort;
use csicodec_spans::Kind;
use std::alloc::Global;
use std::collections::BTreeMap;
use std::fmt::Write;

/// So many names are counted, each by itself: those that came first.
const MOST: usize = 1000;

/// The heading of the table of names.
const HEADING: &str = "name                         times        bytes    share\n";

/// How often something was told, and of how many bytes; both stop at `u64::MAX`.
#[derive(Clone, Copy)]
pub struct Sum {
    /// How often.
    times: u64,
    /// The bytes of the spans; of a name of those of which it was told first.
    bytes: u64,
}

impl Sum {
    /// So often more, and so many bytes.
    fn add(&mut self, times: u64, bytes: u64) {
        self.times = self.times.saturating_add(times);
        self.bytes = self.bytes.saturating_add(bytes);
    }
}

/// How much there is of each kind of span, and how many actions the control sequences stand for.
#[derive(Clone, Copy)]
pub struct Totals {
    kinds: [Sum; 5],
    actions: u64,
}

impl Totals {
    /// Nothing came.
    pub fn new() -> Totals {
        Totals {
            kinds: [Sum { times: 0, bytes: 0 }; 5],
            actions: 0,
        }
    }

    /// So many spans more of this kind, and so many bytes.
    pub fn add(&mut self, kind: Kind, spans: u64, bytes: u64) {
        self.kinds[kind as usize].add(spans, bytes);
    }

    /// A span that is told as this, of so many bytes and actions.
    pub fn add_told(&mut self, sort: Sort, bytes: u64, actions: u64) {
        let kind = match sort {
            Sort::Text | Sort::Control => Kind::Text,
            Sort::Sequence => Kind::Csi,
            Sort::Escape => Kind::Esc,
            Sort::String => Kind::Str,
            Sort::Malformed => Kind::Other,
            Sort::Event => return,
        };
        self.add(kind, 1, bytes);
        self.add_actions(if kind == Kind::Csi { actions } else { 0 });
    }

    /// A span that counts as malformed, of so many bytes, is an escape sequence.
    pub fn add_long_escape(&mut self, bytes: u64) {
        let wrong = &mut self.kinds[4];
        wrong.times = wrong.times.saturating_sub(1);
        wrong.bytes = wrong.bytes.saturating_sub(bytes);
        self.add(Kind::Esc, 1, bytes);
    }

    /// So many actions more.
    pub fn add_actions(&mut self, count: u64) {
        self.actions = self.actions.saturating_add(count);
    }

    /// Each kind by its names in JSON and in lines, and how much there is of it.
    fn kinds(&self) -> [(&'static str, &'static str, Sum); 5] {
        let [text, sequences, escapes, strings, malformed] = self.kinds;
        [
            ("text", "text", text),
            ("csi", "control sequences", sequences),
            ("escape", "escape sequences", escapes),
            ("string", "strings", strings),
            ("malformed", "malformed", malformed),
        ]
    }

    /// All bytes.
    pub fn bytes(&self) -> u64 {
        let mut bytes = 0u64;
        for sum in &self.kinds {
            bytes = bytes.saturating_add(sum.bytes);
        }
        bytes
    }
}

/// Names, each with its sum.
#[derive(Drop)]
pub struct Names {
    alloc: Global,
    sums: BTreeMap<String, Sum>,
    /// All further names together.
    others: Sum,
}

impl Names {
    /// Nothing was told.
    pub fn new(alloc: Global) -> Names {
        Names {
            alloc,
            sums: BTreeMap::new(alloc),
            others: Sum { times: 0, bytes: 0 },
        }
    }

    /// This name once more, of so many bytes.
    pub fn add(&mut self, name: &str, bytes: u64) -> Result<()> {
        if let Some(sum) = self.sums.get_mut(name) {
            sum.add(1, bytes);
        } else if self.sums.len() >= MOST {
            self.others.add(1, bytes);
        } else {
            let name = String::from_str(self.alloc, name)?;
            self.sums.insert(name, Sum { times: 1, bytes })?;
        }
        Ok(())
    }
}

/// A row of a name.
fn append_name(out: &mut String, name: &str, times: u64) -> Result<()> {
    Ok(write!(out, "  {name:<16}{times:>10}\n")?)
}

/// All that is counted, with how often each name was told, as an object of JSON. A name has no character that would stand behind a
/// backslash there.
pub fn append_object(out: &mut String, totals: &Totals, names: &Names) -> Result<()> {
    out.push_str("{\"kind\":\"totals\"")?;
    for (name, _, sum) in &totals.kinds() {
        write!(
            out,
            ",\"{name}\":{{\"spans\":{},\"bytes\":{}}}",
            sum.times, sum.bytes
        )?;
    }
    let others = names.others.times;
    write!(
        out,
        ",\"actions\":{},\"names\":{{\"other names\":{others}",
        totals.actions
    )?;
    for (name, sum) in &names.sums {
        write!(out, ",\"{name}\":{}", sum.times)?;
    }
    out.push_str("}}\n")
}

/// The same as a line for each; the names in the order of their characters.
pub fn append_lines(out: &mut String, totals: &Totals, names: &Names) -> Result<()> {
    for (_, title, sum) in &totals.kinds() {
        write!(
            out,
            "{title:<18}{:>10} {:>12} bytes\n",
            sum.times, sum.bytes
        )?;
        if *title == "control sequences" {
            append_name(out, "actions", totals.actions)?;
        }
    }
    for (name, sum) in &names.sums {
        append_name(out, name.as_str(), sum.times)?;
    }
    if names.others.times > 0 {
        append_name(out, "other names", names.others.times)?;
    }
    Ok(())
}

/// How many bytes a name has less than the most that are counted.
fn left(row: &(&str, Sum)) -> u64 {
    u64::MAX.saturating_sub(row.1.bytes)
}

/// What part so many bytes are of all, in thousandths, rounded.
fn thousandths(bytes: u64, all: u64) -> u64 {
    let half = all / 2;
    let bytes = bytes.saturating_mul(1000).saturating_add(half);
    bytes.checked_div(all).unwrap_or(0)
}

/// A name with its sum and its share: an object of JSON, or a row of the table.
fn append_share(out: &mut String, name: &str, sum: Sum, share: u64, json: bool) -> Result<()> {
    let (times, bytes, whole, tenth) = (sum.times, sum.bytes, share / 10, share % 10);
    if json {
        Ok(write!(
            out,
            "{{\"kind\":\"stats\",\"name\":\"{name}\",\"times\":{times},\"bytes\":{bytes},\"share\":{whole}.{tenth}}}\n"
        )?)
    } else {
        Ok(write!(out, "{name:<24}{times:>10}{bytes:>13}{whole:>6}.{tenth}%\n")?)
    }
}

/// A table of the names that were told, those of more bytes first: how often each was, the bytes of its spans, and their share of all
/// bytes; in JSON an object for each name. A sequence of several actions counts with its bytes for the first of them. The shares down
/// to each row are together that part of all bytes, rounded: of a whole stream they are 100 per cent.
pub fn append_stats(out: &mut String, names: &Names, all: u64, json: bool) -> Result<()> {
    if !json {
        out.push_str(HEADING)?;
    }
    let mut rows = Vec::new(names.alloc);
    for (name, sum) in &names.sums {
        rows.push((name.as_str(), *sum))?;
    }
    rows.sort_by_key(left)?;
    if names.others.times > 0 {
        rows.push(("other names", names.others))?;
    }
    let (mut bytes, mut before) = (0u64, 0u64);
    for (name, sum) in &rows {
        bytes = bytes.saturating_add(sum.bytes);
        let behind = thousandths(bytes, all);
        append_share(out, name, *sum, behind.saturating_sub(before), json)?;
        before = behind;
    }
    Ok(())
}
