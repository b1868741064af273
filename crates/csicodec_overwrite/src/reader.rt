//! The steps of a stream, as it comes.
ghost use Rattle.std.specs.Prelude.{◌≡◌, ◌≢◌, ◌≤◌, ◌++◌, ℕ, List, false, true, length, MatchOption, OnOk, IfOk, IfSome};
ghost use Rattle.csicodec_tokens.specs.Sequence.{Seq};
ghost use Rattle.csicodec_spans.specs.{Parts.IsUnsure, declared.table.Kind.TheVariants.Csi as Sequence};
ghost use Rattle.csicodec_looks.specs.declared.sets.Set.TheVariants.{Ascii};
ghost use Rattle.csicodec_clean.specs.{Cleaned.longest, Sets.behind, Sets.in_use, Titles.read_as, Titles.title_behind};
ghost use Rattle.csicodec_overwrite.specs.{Private.Spans.GoesTo, Private.Spans.IsBare, Private.Spans.IsGiven, Stream.Reads, Stream.none_held, Stream.none_in};
ghost use Rattle.csicodec_overwrite.specs.{Steps.of_run};

use crate::seen::{Seen, Slice};
use crate::text::{
    append_actions, append_by_escape, append_escape, append_held, append_run, append_text,
};
use csicodec_base::CsiParam;
use csicodec_clean::{Reading, Sets, read_as, title_behind};
use csicodec_looks::{Set, Step};
use csicodec_parser::CSI;
use csicodec_spans::{Cutter, Kind, LIMIT, Mode, Waiting};
use csicodec_terminal::terminal_actions_into;
use csicodec_tokens::Count;
use std::alloc::{AllocError, Global};
use std::marker::Model;

/// Appends the steps of a span. A span that is no text ends the run of text before it. `actions` is a place that is kept for the actions of
/// a control sequence, which are as terminals take it.
fn append_span(
    alloc: Global,
    actions: &mut Vec<CSI>,
    params: &[CsiParam],
    control: Option<char>,
    held: &mut Vec<u8>,
    sets: &mut Sets,
    kind: Kind,
    bytes: &[u8],
    steps: &mut Vec<Step>,
) -> Result<(), AllocError>
    requires { MatchOption control (kind ≢ Sequence)
        (λ final. (kind ≡ Sequence) × Seq bytes.now params.now final) }
    ensures given { OnOk result ((more : _)
        × IsGiven sets.old kind held.old.items bytes.now more held.new.items
        × (steps.new.items ≡ steps.old.items ++ more)) }
    ensures sets { OnOk result (sets.new ≡ behind sets.old kind bytes.now) }
    ensures short { OnOk result (length held.old.items ≤ 3 → length held.new.items ≤ 3) }
{
    if kind == Kind::Text {
        return append_text(held, sets, bytes, steps);
    }
    append_held(held, steps)?;
    sets.pass(kind, bytes);
    if let Some(control) = control {
        terminal_actions_into(alloc, params, false, control, actions)?;
        append_actions(actions, steps)?;
        return Ok(steps.push(Step::Other)?);
    }
    match kind {
        Kind::Esc => append_escape(bytes, steps),
        Kind::Str => append_by_escape(bytes, Step::Other, steps),
        Kind::Other => append_by_escape(bytes, Step::Leave(None), steps),
        Kind::Text | Kind::Csi => Ok(()),
    }
}

/// The steps of a stream as it comes: in however many slices it is pushed, they are those of all of them at once.
#[derive(Drop)]
pub(crate) struct Reader {
    alloc: Global,
    reading: Reading,
    waiting: Waiting,
    held: Vec<u8>,
    /// Places that are kept for the tokens and the actions of a sequence.
    params: Vec<CsiParam>,
    actions: Vec<CSI>,
    /// What came before.
    seen: Seen,
}

impl Model for Reader {
    ghost use Rattle.std.specs.Prelude.{◌≡◌};
    ghost use Rattle.csicodec_clean.specs.Cleaned.{longest};
    ghost use Rattle.csicodec_overwrite.specs.{Private.Seen.AreSlices, Stream.Held};

    ghost Value = { Held };

    ghost view = { λ r. record { mode = r.waiting.mode; reading = r.reading; bytes = r.waiting.bytes; held = r.held.items } };

    ghost invariant = { λ r. (r.waiting.limit ≡ longest) × AreSlices r.seen.kept.items };
}

/// Appends the steps of all spans of the bytes that are sure, and answers the bytes that aren't, and the mode there.
///
/// `held` are the bytes of the run of text before them that aren't read yet, three at most; `reading` says how text is read.
fn append_steps<'a>(
    alloc: Global,
    actions: &mut Vec<CSI>,
    params: &mut Vec<CsiParam>,
    held: &mut Vec<u8>,
    reading: &mut Reading,
    mode: Mode,
    bytes: &'a [u8],
    steps: &mut Vec<Step>,
) -> Result<(&'a [u8], Mode), AllocError>
    ensures parts { IfOk result
        (λ (rest, after). (front : List ℕ) × (bytes.now ≡ front ++ rest.now)) }
    ensures unsure { IfOk result (λ (rest, after). IsUnsure longest after rest.now) }
    ensures goes { IfOk result
        (λ (rest, after). GoesTo mode reading.old held.old.items bytes.now rest.now after reading.new held.new.items steps.old.items steps.new.items) }
    ensures short { OnOk result (length held.old.items ≤ 3 → length held.new.items ≤ 3) }
{
    let mut looks = Count::new();
    let mut cutter = Cutter { mode, rest: bytes };
    loop {
        let Cutter { mode: open, rest } = cutter;
        let Some((span, control)) = cutter.next(LIMIT, params, &mut looks)? else {
            return Ok((rest, open));
        };
        let kind = read_as(span.kind, reading.titled);
        append_span(
            alloc,
            actions,
            params,
            control,
            held,
            &mut reading.sets,
            kind,
            span.bytes,
            steps,
        )?;
        reading.titled = title_behind(reading.titled, span.kind, span.bytes);
    }
}

impl Reader {
    /// Of which nothing has come.
    pub(crate) fn new(alloc: Global) -> Reader
        ensures { result ≡ none_held }
    {
        Reader {
            alloc,
            reading: Reading::first(),
            waiting: Waiting::new(alloc, LIMIT),
            held: Vec::new(alloc),
            params: Vec::new(alloc),
            actions: Vec::new(alloc),
            seen: Seen::new(alloc),
        }
    }

    /// The sets in which text is read.
    #[inline(always)]
    pub(crate) fn sets(&self) -> Sets
        ensures { result ≡ self.now.reading.sets }
    {
        self.reading.sets
    }

    /// Whether the set that is shifted in is ASCII.
    #[inline(always)]
    pub(crate) fn is_ascii(&self) -> bool
        ensures { result ≡ true → in_use self.now.reading.sets ≡ Ascii }
    {
        self.reading.sets.in_use() == Set::Ascii
    }

    /// Whether nothing is open or held.
    pub(crate) fn is_bare(&self) -> bool
        ensures { result ≡ true → IsBare self.now }
    {
        self.waiting.mode() == Mode::Text
            && !self.reading.titled
            && self.waiting.is_empty()
            && self.held.is_empty()
    }

    /// As if nothing had come but what designated and shifted these sets.
    pub(crate) fn clear(&mut self, sets: Sets)
        ensures { self.new ≡ none_in sets }
    {
        self.reading.titled = false;
        self.reading.sets = sets;
        self.waiting.clear();
        self.held.clear();
    }

    /// Reads the next bytes, and appends the steps of all that is sure now.
    #[inline(never)]
    fn read(&mut self, bytes: &[u8], steps: &mut Vec<Step>) -> Result<(), AllocError>
        ensures reads { OnOk result ((more : _) × Reads self.old bytes.now more self.new
            × (steps.new.items ≡ steps.old.items ++ more)) }
        // What is held of a character is short.
        ensures held { OnOk result (length self.old.held ≤ 3 → length self.new.held ≤ 3) }
    {
        let Some(all) = self.waiting.add(bytes)? else {
            return Ok(());
        };
        let (rest, mode) = append_steps(
            self.alloc,
            &mut self.actions,
            &mut self.params,
            &mut self.held,
            &mut self.reading,
            self.waiting.mode(),
            &all,
            steps,
        )?;
        let used = all.len() - rest.len();
        self.waiting.keep(all, used, mode);
        Ok(())
    }

    /// The slice of these bytes, if they came before where text was read in these sets and nothing was open or held before them and behind them.
    #[inline(always)]
    pub(crate) fn recall(&self, bytes: &[u8]) -> Option<&Slice>
        requires { IsBare self.now }
        ensures { IfSome result (λ slice. Reads self.now bytes.now slice.now.steps.items (none_in slice.now.after)) }
    {
        self.seen.recall(self.reading.sets, bytes)
    }

    /// Behind bytes that came before: text is read in these sets.
    #[inline(always)]
    pub(crate) fn pass(&mut self, sets: Sets)
        requires { IsBare self.old }
        ensures { self.new ≡ none_in sets }
    {
        self.reading.sets = sets;
    }

    /// Takes the next bytes, and appends the steps of all that is sure now.
    pub(crate) fn push(&mut self, bytes: &[u8], steps: &mut Vec<Step>) -> Result<(), AllocError>
        ensures reads { OnOk result ((more : _) × Reads self.old bytes.now more self.new
            × (steps.new.items ≡ steps.old.items ++ more)) }
        // What is held of a character is short.
        ensures held { OnOk result (length self.old.held ≤ 3 → length self.new.held ≤ 3) }
    {
        let (is_bare, sets) = (self.is_bare(), self.reading.sets);
        let before = steps.len();
        self.read(bytes, steps)?;
        if is_bare && self.is_bare() {
            let made = steps.split_at(before).1;
            self.seen.keep(sets, self.reading.sets, bytes, made)?;
        }
        Ok(())
    }

    /// Appends the steps of the text that is held: nothing comes any more.
    pub(crate) fn finish(&self, steps: &mut Vec<Step>) -> Result<(), AllocError>
        ensures { OnOk result (steps.new.items ≡ steps.old.items ++ of_run self.now.held) }
    {
        append_run(&self.held, steps)
    }
}
