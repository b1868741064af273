//! A stream of which each line is overwritten, as it comes.
ghost use Rattle.std.specs.Prelude.{◌≡◌, ◌≤◌, ◌<◌, ◌++◌, ℕ, List, OnOk, IfNone, IfOk, IfSome, false, length, true};
ghost use Rattle.csicodec_clean.specs.Sets.{in_use};
ghost use Rattle.csicodec_looks.specs.{declared.sets.Set.TheVariants.Ascii, Line.blank, declared.marking.Marking.TheVariants.Styled, Turns.AreTurns};
ghost use Rattle.csicodec_overwrite.specs.{Private.Seen.PassesFront, Private.Spans.IsAscii, Private.Spans.IsBare, Stream.Ending, Stream.Passes, Stream.begun};
ghost use Rattle.csicodec_overwrite.specs.{Stream.begun_as, Stream.none_in, Turned.Turned};

use crate::front::{Turner, append_front, append_written};
use crate::reader::Reader;
use csicodec_clean::Sets;
use csicodec_looks::paint::append_turn;
use csicodec_looks::{
    InLine, Look, Marking, Pen, Row, Step, Turns, behind_end, odd_len, split_front, split_lines,
};
use csicodec_spans::LIMIT;
use csicodec_transform::Transform;
use std::alloc::{AllocError, Global};
use std::marker::Model;

/// After so many lines in a row that can't be written as they come, only some are tried: about each `EVERY`th.
const PATIENCE: u32 = 4;

const EVERY: usize = 8;

/// A stream as it comes, of which each line is written as it stands when it ends, as plain text, painted or as a page.
///
/// It holds the line that isn't over, of at most 65,536 cells, a control sequence that isn't, of fewer than 65,536 bytes, at most 4,096
/// slices of 32 bytes that came before, with their steps, and as many sequences with their tags. After an `Err` it and what was appended
/// are of no more use.
#[derive(Drop)]
pub struct Overwriter {
    reader: Reader,
    /// How characters are put that come now.
    pen: Pen,
    /// As what lines are written.
    marking: Marking,
    line: Row,
    /// A place that is kept for the steps of a slice.
    steps: Vec<Step>,
    /// Where more bytes than so many are left, the line can't be written as it comes.
    crooked: usize,
    /// How many lines couldn't be, one after the other.
    missed: u32,
    /// Sequences that came before where text looked so, and what was written for them.
    turns: Turns,
    /// The sets in which text was read there.
    sets: Sets,
}

impl Model for Overwriter {
    ghost use Rattle.csicodec_overwrite.specs.{Stream.Now, Stream.none_in, Turned.Turned};
    ghost use Rattle.csicodec_looks.specs.Turns.{AreTurns};

    ghost Value = { Now };

    ghost view = { λ o. record { reader = o.reader; pen = o.pen; marking = o.marking; line = o.line } };

    ghost invariant = { λ o. AreTurns (Turned (none_in o.sets) o.marking) o.turns.kept.items };
}

/// From here on sequences are kept that turn text in these sets. Those of others are forgotten.
#[inline(always)]
fn stand(turns: &mut Turns, of: &mut Sets, marking: &Marking, sets: Sets, alloc: Global)
    requires { AreTurns (Turned (none_in of.old) marking.now) turns.old.kept.items }
    ensures sets { of.new ≡ sets }
    ensures known { AreTurns (Turned (none_in of.new) marking.now) turns.new.kept.items }
{
    if *of != sets {
        *turns = Turns::new(alloc, &Turner(marking, sets));
        *of = sets;
    }
}

impl Overwriter {
    /// Of which nothing has come.
    pub fn new(alloc: Global) -> Overwriter
        ensures { result ≡ begun }
    {
        Overwriter::writing(alloc, Marking::Plain)
    }

    /// The same, painted: with the sequences that set how characters look (SGR), and at the end of each line nothing is set.
    pub fn painting(alloc: Global) -> Overwriter
        ensures { result ≡ begun_as Styled }
    {
        Overwriter::writing(alloc, Marking::Styled)
    }

    /// The same, as what lines are to be written.
    pub fn writing(alloc: Global, marking: Marking) -> Overwriter
        ensures { result ≡ begun_as marking }
    {
        let sets = Sets::first();
        Overwriter {
            reader: Reader::new(alloc),
            pen: Pen::new(),
            marking,
            line: Row::new(alloc),
            steps: Vec::new(alloc),
            crooked: usize::MAX,
            missed: 0,
            turns: Turns::new(alloc, &Turner(&marking, sets)),
            sets,
        }
    }

    /// Takes the text of ASCII in front, and answers what is behind it.
    #[inline(always)]
    fn take_text<'a>(&mut self, bytes: &'a [u8], out: &mut Vec<u8>) -> Result<&'a [u8], AllocError>
        requires { IsBare self.old.reader }
        ensures passes { IfOk result (λ rest. PassesFront self.old bytes.now rest.now self.new
            out.old.items out.new.items) }
        ensures reader { OnOk result (self.new.reader ≡ self.old.reader) }
    {
        // No text stands in front of a sequence.
        if matches!(bytes, [0x1b, ..]) || !self.reader.is_ascii() {
            return Ok(bytes);
        }
        let (text, rest) = split_front::<InLine>(bytes);
        self.line.put_text(&mut self.pen, text, &self.marking, out)?;
        Ok(rest)
    }

    /// Takes a slice in front that came before, and answers what is behind it. It takes nothing where the end of a line stands.
    #[inline(always)]
    fn take_known<'a>(
        &mut self,
        bytes: &'a [u8],
        out: &mut Vec<u8>,
    ) -> Result<Option<&'a [u8]>, AllocError>
        requires { IsBare self.old.reader }
        ensures passes { IfOk result (λ o. IfSome o
            (λ rest. PassesFront self.old bytes.now rest.now self.new out.old.items out.new.items)) }
        ensures fewer { IfOk result (λ o. IfSome o (λ rest. length rest.now < length bytes.now)) }
        ensures none { IfOk result
            (λ o. IfNone o ((self.new ≡ self.old) × (out.new.items ≡ out.old.items))) }
        ensures reader { OnOk result (IsBare self.new.reader) }
    {
        if bytes.is_empty() || behind_end(bytes).is_some() {
            return Ok(None);
        }
        let (front, rest) = bytes.split_at(odd_len(bytes, false));
        let Some(known) = self.reader.recall(front) else {
            return Ok(None);
        };
        let after = known.after;
        self.line
            .take_all(&mut self.pen, &known.steps, &self.marking, out)?;
        self.reader.pass(after);
        Ok(Some(rest))
    }

    /// Takes the text of ASCII in front, and slices that came before, up to where a line may begin, and answers what is behind them.
    fn take_pieces<'a>(
        &mut self,
        bytes: &'a [u8],
        out: &mut Vec<u8>,
    ) -> Result<&'a [u8], AllocError>
        requires { IsBare self.old.reader }
        ensures passes { IfOk result (λ rest. PassesFront self.old bytes.now rest.now self.new
            out.old.items out.new.items) }
        ensures reader { OnOk result (IsBare self.new.reader) }
    {
        let mut rest = bytes;
        loop {
            let odd = self.take_text(rest, out)?;
            let Some(behind) = self.take_known(odd, out)? else {
                return Ok(odd);
            };
            if self.begins_line(behind) {
                return Ok(behind);
            }
            rest = behind;
        }
    }

    /// Takes some bytes in front step by step, whatever they are, and answers the others.
    fn take_odd<'a>(&mut self, bytes: &'a [u8], out: &mut Vec<u8>) -> Result<&'a [u8], AllocError>
        ensures passes { IfOk result (λ rest. PassesFront self.old bytes.now rest.now self.new
            out.old.items out.new.items) }
        ensures fewer { IfOk result
            (λ rest. 0 < length bytes.now → length rest.now < length bytes.now) }
        ensures held { OnOk result
            (length self.old.reader.held ≤ 3 → length self.new.reader.held ≤ 3) }
    {
        let (front, rest) = bytes.split_at(odd_len(bytes, !self.reader.is_bare()));
        self.steps.clear();
        self.reader.push(front, &mut self.steps)?;
        self.line
            .take_all(&mut self.pen, &self.steps, &self.marking, out)?;
        Ok(rest)
    }

    /// Whether a line that is written as it comes may begin here, and is tried.
    fn begins_line(&self, bytes: &[u8]) -> bool
        ensures { result ≡ true → (self.now.line ≡ blank) × (self.now.pen.inserts ≡ false)
            × (in_use self.now.reader.reading.sets ≡ Ascii) }
    {
        let is_tried = self.missed < PATIENCE || bytes.len() % EVERY == 0;
        bytes.len() <= self.crooked
            && is_tried
            && self.line.is_blank()
            && !self.pen.inserts
            && self.reader.is_ascii()
    }

    /// Takes the line in front, written as it comes, and answers what is behind it. Where it can't be, it takes nothing.
    fn take_line<'a>(
        &mut self,
        bytes: &'a [u8],
        out: &mut Vec<u8>,
    ) -> Result<Option<&'a [u8]>, AllocError>
        requires bare { IsAscii self.old.reader }
        requires blank { self.old.line ≡ blank }
        requires over { self.old.pen.inserts ≡ false }
        ensures passes { IfOk result (λ o. IfSome o
            (λ rest. PassesFront self.old bytes.now rest.now self.new out.old.items out.new.items)) }
        ensures none { IfOk result
            (λ o. IfNone o ((self.new ≡ self.old) × (out.new.items ≡ out.old.items))) }
        ensures reader { OnOk result (self.new.reader ≡ self.old.reader) }
    {
        let (alloc, sets) = (*self.steps.allocator(), self.reader.sets());
        stand(&mut self.turns, &mut self.sets, &self.marking, sets, alloc);
        let before = out.len();
        let (reader, steps, turns) = (&mut self.reader, &mut self.steps, &mut self.turns);
        let by = Turner(&self.marking, self.sets);
        let front = append_front(reader, steps, turns, self.pen, &by, bytes, out)?;
        let Some(rest) = behind_end(front.rest) else {
            out.truncate(before);
            self.crooked = front.rest.len();
            self.missed = self.missed.saturating_add(1);
            return Ok(None);
        };
        append_turn(&self.marking, &front.last, &Look::plain(), out)?;
        out.push(b'\n')?;
        self.missed = 0;
        self.pen.look = front.now;
        self.pen.take(Step::NewLine, 0);
        Ok(Some(rest))
    }

    /// Takes lines of text alone in front that are written as they are, if they are likely, and answers what is behind them.
    fn take_lines<'a>(
        &mut self,
        is_likely: bool,
        bytes: &'a [u8],
        out: &mut Vec<u8>,
    ) -> Result<&'a [u8], AllocError>
        requires { IsAscii self.old.reader }
        ensures passes { IfOk result (λ rest. PassesFront self.old bytes.now rest.now self.new
            out.old.items out.new.items) }
        ensures reader { OnOk result (self.new.reader ≡ self.old.reader) }
    {
        if is_likely
            && self.line.is_blank()
            && self.pen.puts_plain(self.marking.shows_looks())
            && let Some((lines, rest)) = split_lines(bytes, LIMIT / 8)
        {
            append_written(&self.marking, lines, out)?;
            self.pen.take(Step::NewLine, 0);
            return Ok(rest);
        }
        Ok(bytes)
    }

    /// Takes the end of the line in front, or a line, or text of ASCII and slices that came before.
    fn take_ready<'a>(&mut self, bytes: &'a [u8], out: &mut Vec<u8>) -> Result<&'a [u8], AllocError>
        requires { IsBare self.old.reader }
        ensures passes { IfOk result (λ rest. PassesFront self.old bytes.now rest.now self.new
            out.old.items out.new.items) }
        ensures held { OnOk result (length self.new.reader.held ≤ 3) }
    {
        if let Some(rest) = behind_end(bytes) {
            self.line.end(&self.marking, out)?;
            self.pen.take(Step::NewLine, 0);
            return Ok(rest);
        }
        let before = out.len();
        if self.begins_line(bytes)
            && let Some(rest) = self.take_line(bytes, out)?
        {
            // Behind a line of which all was written, and little more, others are likely that are text alone.
            let taken = bytes.len().saturating_sub(rest.len());
            let more = out.len().saturating_sub(before);
            let is_likely = taken <= more && more - taken <= taken / 4;
            let far = self.take_lines(is_likely, rest, out)?;
            return Ok(far);
        }
        let rest = self.take_pieces(bytes, out)?;
        Ok(rest)
    }

    /// Takes a line or the text of ASCII in front, where nothing is open or held, or else some bytes step by step, and answers the others.
    fn take_front<'a>(&mut self, bytes: &'a [u8], out: &mut Vec<u8>) -> Result<&'a [u8], AllocError>
        ensures passes { IfOk result (λ rest. PassesFront self.old bytes.now rest.now self.new
            out.old.items out.new.items) }
        ensures fewer { IfOk result
            (λ rest. 0 < length bytes.now → length rest.now < length bytes.now) }
        ensures held { OnOk result
            (length self.old.reader.held ≤ 3 → length self.new.reader.held ≤ 3) }
    {
        if !self.reader.is_bare() {
            return self.take_odd(bytes, out);
        }
        let rest = self.take_ready(bytes, out)?;
        if rest.len() < bytes.len() {
            return Ok(rest);
        }
        let odd = self.take_odd(rest, out)?;
        Ok(odd)
    }

    /// Takes the next bytes, and appends the lines that are over now.
    pub fn push(&mut self, bytes: &[u8], out: &mut Vec<u8>) -> Result<(), AllocError>
        ensures passes { OnOk result ((text : List ℕ) × Passes self.old bytes.now text self.new
            × (out.new.items ≡ out.old.items ++ text)) }
        // What is held of a character is short.
        ensures held { OnOk result
            (length self.old.reader.held ≤ 3 → length self.new.reader.held ≤ 3) }
    {
        self.crooked = usize::MAX;
        let mut rest = self.take_front(bytes, out)?;
        while !rest.is_empty() {
            rest = self.take_front(rest, out)?;
        }
        Ok(())
    }

    /// Appends the line that isn't over, with the text that is held: nothing comes any more. What comes then is another stream.
    pub fn finish(&mut self, out: &mut Vec<u8>) -> Result<(), AllocError>
        ensures text { OnOk result ((rest : List ℕ) × Ending self.old rest
            × (out.new.items ≡ out.old.items ++ rest)) }
        ensures begun { OnOk result (self.new ≡ begun_as self.old.marking) }
    {
        self.steps.clear();
        self.reader.finish(&mut self.steps)?;
        self.line
            .take_all(&mut self.pen, &self.steps, &self.marking, out)?;
        self.line.take_text(&self.marking, out)?;
        self.reader.clear(Sets::first());
        self.pen = Pen::new();
        self.missed = 0;
        Ok(())
    }
}

impl Transform for Overwriter {
    ghost use Rattle.std.specs.Prelude.{⊤};
    ghost use Rattle.csicodec_overwrite.specs.Stream.{Ending, Passes};

    ghost stands = { λ _. ⊤ };

    ghost passes = { Passes };

    ghost rests = { λ _. ⊤ };

    ghost ends = { Ending };

    fn take(&mut self, bytes: &[u8], out: &mut Vec<u8>) -> Result<(), AllocError> {
        self.push(bytes, out)
    }

    fn pause(&mut self, _out: &mut Vec<u8>) -> Result<(), AllocError> {
        Ok(())
    }

    fn end(&mut self, out: &mut Vec<u8>) -> Result<(), AllocError> {
        self.finish(out)
    }
}
