//! A line and its cursor.
ghost use Rattle.std.specs.{Prelude.◌≡◌, Prelude.◌<◌, Prelude.◌≤◌, Prelude.◌*◌, Prelude.◌-◌, Prelude.◌++◌, Prelude.◌+◌, Prelude.[], Prelude.false, Prelude.length};
ghost use Rattle.std.specs.{Prelude.nat_lt, Prelude.true, Prelude.IfOk, Prelude.OnOk, List.AllByRecursion};
ghost use Rattle.csicodec_looks.specs.Line.{alters, behind_columns, blank, cells_of, does_here, entered, forward, lines_of, parted, placed, put, repeated, size, widest, most};
ghost use Rattle.csicodec_looks.specs.{Cells.columns, Cells.glyph, Paint.text_of, Paint.texts_of, Plain.IsLineByte, Plain.PutsRun, Row.Does, Row.IsHere, Row.settled};
ghost use Rattle.csicodec_looks.specs.{Sides.placed_many};

use crate::ascii::split_run;
use crate::cells::{Cell, Glyph, Side};
use crate::marking::Marking;
use crate::paint::append_cells;
use crate::pen::Pen;
use crate::step::{Step, WIDEST};
use crate::width::width;
use csicodec_spans::LIMIT;
use std::alloc::{AllocError, Global};

/// A line and its cursor, between two of its cells.
#[derive(Drop)]
pub struct Line {
    /// What stands left of the cursor.
    left: Side,
    /// What stands right of it.
    right: Side,
}

impl Line {
    /// In which nothing stands.
    pub fn new(alloc: Global) -> Line
        ensures { result ≡ blank }
    {
        Line {
            left: Side::new(alloc),
            right: Side::new(alloc),
        }
    }

    /// Whether nothing stands in it, and the cursor is at its start.
    pub(crate) fn is_blank(&self) -> bool
        ensures { result ≡ true → self.now ≡ blank }
    {
        self.left.len() == 0 && self.right.len() == 0
    }

    /// How many cells it has room for.
    fn room(&self) -> usize
        ensures { result ≡ most - size self.now }
    {
        let room = LIMIT.saturating_sub(self.left.len());
        room.saturating_sub(self.right.len())
    }

    /// So many columns to the right.
    #[tactic(auto, using(crate::proofs::Moved::passed_over))]
    fn forward(&mut self, count: usize) -> Result<(), AllocError>
        ensures { OnOk result (self.new ≡ forward most count self.old) }
    {
        let missing = count.saturating_sub(self.right.columns());
        self.right.pass(&mut self.left, count, true)?;
        let some = missing.min(self.room());
        self.left.push_empty(some)
    }

    /// How many columns it lacks of so many.
    fn missing(&self, count: usize) -> usize
        ensures { result ≡ count - columns self.now.left - columns self.now.right }
    {
        let missing = count.saturating_sub(self.left.columns());
        missing.saturating_sub(self.right.columns())
    }

    /// The columns left of the cursor, where it stands or is to go.
    #[tactic(auto, using(crate::proofs::Rows::reached))]
    pub(crate) fn column(&self, to: Option<usize>) -> usize
        ensures { result ≡ columns (settled most to self.now).left }
    {
        match to {
            Some(count) => count.saturating_sub(self.missing(count).saturating_sub(self.room())),
            None => self.left.columns(),
        }
    }

    /// Behind so many columns.
    fn behind_columns(&mut self, count: usize) -> Result<(), AllocError>
        ensures { OnOk result (self.new ≡ behind_columns most count self.old) }
    {
        let column = self.left.columns();
        self.left
            .pass(&mut self.right, column.saturating_sub(count), false)?;
        self.forward(count.saturating_sub(column))
    }

    /// Puts the columns that it lacks where the cursor is to go, which then goes elsewhere.
    pub(crate) fn pad(&mut self, to: Option<usize>) -> Result<(), AllocError>
        ensures { OnOk result ((n : _)
            → behind_columns most n self.new ≡ behind_columns most n (settled most to self.old)) }
    {
        let Some(at) = to else {
            return Ok(());
        };
        if self.missing(at) == 0 {
            return Ok(());
        }
        self.behind_columns(at)
    }

    /// To where the cursor is to go, if it doesn't stand there.
    #[inline(always)]
    pub(crate) fn settle(&mut self, to: Option<usize>) -> Result<(), AllocError>
        ensures { OnOk result (self.new ≡ settled most to self.old) }
    {
        match to {
            Some(count) => self.behind_columns(count),
            None => Ok(()),
        }
    }

    /// Whether it is longer than a terminal's row, with the cursor where it stands or is to go.
    #[tactic(auto, using(crate::proofs::Rows::long_same, crate::proofs::Rows::settled_size))]
    fn is_long(&self, to: Option<usize>) -> bool
        ensures { result ≡ nat_lt widest (size (settled most to self.now)) }
    {
        let len = self.left.len().saturating_add(self.right.len());
        let Some(count) = to else {
            return (WIDEST as usize) < len;
        };
        (WIDEST as usize) < len.saturating_add(self.missing(count).min(self.room()))
    }

    /// Whether something stands right of the cursor where it stands or is to go.
    pub(crate) fn has_right(&self, to: Option<usize>) -> bool
        ensures { result ≡ nat_lt 0 (length (settled most to self.now).right) }
    {
        match to {
            Some(count) => {
                let right = self.right.columns();
                count < right || count - right < self.left.columns()
            }
            None => self.right.len() > 0,
        }
    }

    /// Whether the step alters what stands in the line, done where the cursor stands or is to go.
    fn alters(&self, to: Option<usize>, step: &Step) -> bool
        ensures { result ≡ alters step.now (settled most to self.now) }
    {
        match *step {
            Step::EraseLeft | Step::EraseAll => true,
            Step::Put(_)
            | Step::Repeat(_)
            | Step::EraseRight
            | Step::Erase(_)
            | Step::Delete(_)
            | Step::Insert(_) => self.has_right(to),
            _ => false,
        }
    }

    /// Goes where the cursor is to go, or to a new line, where the step is done.
    #[inline(always)]
    pub(crate) fn enter(
        &mut self,
        to: Option<usize>,
        step: &Step,
        marking: &Marking,
        out: &mut Vec<u8>,
    ) -> Result<(), AllocError>
        ensures { OnOk result (Does marking.now (entered most step.now (settled most to self.old))
            self.new out.old.items out.new.items) }
    {
        if self.alters(to, step) && self.is_long(to) {
            let column = self.column(to).min(WIDEST as usize - 1);
            self.end_some(marking, out)?;
            self.forward(column)?;
            return Ok(());
        }
        self.settle(to)
    }

    /// Empties the columns of a character in which the cursor stands.
    fn part(&mut self) -> Result<(), AllocError>
        ensures { OnOk result (self.new ≡ parted self.old) }
    {
        if self.right.begins_behind() {
            self.left.undo()?;
            self.right.loosen()?;
        }
        Ok(())
    }

    /// Puts a character of so many columns at the cursor, in place of what stands there or in front of it.
    fn place(&mut self, inserts: bool, glyph: Glyph, columns: usize) -> Result<(), AllocError>
        ensures { OnOk result (self.new ≡ placed inserts glyph columns self.old) }
    {
        if columns == 0 {
            return self.left.push(Cell::Mark(glyph.char));
        }
        self.place_many(inserts, glyph, columns, 1)
    }

    /// The same so many times, of a character that has columns.
    fn place_many(
        &mut self,
        inserts: bool,
        glyph: Glyph,
        columns: usize,
        count: usize,
    ) -> Result<(), AllocError>
        ensures { OnOk result (self.new ≡ placed_many inserts glyph columns count self.old) }
    {
        self.part()?;
        self.left.push_glyphs(glyph, columns, count)?;
        if self.right.len() == 0 {
            return Ok(());
        }
        if inserts {
            self.right.shift();
            return Ok(());
        }
        let Some(all) = count.checked_mul(columns) else {
            return Err(AllocError);
        };
        self.right.delete_columns(all)
    }

    /// Takes all that stands there, and appends its text.
    pub(crate) fn take_text(
        &mut self,
        marking: &Marking,
        out: &mut Vec<u8>,
    ) -> Result<(), AllocError>
        ensures text { OnOk result
            (out.new.items ≡ out.old.items ++ text_of marking.now (cells_of self.old)) }
        ensures none { OnOk result (self.new ≡ blank) }
    {
        self.right.give_all(&mut self.left)?;
        self.left.trim();
        append_cells(self.left.from_farthest(), marking, out)?;
        self.left.clear();
        Ok(())
    }

    /// Ends the line, if more than blanks stands in it.
    #[tactic(auto, using(crate::proofs::Moved::line_ends))]
    pub(crate) fn end_some(
        &mut self,
        marking: &Marking,
        out: &mut Vec<u8>,
    ) -> Result<(), AllocError>
        ensures text { OnOk result
            (out.new.items ≡ out.old.items ++ texts_of marking.now (lines_of self.old)) }
        ensures none { OnOk result (self.new ≡ blank) }
    {
        self.right.give_all(&mut self.left)?;
        self.left.trim();
        if self.left.shows_nothing() {
            self.left.clear();
            return Ok(());
        }
        append_cells(self.left.from_farthest(), marking, out)?;
        self.left.clear();
        out.push(b'\n')?;
        Ok(())
    }

    /// Puts a character, on a line of its own where this has no room for it.
    #[tactic(auto, using(crate::proofs::Moved::fits_within, crate::proofs::Moved::line_ends))]
    pub(crate) fn put(
        &mut self,
        pen: &Pen,
        char: char,
        marking: &Marking,
        out: &mut Vec<u8>,
    ) -> Result<(), AllocError>
        ensures { OnOk result (Does marking.now (put most pen.now.inserts (glyph char pen.now.look) self.old)
            self.new out.old.items out.new.items) }
    {
        let glyph = Glyph {
            char,
            look: pen.look,
        };
        let columns = width(char, self.left.columns());
        if columns.max(1) <= self.room() {
            return self.place(pen.inserts, glyph, columns);
        }
        self.take_text(marking, out)?;
        out.push(b'\n')?;
        self.place(pen.inserts, glyph, width(char, 0))
    }

    /// Whether it has room for so many characters of so many columns, one or more.
    fn has_room(&self, columns: usize, count: usize) -> bool
        ensures { result ≡ true → (0 < count) × (size self.now + count * columns ≤ most) }
    {
        match count.checked_mul(columns) {
            Some(all) => 0 < count && 0 < all && all <= self.room(),
            None => false,
        }
    }

    /// Puts the character again that was put last, so many times, if there is one.
    fn repeat(
        &mut self,
        pen: &Pen,
        count: u32,
        marking: &Marking,
        out: &mut Vec<u8>,
    ) -> Result<(), AllocError>
        ensures { OnOk result (Does marking.now (repeated most pen.now pen.now.last count self.old)
            self.new out.old.items out.new.items) }
    {
        let Some(char) = pen.last else {
            return Ok(());
        };
        let columns = width(char, 0);
        if char != '\t' && columns > 0 && self.has_room(columns, count as usize) {
            let glyph = Glyph {
                char,
                look: pen.look,
            };
            self.place_many(pen.inserts, glyph, columns, count as usize)?;
            return Ok(());
        }
        for _i in 0..count {
            self.put(pen, char, marking, out)?;
        }
        Ok(())
    }

    /// Does a step where the cursor stands, and appends the lines that are over with it.
    pub(crate) fn act(
        &mut self,
        pen: &Pen,
        step: &Step,
        marking: &Marking,
        out: &mut Vec<u8>,
    ) -> Result<(), AllocError>
        requires { IsHere step.now }
        ensures { OnOk result (Does marking.now (does_here most pen.now step.now self.old)
            self.new out.old.items out.new.items) }
    {
        match *step {
            Step::Put(char) => self.put(pen, char, marking, out),
            Step::Repeat(count) => self.repeat(pen, count, marking, out),
            Step::EraseRight => {
                self.part()?;
                self.right.clear();
                Ok(())
            }
            Step::EraseLeft => {
                self.left.empty()?;
                self.right.erase_columns(1)
            }
            Step::EraseAll => {
                self.right.clear();
                self.left.empty()
            }
            Step::Erase(count) => {
                self.part()?;
                self.right.erase_columns(count as usize)
            }
            Step::Delete(count) => {
                self.part()?;
                self.right.delete_columns(count as usize)?;
                self.right.shift();
                Ok(())
            }
            Step::Insert(count) => {
                self.part()?;
                let some = (count as usize).min(self.room());
                self.right.shift();
                self.right.push_empty(some)
            }
            _ => Ok(()),
        }
    }

    /// Puts the characters in front that take one cell each, where nothing stands right of the cursor, and answers the others.
    #[inline(always)]
    #[tactic(auto, using(crate::proofs::Stays::none_run))]
    pub(crate) fn put_run<'a>(
        &mut self,
        pen: &mut Pen,
        text: &'a [u8],
    ) -> Result<&'a [u8], AllocError>
        requires plain { AllByRecursion IsLineByte text.now }
        requires over { pen.old.inserts ≡ false }
        requires last { self.old.right ≡ [] }
        ensures { IfOk result
            (λ rest. PutsRun most pen.old self.old text.now rest.now pen.new self.new) }
    {
        let (run, rest) = split_run(text, self.room());
        let Some((last, _front)) = run.split_last() else {
            return Ok(text);
        };
        self.left.push_run(run, pen.look)?;
        pen.last = Some(char::from(*last));
        Ok(rest)
    }
}
