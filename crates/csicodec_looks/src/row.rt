//! A line whose cursor goes to a column only where something is done there, so that going to and fro costs nothing.
ghost use Rattle.std.specs.{Prelude.◌≡◌, Prelude.◌++◌, Prelude.true, Prelude.IfOk, Prelude.OnOk, List.AllByRecursion};
ghost use Rattle.csicodec_looks.specs.Line.{backward, behind_columns, blank, cells_of, done, does, forward, lines_of, pen_behind, rightward, target, most};
ghost use Rattle.csicodec_looks.specs.{Cells.columns, Steps.of_chars, Paint.ended, Paint.text_of, Plain.IsLineByte, Plain.PutsRun, Row.Does, Row.DoesAll};

use crate::line::Line;
use crate::marking::Marking;
use crate::pen::Pen;
use crate::step::{Step, WIDEST, char_step};
use crate::width::width;
use std::alloc::{AllocError, Global};
use std::marker::Model;

/// A line, and a column to which its cursor is still to go.
#[derive(Drop)]
pub struct Row {
    line: Line,
    /// Behind so many columns, if it isn't there.
    to: Option<usize>,
}

impl Model for Row {
    ghost use Rattle.csicodec_looks.specs.Row.{settled};
    ghost use Rattle.csicodec_looks.specs.Line.{most};
    ghost use Rattle.csicodec_looks.specs.declared.line.Line.{Line as LineOf};

    ghost Value = { LineOf };

    ghost view = { λ r. settled most r.to r.line };
}

impl Row {
    /// In which nothing stands.
    pub fn new(alloc: Global) -> Row
        ensures { result ≡ blank }
    {
        Row {
            line: Line::new(alloc),
            to: None,
        }
    }

    /// Whether nothing stands in it, and the cursor is at its start.
    pub fn is_blank(&self) -> bool
        ensures { result ≡ true → self.now ≡ blank }
    {
        match self.to {
            None | Some(0) => self.line.is_blank(),
            Some(_) => false,
        }
    }

    /// The columns left of the cursor.
    fn column(&self) -> usize
        ensures { result ≡ columns self.now.left }
    {
        self.line.column(self.to)
    }

    /// Behind so many columns.
    fn go(&mut self, count: usize) -> Result<(), AllocError>
        ensures { OnOk result (self.new ≡ behind_columns most count self.old) }
    {
        self.line.pad(self.to)?;
        self.to = Some(count);
        Ok(())
    }

    /// So many columns to the right.
    #[tactic(auto, using(crate::proofs::Rows::ahead))]
    fn forward(&mut self, count: usize) -> Result<(), AllocError>
        ensures { OnOk result (self.new ≡ forward most count self.old) }
    {
        let Some(column) = self.column().checked_add(count) else {
            return Err(AllocError);
        };
        self.go(column)
    }

    /// So many columns to the right, and no further than the last of a row.
    fn right(&mut self, count: usize) -> Result<(), AllocError>
        ensures { OnOk result (self.new ≡ rightward most count self.old) }
    {
        let room = (WIDEST as usize - 1).saturating_sub(self.column());
        self.forward(count.min(room))
    }

    /// So many columns to the left.
    fn back(&mut self, count: usize) -> Result<(), AllocError>
        ensures { OnOk result (self.new ≡ backward most count self.old) }
    {
        let column = self.column().saturating_sub(count);
        self.go(column)
    }

    /// Ends the line, if more than blanks stands in it, and goes behind so many columns of another.
    #[tactic(auto, using(crate::proofs::Rows::standing_row))]
    fn go_on(
        &mut self,
        count: usize,
        marking: &Marking,
        out: &mut Vec<u8>,
    ) -> Result<(), AllocError>
        ensures { OnOk result (Does marking.now (done (lines_of self.old) (forward most count blank))
            self.new out.old.items out.new.items) }
    {
        self.line.end_some(marking, out)?;
        self.to = Some(count);
        Ok(())
    }

    /// The columns left of a column, of which the first is 1, or of the cursor: at most 511.
    fn target(&self, to: Option<u32>) -> usize
        ensures { result ≡ target to self.now }
    {
        let column = match to {
            Some(column) => column.saturating_sub(1) as usize,
            None => self.column(),
        };
        column.min(WIDEST as usize - 1)
    }

    /// Takes all that stands there, and appends its text.
    #[tactic(auto, using(crate::proofs::Rows::standing_row))]
    pub fn take_text(&mut self, marking: &Marking, out: &mut Vec<u8>) -> Result<(), AllocError>
        ensures text { OnOk result
            (out.new.items ≡ out.old.items ++ text_of marking.now (cells_of self.old)) }
        ensures none { OnOk result (self.new ≡ blank) }
    {
        self.line.take_text(marking, out)?;
        self.to = None;
        Ok(())
    }

    /// Ends the line.
    #[tactic(auto, using(crate::proofs::Moved::line_ends))]
    pub fn end(&mut self, marking: &Marking, out: &mut Vec<u8>) -> Result<(), AllocError>
        ensures text { OnOk result
            (out.new.items ≡ out.old.items ++ ended marking.now (cells_of self.old)) }
        ensures none { OnOk result (self.new ≡ blank) }
    {
        self.take_text(marking, out)?;
        out.push(b'\n')?;
        Ok(())
    }

    /// Does a step where characters are put so, and appends the lines that are over with it.
    fn act(
        &mut self,
        pen: &Pen,
        step: &Step,
        marking: &Marking,
        out: &mut Vec<u8>,
    ) -> Result<(), AllocError>
        ensures { OnOk result (Does marking.now (does most pen.now step.now self.old)
            self.new out.old.items out.new.items) }
    {
        match *step {
            Step::Column(column) => self.go(column.saturating_sub(1) as usize),
            Step::Right(count) => self.right(count as usize),
            Step::Left(count) => self.back(count as usize),
            Step::Tabs(count) => {
                let behind = self.column() % 8;
                self.right((8 * (count as usize)).saturating_sub(behind))
            }
            Step::TabsBack(count) => {
                let behind = self.column().saturating_sub(1) % 8;
                self.back(behind + (8 * (count as usize)).saturating_sub(7))
            }
            Step::Restore if pen.here => self.go(pen.saved),
            Step::Restore => self.go_on(pen.saved, marking, out),
            Step::Row(row, None) if pen.is_in(row) => Ok(()),
            Step::Row(row, Some(column)) if pen.is_in(row) => {
                self.go(column.saturating_sub(1) as usize)
            }
            Step::Row(_, to) | Step::Leave(to) => {
                let column = self.target(to);
                self.go_on(column, marking, out)
            }
            Step::NewLine => self.end(marking, out),
            Step::Tab if self.line.has_right(self.to) => {
                self.forward(width('\t', self.column()))
            }
            Step::Tab => {
                self.line.settle(self.to)?;
                self.to = None;
                self.line.put(pen, '\t', marking, out)
            }
            Step::Save | Step::Inserts(_) | Step::Reset => Ok(()),
            _ => {
                self.line.enter(self.to, step, marking, out)?;
                self.to = None;
                self.line.act(pen, step, marking, out)
            }
        }
    }

    /// Does a step, and behind it characters are put as `pen` says then.
    #[inline(always)]
    fn take(
        &mut self,
        pen: &mut Pen,
        step: &Step,
        marking: &Marking,
        out: &mut Vec<u8>,
    ) -> Result<(), AllocError>
        ensures does { OnOk result (Does marking.now (does most pen.old step.now self.old)
            self.new out.old.items out.new.items) }
        ensures pen { OnOk result (pen.new ≡ pen_behind pen.old step.now (columns self.old.left)) }
    {
        match *step {
            Step::Other => pen.last = None,
            Step::Attribute(attribute) => {
                pen.last = None;
                pen.look.set(&attribute);
            }
            _ => {
                let column = self.column();
                self.act(pen, step, marking, out)?;
                pen.take(*step, column);
            }
        }
        Ok(())
    }

    /// Does the steps in turn.
    #[inline(always)]
    pub fn take_all(
        &mut self,
        pen: &mut Pen,
        steps: &[Step],
        marking: &Marking,
        out: &mut Vec<u8>,
    ) -> Result<(), AllocError>
        ensures { OnOk result (DoesAll marking.now steps.now
            pen.old pen.new self.old self.new out.old.items out.new.items) }
    {
        let mut rest = steps;
        while let Some((step, behind)) = rest.split_first() {
            self.take(pen, step, marking, out)?;
            rest = behind;
        }
        Ok(())
    }

    /// Puts the characters in front at once that take one cell each and come behind all that stands there, and answers the others.
    #[inline(always)]
    #[tactic(auto, using(crate::proofs::Stays::none_run, std::proofs::lemmas::List::nil_from_length))]
    fn put_run<'a>(&mut self, pen: &mut Pen, text: &'a [u8]) -> Result<&'a [u8], AllocError>
        requires { AllByRecursion IsLineByte text.now }
        ensures { IfOk result
            (λ rest. PutsRun most pen.old self.old text.now rest.now pen.new self.new) }
    {
        if pen.inserts || self.line.has_right(self.to) {
            return Ok(text);
        }
        self.line.settle(self.to)?;
        self.to = None;
        self.line.put_run(pen, text)
    }

    /// Does the steps of text of ASCII without a control but tabs.
    pub fn put_text(
        &mut self,
        pen: &mut Pen,
        text: &[u8],
        marking: &Marking,
        out: &mut Vec<u8>,
    ) -> Result<(), AllocError>
        requires { AllByRecursion IsLineByte text.now }
        ensures { OnOk result (DoesAll marking.now (of_chars text.now)
            pen.old pen.new self.old self.new out.old.items out.new.items) }
    {
        let mut rest = self.put_run(pen, text)?;
        while let Some((byte, behind)) = rest.split_first() {
            self.take(pen, &char_step(*byte as char), marking, out)?;
            rest = self.put_run(pen, behind)?;
        }
        Ok(())
    }
}
