//! What each action of the cursor and each edit does to a screen.
ghost use Rattle.std.specs.Prelude.{◌≡◌, OnOk};
ghost use Rattle.csicodec_screen.specs.Acts.{erase, erase_display, erase_line, erase_rows, few, left_and_right, lines_moved, of_clear, of_cursor, of_edit, of_one, or_last, own_column, own_row, restore, save, top_and_bottom, up_to_last, within_margins};
ghost use Rattle.csicodec_screen.specs.{Draws.times, Private.Changes.chars_moved, Private.Changes.tab_once};

use crate::cells::Change;
use crate::moving::at_most;
use crate::screen::Screen;
use crate::state::Saved;
use csicodec_actions::{Cursor, Edit};
use csicodec_base::{EraseInDisplay, EraseInLine, TabulationClear};
use std::alloc::AllocError;

/// A row or a column from 1 on, counted from 0.
fn of_one(number: u32) -> usize
    ensures { result ≡ of_one number }
{
    number.saturating_sub(1) as usize
}

/// A row or a column from 1 on, counted from 0; one that is the last one of so many, or more, is the last.
fn up_to_last(number: usize, count: u32) -> u32
    ensures { result ≡ up_to_last number count }
{
    at_most(number.saturating_sub(1), count.saturating_sub(1))
}

/// A last column, which 0 and 1 can't be.
fn or_last(number: usize, count: u32) -> usize
    ensures { result ≡ or_last number count }
{
    if number <= 1 { count as usize } else { number }
}

impl Screen {
    /// DECSC: the cursor is saved.
    pub(crate) fn save(&mut self)
        ensures { self.new ≡ save self.old }
    {
        self.saved = Saved {
            row: self.row,
            column: self.column,
            pen: self.pen,
            origin: self.modes.origin,
            sets: self.sets,
        };
    }

    /// With the origin on the cursor is within the margins.
    fn keep_within_margins(&mut self)
        ensures { self.new ≡ within_margins self.old }
    {
        if self.modes.origin {
            let margins = self.margins;
            self.at(
                self.row.max(margins.top).min(margins.bottom),
                self.column.max(margins.left).min(margins.right),
            );
        }
    }

    /// DECRC: the cursor is as it was saved.
    pub(crate) fn restore(&mut self)
        ensures { self.new ≡ restore self.old }
    {
        let saved = self.saved;
        self.pen = saved.pen;
        self.sets = saved.sets;
        self.modes.origin = saved.origin;
        self.go(saved.row as usize, saved.column as usize);
        self.keep_within_margins();
    }

    /// DECSTBM: the first row is ahead of the last.
    fn set_rows(&mut self, top: u32, bottom: u32)
        ensures { self.new ≡ top_and_bottom top bottom self.old }
    {
        let (first, last) = (
            top.saturating_sub(1),
            up_to_last(bottom as usize, self.rows),
        );
        if first < last {
            self.margins.top = first;
            self.margins.bottom = last;
            self.place(0, 0);
        }
    }

    /// DECSLRM, where DECLRMM lets it.
    pub(crate) fn set_columns(&mut self, left: usize, right: usize)
        ensures { self.new ≡ left_and_right left right self.old }
    {
        let first = left.saturating_sub(1);
        let last = up_to_last(or_last(right, self.columns), self.columns);
        if self.modes.columns && first < last as usize {
            self.margins.left = first as u32;
            self.margins.right = last;
            self.place(0, 0);
        }
    }

    /// The row by which places are counted.
    fn own_row(&self) -> usize
        ensures { result ≡ own_row self.now }
    {
        if self.modes.origin {
            self.row.saturating_sub(self.margins.top) as usize
        } else {
            self.row as usize
        }
    }

    /// The column by which places are counted.
    fn own_column(&self) -> usize
        ensures { result ≡ own_column self.now }
    {
        if self.modes.origin {
            self.column.saturating_sub(self.margins.left) as usize
        } else {
            self.column as usize
        }
    }

    /// TBC.
    fn clear_stops(&mut self, clear: TabulationClear) -> Result<(), AllocError>
        ensures { OnOk result (self.new ≡ of_clear clear self.old) }
    {
        match clear {
            TabulationClear::ClearCharacterTabStopAtActivePosition => self.stop_at(false),
            TabulationClear::ClearAllCharacterTabStops => {
                self.stops.renew(self.columns as usize)?;
            }
            TabulationClear::ClearLineTabStopAtActiveLine
            | TabulationClear::ClearCharacterTabStopsAtActiveLine
            | TabulationClear::ClearAllLineTabStops
            | TabulationClear::ClearAllTabStops => (),
        }
        Ok(())
    }

    /// To the next tab stop, or to the one in front.
    fn tab_once(&mut self, back: bool)
        ensures { self.new ≡ tab_once back self.old }
    {
        if back {
            self.tab_back();
        } else {
            self.tab();
        }
    }

    /// CHT and CBT: so many tab stops on, or back.
    fn tabs(&mut self, back: bool, count: u32)
        ensures { self.new ≡ times (few count self.old) (tab_once back) self.old }
    {
        let most = count.min(self.columns);
        for _i in 0..most {
            self.tab_once(back);
        }
    }

    /// `CSI s`: with DECLRMM left and right margins are the screen's, and else the cursor is saved.
    fn save_or_widen(&mut self)
        ensures { self.new ≡ of_cursor Cursor.SaveCursor self.old }
    {
        if self.modes.columns {
            self.set_columns(1, self.columns as usize);
        } else {
            self.save();
        }
    }

    /// What a sequence does with the cursor.
    pub(crate) fn move_cursor(&mut self, cursor: &Cursor) -> Result<(), AllocError>
        ensures { OnOk result (self.new ≡ of_cursor cursor.now self.old) }
    {
        match cursor {
            Cursor::Up(count) => self.up(*count),
            Cursor::Down(count) => self.down(*count),
            Cursor::Right(count) => self.right(*count),
            Cursor::Left(count) => self.left(*count),
            Cursor::NextLine(count) => {
                self.down(*count);
                self.carriage_return();
            }
            Cursor::PrecedingLine(count) => {
                self.up(*count);
                self.carriage_return();
            }
            Cursor::CharacterAbsolute(col) | Cursor::CharacterPositionAbsolute(col) => {
                self.place(self.own_row(), of_one(col.as_one_based()));
            }
            Cursor::Position { line, col } | Cursor::CharacterAndLinePosition { line, col } => {
                self.place(of_one(line.as_one_based()), of_one(col.as_one_based()));
            }
            Cursor::LinePositionAbsolute(row) => self.place(of_one(*row), self.own_column()),
            Cursor::CharacterPositionForward(count) => {
                self.place(self.own_row(), self.own_column() + *count as usize);
            }
            Cursor::LinePositionForward(count) => {
                self.place(self.own_row() + *count as usize, self.own_column());
            }
            Cursor::ForwardTabulation(count) => self.tabs(false, *count),
            Cursor::BackwardTabulation(count) => self.tabs(true, *count),
            Cursor::TabulationClear(clear) => self.clear_stops(*clear)?,
            Cursor::SetTopAndBottomMargins { top, bottom } => {
                self.set_rows(top.as_one_based(), bottom.as_one_based());
            }
            Cursor::SetLeftAndRightMargins { left, right } => {
                self.set_columns(left.as_one_based() as usize, right.as_one_based() as usize);
            }
            Cursor::SaveCursor => self.save_or_widen(),
            Cursor::RestoreCursor => self.restore(),
            Cursor::CharacterPositionBackward(_)
            | Cursor::LinePositionBackward(_)
            | Cursor::LineTabulation(_)
            | Cursor::TabulationControl(_)
            | Cursor::ActivePositionReport { .. }
            | Cursor::RequestActivePositionReport
            | Cursor::CursorStyle(_) => (),
        }
        Ok(())
    }

    /// Cells of the cursor's row from one column to another are empty; if it spares, but for what is protected.
    fn erase(&mut self, spares: bool, from: usize, to: usize)
        ensures { self.new ≡ erase spares from to self.old }
    {
        self.change_line(&Change::Empty(spares, self.background()), from, to);
    }

    /// Rows from one to another are.
    fn erase_rows(&mut self, spares: bool, from: usize, to: usize) -> Result<(), AllocError>
        ensures { OnOk result (self.new ≡ erase_rows spares from to self.old) }
    {
        if spares {
            self.spare(from, to);
            return Ok(());
        }
        self.clear(from, to)
    }

    /// EL and DECSEL: nothing to the end of the row where the wrap is pending.
    pub(crate) fn erase_line(&mut self, spares: bool, part: EraseInLine)
        ensures { self.new ≡ erase_line spares part self.old }
    {
        let (column, columns) = (self.column as usize, self.columns as usize);
        match part {
            EraseInLine::EraseToEndOfLine if self.pending && self.modes.autowrap => (),
            EraseInLine::EraseToEndOfLine => self.erase(spares, column, columns),
            EraseInLine::EraseToStartOfLine => self.erase(spares, 0, column + 1),
            EraseInLine::EraseLine => self.erase(spares, 0, columns),
        }
    }

    /// ED and DECSED.
    pub(crate) fn erase_display(
        &mut self,
        spares: bool,
        part: EraseInDisplay,
    ) -> Result<(), AllocError>
        ensures { OnOk result (self.new ≡ erase_display spares part self.old) }
    {
        let (row, rows) = (self.row as usize, self.rows as usize);
        let (column, columns) = (self.column as usize, self.columns as usize);
        match part {
            EraseInDisplay::EraseToEndOfDisplay => {
                self.erase(spares, column, columns);
                self.erase_rows(spares, row + 1, rows)
            }
            EraseInDisplay::EraseToStartOfDisplay => {
                self.erase(spares, 0, column + 1);
                self.erase_rows(spares, 0, row)
            }
            EraseInDisplay::EraseDisplay => self.erase_rows(spares, 0, rows),
            EraseInDisplay::EraseScrollback => {
                self.back.clear();
                Ok(())
            }
        }
    }

    /// IL and DL: within the margins, and then to the left one.
    fn move_lines(&mut self, upward: bool, count: u32) -> Result<(), AllocError>
        ensures { OnOk result (self.new ≡ lines_moved upward count self.old) }
    {
        if self.is_inside() {
            let (row, left) = (self.row, self.margins.left);
            self.scroll(upward, count, row)?;
            self.at(row, left);
        }
        Ok(())
    }

    /// ICH and DCH: within left and right margins.
    fn move_chars(&mut self, change: &Change)
        ensures { self.new ≡ chars_moved change.now self.old }
    {
        if self.is_beside() {
            self.change_line(change, self.column as usize, self.edge() as usize + 1);
        }
    }

    /// What an edit does.
    pub(crate) fn edit(&mut self, edit: &Edit) -> Result<(), AllocError>
        ensures { OnOk result (self.new ≡ of_edit edit.now self.old) }
    {
        match *edit {
            Edit::InsertCharacter(count) => {
                self.move_chars(&Change::Insert(self.background(), count as usize));
            }
            Edit::DeleteCharacter(count) => {
                self.move_chars(&Change::Delete(self.background(), count as usize));
            }
            Edit::InsertLine(count) => self.move_lines(false, count)?,
            Edit::DeleteLine(count) => self.move_lines(true, count)?,
            Edit::EraseCharacter(count) => {
                let column = self.column as usize;
                let to = (column + count as usize).min(self.columns as usize);
                self.erase(false, column, to);
            }
            Edit::ScrollUp(count) => self.scroll_up(count)?,
            Edit::ScrollDown(count) => self.scroll_down(count)?,
            Edit::Repeat(count) => self.repeat_last(count),
            Edit::EraseInDisplay(part) => self.erase_display(false, part)?,
            Edit::EraseInLine(part) => self.erase_line(false, part),
        }
        Ok(())
    }
}
