//! How rows move between the margins, and what is done to the cells of rows.
ghost use Rattle.std.specs.Prelude.{◌≡◌, OnOk};
ghost use Rattle.csicodec_screen.specs.Rows.{cleared, columns_moved, in_line, index, is_beside, is_inside, is_kept, is_wide_open, kept, over, scrolled, scrolled_down, scrolled_up, spared};
ghost use Rattle.csicodec_screen.specs.Private.Changes.{changed};

use crate::cell::Cell;
use crate::cells::Change;
use crate::rows::Area;
use crate::screen::Screen;
use std::alloc::AllocError;

impl Screen {
    /// Whether left and right margins are the edges of the screen.
    pub(crate) fn is_wide_open(&self) -> bool
        ensures { result ≡ is_wide_open self.now }
    {
        self.margins.left == 0 && self.margins.right as usize + 1 == self.columns as usize
    }

    /// Whether the cursor is within left and right margins.
    pub(crate) fn is_beside(&self) -> bool
        ensures { result ≡ is_beside self.now }
    {
        self.margins.left <= self.column && self.column <= self.margins.right
    }

    /// Whether the cursor is within all margins.
    pub(crate) fn is_inside(&self) -> bool
        ensures { result ≡ is_inside self.now }
    {
        self.is_beside() && (self.margins.top <= self.row && self.row <= self.margins.bottom)
    }

    /// Whether rows that leave at the top are kept.
    fn is_kept(&self) -> bool
        ensures { result ≡ is_kept self.now }
    {
        !self.alternate && (self.margins.top == 0 && self.is_wide_open())
    }

    /// Rows from this one to the bottom margin move up or down by so many, and blank ones come in.
    pub(crate) fn scroll(&mut self, upward: bool, count: u32, top: u32) -> Result<(), AllocError>
        ensures { OnOk result (self.new ≡ scrolled upward count top self.old) }
    {
        let (from, to) = (top as usize, self.margins.bottom as usize + 1);
        let blank = self.blank();
        if self.is_wide_open() {
            self.grid.scroll(upward, from, to, count as usize, blank)?;
            self.wrapped.scroll(upward, count as usize, from, to);
            return Ok(());
        }
        let area = Area {
            top: from,
            first: self.margins.left as usize,
            bottom: to,
            last: self.margins.right as usize + 1,
        };
        let empty = Cell::Empty(self.background());
        self.grid.scroll_parts(upward, count as usize, area, empty)
    }

    /// So many rows in front are kept, if rows that leave at the top are.
    fn keep(&mut self, count: u32) -> Result<(), AllocError>
        ensures { OnOk result (self.new ≡ kept count self.old) }
    {
        if !self.is_kept() {
            return Ok(());
        }
        let most = self.margins.bottom as usize + 1;
        let leaving = self.grid.as_slice();
        self.back.keep(leaving, most.min(count as usize), self.room)
    }

    /// All rows between the margins move up, as for LF and SU.
    pub(crate) fn scroll_up(&mut self, count: u32) -> Result<(), AllocError>
        ensures { OnOk result (self.new ≡ scrolled_up count self.old) }
    {
        let top = self.margins.top;
        self.keep(count)?;
        self.scroll(true, count, top)
    }

    /// All rows between the margins move down.
    pub(crate) fn scroll_down(&mut self, count: u32) -> Result<(), AllocError>
        ensures { OnOk result (self.new ≡ scrolled_down count self.old) }
    {
        let top = self.margins.top;
        self.scroll(false, count, top)
    }

    /// IND: one row down, and at the bottom margin all move up. The column stays, and so does a pending wrap.
    pub(crate) fn index(&mut self) -> Result<(), AllocError>
        ensures { OnOk result (self.new ≡ index self.old) }
    {
        if self.row != self.margins.bottom {
            let last = self.rows.saturating_sub(1);
            self.row = self.row.saturating_add(1).min(last);
            return Ok(());
        }
        if self.is_beside() {
            return self.scroll_up(1);
        }
        Ok(())
    }

    /// This is done to the cells of rows from one to another.
    pub(crate) fn change(&mut self, area: Area, change: &Change)
        ensures { self.new ≡ over area.top area.bottom (changed change.now area.first area.last) self.old }
    {
        self.grid.change(area, change);
    }

    /// This is done to the cells of the cursor's row.
    pub(crate) fn change_line(&mut self, change: &Change, from: usize, to: usize)
        ensures { self.new ≡ in_line (changed change.now from to) self.old }
    {
        let row = self.row as usize;
        let area = Area {
            top: row,
            first: from,
            bottom: row + 1,
            last: to,
        };
        self.change(area, change);
    }

    /// Rows from one to another are blank and of single width.
    pub(crate) fn clear(&mut self, from: usize, to: usize) -> Result<(), AllocError>
        ensures { OnOk result (self.new ≡ cleared from to self.old) }
    {
        let blank = self.blank();
        self.grid.reset(from, to, blank)?;
        self.wrapped.reset(from, to);
        Ok(())
    }

    /// Rows from one to another are empty but for what is protected.
    pub(crate) fn spare(&mut self, from: usize, to: usize)
        ensures { self.new ≡ spared from to self.old }
    {
        let area = Area {
            top: from,
            first: 0,
            bottom: to,
            last: self.columns as usize,
        };
        self.change(area, &Change::Empty(true, self.background()));
    }

    /// SL, SR, DECIC and DECDC: the columns from this one to the right margin move, in the rows between the margins.
    pub(crate) fn move_columns(&mut self, leftward: bool, count: usize, column: u32)
        ensures { self.new ≡ columns_moved leftward count column self.old }
    {
        let area = Area {
            top: self.margins.top as usize,
            first: column as usize,
            bottom: self.margins.bottom as usize + 1,
            last: self.margins.right as usize + 1,
        };
        let background = self.background();
        if leftward {
            self.change(area, &Change::Delete(background, count));
        } else {
            self.change(area, &Change::Insert(background, count));
        }
    }
}
