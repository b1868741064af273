//! How the cursor moves.
ghost use Rattle.std.specs.Prelude.{◌≡◌, min};
ghost use Rattle.csicodec_screen.specs.Draws.{down, highest, left, leftmost, lowest, return, right, tab, tab_back, up};
ghost use Rattle.csicodec_screen.specs.Screen.{at, go, place};

use crate::screen::Screen;

/// A place that is no further than this one.
pub(crate) fn at_most(place: usize, last: u32) -> u32
    ensures { result ≡ min place last }
{
    place.min(last as usize) as u32
}

impl Screen {
    /// To a place; no wrap is pending there.
    pub(crate) fn at(&mut self, row: u32, column: u32)
        ensures { self.new ≡ at row column self.old }
    {
        self.row = row;
        self.column = column;
        self.pending = false;
    }

    /// To a place, and no further than the screen.
    pub(crate) fn go(&mut self, row: usize, column: usize)
        ensures { self.new ≡ go row column self.old }
    {
        self.at(
            at_most(row, self.rows.saturating_sub(1)),
            at_most(column, self.columns.saturating_sub(1)),
        );
    }

    /// To a place, which with the origin on is counted from the margins' corner, and is no further than their other one (DECOM).
    pub(crate) fn place(&mut self, row: usize, column: usize)
        ensures { self.new ≡ place row column self.old }
    {
        let margins = self.margins;
        if self.modes.origin {
            self.at(
                at_most((margins.top as usize).saturating_add(row), margins.bottom),
                at_most(
                    (margins.left as usize).saturating_add(column),
                    margins.right,
                ),
            );
        } else {
            self.go(row, column);
        }
    }

    /// The first row to which the cursor moves from where it is.
    fn highest(&self) -> u32
        ensures { result ≡ highest self.now }
    {
        if self.margins.top <= self.row {
            self.margins.top
        } else {
            0
        }
    }

    /// The last row to which the cursor moves from where it is.
    fn lowest(&self) -> u32
        ensures { result ≡ lowest self.now }
    {
        if self.row <= self.margins.bottom {
            self.margins.bottom
        } else {
            self.rows.saturating_sub(1)
        }
    }

    /// The first column to which the cursor moves from where it is.
    fn leftmost(&self) -> u32
        ensures { result ≡ leftmost self.now }
    {
        if self.margins.left <= self.column {
            self.margins.left
        } else {
            0
        }
    }

    /// CUU: so many rows up.
    pub(crate) fn up(&mut self, count: u32)
        ensures { self.new ≡ up count self.old }
    {
        let highest = self.highest();
        self.at(self.row.saturating_sub(count).max(highest), self.column);
    }

    /// CUD: so many rows down.
    pub(crate) fn down(&mut self, count: u32)
        ensures { self.new ≡ down count self.old }
    {
        let lowest = self.lowest();
        self.at(self.row.saturating_add(count).min(lowest), self.column);
    }

    /// CUB: so many columns to the left.
    pub(crate) fn left(&mut self, count: u32)
        ensures { self.new ≡ left count self.old }
    {
        let leftmost = self.leftmost();
        self.at(self.row, self.column.saturating_sub(count).max(leftmost));
    }

    /// CUF: so many columns to the right.
    pub(crate) fn right(&mut self, count: u32)
        ensures { self.new ≡ right count self.old }
    {
        let edge = self.edge();
        self.at(self.row, self.column.saturating_add(count).min(edge));
    }

    /// CR: to the left margin, or from ahead of it to column 0.
    pub(crate) fn carriage_return(&mut self)
        ensures { self.new ≡ return self.old }
    {
        let leftmost = self.leftmost();
        if self.modes.origin {
            self.at(self.row, self.margins.left);
        } else {
            self.at(self.row, leftmost);
        }
    }

    /// HT: to the next tab stop, and no further than the edge. A pending wrap stays.
    pub(crate) fn tab(&mut self)
        ensures { self.new ≡ tab self.old }
    {
        let edge = self.edge() as usize;
        let next = self.column as usize + 1;
        let stop = next.saturating_add(self.stops.count_to(next));
        self.column = stop.min(edge) as u32;
    }

    /// CBT: to the tab stop in front, or to column 0.
    pub(crate) fn tab_back(&mut self)
        ensures { self.new ≡ tab_back self.old }
    {
        let stop = self.stops.last_ahead(self.column as usize);
        self.at(self.row, stop as u32);
    }
}
