//! The state of a terminal's screen. Rows and columns are counted from 0.
ghost use Rattle.std.specs.Prelude.{◌≡◌, IfOk};
ghost use Rattle.csicodec_screen.specs.{Screen.blank_row, Screen.edge, Screen.fresh, Screen.last_column, Screen.last_of, Screen.background, Private.Changes.row_of};

use crate::cell::Cell;
use crate::flags::Flags;
use crate::kept::{Back, Links, TitleStack};
use crate::look::Pen;
use crate::rows::{Rows, Size, Uniform};
use crate::sets::Sets;
use crate::state::{Margins, Modes, Saved, Titles};
use csicodec_base::ColorSpec;
use std::alloc::{AllocError, Global};

/// A terminal's screen.
#[derive(Drop)]
pub struct Screen {
    pub(crate) rows: u32,
    pub(crate) columns: u32,
    /// The rows that are shown.
    pub(crate) grid: Rows,
    /// Whether the text of each goes on in the next.
    pub(crate) wrapped: Flags,
    /// The rows of the other screen.
    pub(crate) other: Rows,
    pub(crate) other_wrapped: Flags,
    /// Whether the alternate screen is shown.
    pub(crate) alternate: bool,
    /// The saved cursor of the screen that is shown.
    pub(crate) saved: Saved,
    pub(crate) other_saved: Saved,
    pub(crate) row: u32,
    pub(crate) column: u32,
    /// The last column was written, and the next character goes to the next row (DEC STD 070: the last column flag).
    pub(crate) pending: bool,
    pub(crate) pen: Pen,
    pub(crate) links: Links,
    pub(crate) margins: Margins,
    pub(crate) modes: Modes,
    /// Whether a tab stop is at a column.
    pub(crate) stops: Flags,
    pub(crate) sets: Sets,
    pub(crate) titles: Titles,
    pub(crate) stack: TitleStack,
    /// The character directly in front, which REP repeats.
    pub(crate) last: Option<char>,
    pub(crate) back: Back,
    /// How many rows that left at the top are kept.
    pub(crate) room: usize,
}

/// The last column of a row of so many.
fn last_of(columns: u32, size: Size) -> u32
    ensures { result ≡ last_of columns size }
{
    match size {
        Size::Single => columns.saturating_sub(1),
        Size::DoubleWidth | Size::UpperHalf | Size::LowerHalf => (columns / 2).saturating_sub(1),
    }
}

impl Screen {
    /// A screen of so many rows and columns on which nothing was written, and of whose rows that leave at the top so many are kept.
    pub fn new(alloc: Global, rows: u32, columns: u32, room: usize) -> Result<Screen, AllocError>
        ensures { IfOk result (λ screen. screen ≡ fresh rows columns room) }
    {
        let blank = Uniform {
            columns: columns as usize,
            cell: Cell::Empty(ColorSpec::Default),
        };
        Ok(Screen {
            rows,
            columns,
            grid: Rows::uniform(alloc, rows as usize, blank)?,
            wrapped: Flags::clear(alloc, rows as usize)?,
            other: Rows::uniform(alloc, rows as usize, blank)?,
            other_wrapped: Flags::clear(alloc, rows as usize)?,
            alternate: false,
            saved: Saved::none(),
            other_saved: Saved::none(),
            row: 0,
            column: 0,
            pending: false,
            pen: Pen::plain(),
            links: Links::none(alloc),
            margins: Margins::whole(rows, columns),
            modes: Modes::first(),
            stops: Flags::eighths(alloc, columns as usize)?,
            sets: Sets::first(),
            titles: Titles::none(alloc),
            stack: TitleStack::none(alloc),
            last: None,
            back: Back::none(alloc),
            room,
        })
    }

    /// The background that blanks have.
    pub(crate) fn background(&self) -> ColorSpec
        ensures { result ≡ background self.now }
    {
        self.pen.look.background
    }

    /// What a blank row is.
    pub(crate) fn blank(&self) -> Uniform
        ensures { row_of result ≡ blank_row (background self.now) self.now.columns }
    {
        Uniform {
            columns: self.columns as usize,
            cell: Cell::Empty(self.background()),
        }
    }

    /// The last column of the cursor's row.
    pub(crate) fn last_column(&self) -> u32
        ensures { result ≡ last_column self.now }
    {
        last_of(self.columns, self.grid.size_at(self.row as usize))
    }

    /// How far a character goes: to the right margin, or from beyond it to the last column.
    pub(crate) fn edge(&self) -> u32
        ensures { result ≡ edge self.now }
    {
        let last = self.last_column();
        if self.margins.right < self.column {
            last
        } else {
            self.margins.right.min(last)
        }
    }
}
