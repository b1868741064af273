//! What stands in one cell of a screen.
ghost use Rattle.std.specs.Prelude.{◌≡◌, ◌||◌, ◌&&◌, if◌then◌else◌};
ghost use Rattle.csicodec_screen.specs.Cells.{bare, cell_with, first_half, glyph_marked, glyph_with, is_behind, is_protected, is_wide, marked, second_half};
ghost use Rattle.csicodec_screen.specs.{declared.cell.Cell.TheVariants.Empty, Private.Changes.look_behind};

use crate::attributes::change_attributes;
use crate::look::Pen;
use csicodec_base::{ColorSpec, Cracked};

/// A character has no more marks.
pub const MARKS: usize = 8;

/// A character, and the marks that join it.
#[derive(Clone, Copy, PartialEq, Eq, Debug)]
pub struct Glyph {
    pub char: char,
    /// The first `count` of these are its marks, and the others are U+0000.
    pub marks: [char; MARKS],
    pub count: u8,
    /// What it is drawn with.
    pub pen: Pen,
}

impl Glyph {
    /// A character to which no mark is joined.
    pub fn bare(char: char, pen: Pen) -> Glyph
        ensures { result ≡ bare char pen }
    {
        Glyph {
            char,
            marks: ['\0'; MARKS],
            count: 0,
            pen,
        }
    }

    /// One more mark joins it, if it has fewer than eight.
    fn marked(mut self, mark: char) -> Glyph
        ensures { result ≡ glyph_marked mark self }
    {
        if self.count < 8 {
            self.marks[self.count as usize] = mark;
            self.count += 1;
        }
        self
    }

    /// How it looks is set, or turned over.
    fn with_attributes(mut self, turns: bool, fields: &Cracked) -> Glyph
        ensures { result ≡ glyph_with (look_behind turns fields.now) self }
    {
        self.pen.look = change_attributes(turns, fields, self.pen.look);
        self
    }
}

/// What stands in a cell.
#[derive(Clone, Copy, PartialEq, Eq, Debug)]
pub enum Cell {
    /// Nothing, on this background.
    Empty(ColorSpec),
    /// A character of one column.
    Char(Glyph),
    /// The first column of a character of two.
    Wide(Glyph),
    /// The second column of that character.
    Behind,
}

impl Cell {
    /// Whether it is the second column of a character.
    pub fn is_behind(self) -> bool
        ensures { result ≡ is_behind self }
    {
        matches!(self, Cell::Behind)
    }

    /// Whether it is the first column of a character of two.
    pub fn is_wide(self) -> bool
        ensures { result ≡ is_wide self }
    {
        matches!(self, Cell::Wide(_))
    }

    /// Whether it stays where only what is unprotected is erased.
    pub fn is_protected(self) -> bool
        ensures { result ≡ is_protected self }
    {
        match self {
            Cell::Char(glyph) | Cell::Wide(glyph) => glyph.pen.protected,
            Cell::Empty(_) | Cell::Behind => false,
        }
    }

    /// What is left in front where a character is cut in two behind this cell: a space that looks so.
    pub(crate) fn first_half(self) -> Cell
        ensures { result ≡ first_half self }
    {
        match self {
            Cell::Wide(glyph) => Cell::Char(Glyph::bare(' ', glyph.pen)),
            _ => self,
        }
    }

    /// What is left behind it.
    pub(crate) fn second_half(self) -> Cell
        ensures { result ≡ second_half self }
    {
        match self {
            Cell::Wide(glyph) => Cell::Char(Glyph::bare(' ', glyph.pen)),
            _ => Cell::Empty(ColorSpec::Default),
        }
    }

    /// It is empty, unless it is protected, or stands behind a cell that is.
    pub(crate) fn spared(self, keeps: bool, background: ColorSpec) -> Cell
        ensures { result ≡ (if is_protected self || (keeps && is_behind self) then self else Empty background) }
    {
        if self.is_protected() || (keeps && self.is_behind()) {
            self
        } else {
            Cell::Empty(background)
        }
    }

    /// A mark joins its character.
    pub(crate) fn marked(self, mark: char) -> Cell
        ensures { result ≡ marked mark self }
    {
        match self {
            Cell::Char(glyph) => Cell::Char(glyph.marked(mark)),
            Cell::Wide(glyph) => Cell::Wide(glyph.marked(mark)),
            Cell::Empty(_) | Cell::Behind => self,
        }
    }

    /// How its character looks is set, or turned over.
    pub(crate) fn with_attributes(self, turns: bool, fields: &Cracked) -> Cell
        ensures { result ≡ cell_with (look_behind turns fields.now) self }
    {
        match self {
            Cell::Char(glyph) => Cell::Char(glyph.with_attributes(turns, fields)),
            Cell::Wide(glyph) => Cell::Wide(glyph.with_attributes(turns, fields)),
            Cell::Empty(_) | Cell::Behind => self,
        }
    }
}
