//! What stands in a line, cell by cell.
ghost use Rattle.std.specs.Prelude.{◌≡◌, ◌≤◌, ◌*◌, ◌+◌, ◌-◌, ◌++◌, ◌∷◌, [], drop, false, OnOk, MatchOption, length, replicate, reverse, take, vec_capacity, vec_len};
ghost use Rattle.std.specs.List.{list_all};
ghost use Rattle.csicodec_looks.specs.Cells.{begins_behind, belongs, columns, emptied, erased, gone, is_blank, is_empty, of_tab, onto, outside, shifted, takes, trimmed, untabbed, without};
ghost use Rattle.csicodec_looks.specs.{Line.line, Line.over, declared.cells.Cell.TheVariants.Empty, Plain.glyphs, Sides.passed, Sides.put_many};

use crate::look::Look;
use std::alloc::{AllocError, Global};
use std::marker::Model;

/// A character, and how it looked when it was written.
#[derive(Clone, Copy)]
pub struct Glyph {
    pub char: char,
    pub look: Look,
}

/// What stands in a line.
#[derive(Clone, Copy)]
pub enum Cell {
    /// A column on which nothing stands: it was never written, or it is erased.
    Empty,
    /// The first column of a character.
    Char(Glyph),
    /// A further column of the character before it.
    Behind,
    /// A character that takes no column, and goes with the column before it.
    Mark(char),
}

impl Cell {
    /// How many columns it takes: 1, and a mark none.
    pub(crate) fn takes(self) -> usize
        ensures value { result ≡ takes self }
    {
        match self {
            Cell::Empty | Cell::Char(_) | Cell::Behind => 1,
            Cell::Mark(_) => 0,
        }
    }

    /// Whether nothing stands there.
    pub(crate) fn is_empty(self) -> bool
        ensures { result ≡ is_empty self }
    {
        matches!(self, Cell::Empty)
    }

    /// Whether it is a blank, whatever it looks like: nothing, a space, or a column of a tab.
    fn is_blank(&self) -> bool
        ensures { result ≡ is_blank self.now }
    {
        match self {
            Cell::Empty | Cell::Behind => true,
            Cell::Char(glyph) => glyph.char == ' ' || glyph.char == '\t',
            Cell::Mark(_) => false,
        }
    }

    /// Whether it is a tab or belongs to one, behind a cell that is or does so, or behind another.
    fn is_of_tab(self, behind: bool) -> bool
        ensures { result ≡ of_tab behind self }
    {
        match self {
            Cell::Empty => false,
            Cell::Char(glyph) => glyph.char == '\t',
            Cell::Behind | Cell::Mark(_) => behind,
        }
    }

    /// An empty column in place of one of a tab.
    fn untabbed(self, tab: bool) -> Cell
        ensures { result ≡ untabbed tab self }
    {
        match self {
            Cell::Char(_) | Cell::Behind if tab => Cell::Empty,
            _ => self,
        }
    }

    /// Whether it belongs to the character before it.
    pub(crate) fn belongs(self) -> bool
        ensures { result ≡ belongs self }
    {
        match self {
            Cell::Behind | Cell::Mark(_) => true,
            Cell::Empty | Cell::Char(_) => false,
        }
    }
}

/// Appends characters, in turn, which look so. There is room for them.
fn append_glyphs(cells: &mut Vec<Cell>, run: &[u8], look: Look)
    requires { vec_len cells.old + length run.now ≤ vec_capacity cells.old }
    ensures { cells.new.items ≡ cells.old.items ++ glyphs look run.now }
{
    for byte in run {
        let char = char::from(*byte);
        cells.push_reserved(Cell::Char(Glyph { char, look }));
    }
}

/// Appends cells, the last of them first, four at once, and answers those in front that are fewer. There is room for all.
fn append_fours<'a>(cells: &mut Vec<Cell>, near: &'a [Cell]) -> &'a [Cell]
    requires { vec_len cells.old + length near.now ≤ vec_capacity cells.old }
    ensures come { cells.new.items ++ reverse result.now ≡ cells.old.items ++ reverse near.now }
    ensures room { vec_len cells.new + length result.now ≤ vec_capacity cells.new }
{
    let mut rest = near;
    // A processor that reads a cell where it wrote it waits, and so it waits once for four.
    while let Some((front, [first, second, third, last])) = rest.split_last_chunk::<4>() {
        let (first, second, third, last) = (*first, *second, *third, *last);
        cells.push_reserved(last);
        cells.push_reserved(third);
        cells.push_reserved(second);
        cells.push_reserved(first);
        rest = front;
    }
    rest
}

/// Appends cells, the last of them first. There is room for them.
fn append_back(cells: &mut Vec<Cell>, near: &[Cell])
    requires { vec_len cells.old + length near.now ≤ vec_capacity cells.old }
    ensures { cells.new.items ≡ cells.old.items ++ reverse near.now }
{
    let mut rest = append_fours(cells, near);
    while let Some((cell, front)) = rest.split_last() {
        cells.push_reserved(*cell);
        rest = front;
    }
}

/// Appends a character of two columns, so many times. There is room for all.
fn append_wide(cells: &mut Vec<Cell>, glyph: Glyph, count: usize)
    requires { vec_len cells.old + 2 * count ≤ vec_capacity cells.old }
    ensures { reverse cells.new.items ≡ put_many glyph 2 count (reverse cells.old.items) }
{
    for _i in 0..count {
        cells.push_reserved(Cell::Char(glyph));
        cells.push_reserved(Cell::Behind);
    }
}

/// How many of the last cells are passed over so many columns, and with `marks` those of no column behind them.
#[inline(always)]
fn passed(cells: &[Cell], count: usize, marks: bool) -> usize
    ensures { result ≡ passed marks count (reverse cells.now) }
{
    let (mut rest, mut left) = (cells, count);
    while let Some((cell, front)) = rest.split_last() {
        let least = if marks { cell.takes() } else { 1 };
        if left < least {
            return cells.len() - rest.len();
        }
        left = left.saturating_sub(cell.takes());
        rest = front;
    }
    cells.len()
}

/// Empties the columns of tabs.
fn empty_tabs(cells: &mut Vec<Cell>)
    ensures { reverse cells.new.items ≡ shifted false (reverse cells.old.items) }
{
    let mut at = cells.len();
    let mut tab = false;
    while at > 0 {
        at -= 1;
        tab = cells[at].is_of_tab(tab);
        if tab {
            cells[at] = cells[at].untabbed(true);
        }
    }
}

/// The cells on one side of the cursor. Contracts see them with the nearest first.
#[derive(Drop)]
pub(crate) struct Side {
    /// The nearest is the last.
    cells: Vec<Cell>,
    /// How many columns they take.
    width: usize,
}

impl Model for Side {
    ghost use Rattle.std.specs.Prelude.{◌≡◌, List, reverse};
    ghost use Rattle.csicodec_looks.specs.Cells.{columns};
    ghost use Rattle.csicodec_looks.specs.declared.cells.Cell.{Cell as CellOf};

    ghost Value = { List CellOf };

    ghost view = { λ s. reverse s.cells.items };

    ghost invariant = { λ s. s.width ≡ columns (reverse s.cells.items) };
}

impl Side {
    /// No cells.
    pub(crate) fn new(alloc: Global) -> Side
        ensures { result ≡ [] }
    {
        Side {
            cells: Vec::new(alloc),
            width: 0,
        }
    }

    /// How many cells there are.
    pub(crate) fn len(&self) -> usize
        ensures { result ≡ length self.now }
    {
        self.cells.len()
    }

    /// How many columns they take.
    pub(crate) fn columns(&self) -> usize
        ensures { result ≡ columns self.now }
    {
        self.width
    }

    /// Whether a further column of a character stands nearest.
    pub(crate) fn begins_behind(&self) -> bool
        ensures { result ≡ begins_behind self.now }
    {
        matches!(self.cells.last(), Some(Cell::Behind))
    }

    /// The nearest cell, which stays.
    pub(crate) fn nearest(&self) -> Option<Cell>
        ensures { MatchOption result (self.now ≡ [])
            (λ cell. (others : _) × (self.now ≡ cell ∷ others)) }
    {
        self.cells.last().copied()
    }

    /// All cells, the farthest first.
    #[tactic(auto, using(crate::proofs::Moved::farthest))]
    pub(crate) fn from_farthest(&self) -> &[Cell]
        ensures { result.now ≡ onto self.now [] }
    {
        &self.cells
    }

    /// Whether no more than blanks stands there.
    #[tactic(auto, using(crate::proofs::Moved::nearest_shows))]
    pub(crate) fn shows_nothing(&self) -> bool
        ensures { result ≡ list_all is_blank (onto self.now []) }
    {
        // The nearest mostly isn't one.
        if let Some(cell) = self.nearest()
            && !cell.is_blank()
        {
            return false;
        }
        self.from_farthest().iter().all(Cell::is_blank)
    }

    /// Puts a cell nearest.
    pub(crate) fn push(&mut self, cell: Cell) -> Result<(), AllocError>
        ensures { OnOk result (self.new ≡ cell ∷ self.old) }
    {
        let Some(width) = self.width.checked_add(cell.takes()) else {
            return Err(AllocError);
        };
        self.cells.push(cell)?;
        self.width = width;
        Ok(())
    }

    /// Takes the nearest cell.
    pub(crate) fn pop(&mut self) -> Option<Cell>
        ensures { MatchOption result ((self.old ≡ []) × (self.new ≡ []))
            (λ cell. self.old ≡ cell ∷ self.new) }
    {
        let cell = self.cells.pop()?;
        self.width -= cell.takes();
        Some(cell)
    }

    /// Takes all.
    pub(crate) fn clear(&mut self)
        ensures { self.new ≡ [] }
    {
        self.cells.clear();
        self.width = 0;
    }

    /// Gives so many of the nearest cells to another side, which take so many columns.
    fn give(&mut self, to: &mut Side, count: usize, wide: usize) -> Result<(), AllocError>
        requires few { count ≤ length self.old }
        requires wide { columns (take count self.old) ≡ wide }
        ensures kept { OnOk result (self.new ≡ drop count self.old) }
        ensures given { OnOk result (to.new ≡ onto (take count self.old) to.old) }
    {
        let Some(width) = to.width.checked_add(wide) else {
            return Err(AllocError);
        };
        let kept = self.cells.len() - count;
        let near = self.cells.split_at(kept).1;
        to.cells.reserve(near.len())?;
        append_back(&mut to.cells, near);
        to.width = width;
        self.cells.truncate(kept);
        self.width -= wide;
        Ok(())
    }

    /// Gives all cells to another side.
    pub(crate) fn give_all(&mut self, to: &mut Side) -> Result<(), AllocError>
        ensures cells { OnOk result (to.new ≡ onto self.old to.old) }
        ensures none { OnOk result (self.new ≡ []) }
    {
        let (count, wide) = (self.cells.len(), self.width);
        self.give(to, count, wide)
    }

    /// Gives so many columns to another side, and with `marks` what stands behind them and takes none.
    #[tactic(auto, using(crate::proofs::Moved::passed_few, crate::proofs::Moved::passed_columns))]
    pub(crate) fn pass(
        &mut self,
        to: &mut Side,
        count: usize,
        marks: bool,
    ) -> Result<(), AllocError>
        ensures kept { OnOk result (self.new ≡ drop (passed marks count self.old) self.old) }
        ensures given { OnOk result (to.new ≡ onto (take (passed marks count self.old) self.old) to.old) }
    {
        let cells = passed(&self.cells, count, marks);
        let wide = count.min(self.width);
        self.give(to, cells, wide)
    }

    /// Puts a run of characters nearest, which look so, in turn.
    #[tactic(auto, using(crate::proofs::Moved::side_more, crate::proofs::Moved::side_columns, crate::proofs::Moved::columns_glyphs))]
    pub(crate) fn push_run(&mut self, run: &[u8], look: Look) -> Result<(), AllocError>
        ensures { OnOk result (self.new ≡ onto (glyphs look run.now) self.old) }
    {
        let Some(width) = self.width.checked_add(run.len()) else {
            return Err(AllocError);
        };
        self.cells.reserve(run.len())?;
        append_glyphs(&mut self.cells, run, look);
        self.width = width;
        Ok(())
    }

    /// Puts so many of the same cell nearest, which is no mark.
    #[tactic(auto, using(crate::proofs::Moved::columns_more, crate::proofs::Moved::reverse_more))]
    pub(crate) fn push_many(&mut self, cell: Cell, count: usize) -> Result<(), AllocError>
        requires { takes cell ≡ 1 }
        ensures { OnOk result (self.new ≡ replicate count cell ++ self.old) }
    {
        let Some(len) = self.cells.len().checked_add(count) else {
            return Err(AllocError);
        };
        let Some(width) = self.width.checked_add(count) else {
            return Err(AllocError);
        };
        self.cells.resize(len, cell)?;
        self.width = width;
        Ok(())
    }

    /// Puts so many empty columns nearest.
    pub(crate) fn push_empty(&mut self, count: usize) -> Result<(), AllocError>
        ensures { OnOk result (self.new ≡ replicate count Empty ++ self.old) }
    {
        self.push_many(Cell::Empty, count)
    }

    /// Puts a character of two columns nearest, so many times.
    #[tactic(auto, using(crate::proofs::Repeated::many_wide))]
    fn push_wide(&mut self, glyph: Glyph, count: usize) -> Result<(), AllocError>
        ensures { OnOk result (self.new ≡ put_many glyph 2 count self.old) }
    {
        let Some(more) = count.checked_mul(2) else {
            return Err(AllocError);
        };
        let Some(width) = self.width.checked_add(more) else {
            return Err(AllocError);
        };
        self.cells.reserve(more)?;
        append_wide(&mut self.cells, glyph, count);
        self.width = width;
        Ok(())
    }

    /// Puts a character of some columns nearest, so many times.
    #[tactic(auto, using(crate::proofs::Repeated::many_single))]
    pub(crate) fn push_glyphs(
        &mut self,
        glyph: Glyph,
        columns: usize,
        count: usize,
    ) -> Result<(), AllocError>
        ensures { OnOk result (self.new ≡ put_many glyph columns count self.old) }
    {
        if columns == 1 {
            return self.push_many(Cell::Char(glyph), count);
        }
        if columns == 2 {
            return self.push_wide(glyph, count);
        }
        for _i in 0..count {
            self.push(Cell::Char(glyph))?;
            self.push_many(Cell::Behind, columns.saturating_sub(1))?;
        }
        Ok(())
    }

    /// Empties all columns.
    pub(crate) fn empty(&mut self) -> Result<(), AllocError>
        ensures { OnOk result (self.new ≡ replicate (columns self.old) Empty) }
    {
        let count = self.width;
        self.clear();
        self.push_empty(count)
    }

    /// Empties the columns of tabs, since the cells move without the cursor.
    #[tactic(auto, using(crate::proofs::Rows::columns_shifted))]
    pub(crate) fn shift(&mut self)
        ensures { self.new ≡ shifted false self.old }
    {
        empty_tabs(&mut self.cells);
    }

    /// Takes so many columns, as far as there are some.
    #[tactic(auto, using(crate::proofs::Moved::without_zero))]
    pub(crate) fn take_columns(&mut self, count: usize)
        ensures { self.new ≡ without count self.old }
    {
        let mut left = count;
        while left > 0 {
            let Some(cell) = self.pop() else {
                return;
            };
            left = left.saturating_sub(cell.takes());
        }
    }

    /// Takes what belongs to the character before it.
    pub(crate) fn take_belonging(&mut self)
        ensures { self.new ≡ outside self.old }
    {
        while let Some(cell) = self.nearest() {
            if !cell.belongs() {
                return;
            }
            let _taken = self.pop();
        }
    }

    /// Takes empty columns.
    pub(crate) fn trim(&mut self)
        ensures { self.new ≡ trimmed self.old }
    {
        while let Some(cell) = self.nearest() {
            if !cell.is_empty() {
                return;
            }
            let _taken = self.pop();
        }
    }

    /// Empties the columns that are gone, of so many before.
    pub(crate) fn refill(&mut self, before: usize) -> Result<(), AllocError>
        ensures { OnOk result ((cells : _) → before ≡ columns cells → self.new ≡ emptied cells self.old) }
    {
        let gone = before.saturating_sub(self.columns());
        self.push_empty(gone)
    }

    /// Empties the columns of a character that goes on here.
    pub(crate) fn loosen(&mut self) -> Result<(), AllocError>
        ensures { OnOk result (self.new ≡ emptied self.old (outside self.old)) }
    {
        let before = self.columns();
        self.take_belonging();
        self.refill(before)
    }

    /// Empties the columns of a character that ends here.
    pub(crate) fn undo(&mut self) -> Result<(), AllocError>
        ensures { OnOk result (self.new ≡ emptied self.old (without 1 (outside self.old))) }
    {
        let before = self.columns();
        self.take_belonging();
        self.take_columns(1);
        self.refill(before)
    }

    /// Takes out so many columns, and what belongs to them.
    pub(crate) fn delete_columns(&mut self, count: usize) -> Result<(), AllocError>
        ensures { OnOk result (self.new ≡ gone count self.old) }
    {
        self.take_columns(count);
        self.loosen()
    }

    /// Empties so many columns, as far as there are some.
    pub(crate) fn erase_columns(&mut self, count: usize) -> Result<(), AllocError>
        ensures { OnOk result (self.new ≡ erased count self.old) }
    {
        let some = count.min(self.columns());
        self.delete_columns(count)?;
        self.push_empty(some)
    }
}
