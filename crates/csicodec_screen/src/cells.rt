//! The cells of a row, and how they are edited. Columns are counted from 0.
ghost use Rattle.std.specs.Prelude.{◌≡◌, OnOk, IfOk, false, replicate};
ghost use Rattle.csicodec_screen.specs.Cells.{between, cell_at, cut, cut_twice, deleted, drawn, emptied, flooded, inserted, joined_by, pasted, unprotected};
ghost use Rattle.csicodec_screen.specs.{Lists.moved, Lists.overlaid, Lists.within, declared.cell.Cell.TheVariants.Empty, Private.Changes.changed};
ghost use Rattle.csicodec_screen.specs.{Private.Changes.look_behind, Areas.attributes_changed};

use crate::cell::{Cell, Glyph};
use crate::list::{fill, part, put, shift};
use csicodec_base::{ColorSpec, Cracked};
use std::alloc::{AllocError, Global};
use std::marker::Model;

/// What is done to the cells of a row from one column to another.
#[derive(Clone, Copy)]
pub(crate) enum Change<'a> {
    /// They are empty, on this background; if the flag is set, but for what is protected.
    Empty(bool, ColorSpec),
    /// So many empty ones come in at the first column, and the others move right.
    Insert(ColorSpec, usize),
    /// So many at the first column are gone, and the others move left.
    Delete(ColorSpec, usize),
    /// Each is this one.
    Flood(Cell),
    /// A character stands there; it has two columns if the flag is set.
    Draw(bool, Glyph),
    /// A mark joins the character that stands at the first column.
    Join(char),
    /// Looks are set by the numbers behind an area, or turned over if the flag is set.
    Attributes(bool, &'a Cracked),
}

/// The cells from one column to another that aren't protected are empty.
fn empty_unprotected(cells: &mut Vec<Cell>, from: usize, to: usize, background: ColorSpec)
    ensures { cells.new.items ≡ within from to (unprotected background false) cells.old.items }
{
    let (start, end) = part(from, to, cells.len());
    let mut keeps = false;
    for i in start..end {
        let cell = cells[i];
        cells[i] = cell.spared(keeps, background);
        keeps = cell.is_protected();
    }
}

/// These are in place of the first cells from one column to another.
fn overlay(cells: &mut Vec<Cell>, new: &[Cell], from: usize, to: usize)
    ensures { cells.new.items ≡ within from to (overlaid new.now) cells.old.items }
{
    let (start, end) = part(from, to, cells.len());
    let mut at = start;
    for cell in new {
        if at >= end {
            return;
        }
        cells[at] = *cell;
        at += 1;
    }
}

/// A copy of the cells from one column to another.
fn copy_part(alloc: Global, cells: &[Cell], from: usize, to: usize) -> Result<Vec<Cell>, AllocError>
    ensures { IfOk result (λ copy. copy.items ≡ between from to cells.now) }
{
    let (start, end) = part(from, to, cells.len());
    let mut copy = Vec::new(alloc);
    copy.extend_from_slice(&cells[start..end])?;
    Ok(copy)
}

/// Looks of the cells from one column to another are set, or turned over.
fn change_cell_attributes(
    cells: &mut Vec<Cell>,
    turns: bool,
    fields: &Cracked,
    from: usize,
    to: usize,
)
    ensures { cells.new.items ≡ attributes_changed (look_behind turns fields.now) from to cells.old.items }
{
    let (start, end) = part(from, to, cells.len());
    for i in start..end {
        let cell = cells[i];
        cells[i] = cell.with_attributes(turns, fields);
    }
}

/// The cells of a row.
#[derive(Drop)]
pub struct Cells {
    cells: Vec<Cell>,
}

impl Model for Cells {
    ghost use Rattle.std.specs.Prelude.{List};
    ghost use Rattle.csicodec_screen.specs.declared.cell.Cell.{Cell as CellOf};

    ghost Value = { List CellOf };

    ghost view = { λ c. c.cells.items };
}

impl Cells {
    /// So many that are all alike.
    pub(crate) fn uniform(alloc: Global, count: usize, cell: Cell) -> Result<Cells, AllocError>
        ensures { IfOk result (λ cells. cells ≡ replicate count cell) }
    {
        let mut cells = Vec::new(alloc);
        cells.resize(count, cell)?;
        Ok(Cells { cells })
    }

    /// There are so many, which are all alike.
    pub(crate) fn reset(&mut self, count: usize, cell: Cell) -> Result<(), AllocError>
        ensures { OnOk result (self.new ≡ replicate count cell) }
    {
        self.cells.clear();
        self.cells.resize(count, cell)?;
        Ok(())
    }

    /// All of them.
    pub fn as_slice(&self) -> &[Cell]
        ensures { result.now ≡ self.now }
    {
        &self.cells
    }

    /// That at a column; behind the last one nothing.
    fn at(&self, column: usize) -> Cell
        ensures { result ≡ cell_at column self.now }
    {
        match self.cells.get(column) {
            Some(cell) => *cell,
            None => Cell::Empty(ColorSpec::Default),
        }
    }

    /// No character stands on both sides of this column.
    fn cut(&mut self, column: usize)
        ensures { self.new ≡ cut column self.old }
    {
        if !self.at(column).is_behind() {
            return;
        }
        let before = column.saturating_sub(1);
        let cell = self.at(before);
        put(&mut self.cells, before, cell.first_half());
        put(&mut self.cells, column, cell.second_half());
    }

    fn cut_twice(&mut self, from: usize, to: usize)
        ensures { self.new ≡ cut_twice from to self.old }
    {
        self.cut(from);
        self.cut(to);
    }

    fn empty(&mut self, spares: bool, background: ColorSpec, from: usize, to: usize)
        ensures { self.new ≡ emptied spares background from to self.old }
    {
        self.cut_twice(from, to);
        if spares {
            empty_unprotected(&mut self.cells, from, to, background);
        } else {
            fill(&mut self.cells, from, to, Cell::Empty(background));
        }
    }

    /// So many cells of a part are gone at one end, the others move there, and empty ones come in.
    fn shift(&mut self, leftward: bool, background: ColorSpec, count: usize, from: usize, to: usize)
        ensures { self.new ≡ within from to (moved leftward count (Empty background)) self.old }
    {
        let (start, end) = shift(&mut self.cells, leftward, from, to, count);
        fill(&mut self.cells, start, end, Cell::Empty(background));
    }

    fn insert(&mut self, background: ColorSpec, count: usize, from: usize, to: usize)
        ensures { self.new ≡ inserted background count from to self.old }
    {
        self.cut_twice(from, to);
        self.cut(to.saturating_sub(count.min(to.saturating_sub(from))));
        self.shift(false, background, count, from, to);
    }

    fn delete(&mut self, background: ColorSpec, count: usize, from: usize, to: usize)
        ensures { self.new ≡ deleted background count from to self.old }
    {
        self.cut_twice(from, to);
        self.cut(from + count.min(to.saturating_sub(from)));
        self.shift(true, background, count, from, to);
    }

    fn flood(&mut self, cell: Cell, from: usize, to: usize)
        ensures { self.new ≡ flooded cell from to self.old }
    {
        self.cut_twice(from, to);
        fill(&mut self.cells, from, to, cell);
    }

    fn draw(&mut self, wide: bool, glyph: Glyph, from: usize, to: usize)
        ensures { self.new ≡ drawn wide glyph from to self.old }
    {
        self.cut_twice(from, to);
        if wide {
            put(&mut self.cells, from, Cell::Wide(glyph));
            put(&mut self.cells, to.saturating_sub(1), Cell::Behind);
        } else {
            put(&mut self.cells, from, Cell::Char(glyph));
        }
    }

    fn join(&mut self, mark: char, column: usize)
        ensures { self.new ≡ joined_by mark column self.old }
    {
        let base = if self.at(column).is_behind() {
            column.saturating_sub(1)
        } else {
            column
        };
        let cell = self.at(base).marked(mark);
        put(&mut self.cells, base, cell);
    }

    /// Others like these.
    pub(crate) fn copy(&self) -> Result<Cells, AllocError>
        ensures { IfOk result (λ cells. cells ≡ self.now) }
    {
        let mut cells = Vec::new(*self.cells.allocator());
        cells.extend_from_slice(&self.cells)?;
        Ok(Cells { cells })
    }

    /// Those from one column to another.
    fn part(&self, from: usize, to: usize) -> Result<Cells, AllocError>
        ensures { IfOk result (λ cells. cells ≡ between from to self.now) }
    {
        let cells = copy_part(*self.cells.allocator(), &self.cells, from, to)?;
        Ok(Cells { cells })
    }

    /// Those from one column to another, of which no character stands on both sides of these.
    pub(crate) fn segment(&self, from: usize, to: usize) -> Result<Cells, AllocError>
        ensures { IfOk result (λ cells. cells ≡ between from to (cut_twice from to self.now)) }
    {
        let mut whole = self.copy()?;
        whole.cut_twice(from, to);
        whole.part(from, to)
    }

    /// These stand from one column on, and no further than to another.
    pub(crate) fn paste(&mut self, new: &[Cell], from: usize, to: usize)
        ensures { self.new ≡ pasted new.now from to self.old }
    {
        self.cut_twice(from, to);
        overlay(&mut self.cells, new, from, to);
    }

    /// Looks of those from one column to another are set, or turned over.
    fn change_attributes(&mut self, turns: bool, fields: &Cracked, from: usize, to: usize)
        ensures { self.new ≡ attributes_changed (look_behind turns fields.now) from to self.old }
    {
        change_cell_attributes(&mut self.cells, turns, fields, from, to);
    }

    /// This is done to them from one column to another.
    pub(crate) fn change(&mut self, change: &Change, from: usize, to: usize)
        ensures { self.new ≡ changed change.now from to self.old }
    {
        match *change {
            Change::Empty(spares, background) => self.empty(spares, background, from, to),
            Change::Insert(background, count) => self.insert(background, count, from, to),
            Change::Delete(background, count) => self.delete(background, count, from, to),
            Change::Flood(cell) => self.flood(cell, from, to),
            Change::Draw(wide, glyph) => self.draw(wide, glyph, from, to),
            Change::Join(mark) => self.join(mark, from),
            Change::Attributes(turns, fields) => self.change_attributes(turns, fields, from, to),
        }
    }
}
