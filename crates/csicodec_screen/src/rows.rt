//! The rows of a screen, and how they move. Rows are counted from 0.
ghost use Rattle.std.specs.{Prelude.◌≡◌, Prelude.OnOk, Prelude.IfOk, Prelude.map, Prelude.replicate, Prelude.set, List.between};
ghost use Rattle.csicodec_screen.specs.{Lists.filled, Lists.moved, Lists.within, Private.Changes.changed, Private.Changes.parts_moved, Private.Changes.area_copied};
ghost use Rattle.csicodec_screen.specs.{Private.Changes.row_of, Rows.each_row, Rows.row_with, Rows.segment, Rows.with_segments, Cells.pasted, Screen.row_at};

use crate::cell::Cell;
use crate::cells::{Cells, Change};
use crate::list::{part, shift};
use std::alloc::{AllocError, Global};
use std::marker::Model;

/// How large a row is shown (DEC VT100: DECSWL, DECDWL, and the upper and the lower half of DECDHL).
#[derive(Clone, Copy, PartialEq, Eq, Debug)]
pub enum Size {
    Single,
    DoubleWidth,
    /// The upper half of a row of double height.
    UpperHalf,
    /// Its lower half.
    LowerHalf,
}

/// A row of a screen.
#[derive(Drop)]
pub struct Row {
    pub cells: Cells,
    pub size: Size,
}

impl Row {
    /// Of single width, whose cells are all alike.
    fn uniform(alloc: Global, like: Uniform) -> Result<Row, AllocError>
        ensures { IfOk result (λ row. row ≡ row_of like) }
    {
        Ok(Row {
            cells: Cells::uniform(alloc, like.columns, like.cell)?,
            size: Size::Single,
        })
    }

    /// Another one like it.
    pub(crate) fn copy(&self) -> Result<Row, AllocError>
        ensures { IfOk result (λ row. row ≡ self.now) }
    {
        Ok(Row {
            cells: self.cells.copy()?,
            size: self.size,
        })
    }

    /// Its cells are all alike.
    fn reset(&mut self, like: Uniform) -> Result<(), AllocError>
        ensures { OnOk result (self.new ≡ row_of like) }
    {
        self.cells.reset(like.columns, like.cell)?;
        self.size = Size::Single;
        Ok(())
    }

    /// This is done to its cells from one column to another.
    fn change(&mut self, change: &Change, from: usize, to: usize)
        ensures { self.new ≡ row_with (changed change.now from to) self.old }
    {
        self.cells.change(change, from, to);
    }

    /// These cells stand from one column on, and no further than to another.
    fn paste(&mut self, part: &Cells, from: usize, to: usize)
        ensures { self.new ≡ row_with (pasted part.now from to) self.old }
    {
        self.cells.paste(part.as_slice(), from, to);
    }
}

/// Rows from `top` on and ahead of `bottom`, and in them columns from `first` on and ahead of `last`; none where an end is ahead of its begin.
#[derive(Clone, Copy)]
pub struct Area {
    pub top: usize,
    pub first: usize,
    pub bottom: usize,
    pub last: usize,
}

/// A row of so many cells that are all alike.
#[derive(Clone, Copy)]
pub(crate) struct Uniform {
    pub(crate) columns: usize,
    pub(crate) cell: Cell,
}

/// So many rows whose cells are all alike.
fn uniform_rows(alloc: Global, count: usize, like: Uniform) -> Result<Vec<Row>, AllocError>
    ensures { IfOk result (λ rows. rows.items ≡ replicate count (row_of like)) }
{
    let mut rows = Vec::new(alloc);
    for _i in 0..count {
        rows.push(Row::uniform(alloc, like)?)?;
    }
    Ok(rows)
}

/// The cells of rows from one to another are all alike.
fn reset_rows(rows: &mut Vec<Row>, from: usize, to: usize, like: Uniform) -> Result<(), AllocError>
    ensures { OnOk result (rows.new.items ≡ within from to (filled (row_of like)) rows.old.items) }
{
    let (start, end) = part(from, to, rows.len());
    for i in start..end {
        rows[i].reset(like)?;
    }
    Ok(())
}

/// This is done to the cells of an area.
fn change_rows(rows: &mut Vec<Row>, area: Area, change: &Change)
    ensures { rows.new.items ≡ within area.top area.bottom (each_row (changed change.now area.first area.last)) rows.old.items }
{
    let (start, end) = part(area.top, area.bottom, rows.len());
    for i in start..end {
        rows[i].change(change, area.first, area.last);
    }
}

/// Copies of the cells from one column to another of rows in a part.
fn copy_parts(
    alloc: Global,
    rows: &[Row],
    first: usize,
    last: usize,
) -> Result<Vec<Cells>, AllocError>
    ensures { IfOk result (λ parts. parts.items ≡ map (segment first last) rows.now) }
{
    let mut parts = Vec::new(alloc);
    for row in rows {
        parts.push(row.cells.segment(first, last)?)?;
    }
    Ok(parts)
}

/// Copies of the cells of an area.
fn copy_area_parts(alloc: Global, rows: &[Row], area: Area) -> Result<Vec<Cells>, AllocError>
    ensures { IfOk result (λ parts. parts.items ≡ map (segment area.first area.last) (between area.top area.bottom rows.now)) }
{
    let (start, end) = part(area.top, area.bottom, rows.len());
    let parts = copy_parts(alloc, &rows[start..end], area.first, area.last)?;
    Ok(parts)
}

/// The cells of parts from one to another are all alike.
fn reset_parts(
    parts: &mut Vec<Cells>,
    from: usize,
    to: usize,
    like: Uniform,
) -> Result<(), AllocError>
    ensures { OnOk result (parts.new.items ≡ within from to (filled (replicate like.columns like.cell)) parts.old.items) }
{
    let (start, end) = part(from, to, parts.len());
    for i in start..end {
        parts[i].reset(like.columns, like.cell)?;
    }
    Ok(())
}

/// Parts move up or down by so many, and ones whose cells are all alike come in.
fn move_parts(
    parts: &mut Vec<Cells>,
    upward: bool,
    count: usize,
    like: Uniform,
) -> Result<(), AllocError>
    ensures { OnOk result (parts.new.items ≡ moved upward count (replicate like.columns like.cell) parts.old.items) }
{
    let len = parts.len();
    let (start, end) = shift(parts, upward, 0, len, count);
    reset_parts(parts, start, end, like)
}

/// Parts stand in the rows of an area, from its first column on.
fn paste_parts(rows: &mut Vec<Row>, parts: &[Cells], area: Area)
    ensures { rows.new.items ≡ within area.top area.bottom (with_segments area.first area.last parts.now) rows.old.items }
{
    let (start, end) = part(area.top, area.bottom, rows.len());
    let mut at = start;
    for part in parts {
        if at >= end {
            return;
        }
        rows[at].paste(part, area.first, area.last);
        at += 1;
    }
}

/// Rows. Contracts see them as a list.
#[derive(Drop)]
pub struct Rows {
    rows: Vec<Row>,
}

impl Model for Rows {
    ghost use Rattle.std.specs.Prelude.{List};
    ghost use Rattle.csicodec_screen.specs.declared.rows.Row.{Row as RowOf};

    ghost Value = { List RowOf };

    ghost view = { λ r. r.rows.items };
}

impl Rows {
    /// So many rows whose cells are all alike.
    pub(crate) fn uniform(alloc: Global, count: usize, like: Uniform) -> Result<Rows, AllocError>
        ensures { IfOk result (λ rows. rows ≡ replicate count (row_of like)) }
    {
        let rows = uniform_rows(alloc, count, like)?;
        Ok(Rows { rows })
    }

    /// So many rows whose cells are all alike are in their place.
    pub(crate) fn renew(&mut self, count: usize, like: Uniform) -> Result<(), AllocError>
        ensures { OnOk result (self.new ≡ replicate count (row_of like)) }
    {
        let alloc = self.allocator();
        self.rows = uniform_rows(alloc, count, like)?;
        Ok(())
    }

    /// How large a row is shown, if it is there.
    pub(crate) fn size_row(&mut self, row: usize, size: Size)
        ensures { self.new ≡ set self.old row (record (row_at row self.old) { size = size }) }
    {
        if row < self.rows.len() {
            self.rows[row].size = size;
        }
    }

    /// What gives them memory.
    pub(crate) fn allocator(&self) -> Global {
        *self.rows.allocator()
    }

    /// All of them.
    pub fn as_slice(&self) -> &[Row]
        ensures { result.now ≡ self.now }
    {
        &self.rows
    }

    /// How large a row is shown; behind the last one they are of single width.
    pub(crate) fn size_at(&self, row: usize) -> Size
        ensures { result ≡ (row_at row self.now).size }
    {
        match self.rows.get(row) {
            Some(row) => row.size,
            None => Size::Single,
        }
    }

    /// This is done to the cells of an area.
    pub(crate) fn change(&mut self, area: Area, change: &Change)
        ensures { self.new ≡ within area.top area.bottom (each_row (changed change.now area.first area.last)) self.old }
    {
        change_rows(&mut self.rows, area, change);
    }

    /// The cells of rows from one to another are all alike.
    pub(crate) fn reset(&mut self, from: usize, to: usize, like: Uniform) -> Result<(), AllocError>
        ensures { OnOk result (self.new ≡ within from to (filled (row_of like)) self.old) }
    {
        reset_rows(&mut self.rows, from, to, like)
    }

    /// Rows from one to another move up or down by so many, and ones whose cells are all alike come in.
    pub(crate) fn scroll(
        &mut self,
        upward: bool,
        from: usize,
        to: usize,
        count: usize,
        like: Uniform,
    ) -> Result<(), AllocError>
        ensures { OnOk result (self.new ≡ within from to (moved upward count (row_of like)) self.old) }
    {
        let (start, end) = shift(&mut self.rows, upward, from, to, count);
        reset_rows(&mut self.rows, start, end, like)
    }

    /// The cells of an area move up or down by so many rows, and ones that are all alike come in.
    pub(crate) fn scroll_parts(
        &mut self,
        upward: bool,
        count: usize,
        area: Area,
        cell: Cell,
    ) -> Result<(), AllocError>
        ensures { OnOk result (self.new ≡ within area.top area.bottom (parts_moved upward count cell area.first area.last) self.old) }
    {
        let (start, end) = part(area.top, area.bottom, self.rows.len());
        let columns = area.last.saturating_sub(area.first);
        let alloc = *self.rows.allocator();
        let mut parts = copy_parts(alloc, &self.rows[start..end], area.first, area.last)?;
        move_parts(&mut parts, upward, count, Uniform { columns, cell })?;
        paste_parts(&mut self.rows, &parts, area);
        Ok(())
    }

    /// Cells of an area stand in another.
    pub(crate) fn copy_area(&mut self, to: Area, area: Area) -> Result<(), AllocError>
        ensures { OnOk result (self.new ≡ area_copied to area self.old) }
    {
        let alloc = *self.rows.allocator();
        let parts = copy_area_parts(alloc, &self.rows, area)?;
        paste_parts(&mut self.rows, &parts, to);
        Ok(())
    }
}
