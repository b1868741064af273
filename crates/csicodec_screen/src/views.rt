//! How a screen is written: its text, and that with how it looks.
ghost use Rattle.std.specs.{Prelude.◌≡◌, Prelude.◌++◌, Prelude.IfOk, Prelude.OnOk, Prelude.reverse, List.flat_map};
ghost use Rattle.csicodec_screen.specs.Views.{cell_cells, char_cells, glyph_cells, is_bare, is_blank, is_written, line_look, mark_cells, row_cells, rows_text, seen, trimmed, view};
ghost use Rattle.csicodec_screen.specs.declared.cell.Cell.TheVariants.{Empty};
ghost use Rattle.csicodec_looks.specs.Paint.{ended};

use crate::cell::{Cell, Glyph};
use crate::look::Look;
use crate::rows::{Row, Size};
use crate::screen::Screen;
use csicodec_base::{ColorSpec, Intensity};
use csicodec_looks::paint::append_cells;
use csicodec_looks::{Cell as LineCell, Glyph as LineGlyph, Look as LineLook, Marking};
use std::alloc::{AllocError, Global};
use std::collections::VecDeque;

/// How a look is written: what is bold and faint at once as bold, and blinking and concealed text as any other.
fn line_look(look: &Look) -> LineLook
    ensures { result ≡ line_look look.now }
{
    let intensity = if look.bold {
        Intensity::Bold
    } else if look.faint {
        Intensity::Half
    } else {
        Intensity::Normal
    };
    LineLook {
        intensity,
        italic: look.italic,
        underline: look.underline,
        line: look.line,
        overline: look.overlined,
        strike: look.struck,
        inverse: look.inverse,
        foreground: look.foreground,
        background: look.background,
    }
}

/// Whether a character of a cell is written: it is no control.
fn is_written(char: char) -> bool
    ensures { result ≡ is_written char }
{
    matches!(char, ' '..='~' | '\u{a0}'..)
}

/// Appends a character that looks so, if it is written.
fn append_char(look: LineLook, char: char, out: &mut Vec<LineCell>) -> Result<(), AllocError>
    ensures { OnOk result (out.new.items ≡ out.old.items ++ char_cells look char) }
{
    if is_written(char) {
        out.push(LineCell::Char(LineGlyph { char, look }))?;
    }
    Ok(())
}

/// Appends a mark, if it is written.
fn append_mark(mark: char, out: &mut Vec<LineCell>) -> Result<(), AllocError>
    ensures { OnOk result (out.new.items ≡ out.old.items ++ mark_cells mark) }
{
    if is_written(mark) {
        out.push(LineCell::Mark(mark))?;
    }
    Ok(())
}

/// Appends marks, as far as they are written.
fn append_marks(marks: &[char], out: &mut Vec<LineCell>) -> Result<(), AllocError>
    ensures { OnOk result (out.new.items ≡ out.old.items ++ flat_map mark_cells marks.now) }
{
    let mut rest = marks;
    while let Some((mark, behind)) = rest.split_first() {
        append_mark(*mark, out)?;
        rest = behind;
    }
    Ok(())
}

/// Appends a character and its marks.
fn append_glyph(glyph: &Glyph, out: &mut Vec<LineCell>) -> Result<(), AllocError>
    ensures { OnOk result (out.new.items ≡ out.old.items ++ glyph_cells glyph.now) }
{
    append_char(line_look(&glyph.pen.look), glyph.char, out)?;
    let marks = glyph.marks.as_slice();
    let count = (glyph.count as usize).min(marks.len());
    append_marks(marks.split_at(count).0, out)
}

/// Appends what is written of an empty cell.
fn append_empty(background: ColorSpec, out: &mut Vec<LineCell>) -> Result<(), AllocError>
    ensures { OnOk result (out.new.items ≡ out.old.items ++ cell_cells (Empty background)) }
{
    if matches!(background, ColorSpec::Default) {
        return Ok(out.push(LineCell::Empty)?);
    }
    let mut look = LineLook::plain();
    look.background = background;
    Ok(out.push(LineCell::Char(LineGlyph { char: ' ', look }))?)
}

/// Appends what is written of a cell.
fn append_cell(cell: &Cell, out: &mut Vec<LineCell>) -> Result<(), AllocError>
    ensures { OnOk result (out.new.items ≡ out.old.items ++ cell_cells cell.now) }
{
    match cell {
        Cell::Empty(background) => append_empty(*background, out),
        Cell::Char(glyph) | Cell::Wide(glyph) => append_glyph(glyph, out),
        Cell::Behind => Ok(()),
    }
}

/// Whether it is a blank: nothing, or a space that looks as nothing does.
fn is_blank(cell: &LineCell) -> bool
    ensures { result ≡ is_blank cell.now }
{
    match cell {
        LineCell::Empty => true,
        LineCell::Char(glyph) => glyph.char == ' ' && glyph.look.is_plain(),
        LineCell::Behind | LineCell::Mark(_) => false,
    }
}

/// Cells without the blanks at their end.
fn trimmed(cells: &[LineCell]) -> &[LineCell]
    ensures { result.now ≡ trimmed is_blank cells.now }
{
    let mut rest = cells;
    while let Some((last, front)) = rest.split_last() {
        if !is_blank(last) {
            return rest;
        }
        rest = front;
    }
    rest
}

/// The cells of a row that are seen: of double width the first half.
fn seen(row: &Row) -> &[Cell]
    ensures { result.now ≡ seen row.now.size row.now.cells }
{
    let cells = row.cells.as_slice();
    match row.size {
        Size::Single => cells,
        Size::DoubleWidth | Size::UpperHalf | Size::LowerHalf => cells.split_at(cells.len() / 2).0,
    }
}

/// Appends what is written of cells.
fn append_all(cells: &[Cell], out: &mut Vec<LineCell>) -> Result<(), AllocError>
    ensures { OnOk result (out.new.items ≡ out.old.items ++ flat_map cell_cells cells.now) }
{
    let mut rest = cells;
    while let Some((cell, behind)) = rest.split_first() {
        append_cell(cell, out)?;
        rest = behind;
    }
    Ok(())
}

/// What is written of the cells of a row, with the blanks at its end.
fn whole_row(alloc: Global, row: &Row) -> Result<Vec<LineCell>, AllocError>
    ensures { IfOk result (λ line. line.items ≡ flat_map cell_cells (seen row.now.size row.now.cells)) }
{
    let mut line = Vec::new(alloc);
    append_all(seen(row), &mut line)?;
    Ok(line)
}

/// Appends a row with its newline.
fn append_row(
    alloc: Global,
    row: &Row,
    marking: &Marking,
    out: &mut Vec<u8>,
) -> Result<(), AllocError>
    ensures { OnOk result (out.new.items ≡ out.old.items ++ ended marking.now (row_cells row.now)) }
{
    let line = whole_row(alloc, row)?;
    append_cells(trimmed(&line), marking, out)?;
    Ok(out.push(b'\n')?)
}

/// Appends rows, each with its newline.
fn append_rows(
    alloc: Global,
    rows: &[Row],
    marking: &Marking,
    out: &mut Vec<u8>,
) -> Result<(), AllocError>
    ensures { OnOk result (out.new.items ≡ out.old.items ++ rows_text marking.now rows.now) }
{
    let mut rest = rows;
    while let Some((row, behind)) = rest.split_first() {
        append_row(alloc, row, marking, out)?;
        rest = behind;
    }
    Ok(())
}

/// Whether a row has blanks alone. An `Err` is out of memory.
fn is_bare(alloc: Global, row: &Row) -> Result<bool, AllocError>
    ensures { IfOk result (λ bare. bare ≡ is_bare row.now) }
{
    let line = whole_row(alloc, row)?;
    Ok(matches!(trimmed(&line), []))
}

/// Rows without the bare ones at their end.
fn trimmed_rows(alloc: Global, rows: &[Row]) -> Result<&[Row], AllocError>
    ensures { IfOk result (λ rest. rest.now ≡ trimmed is_bare rows.now) }
{
    let mut rest = rows;
    while let Some((last, front)) = rest.split_last() {
        if !is_bare(alloc, last)? {
            return Ok(rest);
        }
        rest = front;
    }
    Ok(rest)
}

/// Appends rows that left at the top, the oldest first.
fn append_back(
    alloc: Global,
    back: &VecDeque<Row>,
    marking: &Marking,
    out: &mut Vec<u8>,
) -> Result<(), AllocError>
    ensures { OnOk result (out.new.items ≡ out.old.items ++ rows_text marking.now (reverse back.now.items)) }
{
    let mut at = back.len();
    while at > 0 {
        at -= 1;
        append_row(alloc, &back[at], marking, out)?;
    }
    Ok(())
}

impl Screen {
    /// Appends what it shows: rows in turn, each with its newline, without blanks at their ends, and without the rows at the bottom that have nothing else.
    /// If scroll-back is asked for, the rows that left at the top come ahead, the oldest first. An `Err` is out of memory.
    pub fn append_view(
        &self,
        marking: &Marking,
        scrollback: bool,
        out: &mut Vec<u8>,
    ) -> Result<(), AllocError>
        ensures { OnOk result (out.new.items ≡ out.old.items ++ view marking.now scrollback self.now) }
    {
        let alloc = self.grid.allocator();
        if scrollback {
            append_back(alloc, self.back.as_deque(), marking, out)?;
        }
        let rows = trimmed_rows(alloc, self.grid.as_slice())?;
        append_rows(alloc, rows, marking, out)
    }
}
