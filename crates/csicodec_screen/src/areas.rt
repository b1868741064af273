//! What is done to rectangular areas, and by the other sequences that have no action of their own.
ghost use Rattle.std.specs.Prelude.{◌≡◌, ◌<◌, ◌==◌, IfOk, None, OnOk, Some, if◌then◌else◌};
ghost use Rattle.csicodec_screen.specs.Areas.{apostrophe_finals, area_at, bare_finals, behind_columns, behind_rows, copy_by, erase_by, fill_by, look_by, look_set, look_turned, by_byte, by_final, copied, display_of, dollar_finals, erased, extent, filled, first_column, first_row, is_area, is_seen, line_of, looked, nth, of_columns, of_unknown, on_area, private_finals, protect, quote_finals, side, space_finals, star_finals, streamed};
ghost use Rattle.csicodec_screen.specs.Private.Changes.{cells_copied, changed, look_behind};
ghost use Rattle.csicodec_tokens.specs.Fields.{fields_of};

use crate::attributes::nth;
use crate::cell::{Cell, Glyph};
use crate::cells::Change;
use crate::drawing::columns_of;
use crate::rows::Area;
use crate::screen::Screen;
use csicodec_base::laws::fields_in_turn;
use csicodec_base::{Cracked, CsiParam, EraseInDisplay, EraseInLine, ParseRefusal};
use csicodec_sequences::Parts;
use std::alloc::{AllocError, Global};

/// Where a side ends: a number that is left out or 0 is the last place.
fn side(number: usize, from: usize, last: usize) -> usize
    requires begin { from < 9223372036854775808 }
    requires few { number < 9223372036854775808 }
    ensures { result ≡ side number from last }
{
    if number == 0 {
        last
    } else {
        (from + number).min(last)
    }
}

/// The marker of a list, or its intermediate byte; 0 where it has both, or none.
fn own_byte(marker: u8, intermediate: u8) -> u8
    ensures { result ≡ (if marker == 0 then intermediate else if intermediate == 0 then marker else 0) }
{
    match (marker, intermediate) {
        (0, _) => intermediate,
        (_, 0) => marker,
        _ => 0,
    }
}

/// The fields of a list; none where it has other separators than `;`.
fn list_fields(alloc: Global, list: &[CsiParam]) -> Result<Option<Cracked>, AllocError>
    ensures { IfOk result (λ fields. fields ≡ fields_of list.now) }
{
    fields_in_turn();
    match Cracked::parse(alloc, list) {
        Ok(fields) => Ok(Some(fields)),
        Err(ParseRefusal::NotSpelled) => Ok(None),
        Err(ParseRefusal::Memory) => Err(AllocError),
    }
}

/// The character of this number, if it is one of Unicode that one can see.
fn seen_char(number: usize) -> Option<char>
    ensures { result ≡ (if is_seen number then Some number else None) }
{
    match number {
        32..=126 | 160..=0xd7ff | 0xe000..=0x10_ffff => char::from_u32(number as u32),
        _ => None,
    }
}

impl Area {
    /// Whether there is a place in it.
    fn is_some(&self) -> bool
        ensures { result ≡ is_area self.now }
    {
        self.top < self.bottom && self.first < self.last
    }
}

impl Screen {
    /// The row from which areas are counted.
    fn first_row(&self) -> usize
        ensures is { result ≡ first_row self.now }
        ensures few { result < 4294967296 }
    {
        if self.modes.origin {
            self.margins.top as usize
        } else {
            0
        }
    }

    /// The column from which areas are counted.
    fn first_column(&self) -> usize
        ensures is { result ≡ first_column self.now }
        ensures few { result < 4294967296 }
    {
        if self.modes.origin {
            self.margins.left as usize
        } else {
            0
        }
    }

    /// The row behind the last one of areas.
    fn behind_rows(&self) -> usize
        ensures { result ≡ behind_rows self.now }
    {
        if self.modes.origin {
            self.margins.bottom as usize + 1
        } else {
            self.rows as usize
        }
    }

    /// The column behind the last one of areas.
    fn behind_columns(&self) -> usize
        ensures { result ≡ behind_columns self.now }
    {
        if self.modes.origin {
            self.margins.right as usize + 1
        } else {
            self.columns as usize
        }
    }

    /// The area that four fields say.
    fn area_at(&self, index: usize, fields: &Cracked) -> Area
        requires { index < 4 }
        ensures { result ≡ area_at index fields.now self.now }
    {
        let (row, column) = (self.first_row(), self.first_column());
        let bottom = nth(index + 2, fields);
        let last = nth(index + 3, fields);
        Area {
            top: row + nth(index, fields).saturating_sub(1),
            first: column + nth(index + 1, fields).saturating_sub(1),
            bottom: side(bottom, row, self.behind_rows()),
            last: side(last, column, self.behind_columns()),
        }
    }

    /// This is done to the cells of an area, if there is one.
    fn change_area(&mut self, area: Area, change: &Change)
        ensures { self.new ≡ on_area (changed change.now) area self.old }
    {
        if area.is_some() {
            self.change(area, change);
        }
    }

    /// DECFRA: a character that one can see, of one column, fills an area, drawn with the pen.
    fn fill_area(&mut self, number: usize, area: Area)
        ensures { self.new ≡ filled number area self.old }
    {
        let Some(char) = seen_char(number) else {
            return;
        };
        if columns_of(char) == 1 {
            let cell = Cell::Char(Glyph::bare(char, self.pen));
            self.change_area(area, &Change::Flood(cell));
        }
    }

    /// DECERA, and DECSERA, which spares what is protected.
    fn erase_area(&mut self, spares: bool, area: Area)
        ensures { self.new ≡ erased spares area self.old }
    {
        self.change_area(area, &Change::Empty(spares, self.background()));
    }

    /// SL, SR, DECIC and DECDC: where the cursor is within all margins.
    fn shift_columns(&mut self, leftward: bool, count: usize, column: u32)
        ensures { self.new ≡ of_columns leftward count column self.old }
    {
        if self.is_inside() {
            self.move_columns(leftward, count.max(1), column);
        }
    }

    /// DECSCA: what is drawn from here on is protected, or not.
    fn protect(&mut self, number: usize)
        ensures { self.new ≡ protect number self.old }
    {
        match number {
            1 => self.pen.protected = true,
            0 | 2 => self.pen.protected = false,
            _ => (),
        }
    }

    /// DECSACE: 2 is rectangles.
    fn set_extent(&mut self, number: usize)
        ensures { self.new ≡ extent number self.old }
    {
        self.modes.rectangles = number == 2;
    }

    /// DECSED.
    fn erase_selected(&mut self, number: usize) -> Result<(), AllocError>
        ensures { OnOk result (self.new ≡ display_of number self.old) }
    {
        match number {
            0 => self.erase_display(true, EraseInDisplay::EraseToEndOfDisplay),
            1 => self.erase_display(true, EraseInDisplay::EraseToStartOfDisplay),
            2 => self.erase_display(true, EraseInDisplay::EraseDisplay),
            _ => Ok(()),
        }
    }

    /// DECSEL.
    fn erase_selected_line(&mut self, number: usize)
        ensures { self.new ≡ line_of number self.old }
    {
        match number {
            0 => self.erase_line(true, EraseInLine::EraseToEndOfLine),
            1 => self.erase_line(true, EraseInLine::EraseToStartOfLine),
            2 => self.erase_line(true, EraseInLine::EraseLine),
            _ => (),
        }
    }

    /// Cells of an area stand at another place, of so many rows and columns.
    fn copy_cells(&mut self, to: Area, area: Area) -> Result<(), AllocError>
        ensures { OnOk result (self.new ≡ cells_copied to area self.old) }
    {
        self.grid.copy_area(to, area)
    }

    /// DECCRA: to a place, as far as the screen goes.
    fn copy_area(&mut self, row: usize, column: usize, area: Area) -> Result<(), AllocError>
        ensures { OnOk result (self.new ≡ copied row column area self.old) }
    {
        let (rows, columns) = (self.rows as usize, self.columns as usize);
        if !area.is_some() || row >= rows || column >= columns {
            return Ok(());
        }
        let height = (area.bottom - area.top).min(rows - row);
        let width = (area.last - area.first).min(columns - column);
        let from = Area {
            bottom: area.top + height,
            last: area.first + width,
            ..area
        };
        let to = Area {
            top: row,
            first: column,
            bottom: row + height,
            last: column + width,
        };
        self.copy_cells(to, from)
    }

    /// Looks of a stream of places change, from the area's first corner to its last, over whole rows between.
    fn change_stream(&mut self, area: Area, change: &Change)
        requires { area.top < area.bottom }
        ensures { self.new ≡ streamed (changed change.now) area self.old }
    {
        if area.bottom == area.top + 1 {
            self.change_area(area, change);
            return;
        }
        let (first, behind) = (self.first_column(), self.behind_columns());
        let end = Area {
            top: area.bottom - 1,
            first,
            ..area
        };
        let between = Area {
            top: area.top + 1,
            first,
            bottom: area.bottom - 1,
            last: behind,
        };
        let begin = Area {
            bottom: area.top + 1,
            last: behind,
            ..area
        };
        self.change(end, change);
        self.change(between, change);
        self.change(begin, change);
    }

    /// DECCARA and DECRARA: looks of an area are set, or turned over.
    fn change_attributes(&mut self, turns: bool, fields: &Cracked, area: Area)
        ensures { self.new ≡ looked (look_behind turns fields.now) area self.old }
    {
        let change = Change::Attributes(turns, fields);
        if self.modes.rectangles {
            self.change_area(area, &change);
        } else if area.top < area.bottom {
            self.change_stream(area, &change);
        }
    }

    /// DECSLRM.
    fn bare_final(&mut self, last: char, fields: &Cracked)
        ensures { self.new ≡ by_final bare_finals last fields.now self.old }
    {
        if last == 's' {
            self.set_columns(nth(0, fields), nth(1, fields));
        }
    }

    /// DECSED and DECSEL.
    fn private_final(&mut self, last: char, fields: &Cracked) -> Result<(), AllocError>
        ensures { OnOk result (self.new ≡ by_final private_finals last fields.now self.old) }
    {
        match last {
            'J' => return self.erase_selected(nth(0, fields)),
            'K' => self.erase_selected_line(nth(0, fields)),
            _ => (),
        }
        Ok(())
    }

    /// SL and SR.
    fn space_final(&mut self, last: char, fields: &Cracked)
        ensures { self.new ≡ by_final space_finals last fields.now self.old }
    {
        let left = self.margins.left;
        match last {
            '@' => self.shift_columns(true, nth(0, fields), left),
            'A' => self.shift_columns(false, nth(0, fields), left),
            _ => (),
        }
    }

    /// DECIC and DECDC.
    fn apostrophe_final(&mut self, last: char, fields: &Cracked)
        ensures { self.new ≡ by_final apostrophe_finals last fields.now self.old }
    {
        let column = self.column;
        match last {
            '}' => self.shift_columns(false, nth(0, fields), column),
            '~' => self.shift_columns(true, nth(0, fields), column),
            _ => (),
        }
    }

    /// DECSCA.
    fn quote_final(&mut self, last: char, fields: &Cracked)
        ensures { self.new ≡ by_final quote_finals last fields.now self.old }
    {
        if last == 'q' {
            self.protect(nth(0, fields));
        }
    }

    /// DECSACE.
    fn star_final(&mut self, last: char, fields: &Cracked)
        ensures { self.new ≡ by_final star_finals last fields.now self.old }
    {
        if last == 'x' {
            self.set_extent(nth(0, fields));
        }
    }

    /// DECFRA by its numbers.
    fn fill_by(&mut self, fields: &Cracked)
        ensures { self.new ≡ fill_by fields.now self.old }
    {
        let area = self.area_at(1, fields);
        self.fill_area(nth(0, fields), area);
    }

    /// DECERA and DECSERA by their numbers.
    fn erase_by(&mut self, spares: bool, fields: &Cracked)
        ensures { self.new ≡ erase_by spares fields.now self.old }
    {
        let area = self.area_at(0, fields);
        self.erase_area(spares, area);
    }

    /// DECCRA by its numbers.
    fn copy_by(&mut self, fields: &Cracked) -> Result<(), AllocError>
        ensures { OnOk result (self.new ≡ copy_by fields.now self.old) }
    {
        let area = self.area_at(0, fields);
        let row = self.first_row() + nth(5, fields).saturating_sub(1);
        let column = self.first_column() + nth(6, fields).saturating_sub(1);
        self.copy_area(row, column, area)
    }

    /// DECCARA by its numbers.
    fn set_looks_by(&mut self, fields: &Cracked)
        ensures { self.new ≡ look_by look_set fields.now self.old }
    {
        let area = self.area_at(0, fields);
        self.change_attributes(false, fields, area);
    }

    /// DECRARA by its numbers.
    fn turn_looks_by(&mut self, fields: &Cracked)
        ensures { self.new ≡ look_by look_turned fields.now self.old }
    {
        let area = self.area_at(0, fields);
        self.change_attributes(true, fields, area);
    }

    /// DECFRA, DECERA, DECSERA, DECCRA, DECCARA and DECRARA.
    fn dollar_final(&mut self, last: char, fields: &Cracked) -> Result<(), AllocError>
        ensures { OnOk result (self.new ≡ by_final dollar_finals last fields.now self.old) }
    {
        match last {
            'x' => self.fill_by(fields),
            'z' => self.erase_by(false, fields),
            '{' => self.erase_by(true, fields),
            'v' => return self.copy_by(fields),
            'r' => self.set_looks_by(fields),
            't' => self.turn_looks_by(fields),
            _ => (),
        }
        Ok(())
    }

    /// What the numbers of a list do by its own byte and its final byte.
    fn by_byte(&mut self, byte: u8, last: char, fields: &Cracked) -> Result<(), AllocError>
        ensures { OnOk result (self.new ≡ by_byte byte last fields.now self.old) }
    {
        match byte {
            0 => self.bare_final(last, fields),
            b'?' => return self.private_final(last, fields),
            b' ' => self.space_final(last, fields),
            b'\'' => self.apostrophe_final(last, fields),
            b'"' => self.quote_final(last, fields),
            b'*' => self.star_final(last, fields),
            b'$' => return self.dollar_final(last, fields),
            _ => (),
        }
        Ok(())
    }

    /// What a list does that has no action of its own.
    pub(crate) fn unknown(&mut self, params: &[CsiParam], last: char) -> Result<(), AllocError>
        ensures { OnOk result (self.new ≡ of_unknown params.now last self.old) }
    {
        let parts = Parts::of(params);
        let byte = own_byte(parts.marker, parts.intermediate);
        let alloc = self.grid.allocator();
        let Some(fields) = list_fields(alloc, parts.body)? else {
            return Ok(());
        };
        self.by_byte(byte, last, &fields)?;
        Ok(())
    }
}
