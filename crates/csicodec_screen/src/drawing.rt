//! What a character does to a screen, and each control.
ghost use Rattle.std.specs.Prelude.{◌≡◌, ◌≤◌, OnOk};
ghost use Rattle.csicodec_screen.specs.Draws.{by_number, columns_of, controls, controls_1, entered, in_set, is_beyond, line_feed, made_room, mark, next_line, passed_by, placed, print, put, put_here, repeat, repeat_last, reverse_index, roomy, shift, show, show_in_set, stop_at, times, wrap};

use crate::cell::Glyph;
use crate::cells::Change;
use crate::screen::Screen;
use crate::sets::Slot;
use std::alloc::AllocError;
use unicode_width::UnicodeWidthChar;

/// How many columns a character takes, two at most.
pub(crate) fn columns_of(char: char) -> u32
    ensures is { result ≡ columns_of char }
    ensures few { result ≤ 2 }
{
    match char.width().unwrap_or(0) {
        0 => 0,
        2 => 2,
        _ => 1,
    }
}

impl Screen {
    /// To the left margin of the next row, where the text goes on.
    fn wrap(&mut self) -> Result<(), AllocError>
        ensures { OnOk result (self.new ≡ wrap self.old) }
    {
        let left = self.margins.left;
        self.wrapped.put(self.row as usize, true);
        self.index()?;
        self.column = left;
        self.pending = false;
        Ok(())
    }

    /// A wrap that is pending is done.
    fn enter(&mut self) -> Result<(), AllocError>
        ensures { OnOk result (self.new ≡ entered self.old) }
    {
        if self.pending && self.modes.autowrap {
            return self.wrap();
        }
        Ok(())
    }

    /// Whether a character of so many columns doesn't fit ahead of the edge.
    fn is_beyond(&self, width: u32) -> bool
        ensures { result ≡ is_beyond width self.now }
    {
        self.edge() as usize + 1 < self.column as usize + width as usize
    }

    /// To the next row where a character of so many columns doesn't fit.
    fn turn(&mut self, width: u32) -> Result<(), AllocError>
        ensures { OnOk result (self.new ≡ roomy width self.old) }
    {
        if self.is_beyond(width) && self.modes.autowrap {
            return self.wrap();
        }
        Ok(())
    }

    /// In insert mode what stands from the cursor on moves right by so many columns.
    fn make_room(&mut self, width: u32)
        ensures { self.new ≡ made_room width self.old }
    {
        if self.modes.inserts && self.is_beside() {
            let change = Change::Insert(self.background(), width as usize);
            self.change_line(&change, self.column as usize, self.edge() as usize + 1);
        }
    }

    /// A character stands at the cursor.
    fn put_here(&mut self, width: u32, char: char)
        ensures { self.new ≡ put_here width char self.old }
    {
        let change = Change::Draw(width == 2, Glyph::bare(char, self.pen));
        let column = self.column as usize;
        self.change_line(&change, column, column + width as usize);
    }

    /// The cursor stands behind a character, or the wrap is pending at the edge.
    fn pass(&mut self, width: u32, char: char)
        ensures { self.new ≡ passed_by width char self.old }
    {
        let (behind, edge) = (self.column as usize + width as usize, self.edge());
        self.column = behind.min(edge as usize) as u32;
        self.pending = (edge as usize) < behind;
        self.last = Some(char);
    }

    /// A character of so many columns, where there is room for it.
    fn place_char(&mut self, width: u32, char: char)
        ensures { self.new ≡ placed width char self.old }
    {
        if self.is_beyond(width) {
            return;
        }
        self.make_room(width);
        self.put_here(width, char);
        self.pass(width, char);
    }

    /// A character of so many columns.
    fn put(&mut self, width: u32, char: char) -> Result<(), AllocError>
        ensures { OnOk result (self.new ≡ put width char self.old) }
    {
        self.enter()?;
        self.turn(width)?;
        self.place_char(width, char);
        Ok(())
    }

    /// A mark joins the character left of the cursor, or at it where the wrap is pending.
    fn mark(&mut self, char: char)
        ensures { self.new ≡ mark char self.old }
    {
        let column = self.column as usize;
        if self.pending {
            self.change_line(&Change::Join(char), column, column);
        } else if self.column != 0 {
            self.change_line(&Change::Join(char), column - 1, column);
        }
    }

    /// A character, or a mark.
    fn show(&mut self, char: char) -> Result<(), AllocError>
        ensures { OnOk result (self.new ≡ show char self.old) }
    {
        let width = columns_of(char);
        if width == 0 {
            self.mark(char);
            return Ok(());
        }
        self.put(width, char)
    }

    /// A character as the current set has it.
    fn in_set(&self, char: char) -> char
        ensures { result ≡ in_set char self.now }
    {
        if char < '\u{80}' {
            self.sets.current().char(char)
        } else {
            char
        }
    }

    /// A character of the current set; a single shift is over with it.
    fn show_in_set(&mut self, char: char) -> Result<(), AllocError>
        ensures { OnOk result (self.new ≡ show_in_set char self.old) }
    {
        let shown = self.in_set(char);
        self.sets.single = None;
        self.show(shown)?;
        Ok(())
    }

    /// A character that comes.
    pub(crate) fn print(&mut self, char: char) -> Result<(), AllocError>
        ensures { OnOk result (self.new ≡ print char self.old) }
    {
        if char == '\u{7f}' {
            return Ok(());
        }
        if '\u{80}' <= char && char < '\u{a0}' {
            self.control_1(char)?;
            self.last = None;
            return Ok(());
        }
        self.show_in_set(char)
    }

    /// REP: the character in front so many times more, and no further than the edge.
    fn repeat(&mut self, count: u32, char: char)
        ensures { self.new ≡ repeat count char self.old }
    {
        if self.pending {
            return;
        }
        let width = columns_of(char);
        let room = (self.edge() as usize + 1).saturating_sub(self.column as usize);
        let most = (count as usize).min(room / width.max(1) as usize);
        for _i in 0..most {
            self.place_char(width, char);
        }
    }

    /// REP, if there is a character directly in front.
    pub(crate) fn repeat_last(&mut self, count: u32)
        ensures { self.new ≡ repeat_last count self.old.last self.old }
    {
        if let Some(char) = self.last {
            self.repeat(count, char);
        }
    }

    /// NEL: the next row, and its first column.
    pub(crate) fn next_line(&mut self) -> Result<(), AllocError>
        ensures { OnOk result (self.new ≡ next_line self.old) }
    {
        self.index()?;
        self.carriage_return();
        Ok(())
    }

    /// LF: the next row, and with LNM its first column.
    fn line_feed(&mut self) -> Result<(), AllocError>
        ensures { OnOk result (self.new ≡ line_feed self.old) }
    {
        if self.modes.new_line {
            return self.next_line();
        }
        self.index()
    }

    /// RI: one row up, and at the top margin all move down.
    pub(crate) fn reverse_index(&mut self) -> Result<(), AllocError>
        ensures { OnOk result (self.new ≡ reverse_index self.old) }
    {
        if self.row == self.margins.top && self.is_beside() {
            self.scroll_down(1)?;
            self.pending = false;
        } else {
            self.up(1);
        }
        Ok(())
    }

    /// A tab stop at the cursor's column, or none there.
    pub(crate) fn stop_at(&mut self, stops: bool)
        ensures { self.new ≡ stop_at stops self.old }
    {
        self.stops.put(self.column as usize, stops);
    }

    /// Characters come from this set.
    pub(crate) fn shift(&mut self, slot: Slot)
        ensures { self.new ≡ shift slot self.old }
    {
        self.sets.left = slot;
    }

    /// A control of C0: BS, HT, LF, VT, FF, CR, SO and SI. The others do nothing (ECMA-48, 8.2.1).
    pub(crate) fn control(&mut self, byte: u8) -> Result<(), AllocError>
        ensures { OnOk result (self.new ≡ by_number controls byte self.old) }
    {
        match byte {
            8 => self.left(1),
            9 => self.tab(),
            10 | 11 | 12 => return self.line_feed(),
            13 => self.carriage_return(),
            14 => self.shift(Slot::G1),
            15 => self.shift(Slot::G0),
            _ => (),
        }
        Ok(())
    }

    /// A control of C1 that comes as a character: IND, NEL, HTS and RI. The others do nothing.
    fn control_1(&mut self, char: char) -> Result<(), AllocError>
        ensures { OnOk result (self.new ≡ by_number controls_1 char self.old) }
    {
        match char {
            '\u{84}' => return self.index(),
            '\u{85}' => return self.next_line(),
            '\u{88}' => self.stop_at(true),
            '\u{8d}' => return self.reverse_index(),
            _ => (),
        }
        Ok(())
    }
}
