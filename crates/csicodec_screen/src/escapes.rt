//! What escape sequences do to a screen.
ghost use Rattle.std.specs.Prelude.{◌≡◌, OnOk};
ghost use Rattle.csicodec_screen.specs.Steps.{aligned, back_index, finals, forward_index, hashes, of_escape, set_named, single_shift, sized, with_set};
ghost use Rattle.csicodec_screen.specs.Draws.{by_number};

use crate::cell::{Cell, Glyph};
use crate::look::Pen;
use crate::rows::{Size, Uniform};
use crate::screen::Screen;
use crate::sets::Slot;
use crate::state::Margins;
use csicodec_looks::Set;
use std::alloc::AllocError;

/// The set that these bytes name.
fn set_named(bytes: &[u8], last: u8) -> Set
    ensures { result ≡ set_named bytes.now last }
{
    if bytes.is_empty() {
        Set::named(last)
    } else {
        Set::Ascii
    }
}

impl Screen {
    /// DECBI: a column to the left, and at the margin all columns move right.
    fn back_index(&mut self)
        ensures { self.new ≡ back_index self.old }
    {
        let margins = self.margins;
        if self.column == margins.left && (margins.top <= self.row && self.row <= margins.bottom) {
            self.move_columns(false, 1, margins.left);
        } else {
            self.left(1);
        }
    }

    /// DECFI: a column to the right, and at the margin all columns move left.
    fn forward_index(&mut self)
        ensures { self.new ≡ forward_index self.old }
    {
        let margins = self.margins;
        if self.column == margins.right && (margins.top <= self.row && self.row <= margins.bottom) {
            self.move_columns(true, 1, margins.left);
        } else {
            self.right(1);
        }
    }

    /// SS2 and SS3: the next character comes from this set.
    fn single_shift(&mut self, slot: Slot)
        ensures { self.new ≡ single_shift slot self.old }
    {
        self.sets.single = Some(slot);
    }

    /// An escape sequence without an intermediate byte.
    fn escape_final(&mut self, last: u8) -> Result<(), AllocError>
        ensures { OnOk result (self.new ≡ by_number finals last self.old) }
    {
        match last {
            b'D' => return self.index(),
            b'E' => return self.next_line(),
            b'H' => self.stop_at(true),
            b'M' => return self.reverse_index(),
            b'N' => self.single_shift(Slot::G2),
            b'O' => self.single_shift(Slot::G3),
            b'6' => self.back_index(),
            b'7' => self.save(),
            b'8' => self.restore(),
            b'9' => self.forward_index(),
            b'c' => return self.reset(),
            b'n' => self.shift(Slot::G2),
            b'o' => self.shift(Slot::G3),
            _ => (),
        }
        Ok(())
    }

    /// DECALN: each cell an E, and the cursor at home.
    fn align(&mut self) -> Result<(), AllocError>
        ensures { OnOk result (self.new ≡ aligned self.old) }
    {
        let letters = Uniform {
            columns: self.columns as usize,
            cell: Cell::Char(Glyph::bare('E', Pen::plain())),
        };
        self.at(0, 0);
        self.grid.renew(self.rows as usize, letters)?;
        self.wrapped.renew(self.rows as usize)?;
        self.margins = Margins::whole(self.rows, self.columns);
        self.pen = Pen::plain();
        self.modes.origin = false;
        Ok(())
    }

    /// The cursor's row is shown in another size.
    fn size_row(&mut self, size: Size)
        ensures { self.new ≡ sized size self.old }
    {
        self.grid.size_row(self.row as usize, size);
    }

    /// An escape sequence with `#`.
    fn escape_hash(&mut self, last: u8) -> Result<(), AllocError>
        ensures { OnOk result (self.new ≡ by_number hashes last self.old) }
    {
        match last {
            b'3' => self.size_row(Size::UpperHalf),
            b'4' => self.size_row(Size::LowerHalf),
            b'5' => self.size_row(Size::Single),
            b'6' => self.size_row(Size::DoubleWidth),
            b'8' => return self.align(),
            _ => (),
        }
        Ok(())
    }

    /// SCS: a set is in the place that the intermediate byte names.
    fn set_slot(&mut self, byte: u8, set: Set)
        ensures { self.new ≡ with_set byte set self.old }
    {
        match byte {
            b'(' => self.sets.g0 = set,
            b')' | b'-' => self.sets.g1 = set,
            b'*' | b'.' => self.sets.g2 = set,
            b'+' | b'/' => self.sets.g3 = set,
            _ => (),
        }
    }

    /// An escape sequence: its intermediate bytes, and its final byte.
    pub(crate) fn escape(&mut self, bytes: &[u8], last: u8) -> Result<(), AllocError>
        ensures { OnOk result (self.new ≡ of_escape bytes.now last self.old) }
    {
        match bytes {
            [] => self.escape_final(last),
            [b'#'] => self.escape_hash(last),
            [byte @ b'('..=b'/', others @ ..] => {
                self.set_slot(*byte, set_named(others, last));
                Ok(())
            }
            _ => Ok(()),
        }
    }
}
