//! How characters are put, and what is saved.
ghost use Rattle.std.specs.Prelude.{◌≡◌, true};
ghost use Rattle.csicodec_looks.specs.{Line.fresh, Line.is_row, Line.pen_behind, Plain.PutsPlain};

use crate::look::Look;
use crate::step::{Step, WIDEST};
use crate::width::width;

/// How characters are put that come now, and the place and the look that are saved.
#[derive(Clone, Copy)]
pub struct Pen {
    /// How they look.
    pub look: Look,
    /// Whether what stands at the cursor moves to the right for them (IRM).
    pub inserts: bool,
    /// The character that was put last, if nothing came behind it but marks: REP repeats it.
    pub last: Option<char>,
    /// The columns left of the saved place, at most 511; 0 where none is saved.
    pub saved: usize,
    /// How characters looked there; plain where none is saved.
    pub saved_look: Look,
    /// Whether that place is in this row.
    pub here: bool,
    /// The row that was given last (CUP, HVP, VPA), if it wasn't left since.
    pub row: Option<u32>,
}

impl Pen {
    /// With nothing set or saved.
    pub fn new() -> Pen
        ensures { result ≡ fresh }
    {
        Pen {
            look: Look::plain(),
            inserts: false,
            last: None,
            saved: 0,
            saved_look: Look::plain(),
            here: false,
            row: None,
        }
    }

    /// Whether this is the row that was given last.
    pub(crate) fn is_in(&self, row: u32) -> bool
        ensures { result ≡ is_row self.now.row row }
    {
        match self.row {
            Some(own) => own == row,
            None => false,
        }
    }

    /// Whether it puts characters in place of others, and without attributes, if lines are painted.
    pub fn puts_plain(&self, painted: bool) -> bool
        ensures { result ≡ true → PutsPlain painted self.now }
    {
        !self.inserts && (!painted || self.look == Look::plain())
    }

    /// Takes a step that is done where so many columns are left of the cursor.
    #[inline(always)]
    pub fn take(&mut self, step: Step, column: usize)
        ensures { self.new ≡ pen_behind self.old step column }
    {
        let last = self.last;
        self.last = None;
        match step {
            // A mark isn't repeated.
            Step::Put(char) if width(char, 0) == 0 => self.last = last,
            Step::Put(char) => self.last = Some(char),
            Step::Attribute(attribute) => self.look.set(&attribute),
            Step::Inserts(inserts) => self.inserts = inserts,
            Step::Save => {
                self.here = column < WIDEST as usize;
                self.saved = if self.here { column } else { 0 };
                self.saved_look = self.look;
            }
            Step::Restore => {
                self.look = self.saved_look;
                self.here = true;
                self.row = None;
            }
            Step::NewLine | Step::Leave(_) => {
                self.here = false;
                self.row = None;
            }
            Step::Row(row, _) => {
                self.here = self.is_in(row) && self.here;
                self.row = Some(row);
            }
            Step::Reset => *self = Pen::new(),
            _ => (),
        }
    }
}
