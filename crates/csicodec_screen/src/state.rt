//! The parts of a screen's state.
ghost use Rattle.std.specs.Prelude.{◌≡◌};
ghost use Rattle.csicodec_screen.specs.Screen.{first_modes, unsaved, untitled, whole};

use crate::look::Pen;
use crate::sets::Sets;
use csicodec_tokens::TextBuffer;
use std::alloc::Global;

/// The first and the last row and column that scroll.
#[derive(Clone, Copy, PartialEq, Eq, Debug)]
pub struct Margins {
    pub top: u32,
    pub bottom: u32,
    pub left: u32,
    pub right: u32,
}

impl Margins {
    /// The edges of a screen of so many rows and columns.
    pub(crate) fn whole(rows: u32, columns: u32) -> Margins
        ensures { result ≡ whole rows columns }
    {
        Margins {
            top: 0,
            bottom: rows.saturating_sub(1),
            left: 0,
            right: columns.saturating_sub(1),
        }
    }
}

/// The modes that change what is shown.
#[derive(Clone, Copy, PartialEq, Eq, Debug)]
pub struct Modes {
    /// DECAWM (7): behind the last column characters go on in the next row.
    pub autowrap: bool,
    /// DECOM (6): places are counted from the margins' corner.
    pub origin: bool,
    /// DECLRMM (69): there are left and right margins.
    pub columns: bool,
    /// DECTCEM (25): the cursor is shown.
    pub visible: bool,
    /// DECSCNM (5): the colours of the whole screen change places.
    pub reverse: bool,
    /// Whether DECCOLM may erase (40).
    pub resizes: bool,
    /// IRM (4): characters move those right of them.
    pub inserts: bool,
    /// LNM (20): a line feed goes to the first column, too.
    pub new_line: bool,
    /// DECSACE: areas whose looks are changed are rectangles.
    pub rectangles: bool,
}

impl Modes {
    /// Those at first.
    pub(crate) fn first() -> Modes
        ensures { result ≡ first_modes }
    {
        Modes {
            autowrap: true,
            origin: false,
            columns: false,
            visible: true,
            reverse: false,
            resizes: false,
            inserts: false,
            new_line: false,
            rectangles: false,
        }
    }
}

/// What DECSC keeps (DEC VT510).
#[derive(Clone, Copy, PartialEq, Eq, Debug)]
pub struct Saved {
    pub row: u32,
    pub column: u32,
    pub pen: Pen,
    pub origin: bool,
    pub sets: Sets,
}

impl Saved {
    /// Where nothing was saved.
    pub(crate) fn none() -> Saved
        ensures { result ≡ unsaved }
    {
        Saved {
            row: 0,
            column: 0,
            pen: Pen::plain(),
            origin: false,
            sets: Sets::first(),
        }
    }
}

/// The titles of the window and of its icon.
#[derive(Drop)]
pub struct Titles {
    pub window: TextBuffer,
    pub icon: TextBuffer,
}

impl Titles {
    /// Both empty.
    pub(crate) fn none(alloc: Global) -> Titles
        ensures { result ≡ untitled }
    {
        Titles {
            window: TextBuffer::new(alloc),
            icon: TextBuffer::new(alloc),
        }
    }
}
