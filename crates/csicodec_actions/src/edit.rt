//! Inserting, deleting, erasing and scrolling.
ghost use Rattle.csicodec_actions.specs.{Table.Edit.written_edit, Written.AllGood, Written.written_text, Common.Some, Common.length, Common.IsTrue};
ghost use Rattle.std.specs.Prelude.{◌≡◌, ◌↔◌, ◌≤◌, ◌++◌};

use crate::canonical::is_count;
use crate::encode::{write_choice, write_count};
use csicodec_base::{EraseInDisplay, EraseInLine, Text};
use std::fmt;

/// What a sequence does with the characters of the page. The unit is the cell of one character. Counts are 1 or more
/// where they were read; a terminal takes 0 for 1, and so `Repeat(0)` is written `0b` and read back as `Repeat(1)`.
///
/// It prints its parameter and the final character; `CSI` prints the `ESC [` too.
///
/// ```text
/// "\x1b[K"           EraseInLine(EraseToEndOfLine)
/// "\x1b[2J"          EraseInDisplay(EraseDisplay)
/// "\x1b[3L"          InsertLine(3)
/// ```
#[derive(Clone, Copy, Debug, PartialEq, Eq)]
pub enum Edit {
    /// ICH (ECMA-48, 8.3.64): this many blanks at the cursor, and what stood there moves to the right.
    InsertCharacter(u32),
    /// IL (ECMA-48, 8.3.67): this many blank lines at the cursor's line, which moves down.
    InsertLine(u32),
    /// DCH (ECMA-48, 8.3.26): takes out this many characters from the cursor on, and what is behind them moves to the left.
    DeleteCharacter(u32),
    /// DL (ECMA-48, 8.3.32): takes out this many lines from the cursor's line on, and what is below moves up.
    DeleteLine(u32),
    /// ECH (ECMA-48, 8.3.38): blanks this many characters from the cursor on.
    EraseCharacter(u32),
    /// SU (ECMA-48, 8.3.147): moves what is shown up by this many lines.
    ScrollUp(u32),
    /// SD (ECMA-48, 8.3.113): moves what is shown down by this many lines.
    ScrollDown(u32),
    /// REP (ECMA-48, 8.3.103): the character before this sequence, this many times more.
    Repeat(u32),
    /// ED (ECMA-48, 8.3.39): blanks a part of the page.
    EraseInDisplay(EraseInDisplay),
    /// EL (ECMA-48, 8.3.41): blanks a part of the cursor's line.
    EraseInLine(EraseInLine),
}

impl Edit {
    /// Appends the parameter and the final byte: 11 bytes at most. The text holds 10 at most before.
    pub fn write_to(&self, text: &mut Text)
        requires room { length text.old ≤ 10 }
        ensures { text.new ≡ text.old ++ written_text (written_edit self.now) }
    {
        match self {
            Edit::InsertCharacter(count) => write_count(text, *count, b'@'),
            Edit::InsertLine(count) => write_count(text, *count, b'L'),
            Edit::DeleteCharacter(count) => write_count(text, *count, b'P'),
            Edit::DeleteLine(count) => write_count(text, *count, b'M'),
            Edit::EraseCharacter(count) => write_count(text, *count, b'X'),
            Edit::ScrollUp(count) => write_count(text, *count, b'S'),
            Edit::ScrollDown(count) => write_count(text, *count, b'T'),
            Edit::Repeat(count) => write_count(text, *count, b'b'),
            Edit::EraseInDisplay(part) => write_choice(text, part.to_i64() as u8, b'J'),
            Edit::EraseInLine(part) => write_choice(text, part.to_i64() as u8, b'K'),
        }
    }

    /// Whether each number of an edit is read as itself.
    pub fn is_canonical(&self) -> bool
        ensures { IsTrue result ↔ AllGood (written_edit self.now).items }
    {
        match self {
            Edit::InsertCharacter(count)
            | Edit::InsertLine(count)
            | Edit::DeleteCharacter(count)
            | Edit::DeleteLine(count)
            | Edit::EraseCharacter(count)
            | Edit::ScrollUp(count)
            | Edit::ScrollDown(count)
            | Edit::Repeat(count) => is_count(*count),
            Edit::EraseInDisplay(_) | Edit::EraseInLine(_) => true,
        }
    }
}

/// Writes the parameter and the final character, without `ESC [`.
impl fmt::Display for Edit {
    ghost output = { λ e. Some (written_text (written_edit e)) };

    fn fmt<W: fmt::Write>(&self, f: &mut fmt::Formatter<W>) -> fmt::Result {
        let mut text = Text::new();
        self.write_to(&mut text);
        f.write_str(text.as_str())
    }
}
