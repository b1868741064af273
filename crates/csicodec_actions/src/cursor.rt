//! Moving the cursor, tab stops and margins.
ghost use Rattle.csicodec_actions.specs.{Common.[], Common.Some, Common.length, Common.IsTrue, Common.most, Actions.Cursor as Moves, Kinds.Count, Special.IsSpecial};
ghost use Rattle.csicodec_actions.specs.{Table.Cursor.written_cursor, Written.AllGood, Written.shown, Written.two, Written.written_text};
ghost use Rattle.std.specs.Prelude.{◌≡◌, ◌↔◌, ◌==◌, ◌&&◌, ◌≤◌, ◌<◌, ◌++◌, ◌∷◌, if◌then◌else◌};

use crate::canonical::{is_count, is_one_based};
use crate::encode::{write_choice, write_count, write_pair};
use csicodec_base::{CursorStyle, CursorTabulationControl, OneBased, TabulationClear, Text};
use std::fmt;

/// What a sequence does with the cursor, with tab stops or with margins. The unit is the cell of one character. Counts
/// are 1 or more where they were read; a terminal takes 0 for 1, and so `Up(0)` is written `0A` and read back as `Up(1)`.
/// Lines and columns are counted from 1, at the top and at the left.
///
/// It prints its parameters and the final character; `CSI` prints the `ESC [` too.
///
/// ```text
/// "\x1b[2A"          Up(2)
/// "\x1b[5;7H"        Position { line: 5, col: 7 }
/// "\x1b[r"           SetTopAndBottomMargins { top: 1, bottom: 4294967295 }
/// "\x1b[6n"          RequestActivePositionReport
/// ```
#[derive(Clone, Copy, Debug, PartialEq, Eq)]
pub enum Cursor {
    /// CUU (ECMA-48, 8.3.22): this many lines up.
    Up(u32),
    /// CUD (ECMA-48, 8.3.19): this many lines down.
    Down(u32),
    /// CUF (ECMA-48, 8.3.20): this many columns to the right.
    Right(u32),
    /// CUB (ECMA-48, 8.3.18): this many columns to the left.
    Left(u32),
    /// CNL (ECMA-48, 8.3.12): to the start of the line this many lines down.
    NextLine(u32),
    /// CPL (ECMA-48, 8.3.13): to the start of the line this many lines up.
    PrecedingLine(u32),
    /// CHA (ECMA-48, 8.3.9): to this column.
    CharacterAbsolute(OneBased),
    /// HPA (ECMA-48, 8.3.57): to this column of the data.
    CharacterPositionAbsolute(OneBased),
    /// CUP (ECMA-48, 8.3.21): to this line and column.
    Position {
        /// The line.
        line: OneBased,
        /// The column.
        col: OneBased,
    },
    /// CPR (ECMA-48, 8.3.14): the terminal's answer, where the cursor is.
    ActivePositionReport {
        /// The line.
        line: OneBased,
        /// The column.
        col: OneBased,
    },
    /// HVP (ECMA-48, 8.3.63): to this line and column of the data.
    CharacterAndLinePosition {
        /// The line.
        line: OneBased,
        /// The column.
        col: OneBased,
    },
    /// CHT (ECMA-48, 8.3.10): on to this many character tab stops.
    ForwardTabulation(u32),
    /// CBT (ECMA-48, 8.3.7): back to this many character tab stops.
    BackwardTabulation(u32),
    /// CVT (ECMA-48, 8.3.23): down to this many line tab stops.
    LineTabulation(u32),
    /// HPR (ECMA-48, 8.3.59): this many columns on in the data.
    CharacterPositionForward(u32),
    /// HPB (ECMA-48, 8.3.58): this many columns back in the data.
    CharacterPositionBackward(u32),
    /// VPA (ECMA-48, 8.3.158): to this line of the data, in the same column. As termwiz has it, a count.
    LinePositionAbsolute(u32),
    /// VPR (ECMA-48, 8.3.160): this many lines on in the data.
    LinePositionForward(u32),
    /// VPB (ECMA-48, 8.3.159): this many lines back in the data.
    LinePositionBackward(u32),
    /// CTC (ECMA-48, 8.3.17): sets or clears tab stops.
    TabulationControl(CursorTabulationControl),
    /// TBC (ECMA-48, 8.3.154): clears tab stops.
    TabulationClear(TabulationClear),
    /// DECSTBM (DEC VT100): the first and the last line that scroll. A bottom of 4294967295 is the page's last line.
    SetTopAndBottomMargins {
        /// The first line.
        top: OneBased,
        /// The last line.
        bottom: OneBased,
    },
    /// DECSLRM (DEC VT420): the first and the last column that scroll. A right of 4294967295 is the page's last column.
    /// The margins from 1 to 4294967295 have no text of their own: theirs is that of `SaveCursor`.
    SetLeftAndRightMargins {
        /// The first column.
        left: OneBased,
        /// The last column.
        right: OneBased,
    },
    /// SCOSC (SCO console, ANSI.SYS): keeps the cursor's position.
    SaveCursor,
    /// SCORC (SCO console, ANSI.SYS): goes back to the position that was kept.
    RestoreCursor,
    /// DSR 6 (ECMA-48, 8.3.35): asks where the cursor is, for an `ActivePositionReport`.
    RequestActivePositionReport,
    /// DECSCUSR (DEC VT520): how the cursor looks.
    CursorStyle(CursorStyle),
}

impl Cursor {
    /// Appends the parameters and the final byte: 22 bytes at most. The text holds 10 at most before.
    pub fn write_to(&self, text: &mut Text)
        requires room { length text.old ≤ 10 }
        ensures { text.new ≡ text.old ++ written_text (written_cursor self.now) }
    {
        match self {
            Cursor::Up(count) => write_count(text, *count, b'A'),
            Cursor::Down(count) => write_count(text, *count, b'B'),
            Cursor::Right(count) => write_count(text, *count, b'C'),
            Cursor::Left(count) => write_count(text, *count, b'D'),
            Cursor::NextLine(count) => write_count(text, *count, b'E'),
            Cursor::PrecedingLine(count) => write_count(text, *count, b'F'),
            Cursor::CharacterAbsolute(col) => write_count(text, col.as_one_based(), b'G'),
            Cursor::CharacterPositionAbsolute(col) => write_count(text, col.as_one_based(), b'`'),
            Cursor::Position { line, col } => write_pair(text, *line, *col, b'H'),
            Cursor::ActivePositionReport { line, col } => write_pair(text, *line, *col, b'R'),
            Cursor::CharacterAndLinePosition { line, col } => write_pair(text, *line, *col, b'f'),
            Cursor::ForwardTabulation(count) => write_count(text, *count, b'I'),
            Cursor::BackwardTabulation(count) => write_count(text, *count, b'Z'),
            Cursor::LineTabulation(count) => write_count(text, *count, b'Y'),
            Cursor::CharacterPositionForward(count) => write_count(text, *count, b'a'),
            Cursor::CharacterPositionBackward(count) => write_count(text, *count, b'j'),
            Cursor::LinePositionAbsolute(count) => write_count(text, *count, b'd'),
            Cursor::LinePositionForward(count) => write_count(text, *count, b'e'),
            Cursor::LinePositionBackward(count) => write_count(text, *count, b'k'),
            Cursor::TabulationControl(control) => write_choice(text, control.to_i64() as u8, b'W'),
            Cursor::TabulationClear(clear) => write_choice(text, clear.to_i64() as u8, b'g'),
            Cursor::SetTopAndBottomMargins { top, bottom } => {
                write_margins(text, *top, *bottom, b'r');
            }
            Cursor::SetLeftAndRightMargins { left, right } => {
                write_margins(text, *left, *right, b's');
            }
            Cursor::SaveCursor => text.push(b's'),
            Cursor::RestoreCursor => text.push(b'u'),
            Cursor::RequestActivePositionReport => {
                text.push_u8(6);
                text.push(b'n');
            }
            Cursor::CursorStyle(style) => {
                text.push_u8(style.to_i64() as u8);
                text.push_str(" q");
            }
        }
    }

    /// Whether each number of an action of the cursor is read as itself.
    pub fn is_canonical(&self) -> bool
        ensures { IsTrue result ↔ AllGood (written_cursor self.now).items }
    {
        match self {
            Cursor::Up(count)
            | Cursor::Down(count)
            | Cursor::Right(count)
            | Cursor::Left(count)
            | Cursor::NextLine(count)
            | Cursor::PrecedingLine(count)
            | Cursor::ForwardTabulation(count)
            | Cursor::BackwardTabulation(count)
            | Cursor::LineTabulation(count)
            | Cursor::CharacterPositionForward(count)
            | Cursor::CharacterPositionBackward(count)
            | Cursor::LinePositionAbsolute(count)
            | Cursor::LinePositionForward(count)
            | Cursor::LinePositionBackward(count) => is_count(*count),
            Cursor::CharacterAbsolute(place) | Cursor::CharacterPositionAbsolute(place) => {
                is_one_based(*place)
            }
            Cursor::Position {
                line: first,
                col: second,
            }
            | Cursor::ActivePositionReport {
                line: first,
                col: second,
            }
            | Cursor::CharacterAndLinePosition {
                line: first,
                col: second,
            }
            | Cursor::SetTopAndBottomMargins {
                top: first,
                bottom: second,
            }
            | Cursor::SetLeftAndRightMargins {
                left: first,
                right: second,
            } => is_one_based(*first) && is_one_based(*second),
            _ => true,
        }
    }

    /// Margins all around, which are written as the cursor that is saved.
    pub fn is_special(&self) -> bool
        ensures { IsTrue result ↔ IsSpecial (Moves self.now) }
    {
        match self {
            Cursor::SetLeftAndRightMargins { left, right } => {
                left.as_one_based() == 1 && right.as_one_based() == u32::MAX
            }
            _ => false,
        }
    }
}

/// Two margins, unless they are all around, and the final byte.
fn write_margins(text: &mut Text, first: OneBased, second: OneBased, control: u8)
    requires room { length text.old ≤ 10 }
    requires ascii { control < 128 }
    ensures { text.new ≡ text.old ++ shown (if first == 1 && second == most then [] else two Count first second) (control ∷ []) }
{
    if first.as_one_based() == 1 && second.as_one_based() == u32::MAX {
        text.push(control);
    } else {
        write_pair(text, first, second, control);
    }
}

/// Writes the parameters and the final character, without `ESC [`.
impl fmt::Display for Cursor {
    ghost output = { λ c. Some (written_text (written_cursor c)) };

    fn fmt<W: fmt::Write>(&self, f: &mut fmt::Formatter<W>) -> fmt::Result {
        let mut text = Text::new();
        self.write_to(&mut text);
        f.write_str(text.as_str())
    }
}
