//! What a character or an action does in a line.
ghost use Rattle.std.specs.Prelude.{◌≡◌, ◌∷◌, []};
ghost use Rattle.csicodec_looks.specs.Steps.{of_char};

use csicodec_base::Sgr;

/// The most columns that a movement or an edit goes, and the most cells of a line in which something is altered: the rows of terminals that
/// people use have no more.
pub const WIDEST: u32 = 512;

/// What a character or an action does in a line. Counts are 1 or more where they were read.
#[derive(Clone, Copy)]
pub enum Step {
    /// A character comes, in place of what stands at the cursor, or in insert mode in front of it.
    Put(char),
    /// The character that was put last comes so many times more, if nothing but marks came behind it.
    Repeat(u32),
    /// On to the next tab stop, by a tab where nothing stands there.
    Tab,
    /// So many tab stops to the right.
    Tabs(u32),
    /// So many tab stops to the left.
    TabsBack(u32),
    /// The line ends.
    NewLine,
    /// So many columns to the right.
    Right(u32),
    /// So many columns to the left.
    Left(u32),
    /// To this column, of which the first is 1.
    Column(u32),
    /// Nothing stands from the cursor on.
    EraseRight,
    /// Nor up to it, its column included.
    EraseLeft,
    /// Nor anywhere.
    EraseAll,
    /// Nothing stands on so many columns from the cursor on.
    Erase(u32),
    /// So many columns from the cursor on are taken out.
    Delete(u32),
    /// So many empty columns come at the cursor.
    Insert(u32),
    /// Characters that are put behind it have this attribute.
    Attribute(Sgr),
    /// Characters that are put behind it move what stands at the cursor to the right, or they don't.
    Inserts(bool),
    /// The place of the cursor is saved, and how characters look.
    Save,
    /// To the saved place, and characters look as they did there: in this row, or in another, and so a line of its own.
    Restore,
    /// Nothing is set or saved any more.
    Reset,
    /// To another row, or maybe so: to this column, or to the same.
    Leave(Option<u32>),
    /// To this row, and in it to this column, or to the same. That is in the line if it is the row that was given last, and it wasn't left
    /// since.
    Row(u32, Option<u32>),
    /// Nothing, but it stands behind the character that was put last.
    Other,
}

/// What a character does.
pub fn char_step(char: char) -> Step
    ensures { of_char char ≡ result ∷ [] }
{
    match char {
        '\n' => Step::NewLine,
        '\r' => Step::Column(1),
        '\u{8}' => Step::Left(1),
        '\t' => Step::Tab,
        '\u{b}' | '\u{c}' | '\u{84}' | '\u{8d}' | '\u{9b}' => Step::Leave(None),
        '\u{85}' => Step::Leave(Some(1)),
        '\0'..='\u{1f}' | '\u{7f}'..='\u{9f}' => Step::Other,
        _ => Step::Put(char),
    }
}
