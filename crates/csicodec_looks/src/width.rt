//! How many columns a character has.
ghost use Rattle.std.specs.Prelude.{◌≡◌};
ghost use Rattle.csicodec_looks.specs.Cells.{width};

use unicode_width::UnicodeWidthChar;

/// The columns that a character takes behind so many. Terminals give it two at most.
pub(crate) fn width(char: char, column: usize) -> usize
    ensures { result ≡ width char column }
{
    if char == '\t' {
        return 8 - column % 8;
    }
    let columns = char.width().unwrap_or(0);
    if columns <= 2 { columns } else { 1 }
}
