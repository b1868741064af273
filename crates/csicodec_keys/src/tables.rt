//! A row of a table of keys, and the two look-ups; the tables are in `rows`.
ghost use Rattle.std.specs.Prelude.{◌≡◌};
ghost use Rattle.csicodec_keys.specs.Rows.{row_at, row_of};

use crate::code::KeyCode;

/// A key with what is held down, and what stands for it.
#[derive(Clone, Copy)]
pub(crate) struct Row {
    /// The key.
    pub(crate) code: KeyCode,
    /// The bits of the modifiers that are said by the form itself.
    pub(crate) held: u8,
    /// Its number; 0 where a character alone stands for it.
    pub(crate) number: u32,
    /// The final character, or the character alone.
    pub(crate) control: char,
}

/// The first row of a key with what is held down.
#[tactic(auto, unfolding(crate::specs::Rows::row_of))]
pub(crate) fn row_of(rows: &[Row], code: KeyCode, held: u8) -> Option<Row>
    ensures { result ≡ row_of rows.now code held }
{
    match rows {
        [] => None,
        [row, others @ ..] => {
            if row.code.same(code) && row.held == held {
                Some(*row)
            } else {
                row_of(others, code, held)
            }
        }
    }
}

/// The first row of a number and a final character.
#[tactic(auto, unfolding(crate::specs::Rows::row_at))]
pub(crate) fn row_at(rows: &[Row], number: u32, control: char) -> Option<Row>
    ensures { result ≡ row_at rows.now number control }
{
    match rows {
        [] => None,
        [row, others @ ..] => {
            if row.number == number && row.control == control {
                Some(*row)
            } else {
                row_at(others, number, control)
            }
        }
    }
}
