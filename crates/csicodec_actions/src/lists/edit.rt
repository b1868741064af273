//! The rows that edit.
ghost use Rattle.csicodec_actions.specs.{Actions.Edit as Edits, Table.Edit.as_edit, Common.option_map};
ghost use Rattle.std.specs.Prelude.{◌≡◌};

use crate::Edit;
use crate::lists::params::{choice, place};
use csicodec_base::{CsiParam, EraseInDisplay, EraseInLine};

/// The edit before this final character, if a row reads the list.
#[tactic(auto, unfolding(crate::specs::Kinds::read, crate::specs::Table::Edit::as_edit))]
pub fn edit_action(params: &[CsiParam], control: char) -> Option<Edit>
    ensures { option_map (λ e. Edits e) result ≡ as_edit params.now control }
{
    match control {
        'J' => Some(Edit::EraseInDisplay(EraseInDisplay::from_i64(choice(params)?)?)),
        'K' => Some(Edit::EraseInLine(EraseInLine::from_i64(choice(params)?)?)),
        _ => {
            let count = place(params)?.as_one_based();
            match control {
                '@' => Some(Edit::InsertCharacter(count)),
                'L' => Some(Edit::InsertLine(count)),
                'P' => Some(Edit::DeleteCharacter(count)),
                'M' => Some(Edit::DeleteLine(count)),
                'X' => Some(Edit::EraseCharacter(count)),
                'S' => Some(Edit::ScrollUp(count)),
                'T' => Some(Edit::ScrollDown(count)),
                'b' => Some(Edit::Repeat(count)),
                _ => None,
            }
        }
    }
}
