//! The rows of paths of characters.
ghost use Rattle.csicodec_actions.specs.{Actions.SelectCharacterPath, Table.Path.as_path, Common.option_map};
ghost use Rattle.std.specs.Prelude.{◌≡◌};

use crate::CharacterPath;
use csicodec_base::CsiParam::{self, Integer, P};

/// The path before this final character, if a row reads the list.
#[tactic(auto, unfolding(crate::specs::Kinds::read, crate::specs::Table::Path::as_path))]
pub fn path_action(params: &[CsiParam], control: char) -> Option<(CharacterPath, i64)>
    ensures { option_map (λ p. SelectCharacterPath p.0 p.1) result ≡ as_path params.now control }
{
    if control != 'k' {
        return None;
    }
    match params {
        [P(b' ')] => Some((CharacterPath::ImplementationDefault, 0)),
        [Integer(path), P(b' ')] => Some((CharacterPath::from_i64(*path)?, 0)),
        [Integer(path), P(b';'), Integer(effect), P(b' ')] => {
            Some((CharacterPath::from_i64(*path)?, *effect))
        }
        _ => None,
    }
}
