//! The rows of modes: those that are asked for, and modified keys.
ghost use Rattle.csicodec_actions.specs.{Actions.Mode as Modes, Kinds.Resource, Kinds.read, Table.Mode.as_mode, Common.Some, Common.option_and_then};
ghost use Rattle.csicodec_actions.specs.{Common.option_map};
ghost use Rattle.std.specs.Prelude.{◌≡◌};
ghost use Rattle.csicodec_actions.specs.declared.mode.Mode.TheVariants as mode;

use crate::{DecPrivateMode, Mode, TerminalMode, XtermKeyModifierResource};
use csicodec_base::CsiParam::{self, Integer, P};

/// What is asked or said of a mode before this final character, if a row reads the list.
#[tactic(auto, unfolding(crate::specs::Kinds::read, crate::specs::Table::Mode::as_mode))]
pub fn mode_action(params: &[CsiParam], control: char) -> Option<Mode>
    ensures { option_map (λ m. Modes m) result ≡ as_mode params.now control }
{
    match control {
        'p' => match params {
            [Integer(number), P(b'$')] => Some(Mode::QueryMode(TerminalMode::at(*number)?)),
            [P(b'?'), Integer(number), P(b'$')] => {
                Some(Mode::QueryDecPrivateMode(DecPrivateMode::at(*number)?))
            }
            _ => None,
        },
        'm' => match params {
            [P(b'>'), Integer(number)] => key_mode(*number, None),
            [P(b'>'), Integer(number), P(b';')] => key_mode(*number, None),
            [P(b'>'), Integer(number), P(b';'), Integer(value)] => key_mode(*number, Some(*value)),
            _ => None,
        },
        _ => None,
    }
}

/// The keys of a number, and their value.
fn key_mode(number: i64, value: Option<i64>) -> Option<Mode>
    ensures { option_map (λ m. Modes m) result
        ≡ option_and_then (λ keys. Some (Modes (mode.XtermKeyMode keys value))) (read Resource number) }
{
    let resource = XtermKeyModifierResource::parse(number)?;
    Some(Mode::XtermKeyMode { resource, value })
}
