//! The rows of the cursor.
ghost use Rattle.csicodec_actions.specs.{Actions.Cursor as Moves, Table.Cursor.as_cursor, Table.Cursor.as_move, Common.option_map};
ghost use Rattle.std.specs.Prelude.{◌≡◌};

use crate::Cursor;
use crate::lists::params::{choice, place, places};
use csicodec_base::{CsiParam, CursorStyle, CursorTabulationControl, OneBased, TabulationClear};

/// The action of the cursor before this final character, if a row reads the list.
///
/// ```text
/// cursor_action(&[CsiParam::Integer(2)], 'A')        // Some(Cursor::Up(2))
/// cursor_action(&[CsiParam::Integer(2)], 'm')        // None
/// ```
#[tactic(auto, using(crate::proofs::Finals::pairs), unfolding(crate::specs::Kinds::read, crate::specs::Table::Cursor::as_cursor))]
pub fn cursor_action(params: &[CsiParam], control: char) -> Option<Cursor>
    ensures { option_map (λ c. Moves c) result ≡ as_cursor params.now control }
{
    match control {
        'H' => {
            let (line, col) = places(params, 1)?;
            Some(Cursor::Position { line, col })
        }
        'R' => {
            let (line, col) = places(params, 1)?;
            Some(Cursor::ActivePositionReport { line, col })
        }
        'f' => {
            let (line, col) = places(params, 1)?;
            Some(Cursor::CharacterAndLinePosition { line, col })
        }
        'W' => Some(Cursor::TabulationControl(CursorTabulationControl::from_i64(choice(params)?)?)),
        'g' => Some(Cursor::TabulationClear(TabulationClear::from_i64(choice(params)?)?)),
        'r' => top_and_bottom(params),
        's' => left_and_right(params),
        'u' => params.is_empty().then_some(Cursor::RestoreCursor),
        'n' => matches!(params, [CsiParam::Integer(6)]).then_some(
            Cursor::RequestActivePositionReport,
        ),
        'q' => match params {
            [CsiParam::Integer(number), CsiParam::P(b' ')] => {
                Some(Cursor::CursorStyle(CursorStyle::from_i64(*number)?))
            }
            _ => None,
        },
        _ => moved(params, control),
    }
}

/// What moves the cursor by a count, or to a place, before this final character.
#[tactic(auto, using(crate::proofs::Finals::moves))]
#[inline(always)]
fn moved(params: &[CsiParam], control: char) -> Option<Cursor>
    ensures { option_map (λ c. Moves c) result ≡ as_move params.now control }
{
    let place = place(params)?;
    let count = place.as_one_based();
    match control {
        'A' => Some(Cursor::Up(count)),
        'B' => Some(Cursor::Down(count)),
        'C' => Some(Cursor::Right(count)),
        'D' => Some(Cursor::Left(count)),
        'E' => Some(Cursor::NextLine(count)),
        'F' => Some(Cursor::PrecedingLine(count)),
        'G' => Some(Cursor::CharacterAbsolute(place)),
        '`' => Some(Cursor::CharacterPositionAbsolute(place)),
        'I' => Some(Cursor::ForwardTabulation(count)),
        'Z' => Some(Cursor::BackwardTabulation(count)),
        'Y' => Some(Cursor::LineTabulation(count)),
        'a' => Some(Cursor::CharacterPositionForward(count)),
        'j' => Some(Cursor::CharacterPositionBackward(count)),
        'd' => Some(Cursor::LinePositionAbsolute(count)),
        'e' => Some(Cursor::LinePositionForward(count)),
        'k' => Some(Cursor::LinePositionBackward(count)),
        _ => None,
    }
}

/// A top and a bottom margin. A bottom of 0, or that is left out, is 4294967295.
#[tactic(auto, unfolding(crate::specs::Kinds::read, crate::specs::Table::Cursor::as_cursor))]
fn top_and_bottom(params: &[CsiParam]) -> Option<Cursor>
    ensures { option_map (λ c. Moves c) result ≡ as_cursor params.now 114 }
{
    let (top, bottom) = match params {
        [] => (OneBased::new(1), OneBased::new(u32::MAX)),
        [top] => (OneBased::from_esc_param(top).ok()?, OneBased::new(u32::MAX)),
        [top, CsiParam::P(b';'), bottom] => (
            OneBased::from_esc_param(top).ok()?,
            OneBased::from_esc_param_with_big_default(bottom).ok()?,
        ),
        [CsiParam::P(b';'), bottom] => (
            OneBased::new(1),
            OneBased::from_esc_param_with_big_default(bottom).ok()?,
        ),
        _ => return None,
    };
    Some(Cursor::SetTopAndBottomMargins { top, bottom })
}

/// Without a parameter the cursor is saved; else a left and a right margin. A right that is left out is 4294967295, and
/// one of 0 is 1.
#[tactic(auto, using(crate::proofs::Finals::sides))]
fn left_and_right(params: &[CsiParam]) -> Option<Cursor>
    ensures { option_map (λ c. Moves c) result ≡ as_cursor params.now 115 }
{
    if let [] = params {
        return Some(Cursor::SaveCursor);
    }
    let (left, right) = places(params, u32::MAX)?;
    Some(Cursor::SetLeftAndRightMargins { left, right })
}
