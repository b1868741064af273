//! What moves the cursor or edits by two numbers, by one, or by none: a number that is left out reads as 0. And what changes a private mode.
ghost use Rattle.std.specs.Prelude.{◌≡◌, ◌∷◌, [], List, IfNone, IfSome, None, Some, pos};
ghost use Rattle.csicodec_tokens.specs.{declared.param.CsiParam.CsiParam, declared.param.CsiParam.TheVariants.Integer, declared.param.CsiParam.TheVariants.P};
ghost use Rattle.csicodec_actions.specs.{Table.Cursor.as_cursor, Table.Edit.as_edit, Actions.Cursor as Moves, Actions.Edit as Edits};
ghost use Rattle.csicodec_structs.specs.Private.Short.{HasLaid, HasOne, IsOne, IsRow, IsTwo, ReadsOn, change_final};

use crate::digits::{number_front, or_default};
use crate::room::{Laid, put};
use crate::rows::{cursor_struct, edit_struct, mode_struct};
use crate::structs::Struct;
use csicodec_actions::{Change, Cursor, DecPrivateMode, Edit};
use csicodec_base::{EraseInDisplay, EraseInLine, OneBased};

/// What moves the cursor by a count before this final.
#[inline(always)]
#[tactic(auto, using(crate::proofs::Moved::counted))]
fn moved_by(number: u32, control: u8) -> Option<Cursor>
    ensures { IfSome result (λ c. (list : List CsiParam) → IsOne number list
        → as_cursor list control ≡ Some (Moves c)) }
{
    let count = or_default(number, 1);
    match control {
        b'A' => Some(Cursor::Up(count)),
        b'B' => Some(Cursor::Down(count)),
        b'C' => Some(Cursor::Right(count)),
        b'D' => Some(Cursor::Left(count)),
        b'E' => Some(Cursor::NextLine(count)),
        b'F' => Some(Cursor::PrecedingLine(count)),
        b'G' => Some(Cursor::CharacterAbsolute(OneBased::new(count))),
        b'`' => Some(Cursor::CharacterPositionAbsolute(OneBased::new(count))),
        b'I' => Some(Cursor::ForwardTabulation(count)),
        b'Z' => Some(Cursor::BackwardTabulation(count)),
        b'Y' => Some(Cursor::LineTabulation(count)),
        b'a' => Some(Cursor::CharacterPositionForward(count)),
        b'j' => Some(Cursor::CharacterPositionBackward(count)),
        b'd' => Some(Cursor::LinePositionAbsolute(count)),
        b'e' => Some(Cursor::LinePositionForward(count)),
        b'k' => Some(Cursor::LinePositionBackward(count)),
        _ => None,
    }
}

/// What moves the cursor by a line and a column before this final, or sets margins.
#[inline(always)]
#[tactic(auto, using(crate::proofs::Moved::paired))]
pub(crate) fn moved_to(first: u32, second: u32, control: u8) -> Option<Cursor>
    ensures { IfSome result (λ c. (list : List CsiParam) → IsTwo first second list
        → as_cursor list control ≡ Some (Moves c)) }
{
    let line = OneBased::new(or_default(first, 1));
    let col = OneBased::new(or_default(second, 1));
    match control {
        b'H' => Some(Cursor::Position { line, col }),
        b'R' => Some(Cursor::ActivePositionReport { line, col }),
        b'f' => Some(Cursor::CharacterAndLinePosition { line, col }),
        b'r' => Some(Cursor::SetTopAndBottomMargins {
            top: line,
            bottom: OneBased::new(or_default(second, u32::MAX)),
        }),
        _ => None,
    }
}

/// The edit by a number before this final.
#[inline(always)]
#[tactic(auto, using(crate::proofs::Moved::edited), unfolding(csicodec_actions::specs::Table::Cursor::as_cursor))]
fn edited(number: u32, control: u8) -> Option<Edit>
    ensures edits { IfSome result (λ e. (list : List CsiParam) → IsOne number list
        → as_edit list control ≡ Some (Edits e)) }
    ensures stays { IfSome result (λ e. (list : List CsiParam) → as_cursor list control ≡ None) }
{
    let count = or_default(number, 1);
    match control {
        b'@' => Some(Edit::InsertCharacter(count)),
        b'L' => Some(Edit::InsertLine(count)),
        b'P' => Some(Edit::DeleteCharacter(count)),
        b'M' => Some(Edit::DeleteLine(count)),
        b'X' => Some(Edit::EraseCharacter(count)),
        b'S' => Some(Edit::ScrollUp(count)),
        b'T' => Some(Edit::ScrollDown(count)),
        b'b' => Some(Edit::Repeat(count)),
        b'J' => Some(Edit::EraseInDisplay(EraseInDisplay::from_i64(i64::from(number))?)),
        b'K' => Some(Edit::EraseInLine(EraseInLine::from_i64(i64::from(number))?)),
        _ => None,
    }
}

/// The struct of what moves the cursor or edits by one number before this final.
#[inline(always)]
fn one_row(number: u32, control: u8) -> Option<Struct>
    ensures { IfSome result (λ given. (list : List CsiParam) → IsOne number list
        → IsRow list control given) }
{
    if let Some(cursor) = moved_by(number, control) {
        return Some(cursor_struct(&cursor));
    }
    if let Some(cursor) = moved_to(number, 0, control) {
        return Some(cursor_struct(&cursor));
    }
    let edit = edited(number, control)?;
    Some(edit_struct(&edit))
}

/// Puts what moves the cursor or edits by the one number that was read, or by none: that it is one, and what is behind it.
#[inline(never)]
pub(crate) fn lay_row<'a>(
    body: &[u8],
    number: u32,
    behind: &'a [u8],
    actions: &mut [Struct],
) -> Laid<'a>
    requires { HasOne body.now number behind.now }
    ensures some { IfSome result (λ x. HasLaid body.now actions.old actions.new x.0 x.1.now) }
    ensures none { IfNone result (actions.new ≡ actions.old) }
{
    let [control @ b'@'..=b'~', after @ ..] = behind else {
        return None;
    };
    let given = one_row(number, *control)?;
    put(actions, 0, given);
    Some((1, after))
}

/// What a final byte in front does to private modes, `h` or `l`, and what is behind it.
#[inline(always)]
fn change_front(text: &[u8]) -> Option<(Change, &[u8])>
    ensures { IfSome result (λ x. text.now ≡ change_final x.0 ∷ x.1.now) }
{
    match text {
        [b'h', after @ ..] => Some((Change::Set, after)),
        [b'l', after @ ..] => Some((Change::Reset, after)),
        _ => None,
    }
}

/// Puts the change of one private mode: that it is one, and what is behind it. The struct has the mode's number, so its name isn't looked up.
#[inline(always)]
pub(crate) fn lay_mode<'a>(body: &'a [u8], actions: &mut [Struct]) -> Laid<'a>
    ensures some { IfSome result (λ x. HasLaid body.now actions.old actions.new x.0 x.1.now) }
    ensures none { IfNone result (actions.new ≡ actions.old) }
{
    let [b'?', digits @ ..] = body else {
        return None;
    };
    let (number, behind) = number_front(digits)?;
    let (change, after) = change_front(behind)?;
    let mode = change.of(DecPrivateMode::Unspecified(number as u16));
    put(actions, 0, mode_struct(&mode));
    Some((1, after))
}
