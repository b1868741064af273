//! The steps of text, of escape sequences and of actions.
ghost use Rattle.std.specs.{Prelude.◌≡◌, Prelude.◌<◌, Prelude.◌≤◌, Prelude.◌++◌, Prelude.◌∷◌, Prelude.[], Prelude.ℕ, Prelude.List, Prelude.length, Prelude.map};
ghost use Rattle.std.specs.{Prelude.OnOk, Prelude.IfOk, List.flat_map, List.list_all};
ghost use Rattle.csicodec_actions.specs.Devices.{device_of};
ghost use Rattle.csicodec_parser.specs.ActionOf.{action_of};
ghost use Rattle.csicodec_clean.specs.{Private.Steps.ReadsTo, Sets.in_use, Sets.shifted, Shown.IsCut, Shown.IsRead};
ghost use Rattle.csicodec_looks.specs.{Sets.char_in, Steps.of_char, Steps.of_chars};
ghost use Rattle.csicodec_overwrite.specs.Steps.{as_far, by_code, by_escape, is_mark, may_move, may_move_with, never_moves, of_action, of_actions, of_code, of_cursor, of_device, of_edit, of_escape, of_final, of_mode, of_run, of_terminal, stops, switched};
ghost use Rattle.csicodec_overwrite.specs.Private.Spans.{DrawsTo, if_some};

use csicodec_actions::{Cursor, DecPrivateMode, Device, Edit, Mode, TerminalMode};
use csicodec_base::{CsiParam, DecPrivateModeCode, EraseInDisplay, EraseInLine, TerminalModeCode};
use csicodec_clean::{Sets, first_sure};
use csicodec_looks::{Step, WIDEST, char_step};
use csicodec_parser::CSI;
use csicodec_transform::keep_from;
use std::alloc::AllocError;

/// A count or a column, as far as it goes.
fn as_far(count: u32) -> u32
    ensures { result ≡ as_far count }
{
    count.min(WIDEST)
}

/// So many tab stops, as far as they go.
fn stops(count: u32) -> u32
    ensures { result ≡ stops count }
{
    count.min(WIDEST / 8)
}

/// A step, and another before it, if there are such.
type Both = (Option<Step>, Option<Step>);

/// Appends a step, if there is one.
fn append_some(step: Option<Step>, steps: &mut Vec<Step>) -> Result<(), AllocError>
    ensures { OnOk result (steps.new.items ≡ steps.old.items ++ if_some step) }
{
    if let Some(step) = step {
        steps.push(step)?;
    }
    Ok(())
}

/// Appends a step and the one before it, if there are such.
fn append_both(both: Both, steps: &mut Vec<Step>) -> Result<(), AllocError>
    ensures { OnOk result (steps.new.items ≡ steps.old.items ++ (if_some both.0 ++ if_some both.1)) }
{
    append_some(both.0, steps)?;
    append_some(both.1, steps)
}

/// What an escape sequence without an intermediate byte does.
fn final_steps(byte: u8) -> Both
    ensures { of_final byte ≡ if_some result.0 ++ if_some result.1 }
{
    match byte {
        b'D' | b'M' => (None, Some(Step::Leave(None))),
        b'E' => (None, Some(Step::Leave(Some(1)))),
        b'7' => (None, Some(Step::Save)),
        b'8' => (None, Some(Step::Restore)),
        b'c' => (Some(Step::Leave(Some(1))), Some(Step::Reset)),
        _ => (None, Some(Step::Other)),
    }
}

/// Appends what an escape sequence does.
pub(crate) fn append_escape(bytes: &[u8], steps: &mut Vec<Step>) -> Result<(), AllocError>
    ensures { OnOk result (steps.new.items ≡ steps.old.items ++ of_escape bytes.now) }
{
    if bytes.len() == 2 {
        return append_both(final_steps(bytes[1]), steps);
    }
    if bytes.len() == 3 && bytes[1] == b'#' && bytes[2] == b'8' {
        return Ok(steps.push(Step::Leave(Some(1)))?);
    }
    Ok(steps.push(Step::Other)?)
}

/// Appends the step for each ESC, of which one introduces each control string, and each sequence that went wrong.
pub(crate) fn append_by_escape(
    bytes: &[u8],
    step: Step,
    steps: &mut Vec<Step>,
) -> Result<(), AllocError>
    ensures { OnOk result
        (steps.new.items ≡ steps.old.items ++ flat_map (by_escape step) bytes.now) }
{
    for byte in bytes {
        if *byte == 0x1b {
            steps.push(step)?;
        }
    }
    Ok(())
}

/// What moving the cursor does.
fn cursor_step(cursor: &Cursor) -> Option<Step>
    ensures { of_cursor cursor.now ≡ if_some result }
{
    match cursor {
        Cursor::Right(count) | Cursor::CharacterPositionForward(count) => {
            Some(Step::Right(as_far(*count)))
        }
        Cursor::Left(count) | Cursor::CharacterPositionBackward(count) => {
            Some(Step::Left(as_far(*count)))
        }
        Cursor::CharacterAbsolute(col) | Cursor::CharacterPositionAbsolute(col) => {
            Some(Step::Column(as_far(col.as_one_based())))
        }
        Cursor::ForwardTabulation(count) => Some(Step::Tabs(stops(*count))),
        Cursor::BackwardTabulation(count) => Some(Step::TabsBack(stops(*count))),
        Cursor::SaveCursor => Some(Step::Save),
        Cursor::RestoreCursor => Some(Step::Restore),
        Cursor::Position { line, col } | Cursor::CharacterAndLinePosition { line, col } => {
            let column = as_far(col.as_one_based());
            Some(Step::Row(line.as_one_based(), Some(column)))
        }
        Cursor::LinePositionAbsolute(row) => Some(Step::Row(*row, None)),
        Cursor::Up(_)
        | Cursor::Down(_)
        | Cursor::LineTabulation(_)
        | Cursor::LinePositionForward(_)
        | Cursor::LinePositionBackward(_) => Some(Step::Leave(None)),
        Cursor::NextLine(_) | Cursor::PrecedingLine(_) | Cursor::SetTopAndBottomMargins { .. } => {
            Some(Step::Leave(Some(1)))
        }
        Cursor::ActivePositionReport { .. }
        | Cursor::TabulationControl(_)
        | Cursor::TabulationClear(_)
        | Cursor::SetLeftAndRightMargins { .. }
        | Cursor::RequestActivePositionReport
        | Cursor::CursorStyle(_) => None,
    }
}

/// What an edit does.
fn edit_step(edit: &Edit) -> Option<Step>
    ensures { of_edit edit.now ≡ if_some result }
{
    match edit {
        Edit::EraseCharacter(count) => Some(Step::Erase(as_far(*count))),
        Edit::DeleteCharacter(count) => Some(Step::Delete(as_far(*count))),
        Edit::InsertCharacter(count) => Some(Step::Insert(as_far(*count))),
        Edit::Repeat(count) => Some(Step::Repeat(as_far(*count))),
        Edit::EraseInLine(EraseInLine::EraseToEndOfLine)
        | Edit::EraseInDisplay(EraseInDisplay::EraseToEndOfDisplay) => Some(Step::EraseRight),
        Edit::EraseInLine(EraseInLine::EraseToStartOfLine) => Some(Step::EraseLeft),
        Edit::EraseInLine(EraseInLine::EraseLine) => Some(Step::EraseAll),
        Edit::EraseInDisplay(EraseInDisplay::EraseToStartOfDisplay)
        | Edit::EraseInDisplay(EraseInDisplay::EraseDisplay) => Some(Step::Leave(None)),
        Edit::EraseInDisplay(EraseInDisplay::EraseScrollback) => None,
        Edit::ScrollUp(_) | Edit::ScrollDown(_) => Some(Step::Leave(None)),
        Edit::InsertLine(_) | Edit::DeleteLine(_) => Some(Step::Leave(Some(1))),
    }
}

/// What a private mode does, whatever becomes of it.
fn code_step(code: DecPrivateModeCode) -> Option<Step>
    ensures { of_code code ≡ if_some result }
{
    match code {
        DecPrivateModeCode::EnableAlternateScreen
        | DecPrivateModeCode::OptEnableAlternateScreen
        | DecPrivateModeCode::SaveCursor
        | DecPrivateModeCode::ClearAndEnableAlternateScreen => Some(Step::Leave(None)),
        DecPrivateModeCode::Select132Columns | DecPrivateModeCode::OriginMode => {
            Some(Step::Leave(Some(1)))
        }
        DecPrivateModeCode::ApplicationCursorKeys
        | DecPrivateModeCode::DecAnsiMode
        | DecPrivateModeCode::SmoothScroll
        | DecPrivateModeCode::ReverseVideo
        | DecPrivateModeCode::AutoWrap
        | DecPrivateModeCode::AutoRepeat
        | DecPrivateModeCode::StartBlinkingCursor
        | DecPrivateModeCode::ShowCursor
        | DecPrivateModeCode::ReverseWraparound
        | DecPrivateModeCode::LeftRightMarginMode
        | DecPrivateModeCode::SixelDisplayMode
        | DecPrivateModeCode::MouseTracking
        | DecPrivateModeCode::HighlightMouseTracking
        | DecPrivateModeCode::ButtonEventMouse
        | DecPrivateModeCode::AnyEventMouse
        | DecPrivateModeCode::FocusTracking
        | DecPrivateModeCode::Utf8Mouse
        | DecPrivateModeCode::SGRMouse
        | DecPrivateModeCode::SGRPixelsMouse
        | DecPrivateModeCode::XTermMetaSendsEscape
        | DecPrivateModeCode::XTermAltSendsEscape
        | DecPrivateModeCode::UsePrivateColorRegistersForEachGraphic
        | DecPrivateModeCode::BracketedPaste
        | DecPrivateModeCode::SynchronizedOutput
        | DecPrivateModeCode::GraphemeClustering
        | DecPrivateModeCode::MinTTYApplicationEscapeKeyMode
        | DecPrivateModeCode::SixelScrollsRight
        | DecPrivateModeCode::Win32InputMode => None,
    }
}

/// What a private mode does that is set or reset.
fn switched_steps(set: bool, mode: DecPrivateMode) -> Both
    ensures { by_code (λ code. switched code set) mode ≡ if_some result.0 ++ if_some result.1 }
{
    match mode {
        DecPrivateMode::Code(DecPrivateModeCode::SaveCursor) if set => (None, Some(Step::Save)),
        DecPrivateMode::Code(DecPrivateModeCode::SaveCursor) => (None, Some(Step::Restore)),
        DecPrivateMode::Code(DecPrivateModeCode::ClearAndEnableAlternateScreen) if set => {
            (Some(Step::Save), Some(Step::Leave(None)))
        }
        DecPrivateMode::Code(DecPrivateModeCode::ClearAndEnableAlternateScreen) => {
            (Some(Step::Leave(None)), Some(Step::Restore))
        }
        DecPrivateMode::Code(code) => (None, code_step(code)),
        DecPrivateMode::Unspecified(_) => (None, None),
    }
}

/// What a mode does that is no private one, and is set or reset.
fn terminal_step(set: bool, mode: TerminalMode) -> Option<Step>
    ensures { of_terminal set mode ≡ if_some result }
{
    match mode {
        TerminalMode::Code(TerminalModeCode::Insert) => Some(Step::Inserts(set)),
        TerminalMode::Code(
            TerminalModeCode::KeyboardAction
            | TerminalModeCode::BiDirectionalSupportMode
            | TerminalModeCode::SendReceive
            | TerminalModeCode::AutomaticNewline
            | TerminalModeCode::ShowCursor,
        )
        | TerminalMode::Unspecified(_) => None,
    }
}

/// What a mode does.
fn mode_steps(mode: &Mode) -> Both
    ensures { of_mode mode.now ≡ if_some result.0 ++ if_some result.1 }
{
    match mode {
        Mode::SetDecPrivateMode(mode) => switched_steps(true, *mode),
        Mode::ResetDecPrivateMode(mode) => switched_steps(false, *mode),
        Mode::RestoreDecPrivateMode(DecPrivateMode::Code(code)) => (None, code_step(*code)),
        Mode::SetMode(mode) => (None, terminal_step(true, *mode)),
        Mode::ResetMode(mode) => (None, terminal_step(false, *mode)),
        Mode::RestoreDecPrivateMode(DecPrivateMode::Unspecified(_))
        | Mode::SaveDecPrivateMode(_)
        | Mode::QueryDecPrivateMode(_)
        | Mode::QueryMode(_)
        | Mode::XtermKeyMode { .. } => (None, None),
    }
}

/// What a device does.
fn device_step(device: &Device) -> Option<Step>
    ensures { of_device (device_of device.now) ≡ if_some result }
{
    match device {
        Device::SoftReset => Some(Step::Reset),
        Device::DeviceAttributes(_)
        | Device::RequestPrimaryDeviceAttributes
        | Device::RequestSecondaryDeviceAttributes
        | Device::RequestTertiaryDeviceAttributes
        | Device::RequestTerminalNameAndVersion
        | Device::RequestTerminalParameters(_)
        | Device::StatusReport
        | Device::XtSmGraphics(_) => None,
    }
}

/// Whether a token is a private marker or an intermediate byte.
fn is_mark(token: &CsiParam) -> bool
    ensures { result ≡ is_mark token.now }
{
    match token {
        CsiParam::Integer(_) => false,
        CsiParam::P(byte) => *byte < b'0' || b';' < *byte,
    }
}

/// Whether no terminal moves the cursor by this final.
fn never_moves(control: char) -> bool
    ensures { result ≡ never_moves control }
{
    matches!(
        control,
        'm' | 'J' | 'K' | 'c' | 'i' | 'n' | 'q' | 't' | 'x' | 'y'
    )
}

/// Whether one may with this token in front of it.
fn may_move_with(control: char, token: &CsiParam) -> bool
    ensures { result ≡ may_move_with control token.now }
{
    match (control, token) {
        ('h' | 'l', _) | ('r', CsiParam::P(b'?')) | ('}', CsiParam::P(b'$' | b'\'')) => true,
        _ => !is_mark(token),
    }
}

/// Whether one may with each of these in front of it.
fn may_move_with_all(control: char, params: &[CsiParam]) -> bool
    ensures { result ≡ list_all (may_move_with control) params.now }
{
    let mut rest = params;
    while let [first, others @ ..] = rest {
        if !may_move_with(control, first) {
            return false;
        }
        rest = others;
    }
    true
}

/// Whether a list of which no action is read may move the cursor.
fn may_move(params: &[CsiParam], control: char) -> bool
    ensures { result ≡ may_move params.now control }
{
    !never_moves(control) && may_move_with_all(control, params)
}

/// Appends what an action does.
fn append_action(action: &CSI, steps: &mut Vec<Step>) -> Result<(), AllocError>
    ensures { OnOk result
        (steps.new.items ≡ steps.old.items ++ of_action (action_of action.now)) }
{
    match action {
        CSI::Cursor(cursor) => append_some(cursor_step(cursor), steps),
        CSI::Edit(edit) => append_some(edit_step(edit), steps),
        CSI::Sgr(attribute) => Ok(steps.push(Step::Attribute(*attribute))?),
        CSI::Mode(mode) => append_both(mode_steps(mode), steps),
        CSI::Device(device) => append_some(device_step(device), steps),
        CSI::Unspecified(unread) if may_move(&unread.params, unread.control) => {
            Ok(steps.push(Step::Leave(None))?)
        }
        CSI::Unspecified(_)
        | CSI::Mouse(_)
        | CSI::Window(_)
        | CSI::Keyboard(_)
        | CSI::SelectCharacterPath(_, _) => Ok(()),
    }
}

/// Appends what actions do, one after the other.
pub(crate) fn append_actions(actions: &[CSI], steps: &mut Vec<Step>) -> Result<(), AllocError>
    ensures { OnOk result
        (steps.new.items ≡ steps.old.items ++ of_actions (map action_of actions.now)) }
{
    for action in actions {
        append_action(action, steps)?;
    }
    Ok(())
}

/// Appends the steps of the characters that are sure, whatever follows, and answers the other bytes: three at most.
fn append_sure<'a>(bytes: &'a [u8], steps: &mut Vec<Step>) -> Result<&'a [u8], AllocError>
    ensures parts { IfOk result (λ rest. (front : List ℕ) × (bytes.now ≡ front ++ rest.now)) }
    ensures chars { IfOk result
        (λ rest. (chars : List ℕ) × IsRead bytes.now chars rest.now
        × (steps.new.items ≡ steps.old.items ++ of_chars chars)) }
    ensures cut { IfOk result (λ rest. IsCut rest.now) }
    ensures short { IfOk result (λ rest. length rest.now ≤ 3) }
{
    let mut rest = bytes;
    while let Some((char, size)) = first_sure(rest) {
        steps.push(char_step(char))?;
        rest = rest.split_at(size).1;
    }
    Ok(rest)
}

/// Appends the steps of a run of text that is over.
pub(crate) fn append_run(bytes: &[u8], steps: &mut Vec<Step>) -> Result<(), AllocError>
    ensures { OnOk result (steps.new.items ≡ steps.old.items ++ of_run bytes.now) }
{
    let rest = append_sure(bytes, steps)?;
    if !rest.is_empty() {
        steps.push(char_step('\u{FFFD}'))?;
    }
    Ok(())
}

/// Appends the steps of bytes, as far as they are sure; `held` are the bytes before them that aren't, and then those at their end.
fn append_bytes(held: &mut Vec<u8>, bytes: &[u8], steps: &mut Vec<Step>) -> Result<(), AllocError>
    ensures chars { OnOk result
        ((chars : List ℕ) × ReadsTo (held.old.items ++ bytes.now) chars held.new.items
        × (steps.new.items ≡ steps.old.items ++ of_chars chars)) }
    ensures short { OnOk result (length held.new.items ≤ 3) }
{
    held.extend_from_slice(bytes)?;
    let sure = held.len() - append_sure(held, steps)?.len();
    keep_from(held, sure);
    Ok(())
}

/// Appends the steps of the bytes that are held: nothing of their character follows.
pub(crate) fn append_held(held: &mut Vec<u8>, steps: &mut Vec<Step>) -> Result<(), AllocError>
    ensures none { OnOk result (held.new.items ≡ []) }
    ensures steps { OnOk result (steps.new.items ≡ steps.old.items ++ of_run held.old.items) }
{
    if held.is_empty() {
        return Ok(());
    }
    append_run(held, steps)?;
    held.clear();
    Ok(())
}

/// Appends the steps of a byte of ASCII, as the sets draw it.
fn append_one(
    held: &mut Vec<u8>,
    sets: &mut Sets,
    byte: u8,
    steps: &mut Vec<Step>,
) -> Result<(), AllocError>
    requires { byte < 128 }
    ensures none { OnOk result (held.new.items ≡ []) }
    ensures sets { OnOk result (sets.new ≡ shifted sets.old byte) }
    ensures steps { OnOk result (steps.new.items ≡ steps.old.items ++ (of_run held.old.items
        ++ of_char (char_in (in_use sets.old) byte))) }
{
    append_held(held, steps)?;
    steps.push(char_step(sets.in_use().char(char::from(byte))))?;
    sets.shift(byte);
    Ok(())
}

/// Appends the steps of some bytes of text in front, as the sets draw them, and answers the others.
fn append_drawn<'a>(
    held: &mut Vec<u8>,
    sets: &mut Sets,
    bytes: &'a [u8],
    steps: &mut Vec<Step>,
) -> Result<&'a [u8], AllocError>
    ensures draws { IfOk result (λ rest. DrawsTo sets.old held.old.items bytes.now rest.now
        sets.new held.new.items steps.old.items steps.new.items) }
    ensures less { IfOk result (λ rest. 0 < length bytes.now → length rest.now < length bytes.now) }
    ensures short { OnOk result (length held.old.items ≤ 3 → length held.new.items ≤ 3) }
{
    let (front, rest) = sets.split_same(bytes);
    if !front.is_empty() {
        append_bytes(held, front, steps)?;
        return Ok(rest);
    }
    let Some((byte, others)) = bytes.split_first() else {
        return Ok(bytes);
    };
    append_one(held, sets, *byte, steps)?;
    Ok(others)
}

/// Appends the steps of the text, as the sets draw it, as far as it is sure; `held` are the bytes before it that aren't, and then those at
/// its end.
pub(crate) fn append_text(
    held: &mut Vec<u8>,
    sets: &mut Sets,
    bytes: &[u8],
    steps: &mut Vec<Step>,
) -> Result<(), AllocError>
    ensures draws { OnOk result (DrawsTo sets.old held.old.items bytes.now []
        sets.new held.new.items steps.old.items steps.new.items) }
    ensures short { OnOk result (length held.old.items ≤ 3 → length held.new.items ≤ 3) }
{
    let mut rest = bytes;
    while !rest.is_empty() {
        rest = append_drawn(held, sets, rest, steps)?;
    }
    Ok(())
}
