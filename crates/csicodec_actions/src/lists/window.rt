//! The rows of windows and areas.
ghost use Rattle.csicodec_actions.specs.{Actions.Window as Windows, FieldRows.given, Table.Window.alone_rows, Table.Window.areas, Table.Window.as_window};
ghost use Rattle.csicodec_actions.specs.{Table.Window.two_rows, Table.Window.which_rows, Table.Window.windows, Common.option_map};
ghost use Rattle.std.specs.Prelude.{◌≡◌};

use crate::Window;
use crate::fields::{Fields, ahead_of, fields_in};
use csicodec_base::CsiParam;

/// What is done to a window before this final character, if a row reads the list. It takes no memory.
#[tactic(auto, unfolding(crate::specs::Table::Window::as_window))]
pub fn window_action(params: &[CsiParam], control: char) -> Option<Window>
    ensures { option_map (λ w. Windows w) result ≡ as_window params.now control }
{
    match control {
        't' => window_of(&fields_in(params)?),
        'y' => area_of(fields_in(ahead_of(params, b'*')?)?),
        _ => None,
    }
}

fn window_of(fields: &Fields<'_>) -> Option<Window>
    ensures { option_map (λ w. Windows w) result ≡ given windows fields.now }
{
    if let Some(window) = alone(fields) {
        return Some(window);
    }
    if let Some(window) = which(fields) {
        return Some(window);
    }
    two(fields)
}

/// What a code says alone.
fn alone(fields: &Fields<'_>) -> Option<Window>
    ensures { option_map (λ w. Windows w) result ≡ given alone_rows fields.now }
{
    match fields.again().number()? {
        1 => Some(Window::DeIconify),
        2 => Some(Window::Iconify),
        5 => Some(Window::RaiseWindow),
        7 => Some(Window::RefreshWindow),
        11 => Some(Window::ReportWindowState),
        15 => Some(Window::ReportScreenSizePixels),
        16 => Some(Window::ReportCellSizePixels),
        18 => Some(Window::ReportTextAreaSizeCells),
        19 => Some(Window::ReportScreenSizeCells),
        20 => Some(Window::ReportIconLabel),
        21 => Some(Window::ReportWindowTitle),
        _ => None,
    }
}

/// What a code says with a number behind it.
fn which(fields: &Fields<'_>) -> Option<Window>
    ensures { option_map (λ w. Windows w) result ≡ given which_rows fields.now }
{
    let mut fields = fields.again();
    match (fields.number()?, fields.number()) {
        (9, Some(0)) => Some(Window::RestoreMaximizedWindow),
        (9, Some(1)) => Some(Window::MaximizeWindow),
        (9, Some(2)) => Some(Window::MaximizeWindowVertically),
        (9, Some(3)) => Some(Window::MaximizeWindowHorizontally),
        (10, Some(0)) => Some(Window::UndoFullScreenMode),
        (10, Some(1)) => Some(Window::ChangeToFullScreenMode),
        (10, Some(2)) => Some(Window::ToggleFullScreen),
        (13, None) => Some(Window::ReportWindowPosition),
        (13, Some(2)) => Some(Window::ReportTextAreaPosition),
        (14, None) => Some(Window::ReportTextAreaSizePixels),
        (14, Some(2)) => Some(Window::ReportWindowSizePixels),
        (22, Some(0)) => Some(Window::PushIconAndWindowTitle),
        (22, Some(1)) => Some(Window::PushIconTitle),
        (22, Some(2)) => Some(Window::PushWindowTitle),
        (23, Some(0)) => Some(Window::PopIconAndWindowTitle),
        (23, Some(1)) => Some(Window::PopIconTitle),
        (23, Some(2)) => Some(Window::PopWindowTitle),
        _ => None,
    }
}

/// What a code says with two numbers behind it, and 6 without any.
#[tactic(auto, unfolding(crate::specs::Kinds::read))]
fn two(fields: &Fields<'_>) -> Option<Window>
    ensures { option_map (λ w. Windows w) result ≡ given two_rows fields.now }
{
    let mut fields = fields.again();
    let code = fields.number()?;
    let is_answer = fields.is_there();
    let (first, second) = (fields.number(), fields.number());
    match code {
        3 => Some(Window::MoveWindow {
            x: first.unwrap_or(0),
            y: second.unwrap_or(0),
        }),
        4 => Some(Window::ResizeWindowPixels {
            width: second,
            height: first,
        }),
        6 if is_answer => Some(Window::ReportCellSizePixelsResponse {
            width: second,
            height: first,
        }),
        6 => Some(Window::LowerWindow),
        8 => Some(Window::ResizeWindowCells {
            width: second,
            height: first,
        }),
        _ => None,
    }
}

#[tactic(auto, unfolding(crate::specs::Kinds::read))]
fn area_of(mut fields: Fields<'_>) -> Option<Window>
    ensures { option_map (λ w. Windows w) result ≡ given areas fields.entry }
{
    Some(Window::ChecksumRectangularArea {
        request_id: fields.number()?,
        page_number: fields.number()?,
        top: fields.place()?,
        left: fields.place()?,
        bottom: fields.place()?,
        right: fields.place()?,
    })
}
