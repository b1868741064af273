//! The texts of actions, and the numbers of names. Written by tools/table.

/// Rows on a line.
macro_rules! pieces {
    ($($piece:tt)*) => { [$($piece)*] };
}

/// Names of actions, each with the texts that may stand behind ESC, a tab ahead of each. What is between braces stands
/// for something else: the place of a member (RFC 6901) for what that says, one with `'` behind it for a byte, and one
/// with `|;` for the items of a list with `;` between them; nothing for a number of which only an enumeration says the
/// name.
pub(crate) static PATTERNS: [&str; 113] = pieces! {
    "Cursor::ActivePositionReport\t[{/line};{/col}R", "Cursor::BackwardTabulation\t[{/value}Z",
    "Cursor::CharacterAbsolute\t[{/value}G", "Cursor::CharacterAndLinePosition\t[{/line};{/col}f",
    "Cursor::CharacterPositionAbsolute\t[{/value}`", "Cursor::CharacterPositionBackward\t[{/value}j",
    "Cursor::CharacterPositionForward\t[{/value}a", "Cursor::CursorStyle\t[{} q", "Cursor::Down\t[{/value}B",
    "Cursor::ForwardTabulation\t[{/value}I", "Cursor::Left\t[{/value}D",
    "Cursor::LinePositionAbsolute\t[{/value}d", "Cursor::LinePositionBackward\t[{/value}k",
    "Cursor::LinePositionForward\t[{/value}e", "Cursor::LineTabulation\t[{/value}Y",
    "Cursor::NextLine\t[{/value}E", "Cursor::Position\t[{/line};{/col}H", "Cursor::PrecedingLine\t[{/value}F",
    "Cursor::RequestActivePositionReport\t[6n", "Cursor::RestoreCursor\t[u", "Cursor::Right\t[{/value}C",
    "Cursor::SaveCursor\t[s", "Cursor::SetLeftAndRightMargins\t[{/left};{/right}s",
    "Cursor::SetTopAndBottomMargins\t[{/top};{/bottom}r", "Cursor::TabulationClear\t[{}g",
    "Cursor::TabulationControl\t[{}W", "Cursor::Up\t[{/value}A",
    "Device::DeviceAttributes\t[?1;2c\t[?1;0c\t[?6c\t[?62c\t[?62;{/value/Vt220|;}c\t[?63c\t[?63;{/value/Vt320|;}c\t[?64c\t[?64;{/value/Vt420|;}c",
    "Device::RequestPrimaryDeviceAttributes\t[c", "Device::RequestSecondaryDeviceAttributes\t[>c",
    "Device::RequestTerminalNameAndVersion\t[>q", "Device::RequestTerminalParameters\t[{/value}x",
    "Device::RequestTertiaryDeviceAttributes\t[=c", "Device::SoftReset\t[!p", "Device::StatusReport\t[5n",
    "Device::XtSmGraphics\t[?{};{/value/action_or_status};{/value/value|;}S\t[?{/value/item};{/value/action_or_status};{/value/value|;}S",
    "Edit::DeleteCharacter\t[{/value}P", "Edit::DeleteLine\t[{/value}M", "Edit::EraseCharacter\t[{/value}X",
    "Edit::EraseInDisplay\t[{}J", "Edit::EraseInLine\t[{}K", "Edit::InsertCharacter\t[{/value}@",
    "Edit::InsertLine\t[{/value}L", "Edit::Repeat\t[{/value}b", "Edit::ScrollDown\t[{/value}T",
    "Edit::ScrollUp\t[{/value}S",
    "Esc::Code\tc\tD\tE\tF\tH\tM\tN\tO\tV\tW\tX\tZ\t\\\t^\t_\tk\t6\t7\t8\t=\t>\t(0\t(A\t(B\t)0\t)A\t)B\t#8\t#3\t#4\t#5\t#6\tOA\tOB\tOC\tOD\tOH\tOF\tOP\tOQ\tOR\tOS",
    "Esc::Unspecified\t{/intermediate'}{/control'}", "Keyboard::PopKittyState\t[<{/value}u",
    "Keyboard::PushKittyState\t[>{/flags};{}u", "Keyboard::QueryKittySupport\t[?u",
    "Keyboard::ReportKittyState\t[?{/value}u", "Keyboard::SetKittyState\t[={/flags};{}u",
    "Mode::QueryDecPrivateMode\t[?{/value}$p", "Mode::QueryMode\t[{/value}$p",
    "Mode::ResetDecPrivateMode\t[?{/value}l", "Mode::ResetMode\t[{/value}l",
    "Mode::RestoreDecPrivateMode\t[?{/value}r", "Mode::SaveDecPrivateMode\t[?{/value}s",
    "Mode::SetDecPrivateMode\t[?{/value}h", "Mode::SetMode\t[{/value}h",
    "Mode::XtermKeyMode\t[>{};{/value}m\t[>{}m", "Mouse::SGR1006\t[<{};{/x};{/y}M\t[<{};{/x};{/y}m",
    "SelectCharacterPath\t[{};{/value/1} k",
    "Sgr::Background\t[48:2::{/value/TrueColor/SrgbaTuple/0}:{/value/TrueColor/SrgbaTuple/1}:{/value/TrueColor/SrgbaTuple/2}m\t[48:6::{/value/TrueColor/SrgbaTuple|:}m\t[{}m\t[48:5:{/value/PaletteIndex}m",
    "Sgr::Blink\t[{}m", "Sgr::Font\t[{}m",
    "Sgr::Foreground\t[38:2::{/value/TrueColor/SrgbaTuple/0}:{/value/TrueColor/SrgbaTuple/1}:{/value/TrueColor/SrgbaTuple/2}m\t[38:6::{/value/TrueColor/SrgbaTuple|:}m\t[{}m\t[38:5:{/value/PaletteIndex}m",
    "Sgr::Intensity\t[{}m", "Sgr::Inverse\t[{}m", "Sgr::Invisible\t[{}m", "Sgr::Italic\t[{}m",
    "Sgr::Overline\t[{}m", "Sgr::Reset\t[0m", "Sgr::StrikeThrough\t[{}m", "Sgr::Underline\t[{}m\t[4:{}m",
    "Sgr::UnderlineColor\t[58:2::{/value/TrueColor/SrgbaTuple/0}:{/value/TrueColor/SrgbaTuple/1}:{/value/TrueColor/SrgbaTuple/2}m\t[58:6::{/value/TrueColor/SrgbaTuple|:}m\t[{}m\t[58:5:{/value/PaletteIndex}m",
    "Sgr::VerticalAlign\t[{}m", "Unspecified\t[{/params}{/control}", "Window::ChangeToFullScreenMode\t[10;1t",
    "Window::ChecksumRectangularArea\t[{/request_id};{/page_number};{/top};{/left};{/bottom};{/right}*y",
    "Window::DeIconify\t[1t", "Window::Iconify\t[2t", "Window::LowerWindow\t[6t", "Window::MaximizeWindow\t[9;1t",
    "Window::MaximizeWindowHorizontally\t[9;3t", "Window::MaximizeWindowVertically\t[9;2t",
    "Window::MoveWindow\t[3;{/x};{/y}t", "Window::PopIconAndWindowTitle\t[23;0t", "Window::PopIconTitle\t[23;1t",
    "Window::PopWindowTitle\t[23;2t", "Window::PushIconAndWindowTitle\t[22;0t", "Window::PushIconTitle\t[22;1t",
    "Window::PushWindowTitle\t[22;2t", "Window::RaiseWindow\t[5t", "Window::RefreshWindow\t[7t",
    "Window::ReportCellSizePixels\t[16t",
    "Window::ReportCellSizePixelsResponse\t[6;{/height};{/width}t\t[6;{/height}t\t[6t",
    "Window::ReportIconLabel\t[20t", "Window::ReportScreenSizeCells\t[19t",
    "Window::ReportScreenSizePixels\t[15t", "Window::ReportTextAreaPosition\t[13;2t",
    "Window::ReportTextAreaSizeCells\t[18t", "Window::ReportTextAreaSizePixels\t[14t",
    "Window::ReportWindowPosition\t[13t", "Window::ReportWindowSizePixels\t[14;2t",
    "Window::ReportWindowState\t[11t", "Window::ReportWindowTitle\t[21t",
    "Window::ResizeWindowCells\t[8;{/height};{/width}t\t[8;{/height}t\t[8t",
    "Window::ResizeWindowPixels\t[4;{/height};{/width}t\t[4;{/height}t\t[4t",
    "Window::RestoreMaximizedWindow\t[9;0t", "Window::ToggleFullScreen\t[10;2t",
    "Window::UndoFullScreenMode\t[10;0t",
};

/// Names that stand for a number, a tab, and the number.
pub(crate) static CODES: [&str; 51] = pieces! {
    "AnsiColor\t22", "AnsiTextLocator\t29", "AnyEventMouse\t1003", "ApplicationCursorKeys\t1", "AutoRepeat\t8",
    "AutoWrap\t7", "AutomaticNewline\t20", "BiDirectionalSupportMode\t8", "BracketedPaste\t2004",
    "ButtonEventMouse\t1002", "ClearAndEnableAlternateScreen\t1049", "Columns132\t1", "DecAnsiMode\t2",
    "EnableAlternateScreen\t47", "FocusTracking\t1004", "GraphemeClustering\t2027",
    "HighlightMouseTracking\t1001", "HorizontalScrolling\t21", "Insert\t4", "KeyboardAction\t2",
    "LeftRightMarginMode\t69", "MinTTYApplicationEscapeKeyMode\t7727", "MouseTracking\t1000",
    "NationalReplacementCharsets\t9", "OptEnableAlternateScreen\t1047", "OriginMode\t6", "Printer\t2",
    "RegisGraphics\t3", "ReverseVideo\t5", "ReverseWraparound\t45", "SGRMouse\t1006", "SGRPixelsMouse\t1016",
    "SaveCursor\t1048", "Select132Columns\t3", "SelectiveErase\t6", "SendReceive\t12", "ShowCursor\t25",
    "SixelDisplayMode\t80", "SixelGraphics\t4", "SixelScrollsRight\t8452", "SmoothScroll\t4",
    "StartBlinkingCursor\t12", "SynchronizedOutput\t2026", "TechnicalCharacters\t15",
    "UsePrivateColorRegistersForEachGraphic\t1070", "UserDefinedKeys\t8", "UserWindows\t18", "Utf8Mouse\t1005",
    "Win32InputMode\t9001", "XTermAltSendsEscape\t1039", "XTermMetaSendsEscape\t1036",
};
