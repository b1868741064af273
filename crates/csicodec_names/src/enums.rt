//! Enumerations that stand as a parameter, numbered from 0.
ghost use Rattle.std.specs.Prelude.{◌≡◌, ◌↔◌, Some, pos};
ghost use Rattle.csicodec_names.specs.EnumNumbers.{cursor_style_number, cursor_styles, erase_in_display_number, erases_in_display, erase_in_line_number, erases_in_line, tabulation_clear_number, tabulation_clears, tabulation_control_number, tabulation_controls};
ghost use Rattle.csicodec_names.specs.Numbered.{with_number};
ghost use Rattle.csicodec_names.specs.declared.enums.CursorStyle.TheVariants as style;

/// How the cursor looks (DECSCUSR; DEC VT520, the bars xterm).
#[derive(Clone, Copy, PartialEq, Eq, Debug)]
pub enum CursorStyle {
    /// As the user set the terminal up; by DEC a blinking block.
    Default = 0,
    /// A block that blinks.
    BlinkingBlock = 1,
    /// A block that doesn't.
    SteadyBlock = 2,
    /// A line below the character that blinks.
    BlinkingUnderline = 3,
    /// A line below the character that doesn't.
    SteadyUnderline = 4,
    /// A line before the character that blinks (xterm).
    BlinkingBar = 5,
    /// A line before the character that doesn't (xterm).
    SteadyBar = 6,
}

impl CursorStyle {
    /// The number of this style.
    pub fn to_i64(&self) -> i64
        ensures { result ≡ pos (cursor_style_number self.now) }
    {
        *self as i64
    }

    /// The style that has this number, 0 to 6, and none for another one.
    pub fn from_i64(number: i64) -> Option<Self>
        ensures each { (style : CursorStyle) → (result ≡ Some style)
            ↔ (number ≡ pos (cursor_style_number style)) }
        ensures listed { result ≡ with_number cursor_style_number cursor_styles number }
    {
        numbered! { number, CursorStyle:
            0 Default, 1 BlinkingBlock, 2 SteadyBlock, 3 BlinkingUnderline, 4 SteadyUnderline, 5 BlinkingBar, 6 SteadyBar,
        }
    }
}

/// As the user set the terminal up.
impl Default for CursorStyle {
    ghost is_default = { λ value. value ≡ style.Default };

    fn default() -> Self {
        CursorStyle::Default
    }
}

/// What happens to tab stops where the cursor is (CTC, cursor tabulation control; ECMA-48, 8.3.17). A character tab stop
/// is a column, a line tab stop a line.
#[derive(Clone, Copy, PartialEq, Eq, Debug)]
pub enum CursorTabulationControl {
    /// A character tab stop is set in the cursor's column.
    SetCharacterTabStopAtActivePosition = 0,
    /// A line tab stop is set at the cursor's line.
    SetLineTabStopAtActiveLine = 1,
    /// The character tab stop in the cursor's column is cleared.
    ClearCharacterTabStopAtActivePosition = 2,
    /// The line tab stop at the cursor's line is cleared.
    ClearLineTabstopAtActiveLine = 3,
    /// All character tab stops of the cursor's line are cleared.
    ClearAllCharacterTabStopsAtActiveLine = 4,
    /// All character tab stops are cleared.
    ClearAllCharacterTabStops = 5,
    /// All line tab stops are cleared.
    ClearAllLineTabStops = 6,
}

impl CursorTabulationControl {
    /// The number of this control.
    pub fn to_i64(&self) -> i64
        ensures { result ≡ pos (tabulation_control_number self.now) }
    {
        *self as i64
    }

    /// The control that has this number, 0 to 6, and none for another one.
    pub fn from_i64(number: i64) -> Option<Self>
        ensures each { (control : CursorTabulationControl) → (result ≡ Some control)
            ↔ (number ≡ pos (tabulation_control_number control)) }
        ensures listed { result ≡ with_number tabulation_control_number tabulation_controls number }
    {
        numbered! { number, CursorTabulationControl:
            0 SetCharacterTabStopAtActivePosition, 1 SetLineTabStopAtActiveLine, 2 ClearCharacterTabStopAtActivePosition,
            3 ClearLineTabstopAtActiveLine, 4 ClearAllCharacterTabStopsAtActiveLine, 5 ClearAllCharacterTabStops,
            6 ClearAllLineTabStops,
        }
    }
}

/// Which tab stops are cleared (TBC, tabulation clear; ECMA-48, 8.3.154).
#[derive(Clone, Copy, PartialEq, Eq, Debug)]
pub enum TabulationClear {
    /// The character tab stop in the cursor's column.
    ClearCharacterTabStopAtActivePosition = 0,
    /// The line tab stop at the cursor's line.
    ClearLineTabStopAtActiveLine = 1,
    /// All character tab stops of the cursor's line.
    ClearCharacterTabStopsAtActiveLine = 2,
    /// All character tab stops.
    ClearAllCharacterTabStops = 3,
    /// All line tab stops.
    ClearAllLineTabStops = 4,
    /// All tab stops, of characters and of lines.
    ClearAllTabStops = 5,
}

impl TabulationClear {
    /// The number of this choice.
    pub fn to_i64(&self) -> i64
        ensures { result ≡ pos (tabulation_clear_number self.now) }
    {
        *self as i64
    }

    /// The choice that has this number, 0 to 5, and none for another one.
    pub fn from_i64(number: i64) -> Option<Self>
        ensures each { (clear : TabulationClear) → (result ≡ Some clear)
            ↔ (number ≡ pos (tabulation_clear_number clear)) }
        ensures listed { result ≡ with_number tabulation_clear_number tabulation_clears number }
    {
        numbered! { number, TabulationClear:
            0 ClearCharacterTabStopAtActivePosition, 1 ClearLineTabStopAtActiveLine, 2 ClearCharacterTabStopsAtActiveLine,
            3 ClearAllCharacterTabStops, 4 ClearAllLineTabStops, 5 ClearAllTabStops,
        }
    }
}

/// Which part of the cursor's line is erased (EL, erase in line; ECMA-48, 8.3.41). The cursor's own column is part of it.
#[derive(Clone, Copy, PartialEq, Eq, Debug)]
pub enum EraseInLine {
    /// From the cursor to the end.
    EraseToEndOfLine = 0,
    /// From the start to the cursor.
    EraseToStartOfLine = 1,
    /// The whole line.
    EraseLine = 2,
}

impl EraseInLine {
    /// The number of this part.
    pub fn to_i64(&self) -> i64
        ensures { result ≡ pos (erase_in_line_number self.now) }
    {
        *self as i64
    }

    /// The part that has this number, 0 to 2, and none for another one.
    pub fn from_i64(number: i64) -> Option<Self>
        ensures each { (part : EraseInLine) → (result ≡ Some part)
            ↔ (number ≡ pos (erase_in_line_number part)) }
        ensures listed { result ≡ with_number erase_in_line_number erases_in_line number }
    {
        numbered! { number, EraseInLine:
            0 EraseToEndOfLine, 1 EraseToStartOfLine, 2 EraseLine,
        }
    }
}

/// Which part of the page is erased (ED, erase in page; ECMA-48, 8.3.39). The cursor's own place is part of it.
#[derive(Clone, Copy, PartialEq, Eq, Debug)]
pub enum EraseInDisplay {
    /// From the cursor to the end.
    EraseToEndOfDisplay = 0,
    /// From the start to the cursor.
    EraseToStartOfDisplay = 1,
    /// The whole page.
    EraseDisplay = 2,
    /// The lines that have been scrolled off the top (xterm).
    EraseScrollback = 3,
}

impl EraseInDisplay {
    /// The number of this part.
    pub fn to_i64(&self) -> i64
        ensures { result ≡ pos (erase_in_display_number self.now) }
    {
        *self as i64
    }

    /// The part that has this number, 0 to 3, and none for another one.
    pub fn from_i64(number: i64) -> Option<Self>
        ensures each { (part : EraseInDisplay) → (result ≡ Some part)
            ↔ (number ≡ pos (erase_in_display_number part)) }
        ensures listed { result ≡ with_number erase_in_display_number erases_in_display number }
    {
        numbered! { number, EraseInDisplay:
            0 EraseToEndOfDisplay, 1 EraseToStartOfDisplay, 2 EraseDisplay, 3 EraseScrollback,
        }
    }
}
