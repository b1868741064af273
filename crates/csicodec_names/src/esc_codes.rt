// Written by tools/table from table/escapes.toml: change that, and run python3 tools/table.
//! The codes of escape sequences.
ghost use Rattle.std.specs.Prelude.{◌≡◌, ◌↔◌, Some};
ghost use Rattle.csicodec_names.specs.Esc.{esc_number};

/// The codes of escape sequences. A code's number is that of its last character, and 256 times that of the one before it, if any.
#[derive(Clone, Copy, PartialEq, Eq, Debug)]
pub enum EscCode {
    /// `ESC c`, RIS (ECMA-48): puts the terminal into the state that it has when it is switched on.
    FullReset = 0x63,
    /// `ESC D`, IND (DEC VT100; ECMA-48, 4th edition and before): moves the cursor down one line in its column, and
    /// scrolls up at the bottom margin. A VT52 takes it as a move to the left.
    Index = 0x44,
    /// `ESC E`, NEL (ECMA-48): moves the cursor to the start of the next line, and scrolls up at the bottom margin.
    NextLine = 0x45,
    /// `ESC F` (xterm's ctlseqs): moves the cursor to the lower left corner, where xterm is set up for programs that
    /// send it to any terminal (hpLowerleftBugCompat). ECMA-48 has SSA here, the start of a selected area.
    CursorPositionLowerLeft = 0x46,
    /// `ESC H`, HTS (ECMA-48): sets a tab stop in the cursor's column.
    HorizontalTabSet = 0x48,
    /// `ESC M`, RI (ECMA-48): moves the cursor up one line in its column, and scrolls down at the top margin.
    ReverseIndex = 0x4d,
    /// `ESC N`, SS2 (ECMA-48): the next character, and it alone, is taken from the set G2.
    SingleShiftG2 = 0x4e,
    /// `ESC O`, SS3 (ECMA-48): the next character, and it alone, is taken from the set G3.
    SingleShiftG3 = 0x4f,
    /// `ESC V`, SPA (ECMA-48): the cursor's place is the first of those that are guarded, against change by hand and
    /// against transfer.
    StartOfGuardedArea = 0x56,
    /// `ESC W`, EPA (ECMA-48): the cursor's place is the last of the guarded ones.
    EndOfGuardedArea = 0x57,
    /// `ESC X`, SOS (ECMA-48): opens a string of characters, up to `StringTerminator`. Terminals skip it.
    StartOfString = 0x58,
    /// `ESC Z`, DECID (DEC VT100): asks what terminal this is. The control sequence DA took its place. ECMA-48 has SCI
    /// here, of which the next byte is a part.
    ReturnTerminalId = 0x5a,
    /// `ESC \`, ST (ECMA-48): closes the string that a control such as OSC, DCS, SOS, PM or APC opened.
    StringTerminator = 0x5c,
    /// `ESC ^`, PM (ECMA-48): opens a privacy message, up to `StringTerminator`. Terminals skip it.
    PrivacyMessage = 0x5e,
    /// `ESC _`, APC (ECMA-48): opens a command to a program, up to `StringTerminator`. Most terminals skip it.
    ApplicationProgramCommand = 0x5f,
    /// `ESC k` (GNU Screen, tmux): opens a title of the window, up to `StringTerminator`.
    TmuxTitle = 0x6b,
    /// `ESC 6`, DECBI (DEC VT420): moves the cursor one column to the left, and at the left margin moves what stands
    /// within the margins one column to the right.
    DecBackIndex = 0x36,
    /// `ESC 7`, DECSC (DEC VT100): saves the cursor's position, and with it the attributes and the character sets.
    DecSaveCursorPosition = 0x37,
    /// `ESC 8`, DECRC (DEC VT100): restores what `DecSaveCursorPosition` saved.
    DecRestoreCursorPosition = 0x38,
    /// `ESC =`, DECKPAM (DEC VT100): the keys of the keypad send sequences of their own.
    DecApplicationKeyPad = 0x3d,
    /// `ESC >`, DECKPNM (DEC VT100): the keys of the keypad send the characters that stand on them.
    DecNormalKeyPad = 0x3e,
    /// `ESC ( 0`, SCS (DEC VT100): makes DEC's special graphics, with which lines are drawn, the set G0.
    DecLineDrawingG0 = 0x2830,
    /// `ESC ( A`, SCS (DEC VT100): makes the British characters the set G0.
    UkCharacterSetG0 = 0x2841,
    /// `ESC ( B`, SCS (DEC VT100): makes ASCII the set G0.
    AsciiCharacterSetG0 = 0x2842,
    /// `ESC ) 0`, SCS (DEC VT100): makes DEC's special graphics, with which lines are drawn, the set G1.
    DecLineDrawingG1 = 0x2930,
    /// `ESC ) A`, SCS (DEC VT100): makes the British characters the set G1.
    UkCharacterSetG1 = 0x2941,
    /// `ESC ) B`, SCS (DEC VT100): makes ASCII the set G1.
    AsciiCharacterSetG1 = 0x2942,
    /// `ESC # 8`, DECALN (DEC VT100): fills the screen with the letter E, to adjust the display by.
    DecScreenAlignmentDisplay = 0x2338,
    /// `ESC # 3`, DECDHL (DEC VT100): the cursor's line shows the top half of characters of double height and width.
    DecDoubleHeightTopHalfLine = 0x2333,
    /// `ESC # 4`, DECDHL (DEC VT100): the cursor's line shows the bottom half of characters of double height and width.
    DecDoubleHeightBottomHalfLine = 0x2334,
    /// `ESC # 5`, DECSWL (DEC VT100): the cursor's line shows characters of single height and width.
    DecSingleWidthLine = 0x2335,
    /// `ESC # 6`, DECDWL (DEC VT100): the cursor's line shows characters of double width and single height.
    DecDoubleWidthLine = 0x2336,
    /// `ESC O A` (DEC VT100): sent by a terminal for the arrow up, while its cursor keys are in application mode
    /// (DECCKM).
    ApplicationModeArrowUpPress = 0x4f41,
    /// `ESC O B` (DEC VT100): sent for the arrow down, in the same mode.
    ApplicationModeArrowDownPress = 0x4f42,
    /// `ESC O C` (DEC VT100): sent for the arrow to the right, in the same mode.
    ApplicationModeArrowRightPress = 0x4f43,
    /// `ESC O D` (DEC VT100): sent for the arrow to the left, in the same mode.
    ApplicationModeArrowLeftPress = 0x4f44,
    /// `ESC O H` (xterm's ctlseqs): sent for Home, in the same mode.
    ApplicationModeHomePress = 0x4f48,
    /// `ESC O F` (xterm's ctlseqs): sent for End, in the same mode.
    ApplicationModeEndPress = 0x4f46,
    /// `ESC O P` (xterm's ctlseqs): sent by a terminal for F1, on a DEC VT100 for PF1.
    F1Press = 0x4f50,
    /// `ESC O Q` (xterm's ctlseqs): sent for F2, on a DEC VT100 for PF2.
    F2Press = 0x4f51,
    /// `ESC O R` (xterm's ctlseqs): sent for F3, on a DEC VT100 for PF3.
    F3Press = 0x4f52,
    /// `ESC O S` (xterm's ctlseqs): sent for F4, on a DEC VT100 for PF4.
    F4Press = 0x4f53,
}

impl EscCode {
    /// The code of that number, or none where no code has it.
    ///
    /// ```text
    /// EscCode::from_u16(0x4f53)           // Some(F4Press), "\x1bOS"
    /// ```
    pub fn from_u16(number: u16) -> Option<Self>
        ensures { (code : EscCode) → (result ≡ Some code) ↔ (number ≡ esc_number code) }
    {
        numbered! { number, EscCode:
            0x63 FullReset, 0x44 Index, 0x45 NextLine, 0x46 CursorPositionLowerLeft, 0x48 HorizontalTabSet,
            0x4d ReverseIndex, 0x4e SingleShiftG2, 0x4f SingleShiftG3, 0x56 StartOfGuardedArea, 0x57 EndOfGuardedArea,
            0x58 StartOfString, 0x5a ReturnTerminalId, 0x5c StringTerminator, 0x5e PrivacyMessage,
            0x5f ApplicationProgramCommand, 0x6b TmuxTitle, 0x36 DecBackIndex, 0x37 DecSaveCursorPosition,
            0x38 DecRestoreCursorPosition, 0x3d DecApplicationKeyPad, 0x3e DecNormalKeyPad, 0x2830 DecLineDrawingG0,
            0x2841 UkCharacterSetG0, 0x2842 AsciiCharacterSetG0, 0x2930 DecLineDrawingG1, 0x2941 UkCharacterSetG1,
            0x2942 AsciiCharacterSetG1, 0x2338 DecScreenAlignmentDisplay, 0x2333 DecDoubleHeightTopHalfLine,
            0x2334 DecDoubleHeightBottomHalfLine, 0x2335 DecSingleWidthLine, 0x2336 DecDoubleWidthLine,
            0x4f41 ApplicationModeArrowUpPress, 0x4f42 ApplicationModeArrowDownPress,
            0x4f43 ApplicationModeArrowRightPress, 0x4f44 ApplicationModeArrowLeftPress, 0x4f48 ApplicationModeHomePress,
            0x4f46 ApplicationModeEndPress, 0x4f50 F1Press, 0x4f51 F2Press, 0x4f52 F3Press, 0x4f53 F4Press,
        }
    }
}
