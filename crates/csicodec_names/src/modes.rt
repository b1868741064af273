// Written by tools/table from table/modes.toml: change that, and run python3 tools/table.
//! The numbers of modes that have a name.
ghost use Rattle.std.specs.Prelude.{◌≡◌, ◌↔◌, Some, pos};
ghost use Rattle.csicodec_names.specs.{ModeNumbers.dec_codes, ModeNumbers.dec_mode_number, ModeNumbers.terminal_codes, ModeNumbers.terminal_mode_number};
ghost use Rattle.csicodec_names.specs.{Numbered.with_number};

/// A private mode: one that `CSI ? .. h` sets and `CSI ? .. l` resets. Those of DEC (VT510, VT382) begin with the name that DEC gave
/// them; where the others are from is said at each.
#[derive(Clone, Copy, PartialEq, Eq, Debug)]
pub enum DecPrivateModeCode {
    /// DECCKM: the arrow keys send application sequences.
    ApplicationCursorKeys = 1,
    /// DECANM: ANSI sequences; reset, the terminal is a VT52.
    DecAnsiMode = 2,
    /// DECCOLM: a line has 132 columns; reset, 80.
    Select132Columns = 3,
    /// DECSCLM: lines scroll smoothly; reset, by jumps.
    SmoothScroll = 4,
    /// DECSCNM: the screen is shown with its two colours exchanged.
    ReverseVideo = 5,
    /// DECOM: positions count from the margins, and the cursor stays within them.
    OriginMode = 6,
    /// DECAWM: text goes on in the next line at the end of one.
    AutoWrap = 7,
    /// DECARM: a key that is held down repeats.
    AutoRepeat = 8,
    /// The cursor blinks (AT&T 610; xterm).
    StartBlinkingCursor = 12,
    /// DECTCEM: the cursor is shown.
    ShowCursor = 25,
    /// A backspace at the start of a line goes to the end of the line above (xterm).
    ReverseWraparound = 45,
    /// The alternate screen (xterm).
    EnableAlternateScreen = 47,
    /// DECLRMM: left and right margins can be set.
    LeftRightMarginMode = 69,
    /// DECSDM: a sixel image is shown at the top left, and doesn't scroll.
    SixelDisplayMode = 80,
    /// Presses and releases of the mouse are reported (xterm).
    MouseTracking = 1000,
    /// The same, with text marked between both; it waits for the program's answer (xterm).
    HighlightMouseTracking = 1001,
    /// Motions with a button down are reported too (xterm).
    ButtonEventMouse = 1002,
    /// All motions are reported too (xterm).
    AnyEventMouse = 1003,
    /// Getting and losing the focus is reported (xterm).
    FocusTracking = 1004,
    /// Positions of the mouse are reported in UTF-8 (xterm).
    Utf8Mouse = 1005,
    /// Reports of the mouse are control sequences with numbers in cells (xterm).
    SGRMouse = 1006,
    /// The same with numbers in pixels (xterm).
    SGRPixelsMouse = 1016,
    /// The meta key puts an ESC ahead (xterm).
    XTermMetaSendsEscape = 1036,
    /// The alt key puts an ESC ahead (xterm).
    XTermAltSendsEscape = 1039,
    /// The alternate screen, cleared when it is left (xterm).
    OptEnableAlternateScreen = 1047,
    /// The cursor is saved, as by DECSC; reset, it is restored (xterm).
    SaveCursor = 1048,
    /// 1047 and 1048 in one, and the screen is cleared when it is entered (xterm).
    ClearAndEnableAlternateScreen = 1049,
    /// Each image of sixels or ReGIS has colours of its own (xterm).
    UsePrivateColorRegistersForEachGraphic = 1070,
    /// Text that is pasted comes between `CSI 200 ~` and `CSI 201 ~` (xterm).
    BracketedPaste = 2004,
    /// What is drawn is shown when this is reset (contour).
    SynchronizedOutput = 2026,
    /// How many cells a character takes goes by grapheme clusters (contour).
    GraphemeClustering = 2027,
    /// The escape key sends a sequence of its own (mintty).
    MinTTYApplicationEscapeKeyMode = 7727,
    /// The cursor stays to the right of an image of sixels (RLogin, xterm).
    SixelScrollsRight = 8452,
    /// Keys are reported with all that Windows says of them (Windows Terminal).
    Win32InputMode = 9001,
}

impl DecPrivateModeCode {
    /// The number of this mode.
    pub fn to_i64(&self) -> i64
        ensures { result ≡ pos (dec_mode_number self.now) }
    {
        *self as i64
    }

    /// The mode that has this number, and none where no mode has it.
    pub fn from_i64(number: i64) -> Option<Self>
        ensures each { (mode : DecPrivateModeCode) → (result ≡ Some mode)
            ↔ (number ≡ pos (dec_mode_number mode)) }
        ensures listed { result ≡ with_number dec_mode_number dec_codes number }
    {
        numbered! { number, DecPrivateModeCode:
            1 ApplicationCursorKeys, 2 DecAnsiMode, 3 Select132Columns, 4 SmoothScroll, 5 ReverseVideo, 6 OriginMode,
            7 AutoWrap, 8 AutoRepeat, 12 StartBlinkingCursor, 25 ShowCursor, 45 ReverseWraparound,
            47 EnableAlternateScreen, 69 LeftRightMarginMode, 80 SixelDisplayMode, 1000 MouseTracking,
            1001 HighlightMouseTracking, 1002 ButtonEventMouse, 1003 AnyEventMouse, 1004 FocusTracking, 1005 Utf8Mouse,
            1006 SGRMouse, 1016 SGRPixelsMouse, 1036 XTermMetaSendsEscape, 1039 XTermAltSendsEscape,
            1047 OptEnableAlternateScreen, 1048 SaveCursor, 1049 ClearAndEnableAlternateScreen,
            1070 UsePrivateColorRegistersForEachGraphic, 2004 BracketedPaste, 2026 SynchronizedOutput,
            2027 GraphemeClustering, 7727 MinTTYApplicationEscapeKeyMode, 8452 SixelScrollsRight, 9001 Win32InputMode,
        }
    }
}

/// A mode that `CSI .. h` sets and `CSI .. l` resets (SM and RM; ECMA-48, 8.3.125 and 8.3.106).
#[derive(Clone, Copy, PartialEq, Eq, Debug)]
pub enum TerminalModeCode {
    /// KAM (ECMA-48, 7.2.11): the keyboard is locked.
    KeyboardAction = 2,
    /// IRM (ECMA-48, 7.2.10): characters move to the right what stands there; reset, they replace it.
    Insert = 4,
    /// BDSM (ECMA-48, 7.2.1): the terminal orders text of both directions.
    BiDirectionalSupportMode = 8,
    /// SRM (ECMA-48, 7.2.15): what is typed isn't shown by the terminal itself.
    SendReceive = 12,
    /// LNM (ECMA-48, 4th edition and before): a line feed goes to the start of the line as well.
    AutomaticNewline = 20,
    /// The cursor is shown (termwiz, which has it of Windows' terminal).
    ShowCursor = 25,
}

impl TerminalModeCode {
    /// The number of this mode.
    pub fn to_i64(&self) -> i64
        ensures { result ≡ pos (terminal_mode_number self.now) }
    {
        *self as i64
    }

    /// The mode that has this number, and none where no mode has it.
    pub fn from_i64(number: i64) -> Option<Self>
        ensures each { (mode : TerminalModeCode) → (result ≡ Some mode)
            ↔ (number ≡ pos (terminal_mode_number mode)) }
        ensures listed { result ≡ with_number terminal_mode_number terminal_codes number }
    {
        numbered! { number, TerminalModeCode:
            2 KeyboardAction, 4 Insert, 8 BiDirectionalSupportMode, 12 SendReceive, 20 AutomaticNewline, 25 ShowCursor,
        }
    }
}
