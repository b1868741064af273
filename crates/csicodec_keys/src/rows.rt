// Written by tools/table from table/keys.toml: change that, and run python3 tools/table.
//! The tables: which number and which final character stand for a key.
ghost use Rattle.std.specs.Prelude.{◌≡◌};
ghost use Rattle.csicodec_keys.specs.Tables.{rows};

use crate::code::KeyCode;
use crate::tables::Row;

/// A table of keys.
#[derive(Clone, Copy)]
pub(crate) enum Table {
    /// C0 controls and DEL (xterm, as a keyboard of ASCII sends them; ctrl takes 64 off).
    Control,
    /// Behind SS3: F1 to F4, and the keypad in its application mode (xterm ctlseqs, PC-Style and VT220-Style Function Keys).
    Ss3,
    /// Behind SS3: the cursor keys in their application mode (xterm ctlseqs, Cursor Keys), which are written as control sequences.
    Ss3Cursor,
    /// Control sequences that xterm and kitty share (xterm ctlseqs, PC-Style Function Keys; kitty, Legacy functional keys).
    Csi,
    /// Numbers before `u` (kitty, Functional key definitions).
    Kitty,
    /// Numbers behind `27 ;` and the modifiers, before `~` (xterm ctlseqs, Alt and Meta Keys).
    Other,
    /// rxvt's own, before `~`, `$` with shift, `^` with ctrl and `@` with both, and its arrows with shift (rxvt, Key codes).
    Rxvt,
    /// rxvt's arrows with ctrl, behind SS3 (rxvt, Key codes).
    RxvtSs3,
    /// Behind `CSI [`: F1 to F5 of Linux' console (console_codes(4)).
    Linux,
    /// Virtual keys before `_` in Win32-input-mode (Microsoft, Virtual-Key Codes), 256 more for an enhanced key (KEY_EVENT_RECORD).
    Win32,
}

/// Keys by their number: those of one final character together, with what is held down.
macro_rules! by_number {
    ($($control:literal, $held:literal: $($name:ident$(($of:literal))? $number:literal),*;)*) => {
        [$($(Row { code: KeyCode::$name$(($of))?, held: $held, number: $number, control: $control },)*)*]
    };
}

/// Keys by their character: those of one number together, with what is held down.
macro_rules! by_character {
    ($($number:literal, $held:literal: $($name:ident$(($of:literal))? $control:literal),*;)*) => {
        [$($(Row { code: KeyCode::$name$(($of))?, held: $held, number: $number, control: $control },)*)*]
    };
}

/// Keys whose number has a final character for each of several modifiers: what is held down, and the character.
macro_rules! finals {
    ($($code:expr, $number:literal: $($held:literal $control:literal),*;)*) => {
        [$($(Row { code: $code, held: $held, number: $number, control: $control },)*)*]
    };
}

static CONTROL: [Row; 32] = by_character! {
    0, 0: Enter '\r', Tab '\t', Backspace '\x7f';
    0, 4: Char(' ') '\0', Char('a') '\x01', Char('b') '\x02', Char('c') '\x03', Char('d') '\x04',
        Char('e') '\x05', Char('f') '\x06', Char('g') '\x07', Char('h') '\x08', Char('j') '\n',
        Char('k') '\x0b', Char('l') '\x0c', Char('n') '\x0e', Char('o') '\x0f', Char('p') '\x10',
        Char('q') '\x11', Char('r') '\x12', Char('s') '\x13', Char('t') '\x14', Char('u') '\x15',
        Char('v') '\x16', Char('w') '\x17', Char('x') '\x18', Char('y') '\x19', Char('z') '\x1a',
        Char('\\') '\x1c', Char(']') '\x1d', Char('^') '\x1e', Char('_') '\x1f';
};

static SS3: [Row; 24] = by_character! {
    0, 0: Keypad0 'p', Keypad1 'q', Keypad2 'r', Keypad3 's', Keypad4 't', Keypad5 'u', Keypad6 'v',
        Keypad7 'w', Keypad8 'x', Keypad9 'y', KeypadDecimal 'n', KeypadDivide 'o', KeypadMultiply 'j',
        KeypadSubtract 'm', KeypadAdd 'k', KeypadEnter 'M', KeypadEqual 'X', KeypadSeparator 'l',
        KeypadTab 'I', KeypadSpace ' ', F(1) 'P', F(2) 'Q', F(3) 'R', F(4) 'S';
};

static SS3_CURSOR: [Row; 7] = by_character! {
    0, 0: Left 'D', Right 'C', Up 'A', Down 'B', Home 'H', End 'F', KeypadBegin 'E';
};

static CSI: [Row; 42] = by_number! {
    'Z', 1: Tab 1;
    '~', 0: Insert 2, Delete 3;
    'D', 0: Left 1;
    'C', 0: Right 1;
    'A', 0: Up 1;
    'B', 0: Down 1;
    '~', 0: PageUp 5, PageDown 6;
    'H', 0: Home 1;
    '~', 0: Home 1, Home 7;
    'F', 0: End 1;
    '~', 0: End 4, End 8;
    'E', 0: KeypadBegin 1;
    '~', 0: KeypadBegin 57427;
    'G', 0: KeypadBegin 1;
    'P', 0: F(1) 1;
    '~', 0: F(1) 11;
    'Q', 0: F(2) 1;
    '~', 0: F(2) 12, F(3) 13;
    'R', 0: F(3) 1;
    'S', 0: F(4) 1;
    '~', 0: F(4) 14, F(5) 15, F(6) 17, F(7) 18, F(8) 19, F(9) 20, F(10) 21, F(11) 23, F(12) 24, F(13) 25,
        F(14) 26, F(15) 28, F(16) 29, F(17) 31, F(18) 32, F(19) 33, F(20) 34;
};

static KITTY: [Row; 89] = by_number! {
    'u', 0: Enter 13, Escape 27, Tab 9, Backspace 127, CapsLock 57358, ScrollLock 57359, NumLock 57360,
        PrintScreen 57361, Pause 57362, Menu 57363, Keypad0 57399, Keypad1 57400, Keypad2 57401,
        Keypad3 57402, Keypad4 57403, Keypad5 57404, Keypad6 57405, Keypad7 57406, Keypad8 57407,
        Keypad9 57408, KeypadDecimal 57409, KeypadDivide 57410, KeypadMultiply 57411, KeypadSubtract 57412,
        KeypadAdd 57413, KeypadEnter 57414, KeypadEqual 57415, KeypadSeparator 57416, KeypadLeft 57417,
        KeypadRight 57418, KeypadUp 57419, KeypadDown 57420, KeypadPageUp 57421, KeypadPageDown 57422,
        KeypadHome 57423, KeypadEnd 57424, KeypadInsert 57425, KeypadDelete 57426, MediaPlay 57428,
        MediaPause 57429, MediaPlayPause 57430, MediaReverse 57431, MediaStop 57432, MediaFastForward 57433,
        MediaRewind 57434, MediaNext 57435, MediaPrevious 57436, MediaRecord 57437, LowerVolume 57438,
        RaiseVolume 57439, MuteVolume 57440, LeftShift 57441, LeftCtrl 57442, LeftAlt 57443, LeftSuper 57444,
        LeftHyper 57445, LeftMeta 57446, RightShift 57447, RightCtrl 57448, RightAlt 57449, RightSuper 57450,
        RightHyper 57451, RightMeta 57452, IsoLevel3Shift 57453, IsoLevel5Shift 57454, Text 0, F(13) 57376,
        F(14) 57377, F(15) 57378, F(16) 57379, F(17) 57380, F(18) 57381, F(19) 57382, F(20) 57383,
        F(21) 57384, F(22) 57385, F(23) 57386, F(24) 57387, F(25) 57388, F(26) 57389, F(27) 57390,
        F(28) 57391, F(29) 57392, F(30) 57393, F(31) 57394, F(32) 57395, F(33) 57396, F(34) 57397,
        F(35) 57398;
};

static OTHER: [Row; 4] = by_number! {
    '~', 0: Enter 13, Escape 27, Tab 9, Backspace 127;
};

static RXVT: [Row; 94] = finals! {
    KeyCode::Insert, 2: 0 '~', 1 '$', 4 '^', 5 '@';
    KeyCode::Delete, 3: 0 '~', 1 '$', 4 '^', 5 '@';
    KeyCode::Left, 1: 1 'd';
    KeyCode::Right, 1: 1 'c';
    KeyCode::Up, 1: 1 'a';
    KeyCode::Down, 1: 1 'b';
    KeyCode::PageUp, 5: 0 '~', 1 '$', 4 '^', 5 '@';
    KeyCode::PageDown, 6: 0 '~', 1 '$', 4 '^', 5 '@';
    KeyCode::Home, 7: 0 '~', 1 '$', 4 '^', 5 '@';
    KeyCode::Home, 1: 0 '~', 1 '$';
    KeyCode::End, 8: 0 '~', 1 '$', 4 '^', 5 '@';
    KeyCode::End, 4: 0 '~', 1 '$', 4 '^', 5 '@';
    KeyCode::F(1), 11: 0 '~', 4 '^';
    KeyCode::F(2), 12: 0 '~', 4 '^';
    KeyCode::F(3), 13: 0 '~', 4 '^';
    KeyCode::F(4), 14: 0 '~', 4 '^';
    KeyCode::F(5), 15: 0 '~', 4 '^';
    KeyCode::F(6), 17: 0 '~', 4 '^';
    KeyCode::F(7), 18: 0 '~', 4 '^';
    KeyCode::F(8), 19: 0 '~', 4 '^';
    KeyCode::F(9), 20: 0 '~', 4 '^';
    KeyCode::F(10), 21: 0 '~', 4 '^';
    KeyCode::F(11), 23: 0 '~', 4 '^', 1 '$', 5 '@';
    KeyCode::F(12), 24: 0 '~', 4 '^', 1 '$', 5 '@';
    KeyCode::F(13), 25: 0 '~', 1 '$', 4 '^', 5 '@';
    KeyCode::F(14), 26: 0 '~', 1 '$', 4 '^', 5 '@';
    KeyCode::F(15), 28: 0 '~', 1 '$', 4 '^', 5 '@';
    KeyCode::F(16), 29: 0 '~', 1 '$', 4 '^', 5 '@';
    KeyCode::F(17), 31: 0 '~', 1 '$', 4 '^', 5 '@';
    KeyCode::F(18), 32: 0 '~', 1 '$', 4 '^', 5 '@';
    KeyCode::F(19), 33: 0 '~', 1 '$', 4 '^', 5 '@';
    KeyCode::F(20), 34: 0 '~', 1 '$', 4 '^', 5 '@';
};

static RXVT_SS3: [Row; 4] = by_character! {
    0, 4: Left 'd', Right 'c', Up 'a', Down 'b';
};

static LINUX: [Row; 5] = by_character! {
    0, 0: F(1) 'A', F(2) 'B', F(3) 'C', F(4) 'D', F(5) 'E';
};

static WIN32: [Row; 129] = by_number! {
    '_', 0: Enter 13, Escape 27, Tab 9, Backspace 8, Insert 301, Delete 302, Left 293, Right 295, Up 294,
        Down 296, PageUp 289, PageDown 290, Home 292, End 291, CapsLock 20, ScrollLock 145, NumLock 144,
        PrintScreen 44, Pause 19, Menu 93, Keypad0 96, Keypad1 97, Keypad2 98, Keypad3 99, Keypad4 100,
        Keypad5 101, Keypad6 102, Keypad7 103, Keypad8 104, Keypad9 105, KeypadDecimal 110, KeypadDivide 111,
        KeypadMultiply 106, KeypadSubtract 109, KeypadAdd 107, KeypadEnter 269, KeypadSeparator 108,
        KeypadLeft 37, KeypadRight 39, KeypadUp 38, KeypadDown 40, KeypadPageUp 33, KeypadPageDown 34,
        KeypadHome 36, KeypadEnd 35, KeypadInsert 45, KeypadDelete 46, KeypadBegin 12, MediaPlayPause 179,
        MediaStop 178, MediaNext 176, MediaPrevious 177, LowerVolume 174, RaiseVolume 175, MuteVolume 173,
        LeftShift 16, LeftShift 160, LeftCtrl 17, LeftCtrl 162, LeftAlt 18, LeftAlt 164, LeftSuper 91,
        RightShift 161, RightCtrl 273, RightCtrl 163, RightAlt 274, RightAlt 165, RightSuper 92, F(1) 112,
        F(2) 113, F(3) 114, F(4) 115, F(5) 116, F(6) 117, F(7) 118, F(8) 119, F(9) 120, F(10) 121, F(11) 122,
        F(12) 123, F(13) 124, F(14) 125, F(15) 126, F(16) 127, F(17) 128, F(18) 129, F(19) 130, F(20) 131,
        F(21) 132, F(22) 133, F(23) 134, F(24) 135, Char(' ') 32, Char('a') 65, Char('b') 66, Char('c') 67,
        Char('d') 68, Char('e') 69, Char('f') 70, Char('g') 71, Char('h') 72, Char('j') 74, Char('k') 75,
        Char('l') 76, Char('n') 78, Char('o') 79, Char('p') 80, Char('q') 81, Char('r') 82, Char('s') 83,
        Char('t') 84, Char('u') 85, Char('v') 86, Char('w') 87, Char('x') 88, Char('y') 89, Char('z') 90,
        Char('0') 48, Char('1') 49, Char('2') 50, Char('3') 51, Char('4') 52, Char('5') 53, Char('6') 54,
        Char('7') 55, Char('8') 56, Char('9') 57, Char('i') 73, Char('m') 77;
};

impl Table {
    #[tactic(auto, unfolding(crate::specs::Tables::rows))]
    pub(crate) fn rows(self) -> &'static [Row]
        ensures { result.now ≡ rows self }
    {
        match self {
            Table::Control => &CONTROL,
            Table::Ss3 => &SS3,
            Table::Ss3Cursor => &SS3_CURSOR,
            Table::Csi => &CSI,
            Table::Kitty => &KITTY,
            Table::Other => &OTHER,
            Table::Rxvt => &RXVT,
            Table::RxvtSs3 => &RXVT_SS3,
            Table::Linux => &LINUX,
            Table::Win32 => &WIN32,
        }
    }
}
