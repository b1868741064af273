// Written by tools/table from table/keys.toml: change that, and run python3 tools/table.
//! Which key it is.
ghost use Rattle.std.specs.Prelude.{◌≡◌};
ghost use Rattle.csicodec_keys.specs.SameKeys.{code_tag, code_value, same_code};

/// A key: one that types a character, or one with a name. The same key of the keypad is another one.
#[derive(Clone, Copy, Debug, PartialEq, Eq)]
pub enum KeyCode {
    /// The key of this character, as it types it without modifiers: `'a'`, also where shift makes it `'A'`. Where the encoding says
    /// only what is typed, it is that: `'A'`.
    Char(char),
    /// A function key, from 1 on.
    F(u8),
    /// The return key.
    Enter,
    /// Esc.
    Escape,
    /// Tab; with shift it goes back.
    Tab,
    /// The key that erases to the left.
    Backspace,
    /// Insert.
    Insert,
    /// Delete.
    Delete,
    /// The arrow to the left.
    Left,
    /// The arrow to the right.
    Right,
    /// The arrow up.
    Up,
    /// The arrow down.
    Down,
    /// Page up, DEC's Prev Screen.
    PageUp,
    /// Page down, DEC's Next Screen.
    PageDown,
    /// Home, DEC's Find.
    Home,
    /// End, DEC's Select.
    End,
    /// Caps lock.
    CapsLock,
    /// Scroll lock.
    ScrollLock,
    /// Num lock.
    NumLock,
    /// Print screen.
    PrintScreen,
    /// Pause.
    Pause,
    /// The key of the menu, Apps of Windows.
    Menu,
    /// 0 on the keypad.
    Keypad0,
    /// 1 on the keypad.
    Keypad1,
    /// 2 on the keypad.
    Keypad2,
    /// 3 on the keypad.
    Keypad3,
    /// 4 on the keypad.
    Keypad4,
    /// 5 on the keypad.
    Keypad5,
    /// 6 on the keypad.
    Keypad6,
    /// 7 on the keypad.
    Keypad7,
    /// 8 on the keypad.
    Keypad8,
    /// 9 on the keypad.
    Keypad9,
    /// The decimal point on the keypad.
    KeypadDecimal,
    /// `/` on the keypad.
    KeypadDivide,
    /// `*` on the keypad.
    KeypadMultiply,
    /// `-` on the keypad.
    KeypadSubtract,
    /// `+` on the keypad.
    KeypadAdd,
    /// Enter on the keypad.
    KeypadEnter,
    /// `=` on the keypad.
    KeypadEqual,
    /// The separator on the keypad.
    KeypadSeparator,
    /// The arrow to the left on the keypad.
    KeypadLeft,
    /// The arrow to the right on the keypad.
    KeypadRight,
    /// The arrow up on the keypad.
    KeypadUp,
    /// The arrow down on the keypad.
    KeypadDown,
    /// Page up on the keypad.
    KeypadPageUp,
    /// Page down on the keypad.
    KeypadPageDown,
    /// Home on the keypad.
    KeypadHome,
    /// End on the keypad.
    KeypadEnd,
    /// Insert on the keypad.
    KeypadInsert,
    /// Delete on the keypad.
    KeypadDelete,
    /// The middle key of the keypad, 5 with num lock.
    KeypadBegin,
    /// Play.
    MediaPlay,
    /// Pause what plays.
    MediaPause,
    /// Play or pause.
    MediaPlayPause,
    /// Play backwards.
    MediaReverse,
    /// Stop what plays.
    MediaStop,
    /// Fast forward.
    MediaFastForward,
    /// Rewind.
    MediaRewind,
    /// The next track.
    MediaNext,
    /// The previous track.
    MediaPrevious,
    /// Record.
    MediaRecord,
    /// Less loud.
    LowerVolume,
    /// Louder.
    RaiseVolume,
    /// Silent.
    MuteVolume,
    /// The shift key on the left.
    LeftShift,
    /// The ctrl key on the left.
    LeftCtrl,
    /// The alt key on the left.
    LeftAlt,
    /// The super key on the left.
    LeftSuper,
    /// The hyper key on the left.
    LeftHyper,
    /// The meta key on the left.
    LeftMeta,
    /// The shift key on the right.
    RightShift,
    /// The ctrl key on the right.
    RightCtrl,
    /// The alt key on the right.
    RightAlt,
    /// The super key on the right.
    RightSuper,
    /// The hyper key on the right.
    RightHyper,
    /// The meta key on the right.
    RightMeta,
    /// AltGr (ISO level 3 shift).
    IsoLevel3Shift,
    /// ISO level 5 shift.
    IsoLevel5Shift,
    /// Tab on the keypad.
    KeypadTab,
    /// The space bar on the keypad.
    KeypadSpace,
    /// No key: text that comes without one, as of an input method (kitty).
    Text,
}

/// The number of each key with a name.
macro_rules! tags {
    ($key:expr, $($name:ident $tag:literal),*) => {
        match $key {
            KeyCode::Char(_) => 0,
            KeyCode::F(_) => 1,
            $(KeyCode::$name => $tag,)*
        }
    };
}

impl KeyCode {
    /// Whether both are one key.
    pub(crate) fn same(self, other: KeyCode) -> bool
        ensures { result ≡ same_code self other }
    {
        self.tag() == other.tag() && self.value() == other.value()
    }

    /// The character of a key that types one, the number of a function key, and 0 of any other.
    pub fn value(self) -> u32
        ensures { result ≡ code_value self }
    {
        match self {
            KeyCode::Char(character) => character as u32,
            KeyCode::F(number) => u32::from(number),
            _ => 0,
        }
    }

    /// Which key it is, whatever its value: 0 for a character, 1 for a function key, and a number of its own for each other.
    pub fn tag(self) -> u8
        ensures { result ≡ code_tag self }
    {
        tags! {
            self, Enter 2, Escape 3, Tab 4, Backspace 5, Insert 6, Delete 7, Left 8, Right 9, Up 10, Down 11,
            PageUp 12, PageDown 13, Home 14, End 15, CapsLock 16, ScrollLock 17, NumLock 18, PrintScreen 19,
            Pause 20, Menu 21, Keypad0 22, Keypad1 23, Keypad2 24, Keypad3 25, Keypad4 26, Keypad5 27,
            Keypad6 28, Keypad7 29, Keypad8 30, Keypad9 31, KeypadDecimal 32, KeypadDivide 33,
            KeypadMultiply 34, KeypadSubtract 35, KeypadAdd 36, KeypadEnter 37, KeypadEqual 38,
            KeypadSeparator 39, KeypadLeft 40, KeypadRight 41, KeypadUp 42, KeypadDown 43, KeypadPageUp 44,
            KeypadPageDown 45, KeypadHome 46, KeypadEnd 47, KeypadInsert 48, KeypadDelete 49, KeypadBegin 50,
            MediaPlay 51, MediaPause 52, MediaPlayPause 53, MediaReverse 54, MediaStop 55,
            MediaFastForward 56, MediaRewind 57, MediaNext 58, MediaPrevious 59, MediaRecord 60,
            LowerVolume 61, RaiseVolume 62, MuteVolume 63, LeftShift 64, LeftCtrl 65, LeftAlt 66,
            LeftSuper 67, LeftHyper 68, LeftMeta 69, RightShift 70, RightCtrl 71, RightAlt 72, RightSuper 73,
            RightHyper 74, RightMeta 75, IsoLevel3Shift 76, IsoLevel5Shift 77, KeypadTab 78, KeypadSpace 79,
            Text 80
        }
    }
}
