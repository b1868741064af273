// Written by tools/table from table/keys.toml: change that, and run python3 tools/table.
//! What keys are called.

/// What keys with a name are called, by their tags from 2 on: 0 is a character, and 1 a function key.
pub(crate) static KEYS: [&str; 79] = pieces! {
    "Enter", "Escape", "Tab", "Backspace", "Insert", "Delete", "Left", "Right", "Up", "Down", "Page Up",
    "Page Down", "Home", "End", "Caps Lock", "Scroll Lock", "Num Lock", "Print Screen", "Pause", "Menu",
    "keypad 0", "keypad 1", "keypad 2", "keypad 3", "keypad 4", "keypad 5", "keypad 6", "keypad 7", "keypad 8",
    "keypad 9", "keypad decimal", "keypad divide", "keypad multiply", "keypad subtract", "keypad add",
    "keypad Enter", "keypad equal", "keypad separator", "keypad Left", "keypad Right", "keypad Up", "keypad Down",
    "keypad Page Up", "keypad Page Down", "keypad Home", "keypad End", "keypad Insert", "keypad Delete",
    "keypad Begin", "media play", "media pause", "media play/pause", "media reverse", "media stop",
    "media fast forward", "media rewind", "media next track", "media previous track", "media record",
    "lower volume", "raise volume", "mute volume", "left Shift", "left Ctrl", "left Alt", "left Super",
    "left Hyper", "left Meta", "right Shift", "right Ctrl", "right Alt", "right Super", "right Hyper",
    "right Meta", "ISO level 3 shift", "ISO level 5 shift", "keypad Tab", "keypad Space", "text",
};
