// Written by tools/table from table/sequences.toml: change that, and run python3 tools/table.
//! What terminals are asked for, what they answer, and what keyboards, mice and pastes send.

use crate::row::{MOST, NumberSlot, SequenceForm};
use crate::rows::END;

/// The rows, of each of which a macro makes its part.
macro_rules! rows {
    ($part:ident) => {
        [
            // What a terminal is asked for.
            row! { $part 10172, "DECRQDE", 0, [], b'"', 'v', "ask which part of the page is shown", "EK-VT520-RM, DECRQDE" },
            row! { $part 10173, "DECRQLP", 0, [number!("what", 0, 1, 0)], b'\'', '|', "ask for the locator's position", "xterm ctlseqs, DECRQLP" },
            row! { $part 10174, "DECRQTSR", 0, [needed!("which", 1, 1)], b'$', 'u', "ask for the terminal's state", "EK-VT520-RM, DECRQTSR" },
            row! { $part 10175, "DECRQTSR", 0, [needed!("which", 2, 2), number!("space", 0, 2, 0)], b'$', 'u', "ask for the colour table", "EK-VT520-RM, DECRQTSR" },
            row! { $part 10176, "DECRQPSR", 0, [needed!("which", 1, 1)], b'$', 'w', "ask for the cursor's state", "EK-VT520-RM, DECRQPSR" },
            row! { $part 10177, "DECRQPSR", 0, [needed!("which", 2, 2)], b'$', 'w', "ask for the tab stops", "EK-VT520-RM, DECRQPSR" },
            row! { $part 10178, "DECRQUPSS", 0, [], b'&', 'u', "ask for the user's supplemental set", "xterm ctlseqs, DECRQUPSS" },
            row! { $part 10179, "DECXCPR", b'?', [needed!("which", 6, 6)], 0, 'n', "ask for the cursor's position and page", "EK-VT520-RM, DSR" },
            row! { $part 10180, "DSR", b'?', [needed!("which", 15, 15)], 0, 'n', "ask for the printer's status", "EK-VT520-RM, DSR" },
            row! { $part 10181, "DSR", b'?', [needed!("which", 25, 25)], 0, 'n', "ask whether user-defined keys are locked", "EK-VT520-RM, DSR" },
            row! { $part 10182, "DSR", b'?', [needed!("which", 26, 26)], 0, 'n', "ask for the keyboard's language", "EK-VT520-RM, DSR" },
            row! { $part 10183, "DSR", b'?', [needed!("which", 53, 53)], 0, 'n', "ask for the locator's status, or answer that it is there", "EK-VT520-RM, DSR" },
            row! { $part 10184, "DSR", b'?', [needed!("which", 55, 55)], 0, 'n', "ask for the locator's status", "xterm ctlseqs, DSR" },
            row! { $part 10185, "DSR", b'?', [needed!("which", 56, 56)], 0, 'n', "ask for the locator's type", "xterm ctlseqs, DSR" },
            row! { $part 10186, "DECMSR", b'?', [needed!("which", 62, 62)], 0, 'n', "ask for the room for macros", "EK-VT520-RM, DSR" },
            row! { $part 10187, "DECCKSR", b'?', [needed!("which", 63, 63), number!("request", 0, 4294967295, 0)], 0, 'n', "ask for the checksum of the memory", "EK-VT520-RM, DSR" },
            row! { $part 10188, "DSR", b'?', [needed!("which", 75, 75)], 0, 'n', "ask for the integrity of data", "EK-VT520-RM, DSR" },
            row! { $part 10189, "DSR", b'?', [needed!("which", 85, 85)], 0, 'n', "ask for the sessions", "EK-VT520-RM, DSR" },
            row! { $part 10190, "colour scheme", b'?', [needed!("which", 996, 996)], 0, 'n', "ask for the colour scheme", "contour, Color Palette Update Notifications" },
            row! { $part 10191, "XTQMODKEYS", b'?', [needed!("resource", 0, 7)], 0, 'm', "ask for the modifiers of keys", "xterm ctlseqs, XTQMODKEYS" },
            row! { $part 10192, "XTQFMTKEYS", b'?', [needed!("resource", 0, 7)], 0, 'g', "ask for the format of keys", "xterm ctlseqs, XTQFMTKEYS" },
            row! { $part 10193, "XTREPORTSGR", 0, [number!("top", 0, 4294967295, 1), number!("left", 0, 4294967295, 1), number!("bottom", 0, 4294967295, 0), number!("right", 0, 4294967295, 0)], b'#', '|', "ask for the attributes in a rectangle", "xterm ctlseqs, XTREPORTSGR" },
            row! { $part 10194, "XTREPORTCOLORS", 0, [], b'#', 'R', "ask for the stack of colours", "xterm ctlseqs, XTREPORTCOLORS" },
            row! { $part 10195, "XTTITLEPOS", 0, [], b'#', 'S', "ask for the place on the stack of titles", "xterm ctlseqs, XTTITLEPOS" },

            // What a terminal answers.
            row! { $part 10196, "DECRPM", 0, [needed!("mode", 0, 65535), needed!("state", 0, 4)], b'$', 'y', "the state of a mode", "EK-VT520-RM, DECRPM" },
            row! { $part 10197, "DECRPM", b'?', [needed!("mode", 0, 4294967295), needed!("state", 0, 4)], b'$', 'y', "the state of a private mode", "EK-VT520-RM, DECRPM" },
            row! { $part 10198, "DECRPDE", 0, [needed!("lines", 0, 4294967295), needed!("columns", 0, 4294967295), number!("left", 0, 4294967295, 1), number!("top", 0, 4294967295, 1), number!("page", 0, 4294967295, 1)], b'"', 'w', "the part of the page that is shown", "EK-VT520-RM, DECRPDE" },
            row! { $part 10199, "DECLRP", 0, [needed!("event", 0, 10), number!("buttons", 0, 15, 0), number!("line", 0, 4294967295, 0), number!("column", 0, 4294967295, 0), number!("page", 0, 4294967295, 0)], b'&', 'w', "the locator's position", "xterm ctlseqs, DECRQLP" },
            row! { $part 10200, "DECSRC", 0, [number!("confirmation", 0, 16383, 0)], b'*', 'q', "confirmation of a secure reset", "EK-VT520-RM, DECSRC" },
            row! { $part 10201, "DECMSR", 0, [needed!("blocks", 0, 4294967295)], b'*', '{', "room for macros, in blocks of 16 bytes", "EK-VT520-RM, DECMSR" },
            row! { $part 10202, "DECXCPR", b'?', [needed!("line", 0, 4294967295), needed!("column", 0, 4294967295), number!("page", 0, 4294967295, 1)], 0, 'R', "the cursor's position and page", "EK-VT520-RM, DECXCPR" },
            row! { $part 10203, "DSR", b'?', [needed!("which", 10, 10)], 0, 'n', "printer ready", "EK-VT520-RM, DSR" },
            row! { $part 10204, "DSR", b'?', [needed!("which", 11, 11)], 0, 'n', "printer not ready", "EK-VT520-RM, DSR" },
            row! { $part 10205, "DSR", b'?', [needed!("which", 13, 13)], 0, 'n', "no printer", "EK-VT520-RM, DSR" },
            row! { $part 10206, "DSR", b'?', [needed!("which", 18, 18)], 0, 'n', "printer busy", "EK-VT520-RM, DSR" },
            row! { $part 10207, "DSR", b'?', [needed!("which", 19, 19)], 0, 'n', "printer with another session", "EK-VT520-RM, DSR" },
            row! { $part 10208, "DSR", b'?', [needed!("which", 20, 20)], 0, 'n', "user-defined keys unlocked", "EK-VT520-RM, DSR" },
            row! { $part 10209, "DSR", b'?', [needed!("which", 21, 21)], 0, 'n', "user-defined keys locked", "EK-VT520-RM, DSR" },
            row! { $part 10210, "DSR", b'?', [needed!("which", 27, 27), number!("language", 0, 4294967295, 0), number!("status", 0, 4294967295, 0), number!("kind", 0, 4294967295, 0)], 0, 'n', "the keyboard's language", "EK-VT520-RM, DSR" },
            row! { $part 10211, "DSR", b'?', [needed!("which", 50, 50)], 0, 'n', "no locator", "EK-VT520-RM, DSR" },
            row! { $part 10212, "DSR", b'?', [needed!("which", 57, 57), number!("kind", 0, 4294967295, 0)], 0, 'n', "the locator's type", "xterm ctlseqs, DSR" },
            row! { $part 10213, "DSR", b'?', [needed!("which", 70, 70)], 0, 'n', "no data lost", "EK-VT520-RM, DSR" },
            row! { $part 10214, "DSR", b'?', [needed!("which", 71, 71)], 0, 'n', "malfunction, or power cycle", "EK-VT520-RM, DSR" },
            row! { $part 10215, "DSR", b'?', [needed!("which", 73, 73)], 0, 'n', "nothing to tell of data", "EK-VT520-RM, DSR" },
            row! { $part 10216, "DSR", b'?', [needed!("which", 83, 83)], 0, 'n', "one session", "EK-VT520-RM, DSR" },
            row! { $part 10217, "colour scheme", b'?', [needed!("which", 997, 997), needed!("scheme", 0, 2)], 0, 'n', "1 a dark, 2 a light colour scheme", "contour, Color Palette Update Notifications" },
            row! { $part 10218, "DA1", b'?', [needed!("which", 4, 4), needed!("which", 6, 6)], 0, 'c', "VT132 with advanced video and graphics", "xterm ctlseqs, DA" },
            row! { $part 10219, "DA1", b'?', [needed!("which", 7, 7)], 0, 'c', "VT131", "xterm ctlseqs, DA" },
            row! { $part 10220, "DA1", b'?', [needed!("which", 12, 12), needed!("options", 0, 4294967295)], 0, 'c', "VT125", "xterm ctlseqs, DA" },
            row! { $part 10221, "DA1", b'?', [needed!("which", 61, 61); further!("extension", 0, 4294967295)], 0, 'c', "VT100 class, with its extensions", "EK-VT520-RM, DA1" },
            row! { $part 10222, "DA1", b'?', [needed!("which", 65, 65); further!("extension", 0, 4294967295)], 0, 'c', "VT500 class, with its extensions", "EK-VT520-RM, DA1" },
            row! { $part 10223, "DA2", b'>', [needed!("kind", 0, 4294967295), needed!("firmware", 0, 4294967295), number!("options", 0, 4294967295, 0)], 0, 'c', "type, version of the firmware, options", "EK-VT520-RM, DA2" },
            row! { $part 10224, "DECREPTPARM", 0, [needed!("kind", 2, 3), needed!("parity", 1, 5), needed!("bits", 1, 2), needed!("sends", 0, 4294967295), needed!("receives", 0, 4294967295), needed!("clock", 0, 4294967295), needed!("flags", 0, 4294967295)], 0, 'x', "parameters of the serial line", "VT100 User Guide, DECREQTPARM" },
            row! { $part 10225, "XTWINOPS", 0, [needed!("which", 9, 9), needed!("height", 4, 4294967295), needed!("width", 0, 4294967295)], 0, 't', "size of the display, in cells", "xterm ctlseqs, XTWINOPS" },
            row! { $part 10226, "in-band resize", 0, [needed!("which", 48, 48), needed!("lines", 0, 4294967295), needed!("columns", 0, 4294967295), number!("height", 0, 4294967295, 0), number!("width", 0, 4294967295, 0)], 0, 't', "size of the window, in cells and pixels", "kitty, In-band resize notifications" },
            row! { $part 10227, "XTFMTKEYS", b'>', [needed!("resource", 0, 7), number!("format", 0, 4294967295, 0)], 0, 'f', "set the format of keys, or its answer", "xterm ctlseqs, XTFMTKEYS" },

            // What keyboards, mice and what is pasted send.
            row! { $part 10228, "focus", 0, [], 0, 'O', "focus lost", "xterm ctlseqs, FocusIn/FocusOut" },
            row! { $part 10229, "paste", 0, [needed!("which", 200, 200)], 0, '~', "start of pasted text", "xterm ctlseqs, Bracketed Paste Mode" },
            row! { $part 10230, "paste", 0, [needed!("which", 201, 201)], 0, '~', "end of pasted text", "xterm ctlseqs, Bracketed Paste Mode" },
            row! { $part 10231, "mouse", 0, [needed!("code", 32, 255), needed!("column", 0, 4294967295), needed!("line", 0, 4294967295)], 0, 'M', "report of the mouse in urxvt's form", "urxvt(7), Mode 1015" },
            row! { $part 10232, "key", 0, [needed!("virtual", 0, 4294967295), needed!("scan", 0, 4294967295), needed!("character", 0, 4294967295), needed!("pressed", 0, 1), number!("held", 0, 4294967295, 0), number!("times", 0, 4294967295, 1)], 0, '_', "a key by Win32's record", "Windows Terminal, spec 4999" },
            row! { $part 10233, "key", 0, [needed!("which", 27, 27), needed!("modifiers", 1, 256), needed!("character", 0, 4294967295)], 0, '~', "a key by its character (modifyOtherKeys)", "xterm ctlseqs, Alt and Meta Keys" },
            row! { $part 10234, "key", 0, [needed!("character", 0, 4294967295), number!("modifiers", 1, 256, 1)], 0, 'u', "a key by its character (kitty; formatOtherKeys of xterm)", "kitty, Comprehensive keyboard handling" },
            row! { $part 10235, "key", 0, [needed!("which", 1, 1), needed!("modifiers", 2, 256)], 0, 'A', "Up, with modifiers", "xterm ctlseqs, PC-Style Function Keys" },
            row! { $part 10236, "key", 0, [needed!("which", 1, 1), needed!("modifiers", 2, 256)], 0, 'B', "Down, with modifiers", "xterm ctlseqs, PC-Style Function Keys" },
            row! { $part 10237, "key", 0, [needed!("which", 1, 1), needed!("modifiers", 2, 256)], 0, 'C', "Right, with modifiers", "xterm ctlseqs, PC-Style Function Keys" },
            row! { $part 10238, "key", 0, [needed!("which", 1, 1), needed!("modifiers", 2, 256)], 0, 'D', "Left, with modifiers", "xterm ctlseqs, PC-Style Function Keys" },
            row! { $part 10239, "key", 0, [needed!("which", 1, 1), needed!("modifiers", 2, 256)], 0, 'E', "Begin, with modifiers", "xterm ctlseqs, PC-Style Function Keys" },
            row! { $part 10240, "key", 0, [needed!("which", 1, 1), needed!("modifiers", 2, 256)], 0, 'F', "End, with modifiers", "xterm ctlseqs, PC-Style Function Keys" },
            row! { $part 10241, "key", 0, [needed!("which", 1, 1), needed!("modifiers", 2, 256)], 0, 'P', "F1, with modifiers", "xterm ctlseqs, PC-Style Function Keys" },
            row! { $part 10242, "key", 0, [needed!("which", 1, 1), needed!("modifiers", 2, 256)], 0, 'Q', "F2, with modifiers", "xterm ctlseqs, PC-Style Function Keys" },
            row! { $part 10243, "key", 0, [needed!("which", 1, 1), needed!("modifiers", 2, 256)], 0, 'S', "F4, with modifiers", "xterm ctlseqs, PC-Style Function Keys" },
            row! { $part 10244, "key", 0, [needed!("which", 1, 1), number!("modifiers", 1, 256, 1)], 0, '~', "Home", "xterm ctlseqs, PC-Style Function Keys" },
            row! { $part 10245, "key", 0, [needed!("which", 2, 2), number!("modifiers", 1, 256, 1)], 0, '~', "Insert", "xterm ctlseqs, PC-Style Function Keys" },
            row! { $part 10246, "key", 0, [needed!("which", 3, 3), number!("modifiers", 1, 256, 1)], 0, '~', "Delete", "xterm ctlseqs, PC-Style Function Keys" },
            row! { $part 10247, "key", 0, [needed!("which", 4, 4), number!("modifiers", 1, 256, 1)], 0, '~', "End", "xterm ctlseqs, PC-Style Function Keys" },
            row! { $part 10248, "key", 0, [needed!("which", 5, 5), number!("modifiers", 1, 256, 1)], 0, '~', "Page Up", "xterm ctlseqs, PC-Style Function Keys" },
            row! { $part 10249, "key", 0, [needed!("which", 6, 6), number!("modifiers", 1, 256, 1)], 0, '~', "Page Down", "xterm ctlseqs, PC-Style Function Keys" },
            row! { $part 10250, "key", 0, [needed!("which", 7, 7), number!("modifiers", 1, 256, 1)], 0, '~', "Home (rxvt)", "xterm ctlseqs, PC-Style Function Keys" },
            row! { $part 10251, "key", 0, [needed!("which", 8, 8), number!("modifiers", 1, 256, 1)], 0, '~', "End (rxvt)", "xterm ctlseqs, PC-Style Function Keys" },
            row! { $part 10252, "key", 0, [needed!("which", 11, 11), number!("modifiers", 1, 256, 1)], 0, '~', "F1", "xterm ctlseqs, PC-Style Function Keys" },
            row! { $part 10253, "key", 0, [needed!("which", 12, 12), number!("modifiers", 1, 256, 1)], 0, '~', "F2", "xterm ctlseqs, PC-Style Function Keys" },
            row! { $part 10254, "key", 0, [needed!("which", 13, 13), number!("modifiers", 1, 256, 1)], 0, '~', "F3", "xterm ctlseqs, PC-Style Function Keys" },
            row! { $part 10255, "key", 0, [needed!("which", 14, 14), number!("modifiers", 1, 256, 1)], 0, '~', "F4", "xterm ctlseqs, PC-Style Function Keys" },
            row! { $part 10256, "key", 0, [needed!("which", 15, 15), number!("modifiers", 1, 256, 1)], 0, '~', "F5", "xterm ctlseqs, PC-Style Function Keys" },
            row! { $part 10257, "key", 0, [needed!("which", 17, 17), number!("modifiers", 1, 256, 1)], 0, '~', "F6", "xterm ctlseqs, PC-Style Function Keys" },
            row! { $part 10258, "key", 0, [needed!("which", 18, 18), number!("modifiers", 1, 256, 1)], 0, '~', "F7", "xterm ctlseqs, PC-Style Function Keys" },
            row! { $part 10259, "key", 0, [needed!("which", 19, 19), number!("modifiers", 1, 256, 1)], 0, '~', "F8", "xterm ctlseqs, PC-Style Function Keys" },
            row! { $part 10260, "key", 0, [needed!("which", 20, 20), number!("modifiers", 1, 256, 1)], 0, '~', "F9", "xterm ctlseqs, PC-Style Function Keys" },
            row! { $part 10261, "key", 0, [needed!("which", 21, 21), number!("modifiers", 1, 256, 1)], 0, '~', "F10", "xterm ctlseqs, PC-Style Function Keys" },
            row! { $part 10262, "key", 0, [needed!("which", 23, 23), number!("modifiers", 1, 256, 1)], 0, '~', "F11", "xterm ctlseqs, PC-Style Function Keys" },
            row! { $part 10263, "key", 0, [needed!("which", 24, 24), number!("modifiers", 1, 256, 1)], 0, '~', "F12", "xterm ctlseqs, PC-Style Function Keys" },
            row! { $part 10264, "key", 0, [needed!("which", 25, 25), number!("modifiers", 1, 256, 1)], 0, '~', "F13", "xterm ctlseqs, PC-Style Function Keys" },
            row! { $part 10265, "key", 0, [needed!("which", 26, 26), number!("modifiers", 1, 256, 1)], 0, '~', "F14", "xterm ctlseqs, PC-Style Function Keys" },
            row! { $part 10266, "key", 0, [needed!("which", 28, 28), number!("modifiers", 1, 256, 1)], 0, '~', "F15 (Help)", "xterm ctlseqs, PC-Style Function Keys" },
            row! { $part 10267, "key", 0, [needed!("which", 29, 29), number!("modifiers", 1, 256, 1)], 0, '~', "F16 (Menu)", "xterm ctlseqs, PC-Style Function Keys" },
            row! { $part 10268, "key", 0, [needed!("which", 31, 31), number!("modifiers", 1, 256, 1)], 0, '~', "F17", "xterm ctlseqs, PC-Style Function Keys" },
            row! { $part 10269, "key", 0, [needed!("which", 32, 32), number!("modifiers", 1, 256, 1)], 0, '~', "F18", "xterm ctlseqs, PC-Style Function Keys" },
            row! { $part 10270, "key", 0, [needed!("which", 33, 33), number!("modifiers", 1, 256, 1)], 0, '~', "F19", "xterm ctlseqs, PC-Style Function Keys" },
            row! { $part 10271, "key", 0, [needed!("which", 34, 34), number!("modifiers", 1, 256, 1)], 0, '~', "F20", "xterm ctlseqs, PC-Style Function Keys" },
        ]
    };
}

/// The form of each row.
pub static REPORT_FORMS: [SequenceForm; 100] = rows!(form);

/// The slots of each row, at the same place.
pub static REPORT_SLOTS: [[NumberSlot; MOST]; 100] = rows!(numbers);

/// What is said of each: its name, its meaning, its source, and the names of its numbers, a `;` behind each.
pub static REPORT_TEXTS: [[&str; 4]; 100] = rows!(texts);
