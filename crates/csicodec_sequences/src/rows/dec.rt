// Written by tools/table from table/sequences.toml: change that, and run python3 tools/table.
//! Functions of DEC's terminals.

use crate::row::{MOST, NumberSlot, SequenceForm};
use crate::rows::END;

/// The rows, of each of which a macro makes its part.
macro_rules! rows {
    ($part:ident) => {
        [
            row! { $part 10001, "DECSED", b'?', [number!("extent", 0, 3, 0)], 0, 'J', "erase in the display what isn't protected", "EK-VT520-RM, DECSED" },
            row! { $part 10002, "DECSEL", b'?', [number!("extent", 0, 2, 0)], 0, 'K', "erase in the line what isn't protected", "EK-VT520-RM, DECSEL" },
            row! { $part 10003, "DECSCA", 0, [number!("protection", 0, 2, 0)], b'"', 'q', "protection of the characters that follow", "EK-VT520-RM, DECSCA" },
            row! { $part 10004, "DECSCL", 0, [needed!("level", 61, 65), number!("controls", 0, 2, 0)], b'"', 'p', "conformance level, and the form of C1 controls", "EK-VT520-RM, DECSCL" },
            row! { $part 10005, "DECSRFR", 0, [number!("rate", 0, 3, 0)], b'"', 't', "refresh rate of the screen", "EK-VT520-RM, DECSRFR" },
            row! { $part 10006, "DECSTRL", 0, [number!("limit", 0, 9, 0)], b'"', 'u', "limit of the transmit rate", "EK-VT520-RM, DECSTRL" },
            row! { $part 10007, "DECIC", 0, [number!("columns", 0, 4294967295, 1)], b'\'', '}', "insert columns", "EK-VT520-RM, DECIC" },
            row! { $part 10008, "DECDC", 0, [number!("columns", 0, 4294967295, 1)], b'\'', '~', "delete columns", "EK-VT520-RM, DECDC" },
            row! { $part 10009, "DECELR", 0, [number!("reports", 0, 2, 0), number!("unit", 0, 2, 0)], b'\'', 'z', "locator reports", "xterm ctlseqs, DECELR" },
            row! { $part 10010, "DECSLE", 0, [number!("events", 0, 4, 0); further!("more", 0, 4)], b'\'', '{', "which events of the locator are reported", "xterm ctlseqs, DECSLE" },
            row! { $part 10011, "DECEFR", 0, [number!("top", 0, 4294967295, 0), number!("left", 0, 4294967295, 0), number!("bottom", 0, 4294967295, 0), number!("right", 0, 4294967295, 0)], b'\'', 'w', "filter rectangle of the locator", "xterm ctlseqs, DECEFR" },
            row! { $part 10012, "DECSDDT", 0, [number!("delay", 0, 65535, 0)], b'$', 'q', "delay of disconnecting", "EK-VT520-RM, DECSDDT" },
            row! { $part 10013, "DECSPRTT", 0, [number!("printer", 0, 65535, 0)], b'$', 's', "type of the printer", "EK-VT520-RM, DECSPRTT" },
            row! { $part 10014, "DECCARA", 0, [number!("top", 0, 4294967295, 1), number!("left", 0, 4294967295, 1), number!("bottom", 0, 4294967295, 0), number!("right", 0, 4294967295, 0), number!("attribute", 0, 4294967295, 0); further!("more", 0, 4294967295)], b'$', 'r', "change attributes in a rectangle", "EK-VT520-RM, DECCARA" },
            row! { $part 10015, "DECRARA", 0, [number!("top", 0, 4294967295, 1), number!("left", 0, 4294967295, 1), number!("bottom", 0, 4294967295, 0), number!("right", 0, 4294967295, 0), number!("attribute", 0, 4294967295, 0); further!("more", 0, 4294967295)], b'$', 't', "reverse attributes in a rectangle", "EK-VT520-RM, DECRARA" },
            row! { $part 10016, "DECCRA", 0, [number!("top", 0, 4294967295, 1), number!("left", 0, 4294967295, 1), number!("bottom", 0, 4294967295, 0), number!("right", 0, 4294967295, 0), number!("page", 0, 4294967295, 1), number!("to top", 0, 4294967295, 1), number!("to left", 0, 4294967295, 1), number!("to page", 0, 4294967295, 1)], b'$', 'v', "copy a rectangle", "EK-VT520-RM, DECCRA" },
            row! { $part 10017, "DECFRA", 0, [number!("character", 0, 4294967295, 32), number!("top", 0, 4294967295, 1), number!("left", 0, 4294967295, 1), number!("bottom", 0, 4294967295, 0), number!("right", 0, 4294967295, 0)], b'$', 'x', "fill a rectangle with a character", "EK-VT520-RM, DECFRA" },
            row! { $part 10018, "DECERA", 0, [number!("top", 0, 4294967295, 1), number!("left", 0, 4294967295, 1), number!("bottom", 0, 4294967295, 0), number!("right", 0, 4294967295, 0)], b'$', 'z', "erase a rectangle", "EK-VT520-RM, DECERA" },
            row! { $part 10019, "DECSERA", 0, [number!("top", 0, 4294967295, 1), number!("left", 0, 4294967295, 1), number!("bottom", 0, 4294967295, 0), number!("right", 0, 4294967295, 0)], b'$', '{', "erase in a rectangle what isn't protected", "EK-VT520-RM, DECSERA" },
            row! { $part 10020, "DECSACE", 0, [number!("extent", 0, 2, 0)], b'*', 'x', "whether DECCARA and DECRARA change a stream of lines (0 and 1) or a rectangle", "EK-VT520-RM, DECSACE" },
            row! { $part 10021, "DECSCPP", 0, [number!("columns", 0, 255, 80)], b'$', '|', "columns a page", "EK-VT520-RM, DECSCPP" },
            row! { $part 10022, "DECSASD", 0, [number!("display", 0, 1, 0)], b'$', '}', "whether characters go to the screen or to the status line", "EK-VT520-RM, DECSASD" },
            row! { $part 10023, "DECSSDT", 0, [number!("line", 0, 2, 0)], b'$', '~', "status line: none, the terminal's own, or one for programs", "EK-VT520-RM, DECSSDT" },
            row! { $part 10024, "DECSNLS", 0, [number!("lines", 0, 255, 24)], b'*', '|', "lines on the screen", "EK-VT520-RM, DECSNLS" },
            row! { $part 10025, "DECES", 0, [], b'&', 'x', "enable the session", "EK-VT520-RM, DECES" },
            row! { $part 10026, "DECSPPCS", 0, [number!("set", 0, 65535, 0)], b'*', 'p', "character set of the ProPrinter", "EK-VT520-RM, DECSPPCS" },
            row! { $part 10027, "DECSCS", 0, [number!("line", 0, 5, 0), number!("speed", 0, 11, 0)], b'*', 'r', "speed of a line", "EK-VT520-RM, DECSCS" },
            row! { $part 10028, "DECSFC", 0, [number!("direction", 0, 4294967295, 0), number!("kind", 0, 4294967295, 0), number!("level", 0, 4294967295, 0)], b'*', 's', "flow control", "EK-VT520-RM, DECSFC" },
            row! { $part 10029, "DECSCP", 0, [number!("port", 0, 2, 0), number!("host", 0, 4294967295, 0)], b'*', 'u', "communication port", "EK-VT520-RM, DECSCP" },
            row! { $part 10030, "DECINVM", 0, [number!("macro", 0, 63, 0)], b'*', 'z', "run a macro", "EK-VT520-RM, DECINVM" },
            row! { $part 10031, "DECLFKC", 0, [number!("key", 0, 8, 0), number!("control", 0, 3, 0)], b'*', '}', "local function keys", "EK-VT520-RM, DECLFKC" },
            row! { $part 10032, "DECSR", 0, [number!("confirmation", 0, 16383, 0)], b'+', 'p', "secure reset", "EK-VT520-RM, DECSR" },
            row! { $part 10033, "DECELF", 0, [number!("function", 0, 5, 0), number!("control", 0, 2, 0)], b'+', 'q', "local functions", "EK-VT520-RM, DECELF" },
            row! { $part 10034, "DECSMKR", 0, [number!("key", 0, 4294967295, 0), number!("report", 0, 4294967295, 0)], b'+', 'r', "reports of modifier keys", "EK-VT520-RM, DECSMKR" },
            row! { $part 10035, "DECSPP", 0, [number!("port", 0, 4294967295, 0), number!("bits", 0, 4294967295, 0), number!("parity", 0, 4294967295, 0), number!("stop", 0, 4294967295, 0)], b'+', 'w', "parameters of a port", "EK-VT520-RM, DECSPP" },
            row! { $part 10036, "DECSTGLT", 0, [number!("table", 0, 3, 0)], b')', '{', "colour look-up table", "EK-VT520-RM, DECSTGLT" },
            row! { $part 10037, "DECLTOD", 0, [number!("hour", 0, 23, 0), number!("minute", 0, 59, 0)], b',', 'p', "time of day", "EK-VT520-RM, DECLTOD" },
            row! { $part 10038, "DECTID", 0, [number!("terminal", 0, 10, 0)], b',', 'q', "the terminal ID that is told", "EK-VT520-RM, DECTID" },
            row! { $part 10039, "DECUS", 0, [number!("session", 0, 1, 0)], b',', 'y', "update the session", "EK-VT520-RM, DECUS" },
            row! { $part 10040, "DECSZS", 0, [number!("style", 0, 2, 0)], b',', '{', "how zero is written", "EK-VT520-RM, DECSZS" },
            row! { $part 10041, "DECAC", 0, [needed!("item", 1, 2), needed!("foreground", 0, 255), needed!("background", 0, 255)], b',', '|', "colours of text", "EK-VT520-RM, DECAC" },
            row! { $part 10042, "DECATC", 0, [needed!("attribute", 0, 15), needed!("foreground", 0, 255), needed!("background", 0, 255)], b',', '}', "colours of an attribute", "EK-VT520-RM, DECATC" },
            row! { $part 10043, "DECPS", 0, [needed!("volume", 0, 7), needed!("duration", 0, 255), number!("note", 0, 25, 0); further!("more", 0, 25)], b',', '~', "play notes", "EK-VT520-RM, DECPS" },
            row! { $part 10044, "DECCRTST", 0, [number!("minutes", 0, 60, 15)], b'-', 'q', "time to the screen saver", "EK-VT520-RM, DECCRTST" },
            row! { $part 10045, "DECSEST", 0, [number!("minutes", 0, 60, 15)], b'-', 'r', "time to saving energy", "EK-VT520-RM, DECSEST" },
            row! { $part 10046, "DECARR", 0, [number!("rate", 0, 30, 30)], b'-', 'p', "rate of auto-repeat", "EK-VT520-RM, DECARR" },
            row! { $part 10047, "DECSKCV", 0, [number!("volume", 0, 8, 0)], b' ', 'r', "volume of the key click", "EK-VT520-RM, DECSKCV" },
            row! { $part 10048, "DECSWBV", 0, [number!("volume", 0, 8, 0)], b' ', 't', "volume of the warning bell", "EK-VT520-RM, DECSWBV" },
            row! { $part 10049, "DECSMBV", 0, [number!("volume", 0, 8, 0)], b' ', 'u', "volume of the margin bell", "EK-VT520-RM, DECSMBV" },
            row! { $part 10050, "DECSLCK", 0, [number!("style", 0, 1, 0)], b' ', 'v', "style of the lock key", "EK-VT520-RM, DECSLCK" },
            row! { $part 10051, "DECSSCLS", 0, [number!("speed", 0, 9, 0)], b' ', 'p', "speed of scrolling", "EK-VT520-RM, DECSSCLS" },
            row! { $part 10052, "DECKBD", 0, [number!("language", 0, 65535, 0), number!("layout", 0, 65535, 0)], b' ', '}', "language of the keyboard", "EK-VT520-RM, DECKBD" },
            row! { $part 10053, "DECTME", 0, [number!("mode", 0, 7, 0)], b' ', '~', "terminal mode emulation", "EK-VT520-RM, DECTME" },
            row! { $part 10054, "DECST8C", b'?', [needed!("which", 5, 5)], 0, 'W', "tab stops at every 8 columns", "EK-VT520-RM, DECST8C" },
            row! { $part 10055, "MC", b'?', [needed!("which", 1, 1)], 0, 'i', "print the line of the cursor", "EK-VT520-RM, MC" },
            row! { $part 10056, "MC", b'?', [needed!("which", 4, 4)], 0, 'i', "auto print off", "EK-VT520-RM, MC" },
            row! { $part 10057, "MC", b'?', [needed!("which", 5, 5)], 0, 'i', "auto print on", "EK-VT520-RM, MC" },
            row! { $part 10058, "MC", b'?', [needed!("which", 10, 10)], 0, 'i', "print the whole display", "xterm ctlseqs, MC" },
            row! { $part 10059, "MC", b'?', [needed!("which", 11, 11)], 0, 'i', "print all pages", "xterm ctlseqs, MC" },
            row! { $part 10060, "DECLL", 0, [number!("which", 0, 0, 0)], 0, 'q', "all lights of the keyboard off", "EK-VT520-RM, DECLL" },
            row! { $part 10061, "DECLL", 0, [needed!("which", 1, 1)], 0, 'q', "num lock light on", "EK-VT520-RM, DECLL" },
            row! { $part 10062, "DECLL", 0, [needed!("which", 2, 2)], 0, 'q', "caps lock light on", "EK-VT520-RM, DECLL" },
            row! { $part 10063, "DECLL", 0, [needed!("which", 3, 3)], 0, 'q', "scroll lock light on", "EK-VT520-RM, DECLL" },
            row! { $part 10064, "DECLL", 0, [needed!("which", 21, 21)], 0, 'q', "num lock light off", "xterm ctlseqs, DECLL" },
            row! { $part 10065, "DECLL", 0, [needed!("which", 22, 22)], 0, 'q', "caps lock light off", "xterm ctlseqs, DECLL" },
            row! { $part 10066, "DECLL", 0, [needed!("which", 23, 23)], 0, 'q', "scroll lock light off", "xterm ctlseqs, DECLL" },
            row! { $part 10067, "DECTST", 0, [needed!("kind", 2, 4), number!("test", 0, 4294967295, 0); further!("more", 0, 4294967295)], 0, 'y', "self-test", "EK-VT520-RM, DECTST" },
            row! { $part 10068, "DECSLPP", 0, [needed!("lines", 24, 47)], 0, 't', "lines a page, up to 47", "EK-VT520-RM, DECSLPP" },
            row! { $part 10069, "DECSLPP", 0, [needed!("lines", 49, 255)], 0, 't', "lines a page, from 49 on", "EK-VT520-RM, DECSLPP" },
            row! { $part 10070, "DECSLPP", 0, [needed!("which", 48, 48)], 0, 't', "48 lines a page", "EK-VT520-RM, DECSLPP" },
        ]
    };
}

/// The form of each row.
pub static DEC_FORMS: [SequenceForm; 70] = rows!(form);

/// The slots of each row, at the same place.
pub static DEC_SLOTS: [[NumberSlot; MOST]; 70] = rows!(numbers);

/// What is said of each: its name, its meaning, its source, and the names of its numbers, a `;` behind each.
pub static DEC_TEXTS: [[&str; 4]; 70] = rows!(texts);
