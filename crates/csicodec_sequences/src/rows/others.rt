// Written by tools/table from table/sequences.toml: change that, and run python3 tools/table.
//! Functions of ECMA-48, of xterm and kitty, and of the Linux console.

use crate::row::{MOST, NumberSlot, SequenceForm};
use crate::rows::END;

/// The rows, of each of which a macro makes its part.
macro_rules! rows {
    ($part:ident) => {
        [
            // The functions of ECMA-48 that have no action.
            row! { $part 10071, "EF", 0, [number!("extent", 0, 2, 0)], 0, 'N', "erase in the field", "ECMA-48, 8.3.40" },
            row! { $part 10072, "EA", 0, [needed!("extent", 0, 2)], 0, 'O', "erase in the area", "ECMA-48, 8.3.37" },
            row! { $part 10073, "SEE", 0, [number!("extent", 0, 4, 0)], 0, 'Q', "select the extent of editing", "ECMA-48, 8.3.115" },
            row! { $part 10074, "NP", 0, [number!("pages", 0, 4294967295, 1)], 0, 'U', "pages forward", "ECMA-48, 8.3.87" },
            row! { $part 10075, "PP", 0, [number!("pages", 0, 4294967295, 1)], 0, 'V', "pages back", "ECMA-48, 8.3.95" },
            row! { $part 10076, "SRS", 0, [number!("string", 0, 1, 0)], 0, '[', "start or end a reversed string", "ECMA-48, 8.3.137" },
            row! { $part 10077, "PTX", 0, [number!("text", 0, 5, 0)], 0, '\\', "parallel texts", "ECMA-48, 8.3.99" },
            row! { $part 10078, "SIMD", 0, [number!("direction", 0, 1, 0)], 0, '^', "implicit direction of movement", "ECMA-48, 8.3.120" },
            row! { $part 10079, "DAQ", 0, [number!("kind", 0, 11, 0)], 0, 'o', "qualify an area", "ECMA-48, 8.3.25" },
            row! { $part 10080, "SDS", 0, [number!("string", 0, 1, 0)], 0, ']', "start or end a directed string", "ECMA-48, 8.3.114" },
            row! { $part 10081, "MC", 0, [number!("which", 0, 0, 0)], 0, 'i', "print the screen", "ECMA-48, 8.3.82" },
            row! { $part 10082, "MC", 0, [needed!("which", 1, 1)], 0, 'i', "transfer from the first device", "ECMA-48, 8.3.82" },
            row! { $part 10083, "MC", 0, [needed!("which", 2, 2)], 0, 'i', "transfer to the second device", "ECMA-48, 8.3.82" },
            row! { $part 10084, "MC", 0, [needed!("which", 3, 3)], 0, 'i', "transfer from the second device", "ECMA-48, 8.3.82" },
            row! { $part 10085, "MC", 0, [needed!("which", 4, 4)], 0, 'i', "printer controller off", "ECMA-48, 8.3.82" },
            row! { $part 10086, "MC", 0, [needed!("which", 5, 5)], 0, 'i', "printer controller on", "ECMA-48, 8.3.82" },
            row! { $part 10087, "MC", 0, [needed!("which", 6, 6)], 0, 'i', "relay to the second device off", "ECMA-48, 8.3.82" },
            row! { $part 10088, "MC", 0, [needed!("which", 7, 7)], 0, 'i', "relay to the second device on", "ECMA-48, 8.3.82" },
            row! { $part 10089, "DSR", 0, [needed!("which", 0, 0)], 0, 'n', "answer: ready, no malfunction", "ECMA-48, 8.3.35" },
            row! { $part 10090, "DSR", 0, [needed!("which", 1, 1)], 0, 'n', "answer: busy, ask again", "ECMA-48, 8.3.35" },
            row! { $part 10091, "DSR", 0, [needed!("which", 2, 2)], 0, 'n', "answer: busy, another answer follows", "ECMA-48, 8.3.35" },
            row! { $part 10092, "DSR", 0, [needed!("which", 3, 3)], 0, 'n', "answer: malfunction, ask again", "ECMA-48, 8.3.35" },
            row! { $part 10093, "DSR", 0, [needed!("which", 4, 4)], 0, 'n', "answer: malfunction, another answer follows", "ECMA-48, 8.3.35" },
            row! { $part 10094, "SL", 0, [number!("columns", 0, 4294967295, 1)], b' ', '@', "scroll left", "ECMA-48, 8.3.121" },
            row! { $part 10095, "SR", 0, [number!("columns", 0, 4294967295, 1)], b' ', 'A', "scroll right", "ECMA-48, 8.3.135" },
            row! { $part 10096, "GSM", 0, [number!("height", 0, 4294967295, 100), number!("width", 0, 4294967295, 100)], b' ', 'B', "size of characters, in percent", "ECMA-48, 8.3.55" },
            row! { $part 10097, "GSS", 0, [needed!("size", 0, 4294967295)], b' ', 'C', "size of characters", "ECMA-48, 8.3.56" },
            row! { $part 10098, "FNT", 0, [number!("font", 0, 9, 0), number!("set", 0, 4294967295, 0)], b' ', 'D', "a font", "ECMA-48, 8.3.53" },
            row! { $part 10099, "TSS", 0, [needed!("width", 0, 4294967295)], b' ', 'E', "width of a thin space", "ECMA-48, 8.3.157" },
            row! { $part 10100, "JFY", 0, [number!("how", 0, 8, 0)], b' ', 'F', "justify the text", "ECMA-48, 8.3.73" },
            row! { $part 10101, "SPI", 0, [needed!("lines", 0, 4294967295), needed!("characters", 0, 4294967295)], b' ', 'G', "spacing of lines and characters", "ECMA-48, 8.3.132" },
            row! { $part 10102, "QUAD", 0, [number!("how", 0, 6, 0)], b' ', 'H', "place the text of the line", "ECMA-48, 8.3.102" },
            row! { $part 10103, "SSU", 0, [number!("unit", 0, 8, 0)], b' ', 'I', "unit of size", "ECMA-48, 8.3.139" },
            row! { $part 10104, "PFS", 0, [number!("format", 0, 15, 0)], b' ', 'J', "format of the page", "ECMA-48, 8.3.91" },
            row! { $part 10105, "SHS", 0, [number!("spacing", 0, 6, 0)], b' ', 'K', "character spacing", "ECMA-48, 8.3.118" },
            row! { $part 10106, "SVS", 0, [number!("spacing", 0, 9, 0)], b' ', 'L', "line spacing", "ECMA-48, 8.3.149" },
            row! { $part 10107, "IGS", 0, [needed!("repertoire", 0, 4294967295)], b' ', 'M', "graphic subrepertoire", "ECMA-48, 8.3.66" },
            row! { $part 10108, "IDCS", 0, [needed!("kind", 0, 4294967295)], b' ', 'O', "what device control strings are", "ECMA-48, 8.3.65" },
            row! { $part 10109, "PPA", 0, [number!("page", 0, 4294967295, 1)], b' ', 'P', "to a page", "ECMA-48, 8.3.96" },
            row! { $part 10110, "PPR", 0, [number!("pages", 0, 4294967295, 1)], b' ', 'Q', "pages forward, place kept", "ECMA-48, 8.3.98" },
            row! { $part 10111, "PPB", 0, [number!("pages", 0, 4294967295, 1)], b' ', 'R', "pages back, place kept", "ECMA-48, 8.3.97" },
            row! { $part 10112, "SPD", 0, [number!("direction", 0, 7, 0), number!("effect", 0, 2, 0)], b' ', 'S', "directions of lines and characters", "ECMA-48, 8.3.130" },
            row! { $part 10113, "DTA", 0, [needed!("height", 0, 4294967295), needed!("width", 0, 4294967295)], b' ', 'T', "dimensions of the text area", "ECMA-48, 8.3.36" },
            row! { $part 10114, "SLH", 0, [needed!("column", 0, 4294967295)], b' ', 'U', "line home", "ECMA-48, 8.3.122" },
            row! { $part 10115, "SLL", 0, [needed!("column", 0, 4294967295)], b' ', 'V', "line limit", "ECMA-48, 8.3.123" },
            row! { $part 10116, "FNK", 0, [needed!("key", 0, 4294967295)], b' ', 'W', "a function key", "ECMA-48, 8.3.52" },
            row! { $part 10117, "SPQR", 0, [number!("quality", 0, 2, 0)], b' ', 'X', "print quality", "ECMA-48, 8.3.134" },
            row! { $part 10118, "SEF", 0, [number!("bin", 0, 4294967295, 0), number!("stacker", 0, 4294967295, 0)], b' ', 'Y', "sheet eject and feed", "ECMA-48, 8.3.116" },
            row! { $part 10119, "PEC", 0, [number!("how", 0, 2, 0)], b' ', 'Z', "expand or contract characters", "ECMA-48, 8.3.90" },
            row! { $part 10120, "SSW", 0, [needed!("width", 0, 4294967295)], b' ', '[', "width of a space", "ECMA-48, 8.3.140" },
            row! { $part 10121, "SACS", 0, [number!("width", 0, 4294967295, 0)], b' ', '\\', "additional character separation", "ECMA-48, 8.3.107" },
            row! { $part 10122, "SAPV", 0, [number!("variant", 0, 22, 0)], b' ', ']', "alternative presentation", "ECMA-48, 8.3.108" },
            row! { $part 10123, "STAB", 0, [needed!("stop", 0, 4294967295)], b' ', '^', "selective tabulation", "ECMA-48, 8.3.144" },
            row! { $part 10124, "GCC", 0, [number!("how", 0, 2, 0)], b' ', '_', "combine characters", "ECMA-48, 8.3.54" },
            row! { $part 10125, "TATE", 0, [needed!("column", 0, 4294967295)], b' ', '`', "tab stop at the trailing edge", "ECMA-48, 8.3.153" },
            row! { $part 10126, "TALE", 0, [needed!("column", 0, 4294967295)], b' ', 'a', "tab stop at the leading edge", "ECMA-48, 8.3.152" },
            row! { $part 10127, "TAC", 0, [needed!("column", 0, 4294967295)], b' ', 'b', "centred tab stop", "ECMA-48, 8.3.151" },
            row! { $part 10128, "TCC", 0, [needed!("column", 0, 4294967295), number!("character", 0, 4294967295, 32)], b' ', 'c', "tab stop centred on a character", "ECMA-48, 8.3.155" },
            row! { $part 10129, "TSR", 0, [needed!("column", 0, 4294967295)], b' ', 'd', "remove a tab stop", "ECMA-48, 8.3.156" },
            row! { $part 10130, "SCO", 0, [number!("turn", 0, 7, 0)], b' ', 'e', "orientation of characters", "ECMA-48, 8.3.110" },
            row! { $part 10131, "SRCS", 0, [number!("width", 0, 4294967295, 0)], b' ', 'f', "reduced character separation", "ECMA-48, 8.3.136" },
            row! { $part 10132, "SCS", 0, [needed!("spacing", 0, 4294967295)], b' ', 'g', "character spacing", "ECMA-48, 8.3.112" },
            row! { $part 10133, "SLS", 0, [needed!("spacing", 0, 4294967295)], b' ', 'h', "line spacing", "ECMA-48, 8.3.124" },
            row! { $part 10134, "SPH", 0, [needed!("line", 0, 4294967295)], b' ', 'i', "page home", "ECMA-48, 8.3.131" },
            row! { $part 10135, "SPL", 0, [needed!("line", 0, 4294967295)], b' ', 'j', "page limit", "ECMA-48, 8.3.133" },

            // Functions of xterm, of kitty, of mintty and of the Linux console.
            row! { $part 10136, "XTPUSHSGR", 0, [; further!("attribute", 0, 4294967295)], b'#', '{', "push attributes, all where none is named", "xterm ctlseqs, XTPUSHSGR" },
            row! { $part 10137, "XTPUSHSGR", 0, [; further!("attribute", 0, 4294967295)], b'#', 'p', "push attributes, all where none is named", "xterm ctlseqs, XTPUSHSGR" },
            row! { $part 10138, "XTPOPSGR", 0, [], b'#', '}', "pop the attributes", "xterm ctlseqs, XTPOPSGR" },
            row! { $part 10139, "XTPOPSGR", 0, [], b'#', 'q', "pop the attributes", "xterm ctlseqs, XTPOPSGR" },
            row! { $part 10140, "XTPUSHCOLORS", 0, [number!("place", 0, 10, 0)], b'#', 'P', "push the colours", "xterm ctlseqs, XTPUSHCOLORS" },
            row! { $part 10141, "XTPOPCOLORS", 0, [number!("place", 0, 10, 0)], b'#', 'Q', "pop the colours", "xterm ctlseqs, XTPOPCOLORS" },
            row! { $part 10142, "XTCHECKSUM", 0, [number!("bits", 0, 63, 0)], b'#', 'y', "how checksums are made", "xterm ctlseqs, XTCHECKSUM" },
            row! { $part 10143, "XTMODKEYS", b'>', [number!("resource", 0, 7, 2)], 0, 'n', "modifiers of keys off", "xterm ctlseqs, CSI > Ps n" },
            row! { $part 10144, "XTSMPOINTER", b'>', [number!("hides", 0, 3, 1)], 0, 'p', "when the pointer is hidden", "xterm ctlseqs, XTSMPOINTER" },
            row! { $part 10145, "XTSHIFTESCAPE", b'>', [number!("shift", 0, 3, 0)], 0, 's', "whether shift is a modifier in mouse reports", "xterm ctlseqs, XTSHIFTESCAPE" },
            row! { $part 10146, "XTSMTITLE", b'>', [needed!("form", 0, 3); further!("more", 0, 3)], 0, 't', "set the form of titles", "xterm ctlseqs, XTSMTITLE" },
            row! { $part 10147, "XTRMTITLE", b'>', [needed!("form", 0, 3); further!("more", 0, 3)], 0, 'T', "reset the form of titles", "xterm ctlseqs, XTRMTITLE" },
            row! { $part 10148, "XTHIMOUSE", 0, [needed!("function", 0, 4294967295), needed!("column", 0, 4294967295), needed!("line", 0, 4294967295), needed!("first", 0, 4294967295), needed!("last", 0, 4294967295)], 0, 'T', "highlight while the mouse is moved", "xterm ctlseqs, XTHIMOUSE" },
            row! { $part 10149, "SD", 0, [needed!("lines", 2, 4294967295)], 0, '^', "scroll down", "xterm ctlseqs, CSI Ps ^" },
            row! { $part 10150, "XTWINOPS", 0, [needed!("which", 22, 22)], 0, 't', "push the icon name and the window title", "xterm ctlseqs, XTWINOPS" },
            row! { $part 10151, "XTWINOPS", 0, [needed!("which", 23, 23)], 0, 't', "pop the icon name and the window title", "xterm ctlseqs, XTWINOPS" },
            row! { $part 10152, "MC", 0, [needed!("which", 10, 10)], 0, 'i', "HTML copy of the screen", "xterm ctlseqs, MC" },
            row! { $part 10153, "MC", 0, [needed!("which", 11, 11)], 0, 'i', "SVG copy of the screen", "xterm ctlseqs, MC" },
            row! { $part 10154, "unscroll", 0, [number!("lines", 0, 4294967295, 1)], b'+', 'T', "scroll down out of the scrollback", "kitty, Unscrolling the screen" },
            row! { $part 10155, "Linux", 0, [needed!("which", 1, 1), needed!("colour", 0, 4294967295)], 0, ']', "colour for underline", "console_codes(4)" },
            row! { $part 10156, "Linux", 0, [needed!("which", 2, 2), needed!("colour", 0, 4294967295)], 0, ']', "colour for faint", "console_codes(4)" },
            row! { $part 10157, "Linux", 0, [needed!("which", 8, 8)], 0, ']', "make the current colours the default", "console_codes(4)" },
            row! { $part 10158, "Linux", 0, [needed!("which", 9, 9), needed!("minutes", 0, 4294967295)], 0, ']', "minutes to a blank screen", "console_codes(4)" },
            row! { $part 10159, "Linux", 0, [needed!("which", 10, 10), needed!("pitch", 0, 4294967295)], 0, ']', "pitch of the bell, in hertz", "console_codes(4)" },
            row! { $part 10160, "Linux", 0, [needed!("which", 11, 11), needed!("length", 0, 4294967295)], 0, ']', "length of the bell, in milliseconds", "console_codes(4)" },
            row! { $part 10161, "Linux", 0, [needed!("which", 12, 12), needed!("console", 0, 4294967295)], 0, ']', "show a console", "console_codes(4)" },
            row! { $part 10162, "Linux", 0, [needed!("which", 13, 13)], 0, ']', "unblank the screen", "console_codes(4)" },
            row! { $part 10163, "Linux", 0, [needed!("which", 14, 14), needed!("minutes", 0, 4294967295)], 0, ']', "minutes to powering down the screen", "console_codes(4)" },
            row! { $part 10164, "Linux", 0, [needed!("which", 15, 15)], 0, ']', "show the console before", "console_codes(4)" },
            row! { $part 10165, "Linux", 0, [needed!("which", 16, 16), needed!("interval", 0, 4294967295)], 0, ']', "interval of the cursor's blinking, in milliseconds", "console_codes(4)" },
            row! { $part 10166, "Linux", b'?', [needed!("which", 0, 0)], 0, 'c', "the cursor's look: as it was", "Linux, VGA softcursor" },
            row! { $part 10167, "Linux", b'?', [needed!("look", 2, 3)], 0, 'c', "the cursor's look", "Linux, VGA softcursor" },
            row! { $part 10168, "Linux", b'?', [needed!("which", 5, 5)], 0, 'c', "the cursor's look: two thirds", "Linux, VGA softcursor" },
            row! { $part 10169, "Linux", b'?', [needed!("look", 8, 11)], 0, 'c', "the cursor's look", "Linux, VGA softcursor" },
            row! { $part 10170, "Linux", b'?', [needed!("look", 16, 60), number!("turned", 0, 255, 0), number!("set", 0, 255, 0)], 0, 'c', "the cursor's look", "Linux, VGA softcursor" },
            row! { $part 10171, "Linux", b'?', [needed!("look", 112, 127), number!("turned", 0, 255, 0), number!("set", 0, 255, 0)], 0, 'c', "the cursor's look", "Linux, VGA softcursor" },
        ]
    };
}

/// The form of each row.
pub static OTHER_FORMS: [SequenceForm; 101] = rows!(form);

/// The slots of each row, at the same place.
pub static OTHER_SLOTS: [[NumberSlot; MOST]; 101] = rows!(numbers);

/// What is said of each: its name, its meaning, its source, and the names of its numbers, a `;` behind each.
pub static OTHER_TEXTS: [[&str; 4]; 101] = rows!(texts);
