// Written by tools/table from table/modes.toml: change that, and run python3 tools/table.
//! What modes are called: their numbers, a tab and the words.

/// Private modes, of DEC and of other terminals.
pub(crate) static PRIVATE: [&str; 110] = pieces! {
    "1\tapplication cursor keys (DECCKM)", "10\ttool bar", "100\tautomatic answerback (DECAAM)",
    "1000\treports of mouse buttons", "1001\treports of mouse highlighting", "1002\treports of mouse drags",
    "1003\treports of mouse motions", "1004\treports of focus", "1005\tmouse reports in UTF-8",
    "1006\tmouse reports in SGR form (cells)", "1007\twheel as cursor keys in the alternate screen",
    "101\tconcealed answerback message (DECCANSM)", "1010\tscroll to the bottom at output",
    "1011\tscroll to the bottom at a key press", "1014\tfast scroll", "1015\tmouse reports in urxvt form",
    "1016\tmouse reports in SGR form (pixels)", "102\tnull mode (DECNULM)", "103\thalf duplex (DECHDPXM)",
    "1034\tmeta sets the eighth bit", "1035\tspecial modifiers for alt and num lock", "1036\tmeta sends ESC",
    "1037\tkeypad's delete key sends DEL", "1039\talt sends ESC",
    "104\tsecondary language of the keyboard (DECESKM)", "1040\tselection kept when it is not highlighted",
    "1041\tclipboard selection", "1042\turgency hint at BEL", "1043\twindow raised at BEL",
    "1044\tclipboard data kept", "1045\textended reverse wraparound (XTREVWRAP2)",
    "1046\tswitching to the alternate screen", "1047\talternate screen", "1048\tsaved cursor",
    "1049\talternate screen with a saved cursor", "1050\tfunction keys from terminfo",
    "1051\tSun's function keys", "1052\tHP's function keys", "1053\tSCO's function keys",
    "106\toverscan (DECOSCNM)", "1060\tX11R6's keyboard", "1061\tVT220's keyboard",
    "1070\tprivate colours for each image", "108\tnum lock (DECNUMLK)", "109\tcaps lock (DECCAPSLK)",
    "110\tkeyboard lights by programs alone (DECKLHIM)", "111\tframed windows (DECFWM)",
    "112\treview of previous lines (DECRPL)", "113\twake-up by programs (DECHWUM)",
    "114\ta colour in place of underline (DECATCUM)", "115\ta colour in place of blink (DECATCBM)",
    "116\tbold and blink in the background too (DECBBSM)", "117\terasing in the screen's background (DECECM)",
    "12\tblinking cursor", "13\tblinking cursor by resource or menu",
    "14\tblinking cursor by either sequence or menu, not by both",
    "18\tform feed behind a printed screen (DECPFF)", "19\tprinting of the whole screen (DECPEX)",
    "2\tANSI mode (DECANM)", "2001\treadline mouse button 1", "2002\treadline mouse button 2",
    "2003\treadline mouse button 3", "2004\tbracketed paste", "2005\treadline character quoting",
    "2006\treadline newline pasting", "2026\tsynchronized output", "2027\twidth by grapheme clusters",
    "2031\treports of colour scheme changes", "2048\treports of window sizes", "25\tvisible cursor (DECTCEM)",
    "3\t132 columns (DECCOLM)", "30\tscroll bar", "34\tright to left (DECRLM)", "35\tfont shifting keys",
    "36\tHebrew in 7 bits (DECHEM)", "38\tTektronix mode (DECTEK)", "4\tsmooth scroll (DECSCLM)",
    "40\tswitching between 80 and 132 columns", "41\tmore(1) fix",
    "42\tnational replacement character sets (DECNRCM)", "43\texpanded graphics print (DECGEPM)",
    "44\tmargin bell", "45\treverse wraparound (XTREVWRAP)", "46\tlogging", "47\talternate screen",
    "5\treverse video (DECSCNM)", "5522\tpaste events with MIME types", "57\tGreek keyboard (DECNAKB)",
    "6\torigin at the margins (DECOM)", "60\twindow follows the cursor sideways (DECHCCM)",
    "61\twindow follows the cursor up and down (DECVCCM)",
    "64\twindow follows the cursor to other pages (DECPCCM)", "66\tapplication keypad (DECNKM)",
    "67\tbackspace from the backarrow key (DECBKM)", "68\tdata processing keys (DECKBUM)",
    "69\tleft and right margins (DECLRMM)", "7\tauto-wrap (DECAWM)", "73\tlimited transmit rate (DECXRLM)",
    "7727\tapplication escape key", "8\tauto-repeat of keys (DECARM)", "80\tsixel display mode (DECSDM)",
    "81\treports of key positions (DECKPM)", "8452\tcursor to the right of sixel images",
    "9\treports of mouse presses (X10)", "9001\tWin32 input mode", "95\tno clearing at DECCOLM (DECNCSM)",
    "96\tright-to-left copy (DECRLCM)", "97\tscreen saver (DECCRTSM)",
    "98\tautomatic resizing of the screen (DECARSM)", "99\tmodem control (DECMCM)",
};

/// What is set of private modes, where that isn't `on`.
pub(crate) static SET: [&str; 2] = pieces! {
    "1048\tsave the cursor", "1049\tsave the cursor, alternate screen on, erased",
};

/// What is reset of them, where that isn't `off`.
pub(crate) static RESET: [&str; 5] = pieces! {
    "1047\talternate screen off, erased before", "1048\trestore the cursor",
    "1049\talternate screen off, restore the cursor", "2\tANSI mode (DECANM) off: VT52",
    "3\t132 columns (DECCOLM) off: 80",
};

/// Modes of ECMA-48, and those that others have among them.
pub(crate) static TERMINAL: [&str; 22] = pieces! {
    "1\ttransfer of guarded areas (GATM)", "10\thorizontal editing backwards (HEM)",
    "11\tpositions in units of size (PUM)", "12\tlocal echo (SRM)", "13\tformat effectors stored (FEAM)",
    "14\tformat effectors left out of transfers (FETM)", "15\ttransfer of all selected areas (MATM)",
    "16\ttransfer beyond the cursor (TTM)", "17\ttransfer of areas that aren't selected (SATM)",
    "18\ttab stops of a single line (TSM)", "2\tkeyboard lock (KAM)", "20\tnewline at line feed (LNM)",
    "21\tattributes added to those before (GRCM)", "22\ta parameter of 0 for the default (ZDM)",
    "25\tvisible cursor", "3\tcontrol characters shown (CRM)", "4\tinsert mode (IRM)",
    "5\tstatus reports unasked (SRTM)", "6\terasure of protected areas (ERM)",
    "7\tvertical editing backwards (VEM)", "8\tbidirectional support (BDSM)",
    "9\tcontrol functions on the data (DCSM)",
};

/// What is set of them, where that isn't `on`.
pub(crate) static TERMINAL_SET: [&str; 1] = ["12\tlocal echo (SRM) off"];

/// What is reset of them, where that isn't `off`.
pub(crate) static TERMINAL_RESET: [&str; 1] = ["12\tlocal echo (SRM) on"];
