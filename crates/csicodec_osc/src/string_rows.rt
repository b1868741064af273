// Written by tools/table from table/strings.toml: change that, and run python3 tools/table.
//! Control strings in words.

/// Device control strings, the first that fits: a letter for what is told of the data, parameters, an intermediate byte
/// and a final one. The letter is `d` where that stands between quotation marks, `n` for nothing, `p` for a picture's
/// size, `a` for a setting that is asked for, `t` for one that is told, and `c` for capabilities. No parameters stand
/// for any that don't begin with `>`, and `>` for those that do.
pub(crate) static CONTROLS: [&str; 35] = pieces! {
    "n=1s", "n=2s", "n1000p", "d2$p", "d2$s", "d1$t", "d2$t", "d1$u", "d2$u", "pq", "a$q", "t$r", "c+q", "c1+r",
    "c+r", "d>|", "dp", "dr", "dv", "d{", "d|", "d!u", "d!z", "d!{", "d!|", "d!~", "d\"x", "d\"y", "d\"}", "d\"~",
    "d$p", "d$s", "d+p", "d+Q", "d+R",
};

/// The words of each, at the same place.
pub(crate) static CONTROL_WORDS: [&str; 35] = pieces! {
    "synchronized updates  start of an update", "synchronized updates  end of an update", "tmux  control mode on",
    "DECRSTS  restore the colour table", "DECCTR  answer: the colour table",
    "DECRSPS  restore the cursor's state", "DECRSPS  restore the tab stops", "DECCIR  answer: the cursor's state",
    "DECTABSR  answer: the tab stops", "sixel  picture", "DECRQSS  ask for ", "DECRPSS  answer: ",
    "XTGETTCAP  ask for ", "XTGETTCAP  answer: ", "XTGETTCAP  answer: not known: ",
    "XTVERSION  answer: the terminal's name and version", "ReGIS  drawing", "DECLBAN  banner message",
    "DECLANS  answerback message", "DECDLD  characters of a font", "DECUDK  user-defined keys",
    "DECAUPSS  the user's supplemental set", "DECDMAC  define a macro", "DECSTUI  set the unit's ID",
    "DECRPTUI  answer: the unit's ID", "DECCKSR  answer: checksum", "DECPFK  program a function key",
    "DECPAK  program an alphanumeric key", "DECPFKR  answer: function key", "DECPAKR  answer: alphanumeric key",
    "DECRSTS  restore the terminal's state", "DECTSR  answer: the terminal's state",
    "XTSETTCAP  set the terminfo entry", "XTGETXRES  ask for a resource", "XTGETXRES  answer: resource",
};

/// Settings, the first that fits: the last bytes of what sets one, and behind `=` its words.
pub(crate) static SETTINGS: [&str; 14] = pieces! {
    " q=the cursor's shape (DECSCUSR)", "\"p=the conformance level (DECSCL)",
    "\"q=the protection of characters (DECSCA)", "$|=the columns a page (DECSCPP)",
    "$}=the active display (DECSASD)", "$~=the kind of status line (DECSSDT)",
    "*x=what attribute changes extend to (DECSACE)", "*|=the lines on the screen (DECSNLS)",
    ",|=the colours (DECAC)", ",}=the alternate colours (DECATC)", "m=the attributes (SGR)",
    "r=the top and bottom margins (DECSTBM)", "s=the left and right margins (DECSLRM)",
    "t=the lines a page (DECSLPP)",
};

/// What a key of kitty's graphics says, the first that fits: the action that it is of, `-` where it is of any; the key,
/// or the key with a value; and behind `|` its words. In them `{}` stands for the value, and `{ pixel}` for the value
/// and what that counts.
pub(crate) static GRAPHICS: [&str; 64] = pieces! {
    "as=1|stop", "as=2|run, and wait for more frames", "as=3|run", "av=1|loops without end", "av|loops: {}",
    "ar|frame {}", "az|gap of { millisecond}", "ac|to frame {}", "fX=0|blended", "fX=1|replaced", "fr|frame {}",
    "fz|gap of { millisecond}", "fc|on frame {}", "fx|from column {}", "fy|from line {}",
    "fY|background colour {}", "cC=0|blended", "cC=1|replaced", "cc|from frame {}", "cr|to frame {}",
    "cx|to column {}", "cy|to line {}", "cX|from column {}", "cY|from line {}", "cw|{ pixel} wide",
    "ch|{ pixel} high", "-a=t|send", "-a=T|send and show", "-a=q|ask whether it could be shown", "-a=p|show",
    "-a=d|delete", "-a=f|send a frame", "-a=a|control an animation", "-a=c|compose frames", "-a|other action",
    "-f=24|RGB", "-f=32|RGBA", "-f=100|PNG", "-f|other format", "-t=d|data here", "-t=f|data in a file",
    "-t=t|data in a temporary file", "-t=s|data in shared memory", "-t|data elsewhere", "-m=0|last part",
    "-m|more to come", "-q=1|no answer where it works", "-q=2|no answer", "-o=z|compressed",
    "-C=1|the cursor stays", "-U=1|for placeholders", "-i|picture {}", "-I|picture number {}", "-p|placement {}",
    "-s|{ pixel} wide", "-v|{ pixel} high", "-S|{ byte} of the data", "-O|from byte {} of the data",
    "-c|{ column}", "-r|{ line}", "-w|part of { pixel} wide", "-h|part of { pixel} high", "-z|layer {}",
    "-d|what: {}",
};
