// Written by tools/table from table/osc.toml: change that, and run python3 tools/table.
//! Words of the commands of OSC.

/// Those of [`Title`](crate::command::Title), by their place among the others.
pub(crate) static TITLE_WORDS: [&str; 3] = pieces! {
    "window title and icon name", "icon name", "window title",
};

/// Those of [`Dynamic`](crate::command::Dynamic), by their place among the others.
pub(crate) static DYNAMIC_WORDS: [&str; 10] = pieces! {
    "foreground colour", "background colour", "cursor colour", "pointer foreground colour",
    "pointer background colour", "Tektronix foreground colour", "Tektronix background colour",
    "highlight background colour", "Tektronix cursor colour", "highlight foreground colour",
};

/// Those of [`Folder`](crate::command::Folder), by their place among the others.
pub(crate) static FOLDER_WORDS: [&str; 2] = pieces! {
    "current folder", "current folder (ConEmu)",
};

/// Those of [`Mark`](crate::command::Mark), by their place among the others.
pub(crate) static MARK_WORDS: [&str; 8] = pieces! {
    "start of the prompt", "start of the command line", "start of the output", "end of the command",
    "start of the command line, to the end of the line", "to a fresh line",
    "start of the prompt, end of the last command", "start of a prompt",
};

/// Those of [`EditorMark`](crate::command::EditorMark), by their place among the others.
pub(crate) static EDITOR_MARK_WORDS: [&str; 10] = pieces! {
    "start of the prompt", "start of the command line", "start of the output", "end of the command",
    "command line (VS Code)", "start of the prompt for a further line", "end of the prompt for a further line",
    "start of the prompt at the right", "end of the prompt at the right", "property (VS Code)",
};

/// Those of [`Progress`](crate::command::Progress), by their place among the others.
pub(crate) static PROGRESS_WORDS: [&str; 5] = pieces! {
    "progress: none", "progress", "progress: failed", "progress: going on", "progress: paused",
};

pub const POINTER: &str = "shape of the mouse pointer";

pub const KITTY_NOTICE: &str = "notification (kitty)";

/// What a content begins with that has words alone, and a byte for what stands behind that: `.` for nothing, `;` for
/// `;` and a text, `?` for either, `=` for nothing or `=` and a text, `*` for a text at once, and `#` for one that is
/// all that is behind the number. The first that fits is told.
pub(crate) static FRONTS: [&str; 91] = pieces! {
    "0.", "1.", "2.", "9;1;", "9;2;", "9;3;", "9;5.", "9;6;", "9;7;", "9;8;", "9;10?", "9;11;", "9;12.",
    "1337;AddAnnotation=", "1337;AddHiddenAnnotation=", "1337;Block=", "1337;Button=", "1337;Capabilities=",
    "1337;ClearScrollback=", "1337;Copy=", "1337;CopyToClipboard=", "1337;CurrentDir=", "1337;CursorShape=",
    "1337;Custom=", "1337;EndCopy=", "1337;FileEnd=", "1337;FilePart=", "1337;HighlightCursorLine=",
    "1337;MultipartFile=", "1337;OpenURL=", "1337;PopKeyLabels=", "1337;PushKeyLabels=", "1337;RemoteHost=",
    "1337;ReportCellSize=", "1337;ReportVariable=", "1337;RequestAttention=", "1337;RequestUpload=",
    "1337;SetBadgeFormat=", "1337;SetColors=", "1337;SetMark=", "1337;SetProfile=", "1337;SetUserVar=",
    "1337;ShellIntegrationVersion=", "1337;StealFocus=", "6;file:#", "6;1;bg;", "50;CursorShape=*", "3?", "6?",
    "46?", "50?", "51?", "60?", "61?", "106?", "20?", "39?", "49?", "702?", "704?", "705?", "706?", "707?",
    "708?", "710?", "711?", "712?", "713?", "720?", "721?", "776?", "66?", "5113?", "5522?", "30001?", "30101?",
    "21?", "176?", "440?", "555?", "701?", "3008?", "P*", "R*", "l*", "L*", "I*", "133;", "633;", "777;", "1337;",
};

/// The words of each front, at the same place.
pub(crate) static ALONE: [&str; 91] = pieces! {
    "window title and icon name: \"\"", "icon name: \"\"", "window title: \"\"",
    "sleep, in milliseconds (ConEmu)", "message box (ConEmu)", "title of the tab (ConEmu)",
    "wait for a key (ConEmu)", "macro (ConEmu)", "run a program (ConEmu)",
    "show the environment's variable (ConEmu)", "keys and output as xterm has them (ConEmu)", "comment (ConEmu)",
    "start of the prompt (ConEmu)", "annotation", "hidden annotation", "block of text", "button",
    "what the terminal can do", "erase the scrollback", "copy to the clipboard, in base64",
    "what follows goes to the clipboard", "current folder", "shape of the cursor", "for a script",
    "end of what goes to the clipboard", "end of a file in parts", "part of a file",
    "highlight the cursor's line", "file in parts", "open a URL", "pop the labels of keys",
    "push the labels of keys", "user and host", "ask for the size of a cell", "ask for a variable",
    "ask for attention", "ask for an upload", "badge, in base64", "colours", "mark of this line", "profile",
    "variable, in base64", "version of the shell integration", "bring the window to the front",
    "current document (Terminal.app)", "colour of the tab (iTerm2)", "shape of the cursor (Konsole)",
    "property of the window", "whether a special colour is used", "log file", "font", "for Emacs' shell",
    "ask which features are allowed", "ask which features are not allowed", "whether a special colour is used",
    "image of the background (rxvt)", "foreground colour (rxvt)", "background colour (rxvt)",
    "ask for the version (rxvt)", "colour of italic text (rxvt)", "tint of the background (rxvt)",
    "colour of bold text (rxvt)", "colour of underlined text (rxvt)", "colour of the border (rxvt)",
    "font (rxvt)", "font of bold text (rxvt)", "font of italic text (rxvt)", "font of bold italic text (rxvt)",
    "scroll back by lines (rxvt)", "scroll forward by lines (rxvt)", "ask for a cell's size (rxvt)",
    "text of another size (kitty)", "file transfer (kitty)", "clipboard (kitty)", "push the colours (kitty)",
    "pop the colours (kitty)", "window title (DEC), or colours (kitty)", "application ID (foot)",
    "play a sound (mintty)", "flash the terminal (foot)", "locale (rxvt, mintty)", "context (systemd)",
    "colour of the palette (Linux)", "reset the palette (Linux)", "window title", "icon name", "file of the icon",
    "unknown mark of a shell", "unknown mark of a shell", "extension (rxvt)", "unknown key (iTerm2)",
};
