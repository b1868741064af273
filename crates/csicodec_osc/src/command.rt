// Written by tools/table from table/osc.toml: change that, and run python3 tools/table.
//! Commands: what each begins with.
ghost use Rattle.std.specs.Prelude.{◌≡◌};
ghost use Rattle.csicodec_osc.specs.Commands.{number};

/// Which title.
#[derive(Clone, Copy, Debug, PartialEq, Eq)]
pub enum Title {
    /// The window's title and the icon's name.
    Both,
    /// The icon's name.
    Icon,
    /// The window's title.
    Window,
}

/// Colours that have an index.
#[derive(Clone, Copy, Debug, PartialEq, Eq)]
pub enum ColorTable {
    /// The palette, from 0 to 255; xterm takes 256 and more for the special ones.
    Indexed,
    /// Those of text that is bold (0), underlined (1), blinking (2), inverse (3) or italic (4).
    Special,
}

/// Colours that have a name.
#[derive(Clone, Copy, Debug, PartialEq, Eq)]
pub enum Dynamic {
    /// Text.
    Foreground,
    /// The background.
    Background,
    /// The text cursor.
    Cursor,
    /// The pointer.
    PointerForeground,
    /// What is around the pointer.
    PointerBackground,
    /// Text in a window of a Tektronix terminal.
    TektronixForeground,
    /// Its background.
    TektronixBackground,
    /// The background of what is selected.
    HighlightBackground,
    /// The cursor of a Tektronix terminal.
    TektronixCursor,
    /// Text that is selected.
    HighlightForeground,
}

/// How the current folder is said.
#[derive(Clone, Copy, Debug, PartialEq, Eq)]
pub enum Folder {
    /// As an address, `file://host/path` with `%` and two digits for other bytes.
    Address,
    /// As a path, with or without quotation marks (ConEmu, Windows Terminal).
    Path,
}

/// A mark of a shell.
#[derive(Clone, Copy, Debug, PartialEq, Eq)]
pub enum Mark {
    /// The prompt begins.
    Prompt,
    /// The prompt is over, and the command line begins.
    Command,
    /// The output begins.
    Output,
    /// The command is over; its first field may be the status.
    End,
    /// The command line begins, and ends with the line.
    CommandLine,
    /// A new line, unless the cursor is at the beginning of one.
    FreshLine,
    /// The last command is over, and a prompt begins.
    NextPrompt,
    /// A prompt begins, of the kind that its fields say.
    PromptPart,
}

/// A mark of a shell for VS Code.
#[derive(Clone, Copy, Debug, PartialEq, Eq)]
pub enum EditorMark {
    /// The prompt begins.
    Prompt,
    /// The prompt is over, and the command line begins.
    Command,
    /// The output begins.
    Output,
    /// The command is over; its first field may be the status.
    End,
    /// The command line itself, and a nonce.
    CommandText,
    /// A prompt for a further line begins.
    Continuation,
    /// It is over.
    ContinuationEnd,
    /// A prompt at the right begins.
    RightPrompt,
    /// It is over.
    RightPromptEnd,
    /// A property, `name=value`.
    Property,
}

/// How the progress is shown.
#[derive(Clone, Copy, Debug, PartialEq, Eq)]
pub enum Progress {
    /// Not at all.
    Off,
    /// With a percentage.
    Shown,
    /// As failed.
    Failed,
    /// Without a percentage.
    Busy,
    /// As paused.
    Paused,
}

/// A command, without what stands behind its number.
#[derive(Clone, Copy)]
pub(crate) enum Command {
    Title(Title),
    Colors(ColorTable),
    ResetColors(ColorTable),
    Color(Dynamic),
    ResetColor(Dynamic),
    Folder(Folder),
    Prompt(Mark),
    Editor(EditorMark),
    Progress(Progress),
    Link,
    Clipboard,
    Pointer,
    KittyNotice,
    TitledNotice,
    Notice,
}

/// Tells a macro all commands: with each constructor over an enumeration what those of its variants begin with, and
/// behind them the single ones. The last one has the number that others go on with, and so is tried when none of them
/// is meant.
macro_rules! commands {
    ($macro:ident $($command:expr)?) => {
        $macro! { $($command)?;
            Title(Title) { Both b"0", Icon b"1", Window b"2", }
            Colors(ColorTable) { Indexed b"4", Special b"5", }
            ResetColors(ColorTable) { Indexed b"104", Special b"105", }
            Color(Dynamic) {
                Foreground b"10", Background b"11", Cursor b"12", PointerForeground b"13", PointerBackground b"14",
                TektronixForeground b"15", TektronixBackground b"16", HighlightBackground b"17", TektronixCursor b"18",
                HighlightForeground b"19",
            }
            ResetColor(Dynamic) {
                Foreground b"110", Background b"111", Cursor b"112", PointerForeground b"113", PointerBackground b"114",
                TektronixForeground b"115", TektronixBackground b"116", HighlightBackground b"117", TektronixCursor b"118",
                HighlightForeground b"119",
            }
            Folder(Folder) { Address b"7", Path b"9;9", }
            Prompt(Mark) {
                Prompt b"133;A", Command b"133;B", Output b"133;C", End b"133;D", CommandLine b"133;I", FreshLine b"133;L",
                NextPrompt b"133;N", PromptPart b"133;P",
            }
            Editor(EditorMark) {
                Prompt b"633;A", Command b"633;B", Output b"633;C", End b"633;D", CommandText b"633;E", Continuation b"633;F",
                ContinuationEnd b"633;G", RightPrompt b"633;H", RightPromptEnd b"633;I", Property b"633;P",
            }
            Progress(Progress) { Off b"9;4;0", Shown b"9;4;1", Failed b"9;4;2", Busy b"9;4;3", Paused b"9;4;4", };
            Link b"8", Clipboard b"52", Pointer b"22", KittyNotice b"99", TitledNotice b"777;notify", Notice b"9",
        }
    };
}

macro_rules! begins {
    ($command:expr; $($over:ident($kind:ident) { $($variant:ident $begins:literal,)* })*; $($single:ident $front:literal,)*) => {
        match $command {
            $($(Command::$over($kind::$variant) => $begins,)*)*
            $(Command::$single => $front,)*
        }
    };
}

macro_rules! all {
    (; $($over:ident($kind:ident) { $($variant:ident $begins:literal,)* })*; $($single:ident $front:literal,)*) => {
        [$($(Command::$over($kind::$variant),)*)* $(Command::$single,)*]
    };
}

impl Command {
    /// What it begins with.
    pub(crate) fn number(self) -> &'static [u8]
        ensures { result.now ≡ number self }
    {
        commands!(begins self)
    }
}

/// All of them.
pub(crate) static COMMANDS: [Command; 58] = commands!(all);
