//! The words and options of a command line, and what `--help` says of them; the version. Completions and the manual page's parts are of
//! this file.

use crate::command::Task;

/// The words that say what is to be done.
pub(crate) static WORDS: [&str; 11] = [
    "filter",
    "compact",
    "strip",
    "clean",
    "check",
    "html",
    "screen",
    "explain",
    "assemble",
    "cuts",
    "normalise",
];

/// What each of these words asks for, and what `--help` behind it says.
pub(crate) static TASKS: [(&str, Task, &str); 11] = [
    ("filter", Task::Filter, FILTER),
    ("compact", Task::Compact, COMPACT),
    ("strip", Task::Strip, STRIP),
    ("clean", Task::Clean, CLEAN),
    ("check", Task::Check, CHECK),
    ("html", Task::Html, HTML),
    ("screen", Task::Screen, SCREEN),
    ("explain", Task::Explain, EXPLAIN),
    ("assemble", Task::Assemble, ASSEMBLE),
    ("cuts", Task::Cuts, CUTS),
    ("normalise", Task::Normal, NORMALISE),
];

/// The options, each as it stands in a command line. Behind a blank stand the words that have it, unless all have, and behind a
/// colon which values it has, if it has one. One that has a value with some words, and none with others, has a row for each.
pub(crate) static OPTIONS: [&str; 42] = [
    "--all check and strip",
    "--at explain: offsets such as 120, 120-180 or 120-, separated by commas",
    "--check strip and clean: visible",
    "--classes html",
    "--color explain: always, never or auto",
    "--color screen",
    "--colors clean: 256 or 16",
    "--count explain",
    "--decode explain",
    "--diff explain",
    "--every cuts: a size such as 64M",
    "--faithful filter",
    "--fragment html",
    "--full explain",
    "--grep explain: a text",
    "--help",
    "--ids html",
    "--ignore-case explain",
    "--input explain",
    "--json explain",
    "--lines strip and clean",
    "--links clean and html",
    "--log strip and clean",
    "--no-overwrite html",
    "--only explain: names such as SGR,CUP",
    "--output: a file",
    "--overwrite strip, clean and html",
    "--palette html: xterm, or 16 or 18 colours as #rrggbb, separated by commas",
    "--quiet explain",
    "--raw screen",
    "--scrollback screen",
    "--semicolons compact",
    "--size screen: columns and rows such as 80x24, 1 to 1000 of each",
    "--stats explain",
    "--style html: a file with a style sheet, or none",
    "--text filter, compact, strip and clean",
    "--timing explain: the file of times that script wrote",
    "--title html: the title of the page",
    "--unknown explain",
    "--utf8-mouse explain",
    "--version",
    "--visible strip, clean, check and html",
];

/// Those that also stand without their value, so that it only stands behind `=`.
pub(crate) static ALONE: [&str; 1] = ["--check"];

/// Options, each with those that don't go with it: what asks for anything but lines of two files; what only a whole page has; and another
/// way to take lines, a check of them, and links, of which no character of a line knows.
pub(crate) static APART: [&str; 5] = [
    "--diff --count --json --quiet --stats --timing",
    "--fragment --style --title",
    "--log --check --lines --links --overwrite",
    "--overwrite --check --lines --links --no-overwrite",
    "--visible --check",
];

/// How the program is used.
pub const USAGE: &str = "\
usage: csicodec filter [OPTION ..] [FILE ..]    write a stream with its control sequences in their normal form
       csicodec compact [OPTION ..] [FILE ..]   write the same stream in fewer bytes
       csicodec strip [OPTION ..] [FILE ..]     write the plain text of a stream
       csicodec clean [OPTION ..] [FILE ..]     write the text of a stream with its colours and styles
       csicodec check [OPTION ..] [FILE ..]     say whether a stream is plain text, and where it isn't
       csicodec html [OPTION ..] [FILE ..]      write an HTML page of the text with its colours and styles
       csicodec screen [OPTION ..] [FILE ..]    write what a terminal shows behind a stream
       csicodec explain [OPTION ..] [FILE ..]   say in words what is in a stream
       csicodec assemble [FILE ..]              turn what explain --json wrote back into a stream
       csicodec cuts [OPTION ..] [FILE ..]      say where a stream may be cut into pieces
       csicodec normalise [FILE ..]             write control sequences in their normal form, and refuse all else
       csicodec help [WORD]                     show this text, or the options of a word
       csicodec --version                       show the version";

/// Where the options of a word are told.
pub const HINT: &str = "csicodec WORD --help shows the options of WORD";

/// What is said where nobody named a file, and a terminal is standard input.
pub const WAITS: &str =
    "csicodec: reads what is typed here, until Ctrl-D at the start of a line. csicodec help shows what else it can do";

/// How `filter` is used.
pub const FILTER: &str = "\
usage: csicodec filter [OPTION ..] [FILE ..]

Write each FILE with every control sequence in its normal form, so that two
recordings can be compared. All other bytes pass unchanged. The normal form is
termwiz's. Terminals read a few of its sequences differently, and --faithful
leaves those as they are.

With no FILE, or when FILE is -, read standard input. An asciinema recording is
written as a recording with the same times. A FILE is one if its name ends in
.cast, and standard input if it begins like one.

  --faithful     Leave colours as they are, each sequence that isn't known
                 whole, and each whose normal form terminals are known to read
                 differently.
  -o, --output OUT  Write to the file OUT. If OUT exists, it is replaced at the
                 end, and only if nothing failed.
  --text         From a recording, write the filtered stream and no recording.
  -h, --help     Show this text.";

/// How `compact` is used.
pub const COMPACT: &str = "\
usage: csicodec compact [OPTION ..] [FILE ..]

Write each FILE in fewer bytes with the same actions. A control sequence gets a
shorter spelling if one is found. Most SGR sequences that stand side by side and
come together are joined, up to 16 numbers in one. All other bytes pass
unchanged.

With no FILE, or when FILE is -, read standard input. An asciinema recording is
written as a recording with the same times. A FILE is one if its name ends in
.cast, and standard input if it begins like one.

  -o, --output OUT  Write to the file OUT. If OUT exists, it is replaced at the
                 end, and only if nothing failed.
  --semicolons   Write colours with semicolons, such as 38;5;9, even if colons
                 are as short.
  --text         From a recording, write the shorter stream and no recording.
  -h, --help     Show this text.";

/// How `strip` is used.
pub const STRIP: &str = "\
usage: csicodec strip [OPTION ..] [FILE ..]

Write the plain text of each FILE, without control sequences, escape sequences
and control strings. Newline and tab are the only control characters that are
left. Bytes that aren't UTF-8 become U+FFFD.

With no FILE, or when FILE is -, read standard input. An asciinema recording is
written as a recording with the same times. A FILE is one if its name ends in
.cast, and standard input if it begins like one.

  --check        Write nothing. Exit 0 if every FILE is already plain text,
                 without colours. Otherwise print the first place that isn't,
                 and exit 1. Of a recording, check what programs wrote.
  --check=visible  Do the same, but take a character that isn't seen, or that
                 changes the order of the text, for such a place too.
  --all          With --check, print every place, as csicodec check does.
  --lines        Strip each line by itself, as logs need it. A sequence or
                 string that a line leaves open ends with the line. A carriage
                 return also ends a line.
  --log          Strip each line by itself, and write it as it looks at its end.
                 This is for build logs. It can't be combined with --check,
                 --lines or --overwrite.
  -o, --output OUT  Write to the file OUT. If OUT exists, it is replaced at the
                 end, and only if nothing failed.
  --overwrite    Write each line as it looks at its end, such as a progress bar.
                 It can't be combined with --check or --lines.
  --text         From a recording, write the text and no recording.
  --visible      Write a character that isn't seen, or that changes the order of
                 the text, as an escape with its number. The text then passes
                 --check=visible. It can't be combined with --check.
  -h, --help     Show this text.";

/// How `clean` is used.
pub const CLEAN: &str = "\
usage: csicodec clean [OPTION ..] [FILE ..]

Write the text of each FILE as strip does, but keep the colours and styles that
it knows. The style that hides text (SGR 8) and other fonts (SGR 11 to 19) are
dropped, and so are those that it doesn't know, as SGR 26 and 51. A style that
is still open at the end is closed. Text in the colour of its background is left
as it is.

With no FILE, or when FILE is -, read standard input. An asciinema recording is
written as a recording with the same times. A FILE is one if its name ends in
.cast, and standard input if it begins like one.

  --check        Write no text. Exit 0 if clean, with the other options, would
                 leave every FILE as it is. Otherwise print where it would begin
                 to change one, and exit 1.
  --colors=256   Replace true colours by the nearest of the places 16 to 255.
  --colors=16    Replace all colours by the nearest of the first 16.
  --lines        Clean each line by itself, as logs need it. A sequence, string
                 or style that a line leaves open ends with the line. A carriage
                 return also ends a line.
  --links        Keep links (OSC 8) to http and https addresses of at most
                 2,083 bytes of visible ASCII, without a user's name. A link
                 that is still open at the end is closed.
  --log          Clean each line by itself, and write it as it looks at its end.
                 This is for build logs. It can't be combined with --lines,
                 --links or --overwrite.
  -o, --output OUT  Write to the file OUT. If OUT exists, it is replaced at the
                 end, and only if nothing failed.
  --overwrite    Write each line as it looks at its end, such as a progress bar,
                 with its colours and styles. It can't be combined with --lines
                 or --links.
  --text         From a recording, write the cleaned text and no recording.
  --visible      Write a character that isn't seen, or that changes the order of
                 the text, as an escape with its number.
  -h, --help     Show this text.";

/// How `check` is used.
pub const CHECK: &str = "\
usage: csicodec check [OPTION ..] [FILE ..]

Exit 0 if every FILE is plain text, as strip writes it, and write nothing.
Otherwise write the first place of each FILE that isn't, and exit 1.

  notes.txt:3:14: danger: OSC 52  clipboard: 8 bytes

The numbers are the line and the character in it, counted from 1. What comes
next is what the place may do, and what it is, in the words of explain. A danger
may hide text, write over it, or make a terminal do more than show it. A colour
changes only how text looks, and all else is other.

With no FILE, or when FILE is -, read standard input. From an asciinema
recording, check what the programs wrote. A FILE is one if its name ends in
.cast, and standard input if it begins like one.

  --all          Write every place, not only the first.
  -o, --output OUT  Write to the file OUT. If OUT exists, it is replaced at the
                 end, and only if nothing failed.
  --visible      Take a character that isn't seen, or that changes the order of
                 the text, for a danger too.
  -h, --help     Show this text.";

/// How `html` is used.
pub const HTML: &str = "\
usage: csicodec html [OPTION ..] [FILE ..]

Write the FILEs as one HTML page, with their colours and styles. Each line is
shown as it looks at its end. No text of the input gets into a tag, except
addresses with --links. The first 16 colours are readable on a light and on a
dark page. The title is the name of the first FILE, unless --title is given.

With no FILE, or when FILE is -, read standard input. From an asciinema
recording, the page shows what the programs wrote. A FILE is one if its name
ends in .cast, and standard input if it begins like one.

  --classes          Use CSS classes instead of inline styles. A page contains
                     the style sheet, and a fragment doesn't.
  --fragment         Write only what goes into a <pre> of your own page.
  --ids              Give each line an id, so that #L42 at the end of the page's
                     address leads to line 42. It takes one FILE.
  --links            Keep links (OSC 8) to http and https addresses of at most
                     2,083 bytes of visible ASCII, without a user's name. This
                     implies --no-overwrite.
  --no-overwrite     Keep text that a carriage return or an erase would hide.
                     Use it for the output of full-screen programs.
  -o, --output OUT   Write to the file OUT. If OUT exists, it is replaced at
                     the end, and only if nothing failed.
  --overwrite        Write each line as it looks at its end, which is the
                     default. It can't be combined with --links.
  --palette COLOURS  Use exactly these 16 colours, written as #rrggbb and
                     separated by commas. A 17th and 18th set the page's text
                     and background. The word xterm gives xterm's colours.
  --style FILE       Use the style sheet in FILE instead of the page's own, or
                     with the word none no style sheet. It can't be combined
                     with --fragment.
  --title TEXT       Use TEXT as the page's title. It can't be combined with
                     --fragment.
  --visible          Write a character that isn't seen, or that changes the
                     order of the text, as an escape with its number.
  -h, --help         Show this text.";

/// How `screen` is used.
pub const SCREEN: &str = "\
usage: csicodec screen [OPTION ..] [FILE ..]

Write what a terminal shows behind each FILE, a line for each row. Blanks at the
ends of rows and empty rows at the bottom are left out. Each FILE begins with a
new screen.

With no FILE, or when FILE is -, read standard input. From an asciinema
recording, the screen shows what the programs wrote. A FILE is one if its name
ends in .cast, and standard input if it begins like one.

  --color        Keep the colours and styles, as clean writes them.
  -o, --output OUT  Write to the file OUT. If OUT exists, it is replaced at the
                 end, and only if nothing failed.
  --raw          Take newlines as they came, as in what script recorded.
                 Otherwise each also goes to the first column, as it does where
                 a program writes to a terminal.
  --scrollback   Write the rows that left at the top first, the last 10,000 of
                 them.
  --size SIZE    The columns and rows of the terminal, such as 132x43. Each is
                 from 1 to 1000. The default is 80x24.
  -h, --help     Show this text.";

/// How `explain` is used.
pub const EXPLAIN: &str = "\
usage: csicodec explain [OPTION ..] [FILE ..]

List what is in each FILE. Each text, control character, sequence and string has
a line, which is written as soon as its end is read. Its columns are the byte
offset, the bytes, the name, and what it does. If a sequence does several
things, each has a line. A newline, or CR LF, is shown on the line of the text
before it.

With no FILE, or when FILE is -, read standard input. With several FILEs, show
their names. From an asciinema recording, list what the programs wrote, with the
time in seconds as a first column. A FILE is one if its name ends in .cast, and
standard input if it begins like one. With --full, --grep and --decode memory
holds a text or a string until it is over, however long it is.

  --at PLACES     Show only what has a byte at these offsets, such as 120,
                  120-180 or 120-. Separate several with commas.
  --color WHEN    Use colours always, never or auto. The default is auto, which
                  uses them in a terminal unless NO_COLOR is set.
  --count         Show only totals of each kind and each name, at the end.
  --decode        Show what is put into the clipboard (OSC 52) decoded from
                  base64.
  --diff          Compare two FILEs, and show the lines that differ, whatever
                  their offsets. A line that is cut short is compared as a whole.
                  Exit 1 if any differ. It can't be combined with --count,
                  --json, --quiet, --stats or --timing.
  --full          Show all bytes, however many there are, and each newline on a
                  line of its own.
  --grep TEXT     Show only what contains TEXT, in its bytes as they are or as
                  they are shown, or in its words. It looks at each span alone,
                  so a word that a sequence splits isn't found. Exit 1 if
                  nothing does.
  -i, --ignore-case  With --grep, ignore case.
  --input         Read what a terminal sends, which is keys, mouse reports and
                  answers. From a recording, list what was typed.
  --json          Write a JSON object on each line, with at, kind, text or hex,
                  and actions. An action has name, words, action and its fields.
                  More than 64 KiB takes several objects, and in all but the last
                  more is true.
  --only NAMES    Show only these names, such as SGR or DECSET 2004, separated
                  by commas.
  -o, --output OUT  Write to the file OUT. If OUT exists, it is replaced at the
                  end, and only if nothing failed.
  -q, --quiet     Show nothing. Exit 0 if anything would be shown, and 1 if not.
  --stats         Show only a table, at the end. It counts each name and its
                  bytes, and has their share of all bytes.
  --timing TIMES  Show when each came. TIMES is the timing file of script.
  --unknown       Show only what is unknown or malformed. Exit 1 if nothing is.
  --utf8-mouse    Do as --input does, but read the three characters of a mouse
                  report as UTF-8 (mode 1005).
  -h, --help      Show this text.";

/// How `assemble` is used.
pub const ASSEMBLE: &str = "\
usage: csicodec assemble [FILE ..]

Turn what explain --json wrote back into a stream, also after an edit by jq -c
or sed. Each line of a FILE is a JSON object. Its text or hex is written as
bytes. If it has neither, each of its actions is written as a sequence, by the
action and its fields and not by the words. From an object with none of these,
or of the kind totals, nothing is written.

With no FILE, or when FILE is -, read standard input. A line is refused if it
isn't such an object, if it is over 16 MiB long, or if no sequence has its
actions. With actions alone it is also refused if it is over 8 MiB long or has
more than 262144 values, and may be if a value in it has a key text or hex.

  -o, --output OUT  Write to the file OUT. If OUT exists, it is replaced at the
                 end, and only if nothing failed.
  -h, --help     Show this text.";

/// How `cuts` is used.
pub const CUTS: &str = "\
usage: csicodec cuts --every SIZE [FILE ..]

Write the offsets where each FILE may be cut, counted from 0, a line for each.
Each is at least SIZE bytes behind the one before, and the first at least SIZE
bytes behind the start. No sequence, string or title is open there, and no
character is cut, so each piece is as good as a stream of its own. A piece ends
with a newline, or if none comes for 64 KiB with an ASCII character that is no
control.

With no FILE, or when FILE is -, read standard input. An asciinema recording is
read like any other FILE.

  --every SIZE   The least number of bytes in a piece, such as 64M. K, M and G
                 are 1,024 bytes, 1,024 K and 1,024 M.
  -o, --output OUT  Write to the file OUT. If OUT exists, it is replaced at the
                 end, and only if nothing failed.
  -h, --help     Show this text.";

/// How `normalise` is used.
pub const NORMALISE: &str = "\
usage: csicodec normalise [FILE ..]

Write the control sequences (ESC [ ..) of each FILE in their normal form, one
for each action. Refuse a FILE that has anything else, name the byte, and write
nothing of that FILE.

With no FILE, or when FILE is -, read standard input. Without a word csicodec
does the same, unless standard input is a terminal.

  -o, --output OUT  Write to the file OUT. If OUT exists, it is replaced at the
                 end, and only if nothing failed.
  -h, --help     Show this text.";

/// The program's name and version.
pub const VERSION: &str = "csicodec 1.27.0";
