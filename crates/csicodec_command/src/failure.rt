//! What a program tells of a run that failed: its message, and the status.
ghost use Rattle.csicodec_command.specs.{Common.Some, Common.RunError, Failure.found_text, Failure.line, Failure.status, Runs.ends_run};
ghost use Rattle.csicodec_command.specs.{declared.failure.Failure.TheVariants.Run as Ran};
ghost use Rattle.std.specs.Prelude.{◌≡◌};

use crate::packed::Packing;
use csicodec_listing::Fault;
use csicodec_transform::RunError;
use std::alloc::AllocError;
use std::fmt;

/// The status where the reader of the output went away: the one that a shell tells of a program that SIGPIPE ended (128 + 13), as
/// most programs end then.
pub const GONE: u8 = 141;

/// What stands where a stream is plain text no more.
#[derive(Clone, Copy)]
pub enum Found {
    /// ESC and `[`.
    Sequence,
    /// ESC and what opens an OSC, a DCS, an SOS, a PM or an APC.
    String,
    /// Another ESC.
    Escape,
    /// A control character, by its code: of C0, DEL or of C1.
    Control(u8),
    /// What is no UTF-8.
    NotUtf8,
    /// A character that changes the order of text, by its number.
    Turning(u32),
    /// A tag.
    Tag(u32),
    /// Another character that isn't seen.
    Unseen(u32),
}

impl fmt::Display for Found {
    ghost output = { λ found. Some (found_text found) };

    fn fmt<W: fmt::Write>(&self, f: &mut fmt::Formatter<W>) -> fmt::Result {
        match self {
            Found::Sequence => f.write_str("a control sequence"),
            Found::String => f.write_str("a control string"),
            Found::Escape => f.write_str("an escape sequence"),
            Found::Control(code) => write!(f, "the control character {code}"),
            Found::NotUtf8 => f.write_str("bytes that are no UTF-8"),
            Found::Turning(code) => write!(f, "U+{code:04X}, which changes the order of text"),
            Found::Tag(code) => write!(f, "U+{code:04X}, a tag"),
            Found::Unseen(code) => write!(f, "U+{code:04X}, which isn't seen"),
        }
    }
}

/// Why a run failed.
#[derive(Clone, Copy)]
pub enum Failure {
    /// The words of the command line are no command.
    Usage,
    /// One of them isn't text.
    NotText,
    /// There is no such option.
    UnknownOption,
    /// Another command has this option.
    Misplaced,
    /// Two options don't go together.
    Apart,
    /// An option stands without its value.
    NoValue,
    /// An option doesn't have this value.
    NotValue,
    /// The file can't be opened.
    Open,
    /// It is no stream, but what a stream may be packed in.
    Packed(Packing),
    /// The line of this number, counted from 1, isn't one of an asciicast; 0 where there is none.
    Recording(u64),
    /// The line of this number, counted from 1, isn't one of the times that `script` writes.
    Times(u64),
    /// The line of this number, counted from 1, stands for no bytes.
    Object(u64, Fault),
    /// At this byte of the input, counted from 0, and in this line, counted from 1, it is plain text no more, or one that is all seen.
    NotPlain(u64, u64, Found),
    /// The stream wasn't read or written to its end.
    Run(RunError),
}

impl From<RunError> for Failure {
    ghost from_gives = { λ error failure. failure ≡ Ran error };

    fn from(error: RunError) -> Failure {
        Failure::Run(error)
    }
}

impl From<AllocError> for Failure {
    ghost from_gives = { λ _ failure. failure ≡ Ran RunError.Memory };

    fn from(_: AllocError) -> Failure {
        Failure::Run(RunError::Memory)
    }
}

impl Failure {
    /// The status that the program ends with: 1 for input that is refused, 2 for a file, a read or a write that failed, 3
    /// where memory ran out, and 64 for a command line that is none (EX_USAGE of BSD's sysexits.h).
    pub fn status(&self) -> u8
        ensures { result ≡ status self.now }
    {
        match self {
            Failure::Open => 2,
            Failure::Packed(_)
            | Failure::Recording(_)
            | Failure::Times(_)
            | Failure::Object(_, _)
            | Failure::NotPlain(_, _, _) => 1,
            Failure::Run(error) => error.status(),
            _ => 64,
        }
    }

    /// Whether no other input can be worked on: nothing can be written, or memory ran out.
    pub fn ends_run(&self) -> bool
        ensures { result ≡ ends_run self.now }
    {
        matches!(self, Failure::Run(RunError::Write | RunError::Memory))
    }
}

/// One line, without its end.
impl fmt::Display for Failure {
    ghost output = { λ failure. Some (line failure) };

    fn fmt<W: fmt::Write>(&self, f: &mut fmt::Formatter<W>) -> fmt::Result {
        let text = match self {
            Failure::Usage => "csicodec: not a command",
            Failure::NotText => "csicodec: a word isn't UTF-8",
            Failure::UnknownOption => "csicodec: unknown option",
            Failure::Misplaced => "csicodec: an option of another command",
            Failure::Apart => "csicodec: options that don't go together",
            Failure::NoValue => "csicodec: a value is missing",
            Failure::NotValue => "csicodec: not a value",
            Failure::Open => "csicodec: the file can't be opened",
            Failure::Packed(packing) => return write!(f, "csicodec: {packing}"),
            Failure::Recording(line) => {
                return write!(
                    f,
                    "csicodec: line {line}: not an asciicast of version 2 or 3"
                );
            }
            Failure::Times(line) => return write!(f, "csicodec: line {line}: no time of script"),
            Failure::Object(line, fault) => return write!(f, "csicodec: line {line}: {fault}"),
            Failure::NotPlain(at, line, found) => {
                return write!(f, "csicodec: byte {at}, line {line}: {found}");
            }
            Failure::Run(error) => return write!(f, "csicodec: {error}"),
        };
        f.write_str(text)
    }
}
