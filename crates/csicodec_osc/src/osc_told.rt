//! Operating system commands (OSC) in words: those that are read, and words alone for others.

use crate::body::{Body, number, split_at, tell, while_in};
use crate::clipboard::clipboard;
use crate::colors::{dynamic, dynamic_reset, pairs, resets};
use crate::command::{EditorMark, Progress};
use crate::fields::OscFields;
use crate::osc::Osc;
use crate::osc_words::{
    ALONE, EDITOR_MARK_WORDS, FOLDER_WORDS, FRONTS, KITTY_NOTICE, MARK_WORDS, POINTER,
    PROGRESS_WORDS, TITLE_WORDS,
};
use crate::shown::Quoted;
use std::fmt;

/// The words of an OSC.
pub fn command<W: fmt::Write>(f: &mut fmt::Formatter<W>, body: Body<'_>) -> fmt::Result {
    let (digits, rest) = body.cut(b';');
    match number(digits) {
        Some(code) => {
            write!(f, "OSC {code}  ")?;
            numbered(f, code, body.with(without_zeros(body.bytes)), rest)
        }
        None => lettered(f, body),
    }
}

/// A number is the same with zeros ahead of it.
fn without_zeros(bytes: &[u8]) -> &[u8] {
    let (zeros, rest) = while_in(bytes, b'0', b'0');
    match rest {
        [b'0'..=b'9', ..] => rest,
        _ => bytes.get(zeros.len().saturating_sub(1)..).unwrap_or(bytes),
    }
}

/// What a command says, and what is behind its number.
fn numbered<W: fmt::Write>(
    f: &mut fmt::Formatter<W>,
    code: u32,
    body: Body<'_>,
    rest: Body<'_>,
) -> fmt::Result {
    let otherwise = match Osc::read(body.bytes) {
        Osc::Title(title, text) => {
            return tell(f, word(&TITLE_WORDS, title as usize), body.with(text));
        }
        Osc::Folder(folder, text) => {
            return plain(f, word(&FOLDER_WORDS, folder as usize), body.with(text));
        }
        Osc::Colors(palette, list) => return pairs(f, palette, list),
        Osc::Color(_, list) => return dynamic(f, code, list),
        Osc::ResetColors(palette, list) => return resets(f, palette, list),
        Osc::ResetColor(..) => return dynamic_reset(f, code),
        Osc::Link { params, address } => return link(f, params, body.with(address)),
        Osc::Clipboard { selection, content } => {
            return clipboard(f, selection, content, body.more);
        }
        Osc::Prompt(mark, list) => {
            return marked(f, word(&MARK_WORDS, mark as usize), list, body.more);
        }
        Osc::Editor(mark, list) => return edited(f, mark, list, body),
        Osc::Progress(progress, list) => return done(f, progress, list, rest),
        Osc::TitledNotice { title, text } => return noticed(f, title, body.with(text)),
        Osc::Notice([]) => return tell(f, "notification", rest),
        Osc::Pointer(_) => POINTER,
        Osc::KittyNotice { .. } => KITTY_NOTICE,
        Osc::Notice(_) => "notification",
        Osc::Unknown(_) => match body.behind(b"1337;File=") {
            Some(file) => return picture(f, file),
            None => "unknown",
        },
    };
    let (words, text) = alone(body, rest).unwrap_or((otherwise, rest));
    plain(f, words, text)
}

/// The words at a place.
fn word(words: &'static [&'static str], place: usize) -> &'static str {
    words.get(place).copied().unwrap_or("")
}

/// Words, and a text where there is one.
fn plain<W: fmt::Write>(f: &mut fmt::Formatter<W>, words: &str, text: Body<'_>) -> fmt::Result {
    if text.len() == 0 {
        f.write_str(words)
    } else {
        tell(f, words, text)
    }
}

/// The text of what has words alone and begins so. The last byte of a front says what stands behind it.
fn behind<'a>(body: Body<'a>, rest: Body<'a>, front: &[u8]) -> Option<Body<'a>> {
    let (form, front) = front.split_last()?;
    let text = body.behind(front)?;
    match (*form, text.bytes) {
        (b'#', _) => Some(rest),
        (b'*', _) | (b'.' | b'?' | b'=', []) => Some(text),
        (b';' | b'?', [b';', bytes @ ..]) | (b'=', [b'=', bytes @ ..]) => Some(text.with(bytes)),
        _ => None,
    }
}

/// The words and the text of what has words alone.
fn alone<'a>(body: Body<'a>, rest: Body<'a>) -> Option<(&'static str, Body<'a>)> {
    for (front, words) in FRONTS.iter().zip(&ALONE) {
        if let Some(text) = behind(body, rest, front.as_bytes()) {
            return Some((*words, text));
        }
    }
    None
}

/// A mark of a shell: behind the command's end stands its status.
fn marked<W: fmt::Write>(
    f: &mut fmt::Formatter<W>,
    words: &str,
    list: OscFields<'_>,
    more: u64,
) -> fmt::Result {
    let bytes = list.text.unwrap_or(&[]);
    let options = Body { bytes, more };
    let quoted = options.quoted();
    match number(bytes) {
        Some(status) => write!(f, "{words}, status {status}"),
        None if options.len() == 0 => f.write_str(words),
        None => write!(f, "{words}, {quoted}"),
    }
}

/// A mark of a shell for VS Code, of which two have a text.
fn edited<W: fmt::Write>(
    f: &mut fmt::Formatter<W>,
    mark: EditorMark,
    list: OscFields<'_>,
    body: Body<'_>,
) -> fmt::Result {
    let words = word(&EDITOR_MARK_WORDS, mark as usize);
    match mark {
        EditorMark::CommandText | EditorMark::Property => {
            tell(f, words, body.with(list.text.unwrap_or(&[])))
        }
        _ => marked(f, words, list, body.more),
    }
}

/// Progress, and how much is done.
fn done<W: fmt::Write>(
    f: &mut fmt::Formatter<W>,
    progress: Progress,
    list: OscFields<'_>,
    rest: Body<'_>,
) -> fmt::Result {
    let words = word(&PROGRESS_WORDS, progress as usize);
    match (progress, list.percent(), list.text) {
        (_, None, Some([_, ..])) => plain(f, "unknown", rest),
        (Progress::Shown, percent, _) => {
            let percent = percent.unwrap_or(0);
            write!(f, "{words}: {percent} %")
        }
        _ => f.write_str(words),
    }
}

/// A notification with a title of these bytes.
fn noticed<W: fmt::Write>(f: &mut fmt::Formatter<W>, bytes: &[u8], text: Body<'_>) -> fmt::Result {
    let title = Quoted { bytes, more: false };
    let text = text.quoted();
    write!(f, "notification: {title}, {text}")
}

/// A link, with its id; with no address it ends.
fn link<W: fmt::Write>(f: &mut fmt::Formatter<W>, params: &[u8], address: Body<'_>) -> fmt::Result {
    if address.len() == 0 {
        return f.write_str("end of the link");
    }
    let quoted = address.quoted();
    write!(f, "link to {quoted}")?;
    for param in params.split(|byte| *byte == b':') {
        if let Some(bytes) = param.strip_prefix(b"id=".as_slice()) {
            let id = Quoted { bytes, more: false };
            write!(f, ", id {id}")?;
        }
    }
    Ok(())
}

/// A picture or another file of iTerm2's: what is said of it, and how long it is.
fn picture<W: fmt::Write>(f: &mut fmt::Formatter<W>, file: Body<'_>) -> fmt::Result {
    let Some((bytes, content)) = split_at(file.bytes, b':') else {
        let quoted = file.quoted();
        return write!(f, "file {quoted}");
    };
    let len = file.with(content).len();
    let said = Quoted { bytes, more: false };
    write!(f, "file {said}, {len} bytes in base64")
}

/// Commands with a letter in the place of a number.
fn lettered<W: fmt::Write>(f: &mut fmt::Formatter<W>, body: Body<'_>) -> fmt::Result {
    match (body.bytes, alone(body, body)) {
        ([letter, ..], Some((words, text))) => {
            let letter = char::from(*letter);
            write!(f, "OSC {letter}  ")?;
            plain(f, words, text)
        }
        _ => tell(f, "OSC  unknown", body),
    }
}
