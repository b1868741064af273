//! What a user did: keys, the focus, and the mouse by its reports.

use crate::keys::tell_key;
use crate::out::Out;
use crate::template::fill;
use csicodec_base::CsiParam::{self, Integer, P};
use csicodec_events::{Event, InputEvent};
use csicodec_keys::{Key, read};
use std::fmt::{self, Formatter, Write};

/// What a user did, as a terminal sends it. It prints as its words: a name, two blanks, and what it was: `key  Ctrl-c`.
#[derive(Drop)]
pub enum Did {
    /// A key, and what else sends the same, which is empty where nothing does.
    Key(Key, &'static str),
    /// What these words say, with holes for the numbers of a list.
    Told(&'static str, [CsiParam; 5]),
}

/// The words of a report of the mouse in three characters.
const MOUSE: &str = "mouse  {0@t} line {1@p}, column {2@p}{0&, with |4=shift|8=alt|16=control}";

/// The number of the next character; 0 where there is none.
fn next(text: &mut std::str::Chars<'_>) -> i64 {
    i64::from(u32::from(text.next().unwrap_or('\0')))
}

/// A list of three numbers.
fn list_of(first: i64, second: i64, third: i64) -> [CsiParam; 5] {
    [
        Integer(first),
        P(b';'),
        Integer(second),
        P(b';'),
        Integer(third),
    ]
}

/// A report of the mouse: behind `ESC [ M` stand three characters, a byte each or in UTF-8 (xterm's ctlseqs, Mouse Tracking; mode 1005). They are
/// the button, the column and the line, each 32 and more than what it stands for.
fn report_of(bytes: &[u8]) -> [CsiParam; 5] {
    let characters = bytes.get(3..).unwrap_or(&[]);
    if let [button, column, line] = characters {
        return list_of((*button).into(), (*line).into(), (*column).into());
    }
    let mut text = std::str::from_utf8(characters).unwrap_or("").chars();
    let (button, column) = (next(&mut text), next(&mut text));
    list_of(button, next(&mut text), column)
}

/// What sends the same as the key that is read of an event, if something does. F3 with modifiers is also the cursor's place in line 1.
fn also(event: InputEvent, params: &[CsiParam]) -> &'static str {
    match event {
        InputEvent::Output(Event::Control(0x08)) => "Backspace",
        InputEvent::Output(Event::Control(b'\n')) => "Enter",
        InputEvent::Alt('\x08') => "Alt-Backspace",
        InputEvent::Alt('\n') => "Alt-Enter",
        InputEvent::Output(Event::Csi('R')) if !params.is_empty() => "CPR, the cursor's place",
        _ => "",
    }
}

impl Did {
    /// What an event of these bytes is, whose tokens are `params`; none where it says what it says in output too.
    pub fn of(event: InputEvent, bytes: &[u8], params: &[CsiParam]) -> Option<Did> {
        if let Some((_, key)) = read(event, params) {
            return Some(Did::Key(key, also(event, params)));
        }
        let (words, number) = match event {
            InputEvent::FocusGained => ("focus  gained", 0),
            InputEvent::Output(Event::Csi('O')) if params.is_empty() => ("focus  lost", 0),
            InputEvent::Output(_) | InputEvent::Escape => return None,
            InputEvent::Mouse => return Some(Did::Told(MOUSE, report_of(bytes))),
            InputEvent::Ss3(byte) => ("unknown  SS3 {0@a}", byte.into()),
            InputEvent::Linux(byte) => ("unknown  CSI [ {0@a}", byte.into()),
            InputEvent::Alt(character) => ("unknown  ESC {0@a}", u32::from(character).into()),
            InputEvent::Rxvt(number) => ("unknown  CSI {0}$", number.into()),
            InputEvent::Modified {
                number,
                control,
                ..
            } => {
                return Some(Did::Told(
                    "unknown  {0}{1@a} with modifiers",
                    list_of(number.into(), control.into(), 0),
                ));
            }
        };
        Some(Did::Told(words, list_of(number, 0, 0)))
    }

    /// What a control character is.
    pub fn of_control(byte: u8) -> Option<Did> {
        Did::of(InputEvent::Output(Event::Control(byte)), &[], &[])
    }
}

impl fmt::Display for Did {
    fn fmt<W: Write>(&self, f: &mut Formatter<W>) -> fmt::Result {
        let mut out = Out::new(f);
        match self {
            Did::Key(key, other) => {
                tell_key(&mut out, key);
                if !other.is_empty() {
                    out.put(" (or ");
                    out.put(other);
                    out.put(")");
                }
            }
            Did::Told(words, params) => fill(&mut out, words, params),
        }
        out.done
    }
}
