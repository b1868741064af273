//! Keys in words, as csicodec_keys reads them.

use crate::key_words::KEYS;
use crate::out::Out;
use bitflags::Flags;
use csicodec_base::CsiParam::{self, Integer, P};
use csicodec_events::{Event, InputEvent};
use csicodec_keys::{Encoding, Key, KeyCode, KeyEvent, read};
use csicodec_osc::{Shown, is_seen};
use std::fmt::Write;

/// The key that a list before this final character is in output too: of xterm's forms and kitty's, not of those that rxvt and Windows
/// have of their own.
pub fn key_of(params: &[CsiParam], control: char) -> Option<Key> {
    // Before a letter only with modifiers, since it is an action without them.
    match (control, params) {
        ('u' | '~', _) | (_, [Integer(1), P(b';'), Integer(_)]) => {}
        (_, [Integer(1), P(b';'), Integer(_), P(b':'), Integer(_)]) => {}
        _ => return None,
    }
    match read(InputEvent::Output(Event::Csi(control)), params)? {
        (Encoding::Rxvt | Encoding::Win32, _) => None,
        (_, key) => Some(key),
    }
}

/// A key by the number of its character, which is a control's, or no character's: no key that csicodec_keys knows (kitty; xterm's
/// modifyOtherKeys). Its words have holes for numbers.
pub fn key_by_number(control: char, params: &[CsiParam]) -> Option<&'static str> {
    Some(match (control, params) {
        ('~', [Integer(27), P(b';'), Integer(1..=256), P(b';'), Integer(_)]) =>
            "key  of character {2}, modifiers {1} (modifyOtherKeys)",
        ('u', [Integer(_)] | [Integer(_), P(b';')]) => { "key  of character {0}" }
        ('u', [Integer(_), P(b';'), Integer(1..=256)]) => "key  of character {0}, modifiers {1}",
        _ => return None,
    })
}

/// The modifiers, each by its bit, with a hyphen behind its name.
static HELD: [(u8, &str); 6] = [
    (4, "Ctrl-"),
    (2, "Alt-"),
    (1, "Shift-"),
    (8, "Super-"),
    (16, "Hyper-"),
    (32, "Meta-"),
];

/// A key: `key`, two blanks, what is held down, its name, the text that it gives, and whether it is repeated or released.
pub(crate) fn tell_key<W: Write>(out: &mut Out<'_, W>, key: &Key) {
    out.put("key  ");
    for (bit, name) in &HELD {
        if key.modifiers.bits() & *bit != 0 {
            out.put(name);
        }
    }
    tell_code(out, key.code);
    tell_text(out, key);
    out.put(match key.event {
        KeyEvent::Press => "",
        KeyEvent::Repeat => ", repeated",
        KeyEvent::Release => ", released",
    });
}

/// The name of a key, or the character that stands on it.
fn tell_code<W: Write>(out: &mut Out<'_, W>, code: KeyCode) {
    match code {
        KeyCode::F(number) => {
            out.put("F");
            out.put_number(number.into());
        }
        KeyCode::Char(' ') => out.put("Space"),
        KeyCode::Char(character) if is_seen(character) => out.show(&character),
        KeyCode::Char(character) => {
            out.put("of character ");
            out.put_number(u32::from(character).into());
        }
        _ => {
            let words = KEYS.get(usize::from(code.tag()).saturating_sub(2));
            out.put(words.copied().unwrap_or(""));
        }
    }
}

/// The text that a key gives, if it gives some, in quotation marks.
fn tell_text<W: Write>(out: &mut Out<'_, W>, key: &Key) {
    out.put(match (key.code, key.text.as_slice()) {
        (KeyCode::Text, _) => " \"",
        (_, []) => return,
        _ => ", text \"",
    });
    for character in key.text.as_slice() {
        out.show(&Shown(character.encode_utf8(&mut [0u8; 4]).as_bytes()));
    }
    out.put("\"");
}
