//! The form of a key in an encoding, and its bytes.
ghost use Rattle.std.specs.Prelude.{◌≡◌, ◌++◌, ◌∷◌, [], true, false, IfOk, MatchOption, encode_utf8};
ghost use Rattle.csicodec_tokens.specs.Param.{spells, token_text};
ghost use Rattle.csicodec_keys.specs.Forms.{alt_control, as_form, but_release, char_form, char_number, csi_form, form_bytes, form_of, kitty_char, legacy_form, other_form, other_number, row_form, rxvt_form, text_form, text_of, xterm_held};
ghost use Rattle.csicodec_keys.specs.{Fields.held_list, Fields.is_empty, Fields.text_list, Fields.written_list, Fields.number_list, Characters.is_alt, Keys.stroke_of};
ghost use Rattle.csicodec_keys.specs.{Win32.record_list};

use crate::code::KeyCode;
use crate::key::{Encoding, Key, KeyEvent};
use crate::reading::{csi_row, is_typed};
use crate::rows::Table;
use crate::tables::{Row, row_at, row_of};
use crate::win32::{Record, record_of};
use csicodec_tokens::CsiParam::{Integer, P};
use csicodec_tokens::{CsiParam, Text};
use std::alloc::AllocError;

/// How a key stands in a stream.
#[derive(Clone, Copy)]
pub(crate) enum KeySpelling {
    /// This character, or this control.
    Text(char),
    /// ESC and this character.
    Alt(char),
    /// SS3 and this character.
    Ss3(char),
    /// `CSI [` and this character.
    Linux(char),
    /// `CSI`, this number and `$`.
    Rxvt(u32),
    /// ESC alone.
    Escape,
    /// A control sequence of this number, these modifiers and this final character.
    Csi(u32, u8, char),
    /// `CSI 27`, these modifiers behind the number, and the number.
    Other(u32, u8),
    /// A record of Win32-input-mode.
    Win32(Record),
    /// A control sequence as [`Csi`](KeySpelling::Csi), with an event, and with what the key types.
    Typed(u32, u8, KeyEvent, char),
}

/// Whether a character behind ESC is a key with alt, whatever follows.
fn is_alt(character: char) -> bool
    ensures { result ≡ is_alt character }
{
    matches!(character, ' '..='N' | 'Q'..='W' | 'Y' | 'Z' | '\\' | '`'..='~')
}

/// How a row of a table stands in a stream, with nothing said beside it.
fn as_form(table: Table, row: Row) -> KeySpelling
    ensures { result ≡ as_form table row }
{
    match table {
        Table::Control => KeySpelling::Text(row.control),
        Table::Linux => KeySpelling::Linux(row.control),
        Table::Rxvt if row.control == '$' => KeySpelling::Rxvt(row.number),
        Table::Rxvt | Table::Csi => KeySpelling::Csi(row.number, 0, row.control),
        _ => KeySpelling::Ss3(row.control),
    }
}

/// The form of a key that has a row in this table, with what is held down.
fn row_form(table: Table, code: KeyCode, held: u8) -> Option<KeySpelling>
    ensures { result ≡ row_form table code held }
{
    Some(as_form(table, row_of(table.rows(), code, held)?))
}

/// A control behind ESC, where alt is held down too.
fn alt_control(code: KeyCode, held: u8) -> Option<KeySpelling>
    ensures { result ≡ alt_control code held }
{
    if held < 2 {
        return None;
    }
    let row = row_of(Table::Control.rows(), code, held - 2)?;
    Some(KeySpelling::Alt(row.control))
}

/// What a key of a character types.
fn text_of(character: char, held: u8, text: &[char]) -> Option<char>
    ensures { result ≡ text_of character held text.now }
{
    match text {
        [] => (held == 0).then_some(character),
        [only] => Some(*only),
        _ => None,
    }
}

fn text_form(character: Option<char>) -> Option<KeySpelling>
    ensures { result ≡ text_form character }
{
    let character = character?;
    is_typed(character).then_some(KeySpelling::Text(character))
}

/// The form of a key of a character, and of Escape.
fn char_form(code: KeyCode, held: u8, text: &[char]) -> Option<KeySpelling>
    ensures { result ≡ char_form code held text.now }
{
    match code {
        KeyCode::Char(character) if held < 2 => text_form(text_of(character, held, text)),
        KeyCode::Char(character) if held == 2 && is_alt(character) => {
            Some(KeySpelling::Alt(character))
        }
        KeyCode::Escape => (held == 0).then_some(KeySpelling::Escape),
        _ => None,
    }
}

/// A row whose modifiers are its own, or one with modifiers in its list.
fn csi_form(code: KeyCode, held: u8) -> Option<KeySpelling>
    ensures { result ≡ csi_form code held }
{
    if let Some(form) = row_form(Table::Csi, code, held) {
        return Some(form);
    }
    let row = row_of(Table::Csi.rows(), code, 0)?;
    Some(KeySpelling::Csi(row.number, held, row.control))
}

fn legacy_form(key: &Key, held: u8) -> Option<KeySpelling>
    ensures { result ≡ legacy_form (stroke_of key.now) held }
{
    let text = key.text.as_slice();
    row_form(Table::Control, key.code, held)
        .or(alt_control(key.code, held))
        .or(row_form(Table::Ss3, key.code, held))
        .or(char_form(key.code, held, text))
        .or(csi_form(key.code, held))
}

/// What xterm's encoding says of modifiers.
fn xterm_held(held: u8) -> Option<u8>
    ensures { result ≡ xterm_held held }
{
    (held % 64 < 8).then_some(held % 8)
}

/// A character that no row has, before `u`.
fn kitty_char(key: &Key) -> Option<KeySpelling>
    ensures { result ≡ kitty_char (stroke_of key.now) key.now.code }
{
    match key.code {
        KeyCode::Char(character) => {
            let number = character as u32;
            let is_free = is_typed(character) && csi_row(number, 'u').is_none();
            is_free.then_some(KeySpelling::Typed(number, key.modifiers.bits, key.event, 'u'))
        }
        _ => None,
    }
}

fn kitty_form(key: &Key) -> Option<KeySpelling>
    ensures { result ≡ form_of Encoding.Kitty (stroke_of key.now) }
{
    let held = key.modifiers.bits;
    if let Some(row) = row_of(Table::Kitty.rows(), key.code, 0) {
        return Some(KeySpelling::Typed(row.number, held, key.event, row.control));
    }
    if let Some(row) = row_of(Table::Csi.rows(), key.code, 0) {
        return Some(KeySpelling::Typed(row.number, held, key.event, row.control));
    }
    kitty_char(key)
}

fn char_number(code: KeyCode) -> Option<u32>
    ensures { result ≡ char_number code }
{
    match code {
        KeyCode::Char(character) => {
            let number = character as u32;
            let is_free = is_typed(character) && row_at(Table::Other.rows(), number, '~').is_none();
            is_free.then_some(number)
        }
        _ => None,
    }
}

/// The number of a key, or of its character.
fn other_number(code: KeyCode) -> Option<u32>
    ensures { result ≡ other_number code }
{
    match row_of(Table::Other.rows(), code, 0) {
        Some(row) => Some(row.number),
        None => char_number(code),
    }
}

fn other_form(code: KeyCode, held: u8) -> Option<KeySpelling>
    ensures { result ≡ other_form code held }
{
    if held == 0 {
        return None;
    }
    Some(KeySpelling::Other(other_number(code)?, held))
}

fn rxvt_form(code: KeyCode, held: u8) -> Option<KeySpelling>
    ensures { result ≡ rxvt_form code held }
{
    row_form(Table::Rxvt, code, held).or(row_form(Table::RxvtSs3, code, held))
}

/// Only kitty's encoding says that a key is released.
fn but_release(event: KeyEvent, form: Option<KeySpelling>) -> Option<KeySpelling>
    ensures { result ≡ but_release event form }
{
    if event.is_release() { None } else { form }
}

/// The form of a key in an encoding; none where it has none.
fn form_of(encoding: Encoding, key: &Key) -> Option<KeySpelling>
    ensures { result ≡ form_of encoding (stroke_of key.now) }
{
    let (code, event) = (key.code, key.event);
    let held = xterm_held(key.modifiers.bits);
    match encoding {
        Encoding::Legacy => but_release(event, legacy_form(key, held?)),
        Encoding::ModifyOtherKeys => but_release(event, other_form(code, held?)),
        Encoding::Kitty => kitty_form(key),
        Encoding::Win32 => Some(KeySpelling::Win32(record_of(key)?)),
        Encoding::Rxvt => but_release(event, rxvt_form(code, held?)),
        Encoding::Linux => but_release(event, row_form(Table::Linux, code, held?)),
    }
}

fn append_char(character: char, out: &mut Vec<u8>) -> Result<(), AllocError>
    ensures { IfOk result (λ _. out.new.items ≡ out.old.items ++ encode_utf8 character) }
{
    let mut bytes = [0u8; 4];
    out.extend_from_slice(character.encode_utf8(&mut bytes).as_bytes())
}

fn append_token(token: CsiParam, out: &mut Vec<u8>) -> Result<(), AllocError>
    ensures { IfOk result (λ _. out.new.items ≡ out.old.items ++ token_text token) }
{
    match token {
        Integer(number) => {
            let mut text = Text::new();
            text.push_i64(number);
            text.append_to(out)
        }
        P(byte) => append_char(char::from(byte), out),
    }
}

fn append_tokens(tokens: &[CsiParam], out: &mut Vec<u8>) -> Result<(), AllocError>
    ensures { IfOk result (λ _. out.new.items ≡ out.old.items ++ spells tokens.now) }
{
    for token in tokens {
        append_token(*token, out)?;
    }
    Ok(())
}

/// The number, but for a 1 that stands alone.
fn append_number(number: u32, plain: bool, out: &mut Vec<u8>) -> Result<(), AllocError>
    ensures { IfOk result (λ _. out.new.items
        ≡ out.old.items ++ spells (number_list number plain)) }
{
    if number == 1 && plain {
        return Ok(());
    }
    append_tokens(&[Integer(i64::from(number))], out)
}

/// The modifiers and the event.
fn append_held(held: u8, event: KeyEvent, bare: bool, out: &mut Vec<u8>) -> Result<(), AllocError>
    ensures { IfOk result (λ _. out.new.items
        ≡ out.old.items ++ spells (held_list held event bare)) }
{
    let modifiers = Integer(i64::from(held) + 1);
    match event {
        KeyEvent::Press => {
            if held > 0 {
                append_tokens(&[P(b';'), modifiers], out)
            } else if bare {
                Ok(())
            } else {
                append_tokens(&[P(b';')], out)
            }
        }
        KeyEvent::Repeat => append_tokens(&[P(b';'), modifiers, P(b':'), Integer(2)], out),
        KeyEvent::Release => append_tokens(&[P(b';'), modifiers, P(b':'), Integer(3)], out),
    }
}

/// Characters behind such a separator, and each further one behind a colon.
fn append_text(separator: u8, text: &[char], out: &mut Vec<u8>) -> Result<(), AllocError>
    ensures { IfOk result (λ _. out.new.items
        ≡ out.old.items ++ spells (text_list separator text.now)) }
{
    match text {
        [] => Ok(()),
        [first, others @ ..] => {
            append_tokens(&[P(separator), Integer(i64::from(*first as u32))], out)?;
            append_text(b':', others, out)
        }
    }
}

/// A control sequence of a key's list.
fn append_csi(
    number: u32,
    held: u8,
    event: KeyEvent,
    text: &[char],
    control: char,
    out: &mut Vec<u8>,
) -> Result<(), AllocError>
    ensures { IfOk result (λ _. out.new.items ≡ out.old.items
        ++ 27 ∷ 91 ∷ (spells (written_list number held event text.now) ++ encode_utf8 control)) }
{
    let plain = held == 0 && event.is_press() && text.is_empty();
    out.extend_from_slice(b"\x1b[")?;
    append_number(number, plain, out)?;
    append_held(held, event, text.is_empty(), out)?;
    append_text(b';', text, out)?;
    append_char(control, out)
}

/// The control sequence of a record.
fn append_record(told: Record, out: &mut Vec<u8>) -> Result<(), AllocError>
    ensures { IfOk result (λ _. out.new.items ≡ out.old.items
        ++ 27 ∷ 91 ∷ (spells (record_list told) ++ encode_utf8 95)) }
{
    let (vk, uc) = (i64::from(told.vk), i64::from(told.uc));
    let (kd, cs) = (i64::from(told.kd), i64::from(told.cs));
    let list = [
        Integer(vk),
        P(b';'),
        Integer(0),
        P(b';'),
        Integer(uc),
        P(b';'),
        Integer(kd),
        P(b';'),
        Integer(cs),
        P(b';'),
        Integer(1),
    ];
    out.extend_from_slice(b"\x1b[")?;
    append_tokens(&list, out)?;
    append_char('_', out)
}

impl KeySpelling {
    /// Appends its bytes; `text` is what the key types.
    fn append_to(self, text: &[char], out: &mut Vec<u8>) -> Result<(), AllocError>
        ensures { IfOk result (λ _. out.new.items ≡ out.old.items ++ form_bytes self text.now) }
    {
        match self {
            KeySpelling::Text(character) => append_char(character, out),
            KeySpelling::Alt(character) => {
                out.extend_from_slice(b"\x1b")?;
                append_char(character, out)
            }
            KeySpelling::Ss3(character) => {
                out.extend_from_slice(b"\x1bO")?;
                append_char(character, out)
            }
            KeySpelling::Linux(character) => {
                out.extend_from_slice(b"\x1b[[")?;
                append_char(character, out)
            }
            KeySpelling::Rxvt(number) => {
                out.extend_from_slice(b"\x1b[")?;
                append_tokens(&[Integer(i64::from(number)), P(b'$')], out)
            }
            KeySpelling::Escape => out.extend_from_slice(b"\x1b"),
            KeySpelling::Csi(number, held, control) => {
                append_csi(number, held, KeyEvent::Press, &[], control, out)
            }
            KeySpelling::Other(number, held) => {
                out.extend_from_slice(b"\x1b[")?;
                append_tokens(&[Integer(27)], out)?;
                append_held(held, KeyEvent::Press, false, out)?;
                append_tokens(&[P(b';'), Integer(i64::from(number))], out)?;
                append_char('~', out)
            }
            KeySpelling::Win32(told) => append_record(told, out),
            KeySpelling::Typed(number, held, event, control) => {
                append_csi(number, held, event, text, control, out)
            }
        }
    }
}

/// Appends a key in an encoding; `Ok(false)`, and nothing appended, where the encoding has no form for it. On `Err`, out of memory,
/// there may be a part of it.
///
/// ```text
/// write(Encoding::Legacy, &key, &mut out)?   // of Up with ctrl: "\x1b[1;5A"
/// write(Encoding::Kitty, &key, &mut out)?    // of 'a' released: "\x1b[97;1:3u"
/// ```
pub fn write(encoding: Encoding, key: &Key, out: &mut Vec<u8>) -> Result<bool, AllocError>
    ensures { IfOk result (λ done. MatchOption (form_of encoding (stroke_of key.now))
        ((done ≡ false) × (out.new.items ≡ out.old.items))
        (λ form. (done ≡ true)
        × (out.new.items ≡ out.old.items ++ form_bytes form key.now.text.items))) }
{
    match form_of(encoding, key) {
        None => Ok(false),
        Some(form) => {
            form.append_to(key.text.as_slice(), out)?;
            Ok(true)
        }
    }
}
