//! Win32-input-mode: the record of a key, read and written.
ghost use Rattle.std.specs.{Prelude.◌≡◌, Prelude.◌≤◌, Option.option_map};
ghost use Rattle.csicodec_keys.specs.Win32.{behind_number, bit, char_record, control_unit, ctrl_unit, down_of, held_in, key_record, number_ahead, read_record, read_win32, record_of, state_of, typed_unit, unit_of, unit_text, went, win32_code, win32_key, win32_row};
ghost use Rattle.csicodec_keys.specs.Keys.{stroke_of};

use crate::code::KeyCode;
use crate::fields::number_of;
use crate::key::{Key, KeyEvent, Typed};
use crate::reading::is_typed;
use crate::rows::Table;
use crate::tables::{Row, row_at, row_of};
use csicodec_tokens::CsiParam;

/// A KEY_EVENT_RECORD, by the names that its fields have in the mode's document.
#[derive(Clone, Copy)]
pub(crate) struct Record {
    /// The virtual key.
    pub(crate) vk: u32,
    /// The unit of UTF-16 that it types.
    pub(crate) uc: u32,
    /// 0 where it goes up.
    pub(crate) kd: u32,
    /// The state of the modifiers.
    pub(crate) cs: u32,
}

/// What is behind a number.
fn behind_number(tokens: &[CsiParam]) -> Option<&[CsiParam]>
    ensures { option_map (λ rest. rest.now) result ≡ behind_number tokens.now }
{
    match tokens {
        [] => Some(tokens),
        [CsiParam::P(b';'), others @ ..] => Some(others),
        _ => None,
    }
}

/// The number in front, and what is behind its `;`.
fn number_ahead(tokens: &[CsiParam]) -> Option<(u32, &[CsiParam])>
    ensures { option_map (λ f. (f.0, f.1.now)) result ≡ number_ahead tokens.now }
{
    match tokens {
        [] => Some((0, tokens)),
        [CsiParam::P(b';'), others @ ..] => Some((0, others)),
        [CsiParam::P(_), ..] => None,
        [CsiParam::Integer(number), others @ ..] => {
            Some((number_of(*number)?, behind_number(others)?))
        }
    }
}

fn read_record(params: &[CsiParam]) -> Option<Record>
    ensures { result ≡ read_record params.now }
{
    let (vk, behind) = number_ahead(params)?;
    let (_, behind) = number_ahead(behind)?;
    let (uc, behind) = number_ahead(behind)?;
    let (kd, behind) = number_ahead(behind)?;
    let (cs, _) = number_ahead(behind)?;
    Some(Record { vk, uc, kd, cs })
}

fn bit(is: bool, value: u8) -> u8
    ensures value { result ≡ bit is value }
    ensures small { result ≤ value }
{
    if is { value } else { 0 }
}

/// The bits of the modifiers in a state.
fn held_in(cs: u32) -> u8
    ensures { result ≡ held_in cs }
{
    let shift = bit(cs / 16 % 2 == 1, 1);
    let alt = bit(cs % 4 != 0, 2);
    let ctrl = bit(cs / 4 % 4 != 0, 4);
    let caps = bit(cs / 128 % 2 == 1, 64);
    let num = bit(cs / 32 % 2 == 1, 128);
    shift + (alt + (ctrl + (caps + num)))
}

/// The character of a unit, if it is one that is typed.
fn typed_unit(uc: u32) -> Option<char>
    ensures { result ≡ typed_unit uc }
{
    let character = char::from_u32(uc)?;
    is_typed(character).then_some(character)
}

fn unit_text(character: Option<char>) -> Typed
    ensures { result.items ≡ unit_text character }
{
    let mut text = Typed::new();
    if let Some(character) = character {
        text.push(character);
    }
    text
}

/// The row of an enhanced key, or that of its virtual key alone.
fn win32_row(vk: u32, enhanced: bool) -> Option<Row>
    ensures { result ≡ win32_row vk enhanced }
{
    if vk >= 256 {
        return None;
    }
    let row = row_at(Table::Win32.rows(), vk, '_');
    if enhanced {
        row_at(Table::Win32.rows(), vk + 256, '_').or(row)
    } else {
        row
    }
}

/// A key that has no row is the one of its character.
fn win32_code(row: Option<Row>, character: Option<char>) -> Option<KeyCode>
    ensures { result ≡ win32_code row character }
{
    match row {
        Some(row) => Some(row.code),
        None => Some(KeyCode::Char(character?)),
    }
}

fn went(kd: u32) -> KeyEvent
    ensures { result ≡ went kd }
{
    if kd == 0 {
        KeyEvent::Release
    } else {
        KeyEvent::Press
    }
}

fn win32_key(told: Record) -> Option<Key>
    ensures { option_map stroke_of result ≡ win32_key told }
{
    let character = typed_unit(told.uc);
    let code = win32_code(win32_row(told.vk, told.cs / 256 % 2 == 1), character)?;
    let (held, event) = (held_in(told.cs), went(told.kd));
    Some(Key::of(code, held, event, unit_text(character)))
}

/// The key of a control sequence of Win32-input-mode.
pub(crate) fn read_win32(params: &[CsiParam], control: char) -> Option<Key>
    ensures { option_map stroke_of result ≡ read_win32 params.now control }
{
    if control == '_' {
        win32_key(read_record(params)?)
    } else {
        None
    }
}

/// The state of these modifiers, of the keys on the left.
fn state_of(held: u8) -> u32
    ensures { result ≡ state_of held }
{
    let held = u32::from(held);
    16 * (held % 2)
        + (2 * (held / 2 % 2)
            + (8 * (held / 4 % 2) + (128 * (held / 64 % 2) + 32 * (held / 128 % 2))))
}

/// Ctrl takes 96 off a small letter.
fn ctrl_unit(character: char, held: u8) -> u32
    ensures { result ≡ ctrl_unit character held }
{
    let number = character as u32;
    if held / 4 % 2 == 1 && 97 <= number && number <= 122 {
        number - 96
    } else {
        0
    }
}

/// The control that a key types.
fn control_unit(code: KeyCode, held: u8) -> u32
    ensures { result ≡ control_unit code held }
{
    match code {
        KeyCode::Enter | KeyCode::KeypadEnter => 13,
        KeyCode::Escape => 27,
        KeyCode::Tab => 9,
        KeyCode::Backspace => 8,
        KeyCode::Char(character) => ctrl_unit(character, held),
        _ => 0,
    }
}

/// What a key types, if it is at most one unit.
fn unit_of(code: KeyCode, held: u8, text: &[char]) -> Option<u32>
    ensures { result ≡ unit_of code held text.now }
{
    match text {
        [] => Some(control_unit(code, held)),
        [only] => {
            let number = *only as u32;
            (is_typed(*only) && number < 0x1_0000).then_some(number)
        }
        _ => None,
    }
}

/// A character that has no row is virtual key 0, where the key types it and nothing else.
fn char_record(code: KeyCode, kd: u32, cs: u32, text: &[char]) -> Option<Record>
    ensures { result ≡ char_record code kd cs text.now }
{
    match code {
        KeyCode::Char(character) => match text {
            [only] => {
                let uc = character as u32;
                let is_one = character == *only && is_typed(character) && uc < 0x1_0000;
                is_one.then_some(Record { vk: 0, uc, kd, cs })
            }
            _ => None,
        },
        _ => None,
    }
}

fn key_record(row: Option<Row>, key: &Key, kd: u32) -> Option<Record>
    ensures { result ≡ key_record row (stroke_of key.now) kd }
{
    let held = key.modifiers.bits;
    let text = key.text.as_slice();
    match row {
        Some(row) => {
            let uc = unit_of(key.code, held, text)?;
            let cs = state_of(held) + 256 * (row.number / 256 % 2);
            let vk = row.number % 256;
            Some(Record { vk, uc, kd, cs })
        }
        None => char_record(key.code, kd, state_of(held), text),
    }
}

fn down_of(event: KeyEvent) -> u32
    ensures { result ≡ down_of event }
{
    if event.is_release() { 0 } else { 1 }
}

/// The record of a key; none where super, hyper or meta is held down.
pub(crate) fn record_of(key: &Key) -> Option<Record>
    ensures { result ≡ record_of (stroke_of key.now) }
{
    if key.modifiers.bits / 8 % 8 == 0 {
        let row = row_of(Table::Win32.rows(), key.code, 0);
        key_record(row, key, down_of(key.event))
    } else {
        None
    }
}
