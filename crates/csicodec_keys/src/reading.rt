//! The key of an event of input.
ghost use Rattle.std.specs.{Prelude.◌≡◌, Option.option_map};
ghost use Rattle.csicodec_keys.specs.Forms.{by, char_key, csi_row, held_by, is_rxvt, numbered, other_key, pressed, pressed_row, read_alt, read_char, read_csi, read_event, read_listed, read_modified, read_ss3, row_key, said_key, ss3_by, told_by, typing, with_alt};
ghost use Rattle.csicodec_keys.specs.{Characters.is_typed, Fields.is_empty, Fields.read_list, Fields.says_of, Keys.stroke_of, Win32.read_win32};

use crate::code::KeyCode;
use crate::fields::{KeyReport, read_list};
use crate::key::{Encoding, Key, KeyEvent, Typed};
use crate::rows::Table;
use crate::tables::{Row, row_at};
use crate::win32::read_win32;
use csicodec_events::{Event, InputEvent};
use csicodec_tokens::CsiParam;

/// Whether a character is typed as text: no control of C0 or C1, nor DEL.
pub(crate) fn is_typed(character: char) -> bool
    ensures { result ≡ is_typed character }
{
    !matches!(character, '\0'..='\x1f' | '\x7f'..='\u{9f}')
}

/// A press of a key that types nothing.
fn pressed(code: KeyCode, held: u8) -> Key
    ensures { stroke_of result ≡ pressed code held }
{
    Key::of(code, held, KeyEvent::Press, Typed::new())
}

/// A press of a key that types this character.
fn typing(character: char) -> Key
    ensures { stroke_of result ≡ typing character }
{
    let mut text = Typed::new();
    text.push(character);
    Key::of(KeyCode::Char(character), 0, KeyEvent::Press, text)
}

fn with_alt(held: u8) -> u8
    ensures { result ≡ with_alt held }
{
    if held < 128 { held + 2 } else { held }
}

/// The key of a character of text, or of a control; none for ESC, which is an event of its own, and for controls that no key sends.
///
/// ```text
/// read_char('a')       // Char('a'), which types "a"
/// read_char('\r')      // Enter
/// read_char('\x01')    // Char('a') with ctrl
/// ```
pub fn read_char(character: char) -> Option<Key>
    ensures { option_map stroke_of result ≡ read_char character }
{
    if is_typed(character) {
        return Some(typing(character));
    }
    alone(row_at(Table::Control.rows(), 0, character))
}

/// The key of a character behind ESC.
fn read_alt(character: char) -> Option<Key>
    ensures { option_map stroke_of result ≡ read_alt character }
{
    if is_typed(character) {
        return Some(pressed(KeyCode::Char(character), 2));
    }
    let row = row_at(Table::Control.rows(), 0, character)?;
    Some(pressed(row.code, with_alt(row.held)))
}

/// The key of a character behind SS3.
fn read_ss3(character: char) -> Option<Key>
    ensures { option_map stroke_of result ≡ read_ss3 character }
{
    let row = row_at(Table::Ss3.rows(), 0, character)
        .or(row_at(Table::Ss3Cursor.rows(), 0, character))
        .or(row_at(Table::RxvtSs3.rows(), 0, character));
    alone(row)
}

/// The row of a number and a final character.
pub(crate) fn csi_row(number: u32, control: char) -> Option<Row>
    ensures { result ≡ csi_row number control }
{
    row_at(Table::Kitty.rows(), number, control)
        .or(row_at(Table::Csi.rows(), number, control))
        .or(row_at(Table::Rxvt.rows(), number, control))
}

/// What is held down, by the form or by the list.
fn held_by(row: u8, list: u8) -> Option<u8>
    ensures { result ≡ held_by row list }
{
    match (row, list) {
        (0, _) => Some(list),
        (_, 0) => Some(row),
        _ => None,
    }
}

/// The key of a row, with what its list says.
fn row_key(fields: KeyReport, row: Row) -> Option<Key>
    ensures { option_map stroke_of result ≡ row_key (says_of fields) row }
{
    let held = held_by(row.held, fields.held)?;
    Some(Key::of(row.code, held, fields.event, fields.text))
}

/// A number that no row has is a character, before `u`.
fn char_key(fields: KeyReport, control: char) -> Option<Key>
    ensures { option_map stroke_of result ≡ char_key (says_of fields) control }
{
    let character = char::from_u32(fields.number)?;
    if control != 'u' || !is_typed(character) {
        return None;
    }
    let code = KeyCode::Char(character);
    Some(Key::of(code, fields.held, fields.event, fields.text))
}

/// The key of a list and its final character.
fn said_key(fields: KeyReport, control: char) -> Option<Key>
    ensures { option_map stroke_of result ≡ said_key (says_of fields) control }
{
    match csi_row(fields.number, control) {
        Some(row) => row_key(fields, row),
        None => char_key(fields, control),
    }
}

/// Whether only rxvt uses it for keys, behind CSI and SS3.
fn is_rxvt(control: char) -> bool
    ensures { result ≡ is_rxvt control }
{
    matches!(control, '@' | '^' | 'a'..='d')
}

/// Which encoding has such a character behind SS3.
fn ss3_by(character: char) -> Encoding
    ensures { result ≡ ss3_by character }
{
    if is_rxvt(character) {
        Encoding::Rxvt
    } else {
        Encoding::Legacy
    }
}

/// Which encoding has such a list.
fn told_by(fields: &KeyReport, control: char) -> Encoding
    ensures { result ≡ told_by (says_of fields.now) control }
{
    if is_rxvt(control) {
        Encoding::Rxvt
    } else if control == 'u' || !fields.event.is_press() || !fields.text.is_empty() {
        Encoding::Kitty
    } else {
        Encoding::Legacy
    }
}

/// The key of a number, of modifiers by 1 and more than their bits, and of a final character.
fn read_modified(number: u8, modifiers: u8, control: u8) -> Option<Key>
    ensures { option_map stroke_of result ≡ read_modified number modifiers control }
{
    let fields = KeyReport {
        number: u32::from(number),
        held: modifiers.saturating_sub(1),
        event: KeyEvent::Press,
        text: Typed::new(),
    };
    said_key(fields, char::from(control))
}

/// The key of a number.
fn numbered(character: char) -> Option<KeyCode>
    ensures { result ≡ numbered character }
{
    if let Some(row) = row_at(Table::Other.rows(), character as u32, '~') {
        return Some(row.code);
    }
    is_typed(character).then_some(KeyCode::Char(character))
}

/// 27 before `~`, and the number of a character in the place of a text (modifyOtherKeys).
fn other_key(fields: &KeyReport, control: char) -> Option<Key>
    ensures { option_map stroke_of result
        ≡ other_key (says_of fields.now) control (says_of fields.now).text }
{
    let [character] = fields.text.as_slice() else {
        return None;
    };
    if control != '~' || fields.number != 27 {
        return None;
    }
    let code = numbered(*character)?;
    Some(Key::of(code, fields.held, fields.event, Typed::new()))
}

/// The key of a list that begins with a number and modifiers.
fn read_listed(params: &[CsiParam], control: char) -> Option<(Encoding, Key)>
    ensures { option_map (λ r. (r.0, stroke_of r.1)) result ≡ read_listed params.now control }
{
    let fields = read_list(params)?;
    let other = other_key(&fields, control);
    let encoding = told_by(&fields, control);
    by(encoding, said_key(fields, control)).or(by(Encoding::ModifyOtherKeys, other))
}

/// The key of a control sequence.
fn read_csi(params: &[CsiParam], control: char) -> Option<(Encoding, Key)>
    ensures { option_map (λ r. (r.0, stroke_of r.1)) result ≡ read_csi params.now control }
{
    read_listed(params, control).or(by(Encoding::Win32, read_win32(params, control)))
}

fn by(encoding: Encoding, key: Option<Key>) -> Option<(Encoding, Key)>
    ensures { option_map (λ r. (r.0, stroke_of r.1)) result
        ≡ by encoding (option_map stroke_of key) }
{
    Some((encoding, key?))
}

/// The key of a row alone.
fn alone(row: Option<Row>) -> Option<Key>
    ensures { option_map stroke_of result ≡ option_map pressed_row row }
{
    let row = row?;
    Some(pressed(row.code, row.held))
}

/// The key of an event, and the encoding that it came in; `params` are the tokens of a control sequence. None where it is no key,
/// and for text: [`read_char`] gives the key of each of its characters.
///
/// Where two encodings have one form, as `CSI 1 ; 5 A`, it is xterm's; `CSI .. u` is kitty's.
///
/// ```text
/// read(Output(Csi('A')), 1 ; 5)              // Legacy, Up with ctrl
/// read(Output(Csi('u')), 97 ; 1 : 3)         // Kitty, Char('a'), released
/// read(Output(Csi('_')), 65;30;97;1;0;1)     // Win32, Char('a'), which types "a"
/// read(Ss3(b'P'), nothing)                   // Legacy, F(1)
/// read(Modified 1, 5, b'P', nothing)         // Legacy, F(1) with ctrl
/// read(Alt('x'), nothing)                    // Legacy, Char('x') with alt
/// ```
pub fn read(event: InputEvent, params: &[CsiParam]) -> Option<(Encoding, Key)>
    ensures { option_map (λ r. (r.0, stroke_of r.1)) result ≡ read_event event params.now }
{
    match event {
        InputEvent::Output(told) => match told {
            Event::Csi(control) => read_csi(params, control),
            Event::Control(byte) => by(Encoding::Legacy, read_char(char::from(byte))),
            Event::Text | Event::Esc | Event::Str | Event::Other => None,
        },
        InputEvent::Ss3(byte) => by(ss3_by(char::from(byte)), read_ss3(char::from(byte))),
        InputEvent::Modified {
            number,
            modifiers,
            control,
        } => by(Encoding::Legacy, read_modified(number, modifiers, control)),
        InputEvent::Linux(byte) => {
            let row = row_at(Table::Linux.rows(), 0, char::from(byte));
            by(Encoding::Linux, alone(row))
        }
        InputEvent::Rxvt(number) => {
            let row = row_at(Table::Rxvt.rows(), u32::from(number), '$');
            by(Encoding::Rxvt, alone(row))
        }
        InputEvent::Mouse | InputEvent::FocusGained => None,
        InputEvent::Alt(character) => by(Encoding::Legacy, read_alt(character)),
        InputEvent::Escape => by(Encoding::Legacy, Some(pressed(KeyCode::Escape, 0))),
    }
}
