//! The list of a key before its final character, read and written.
ghost use Rattle.std.specs.{Prelude.◌≡◌, Option.option_map};
ghost use Rattle.csicodec_keys.specs.Fields.{behind_held, char_of, characters, event_of, from_separator, held_front, held_of, number_front, number_of, read_list, says_of, text_front, with_char};

use crate::key::{KeyEvent, Typed};
use csicodec_tokens::CsiParam;

/// What a list says.
#[derive(Drop)]
pub(crate) struct KeyReport {
    /// The number of the key.
    pub(crate) number: u32,
    /// The bits of the modifiers.
    pub(crate) held: u8,
    /// What happens to the key.
    pub(crate) event: KeyEvent,
    /// What it types.
    pub(crate) text: Typed,
}

pub(crate) fn number_of(number: i64) -> Option<u32>
    ensures { result ≡ number_of number }
{
    u32::try_from(number).ok()
}

fn held_of(number: i64) -> Option<u8>
    ensures { result ≡ held_of number }
{
    if number < 1 || number > 256 {
        return None;
    }
    Some((number - 1) as u8)
}

fn event_of(number: i64) -> Option<KeyEvent>
    ensures { result ≡ event_of number }
{
    match number {
        1 => Some(KeyEvent::Press),
        2 => Some(KeyEvent::Repeat),
        3 => Some(KeyEvent::Release),
        _ => None,
    }
}

fn char_of(number: i64) -> Option<char>
    ensures { result ≡ char_of number }
{
    char::from_u32(number_of(number)?)
}

/// What begins with the `;` behind a number and those behind its colons.
fn from_separator(tokens: &[CsiParam]) -> Option<&[CsiParam]>
    ensures { option_map (λ rest. rest.now) result ≡ from_separator tokens.now }
{
    let mut rest = tokens;
    while let [token, others @ ..] = rest {
        match token {
            CsiParam::P(b';') => return Some(rest),
            CsiParam::P(b':') | CsiParam::Integer(_) => rest = others,
            CsiParam::P(_) => return None,
        }
    }
    Some(rest)
}

/// The number, and what is behind it and its alternatives.
fn number_front(tokens: &[CsiParam]) -> Option<(u32, &[CsiParam])>
    ensures { option_map (λ f. (f.0, f.1.now)) result ≡ number_front tokens.now }
{
    match tokens {
        [] => Some((1, tokens)),
        [CsiParam::P(_), ..] => None,
        [CsiParam::Integer(number), others @ ..] => {
            Some((number_of(*number)?, from_separator(others)?))
        }
    }
}

/// Behind the modifiers.
fn behind_held(held: u8, tokens: &[CsiParam]) -> Option<(u8, KeyEvent, &[CsiParam])>
    ensures { option_map (λ f. (f.0, f.1, f.2.now)) result ≡ behind_held held tokens.now }
{
    match tokens {
        [CsiParam::P(b':'), CsiParam::Integer(number), others @ ..] => {
            Some((held, event_of(*number)?, others))
        }
        [CsiParam::P(b':') | CsiParam::Integer(_), ..] => None,
        _ => Some((held, KeyEvent::Press, tokens)),
    }
}

/// The modifiers, the event, and what is behind them.
fn held_front(tokens: &[CsiParam]) -> Option<(u8, KeyEvent, &[CsiParam])>
    ensures { option_map (λ f. (f.0, f.1, f.2.now)) result ≡ held_front tokens.now }
{
    match tokens {
        [] => Some((0, KeyEvent::Press, tokens)),
        [CsiParam::P(b';'), CsiParam::Integer(held), others @ ..] => {
            behind_held(held_of(*held)?, others)
        }
        [CsiParam::P(b';'), others @ ..] => Some((0, KeyEvent::Press, others)),
        _ => None,
    }
}

/// The text and one more character, where there is room.
#[tactic(auto, unfolding(crate::specs::Fields::with_char))]
fn with_char(text: Typed, number: i64) -> Option<Typed>
    ensures { option_map (λ t. t.items) result ≡ with_char text.items number }
{
    let mut text = text;
    if text.is_full() {
        return None;
    }
    text.push(char_of(number)?);
    Some(text)
}

/// The characters of a text, behind these.
fn characters(text: Typed, tokens: &[CsiParam]) -> Option<Typed>
    ensures { option_map (λ t. t.items) result ≡ characters text.items tokens.now }
{
    let mut all = text;
    let mut rest = tokens;
    while let [token, others @ ..] = rest {
        match token {
            CsiParam::Integer(number) => all = with_char(all, *number)?,
            CsiParam::P(b':') => {}
            CsiParam::P(_) => return None,
        }
        rest = others;
    }
    Some(all)
}

/// The text, and nothing behind it.
fn text_front(tokens: &[CsiParam]) -> Option<Typed>
    ensures { option_map (λ t. t.items) result ≡ text_front tokens.now }
{
    match tokens {
        [] => Some(Typed::new()),
        [CsiParam::P(b';'), others @ ..] => characters(Typed::new(), others),
        _ => None,
    }
}

/// What a list says.
pub(crate) fn read_list(params: &[CsiParam]) -> Option<KeyReport>
    ensures { option_map says_of result ≡ read_list params.now }
{
    let (number, behind) = number_front(params)?;
    let (held, event, behind) = held_front(behind)?;
    let text = text_front(behind)?;
    Some(KeyReport {
        number,
        held,
        event,
        text,
    })
}
