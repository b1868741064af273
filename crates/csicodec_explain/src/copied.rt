//! Words with the digits of a sequence, which are copied, where others are read and printed. Of a stream's sequences most places and true
//! colours are new, and others are the same few over and over.

use crate::Result;
use crate::digits::words_of;

/// The words of an action, with digits of its sequence: a line and a column, or the parts of a true colour.
#[derive(Clone, Copy)]
pub struct Copied<'a> {
    ahead: &'static str,
    first: &'a [u8],
    between: &'static str,
    second: &'a [u8],
    /// What stands behind these and a comma, if anything does.
    third: &'a [u8],
}

impl<'a> Copied<'a> {
    /// The words of the action in front of a list, and what is left of the list for further ones; none where the digits aren't copied.
    pub fn front(list: &'a [u8], control: u8) -> Option<(Copied<'a>, &'a [u8])> {
        let (ahead, between, list) = words_of(list, control)?;
        let (first, behind) = digits_front(list)?;
        let [b';', behind @ ..] = behind else {
            return None;
        };
        let (second, behind) = digits_front(behind)?;
        let (third, behind) = match (control, first, second, behind) {
            (b'm', _, _, [b';', parts @ ..]) if is_part(first) && is_part(second) => {
                blue_front(parts)?
            }
            // A 0 is told as 1.
            (b'm', _, _, _) | (_, [b'0'], _, _) | (_, _, [b'0'], _) | (_, _, _, [_, ..]) => {
                return None;
            }
            _ => ([].as_slice(), behind),
        };
        let words = Copied {
            ahead,
            first,
            between,
            second,
            third,
        };
        Some((words, behind))
    }

    /// Appends the words.
    pub fn append_to(self, out: &mut Vec<u8>) -> Result<()> {
        out.extend_from_slice(self.ahead.as_bytes())?;
        out.extend_from_slice(self.first)?;
        out.extend_from_slice(self.between.as_bytes())?;
        out.extend_from_slice(self.second)?;
        if !self.third.is_empty() {
            out.push(b',')?;
        }
        out.extend_from_slice(self.third)
    }
}

/// The digits in front of a list, four at most, where their number is printed with the same, and what is behind them.
fn digits_front(list: &[u8]) -> Option<(&[u8], &[u8])> {
    for len in 1..=4usize {
        if !matches!(list.get(len), Some(b'0'..=b'9')) {
            return match list {
                [b'1'..=b'9', ..] => list.split_at_checked(len),
                [b'0', ..] if len == 1 => list.split_at_checked(1),
                _ => None,
            };
        }
    }
    None
}

/// Whether a number is at most 255, by its digits.
fn is_part(digits: &[u8]) -> bool {
    match digits {
        [b'0'..=b'1', _, _] | [b'2', b'0'..=b'4', _] | [b'2', b'5', b'0'..=b'5'] => true,
        _ => digits.len() < 3,
    }
}

/// The blue in front of a list, and what is behind it, without a `;` between.
fn blue_front(list: &[u8]) -> Option<(&[u8], &[u8])> {
    let (blue, behind) = digits_front(list)?;
    match behind {
        _ if !is_part(blue) => None,
        [] => Some((blue, behind)),
        [b';', rest @ ..] if !rest.is_empty() => Some((blue, rest)),
        _ => None,
    }
}
