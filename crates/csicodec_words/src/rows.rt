//! Words in tables, behind what they are found by.

use csicodec_base::CsiParam;
use itoa::Buffer;

/// Rows, each a key, a tab and words, in the order of their bytes.
pub type Rows = &'static [&'static str];

/// The rows from the first one on that isn't ahead of a key.
pub(crate) fn rows_from(table: Rows, key: &[u8]) -> Rows {
    let at = table.partition_point(|row| row.as_bytes() < key);
    table.get(at..).unwrap_or(&[])
}

/// What is ahead of the first such character, all where there is none; and what is behind it, nothing where there is none.
pub(crate) fn cut(text: &str, at: char) -> (&str, &str) {
    text.split_once(at).unwrap_or((text, ""))
}

/// The words behind a key, where the table has it.
pub fn find(table: Rows, key: &[u8]) -> Option<&'static str> {
    let row = rows_from(table, key).first()?;
    match row.as_bytes().strip_prefix(key) {
        Some([b'\t', ..]) => row.get(key.len().saturating_add(1)..),
        _ => None,
    }
}

/// The words behind a number in decimal digits.
pub(crate) fn words_of(table: Rows, number: i64) -> Option<&'static str> {
    find(table, Buffer::new().format(number).as_bytes())
}

/// The number at a place of a list, counted from 0 by the semicolons ahead of it; behind a colon stand others, of the same place. None where
/// it is left out.
pub(crate) fn number(params: &[CsiParam], place: u32) -> Option<i64> {
    let mut at = 0u32;
    let mut is_behind = false;
    for token in params {
        match token {
            CsiParam::P(b';') => {
                at = at.saturating_add(1);
                is_behind = false;
            }
            CsiParam::P(b':') => is_behind = true,
            CsiParam::Integer(number) if at == place && !is_behind => return Some(*number),
            _ => {}
        }
    }
    None
}
