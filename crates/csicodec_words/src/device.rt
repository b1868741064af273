//! What a terminal can do, and its graphics, in words.

use crate::action_words::EXTENSIONS;
use crate::out::Out;
use crate::rows::{number, words_of};
use csicodec_base::CsiParam;
use std::fmt::Write;

/// The extensions of a class (DA1), behind the marker and the class, each by its name, where the codec, DEC or xterm has one. Those of a class that
/// no action has are numbers alone.
pub(crate) fn extensions<W: Write>(out: &mut Out<'_, W>, params: &[CsiParam]) {
    let is_action = matches!(number(params, 0), Some(62..=64));
    let mut ahead = ", with ";
    for token in params.get(2..).unwrap_or(&[]) {
        let name = match token {
            CsiParam::Integer(number) => words_of(&EXTENSIONS, *number),
            CsiParam::P(byte) if !is_action || *byte == b';' => continue,
            CsiParam::P(_) => None,
        };
        out.put(ahead);
        match name {
            Some(name) => out.put(name),
            None => out.show(&format_args!("extension {token}")),
        }
        ahead = ", ";
    }
}

/// The values of graphics that are set or answered, behind a colon and with commas between them. To set none is an answer.
pub(crate) fn graphics_values<W: Write>(out: &mut Out<'_, W>, params: &[CsiParam]) {
    let values = params.get(5..).unwrap_or(&[]);
    match (number(params, 1).unwrap_or(1), values) {
        (3, []) => return out.put(" (or answer: failed)"),
        (0 | 3, _) => {}
        _ => return,
    }
    let mut ahead = ": ";
    for token in values {
        if let CsiParam::Integer(value) = token {
            out.put(ahead);
            out.put_number(*value);
            ahead = ", ";
        }
    }
}
