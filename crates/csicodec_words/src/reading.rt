//! What a terminal makes of a control sequence: the words of its action, and where a terminal reads it otherwise than the codec, or the
//! codec has no action for it, the words of what terminals make of it.

use crate::actions::{ActionList, tell_action, tell_unknown};
use crate::keys::{key_by_number, key_of, tell_key};
use crate::out::Out;
use crate::rows::{number, words_of};
use crate::sequences::{words, words_instead};
use crate::sgr_words::ATTRIBUTES;
use crate::template::fill;
use csicodec_base::CsiParam;
use csicodec_parser::{CSI, Unspecified};
use csicodec_sequences::Parts;
use std::fmt::{self, Formatter, Write};

/// One action of a control sequence, as a terminal reads it. It prints as its words.
#[derive(Clone, Copy)]
pub struct Reading<'a> {
    /// The action.
    pub action: &'a CSI,
    /// Its list.
    pub list: &'a ActionList,
    /// The whole list of the sequence.
    pub params: &'a [CsiParam],
    /// Its final character.
    pub control: char,
    /// Whether it was sent to a program, so that a table of keys was asked whether it is one.
    pub sent: bool,
}

impl<'a> fmt::Display for Reading<'a> {
    fn fmt<W: Write>(&self, f: &mut Formatter<W>) -> fmt::Result {
        let mut out = Out::new(f);
        if let CSI::Unspecified(unknown) = self.action {
            if Parts::of(&unknown.params).marker == Parts::of(self.params).marker {
                unread(&mut out, unknown, self.sent);
            } else {
                tell_unknown(&mut out, unknown);
            }
        } else if let Some(words) = words_instead(self.params, self.control) {
            // The codec's table is termwiz's.
            fill(&mut out, words, self.params);
        } else {
            tell_action(&mut out, self.action, self.list);
            out.put(read_also(self.params, self.control).unwrap_or(""));
        }
        out.done
    }
}

/// Whether a list is a marker, numbers with semicolons and colons between them, and an intermediate byte, of which each may be left
/// out: the lists that terminals read (ECMA-48, 5.4.2; DEC's markers).
fn is_regular(params: &[CsiParam]) -> bool {
    for token in Parts::of(params).body {
        if !matches!(token, CsiParam::Integer(0..) | CsiParam::P(b';' | b':')) {
            return false;
        }
    }
    true
}

/// What terminals make of a list beside the action that the codec reads it as.
fn read_also(params: &[CsiParam], control: char) -> Option<&'static str> {
    let parts = Parts::of(params);
    match (parts.marker, parts.intermediate, control, params) {
        (0, 0, 't', [_, _, _, ..]) if number(params, 0) == Some(5) => {
            Some(" (or answer: the display's size in pixels)")
        }
        // Behind a `;` stands a 0 (ECMA-48, 5.4.2).
        (0, 0, 'm', [CsiParam::Integer(1..), CsiParam::P(b';')]) => Some(
            " (and then all attributes off)",
        ),
        _ => None,
    }
}

/// A sequence, or what is left of one, that no row of the codec's table reads: a key, or the words that a table has for its form. A list
/// with a byte where none may stand isn't read by terminals either.
fn unread<W: Write>(out: &mut Out<'_, W>, unknown: &Unspecified, sent: bool) {
    let (params, control) = (unknown.params.as_slice(), unknown.control);
    if !is_regular(params) {
        return tell_unknown(out, unknown);
    }
    if let Some(key) = key_of(params, control) {
        return tell_key(out, &key);
    }
    let words = match (control, params) {
        ('m', [CsiParam::Integer(number)]) => words_of(&ATTRIBUTES, *number),
        _ => match key_by_number(control, params) {
            Some(words) if !sent => Some(words),
            _ => words(params, control),
        },
    };
    match words {
        Some(words) => fill(out, words, params),
        None => tell_unknown(out, unknown),
    }
}
