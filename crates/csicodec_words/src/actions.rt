//! The words of an action, found by the list that it prints.

use crate::action_words::ACTIONS;
use crate::out::Out;
use crate::rows::find;
use crate::sequences::ListKey;
use crate::sgr::tell_color;
use crate::sgr_words::{ATTRIBUTES, color_of};
use crate::template::fill;
use csicodec_actions::Cursor;
use csicodec_base::{CsiParam, OneBased, Sgr, Text, TextBuffer, read_csi_into};
use csicodec_parser::{CSI, Unspecified, append_text};
use std::alloc::{AllocError, Global};
use std::fmt::{self, Formatter, Write};

/// The list that an action prints, by which its words are found.
#[derive(Drop)]
pub struct ActionList {
    alloc: Global,
    text: TextBuffer,
    params: Vec<CsiParam>,
    control: char,
}

impl ActionList {
    /// Of no action.
    pub fn new(alloc: Global) -> ActionList {
        ActionList {
            alloc,
            text: TextBuffer::new(alloc),
            params: Vec::new(alloc),
            control: 'm',
        }
    }

    /// Takes that of this action. The words of an attribute need none.
    pub fn read(&mut self, action: &CSI) -> Result<(), AllocError> {
        match action {
            CSI::Sgr(_) | CSI::Unspecified(_) => Ok(()),
            CSI::Cursor(Cursor::SetLeftAndRightMargins { left, right }) => {
                self.take_margins(*left, *right)
            }
            _ => self.take_text(action),
        }
    }

    /// Takes both margins, without which `s` would be SCOSC.
    fn take_margins(&mut self, left: OneBased, right: OneBased) -> Result<(), AllocError> {
        self.control = 's';
        self.params.clear();
        let left = CsiParam::Integer(left.as_one_based().into());
        let right = CsiParam::Integer(right.as_one_based().into());
        self.params
            .extend_from_slice(&[left, CsiParam::P(b';'), right])
    }

    fn take_text(&mut self, action: &CSI) -> Result<(), AllocError> {
        self.text.clear();
        append_text(self.alloc, &mut self.text, action)?;
        match read_csi_into(&mut self.params, self.text.as_slice()) {
            Ok(tail) => self.control = tail.control,
            Err(_) => return Err(AllocError),
        }
        Ok(())
    }
}

/// An action. It prints as the name that ECMA-48, DEC, xterm or kitty gave, two blanks, and what it does: `CUP  cursor to line 5, column 7`.
/// The words are one line, without its end.
#[derive(Clone, Copy)]
pub struct ActionWords<'a> {
    /// The action.
    pub action: &'a CSI,
    /// Its list.
    pub list: &'a ActionList,
}

impl<'a> fmt::Display for ActionWords<'a> {
    fn fmt<W: Write>(&self, f: &mut Formatter<W>) -> fmt::Result {
        let mut out = Out::new(f);
        tell_action(&mut out, self.action, self.list);
        out.done
    }
}

/// An action of this list.
pub(crate) fn tell_action<W: Write>(out: &mut Out<'_, W>, action: &CSI, list: &ActionList) {
    match action {
        CSI::Sgr(attribute) => tell_attribute(out, attribute),
        CSI::Unspecified(unknown) => tell_unknown(out, unknown),
        _ => {
            let params = list.params.as_slice();
            let key = ListKey::new(params, list.control, params.len() as i64);
            let words = match key.words(&ACTIONS) {
                Some(words) => words,
                None => key.without_intermediate().words(&ACTIONS).unwrap_or(""),
            };
            fill(out, words, params);
        }
    }
}

/// An attribute by its colour, or by the text that sets it.
fn tell_attribute<W: Write>(out: &mut Out<'_, W>, attribute: &Sgr) {
    if let Some((ahead, color)) = color_of(attribute) {
        out.put(ahead);
        return tell_color(out, color);
    }
    let mut text = Text::new();
    attribute.write_to(&mut text);
    let key = text.as_str().strip_suffix('m').unwrap_or("");
    out.put(find(&ATTRIBUTES, key.as_bytes()).unwrap_or(""));
}

/// What no table has a name for is told by its tokens, with SP for a blank, as the standards write it.
pub(crate) fn tell_unknown<W: Write>(out: &mut Out<'_, W>, unknown: &Unspecified) {
    out.put("unknown  CSI ");
    for token in &unknown.params {
        match token {
            CsiParam::P(b' ') => out.put(" SP "),
            _ => out.show(token),
        }
    }
    out.show(&unknown.control);
}
