//! Which texts are lists of attributes that may be joined.
ghost use Rattle.std.specs.{Prelude.◌≡◌, Prelude.◌≤◌, Prelude.List, Prelude.true, Prelude.false, Prelude.length, Prelude.map, Prelude.IfOk, List.list_any};
ghost use Rattle.csicodec_tokens.specs.Sequence.{Seq};
ghost use Rattle.csicodec_base.specs.declared.sgr.Sgr.{Sgr};
ghost use Rattle.csicodec_actions.specs.Actions.{Sgr as Style};
ghost use Rattle.csicodec_streams.specs.{Faithful.stays, Compose.EndsInSemicolon, Compose.IsStyleList};
ghost use Rattle.csicodec_parser.specs.Segments.{Actions};
ghost use Rattle.csicodec_compact.specs.Private.Steps.{IsListed, IsOwn, is_joined, is_other};

use crate::encode::NUMBERS;
use crate::form::TextEnding;
use csicodec_base::{CsiParam, ReadError, read_csi_into};
use csicodec_filter::stays;
use csicodec_parser::{CSI, parse_into};
use std::alloc::{AllocError, Global};

/// Whether a list is of numbers and `;`, at least one of them.
fn is_plain(params: &[CsiParam]) -> bool
    ensures { result ≡ true → IsStyleList params.now }
{
    for param in params {
        if !matches!(param, CsiParam::Integer(_) | CsiParam::P(b';')) {
            return false;
        }
    }
    !params.is_empty()
}

/// Whether a list ends in a number.
fn is_open(params: &[CsiParam]) -> bool
    ensures { result ≡ true → ¬ EndsInSemicolon params.now }
{
    matches!(params.split_last(), Some((CsiParam::Integer(_), _)))
}

/// Whether one of the actions is no attribute.
fn any_other(actions: &[CSI]) -> bool
    ensures { result ≡ list_any is_other actions.now }
{
    let mut rest = actions;
    while let [first, others @ ..] = rest {
        if !matches!(first, CSI::Sgr(_)) {
            return true;
        }
        rest = others;
    }
    false
}

/// The most bytes of a sequence to which others are joined.
const LONGEST: usize = 256;

/// How many numbers a list has.
pub(crate) fn numbers(text: &[u8]) -> u8
    ensures { 1 ≤ result }
{
    let mut marks = 0u8;
    for byte in text {
        if *byte == b';' {
            marks = marks.saturating_add(1);
        }
    }
    marks.saturating_add(1)
}

/// Reads texts of sequences, to see which are lists of attributes. Its buffers are kept from call to call.
#[derive(Drop)]
pub(crate) struct Lists {
    alloc: Global,
    params: Vec<CsiParam>,
    actions: Vec<CSI>,
}

impl Lists {
    /// With buffers that take no memory yet.
    pub(crate) fn new(alloc: Global) -> Lists {
        Lists {
            alloc,
            params: Vec::new(alloc),
            actions: Vec::new(alloc),
        }
    }

    /// Whether a text is one sequence of numbers with `;` between them before `m`. `params` is its list then.
    fn is_list(&mut self, text: &[u8]) -> Result<bool, AllocError>
        ensures { IfOk result
            (λ yes. yes ≡ true
            → Seq text.now self.new.params.items 109 × IsStyleList self.new.params.items) }
    {
        match read_csi_into(&mut self.params, text) {
            Ok(tail) => Ok(tail.control == 'm' && tail.rest.is_empty() && is_plain(&self.params)),
            Err(ReadError::Memory) => Err(AllocError),
            Err(_) => Ok(false),
        }
    }

    /// Whether a text is read as this list before `m`: at once where it is the bytes that the list came in.
    fn is_list_as(
        &mut self,
        text: &[u8],
        bytes: &[u8],
        params: &[CsiParam],
    ) -> Result<bool, AllocError>
        requires { Seq bytes.now params.now 109 }
        ensures { IfOk result
            (λ yes. yes ≡ true
            → Seq text.now self.new.params.items 109 × IsStyleList self.new.params.items) }
    {
        if text == bytes {
            self.params.clear();
            self.params.extend_from_slice(params)?;
            return Ok(is_plain(&self.params));
        }
        self.is_list(text)
    }

    /// Whether the list that was read is of known attributes, and ends in a number.
    fn is_unclosed(&mut self) -> Result<bool, AllocError>
        ensures unclosed { IfOk result
            (λ yes. yes ≡ true → ¬ EndsInSemicolon self.new.params.items) }
        ensures styles { IfOk result
            (λ yes. yes ≡ true
            → (styles : List Sgr) × Actions self.new.params.items false 109 (map Style styles)) }
        ensures params { self.new.params.items ≡ self.old.params.items }
    {
        if !is_open(&self.params) {
            return Ok(false);
        }
        self.actions.clear();
        parse_into(self.alloc, &self.params, false, 'm', &mut self.actions)?;
        Ok(!any_other(&self.actions))
    }

    /// Whether a text of a list that ends in `;0` is one of known attributes without that.
    fn is_blank(&mut self, text: &[u8]) -> Result<bool, AllocError>
        ensures { IfOk result (λ yes. yes ≡ true → IsListed TextEnding.Blank text.now) }
    {
        let Some(front) = text.strip_suffix(b";0m".as_slice()) else {
            return Ok(false);
        };
        let mut other = Vec::new(self.alloc);
        other.extend_from_slice(front)?;
        other.push(b'm')?;
        if !self.is_list(&other)? {
            return Ok(false);
        }
        self.is_unclosed()
    }

    /// The form of a text that is written for a sequence of these bytes, which has this list and this final.
    pub(crate) fn form(
        &mut self,
        text: &[u8],
        bytes: &[u8],
        params: &[CsiParam],
        control: char,
    ) -> Result<TextEnding, AllocError>
        requires { Seq bytes.now params.now control }
        ensures own { IfOk result (λ form. IsOwn form text.now) }
        ensures free { IfOk result
            (λ form. is_joined form ≡ true → stays params.now control ≡ false) }
        ensures few { IfOk result (λ form. is_joined form ≡ true → length text.now ≤ 256) }
    {
        if control != 'm' || stays(params, control) {
            return Ok(TextEnding::Whole);
        }
        if text.len() > LONGEST {
            return Ok(TextEnding::Whole);
        }
        if is_reset(text) {
            return Ok(TextEnding::Bare);
        }
        if usize::from(numbers(text)) > NUMBERS {
            return Ok(TextEnding::Whole);
        }
        if self.is_blank(text)? {
            return Ok(TextEnding::Blank);
        }
        if !self.is_list_as(text, bytes, params)? {
            return Ok(TextEnding::Whole);
        }
        if self.is_unclosed()? {
            return Ok(TextEnding::Open);
        }
        Ok(TextEnding::Last)
    }
}

/// Whether a text is a sequence with an empty list before `m`.
fn is_reset(text: &[u8]) -> bool
    ensures { result ≡ true → IsListed TextEnding.Bare text.now }
{
    text == b"\x1b[m".as_slice()
}
