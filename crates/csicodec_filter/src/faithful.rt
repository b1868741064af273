//! Normal forms, but for what terminals are known to read otherwise.
ghost use Rattle.std.specs.{Prelude.◌≡◌, Prelude.◌||◌, List.list_any};
ghost use Rattle.csicodec_streams.specs.Faithful.{has_spelling, is_spelled, stays};

use crate::rewrite::Rewrite;
use csicodec_base::CsiParam;
use csicodec_parser::{CSI, Group, Sink, Texts, parse_into};
use csicodec_spans::LIMIT;
use std::alloc::{AllocError, Global};

/// Whether a sequence of this list and this final stays as it came in what is written for a terminal: terminals read it otherwise
/// than the codec does (docs/DIFFERENCES.md), or tell apart what the codec doesn't.
pub fn stays(params: &[CsiParam], control: char) -> bool
    ensures { result ≡ stays params.now control }
{
    matches!(params.first(), Some(CsiParam::P(b'<')))
        || matches!(params.last(), Some(CsiParam::P(b';')))
        || matches!(control, 'R' | 'r' | 's' | 't' | 'u' | 'x' | 'y')
}

/// Whether a token belongs to a style that has several spellings, of which a terminal may know the one that came alone.
fn is_spelled(token: &CsiParam) -> bool
    ensures { result ≡ is_spelled token.now }
{
    match token {
        CsiParam::Integer(number) => matches!(*number, 38 | 48 | 58),
        CsiParam::P(byte) => *byte == b':',
    }
}

/// Whether one of these stands in a list.
fn any_spelled(params: &[CsiParam]) -> bool
    ensures { result ≡ list_any is_spelled params.now }
{
    params.iter().any(is_spelled)
}

/// Whether a list sets such a style.
fn has_spelling(params: &[CsiParam], control: char) -> bool
    ensures { result ≡ has_spelling params.now control }
{
    control == 'm' && any_spelled(params)
}

/// Whether the sequence is written as it came, whatever its actions are.
fn is_kept(params: &[CsiParam], control: char) -> bool
    ensures { result ≡ stays params.now control || has_spelling params.now control }
{
    stays(params, control) || has_spelling(params, control)
}

/// The texts of the actions that went in, and whether one of these is unknown.
#[derive(Drop)]
struct Told {
    texts: Texts,
    unknown: bool,
}

impl Sink for Told {
    ghost use Rattle.csicodec_actions.specs.Table.{texts};
    ghost use Rattle.csicodec_terminal.specs.Terminal.{has_unknown};

    ghost holds = { λ t actions. (t.texts.bytes ≡ texts actions) × (t.unknown ≡ has_unknown actions) };

    #[inline(always)]
    fn take(&mut self, action: CSI) -> Result<(), AllocError> {
        if let CSI::Unspecified(_) = action {
            self.unknown = true;
        }
        self.texts.take(action)
    }

    #[inline(always)]
    fn take_first(&mut self, group: Group, first: CsiParam) -> Result<bool, AllocError> {
        self.texts.take_first(group, first)
    }

    #[inline(always)]
    fn take_piece(&mut self, group: Group, rest: &[CsiParam]) -> Result<Option<usize>, AllocError> {
        self.texts.take_piece(group, rest)
    }

    fn take_unknown(
        &mut self,
        alloc: Global,
        group: Group,
        rest: &[CsiParam],
        truncated: bool,
        control: char,
    ) -> Result<(), AllocError> {
        self.unknown = true;
        self.texts
            .take_unknown(alloc, group, rest, truncated, control)
    }
}

/// Each control sequence in its normal form, but for those that terminals read otherwise than the codec does (docs/DIFFERENCES.md),
/// for those of which the table of actions doesn't read all, which terminals may ignore or read more of, and for styles of which a
/// terminal may know the spelling that came alone: colours, and what has colons. These stay as they came, and so does a sequence whose
/// normal form has more than [`LIMIT`] bytes, since that could be too long to be read as sequences again.
///
/// ```text
/// filter_all(alloc, 65536, Faithful::new(alloc), &mut input, &mut output)?;
/// // reads "\x1b[01;4ma\x1b[38;5;9m\x1b[3r", and writes "\x1b[1m\x1b[4ma\x1b[38;5;9m\x1b[3r"
/// ```
#[derive(Drop)]
pub struct Faithful {
    alloc: Global,
    told: Told,
}

impl Faithful {
    /// With a buffer of its own, which is kept from sequence to sequence.
    pub fn new(alloc: Global) -> Faithful {
        let told = Told {
            texts: Texts::new(alloc),
            unknown: false,
        };
        Faithful { alloc, told }
    }
}

impl Rewrite for Faithful {
    ghost use Rattle.csicodec_streams.specs.Faithful.{IsFaithful};

    ghost writes = { λ _ bytes text. IsFaithful bytes text };

    fn rewrite(
        &mut self,
        bytes: &[u8],
        params: &[CsiParam],
        control: char,
        out: &mut Vec<u8>,
    ) -> Result<(), AllocError> {
        if is_kept(params, control) {
            return out.extend_from_slice(bytes);
        }
        self.told.texts.bytes.clear();
        self.told.unknown = false;
        parse_into(self.alloc, params, false, control, &mut self.told)?;
        let form = self.told.texts.bytes.as_slice();
        if self.told.unknown || form.len() > LIMIT {
            return out.extend_from_slice(bytes);
        }
        out.extend_from_slice(form)
    }
}
