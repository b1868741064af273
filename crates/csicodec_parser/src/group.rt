//! Which rules a list falls under, and the pieces at its front.
ghost use Rattle.csicodec_parser.specs.{Common.List, Common.IfOk, Common.length, Common.take, Common.IfNone, Common.IfSome, Common.CsiParam, Common.Styles};
ghost use Rattle.csicodec_parser.specs.{ActionOf.action_of, Cut.IsStuck, Groups.Piece, Groups.group_by, Groups.marked, Groups.start, Private.Steps.found};
ghost use Rattle.csicodec_parser.specs.{Private.Steps.front, Private.Steps.is_odd_at, Private.Steps.number_at, Private.Steps.styled};
ghost use Rattle.std.specs.Prelude.{◌≡◌, ◌<◌, ◌≤◌, ◌++◌};

use crate::actions::CSI;
use csicodec_actions::{Change, DecPrivateMode, Switch, TerminalMode};
use csicodec_base::{CsiParam, Sgr, sgr_front};
use std::alloc::{AllocError, Global};

/// How a list is read.
#[derive(Clone, Copy)]
pub enum Group {
    /// Whole: one action for the list.
    Whole,
    /// In pieces, each an attribute of text.
    Styles,
    /// In pieces, each the number of a mode.
    Modes(Switch),
    /// After a `?` in pieces, each the number of a private mode.
    DecModes(Change),
}

impl Group {
    /// The group of a list with this first token, before this final character.
    pub fn of(first: Option<CsiParam>, control: char) -> Group
        ensures { result ≡ group_by first control }
    {
        if control == 'm' {
            return match first {
                Some(CsiParam::P(b'>' | b'<')) => Group::Whole,
                _ => Group::Styles,
            };
        }
        let private = matches!(first, Some(CsiParam::P(b'?')));
        match control {
            'h' if private => Group::DecModes(Change::Set),
            'l' if private => Group::DecModes(Change::Reset),
            's' if private => Group::DecModes(Change::Save),
            'r' if private => Group::DecModes(Change::Restore),
            'h' => Group::Modes(Switch::Set),
            'l' => Group::Modes(Switch::Reset),
            _ => Group::Whole,
        }
    }

    /// How many tokens stand before the pieces.
    pub fn start(self) -> usize
        ensures { result ≡ start self }
    {
        match self {
            Group::DecModes(_) => 1,
            Group::Whole | Group::Styles | Group::Modes(_) => 0,
        }
    }

    /// What stands before the pieces, in a list of its own. Where nothing does it takes no memory.
    pub(crate) fn front_tokens(self, alloc: Global) -> Result<Vec<CsiParam>, AllocError>
        ensures { IfOk result (λ tokens. (rest : List CsiParam)
            → tokens.items ++ rest ≡ marked self rest) }
    {
        let mut tokens = Vec::new(alloc);
        if let Group::DecModes(_) = self {
            tokens.push(CsiParam::P(b'?'))?;
        }
        Ok(tokens)
    }

    /// Whether a token is there, and is a byte that makes the whole list unknown.
    pub(crate) fn is_odd(self, token: Option<CsiParam>) -> bool
        ensures { result ≡ is_odd_at self token }
    {
        match token {
            Some(CsiParam::P(byte)) => match self {
                Group::Styles => !matches!(byte, b';' | b':' | b'?'),
                Group::Modes(_) => byte == b'?',
                Group::Whole | Group::DecModes(_) => false,
            },
            Some(CsiParam::Integer(_)) | None => false,
        }
    }

    /// The piece at the front of these tokens, and how many it takes. `None`: no piece stands there, as before a number that is no
    /// mode's, and anywhere in a list that is read whole.
    pub fn piece(self, rest: &[CsiParam]) -> Option<(CSI, usize)>
        ensures piece { IfSome result (λ f. Piece self rest.now f.1 (action_of f.0)) }
        ensures within { IfSome result (λ f. (0 < f.1) × (f.1 ≤ length rest.now)) }
        ensures none { IfNone result (IsStuck self rest.now) }
    {
        front(self, rest)
    }
}

/// The attribute at the front, and its number of tokens.
#[inline(always)]
pub(crate) fn style_front(rest: &[CsiParam]) -> Option<(Sgr, usize)>
    ensures answer { (list : List CsiParam) → take 13 list ≡ take 13 rest.now
        → styled result ≡ front Styles list }
    ensures within { IfSome result (λ f. (0 < f.1) × (f.1 ≤ length rest.now)) }
{
    sgr_front(rest)
}

/// The known piece at the front, and its number of tokens.
#[inline(always)]
#[tactic(auto, using(crate::proofs::Fronts::number_same))]
pub(crate) fn front(group: Group, rest: &[CsiParam]) -> Option<(CSI, usize)>
    ensures answer { (list : List CsiParam) → take 13 list ≡ take 13 rest.now
        → found result ≡ front group list }
    ensures within { IfSome result (λ f. (0 < f.1) × (f.1 ≤ length rest.now)) }
{
    match group {
        Group::Whole => None,
        Group::Styles => {
            let (sgr, len) = style_front(rest)?;
            Some((CSI::Sgr(sgr), len))
        }
        Group::Modes(switch) => {
            let mode = TerminalMode::at(number_at(rest)?)?;
            Some((CSI::Mode(switch.of(mode)), 1))
        }
        Group::DecModes(change) => {
            let mode = DecPrivateMode::at(number_at(rest)?)?;
            Some((CSI::Mode(change.of(mode)), 1))
        }
    }
}

/// The number at the front.
fn number_at(rest: &[CsiParam]) -> Option<i64>
    ensures is { result ≡ number_at rest.now }
    ensures some { IfSome result (λ _. 0 < length rest.now) }
{
    match rest {
        [CsiParam::Integer(number), ..] => Some(*number),
        _ => None,
    }
}
