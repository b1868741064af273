//! A list that is cut, piece by piece: an unknown one is told alone, and the next goes on.
ghost use Rattle.std.specs.{Prelude.◌≡◌, Prelude.◌<◌, Prelude.◌≤◌, Prelude.[], Prelude.◌∷◌, Prelude.IfOk, Prelude.length, Prelude.map, List.list_any};
ghost use Rattle.csicodec_parser.specs.{ActionOf.action_of, Groups.marked, Groups.start, declared.group.Group.TheVariants.Whole};
ghost use Rattle.csicodec_actions.specs.Actions.{Unspecified as Unknown};
ghost use Rattle.csicodec_terminal.specs.Terminal.{CutAnew, Step, Steps, behind, belonging, is_foreign, up_to};

use crate::regular::{filled_list, is_semicolon};
use csicodec_base::CsiParam;
use csicodec_parser::{CSI, Group, Unspecified};
use std::alloc::{AllocError, Global};

/// What an unknown action says beside its tokens.
#[derive(Clone, Copy)]
pub(crate) struct End {
    pub(crate) alloc: Global,
    pub(crate) truncated: bool,
    pub(crate) control: char,
}

/// An unknown action of these tokens, with what stands before the pieces ahead of them.
pub(crate) fn unknown(group: Group, rest: &[CsiParam], end: End) -> Result<CSI, AllocError>
    ensures { IfOk result (λ csi.
        action_of csi ≡ Unknown (marked group rest.now) end.truncated end.control) }
{
    let mut params = Vec::new(end.alloc);
    if let Group::DecModes(_) = group {
        params.push(CsiParam::P(b'?'))?;
    }
    params.extend_from_slice(rest)?;
    let control = end.control;
    let unspecified = Unspecified {
        params,
        parameters_truncated: end.truncated,
        control,
    };
    CSI::from_unspecified(end.alloc, unspecified)
}

/// The unknown action of a whole list.
pub(crate) fn one_unknown(list: &[CsiParam], end: End) -> Result<Vec<CSI>, AllocError>
    ensures { IfOk result (λ v.
        map action_of v.items ≡ Unknown list.now end.truncated end.control ∷ []) }
{
    let action = unknown(Group::Whole, list, end)?;
    let mut all = Vec::new(end.alloc);
    all.push(action)?;
    Ok(all)
}

/// How many parameters belong to the code at the front.
fn belonging(rest: &[CsiParam]) -> usize
    ensures is { result ≡ belonging rest.now }
    ensures some { 0 < result }
{
    match rest {
        [
            CsiParam::Integer(38 | 48 | 58),
            CsiParam::P(b';'),
            CsiParam::Integer(kind),
            ..
        ] => match kind {
            2 => 5,
            5 => 3,
            0..=0x7fff_ffff_ffff_ffff => 2,
            _ => 1,
        },
        _ => 1,
    }
}

/// The tokens in front of so many `;`, or of the end.
fn up_to(count: usize, list: &[CsiParam]) -> usize
    requires { 0 < count }
    ensures is { result ≡ up_to count list.now }
    ensures within { result ≤ length list.now }
{
    let mut left = count;
    let mut passed = 0;
    let mut rest = list;
    while let [first, others @ ..] = rest {
        if is_semicolon(*first) {
            if left == 1 {
                return passed;
            }
            left -= 1;
        }
        passed += 1;
        rest = others;
    }
    passed
}

/// What is behind so many tokens, and behind the `;` directly after them.
fn behind(len: usize, rest: &[CsiParam]) -> &[CsiParam]
    requires { len ≤ length rest.now }
    ensures { result.now ≡ behind len rest.now }
{
    match &rest[len..] {
        [CsiParam::P(b';'), others @ ..] => others,
        others => others,
    }
}

/// The action at the front, and its number of tokens.
#[tactic(auto, using(crate::proofs::Unique::behind_piece, crate::proofs::Unique::behind_unknown))]
fn step(group: Group, rest: &[CsiParam], end: End) -> Result<(CSI, usize), AllocError>
    requires { 0 < length rest.now }
    ensures is { IfOk result (λ f.
        Step group end.truncated end.control rest.now f.1 (action_of f.0)) }
    ensures within { IfOk result (λ f. f.1 ≤ length rest.now) }
    ensures forward { IfOk result (λ f. length (behind f.1 rest.now) < length rest.now) }
{
    if let Some((action, len)) = group.piece(rest) {
        return Ok((action, len));
    }
    let len = up_to(belonging(rest), rest);
    Ok((unknown(group, &rest[..len], end)?, len))
}

/// The actions of what is cut of a list, in turn.
fn steps(group: Group, list: &[CsiParam], end: End) -> Result<Vec<CSI>, AllocError>
    ensures { IfOk result (λ v.
        Steps group end.truncated end.control list.now (map action_of v.items)) }
{
    let mut actions = Vec::new(end.alloc);
    let mut rest = list;
    while rest.len() > 0 {
        let (action, len) = step(group, rest, end)?;
        actions.push(action)?;
        rest = behind(len, rest);
    }
    Ok(actions)
}

/// Whether the token is a byte that stands in no such list.
fn is_foreign(group: Group, token: CsiParam) -> bool
    ensures { result ≡ is_foreign group token }
{
    match token {
        CsiParam::Integer(_) => false,
        CsiParam::P(byte) => match group {
            Group::Styles => !matches!(byte, b';' | b':'),
            _ => byte != b';',
        },
    }
}

/// Whether a byte stands in it that no such list has.
fn has_foreign(group: Group, list: &[CsiParam]) -> bool
    ensures { result ≡ list_any (is_foreign group) list.now }
{
    for token in list {
        if is_foreign(group, *token) {
            return true;
        }
    }
    false
}

/// The actions of a second look at a list that is cut.
pub(crate) fn cut_anew(group: Group, list: &[CsiParam], end: End) -> Result<Vec<CSI>, AllocError>
    requires { start group ≤ length list.now }
    ensures { IfOk result (λ v.
        CutAnew group list.now end.truncated end.control (map action_of v.items)) }
{
    let body = &list[group.start()..];
    if has_foreign(group, body) {
        return one_unknown(list, end);
    }
    let filled = filled_list(end.alloc, body)?;
    steps(group, &filled, end)
}
