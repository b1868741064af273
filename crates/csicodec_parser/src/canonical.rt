//! Which attributes, and which unknown actions, are read back from their own texts.
ghost use Rattle.csicodec_tokens.specs.Sequence.{Apart, IsFinal, IsSpellable, Spellable};
ghost use Rattle.csicodec_parser.specs.{Canonical.IsCanonicalSgr, Canonical.IsCanonicalUnknown, Canonical.IsUncut, Canonical.IsUnknownIn};
ghost use Rattle.csicodec_parser.specs.{Groups.group as group_of_list, Segments.IsUnread, Common.IfOk, Common.IsTrue};
ghost use Rattle.std.specs.Prelude.{◌≡◌, ◌↔◌};

use crate::actions::{Unspecified, boxed_action, unboxed_action};
use crate::group::{Group, front};
use crate::parser::has_odd;
use crate::tokens::Tokens;
use csicodec_actions::is_spellable_token;
use csicodec_base::{CsiParam, Font, Sgr};
use std::alloc::{AllocError, Global};

/// Of the alternative fonts nine have a code.
pub(crate) fn is_canonical_sgr(sgr: &Sgr) -> bool
    ensures { IsTrue result ↔ IsCanonicalSgr sgr.now }
{
    match sgr {
        Sgr::Font(Font::Alternate(number)) => matches!(number, 1..=9),
        _ => true,
    }
}

/// Two numbers don't stand side by side.
fn is_apart(token: &CsiParam, others: &[CsiParam]) -> bool
    ensures { IsTrue result ↔ Apart token.now others.now }
{
    match token {
        CsiParam::Integer(_) => !matches!(others, [CsiParam::Integer(_), ..]),
        CsiParam::P(_) => true,
    }
}

/// A list that a sequence can have.
fn is_spellable(params: &[CsiParam]) -> bool
    ensures { IsTrue result ↔ Spellable params.now }
{
    let mut rest = params;
    while let [first, others @ ..] = rest {
        if !is_spellable_token(first) || !is_apart(first, others) {
            return false;
        }
        rest = others;
    }
    true
}

/// A final byte.
fn is_final(control: char) -> bool
    ensures { IsTrue result ↔ IsFinal control }
{
    matches!(control, '@'..='~')
}

/// No row reads the list.
fn is_unread(alloc: Global, params: &[CsiParam], control: char) -> Result<bool, AllocError>
    ensures { IfOk result (λ yes. IsTrue yes ↔ IsUnread params.now control) }
{
    if unboxed_action(params, control).is_some() {
        return Ok(false);
    }
    let boxed = boxed_action(alloc, params, control)?;
    Ok(boxed.is_none())
}

/// An odd byte is in the list, or no piece stands where the first should.
fn is_uncut(group: Group, params: &[CsiParam], control: char) -> bool
    requires { group ≡ group_of_list params.now control }
    ensures { IsTrue result ↔ IsUncut group params.now }
{
    let mut look = Tokens::new(params);
    if has_odd(group, &mut look) {
        return true;
    }
    let body = &params[group.start()..];
    front(group, body).is_none()
}

/// None of the rules of its group reads even the front of the list.
fn is_unknown(alloc: Global, params: &[CsiParam], control: char) -> Result<bool, AllocError>
    ensures { IfOk result (λ yes. IsTrue yes
        ↔ IsUnknownIn (group_of_list params.now control) params.now control) }
{
    match Group::of(params.first().copied(), control) {
        Group::Whole => is_unread(alloc, params, control),
        Group::Styles => Ok(!params.is_empty() && is_uncut(Group::Styles, params, control)),
        group => Ok(is_uncut(group, params, control)),
    }
}

pub(crate) fn is_canonical_unknown(
    alloc: Global,
    unknown: &Unspecified,
    parameters_truncated: bool,
) -> Result<bool, AllocError>
    ensures { IfOk result (λ yes. IsTrue yes
        ↔ IsCanonicalUnknown unknown.now.params.items unknown.now.parameters_truncated parameters_truncated unknown.now.control) }
{
    let is_written = unknown.parameters_truncated == parameters_truncated
        && is_final(unknown.control)
        && is_spellable(&unknown.params);
    if !is_written {
        return Ok(false);
    }
    is_unknown(alloc, &unknown.params, unknown.control)
}
