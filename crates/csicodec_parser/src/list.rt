//! All actions of one parameter list, into a sink or a list. They are those of the parser, without an iterator between.
ghost use Rattle.csicodec_parser.specs.Common.{[], List, length, drop, None, Some, IfOk, IfSome, OnOk, Action, Unknown, Whole};
ghost use Rattle.csicodec_parser.specs.{ActionOf.action_of, Groups.group as group_of_list, Groups.marked, Segments.Actions, Private.Steps.actions};
ghost use Rattle.csicodec_parser.specs.{Private.Steps.front, Private.Steps.rest_action};
ghost use Rattle.std.specs.Prelude.{◌≡◌, ◌<◌, ◌≤◌, ◌+◌, ◌*◌, ◌∷◌, ◌++◌, map};

use crate::actions::{CSI, boxed_action};
use crate::group::Group;
use crate::look::Look;
use crate::parser::{End, LONGEST, group_of, has_odd, pass_piece, whole_list};
use crate::sink::Sink;
use crate::tokens::Tokens;
use csicodec_base::{CsiParam, Sgr};
use std::alloc::{AllocError, Global};

/// The actions of the list, in turn. Its looks are as few as those of a run: at most 128 × (length + 1).
#[inline(always)]
pub fn list_into<L: Look, S: Sink>(
    alloc: Global,
    look: &mut L,
    truncated: bool,
    control: char,
    sink: &mut S,
) -> Result<(), AllocError>
    requires { L.passed look.old ≡ 0 }
    ensures taken { OnOk result ((all : List Action)
        × Actions (L.tokens look.old) truncated control all
        × ((before : List Action) → S.holds sink.old before → S.holds sink.new (before ++ all))) }
    ensures list { L.tokens look.new ≡ L.tokens look.old }
    ensures counted { L.looks look.old ≤ L.looks look.new }
    ensures cheap { L.looks look.new ≤ L.looks look.old + 128 * (length (L.tokens look.old) + 1) }
{
    let end = End {
        alloc,
        truncated,
        control,
    };
    match group_of(look, control) {
        Group::Whole => match whole_list(look, control) {
            Some(action) => sink.take(action),
            None => rest_into(look, end, sink),
        },
        // attributes by an arm of their own, so that the loop is compiled for them alone
        Group::Styles => pieces_into(Group::Styles, look, end, sink),
        group => pieces_into(group, look, end, sink),
    }
}

/// The actions of one parameter list, into a sink.
#[inline(always)]
pub fn parse_into<S: Sink>(
    alloc: Global,
    params: &[CsiParam],
    parameters_truncated: bool,
    control: char,
    sink: &mut S,
) -> Result<(), AllocError>
    ensures { OnOk result ((before : List Action) → S.holds sink.old before →
        (all : List Action) × Actions params.now parameters_truncated control all
        × S.holds sink.new (before ++ all)) }
{
    let mut tokens = Tokens::new(params);
    list_into(alloc, &mut tokens, parameters_truncated, control, sink)
}

/// All actions of one parameter list before its final character.
///
/// ```text
/// let read = read_csi(alloc, b"\x1b[1;31m")?;
/// parse_all(alloc, &read.params, false, read.control)?     // Intensity(Bold), Foreground(PaletteIndex(1))
/// ```
pub fn parse_all(
    alloc: Global,
    params: &[CsiParam],
    parameters_truncated: bool,
    control: char,
) -> Result<Vec<CSI>, AllocError>
    ensures { IfOk result (λ all.
        Actions params.now parameters_truncated control (map action_of all.items)) }
{
    parse_all_over(
        alloc,
        &mut Tokens::new(params),
        parameters_truncated,
        control,
    )
}

/// All actions of any list of tokens of which none is passed yet, before its final character. The looks at
/// its tokens are counted: at most 128 × (length + 1).
pub fn parse_all_over<L: Look>(
    alloc: Global,
    look: &mut L,
    parameters_truncated: bool,
    control: char,
) -> Result<Vec<CSI>, AllocError>
    requires { L.passed look.old ≡ 0 }
    ensures all { IfOk result (λ all.
        Actions (L.tokens look.old) parameters_truncated control (map action_of all.items)) }
    ensures list { L.tokens look.new ≡ L.tokens look.old }
    ensures counted { L.looks look.old ≤ L.looks look.new }
    ensures cheap { L.looks look.new ≤ L.looks look.old + 128 * (length (L.tokens look.old) + 1) }
{
    let mut all = Vec::new(alloc);
    list_into(alloc, look, parameters_truncated, control, &mut all)?;
    Ok(all)
}

/// The action of a list that is read whole, where it takes memory: that of a row, or an unknown one.
#[cold]
#[inline(never)]
fn rest_into<L: Look, S: Sink>(look: &mut L, end: End, sink: &mut S) -> Result<(), AllocError>
    requires { L.passed look.old ≡ 0 }
    ensures taken { OnOk result ((before : List Action) → S.holds sink.old before
        → S.holds sink.new
        (before ++ rest_action Whole (L.tokens look.old) end.truncated end.control ∷ [])) }
    ensures list { L.tokens look.new ≡ L.tokens look.old }
    ensures counted { L.looks look.old ≤ L.looks look.new }
    ensures costs { L.looks look.new ≤ L.looks look.old + 8 * length (L.tokens look.old) }
{
    let len = look.len();
    let params = look.lend(0, len);
    match boxed_action(end.alloc, params, end.control)? {
        Some(action) => sink.take(action),
        None => sink.take_unknown(end.alloc, Group::Whole, params, end.truncated, end.control),
    }
}

/// The unknown action of what is unread of a list that is cut.
fn unread_into<L: Look, S: Sink>(
    group: Group,
    look: &mut L,
    end: End,
    sink: &mut S,
) -> Result<(), AllocError>
    ensures taken { OnOk result ((before : List Action) → S.holds sink.old before →
        S.holds sink.new (before ++ Unknown (marked group (drop (L.passed look.old) (L.tokens look.old))) end.truncated end.control ∷ [])) }
    ensures list { L.tokens look.new ≡ L.tokens look.old }
    ensures counted { L.looks look.old ≤ L.looks look.new }
    ensures costs { L.looks look.new + 8 * L.passed look.old
        ≤ L.looks look.old + 8 * length (L.tokens look.old) }
{
    let len = look.len();
    let rest = look.lend(0, len);
    sink.take_unknown(end.alloc, group, rest, end.truncated, end.control)
}

/// The actions of a list that is cut into pieces.
#[inline(always)]
fn pieces_into<L: Look, S: Sink>(
    group: Group,
    look: &mut L,
    end: End,
    sink: &mut S,
) -> Result<(), AllocError>
    requires passed { L.passed look.old ≡ 0 }
    requires group { group ≡ group_of_list (L.tokens look.old) end.control }
    requires cut { group ≡ Whole → ⊥ }
    ensures taken { OnOk result ((before : List Action) → S.holds sink.old before
        → S.holds sink.new (before ++ actions (L.tokens look.old) end.truncated end.control)) }
    ensures list { L.tokens look.new ≡ L.tokens look.old }
    ensures counted { L.looks look.old ≤ L.looks look.new }
    ensures costs { L.looks look.new ≤ L.looks look.old + 124 * length (L.tokens look.old) }
{
    if has_odd(group, look) {
        return unread_into(group, look, end, sink);
    }
    look.pass(group.start());
    if look.len() == 0 {
        return match group {
            Group::Styles => sink.take(CSI::Sgr(Sgr::Reset)),
            _ => unread_into(group, look, end, sink),
        };
    }
    'cut: while look.len() > 0 {
        let Some(len) = piece_into(group, look, sink)? else {
            return unread_into(group, look, end, sink);
        };
        pass_piece(look, len);
    }
    Ok(())
}

/// Takes the action of the piece at the front, and answers its number of tokens.
#[inline(always)]
fn piece_into<L: Look, S: Sink>(
    group: Group,
    look: &mut L,
    sink: &mut S,
) -> Result<Option<usize>, AllocError>
    ensures none { IfOk result (λ len. len ≡ None
        → (front group (drop (L.passed look.old) (L.tokens look.old)) ≡ None)
        × (sink.new ≡ sink.old)) }
    ensures some { IfOk result (λ o. IfSome o (λ len. (action : Action)
        × (front group (drop (L.passed look.old) (L.tokens look.old)) ≡ Some (action, len))
        × ((before : List Action) → S.holds sink.old before
        → S.holds sink.new (before ++ action ∷ [])))) }
    ensures short { IfOk result (λ o. IfSome o (λ len. (0 < len) × (len ≤ 13))) }
    ensures list { L.tokens look.new ≡ L.tokens look.old }
    ensures passes { L.passed look.new ≡ L.passed look.old }
    ensures counted { L.looks look.old ≤ L.looks look.new }
    ensures costs { L.looks look.new ≤ L.looks look.old + 105 }
{
    let Some(first) = look.get(0) else {
        return Ok(None);
    };
    if sink.take_first(group, first)? {
        return Ok(Some(1));
    }
    let width = look.len().min(LONGEST);
    sink.take_piece(group, look.lend(0, width))
}
