//! The actions of a list as terminals take it.
ghost use Rattle.std.specs.Prelude.{◌≡◌, IfOk, OnOk, map};
ghost use Rattle.csicodec_parser.specs.{ActionOf.action_of, Groups.group as group_of_list, Segments.Actions, declared.group.Group.TheVariants.Whole};
ghost use Rattle.csicodec_terminal.specs.Terminal.{Anew, Terminal, has_unknown, is_open};

use crate::cut::{End, cut_anew, one_unknown};
use crate::regular::regular_list;
use csicodec_base::CsiParam;
use csicodec_parser::{CSI, Group, parse_all, parse_into};
use std::alloc::{AllocError, Global};

/// Whether one of them is what none of the rules reads.
fn has_unknown(actions: &[CSI]) -> bool
    ensures { result ≡ has_unknown (map action_of actions.now) }
{
    let mut rest = actions;
    while let [first, others @ ..] = rest {
        if let CSI::Unspecified(_) = first {
            return true;
        }
        rest = others;
    }
    false
}

/// Whether a list of attributes leaves its last parameter out.
fn is_open(group: Group, list: &[CsiParam]) -> bool
    ensures { result ≡ is_open group list.now }
{
    match group {
        Group::Styles => matches!(list.last(), Some(CsiParam::P(b';'))),
        _ => false,
    }
}

/// What the table reads of the regular list, or the unknown action of this one.
fn whole_anew(list: &[CsiParam], end: End) -> Result<Vec<CSI>, AllocError>
    ensures { IfOk result (λ v.
        Anew Whole list.now end.truncated end.control (map action_of v.items)) }
{
    let regular = regular_list(end.alloc, list, end.control)?;
    let second = parse_all(end.alloc, &regular, end.truncated, end.control)?;
    if has_unknown(&second) {
        return one_unknown(list, end);
    }
    Ok(second)
}

/// The actions of a second look.
fn anew(group: Group, list: &[CsiParam], end: End) -> Result<Vec<CSI>, AllocError>
    requires { group ≡ group_of_list list.now end.control }
    ensures { IfOk result (λ v.
        Anew group list.now end.truncated end.control (map action_of v.items)) }
{
    match group {
        Group::Whole => whole_anew(list, end),
        Group::Styles => cut_anew(Group::Styles, list, end),
        Group::Modes(switch) => cut_anew(Group::Modes(switch), list, end),
        Group::DecModes(change) => cut_anew(Group::DecModes(change), list, end),
    }
}

/// What the table reads of the list, in place of what there is.
fn first_into(list: &[CsiParam], end: End, actions: &mut Vec<CSI>) -> Result<(), AllocError>
    ensures { OnOk result
        (Actions list.now end.truncated end.control (map action_of actions.new.items)) }
{
    actions.clear();
    parse_into(end.alloc, list, end.truncated, end.control, actions)?;
    Ok(())
}

/// The actions of a parameter list as terminals take it. They are those of [`CSI::parse`](csicodec_parser::CSI::parse) where it reads
/// all of the list. Where it reads nothing or less, a parameter that is left out is 0, which stands for the default
/// (ECMA-48, 5.4.2). Of what moves the cursor or edits, parameters that its function doesn't have are passed over, and a number from
/// 2^32 on is 4294967295. Before `m` an unknown code is an `Unspecified` of its own, with the parts of a colour behind 38, 48 and 58
/// (xterm, ctlseqs), and the next code goes on. Modes are looked at whole: with another byte than `;` none of them is set.
/// `Err` is out of memory.
///
/// ```text
/// terminal_actions(alloc, &[0 ; 98 ; 31], false, 'm')?       // Reset, Unspecified of 98, Foreground(Maroon)
/// terminal_actions(alloc, &[; 5], false, 'H')?               // Position { line: 1, col: 5 }
/// terminal_actions(alloc, &[1 ; 24 ;], false, 'r')?          // SetTopAndBottomMargins { top: 1, bottom: 24 }
/// ```
pub fn terminal_actions(
    alloc: Global,
    params: &[CsiParam],
    parameters_truncated: bool,
    control: char,
) -> Result<Vec<CSI>, AllocError>
    ensures { IfOk result (λ v.
        Terminal params.now parameters_truncated control (map action_of v.items)) }
{
    let mut actions = Vec::new(alloc);
    terminal_actions_into(alloc, params, parameters_truncated, control, &mut actions)?;
    Ok(actions)
}

/// The same, in place of what a list has that the caller keeps.
pub fn terminal_actions_into(
    alloc: Global,
    params: &[CsiParam],
    parameters_truncated: bool,
    control: char,
    actions: &mut Vec<CSI>,
) -> Result<(), AllocError>
    ensures { OnOk result
        (Terminal params.now parameters_truncated control (map action_of actions.new.items)) }
{
    let end = End {
        alloc,
        truncated: parameters_truncated,
        control,
    };
    first_into(params, end, actions)?;
    let group = Group::of(params.first().copied(), control);
    if !has_unknown(actions) && !is_open(group, params) {
        return Ok(());
    }
    *actions = anew(group, params, end)?;
    Ok(())
}
