//! The actions of a list as structs, and their tokens, put into room that a caller lends: as many as there is room for.
ghost use Rattle.std.specs.Prelude.{◌≡◌, false, List, [], ◌++◌, ◌∷◌, length, unwrap_or, Some, IfSome};
ghost use Rattle.csicodec_actions.specs.{Actions.Action, Actions.Unspecified as Unknown, Devices.device_of, Table.boxed};
ghost use Rattle.csicodec_parser.specs.{ActionOf.action_of, Segments.Actions};
ghost use Rattle.csicodec_structs.specs.{Private.Steps.LaysBy, Private.Steps.LaysOne, Private.Steps.PutsBehind, Private.Steps.headed, Private.Steps.lent};
ghost use Rattle.csicodec_structs.specs.{Rows.device_params, Rows.params_of, Rows.struct_of, declared.structs.Param.Param};
ghost use Rattle.csicodec_tokens.specs.declared.param.CsiParam.{CsiParam};

use crate::room::put;
use crate::rows::{VT220, VT320, VT420, XT_SM_GRAPHICS, device_struct, struct_of, window_struct};
use crate::structs::{Param, Struct, list_row, unknown_row};
use crate::token::{put_all, put_one};
use csicodec_actions::{
    Device, DeviceAttributes, XtSmGraphicsItem, device_action, graphics_ref, window_action,
};
use csicodec_base::CsiParam;
use csicodec_base::CsiParam::{Integer, P};
use csicodec_parser::laws::segmentation;
use csicodec_parser::{ActionRef, CSI};
use std::alloc::Global;

/// How many actions there are, and how many tokens belong to them.
#[derive(Clone, Copy)]
pub(crate) struct Counts {
    pub(crate) actions: usize,
    pub(crate) params: usize,
}

/// Puts the extensions, or the values, that a terminal names behind the tokens that are there.
fn put_device(room: &mut [Param], place: usize, device: &Device) -> Option<usize>
    ensures { IfSome result (PutsBehind room.old room.new place
        (device_params (device_of device.now))) }
{
    match device {
        Device::DeviceAttributes(
            DeviceAttributes::Vt220(flags)
            | DeviceAttributes::Vt320(flags)
            | DeviceAttributes::Vt420(flags),
        ) => put_all(room, place, &flags.attributes),
        Device::XtSmGraphics(graphics) => put_all(room, place, &graphics.value),
        _ => Some(place),
    }
}

/// Puts the tokens of an action behind those that are there.
fn put_params(room: &mut [Param], place: usize, action: &CSI) -> Option<usize>
    ensures { IfSome result (PutsBehind room.old room.new place
        (params_of (action_of action.now))) }
{
    match action {
        CSI::Device(device) => put_device(room, place, device),
        CSI::Unspecified(unknown) => put_all(room, place, &unknown.params),
        _ => Some(place),
    }
}

/// Puts the struct of an action, whose tokens end here, behind those that are there. There is nothing to answer where
/// the structs can't be counted.
#[inline(always)]
fn lay_struct(given: Struct, end: usize, count: Counts, actions: &mut [Struct]) -> Option<Counts>
    ensures { (old new : List Param) (a : Action) → given ≡ struct_of count.params a
        → PutsBehind old new count.params (params_of a) end
        → IfSome result (LaysOne count actions.old actions.new old new a) }
{
    let next = count.actions.checked_add(1)?;
    put(actions, count.actions, given);
    Some(Counts {
        actions: next,
        params: end,
    })
}

/// Puts an action and its tokens behind those that are there.
#[inline(always)]
pub(crate) fn lay_one(
    action: &CSI,
    count: Counts,
    actions: &mut [Struct],
    params: &mut [Param],
) -> Option<Counts>
    ensures { IfSome result (LaysOne count actions.old actions.new params.old params.new
        (action_of action.now)) }
{
    let end = put_params(params, count.params, action)?;
    lay_struct(struct_of(count.params, action), end, count, actions)
}

/// Puts an unknown action of these tokens, the mark ahead of them, and its tokens behind those that are there.
fn lay_unknown(
    mark: &[CsiParam],
    tokens: &[CsiParam],
    control: char,
    count: Counts,
    actions: &mut [Struct],
    params: &mut [Param],
) -> Option<Counts>
    ensures { IfSome result (LaysOne count actions.old actions.new params.old params.new
        (Unknown (mark.now ++ tokens.now) false control)) }
{
    let len = mark.len().checked_add(tokens.len())?;
    let behind = put_all(params, count.params, mark)?;
    let end = put_all(params, behind, tokens)?;
    lay_struct(unknown_row(control, count.params, len), end, count, actions)
}

/// What an action says ahead of its extensions or values: a terminal its service class, by the first terminal that has
/// it; graphics their item, and an action or a status.
#[derive(Clone, Copy)]
enum Head {
    Vt220,
    Vt320,
    Vt420,
    Graphics {
        item: XtSmGraphicsItem,
        action_or_status: i64,
    },
}

/// The service class that a list names, and the tokens behind it.
#[tactic(auto, unfolding(csicodec_actions::specs::Table::boxed, csicodec_actions::specs::Table::Device::as_device))]
fn class_of(list: &[CsiParam], control: char) -> Option<(Head, &[CsiParam])>
    ensures { IfSome result (λ x. boxed list.now control ≡ Some (headed x.0 x.1.now)) }
{
    match (list, control) {
        ([P(b'?'), Integer(62), extensions @ ..], 'c') => Some((Head::Vt220, extensions)),
        ([P(b'?'), Integer(63), extensions @ ..], 'c') => Some((Head::Vt320, extensions)),
        ([P(b'?'), Integer(64), extensions @ ..], 'c') => Some((Head::Vt420, extensions)),
        _ => None,
    }
}

/// The struct of an action with so many extensions or values, which stand from this place on.
fn head_struct(head: Head, place: usize, len: usize) -> Struct
    ensures { (list : List CsiParam) → len ≡ length (params_of (headed head list))
        → result ≡ struct_of place (headed head list) }
{
    match head {
        Head::Vt220 => list_row(VT220, 0, 0, place, len),
        Head::Vt320 => list_row(VT320, 0, 0, place, len),
        Head::Vt420 => list_row(VT420, 0, 0, place, len),
        Head::Graphics {
            item,
            action_or_status,
        } => list_row(XT_SM_GRAPHICS, item.number(), action_or_status, place, len),
    }
}

/// Puts a token of the list, where it is an extension or a value: a `;` is no extension, and a byte no value.
fn put_listed(room: &mut [Param], place: usize, head: Head, token: CsiParam) -> Option<usize>
    ensures { IfSome result (PutsBehind room.old room.new place
        (params_of (headed head (token ∷ [])))) }
{
    match (head, token) {
        (Head::Graphics { .. }, P(_)) | (_, P(b';')) => Some(place),
        _ => put_one(room, place, token),
    }
}

/// Puts the extensions, or the values, that a list says behind the tokens that are there.
fn put_list(room: &mut [Param], place: usize, head: Head, list: &[CsiParam]) -> Option<usize>
    ensures { IfSome result (PutsBehind room.old room.new place
        (params_of (headed head list.now))) }
{
    let mut end = place;
    for token in list {
        end = put_listed(room, end, head, *token)?;
    }
    Some(end)
}

/// Puts an action with the extensions, or the values, that a list says, and these behind the tokens that are there.
fn lay_listed(
    head: Head,
    list: &[CsiParam],
    count: Counts,
    actions: &mut [Struct],
    params: &mut [Param],
) -> Option<Counts>
    ensures { IfSome result (LaysOne count actions.old actions.new params.old params.new
        (headed head list.now)) }
{
    let end = put_list(params, count.params, head, list)?;
    let len = end.checked_sub(count.params)?;
    lay_struct(head_struct(head, count.params, len), end, count, actions)
}

/// Puts the action of a list that is read whole, where none is made that takes no memory: that of its row, or an unknown one. Nothing
/// is answered where memory ran out.
#[cold]
#[inline(never)]
#[tactic(auto, unfolding(csicodec_actions::specs::Table::boxed))]
fn lay_whole(
    alloc: Global,
    list: &[CsiParam],
    control: char,
    count: Counts,
    actions: &mut [Struct],
    params: &mut [Param],
) -> Option<Counts>
    ensures { IfSome result (LaysOne count actions.old actions.new params.old params.new
        (unwrap_or (boxed list.now control) (Unknown list.now false control))) }
{
    if let Some((class, extensions)) = class_of(list, control) {
        return lay_listed(class, extensions, count, actions, params);
    }
    if let Some(device) = device_action(alloc, list, control).ok()? {
        let end = put_device(params, count.params, &device)?;
        return lay_struct(device_struct(count.params, &device), end, count, actions);
    }
    if let Some(window) = window_action(list, control) {
        return lay_struct(window_struct(&window), count.params, count, actions);
    }
    let Some(graphics) = graphics_ref(list, control) else {
        return lay_unknown(&[], list, control, count, actions, params);
    };
    let head = Head::Graphics {
        item: graphics.item,
        action_or_status: graphics.action_or_status,
    };
    lay_listed(head, graphics.values, count, actions, params)
}

/// Puts the action whose tokens are lent so, and these tokens.
#[inline(always)]
fn lay_ref(
    alloc: Global,
    action: ActionRef<'_>,
    control: char,
    count: Counts,
    actions: &mut [Struct],
    params: &mut [Param],
) -> Option<Counts>
    ensures { IfSome result (LaysOne count actions.old actions.new params.old params.new
        (lent action.entry control)) }
{
    match action {
        ActionRef::Small(csi) => lay_one(&csi, count, actions, params),
        ActionRef::Whole(list) => lay_whole(alloc, list, control, count, actions, params),
        ActionRef::Unknown(list) => lay_unknown(&[], list, control, count, actions, params),
        ActionRef::UnknownMode(list) => {
            lay_unknown(&[P(b'?')], list, control, count, actions, params)
        }
    }
}

/// Puts the actions of a list and their tokens.
#[inline(never)]
pub(crate) fn lay_list(
    alloc: Global,
    list: &[CsiParam],
    control: char,
    actions: &mut [Struct],
    params: &mut [Param],
) -> Option<Counts>
    ensures { IfSome result (LaysBy Actions list.now control actions.old actions.new params.old params.new) }
{
    segmentation(list, false, control);
    let mut count = Counts {
        actions: 0,
        params: 0,
    };
    let mut run = CSI::parse(alloc, list, false, control);
    while let Some(action) = run.next_ref() {
        count = lay_ref(alloc, action, control, count, actions, params)?;
    }
    Some(count)
}
