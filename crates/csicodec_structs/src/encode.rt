//! Structs as actions, and their texts.
ghost use Rattle.std.specs.Prelude.{◌≡◌, ◌⊎◌, ◌↔◌, ◌<◌, List, [], ◌∷◌, drop, take, map, length, true, IfOk, IfErr, IfSome, MatchOption, ◌≤◌, ℕ, false};
ghost use Rattle.std.specs.List.{All};
ghost use Rattle.csicodec_parser.specs.ActionOf.{action_of};
ghost use Rattle.csicodec_structs.specs.Encode.{AllStand, HasNone, IsDone, IsPut, IsRefused, Stands, StandsForNone, refused, IsJudged, IsUnjudged, judgement};
ghost use Rattle.csicodec_structs.specs.{Private.Steps.AreTexts, Private.Steps.IsExtended, Private.Steps.IsGraphics, Private.Steps.IsMade, Private.Steps.IsUnknown};
ghost use Rattle.csicodec_structs.specs.{Rows.InRange, declared.structs.Param.Param, Structs.param_of, Structs.TokenInRange};
ghost use Rattle.csicodec_actions.specs.{Table.text, Actions.Unspecified as Unknown};
ghost use Rattle.csicodec_tokens.specs.declared.param.CsiParam.{CsiParam};

use crate::room::fill;
use crate::rows::{
    UNSPECIFIED, VT220, VT320, VT420, XT_SM_GRAPHICS, candidate, small_candidate, struct_of,
};
use crate::status::Status;
use crate::structs::{Param, Struct, unknown_row};
use crate::token::{Token, tokens};
use csicodec_actions::{
    Device, DeviceAttributeFlags, DeviceAttributes, XtSmGraphics, XtSmGraphicsItem, write_path,
};
use csicodec_base::{CsiParam, Text, TextBuffer};
use csicodec_parser::{CSI, Unspecified, append_text};
use std::alloc::{AllocError, Global};

/// How a writing of actions ended.
#[repr(C)]
#[derive(Clone, Copy)]
pub struct Encoded {
    /// The number of a `Status`: `Done`, `Memory`, or `NoAction` for a struct that stands for none.
    pub status: u32,
    /// Of `NoAction`, which of the structs.
    pub at: usize,
    /// Of `Done`, the length of the texts.
    pub needed: usize,
}

/// Why nothing is put.
pub fn refused(why: Status, at: usize) -> Encoded
    ensures { result ≡ refused why at }
{
    Encoded {
        status: why.number(),
        at,
        needed: 0,
    }
}

/// Puts a text, where it fits.
#[inline(always)]
pub fn put_text(text: &[u8], out: &mut [u8]) -> Encoded
    ensures { IsPut out.old out.new text.now result }
{
    fill(out, text);
    Encoded {
        status: Status::Done.number(),
        at: 0,
        needed: text.len(),
    }
}

/// Whether two structs are the same, field by field.
pub(crate) fn is_same(one: &Struct, other: &Struct) -> bool
    ensures { result ≡ true ↔ one.now ≡ other.now }
{
    *one == Struct {
        kind: other.kind,
        ..*other
    }
}

/// So many tokens from a place on, unless they are fewer.
pub fn part(params: &[Param], place: usize, len: usize) -> Option<&[Param]>
    ensures { MatchOption result (length (take len (drop place params.now)) < len) (λ part.
        (part.now ≡ take len (drop place params.now)) × (length part.now ≡ len)) }
{
    let behind = params.get(place..).unwrap_or(&[]);
    behind.get(..len)
}

/// An unknown action of these tokens.
fn unknown(alloc: Global, given: &Struct, params: &[Param]) -> Result<Option<CSI>, AllocError>
    ensures { IfOk result (IsMade IsUnknown given.now params.now) }
{
    let Some(control) = char::from_u32(given.final_char) else {
        return Ok(None);
    };
    let Some(params) = tokens(alloc, params)? else {
        return Ok(None);
    };
    let unspecified = Unspecified {
        params,
        parameters_truncated: false,
        control,
    };
    Ok(Some(CSI::Unspecified(Box::new(alloc, unspecified)?)))
}

/// The primary device attributes with these extensions.
fn extended(alloc: Global, given: &Struct, params: &[Param]) -> Result<Option<CSI>, AllocError>
    ensures { IfOk result (IsMade IsExtended given.now params.now) }
{
    let Some(attributes) = tokens(alloc, params)? else {
        return Ok(None);
    };
    let flags = DeviceAttributeFlags { attributes };
    let attributes = match given.kind {
        VT220 => DeviceAttributes::Vt220(flags),
        VT320 => DeviceAttributes::Vt320(flags),
        _ => DeviceAttributes::Vt420(flags),
    };
    let device = Device::DeviceAttributes(attributes);
    Ok(Some(CSI::Device(Box::new(alloc, device)?)))
}

/// Graphics of these values.
#[tactic(auto, using(crate::proofs::OneValue::item_named))]
fn graphics(alloc: Global, given: &Struct, params: &[Param]) -> Result<Option<CSI>, AllocError>
    ensures { IfOk result (IsMade IsGraphics given.now params.now) }
{
    let Some(value) = tokens(alloc, params)? else {
        return Ok(None);
    };
    let graphics = XtSmGraphics {
        item: XtSmGraphicsItem::of(given.first),
        action_or_status: given.second,
        value,
    };
    let device = Device::XtSmGraphics(graphics);
    Ok(Some(CSI::Device(Box::new(alloc, device)?)))
}

/// An action of the struct's kind that has these tokens.
fn made(alloc: Global, given: &Struct, params: &[Param]) -> Result<Option<CSI>, AllocError>
    ensures { IfOk result (IsMade InRange given.now params.now) }
{
    match given.kind {
        UNSPECIFIED => unknown(alloc, given, params),
        VT220 | VT320 | VT420 => extended(alloc, given, params),
        XT_SM_GRAPHICS => graphics(alloc, given, params),
        _ if params.is_empty() => candidate(alloc, given),
        _ => Ok(None),
    }
}

/// The action that a struct stands for.
pub(crate) fn action(
    alloc: Global,
    params: &[Param],
    given: &Struct,
) -> Result<Option<CSI>, AllocError>
    ensures { IfOk result (λ r.
        MatchOption r (StandsForNone given.now params.now) (λ csi.
        Stands given.now params.now (action_of csi))) }
{
    let Some(items) = part(params, given.place, given.len) else {
        return Ok(None);
    };
    let Some(csi) = made(alloc, given, items)? else {
        return Ok(None);
    };
    Ok(is_same(&struct_of(given.place, &csi), given).then_some(csi))
}

/// The actions that the structs stand for, or which of these stands for none.
#[inline(always)]
#[tactic(auto, using(crate::proofs::Stand::stand_more_mapped))]
pub fn actions_of(
    alloc: Global,
    structs: &[Struct],
    params: &[Param],
) -> Result<Result<Vec<CSI>, usize>, AllocError>
    ensures actions { IfOk result (λ r.
        IfOk r (λ all. AllStand structs.now params.now (map action_of all.items))) }
    ensures none { IfOk result (λ r. IfErr r (λ at. HasNone structs.now params.now at)) }
{
    let mut actions = Vec::new(alloc);
    let mut at = 0;
    for given in structs {
        let Some(csi) = action(alloc, params, given)? else {
            return Ok(Err(at));
        };
        actions.push(csi)?;
        at += 1;
    }
    Ok(Ok(actions))
}

/// The joined texts of the actions that the structs stand for, or which of these stands for none.
#[inline(always)]
#[tactic(auto, using(crate::proofs::Stand::texts_more))]
fn texts_of(
    alloc: Global,
    structs: &[Struct],
    params: &[Param],
) -> Result<Result<Vec<u8>, usize>, AllocError>
    ensures texts { IfOk result (λ r. IfOk r (λ all. AreTexts structs.now params.now all.items)) }
    ensures none { IfOk result (λ r. IfErr r (λ at. HasNone structs.now params.now at)) }
{
    let mut all = TextBuffer::new(alloc);
    let mut at = 0;
    for given in structs {
        let Some(csi) = action(alloc, params, given)? else {
            return Ok(Err(at));
        };
        append_text(alloc, &mut all, &csi)?;
        at += 1;
    }
    Ok(Ok(all.into_vec()))
}

/// The text of the action that a struct stands for, where it has no tokens and takes no memory.
#[inline(always)]
#[tactic(auto, using(crate::proofs::Stand::short_stands))]
fn short_of(given: &Struct) -> Option<Text>
    ensures { IfSome result (λ t. (params : List Param) → AreTexts (given.now ∷ []) params t) }
{
    let csi = small_candidate(given)?;
    if !is_same(&struct_of(given.place, &csi), given) {
        return None;
    }
    short_text(&csi)
}

/// Puts the texts of the actions that the structs stand for, where they fit.
#[tactic(auto, using(crate::proofs::Stand::texts_done))]
pub fn put_texts(alloc: Global, actions: &[Struct], params: &[Param], out: &mut [u8]) -> Encoded
    ensures { IsDone actions.now params.now out.old out.new result
        ⊎ IsRefused actions.now params.now out.old out.new result }
{
    if actions.len() == 1 {
        let given = &actions[0];
        if let Some(text) = short_of(given) {
            return put_text(text.as_bytes(), out);
        }
    }
    match texts_of(alloc, actions, params) {
        Ok(Ok(all)) => put_text(all.as_slice(), out),
        Ok(Err(at)) => refused(Status::NoAction, at),
        Err(_) => refused(Status::Memory, 0),
    }
}

/// Whether an action is read back from its text.
#[repr(C)]
#[derive(Clone, Copy)]
pub struct Judged {
    /// `Done` where it is known, `Memory`, or `NoAction` for a struct that stands for none.
    pub status: u32,
    /// Of `Done`, 1 where it is, and 0 where it isn't.
    pub canonical: u32,
}

fn judgement(why: Status, canonical: u32) -> Judged
    ensures { result ≡ judgement why canonical }
{
    Judged {
        status: why.number(),
        canonical,
    }
}

/// Whether the text of the action that the struct stands for is read as this one action.
pub fn judge(alloc: Global, given: &Struct, params: &[Param]) -> Judged
    ensures { IsJudged given.now params.now result ⊎ IsUnjudged given.now params.now result }
{
    let csi = match action(alloc, params, given) {
        Ok(Some(csi)) => csi,
        Ok(None) => return judgement(Status::NoAction, 0),
        Err(_) => return judgement(Status::Memory, 0),
    };
    match csi.is_canonical(alloc, false) {
        Ok(canonical) => judgement(Status::Done, u32::from(canonical)),
        Err(_) => judgement(Status::Memory, 0),
    }
}

/// The text of an action, unless the action takes memory.
#[inline(always)]
pub(crate) fn short_text(action: &CSI) -> Option<Text>
    ensures { IfSome result (λ short. short ≡ text (action_of action.now)) }
{
    let mut text = Text::new();
    text.push_str("\x1b[");
    match action {
        CSI::Sgr(sgr) => sgr.write_to(&mut text),
        CSI::Cursor(cursor) => cursor.write_to(&mut text),
        CSI::Edit(edit) => edit.write_to(&mut text),
        CSI::Mode(mode) => mode.write_to(&mut text),
        CSI::Mouse(mouse) => mouse.write_to(&mut text),
        CSI::Keyboard(keyboard) => keyboard.write_to(&mut text),
        CSI::SelectCharacterPath(path, effect) => write_path(&mut text, path, *effect),
        CSI::Device(_) | CSI::Window(_) | CSI::Unspecified(_) => return None,
    }
    Some(text)
}

/// Puts the tokens that structs stand for, unless one stands for none.
#[tactic(auto, using(crate::proofs::Tokens::one_more))]
fn put_tokens(params: &[Param], room: &mut [CsiParam]) -> Option<()>
    requires { length params.now ≤ length room.old }
    ensures { MatchOption result
        ((all : List CsiParam) → All TokenInRange all → map param_of all ≡ params.now → ⊥) (λ _.
        All TokenInRange (take (length params.now) room.new)
        × (map param_of (take (length params.now) room.new) ≡ params.now)) }
{
    let mut place = 0;
    for param in params {
        let Some(token) = CsiParam::of_param(*param) else {
            return None;
        };
        room[place] = token;
        place += 1;
    }
    Some(())
}

/// Puts the list of the unknown action that a struct stands for, and answers its final character; none where it stands for none, or
/// where there is no room for the list.
pub fn put_unknown(given: &Struct, params: &[Param], room: &mut [CsiParam]) -> Option<char>
    ensures { MatchOption result
        ((list : List CsiParam) (final : ℕ)
        → Stands given.now params.now (Unknown list false final) → length room.old < length list) (λ final.
        (given.now.len ≤ length room.new)
        × Stands given.now params.now (Unknown (take given.now.len room.new) false final)) }
{
    let control = char::from_u32(given.final_char)?;
    if !is_same(&unknown_row(control, given.place, given.len), given) {
        return None;
    }
    let items = part(params, given.place, given.len)?;
    if items.len() > room.len() {
        return None;
    }
    put_tokens(items, room)?;
    Some(control)
}
