//! The parser: an iterator over the actions of one parameter list, for any `Look`.
ghost use Rattle.std.specs.Prelude.{slice_get, map, OnErr, IsNone, ◌≡◌, ◌↔◌, ◌+◌, ◌-◌, ◌*◌, ◌<◌, ◌≤◌, ◌∷◌};
ghost use Rattle.csicodec_parser.specs.Private.Steps.{with_semicolon, block, rest_action, left_at, fresh_cost, from_at, held, Acts, CanGo, GoesBy, Leaves};
ghost use Rattle.csicodec_parser.specs.Common.{true, false, ℕ, Bool, List, [], Some, None, length, drop, IfOk, OnOk, IfSome, IfNone, CsiParam, Unknown, unboxed, whole};
ghost use Rattle.csicodec_parser.specs.{ActionOf.action_of, Groups.group as group_of_list, Groups.has_odd, Groups.marked, Groups.start, Next.IsRef, Segments.Actions};

use crate::actions::{CSI, Unspecified, boxed_action, unboxed_action};
use crate::group::{Group, front};
use crate::look::Look;
use crate::tokens::Tokens;
use csicodec_actions::{Device, Window};
use csicodec_base::{CsiParam, Sgr};
use csicodec_tokens::Count;
use std::alloc::{AllocError, Global};
use std::marker::Model;

/// No piece is longer.
pub(crate) const LONGEST: usize = 13;

/// What ends a list: its final character, and the flag that came with it. An action that takes memory takes it here.
#[derive(Clone, Copy)]
pub(crate) struct End {
    pub(crate) alloc: Global,
    pub(crate) truncated: bool,
    pub(crate) control: char,
}

#[derive(Clone, Copy)]
enum Stage {
    /// Nothing was read.
    Fresh,
    /// The unread tokens are cut from their front, as those of the group are.
    Going(Group),
    /// Memory was refused.
    Failed,
}

/// A run over the tokens of one parameter list: an iterator of its actions.
///
/// After `None`, and after an `Err`, every further `next` is `None`. An `Err` comes only where the next action is a
/// `Device`, a `Window` or an `Unspecified` and memory was refused for it; the actions given before stand.
#[derive(Drop)]
pub struct Run<L: Look> {
    look: L,
    end: End,
    given: Count,
    stage: Stage,
}

impl<L: Look> Model for Run<L> {
    ghost use Rattle.csicodec_parser.specs.Progress.{Progress, progress};

    ghost Value = { Progress };

    ghost use Rattle.csicodec_parser.specs.Private.Steps.{has_failed, Sound};

    ghost view = { λ r.
        progress (L.tokens r.look) r.end.truncated r.end.control r.given.total (has_failed r.stage) (L.passed r.look) (L.looks r.look) };

    ghost invariant = { λ r.
        Sound r.stage (progress (L.tokens r.look) r.end.truncated r.end.control r.given.total (has_failed r.stage) (L.passed r.look) (L.looks r.look)) };
}

/// The parser of a slice of parameters.
///
/// ```text
/// let parser: CSIParser<'_> = CSI::parse(alloc, &params, false, 'm');
/// ```
pub type CSIParser<'a> = Run<Tokens<'a>>;

/// An action whose tokens are lent from the list that it was read from, so that it takes no memory.
#[derive(Drop)]
pub enum ActionRef<'a> {
    /// One without tokens, of a list that is cut or read whole: no `Device`, `Window` or `Unspecified`.
    Small(CSI),
    /// The one action of this list, which is read whole: a `Device` or a `Window` where a row reads it, and else
    /// `Unspecified`.
    Whole(&'a [CsiParam]),
    /// `Unspecified`, of these tokens.
    Unknown(&'a [CsiParam]),
    /// `Unspecified`, of a `?` and then these tokens: the rest of a list of private modes.
    UnknownMode(&'a [CsiParam]),
}

/// The group of the list, by one look at its first token.
pub(crate) fn group_of<L: Look>(look: &mut L, control: char) -> Group
    requires { L.passed look.old ≡ 0 }
    ensures group { result ≡ group_of_list (L.tokens look.old) control }
    ensures list { L.tokens look.new ≡ L.tokens look.old }
    ensures passes { L.passed look.new ≡ 0 }
    ensures costs { L.looks look.new ≡ L.looks look.old + 1 }
{
    let first = look.get(0);
    Group::of(first, control)
}

/// Whether a byte among the tokens makes the whole list unknown. Each token is looked at once at most.
pub(crate) fn has_odd<L: Look>(group: Group, look: &mut L) -> bool
    requires { L.passed look.old ≡ 0 }
    ensures odd { result ≡ has_odd group (L.tokens look.old) }
    ensures list { L.tokens look.new ≡ L.tokens look.old }
    ensures passes { L.passed look.new ≡ 0 }
    ensures counted { L.looks look.old ≤ L.looks look.new }
    ensures costs { L.looks look.new ≤ L.looks look.old + length (L.tokens look.old) }
{
    if let Group::DecModes(_) = group {
        return false;
    }
    for i in 0..look.len() {
        if group.is_odd(look.get(i)) {
            return true;
        }
    }
    false
}

/// Passes over a piece of `len` tokens, and the `;` directly after it.
#[inline(always)]
pub(crate) fn pass_piece<L: Look>(look: &mut L, len: usize)
    requires short { len < usize.MAX }
    requires there { L.passed look.old
        + with_semicolon len (slice_get (drop (L.passed look.old) (L.tokens look.old)) len)
        ≤ length (L.tokens look.old) }
    ensures list { L.tokens look.new ≡ L.tokens look.old }
    ensures passes { L.passed look.new ≡ L.passed look.old
        + with_semicolon len (slice_get (drop (L.passed look.old) (L.tokens look.old)) len) }
    ensures costs { L.looks look.new + L.passed look.old ≡ L.looks look.old + 1 + L.passed look.new }
{
    // most pieces are one token, and a pass over a number that is known costs less
    if len == 1 {
        return match look.get(1) {
            Some(CsiParam::P(b';')) => look.pass(2),
            _ => look.pass(1),
        };
    }
    match look.get(len) {
        Some(CsiParam::P(b';')) => look.pass(len + 1),
        _ => look.pass(len),
    }
}

/// Passes over the block at the front, and answers its action. Without one nothing is passed.
#[inline(always)]
fn cut_block<L: Look>(group: Group, look: &mut L) -> Option<CSI>
    ensures some { IfSome result (λ action.
        block group (drop (L.passed look.old) (L.tokens look.old))
        ≡ Some (action_of action, L.passed look.new - L.passed look.old)) }
    ensures forward { IfSome result (λ _. L.passed look.old < L.passed look.new) }
    ensures none { IfNone result
        (block group (drop (L.passed look.old) (L.tokens look.old)) ≡ None) }
    ensures stays { IfNone result (L.passed look.new ≡ L.passed look.old) }
    ensures list { L.tokens look.new ≡ L.tokens look.old }
    ensures within { L.passed look.new ≤ length (L.tokens look.new) }
    ensures counted { L.looks look.old ≤ L.looks look.new }
    ensures costs { L.looks look.new + L.passed look.old
        ≤ L.looks look.old + 105 + L.passed look.new }
{
    let width = look.len().min(LONGEST);
    let Some((action, len)) = front(group, look.lend(0, width)) else {
        return None;
    };
    pass_piece(look, len);
    Some(action)
}

/// The unknown action of these tokens, with what stands before the pieces of the group ahead of them.
pub(crate) fn unknown_action(group: Group, rest: &[CsiParam], end: End) -> Result<CSI, AllocError>
    ensures { IfOk result (λ action.
        action_of action ≡ Unknown (marked group rest.now) end.truncated end.control) }
{
    let mut params = group.front_tokens(end.alloc)?;
    params.extend_from_slice(rest)?;
    let control = end.control;
    let unspecified = Unspecified {
        params,
        parameters_truncated: end.truncated,
        control,
    };
    CSI::from_unspecified(end.alloc, unspecified)
}

/// The action of what is left of a list, where it takes memory: that of a row of lists that are read whole, or an unknown one.
fn unread_action(group: Group, rest: &[CsiParam], end: End) -> Result<CSI, AllocError>
    ensures { IfOk result (λ action.
        action_of action ≡ rest_action group rest.now end.truncated end.control) }
{
    match group {
        Group::Whole => match boxed_action(end.alloc, rest, end.control)? {
            Some(action) => Ok(action),
            None => unknown_action(Group::Whole, rest, end),
        },
        _ => unknown_action(group, rest, end),
    }
}

/// The same of all unread tokens. They are passed, unless memory is refused.
fn left_action<L: Look>(group: Group, look: &mut L, end: End) -> Result<CSI, AllocError>
    requires { L.passed look.old ≤ length (L.tokens look.old) }
    ensures ok { IfOk result (λ action.
        action_of action
        ≡ rest_action group (drop (L.passed look.old) (L.tokens look.old)) end.truncated end.control) }
    ensures all { OnOk result (L.passed look.new ≡ length (L.tokens look.new)) }
    ensures list { L.tokens look.new ≡ L.tokens look.old }
    ensures within { L.passed look.new ≤ length (L.tokens look.new) }
    ensures counted { L.looks look.old ≤ L.looks look.new }
    ensures costs { L.looks look.new + 10 * L.passed look.old
        ≤ L.looks look.old + 10 * length (L.tokens look.old) }
{
    let len = look.len();
    let action = unread_action(group, look.lend(0, len), end)?;
    look.pass(len);
    Ok(action)
}

/// An action that takes memory, in its box. A call answers it in registers, so that a caller whose other actions take none
/// keeps no room for it.
#[derive(Drop)]
enum Boxed {
    Device(Box<Device>),
    Window(Box<Window>),
    Unspecified(Box<Unspecified>),
    /// Memory was refused.
    Refused,
}

/// The same in its box.
#[cold]
#[inline(never)]
fn boxed_rest<L: Look>(group: Group, look: &mut L, end: End) -> Boxed
    requires { L.passed look.old ≤ length (L.tokens look.old) }
    ensures ok { IfSome (held result) (λ action.
        action
        ≡ rest_action group (drop (L.passed look.old) (L.tokens look.old)) end.truncated end.control) }
    ensures all { IfSome (held result) (λ _. L.passed look.new ≡ length (L.tokens look.new)) }
    ensures list { L.tokens look.new ≡ L.tokens look.old }
    ensures within { L.passed look.new ≤ length (L.tokens look.new) }
    ensures counted { L.looks look.old ≤ L.looks look.new }
    ensures costs { L.looks look.new + 10 * L.passed look.old
        ≤ L.looks look.old + 10 * length (L.tokens look.old) }
{
    match left_action(group, look, end) {
        Ok(CSI::Device(device)) => Boxed::Device(device),
        Ok(CSI::Window(window)) => Boxed::Window(window),
        Ok(CSI::Unspecified(unspecified)) => Boxed::Unspecified(unspecified),
        // no other action takes memory
        Ok(_) | Err(_) => Boxed::Refused,
    }
}

/// The same, where what takes memory is out of the caller's way.
#[inline(always)]
fn rest_action<L: Look>(group: Group, look: &mut L, end: End) -> Result<CSI, AllocError>
    requires { L.passed look.old ≤ length (L.tokens look.old) }
    ensures ok { IfOk result (λ action.
        action_of action
        ≡ rest_action group (drop (L.passed look.old) (L.tokens look.old)) end.truncated end.control) }
    ensures all { OnOk result (L.passed look.new ≡ length (L.tokens look.new)) }
    ensures list { L.tokens look.new ≡ L.tokens look.old }
    ensures within { L.passed look.new ≤ length (L.tokens look.new) }
    ensures counted { L.looks look.old ≤ L.looks look.new }
    ensures costs { L.looks look.new + 10 * L.passed look.old
        ≤ L.looks look.old + 10 * length (L.tokens look.old) }
{
    match boxed_rest(group, look, end) {
        Boxed::Device(device) => Ok(CSI::Device(device)),
        Boxed::Window(window) => Ok(CSI::Window(window)),
        Boxed::Unspecified(unspecified) => Ok(CSI::Unspecified(unspecified)),
        Boxed::Refused => Err(AllocError),
    }
}

/// The action of all unread tokens, with these lent. They are passed.
fn rest_ref<'a>(group: Group, look: &mut Tokens<'a>) -> ActionRef<'a>
    requires { look.old.passed ≤ length look.old.list }
    ensures is { (flag : Bool) (final : ℕ)
        → IsRef result flag final
        (rest_action group (drop look.old.passed look.old.list) flag final) }
    ensures all { look.new.passed ≡ length look.new.list }
    ensures list { look.new.list ≡ look.old.list }
    ensures costs { look.new.looks + look.old.passed ≡ look.old.looks + length look.old.list }
{
    let rest = look.rest();
    let len = look.len();
    look.pass(len);
    match group {
        Group::Whole => ActionRef::Whole(rest),
        Group::Styles | Group::Modes(_) => ActionRef::Unknown(rest),
        Group::DecModes(_) => ActionRef::UnknownMode(rest),
    }
}

/// The one action of a list that is read whole, where a row reads it and it takes no memory. Then all tokens are passed.
#[inline(always)]
pub(crate) fn whole_list<L: Look>(look: &mut L, control: char) -> Option<CSI>
    requires { L.passed look.old ≡ 0 }
    ensures some { IfSome result (λ action.
        whole (L.tokens look.old) control ≡ Some (action_of action)) }
    ensures all { IfSome result (λ _. L.passed look.new ≡ length (L.tokens look.new)) }
    ensures none { IfNone result (unboxed (L.tokens look.old) control ≡ None) }
    ensures stays { IfNone result (L.passed look.new ≡ 0) }
    ensures list { L.tokens look.new ≡ L.tokens look.old }
    ensures counted { L.looks look.old ≤ L.looks look.new }
    ensures costs { L.looks look.new
        ≤ L.looks look.old + 8 * length (L.tokens look.old) + L.passed look.new }
{
    let len = look.len();
    let Some(action) = unboxed_action(look.lend(0, len), control) else {
        return None;
    };
    look.pass(len);
    Some(action)
}

/// The group that the next action is read by, if one is left.
#[inline(always)]
fn group_at<L: Look>(stage: Stage, look: &mut L, control: char) -> Option<Group>
    requires fresh { stage ≡ Stage.Fresh → L.passed look.old ≡ 0 }
    ensures none { IfNone result (
        ((flag : Bool) → left_at stage flag control (L.tokens look.old) (L.passed look.old) ≡ [])
        × (look.new ≡ look.old)) }
    ensures some { IfSome result (λ _.
        CanGo stage (L.passed look.old) (length (L.tokens look.old))) }
    ensures group { IfSome result (λ g. GoesBy stage (L.tokens look.old) control g) }
    ensures list { L.tokens look.new ≡ L.tokens look.old }
    ensures passes { L.passed look.new ≡ L.passed look.old }
    ensures costs { L.looks look.new ≡ L.looks look.old + fresh_cost stage }
{
    match stage {
        Stage::Fresh => Some(group_of(look, control)),
        Stage::Going(group) if look.len() > 0 => Some(group),
        Stage::Going(_) | Stage::Failed => None,
    }
}

/// Whether a byte makes the whole list unknown. It is looked for once, where nothing was read, and without one what stands
/// before the pieces is passed.
#[inline(always)]
fn begins_odd<L: Look>(stage: Stage, group: Group, look: &mut L) -> bool
    requires fresh { stage ≡ Stage.Fresh → L.passed look.old ≡ 0 }
    requires start { stage ≡ Stage.Fresh → start group ≤ length (L.tokens look.old) }
    ensures odd { result ≡ true → (stage ≡ Stage.Fresh)
        × (has_odd group (L.tokens look.old) ≡ true) × (L.passed look.new ≡ L.passed look.old) }
    ensures plain { result ≡ false
        → (stage ≡ Stage.Fresh → has_odd group (L.tokens look.old) ≡ false)
        × (L.passed look.new ≡ from_at stage group (L.passed look.old)) }
    ensures list { L.tokens look.new ≡ L.tokens look.old }
    ensures forward { L.passed look.old ≤ L.passed look.new }
    ensures counted { L.looks look.old ≤ L.looks look.new }
    ensures costs { L.looks look.new + L.passed look.old
        ≤ L.looks look.old + fresh_cost stage * length (L.tokens look.old) + L.passed look.new }
{
    match stage {
        Stage::Fresh => {
            if has_odd(group, look) {
                return true;
            }
            look.pass(group.start());
            false
        }
        Stage::Going(_) | Stage::Failed => false,
    }
}

/// The next action of a list that is cut, where a rule reads it. It is one body for the first and for all others.
#[inline(always)]
fn cut_action<L: Look>(stage: Stage, group: Group, look: &mut L, control: char) -> Option<CSI>
    requires fresh { stage ≡ Stage.Fresh → L.passed look.old ≡ 0 }
    requires can { CanGo stage (L.passed look.old) (length (L.tokens look.old)) }
    requires group { GoesBy stage (L.tokens look.old) control group }
    requires cut { group ≡ Group.Whole → ⊥ }
    ensures some { IfSome result (λ action.
        Acts stage group (L.tokens look.old) control (L.passed look.old) (L.passed look.new) (L.looks look.old) (L.looks look.new) (action_of action)) }
    ensures none { IfNone result (
        Leaves stage group (L.tokens look.old) control (L.passed look.old) (L.passed look.new) (L.looks look.old) (L.looks look.new)) }
    ensures list { L.tokens look.new ≡ L.tokens look.old }
    ensures within { L.passed look.new ≤ length (L.tokens look.new) }
    ensures counted { L.looks look.old ≤ L.looks look.new }
{
    if begins_odd(stage, group, look) {
        return None;
    }
    if look.len() == 0 {
        return match group {
            Group::Styles => Some(CSI::Sgr(Sgr::Reset)),
            _ => None,
        };
    }
    cut_block(group, look)
}

/// The next action, where a rule reads it. Where none does, what is unread is unknown, with what stands before the
/// pieces ahead of it. Attributes have an arm of their own, so that the body is compiled for them alone.
#[inline(always)]
fn next_action<L: Look>(stage: Stage, group: Group, look: &mut L, control: char) -> Option<CSI>
    requires fresh { stage ≡ Stage.Fresh → L.passed look.old ≡ 0 }
    requires can { CanGo stage (L.passed look.old) (length (L.tokens look.old)) }
    requires group { GoesBy stage (L.tokens look.old) control group }
    ensures some { IfSome result (λ action.
        Acts stage group (L.tokens look.old) control (L.passed look.old) (L.passed look.new) (L.looks look.old) (L.looks look.new) (action_of action)) }
    ensures none { IfNone result (
        Leaves stage group (L.tokens look.old) control (L.passed look.old) (L.passed look.new) (L.looks look.old) (L.looks look.new)) }
    ensures list { L.tokens look.new ≡ L.tokens look.old }
    ensures within { L.passed look.new ≤ length (L.tokens look.new) }
    ensures counted { L.looks look.old ≤ L.looks look.new }
{
    match group {
        Group::Styles => cut_action(stage, Group::Styles, look, control),
        Group::Whole => match stage {
            Stage::Fresh => whole_list(look, control),
            _ => None,
        },
        _ => cut_action(stage, group, look, control),
    }
}

impl<L: Look> Run<L> {
    ghost use Rattle.csicodec_parser.specs.Progress.{begun};

    /// A run over tokens of which none is passed and none was looked at. Nothing is read yet, and no memory taken.
    /// The flag and the final character go into every `Unspecified`.
    ///
    /// ```text
    /// Run::over(alloc, Tokens::new(&params), false, 'm')      // what CSI::parse(alloc, &params, false, 'm') answers
    /// ```
    pub fn over(alloc: Global, tokens: L, parameters_truncated: bool, control: char) -> Run<L>
        requires passed { L.passed tokens ≡ 0 }
        requires looks { L.looks tokens ≡ 0 }
        ensures { result ≡ begun (L.tokens tokens) parameters_truncated control }
    {
        Run {
            look: tokens,
            end: End {
                alloc,
                truncated: parameters_truncated,
                control,
            },
            given: Count::new(),
            stage: Stage::Fresh,
        }
    }

    /// The tokens that the run holds.
    pub fn look(&self) -> &L
        ensures list { L.tokens result.now ≡ self.now.list }
        ensures passed { L.passed result.now ≡ self.now.passed }
        ensures looks { L.looks result.now ≡ self.now.looks }
    {
        &self.look
    }
}

impl<L: Look> Iterator for Run<L> {
    ghost use Rattle.std.specs.Iterator.{at_most};
    ghost use Rattle.csicodec_parser.specs.Progress.{most_left};
    ghost use Rattle.csicodec_parser.specs.Next.{Nexts};

    type Item = Result<CSI, AllocError>;

    ghost next_gives = { Nexts };

    ghost remaining = { λ run. at_most (most_left run) };

    #[inline(always)]
    fn next(&mut self) -> Option<Result<CSI, AllocError>> {
        let Some(group) = group_at(self.stage, &mut self.look, self.end.control) else {
            return None;
        };
        match next_action(self.stage, group, &mut self.look, self.end.control) {
            Some(action) => {
                self.stage = Stage::Going(group);
                self.given.charge(1, 1);
                Some(Ok(action))
            }
            None => match rest_action(group, &mut self.look, self.end) {
                Ok(action) => {
                    self.stage = Stage::Going(group);
                    self.given.charge(1, 1);
                    Some(Ok(action))
                }
                Err(error) => {
                    self.stage = Stage::Failed;
                    Some(Err(error))
                }
            },
        }
    }
}

impl CSI {
    ghost use Rattle.csicodec_parser.specs.Progress.{begun};

    /// The actions of one parameter list before its final character, as an iterator. It takes no memory itself, and
    /// copies nothing.
    ///
    /// Any tokens and any character are taken: what none of the rules reads comes as an `Unspecified`, with the flag
    /// `parameters_truncated` that the caller hands in.
    ///
    /// ```text
    /// let read = read_csi(alloc, b"\x1b[1;31m")?;
    /// for action in CSI::parse(alloc, &read.params, false, read.control) {
    ///     apply(&action?);      // Intensity(Bold), and then Foreground(PaletteIndex(1))
    /// }
    /// ```
    pub fn parse<'a>(
        alloc: Global,
        params: &'a [CsiParam],
        parameters_truncated: bool,
        control: char,
    ) -> CSIParser<'a>
        ensures { result ≡ begun params.now parameters_truncated control }
    {
        Run::over(alloc, Tokens::new(params), parameters_truncated, control)
    }
}

impl<'a> Run<Tokens<'a>> {
    ghost use Rattle.csicodec_parser.specs.Progress.{HasEnded, most_left};
    ghost use Rattle.csicodec_parser.specs.Cut.{IsRestAfter};
    ghost use Rattle.csicodec_parser.specs.Next.{NextsRef};

    /// The unread end of the caller's list: all of it before the first `next`, and never `Some` of nothing after one. It may be
    /// kept for as long as the list. `None` after the last action, and after an `Err`.
    ///
    /// After an action of a private mode the `?` that began the list is not in it: of `?1;99999` before `h` it is then
    /// `99999`, where the `Unspecified` that `next` answers holds `?99999`.
    ///
    /// ```text
    /// let mut run = CSI::parse(alloc, &params, false, 'm');     // where params are 1, ';', 999, ';', 3
    /// run.next()        // Intensity(Bold)
    /// run.rest()        // Some, of 999, ';', 3
    /// run.next()        // Unspecified, of the same three
    /// run.rest()        // None
    /// ```
    pub fn rest(&self) -> Option<&'a [CsiParam]>
        ensures cut { IfSome result (λ rest.
            IsRestAfter self.now.list self.now.final self.now.given rest.now) }
        ensures suffix { IfSome result (λ rest. rest.now ≡ drop self.now.passed self.now.list) }
        ensures ended { IsNone result ↔ HasEnded self.now }
    {
        match self.stage {
            Stage::Fresh => Some(self.look.rest()),
            Stage::Going(_) if self.look.len() > 0 => Some(self.look.rest()),
            Stage::Going(_) => None,
            Stage::Failed => None,
        }
    }

    /// What `next` answers, with its tokens lent from the caller's list: it takes no memory, and never fails.
    ///
    /// ```text
    /// let mut run = CSI::parse(alloc, &params, false, '~');     // where params are 200
    /// run.next_ref()    // Whole, of the same list: no row reads it
    /// run.next_ref()    // None
    /// ```
    #[inline(always)]
    pub fn next_ref(&mut self) -> Option<ActionRef<'a>>
        ensures next { NextsRef self.old result self.new }
        ensures fewer { IfSome result (λ _. most_left self.new < most_left self.old) }
    {
        let Some(group) = group_at(self.stage, &mut self.look, self.end.control) else {
            return None;
        };
        match next_action(self.stage, group, &mut self.look, self.end.control) {
            Some(action) => {
                self.stage = Stage::Going(group);
                self.given.charge(1, 1);
                Some(ActionRef::Small(action))
            }
            None => {
                let rest = rest_ref(group, &mut self.look);
                self.stage = Stage::Going(group);
                self.given.charge(1, 1);
                Some(rest)
            }
        }
    }
}
