//! The sequence at the front of some bytes.
ghost use Rattle.std.specs.Prelude.{◌≡◌, ◌⊎◌, IfSome, map};
ghost use Rattle.csicodec_parser.specs.ActionOf.{action_of};
ghost use Rattle.csicodec_structs.specs.{Private.Steps.LaysBy, Private.Steps.answered, Private.Steps.done, Next.IsDone, Next.IsRefused, Next.IsTaken, Next.Lays};
ghost use Rattle.csicodec_structs.specs.{Next.refusal, Next.refused};
ghost use Rattle.csicodec_terminal.specs.Terminal.{Terminal};

use crate::lay::{Counts, lay_list, lay_one};
use crate::status::{Status, fault_of};
use crate::structs::{Param, Struct};
use csicodec_base::{CsiParam, ReadError, read_csi, read_csi_within};
use csicodec_parser::CSI;
use csicodec_terminal::terminal_actions;
use std::alloc::Global;

/// What stands at the front of some bytes, or why no sequence does.
#[repr(C)]
#[derive(Clone, Copy)]
pub struct NextSequence {
    /// The number of a `Status`: `Done` where a sequence stands there, else as in `Normalised`.
    pub status: u32,
    /// Of a refusal, the place of the fault; else 0.
    pub at: usize,
    /// Of `Done`, how many bytes the sequence has.
    pub used: usize,
    /// Of `Done`, how many actions it has.
    pub actions: usize,
    /// Of `Done`, how many tokens belong to them.
    pub params: usize,
}

/// Of a sequence that isn't laid.
pub fn refused(why: Status, at: usize) -> NextSequence
    ensures { result ≡ refused why at }
{
    NextSequence {
        status: why.number(),
        at,
        used: 0,
        actions: 0,
        params: 0,
    }
}

pub(crate) fn refusal(error: ReadError) -> NextSequence
    ensures { result ≡ refusal error }
{
    let (why, at) = fault_of(error);
    refused(why, at)
}

/// Of a sequence of so many bytes, with so many actions and tokens.
#[inline(always)]
pub(crate) fn done(used: usize, actions: usize, params: usize) -> NextSequence
    ensures { result ≡ done used actions params }
{
    NextSequence {
        status: Status::Done.number(),
        at: 0,
        used,
        actions,
        params,
    }
}

/// Of a sequence of so many bytes, whose actions were put, unless memory ran out.
#[inline(always)]
fn answered(used: usize, laid: Option<Counts>) -> NextSequence
    ensures { result ≡ answered used laid }
{
    match laid {
        Some(count) => done(used, count.actions, count.params),
        None => refused(Status::Memory, 0),
    }
}

/// Puts the actions of the sequence at the front, however many tokens it has: they take memory here.
#[cold]
#[inline(never)]
#[tactic(auto, using(crate::proofs::Fronts::front_answer))]
pub(crate) fn next_long(
    alloc: Global,
    bytes: &[u8],
    actions: &mut [Struct],
    params: &mut [Param],
) -> NextSequence
    ensures { IsDone bytes.now actions.old actions.new params.old params.new result
        ⊎ IsRefused bytes.now actions.old actions.new params.old params.new result }
{
    match read_csi(alloc, bytes) {
        Ok(read) => {
            let used = bytes.len() - read.rest.len();
            let laid = lay_list(alloc, &read.params, read.control, actions, params);
            answered(used, laid)
        }
        Err(error) => refusal(error),
    }
}

/// Puts the actions of the sequence at the front, whose tokens are read into a room of 32, or into memory.
#[inline(never)]
#[tactic(auto, using(crate::proofs::Fronts::front_answer))]
pub(crate) fn lay_within(
    alloc: Global,
    bytes: &[u8],
    actions: &mut [Struct],
    params: &mut [Param],
) -> NextSequence
    ensures { IsDone bytes.now actions.old actions.new params.old params.new result
        ⊎ IsRefused bytes.now actions.old actions.new params.old params.new result }
{
    let mut room = [CsiParam::Integer(0); 32];
    let read = match read_csi_within(&mut room, bytes) {
        Ok(read) => read,
        Err(ReadError::Memory) => return next_long(alloc, bytes, actions, params),
        Err(error) => return refusal(error),
    };
    let used = bytes.len() - read.rest.len();
    let list = &room[..read.count];
    answered(used, lay_list(alloc, list, read.control, actions, params))
}

/// Puts these actions and their tokens.
fn lay_all(all: &[CSI], actions: &mut [Struct], params: &mut [Param]) -> Option<Counts>
    ensures { IfSome result (λ count.
        Lays actions.old actions.new params.old params.new count (map action_of all.now)) }
{
    let mut count = Counts {
        actions: 0,
        params: 0,
    };
    for action in all {
        count = lay_one(action, count, actions, params)?;
    }
    Some(count)
}

/// Puts the actions that terminals take this list for, and their tokens.
fn lay_taken(
    alloc: Global,
    list: &[CsiParam],
    control: char,
    actions: &mut [Struct],
    params: &mut [Param],
) -> Option<Counts>
    ensures { IfSome result (LaysBy Terminal list.now control actions.old actions.new params.old params.new) }
{
    let all = terminal_actions(alloc, list, false, control).ok()?;
    lay_all(&all, actions, params)
}

/// Puts the actions that terminals take the sequence at the front for, and their tokens, as many as there is room for.
#[tactic(auto, using(crate::proofs::Fronts::front_taken))]
pub fn lay_as_terminals(
    alloc: Global,
    bytes: &[u8],
    actions: &mut [Struct],
    params: &mut [Param],
) -> NextSequence
    ensures { IsTaken Terminal bytes.now actions.old actions.new params.old params.new result
        ⊎ IsRefused bytes.now actions.old actions.new params.old params.new result }
{
    match read_csi(alloc, bytes) {
        Ok(read) => {
            let used = bytes.len() - read.rest.len();
            let laid = lay_taken(alloc, &read.params, read.control, actions, params);
            answered(used, laid)
        }
        Err(error) => refusal(error),
    }
}
