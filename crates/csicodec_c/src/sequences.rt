//! Sequences and their actions, which are structs, and the row that reads the list of an unknown one.
ghost use Rattle.std.specs.Prelude.{◌≡◌, ◌⊎◌, ◌≤◌, length};
ghost use Rattle.csicodec_events.specs.Events.{without_controls};
ghost use Rattle.csicodec_structs.specs.Encode.{IsJudged, IsUnjudged, IsDone as IsEncoded, IsRefused as RefusesToEncode};
ghost use Rattle.csicodec_structs.specs.{Next.IsTaken, Next.refused, Next.IsDone as IsLaid, Next.IsRefused as RefusesToLay, Normalise.IsDone as IsNormalised};
ghost use Rattle.csicodec_structs.specs.{Normalise.IsRefused as RefusesToNormalise};
ghost use Rattle.csicodec_terminal.specs.Terminal.{Terminal};
ghost use Rattle.csicodec_c.specs.Recognised.{IsKnown, IsUnknown, recognised};
ghost use Rattle.csicodec_structs.specs.declared.status.Status.TheVariants as status;

use csicodec_base::CsiParam;
use csicodec_events::append_read;
use csicodec_sequences::{KnownSequence, LONGEST, MOST};
use csicodec_structs::{
    Encoded, Judged, NextSequence, Normalised, Param, Status, Struct, fill, judge,
    lay_as_terminals, lay_front, put_normal_form, put_texts, put_unknown, unlaid,
};
use std::alloc::Global;

/// Puts the normal form of the bytes, where it fits.
#[unsafe(no_mangle)]
pub extern "C" fn csicodec_normalise(alloc: Global, bytes: &[u8], out: &mut [u8]) -> Normalised
    ensures { IsNormalised bytes.now out.old out.new result
        ⊎ RefusesToNormalise bytes.now out.old out.new result }
{
    put_normal_form(alloc, bytes, out)
}

/// Puts the actions of the sequence at the front, and their tokens, as many as there is room for.
#[unsafe(no_mangle)]
pub extern "C" fn csicodec_next(
    alloc: Global,
    bytes: &[u8],
    actions: &mut [Struct],
    params: &mut [Param],
) -> NextSequence
    ensures { IsLaid bytes.now actions.old actions.new params.old params.new result
        ⊎ RefusesToLay bytes.now actions.old actions.new params.old params.new result }
{
    lay_front(alloc, bytes, actions, params)
}

/// Puts the actions that terminals take the sequence at the front for, and their tokens, as many as there is room for. Controls are passed
/// over.
#[unsafe(no_mangle)]
pub extern "C" fn csicodec_terminal_actions(
    alloc: Global,
    bytes: &[u8],
    actions: &mut [Struct],
    params: &mut [Param],
) -> NextSequence
    ensures { (IsTaken Terminal (without_controls bytes.now) actions.old actions.new params.old params.new result
        ⊎ RefusesToLay (without_controls bytes.now) actions.old actions.new params.old params.new result)
        ⊎ (result ≡ refused status.Memory 0) }
{
    let mut read = Vec::new(alloc);
    match append_read(bytes, &mut read) {
        Ok(()) => lay_as_terminals(alloc, &read, actions, params),
        Err(_) => unlaid(Status::Memory, 0),
    }
}

/// Puts the texts of the actions that the structs stand for, where they fit.
#[unsafe(no_mangle)]
pub extern "C" fn csicodec_encode(
    alloc: Global,
    actions: &[Struct],
    params: &[Param],
    out: &mut [u8],
) -> Encoded
    ensures { IsEncoded actions.now params.now out.old out.new result
        ⊎ RefusesToEncode actions.now params.now out.old out.new result }
{
    put_texts(alloc, actions, params, out)
}

/// Whether the text of the action that the struct stands for is read as this one action.
#[unsafe(no_mangle)]
pub extern "C" fn csicodec_is_canonical(alloc: Global, given: &Struct, params: &[Param]) -> Judged
    ensures { IsJudged given.now params.now result ⊎ IsUnjudged given.now params.now result }
{
    judge(alloc, given, params)
}

/// Which row of the table reads a list, and the values. It has 56 bytes, and no gaps.
#[repr(C)]
#[derive(Clone, Copy)]
pub struct Recognised {
    /// The kind of the row, above 10000; 0 where no row reads the list.
    pub kind: u32,
    /// How many values there are.
    pub count: u32,
    /// The values, and 0 behind them.
    pub values: [u32; MOST],
}

/// A row's kind and its values.
#[tactic(auto, using(crate::proofs::Unknown::padded))]
fn answer(kind: u32, numbers: &[u32]) -> Recognised
    requires { length numbers.now ≤ 12 }
    ensures { result ≡ recognised kind numbers.now }
{
    let mut values = [0; MOST];
    fill(&mut values, numbers);
    Recognised {
        kind,
        count: numbers.len() as u32,
        values,
    }
}

/// Which row of the table reads the list of the unknown action that a struct stands for, and the values. It takes no memory.
#[unsafe(no_mangle)]
pub extern "C" fn csicodec_known(given: &Struct, params: &[Param]) -> Recognised
    ensures { IsKnown given.now params.now result ⊎ IsUnknown given.now params.now result }
{
    let mut room = [CsiParam::P(0); LONGEST];
    let Some(control) = put_unknown(given, params, &mut room) else {
        return answer(0, &[]);
    };
    match KnownSequence::read(&room[..given.len], control) {
        Some(known) => answer(known.form().kind, known.values()),
        None => answer(0, &[]),
    }
}
