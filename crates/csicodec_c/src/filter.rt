//! A step of a filter whose state the caller keeps, and streams and actions in fewer bytes.
ghost use Rattle.std.specs.Prelude.{◌≡◌, ◌⊎◌, ◌↔◌, Some};
ghost use Rattle.csicodec_spans.specs.declared.table.Mode.{Mode};
ghost use Rattle.csicodec_c.specs.{Filter.IsCompact, Filter.Steps, Filter.mode_number, Filter.refused, Strip.AnswersBy, Strip.bit};
ghost use Rattle.csicodec_compact.specs.{Compacts.Compacts, Runs.CompactsAll};
ghost use Rattle.csicodec_streams.specs.Decoding.{NormalisesTo};
ghost use Rattle.csicodec_structs.specs.Encode.{IsRefused as RefusesActions};
ghost use Rattle.csicodec_spans.specs.declared.table.Mode.TheVariants as mode;

use crate::strip::{Stripped, bit_at, put, refused as nothing};
use csicodec::{NormalForm, Rewrite, append_spans};
use csicodec_compact::{Compact, compact_bytes, encode_compact};
use csicodec_spans::{LIMIT, Mode};
use csicodec_structs::{
    Encoded, Param, Status, Struct, actions_of, fill, put_text, refused as unencoded,
};
use std::alloc::Global;

/// How a step of a filter ended.
#[repr(C)]
#[derive(Clone, Copy)]
pub struct Filtered {
    /// The number of a `Status`: `Done`, `Memory`, or `BadState` where the mode is none, or the limit is 0.
    pub status: u32,
    /// Of `Done`, the mode behind the bytes that were used.
    pub mode: u32,
    /// Of `Done`, how many bytes were used; those behind them are to come again ahead of the next ones.
    pub used: usize,
    /// Of `Done`, the length of the text.
    pub needed: usize,
}

fn refused(why: Status) -> Filtered
    ensures { result ≡ refused why }
{
    Filtered {
        status: why.number(),
        mode: 0,
        used: 0,
        needed: 0,
    }
}

/// The mode of a number.
pub(crate) fn mode_at(number: u32) -> Option<Mode>
    ensures { (mode : Mode) → (result ≡ Some mode) ↔ (number ≡ mode_number mode) }
{
    match number {
        0 => Some(Mode::Text),
        1 => Some(Mode::Osc),
        2 => Some(Mode::Dcs),
        3 => Some(Mode::Str),
        4 => Some(Mode::BadCsi),
        5 => Some(Mode::BadEsc),
        _ => None,
    }
}

pub(crate) fn number_of(mode: Mode) -> u32
    ensures { result ≡ mode_number mode }
{
    mode as u32
}

/// Puts what the spans of the bytes that are sure become, where it fits.
fn step<T: Rewrite + Drop>(
    alloc: Global,
    rewrite: T,
    mode: u32,
    limit: usize,
    bytes: &[u8],
    out: &mut [u8],
) -> Filtered
    ensures { Steps (T.writes rewrite) mode limit bytes.now out.old out.new result }
{
    let Some(mode) = mode_at(mode) else {
        return refused(Status::BadState);
    };
    if limit == 0 {
        return refused(Status::BadState);
    }
    let mut rewrite = rewrite;
    let mut params = Vec::new(alloc);
    let mut text = Vec::new(alloc);
    match append_spans(&mut rewrite, &mut params, limit, mode, bytes, &mut text) {
        Ok((used, mode)) => {
            fill(out, text.as_slice());
            Filtered {
                status: Status::Done.number(),
                mode: number_of(mode),
                used,
                needed: text.len(),
            }
        }
        Err(_) => refused(Status::Memory),
    }
}

/// Puts what the spans of the bytes that are sure become, where it fits: each control sequence in its normal form, and every
/// other byte as it is.
#[unsafe(no_mangle)]
pub extern "C" fn csicodec_filter(
    alloc: Global,
    mode: u32,
    limit: usize,
    bytes: &[u8],
    out: &mut [u8],
) -> Filtered
    ensures { Steps NormalisesTo mode limit bytes.now out.old out.new result }
{
    step(alloc, NormalForm::new(alloc), mode, limit, bytes, out)
}

/// Puts what the spans of the bytes that are sure become, where it fits: each control sequence in the shortest of its spellings that
/// is found, and every other byte as it is.
#[unsafe(no_mangle)]
pub extern "C" fn csicodec_compact(
    alloc: Global,
    mode: u32,
    limit: usize,
    bytes: &[u8],
    out: &mut [u8],
) -> Filtered
    ensures { Steps Compacts mode limit bytes.now out.old out.new result }
{
    step(alloc, Compact::new(alloc), mode, limit, bytes, out)
}

/// As [`csicodec_compact`], with semicolons in the colours of the character and the ground, also where that is no shorter.
#[unsafe(no_mangle)]
pub extern "C" fn csicodec_compact_semicolons(
    alloc: Global,
    mode: u32,
    limit: usize,
    bytes: &[u8],
    out: &mut [u8],
) -> Filtered
    ensures { Steps Compacts mode limit bytes.now out.old out.new result }
{
    let rule = Compact::with_semicolons(alloc);
    step(alloc, rule, mode, limit, bytes, out)
}

/// Puts a stream that is no longer in the place of one that is all there, where it fits: control sequences side by side may go into one.
#[unsafe(no_mangle)]
pub extern "C" fn csicodec_compact_whole(
    alloc: Global,
    semicolons: u32,
    bytes: &[u8],
    out: &mut [u8],
) -> Stripped
    ensures { AnswersBy (λ asked. semicolons ≡ bit asked)
        (λ _. CompactsAll LIMIT mode.Text bytes.now) out.old out.new result }
{
    let Some(semicolons) = bit_at(semicolons) else {
        return nothing(Status::BadState);
    };
    let rule = if semicolons {
        Compact::with_semicolons(alloc)
    } else {
        Compact::new(alloc)
    };
    let Ok(text) = compact_bytes(alloc, LIMIT, rule, bytes) else {
        return nothing(Status::Memory);
    };
    put(text.as_slice(), out)
}

/// Puts a text of the actions that the structs stand for, where it fits: no longer than that of [`csicodec_encode`](crate::csicodec_encode).
#[unsafe(no_mangle)]
pub extern "C" fn csicodec_encode_compact(
    alloc: Global,
    actions: &[Struct],
    params: &[Param],
    out: &mut [u8],
) -> Encoded
    ensures { IsCompact actions.now params.now out.old out.new result
        ⊎ RefusesActions actions.now params.now out.old out.new result }
{
    match actions_of(alloc, actions, params) {
        Ok(Ok(actions)) => match encode_compact(alloc, actions.as_slice()) {
            Ok(text) => put_text(text.as_slice(), out),
            Err(_) => unencoded(Status::Memory, 0),
        },
        Ok(Err(at)) => unencoded(Status::NoAction, at),
        Err(_) => unencoded(Status::Memory, 0),
    }
}
