//! Untrusted text as it comes, by a state that the caller keeps.
ghost use Rattle.std.specs.Prelude.{◌≡◌, ◌↔◌, ◌≤◌, ◌⊎◌, Bool, Some, length, IfSome, IfNone};
ghost use Rattle.csicodec_clean.specs.{declared.reading.Reading.Reading, declared.step.Pause.Pause};
ghost use Rattle.csicodec_looks.specs.declared.sets.Set.{Set};
ghost use Rattle.csicodec_c.specs.Step.{IsBadDepth, IsBadState, IsCleanStep, IsEnd, IsState, IsStripStep, numbers, reading_number, refused, set_number};
ghost use Rattle.csicodec_c.specs.Strip.{IsRefused, bit, refused as nothing};

use crate::filter::{mode_at, number_of};
use crate::strip::{Stripped, bit_at, depth_at, put, refused as nothing};
use csicodec_clean::{Pause, Reading, Sets, append_ending, clean_step, strip_step};
use csicodec_looks::Set;
use csicodec_structs::{Status, fill};
use std::alloc::Global;

/// What a stream leaves open between two steps. At its beginning each number is 0.
#[repr(C)]
#[derive(Clone, Copy)]
pub struct Cleaning {
    /// What is open: the mode of a filter.
    pub mode: u32,
    /// How text is read: 1 where a title is open, of tmux and screen, and more where graphic sets came.
    pub titled: u32,
    /// 1 where a style is open.
    pub styled: u32,
    /// How many of the bytes that come again, at their front, are the beginning of a character: 0 to 3.
    pub held: u32,
}

/// How a step ended.
#[repr(C)]
#[derive(Clone, Copy)]
pub struct Cleaned {
    /// The number of a `Status`: `Done`, `Memory`, or `BadState` where the state is none, or the depth.
    pub status: u32,
    /// Of `Done`, the state behind the bytes that were used.
    pub state: Cleaning,
    /// Of `Done`, how many bytes were used; those behind them are to come again ahead of the next ones.
    pub used: usize,
    /// Of `Done`, the length of the text.
    pub needed: usize,
}

fn refused(why: Status) -> Cleaned
    ensures { result ≡ refused why }
{
    let state = Cleaning {
        mode: 0,
        titled: 0,
        styled: 0,
        held: 0,
    };
    Cleaned {
        status: why.number(),
        state,
        used: 0,
        needed: 0,
    }
}

/// The graphic set of a number.
fn set_at(number: u32) -> Option<Set>
    ensures { (set : Set) → (result ≡ Some set) ↔ (number ≡ set_number set) }
{
    match number {
        0 => Some(Set::Ascii),
        1 => Some(Set::Graphics),
        2 => Some(Set::British),
        _ => None,
    }
}

/// How text is read, by its number.
fn reading_at(number: u32) -> Option<Reading>
    ensures some { IfSome result (λ reading. number ≡ reading_number reading) }
    ensures none { IfNone result ((reading : Reading) → number ≡ reading_number reading → ⊥) }
{
    let titled = bit_at(number % 2)?;
    let shifted = bit_at(number / 2 % 2)?;
    let g0 = set_at(number / 4 % 4)?;
    let g1 = set_at(number / 16)?;
    let sets = Sets { g0, g1, shifted };
    Some(Reading { titled, sets })
}

fn reading_number(reading: Reading) -> u32
    ensures { result ≡ reading_number reading }
{
    let Reading { titled, sets } = reading;
    u32::from(titled)
        + (2 * u32::from(sets.shifted) + (4 * (sets.g0 as u32) + 16 * (sets.g1 as u32)))
}

/// The state of some numbers, where so many bytes come.
fn pause_at(state: &Cleaning, len: usize) -> Option<Pause>
    ensures some { IfSome result (λ pause. IsState state.now len pause) }
    ensures none { IfNone result ((pause : Pause) → IsState state.now len pause → ⊥) }
{
    let held = state.held as usize;
    if held > 3 || held > len {
        return None;
    }
    Some(Pause {
        mode: mode_at(state.mode)?,
        reading: reading_at(state.titled)?,
        styled: bit_at(state.styled)?,
        held,
    })
}

fn numbers(pause: Pause) -> Cleaning
    requires { pause.held ≤ 3 }
    ensures { result ≡ numbers pause }
{
    Cleaning {
        mode: number_of(pause.mode),
        titled: reading_number(pause.reading),
        styled: u32::from(pause.styled),
        held: pause.held as u32,
    }
}

/// Puts what is left of the bytes that are sure, as plain text, where it fits.
#[unsafe(no_mangle)]
pub extern "C" fn csicodec_strip_step(
    alloc: Global,
    state: &Cleaning,
    bytes: &[u8],
    out: &mut [u8],
) -> Cleaned
    ensures { IsStripStep state.now bytes.now out.old out.new result
        ⊎ IsRefused refused (IsBadState state.now (length bytes.now)) out.old out.new result }
{
    let Some(pause) = pause_at(state, bytes.len()) else {
        return refused(Status::BadState);
    };
    let mut text = Vec::new(alloc);
    let Ok((used, after)) = strip_step(alloc, pause, bytes, &mut text) else {
        return refused(Status::Memory);
    };
    fill(out, text.as_slice());
    Cleaned {
        status: Status::Done.number(),
        state: numbers(after),
        used,
        needed: text.len(),
    }
}

/// Puts what is left of the bytes that are sure, with the styles that stay, in the colours of a depth, where it fits.
#[unsafe(no_mangle)]
pub extern "C" fn csicodec_clean_step(
    alloc: Global,
    depth: u32,
    state: &Cleaning,
    bytes: &[u8],
    out: &mut [u8],
) -> Cleaned
    ensures { IsCleanStep depth state.now bytes.now out.old out.new result
        ⊎ IsRefused refused (IsBadDepth depth ⊎ IsBadState state.now (length bytes.now)) out.old out.new result }
{
    let (Some(depth), Some(pause)) = (depth_at(depth), pause_at(state, bytes.len())) else {
        return refused(Status::BadState);
    };
    let mut text = Vec::new(alloc);
    let Ok((used, after)) = clean_step(alloc, depth, pause, bytes, &mut text) else {
        return refused(Status::Memory);
    };
    fill(out, text.as_slice());
    Cleaned {
        status: Status::Done.number(),
        state: numbers(after),
        used,
        needed: text.len(),
    }
}

/// Puts what ends a stream behind its last step, where it fits: `bytes` are those that no step used.
#[unsafe(no_mangle)]
pub extern "C" fn csicodec_clean_end(
    alloc: Global,
    state: &Cleaning,
    bytes: &[u8],
    out: &mut [u8],
) -> Stripped
    ensures { IsEnd state.now bytes.now out.old out.new result
        ⊎ IsRefused nothing (IsBadState state.now (length bytes.now)) out.old out.new result }
{
    let Some(pause) = pause_at(state, bytes.len()) else {
        return nothing(Status::BadState);
    };
    let mut text = Vec::new(alloc);
    let Ok(()) = append_ending(pause, bytes, &mut text) else {
        return nothing(Status::Memory);
    };
    put(text.as_slice(), out)
}
