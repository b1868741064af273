//! What is left of untrusted text.
ghost use Rattle.std.specs.Prelude.{◌≡◌, ◌↔◌, Bool, Some, IfSome, IfNone, length};
ghost use Rattle.csicodec_structs.specs.Room.{Fills};
ghost use Rattle.csicodec_looks.specs.declared.xterm.Depth.{Depth};
ghost use Rattle.csicodec_clean.specs.{declared.styles.Passing.Passing, Styled.without_links};
ghost use Rattle.csicodec_c.specs.Strip.{Answers, AnswersBy, IsCleaned, IsPassing, IsStripped, bit, depth_number, refused, stripped};
ghost use Rattle.csicodec_looks.specs.declared.xterm.Depth.TheVariants as depths;

use csicodec_clean::{Depth, Passing, clean_in, clean_with, strip};
use csicodec_structs::{Status, fill};
use std::alloc::Global;

/// How much is left of a text.
#[repr(C)]
#[derive(Clone, Copy)]
pub struct Stripped {
    /// The number of a `Status`: `Done`, `Memory`, or `BadState` where a number stands for nothing.
    pub status: u32,
    /// Of `Done`, the length of what is left.
    pub needed: usize,
}

pub(crate) fn refused(why: Status) -> Stripped
    ensures { result ≡ refused why }
{
    Stripped {
        status: why.number(),
        needed: 0,
    }
}

/// Puts what is left, where it fits.
pub(crate) fn put(text: &[u8], out: &mut [u8]) -> Stripped
    ensures tells { result ≡ stripped (length text.now) }
    ensures fills { Fills out.old out.new text.now }
{
    fill(out, text);
    Stripped {
        status: Status::Done.number(),
        needed: text.len(),
    }
}

/// The truth of a number.
pub(crate) fn bit_at(number: u32) -> Option<bool>
    ensures { (b : Bool) → (result ≡ Some b) ↔ (number ≡ bit b) }
{
    match number {
        0 => Some(false),
        1 => Some(true),
        _ => None,
    }
}

/// The depth of a number.
pub(crate) fn depth_at(number: u32) -> Option<Depth>
    ensures { (depth : Depth) → (result ≡ Some depth) ↔ (number ≡ depth_number depth) }
{
    match number {
        0 => Some(Depth::Full),
        1 => Some(Depth::Palette),
        2 => Some(Depth::Ansi),
        _ => None,
    }
}

/// Puts the plain text of the bytes, where it fits.
#[unsafe(no_mangle)]
pub extern "C" fn csicodec_strip(alloc: Global, bytes: &[u8], out: &mut [u8]) -> Stripped
    ensures { Answers (IsStripped bytes.now) ⊥ out.old out.new result }
{
    let Ok(text) = strip(alloc, bytes) else {
        return refused(Status::Memory);
    };
    put(text.as_slice(), out)
}

/// Puts the text of the bytes with its styles, where it fits.
#[unsafe(no_mangle)]
pub extern "C" fn csicodec_clean(alloc: Global, bytes: &[u8], out: &mut [u8]) -> Stripped
    ensures { Answers (IsCleaned bytes.now (without_links depths.Full)) ⊥ out.old out.new result }
{
    let Ok(text) = clean_in(alloc, Depth::Full, bytes) else {
        return refused(Status::Memory);
    };
    put(text.as_slice(), out)
}

/// What passes, by its numbers.
fn passing_at(depth: u32, links: u32) -> Option<Passing>
    ensures some { IfSome result (λ passing. IsPassing depth links passing) }
    ensures none { IfNone result ((passing : Passing) → IsPassing depth links passing → ⊥) }
{
    Some(Passing {
        depth: depth_at(depth)?,
        links: bit_at(links)?,
        restores: true,
    })
}

/// Puts the text of the bytes with its styles, in the colours of a depth, and with its links where they are wanted, where it fits.
#[unsafe(no_mangle)]
pub extern "C" fn csicodec_clean_with(
    alloc: Global,
    depth: u32,
    links: u32,
    bytes: &[u8],
    out: &mut [u8],
) -> Stripped
    ensures { AnswersBy (IsPassing depth links) (IsCleaned bytes.now) out.old out.new result }
{
    let Some(passing) = passing_at(depth, links) else {
        return refused(Status::BadState);
    };
    let Ok(text) = clean_with(alloc, passing, bytes) else {
        return refused(Status::Memory);
    };
    put(text.as_slice(), out)
}
