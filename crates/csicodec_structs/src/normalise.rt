//! The normal form of some bytes.
ghost use Rattle.std.specs.Prelude.{◌≡◌, ◌⊎◌, ◌∷◌, [], false, IfSome};
ghost use Rattle.csicodec_parser.specs.{ActionOf.action_of, declared.parser.ActionRef.TheVariants.Small, Segments.Actions};
ghost use Rattle.csicodec_streams.specs.Decoding.{NormalisesTo};
ghost use Rattle.csicodec_structs.specs.{Normalise.IsDone, Normalise.IsRefused, Normalise.refusal, Private.Steps.ended};

use crate::encode::short_text;
use crate::room::fill;
use crate::status::{Status, fault_of};
use csicodec_base::{CsiParam, ReadError, Text, read_csi_within};
use csicodec_parser::laws::segmentation;
use csicodec_parser::{ActionRef, CSI};
use csicodec_streams::normal_form;
use csicodec_transform::DecodeError;
use std::alloc::Global;

/// Of so many bytes it is tried whether they are one sequence with one action.
const SHORT: usize = 32;

/// How a normalisation ended, or why the bytes are refused.
#[repr(C)]
#[derive(Clone, Copy)]
pub struct Normalised {
    /// The number of a `Status`: `Done`, `NotCsi`, `BadByte`, `NumberTooLarge`, `Truncated` or `Memory`.
    pub status: u32,
    /// Of a refusal, where the sequence begins that is refused.
    pub start: usize,
    /// Of a refusal, the place of the fault, counted from there.
    pub at: usize,
    /// Of `Done`, the length of the normal form.
    pub needed: usize,
}

fn ended(why: Status, start: usize, at: usize, needed: usize) -> Normalised
    ensures { result ≡ ended why start at needed }
{
    Normalised {
        status: why.number(),
        start,
        at,
        needed,
    }
}

fn refusal(error: DecodeError) -> Normalised
    ensures { result ≡ refusal error }
{
    match error {
        DecodeError::Read {
            error: ReadError::Memory,
            ..
        }
        | DecodeError::Memory => ended(Status::Memory, 0, 0, 0),
        DecodeError::Read { start, error } => {
            let (why, at) = fault_of(error);
            ended(why, start, at, 0)
        }
    }
}

/// The one action of a list, where it has no other and takes no memory.
#[inline(always)]
fn sole_action(alloc: Global, list: &[CsiParam], control: char) -> Option<CSI>
    ensures { IfSome result (λ csi. Actions list.now false control (action_of csi ∷ [])) }
{
    segmentation(list, false, control);
    let mut run = CSI::parse(alloc, list, false, control);
    let Some(ActionRef::Small(action)) = run.next_ref() else {
        return None;
    };
    match run.rest() {
        None => Some(action),
        Some(_) => None,
    }
}

/// The normal form of bytes that are one sequence with one action, where it takes no memory.
#[inline(always)]
fn short_form(alloc: Global, bytes: &[u8]) -> Option<Text>
    ensures { IfSome result (λ text. NormalisesTo bytes.now text) }
{
    if bytes.len() > SHORT {
        return None;
    }
    let mut room = [CsiParam::P(0); 16];
    let Ok(read) = read_csi_within(&mut room, bytes) else {
        return None;
    };
    if read.rest.len() > 0 {
        return None;
    }
    let action = sole_action(alloc, &room[..read.count], read.control)?;
    let text = short_text(&action)?;
    Some(text)
}

/// Puts the normal form of the bytes, where it fits.
pub fn put_normal_form(alloc: Global, bytes: &[u8], out: &mut [u8]) -> Normalised
    ensures { IsDone bytes.now out.old out.new result ⊎ IsRefused bytes.now out.old out.new result }
{
    if bytes.is_empty() {
        return ended(Status::Done, 0, 0, 0);
    }
    if let Some(text) = short_form(alloc, bytes) {
        fill(out, text.as_bytes());
        return ended(Status::Done, 0, 0, text.as_bytes().len());
    }
    match normal_form(alloc, bytes) {
        Ok(all) => {
            fill(out, all.as_slice());
            ended(Status::Done, 0, 0, all.len())
        }
        Err(error) => refusal(error),
    }
}
