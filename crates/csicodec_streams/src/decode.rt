//! Bytes to actions.
ghost use Rattle.std.specs.Prelude.{◌≡◌, ◌++◌, ◌≤◌, List, Option, [], map, false, length, OnErr, OnOk, IfOk, IfErr};
ghost use Rattle.csicodec_transform.specs.declared.error.DecodeError.TheVariants.{Memory};
ghost use Rattle.csicodec_actions.specs.{Actions.Action, Table.texts};
ghost use Rattle.csicodec_parser.specs.{ActionOf.action_of, Segments.Actions};
ghost use Rattle.csicodec_streams.specs.{Decoding.Decodes, Decoding.NormalisesTo, Private.Steps.DecodesFront, Private.Steps.StopsAt, Private.Steps.styles};
ghost use Rattle.csicodec_streams.specs.{Refusals.RefusesDecode, Refusals.refusal_of};

use crate::color::read_colors;
use csicodec_base::{CsiParam, ReadError, Sgr, read_csi_into, read_csi_within};
use csicodec_parser::{CSI, Sink, Texts, Tokens, list_into};
use csicodec_transform::DecodeError;
use std::alloc::{AllocError, Global};

/// Lists of at most so many tokens are read onto the stack, and longer ones into memory.
const SHORT: usize = 32;

/// The refusal of the sequence that begins at `start`.
pub(crate) fn refusal_at(start: usize, error: ReadError) -> DecodeError
    ensures { result ≡ refusal_of start error }
{
    match error {
        ReadError::Memory => DecodeError::Memory,
        error => DecodeError::Read { start, error },
    }
}

/// What stands behind the sequences at the front of some bytes.
#[derive(Clone, Copy)]
pub(crate) struct Behind<'a> {
    /// The bytes behind them.
    pub(crate) rest: &'a [u8],
    /// Why these begin with no sequence; `None` where there are no more.
    pub(crate) error: Option<ReadError>,
}

/// The actions of a list that has more tokens than most.
#[cold]
#[inline(never)]
fn long_into<S: Sink>(
    alloc: Global,
    params: &[CsiParam],
    parameters_truncated: bool,
    control: char,
    sink: &mut S,
) -> Result<(), AllocError>
    ensures { OnOk result ((all : List Action) × Actions params.now parameters_truncated control all
        × ((before : List Action) → S.holds sink.old before → S.holds sink.new (before ++ all))) }
{
    let mut tokens = Tokens::new(params);
    list_into(alloc, &mut tokens, parameters_truncated, control, sink)
}

/// One attribute or two, into a sink.
#[inline(always)]
fn styles_into<S: Sink>(first: Sgr, second: Option<Sgr>, sink: &mut S) -> Result<(), AllocError>
    ensures { OnOk result ((before : List Action) → S.holds sink.old before
        → S.holds sink.new (before ++ styles first second)) }
{
    sink.take(CSI::Sgr(first))?;
    match second {
        Some(sgr) => sink.take(CSI::Sgr(sgr)),
        None => Ok(()),
    }
}

/// The actions of the sequences at the front of the bytes, one after the other, into a sink.
#[inline(always)]
fn front_into<'a, S: Sink>(
    alloc: Global,
    params: &mut Vec<CsiParam>,
    bytes: &'a [u8],
    parameters_truncated: bool,
    sink: &mut S,
) -> Result<Behind<'a>, AllocError>
    ensures front { IfOk result (λ behind. (actions : List Action)
        × DecodesFront bytes.now parameters_truncated behind.rest.now actions
        × ((before : List Action) → S.holds sink.old before →
        S.holds sink.new (before ++ actions))) }
    ensures behind { IfOk result (λ behind. StopsAt behind.rest.now behind.error) }
    ensures within { IfOk result (λ behind. length behind.rest.now ≤ length bytes.now) }
    ensures err { OnErr result (RefusesDecode bytes.now parameters_truncated Memory) }
{
    let mut room = [CsiParam::P(0); SHORT];
    let mut rest = bytes;
    while !rest.is_empty() {
        if let Some((first, second, behind)) = read_colors(rest) {
            styles_into(first, second, sink)?;
            rest = behind;
            continue;
        }
        if let Ok(read) = read_csi_within(&mut room, rest) {
            let (list, _) = room.split_at(read.count);
            let mut tokens = Tokens::new(list);
            list_into(alloc, &mut tokens, parameters_truncated, read.control, sink)?;
            rest = read.rest;
            continue;
        }
        match read_csi_into(params, rest) {
            Ok(tail) => {
                long_into(alloc, params, parameters_truncated, tail.control, sink)?;
                rest = tail.rest;
            }
            Err(error) => {
                return Ok(Behind {
                    rest,
                    error: Some(error),
                });
            }
        }
    }
    Ok(Behind { rest, error: None })
}

/// The actions of all sequences of the bytes, into a sink that holds none. One buffer is kept for their parameters.
fn decode_into<S: Sink>(
    alloc: Global,
    bytes: &[u8],
    parameters_truncated: bool,
    sink: &mut S,
) -> Result<(), DecodeError>
    requires { S.holds sink.old [] }
    ensures done { OnOk result ((actions : List Action)
        × Decodes bytes.now parameters_truncated actions × S.holds sink.new actions) }
    ensures refused { IfErr result (RefusesDecode bytes.now parameters_truncated) }
{
    let mut params = Vec::new(alloc);
    let behind = front_into(alloc, &mut params, bytes, parameters_truncated, sink)?;
    match behind.error {
        None => Ok(()),
        Some(error) => Err(refusal_at(bytes.len() - behind.rest.len(), error)),
    }
}

/// All actions of the bytes, which are sequences one after the other, in order; each is parsed with the flag.
/// Empty bytes have none.
///
/// `DecodeError::Read` says where the first fault is, and which; `DecodeError::Memory`, that memory ran out. Of the two, the one
/// that is met first, from the front, is returned.
///
/// ```text
/// decode_all(alloc, b"\x1b[1;3m\x1b[2A", false)?     // Intensity(Bold), Italic(true), Up(2)
/// decode_all(alloc, b"\x1b[m\x1b[1", false)          // Err(Read { start: 3, error: Truncated { at: 3 } })
/// ```
pub fn decode_all(
    alloc: Global,
    bytes: &[u8],
    parameters_truncated: bool,
) -> Result<Vec<CSI>, DecodeError>
    // What is answered are the actions of the bytes.
    ensures found { IfOk result (λ all.
        Decodes bytes.now parameters_truncated (map action_of all.items)) }
    // Bytes that have actions are refused only where memory runs out.
    ensures only { (actions : List Action) → Decodes bytes.now parameters_truncated actions →
        IfErr result (λ e. e ≡ Memory) }
    // A refusal is the fault of the bytes, at its place.
    ensures refused { IfErr result (RefusesDecode bytes.now parameters_truncated) }
{
    let mut all = Vec::new(alloc);
    decode_into(alloc, bytes, parameters_truncated, &mut all)?;
    Ok(all)
}

/// The normal form of the bytes: the joined texts of all their actions, each parsed with `parameters_truncated` false. It
/// refuses what [`decode_all`] refuses.
///
/// ```text
/// normal_form(alloc, b"\x1b[01;3m")?      // b"\x1b[1m\x1b[3m"
/// ```
pub fn normal_form(alloc: Global, bytes: &[u8]) -> Result<Vec<u8>, DecodeError>
    ensures found { IfOk result (λ all. NormalisesTo bytes.now all.items) }
    ensures refused { IfErr result (RefusesDecode bytes.now false) }
{
    let mut texts = Texts::new(alloc);
    decode_into(alloc, bytes, false, &mut texts)?;
    Ok(texts.bytes.into_vec())
}
