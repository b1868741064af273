//! Bytes to bytes: sequences one after the other to their normal form, from a reader to a writer.
ghost use Rattle.std.specs.Prelude.{◌≡◌, ◌≢◌, ◌++◌, ◌<◌, ◌≤◌, ℕ, List, Option, [], false, length, take, OnErr, OnOk, IfOk, IfErr, IfSome};
ghost use Rattle.std.specs.Io.KnownBytes.{Appends, Consumes, IsAtEnd};
ghost use Rattle.csicodec_transform.specs.{declared.error.DecodeError.TheVariants.Memory, Known.AreKnown};
ghost use Rattle.csicodec_actions.specs.{Actions.Action, Table.text, Table.texts};
ghost use Rattle.csicodec_streams.specs.{Decoding.Decodes, Known.IsNormal, Private.Steps.DecodesFront, Private.Steps.StopsAt, Private.Steps.stays};
ghost use Rattle.csicodec_streams.specs.{Refusals.RefusesDecode, Refusals.RefusesRun};

use crate::color::take_simple;
use crate::decode::{Behind, refusal_at};
use crate::normal::Normal;
use csicodec_base::{CsiParam, ReadError, TextBuffer, read_csi_into};
use csicodec_parser::{Texts, Tokens, list_into};
use csicodec_transform::{
    CHUNK, DecodeError, MOST, Memo, RunError, keep_from, read_out, read_some, write_out,
};
use std::alloc::{AllocError, Global};
use std::io::{Read, Write};

/// Appends the normal form of the sequence in front, if it came before, or is a colour or a position; how many bytes it has, 0 where it is
/// none of these.
#[inline(always)]
fn take_known(memo: &mut Memo<Normal>, bytes: &[u8], out: &mut TextBuffer) -> usize
    requires { AreKnown IsNormal memo.old.slots.items }
    ensures within { result ≤ length bytes.now }
    ensures noted { 0 < result
        → (text : List ℕ) × IsNormal (take result bytes.now) text × (out.new ≡ out.old ++ text) }
    ensures none { result ≡ 0 → out.new ≡ out.old }
    ensures known { AreKnown IsNormal memo.new.slots.items }
{
    let known = memo.recall(bytes, out);
    if known > 0 {
        return known;
    }
    take_simple(memo, bytes, out)
}

/// The texts of all actions of the sequences at the front of the bytes, joined. Sequences that came before are looked up.
#[inline(always)]
fn texts_into<'a>(
    alloc: Global,
    params: &mut Vec<CsiParam>,
    memo: &mut Memo<Normal>,
    bytes: &'a [u8],
    sink: &mut Texts,
) -> Result<Behind<'a>, AllocError>
    requires known { AreKnown IsNormal memo.old.slots.items }
    requires texts { (before : List Action) × (sink.old.bytes ≡ texts before) }
    ensures front { IfOk result (λ behind. (actions : List Action)
        × DecodesFront bytes.now false behind.rest.now actions
        × ((before : List Action) → sink.old.bytes ≡ texts before →
        sink.new.bytes ≡ texts (before ++ actions))) }
    ensures behind { IfOk result (λ behind. StopsAt behind.rest.now behind.error) }
    ensures within { IfOk result (λ behind. length behind.rest.now ≤ length bytes.now) }
    ensures err { OnErr result (RefusesDecode bytes.now false Memory) }
    ensures known { AreKnown IsNormal memo.new.slots.items }
{
    let mut rest = bytes;
    while !rest.is_empty() {
        let known = take_known(memo, rest, &mut sink.bytes);
        if known > 0 {
            rest = &rest[known..];
            continue;
        }
        let before = sink.bytes.as_slice().len();
        match read_csi_into(params, rest) {
            Ok(tail) => {
                let mut tokens = Tokens::new(params);
                list_into(alloc, &mut tokens, false, tail.control, sink)?;
                let len = rest.len() - tail.rest.len();
                let (_, text) = sink.bytes.as_slice().split_at(before);
                memo.keep(rest, len, text);
                rest = tail.rest;
            }
            Err(error) => {
                return Ok(Behind {
                    rest,
                    error: Some(error),
                });
            }
        }
    }
    Ok(Behind { rest, error: None })
}

/// Whether an error stays, whatever follows the bytes that have it.
fn stays(error: ReadError) -> bool
    ensures { result ≡ stays error }
{
    !matches!(error, ReadError::Truncated { .. })
}

/// The error of a run that meets a refused sequence in mid-stream, after so many bytes. The rest of the input is read first: if a
/// read of it fails, that is the error.
#[cold]
#[inline(never)]
fn refused<R: Read>(input: &mut R, count: usize, error: DecodeError) -> RunError
    ensures refused { (given : Option (List ℕ)) (read : List ℕ) →
        Consumes given (R.remaining input.old) read →
        ((more : List ℕ) → RefusesDecode (read ++ more) false error) → RefusesRun given result }
    ensures read_whole { (fault : DecodeError) → result ≡ RunError.Decode fault →
        IsAtEnd (R.remaining input.new) }
{
    match error {
        DecodeError::Read { .. } => match read_out(input, count) {
            Ok(()) => RunError::Decode(error),
            Err(failed) => failed,
        },
        DecodeError::Memory => RunError::Memory,
    }
}

/// The texts of what was read, and of what the reader still has. Bytes are kept until they are decoded. A sequence that isn't whole
/// is tried again only once it is twice as long.
#[inline(never)]
fn stream_into<R: Read>(
    alloc: Global,
    input: &mut R,
    read: Vec<u8>,
    sink: &mut Texts,
) -> Result<(), RunError>
    requires { sink.old.bytes ≡ [] }
    ensures ok { OnOk result ((given : Option (List ℕ)) →
        Consumes given (R.remaining input.old) read.items → IfSome given (λ bytes.
        (actions : List Action) × Decodes bytes false actions × (sink.new.bytes ≡ texts actions))) }
    ensures end { OnOk result (IsAtEnd (R.remaining input.new)) }
    ensures refused { IfErr result (λ e. (given : Option (List ℕ)) →
        Consumes given (R.remaining input.old) read.items → RefusesRun given e) }
    ensures read_whole { IfErr result (λ e. (fault : DecodeError) → e ≡ RunError.Decode fault →
        IsAtEnd (R.remaining input.new)) }
{
    let mut held = read;
    let mut params = Vec::new(alloc);
    let mut memo: Memo<Normal> = Memo::new(alloc);
    let mut chunk = [0u8; CHUNK];
    let (mut start, mut enough) = (0usize, CHUNK);
    'chunks: while start.saturating_add(held.len()) <= MOST {
        let count = read_some(input, &mut chunk, &mut held)?;
        if count > 0 && held.len() < enough {
            continue;
        }
        let Ok(behind) = texts_into(alloc, &mut params, &mut memo, &held, sink) else {
            return Err(RunError::Memory);
        };
        let (used, error) = (held.len() - behind.rest.len(), behind.error);
        let Some(place) = start.checked_add(used) else {
            return Err(RunError::Memory);
        };
        match error {
            None if count == 0 => return Ok(()),
            Some(error) if count == 0 => return Err(RunError::from(refusal_at(place, error))),
            Some(error) if stays(error) => {
                let read = start.saturating_add(held.len());
                return Err(refused(input, read, refusal_at(place, error)));
            }
            None | Some(_) => {}
        }
        keep_from(&mut held, used);
        start = place;
        enough = 2 * held.len().max(CHUNK / 2);
    }
    Err(RunError::Memory)
}

/// Reads sequences one after the other to the end of the input, and writes their normal forms: a sequence for each action.
///
/// Each is parsed with `parameters_truncated` false. Any error of a read, `Interrupted` too, is `RunError::Read`; any error of a
/// write or of the flush, and a write that takes no byte, is `RunError::Write`. After every error but `Write` nothing was written.
/// Input that is refused is still read to its end, and a read that fails there is the error. More than `isize::MAX` bytes are
/// `RunError::Memory`.
///
/// ```text
/// normalise(alloc, &mut input, &mut output)?;      // reads "\x1b[01;3m", and writes "\x1b[1m\x1b[3m"
/// ```
pub fn normalise<R: Read, W: Write>(
    alloc: Global,
    input: &mut R,
    output: &mut W,
) -> Result<(), RunError>
    ensures ok { OnOk result (IfSome (R.remaining input.old) (λ bytes.
        (actions : List Action) × Decodes bytes false actions
        × Appends (W.contents output.old) (W.contents output.new) (texts actions))) }
    ensures end { OnOk result (IsAtEnd (R.remaining input.new)) }
    ensures refused { IfErr result (RefusesRun (R.remaining input.old)) }
    ensures read_whole { IfErr result (λ e. (fault : DecodeError) → e ≡ RunError.Decode fault →
        IsAtEnd (R.remaining input.new)) }
    ensures untouched { IfErr result (λ e. e ≢ RunError.Write → output.new ≡ output.old) }
{
    let mut texts = Texts::new(alloc);
    let mut read = Vec::new(alloc);
    let mut first = [0u8; 64];
    if read_some(input, &mut first, &mut read)? > 0 {
        stream_into(alloc, input, read, &mut texts)?;
    }
    write_out(output, texts.bytes.as_slice())
}
