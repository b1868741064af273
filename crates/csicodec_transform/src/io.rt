//! Bytes in and out.
ghost use Rattle.std.specs.Prelude.{◌≡◌, ◌⊎◌, ◌++◌, ◌+◌, ◌^◌, ◌<◌, ◌≤◌, ℕ, List, length, OnOk, IfOk, IfErr, drop, vec_len, take, OnErr};
ghost use Rattle.std.specs.Io.KnownBytes.{Appends, Consumes, IsAtEnd, Keeps};

use crate::error::RunError;
use std::io::{ErrorKind, Read, Write};

/// How many bytes are asked of a reader at once.
pub const CHUNK: usize = 4096;

/// The most bytes that an input may have: what was read counts as kept, and no vector holds more.
pub const MOST: usize = isize::MAX as usize;

/// Appends what one read into the chunk gives, and returns how many bytes that is: none at the end.
#[inline(always)]
pub fn read_some<R: Read>(
    input: &mut R,
    chunk: &mut [u8],
    kept: &mut Vec<u8>,
) -> Result<usize, RunError>
    requires { 0 < length chunk.old }
    ensures grows { IfOk result (λ count. (bytes : List ℕ)
        × (kept.new.items ≡ kept.old.items ++ bytes) × (length bytes ≡ count)
        × Consumes (R.remaining input.old) (R.remaining input.new) bytes) }
    ensures end { IfOk result (λ count. count ≡ 0 → IsAtEnd (R.remaining input.new)) }
    ensures err { IfErr result (λ e. (e ≡ RunError.Read) ⊎ (e ≡ RunError.Memory)) }
{
    let Ok(count) = input.read(chunk) else {
        return Err(RunError::Read);
    };
    let Ok(()) = kept.extend_from_slice(&chunk[..count]) else {
        return Err(RunError::Memory);
    };
    Ok(count)
}

/// Reads to the end, and keeps nothing. `Memory` where there are more than `MOST` bytes, with those that came before.
#[cold]
#[inline(never)]
pub fn read_out<R: Read>(input: &mut R, before: usize) -> Result<(), RunError>
    ensures end { OnOk result ((bytes : List ℕ)
        × Consumes (R.remaining input.old) (R.remaining input.new) bytes
        × IsAtEnd (R.remaining input.new)) }
    ensures err { IfErr result (λ e. (e ≡ RunError.Read) ⊎ (e ≡ RunError.Memory)) }
    ensures long { IfErr result (λ e. e ≡ RunError.Memory → (bytes : List ℕ)
        × Consumes (R.remaining input.old) (R.remaining input.new) bytes
        × (2 ^ 63 ≤ before + length bytes)) }
{
    let mut chunk = [0u8; CHUNK];
    let mut read = before;
    while read <= MOST {
        match input.read(&mut chunk) {
            Ok(0) => return Ok(()),
            Ok(count) => read += count,
            Err(_) => return Err(RunError::Read),
        }
    }
    Err(RunError::Memory)
}

/// Writes all the bytes, and flushes.
pub fn write_out<W: Write>(output: &mut W, bytes: &[u8]) -> Result<(), RunError>
    ensures ok { OnOk result (Appends (W.contents output.old) (W.contents output.new) bytes.now) }
    ensures err { IfErr result (λ e. e ≡ RunError.Write) }
{
    let mut rest = bytes;
    while !rest.is_empty() {
        match output.write(rest) {
            Ok(0) | Err(_) => return Err(RunError::Write),
            Ok(count) => rest = &rest[count..],
        }
    }
    output.flush().or(Err(RunError::Write))
}

/// Keeps the bytes from a place on.
pub fn keep_from(bytes: &mut Vec<u8>, from: usize)
    requires { from ≤ vec_len bytes.old }
    ensures { bytes.new.items ≡ drop from bytes.old.items }
{
    let len = bytes.len();
    bytes.copy_within(from..len, 0);
    bytes.truncate(len - from);
}

/// Writes all the bytes, and flushes. A write that a signal interrupted is tried again.
pub fn send<W: Write>(output: &mut W, bytes: &[u8]) -> Result<(), RunError>
    ensures ok { OnOk result (Appends (W.contents output.old) (W.contents output.new) bytes.now) }
    // What went out before a failure is a front of them.
    ensures front { OnErr result ((sent : List ℕ) × (unsent : List ℕ) × (bytes.now ≡ sent ++ unsent)
        × Appends (W.contents output.old) (W.contents output.new) sent) }
    ensures err { IfErr result (λ e. e ≡ RunError.Write) }
{
    let mut rest = bytes;
    for _ in 0..u64::MAX {
        if rest.is_empty() {
            return output.flush().or(Err(RunError::Write));
        }
        match output.write(rest) {
            Ok(0) => return Err(RunError::Write),
            Ok(count) => rest = &rest[count..],
            Err(e) => {
                if e.kind() != ErrorKind::Interrupted {
                    return Err(RunError::Write);
                }
            }
        }
    }
    Err(RunError::Write)
}

/// Reads what there is now; a read that a signal interrupted, as the change of a window's size does, is tried again.
pub fn receive<R: Read>(input: &mut R, chunk: &mut [u8]) -> Result<usize, RunError>
    ensures within { IfOk result (λ count. count ≤ length chunk.new) }
    ensures read { IfOk result (λ count.
        Consumes (R.remaining input.old) (R.remaining input.new) (take count chunk.new)
        × (count ≡ 0 → 0 < length chunk.new → IsAtEnd (R.remaining input.new))) }
    ensures err { IfErr result (λ e.
        (e ≡ RunError.Read) × Keeps (R.remaining input.old) (R.remaining input.new)) }
{
    for _ in 0..u64::MAX {
        match input.read(chunk) {
            Ok(count) => return Ok(count),
            Err(e) => {
                if e.kind() != ErrorKind::Interrupted {
                    return Err(RunError::Read);
                }
            }
        }
    }
    Err(RunError::Read)
}
