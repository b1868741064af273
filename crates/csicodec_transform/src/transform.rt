//! What a stream becomes as it comes, from a reader to a writer.
ghost use Rattle.std.specs.{Prelude.◌≡◌, Prelude.◌++◌, Prelude.[], Prelude.ℕ, Prelude.List, Prelude.OnErr, Prelude.OnOk, Prelude.IfErr, Io.KnownBytes.Appends};
ghost use Rattle.std.specs.{Io.KnownBytes.Consumes, Io.KnownBytes.IsAtEnd};
ghost use Rattle.csicodec_transform.specs.Transform.{Adds, Begins, EndsOf, GoesOn, PassesOf, Sends, Transforms};

use crate::error::RunError;
use crate::io::{CHUNK, receive, send};
use std::alloc::{AllocError, Global};
use std::io::{Read, Write};

/// What a stream becomes as it comes, chunk by chunk.
pub trait Transform {
    /// What always holds of it.
    ghost stands: { Self → Type 0 };

    /// From one state, which has just begun, to another, by these bytes, with this text.
    ghost passes: { PassesOf Self };

    /// Nothing is put off until more comes.
    ghost rests: { Self → Type 0 };

    /// In this state, where nothing comes any more, this text is still to be written.
    ghost ends: { EndsOf Self };

    /// Takes the next bytes, and appends what is made of all that is sure now.
    fn take(&mut self, bytes: &[u8], out: &mut Vec<u8>) -> Result<(), AllocError>
        requires { stands self.old }
        ensures stands { OnOk result (stands self.new) }
        ensures passes { OnOk result (Adds passes self.old bytes.now out.old.items out.new.items self.new) };

    /// Appends what was put off: nothing more is there to read at once.
    fn pause(&mut self, out: &mut Vec<u8>) -> Result<(), AllocError>
        requires { stands self.old }
        ensures stands { OnOk result (stands self.new) }
        ensures passes { OnOk result (Adds passes self.old [] out.old.items out.new.items self.new) }
        ensures rests { OnOk result (rests self.new) };

    /// Appends what is held, and what ends the output: nothing comes any more.
    fn end(&mut self, out: &mut Vec<u8>) -> Result<(), AllocError>
        ensures { OnOk result
            ((rest : List ℕ) × ends self.old rest × (out.new.items ≡ out.old.items ++ rest)) };
}

/// How many bytes a run asks of its reader at once.
pub const READ: usize = 65536;

/// Takes what was read, in pieces, since a longer copy costs more for each byte; if that is all that is there now, nothing is put off.
fn take_read<T: Transform>(
    transform: &mut T,
    bytes: &[u8],
    is_all: bool,
    out: &mut Vec<u8>,
) -> Result<(), AllocError>
    requires { T.stands transform.old }
    ensures stands { OnOk result (T.stands transform.new) }
    ensures passes { OnOk result (Adds T.passes transform.old bytes.now out.old.items out.new.items transform.new) }
{
    let mut rest = bytes;
    while !rest.is_empty() {
        let (piece, behind) = rest.split_at(rest.len().min(CHUNK));
        transform.take(piece, out)?;
        rest = behind;
    }
    if is_all {
        return transform.pause(out);
    }
    Ok(())
}

/// A read failed: writes what was put off, and answers the error.
#[cold]
#[inline(never)]
fn fail<T: Transform, W: Write>(transform: &mut T, out: &mut Vec<u8>, output: &mut W) -> RunError
    requires { T.stands transform.old }
    ensures read { result ≡ RunError.Read
        → (more : List ℕ) × GoesOn T.passes transform.old [] more transform.new
        × T.rests transform.new
        × Appends (W.contents output.old) (W.contents output.new) more }
    ensures front { (last : T) × (more : List ℕ) × (sent : List ℕ) × (unsent : List ℕ)
        × GoesOn T.passes transform.old [] more last × (more ≡ sent ++ unsent)
        × Appends (W.contents output.old) (W.contents output.new) sent }
{
    out.clear();
    let Ok(()) = transform.pause(out) else {
        return RunError::Memory;
    };
    let Ok(()) = send(output, out.as_slice()) else {
        return RunError::Write;
    };
    RunError::Read
}

/// Reads to the end, and writes what the stream becomes; after each read all that is sure is written and flushed. What is put off until
/// more comes, is so only while more is there to read at once.
///
/// A read or a write that answers `Interrupted` is tried again. Any other error of a read is `RunError::Read`; any of a write or the
/// flush, or a write that takes no byte, is `RunError::Write`; `RunError::Decode` never comes.
pub fn transform_all<T: Transform + Drop, R: Read, W: Write>(
    alloc: Global,
    transform: T,
    input: &mut R,
    output: &mut W,
) -> Result<(), RunError>
    requires stands { T.stands transform }
    requires begun { T.passes transform [] [] transform }
    // All was read, and what was written is what it becomes, with its end.
    ensures ok { OnOk result
        ((bytes : List ℕ) × (text : List ℕ)
        × Consumes (R.remaining input.old) (R.remaining input.new) bytes
        × IsAtEnd (R.remaining input.new)
        × Transforms T.passes T.ends transform bytes text
        × Appends (W.contents output.old) (W.contents output.new) text) }
    // When a read fails, all that was sure of the bytes before it has been written, and nothing is put off.
    ensures failed { IfErr result
        (λ e. e ≡ RunError.Read → (bytes : List ℕ) × (text : List ℕ) × (last : T)
        × Consumes (R.remaining input.old) (R.remaining input.new) bytes
        × T.passes transform bytes text last × T.rests last
        × Appends (W.contents output.old) (W.contents output.new) text) }
    // After any error, what went out is a front of the text of bytes that were read, and has of its end only where they are all.
    ensures front { OnErr result
        ((bytes : List ℕ) × (more : List ℕ) × (sent : List ℕ)
        × Consumes (R.remaining input.old) (R.remaining input.new) (bytes ++ more)
        × Begins (Sends T.passes transform) (Transforms T.passes T.ends transform)
        ((more ≡ []) × IsAtEnd (R.remaining input.new)) bytes sent
        × Appends (W.contents output.old) (W.contents output.new) sent) }
{
    let mut now = transform;
    let mut out = Vec::new(alloc);
    let mut chunk = [0u8; READ];
    for _ in 0..u64::MAX {
        let Ok(count) = receive(input, &mut chunk) else {
            return Err(fail(&mut now, &mut out, output));
        };
        out.clear();
        if count == 0 {
            let Ok(()) = now.end(&mut out) else {
                return Err(RunError::Memory);
            };
            return send(output, &out);
        }
        let Ok(()) = take_read(&mut now, &chunk[..count], count < READ, &mut out) else {
            return Err(RunError::Memory);
        };
        let Ok(()) = send(output, &out) else {
            return Err(RunError::Write);
        };
    }
    Err(fail(&mut now, &mut out, output))
}
