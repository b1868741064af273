//! A run of a compactor, from a reader to a writer.
ghost use Rattle.std.specs.{Prelude.◌≡◌, Prelude.◌<◌, Prelude.◌++◌, Prelude.ℕ, Prelude.List, Prelude.OnOk, Prelude.OnErr, Prelude.IfErr, Io.KnownBytes.Appends};
ghost use Rattle.std.specs.{Io.KnownBytes.Consumes, Io.KnownBytes.IsAtEnd};
ghost use Rattle.csicodec_spans.specs.{declared.table.Mode.Mode, declared.table.Mode.TheVariants.Text as Plain};
ghost use Rattle.csicodec_compact.specs.Runs.{CompactsAll, PassesShort};

use crate::compact::Compact;
use crate::shortener::{Memory, Shortener};
use csicodec_spans::Driver;
use csicodec_transform::{RunError, transform_all};
use std::alloc::Global;
use std::io::{Read, Write};

/// Reads to the end, and writes what a [`Compactor`] makes of the stream; after each read all that is sure is written and flushed.
///
/// It holds back less than `limit` bytes, or two where that is less, so that it may stand in a pipe that stays open. A read or a write
/// that answers `Interrupted` is tried again. Any other error of a read is `RunError::Read`; any of a write or the flush, or a write that
/// takes no byte, is `RunError::Write`; `RunError::Decode` never comes.
///
/// ```text
/// compact_all(alloc, 65536, Compact::new(alloc), &mut input, &mut output)?;
/// // reads "a\x1b[01m\x1b[31mb", and writes "a\x1b[1;31mb"
/// ```
pub fn compact_all<R: Read, W: Write>(
    alloc: Global,
    limit: usize,
    compact: Compact,
    input: &mut R,
    output: &mut W,
) -> Result<(), RunError>
    requires { 0 < limit }
    // What was written is what is made of all that was read.
    ensures ok { OnOk result
        ((bytes : List ℕ) × (text : List ℕ)
        × Consumes (R.remaining input.old) (R.remaining input.new) bytes
        × CompactsAll limit Plain bytes text
        × Appends (W.contents output.old) (W.contents output.new) text) }
    ensures end { OnOk result (IsAtEnd (R.remaining input.new)) }
    // When a read fails, all that was sure of the bytes before it has been written.
    ensures failed { IfErr result
        (λ e. e ≡ RunError.Read
        → (read : List ℕ) × (text : List ℕ) × (held : List ℕ) × (mode : Mode) ×
        Consumes (R.remaining input.old) (R.remaining input.new) read
        × PassesShort limit Plain read text held mode
        × Appends (W.contents output.old) (W.contents output.new) text) }
    // After any error, what went out is a front of what is made of bytes that were read.
    ensures front { OnErr result
        ((bytes : List ℕ) × (more : List ℕ) × (sent : List ℕ) × (unsent : List ℕ)
        × Consumes (R.remaining input.old) (R.remaining input.new) (bytes ++ more)
        × CompactsAll limit Plain bytes (sent ++ unsent)
        × Appends (W.contents output.old) (W.contents output.new) sent) }
{
    let shortener = Shortener::new(alloc, compact);
    let driver = Driver::new(alloc, limit, shortener, Memory::new(alloc));
    transform_all(alloc, driver, input, output)
}
