//! A run of a filter, from a reader to a writer.
ghost use Rattle.std.specs.{Prelude.◌≡◌, Prelude.◌<◌, Prelude.ℕ, Prelude.List, Prelude.OnOk, Prelude.OnErr, Prelude.IfErr, Prelude.IfSome, Io.KnownBytes.Appends};
ghost use Rattle.std.specs.{Io.KnownBytes.Consumes, Io.KnownBytes.IsAtEnd};
ghost use Rattle.csicodec_spans.specs.{declared.table.Mode.Mode, declared.table.Mode.TheVariants.Text as Plain};
ghost use Rattle.csicodec_filter.specs.Filter.{Filters, IsFrontOf, Passes};

use crate::filter::Memory;
use crate::rewrite::Rewrite;
use csicodec_spans::Driver;
use csicodec_transform::{RunError, transform_all};
use std::alloc::Global;
use std::io::{Read, Write};

/// Reads to the end, and writes what a filter makes of the stream; after each read all that is sure is written and flushed.
///
/// It holds back less than `limit` bytes, or two where that is less, so that it may stand in a pipe that stays open. A read or
/// a write that answers `Interrupted` is tried again. Any other error of a read is `RunError::Read`; any of a write or the
/// flush, or a write that takes no byte, is `RunError::Write`; `RunError::Decode` never comes.
///
/// ```text
/// filter_all(alloc, 65536, NormalForm::new(alloc), &mut input, &mut output)?;
/// // reads "a\x1b[01mb", and writes "a\x1b[1mb"
/// ```
pub fn filter_all<T: Rewrite + Drop, R: Read, W: Write>(
    alloc: Global,
    limit: usize,
    rewrite: T,
    input: &mut R,
    output: &mut W,
) -> Result<(), RunError>
    requires { 0 < limit }
    // What was written is what the filter makes of all that was read.
    ensures ok { OnOk result (IfSome (R.remaining input.old) (λ bytes.
        (text : List ℕ) × Filters (T.writes rewrite) limit Plain bytes text
        × Appends (W.contents output.old) (W.contents output.new) text)) }
    ensures end { OnOk result (IsAtEnd (R.remaining input.new)) }
    // When a read fails, all that was sure of the bytes before it has been written.
    ensures failed { IfErr result
        (λ e. e ≡ RunError.Read
        → (read : List ℕ) × (text : List ℕ) × (held : List ℕ) × (mode : Mode) ×
        Consumes (R.remaining input.old) (R.remaining input.new) read
        × Passes (T.writes rewrite) limit Plain read text held mode
        × Appends (W.contents output.old) (W.contents output.new) text) }
    // After any error, what went out is a front of what the filter makes of the whole input, where it makes one text of it.
    ensures front { OnErr result (IfSome (R.remaining input.old) (λ bytes.
        (sent : List ℕ) × IsFrontOf (T.writes rewrite) limit Plain bytes sent
        × Appends (W.contents output.old) (W.contents output.new) sent)) }
{
    let driver = Driver::new(alloc, limit, rewrite, Memory::new(alloc));
    transform_all(alloc, driver, input, output)
}
