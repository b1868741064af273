//! From a reader to a writer.
ghost use Rattle.std.specs.{Prelude.◌≡◌, Prelude.◌⊎◌, Prelude.ℕ, Prelude.List, Prelude.OnOk, Prelude.OnErr, Prelude.IfErr, Prelude.IfSome, Io.KnownBytes.Appends};
ghost use Rattle.std.specs.{Io.KnownBytes.Consumes, Io.KnownBytes.IsAtEnd};
ghost use Rattle.csicodec_clean.specs.Stream.{IsFrontOf};
ghost use Rattle.csicodec_lines.specs.Cuts.{Tells};

use crate::finder::Finder;
use csicodec_transform::{RunError, transform_all};
use std::alloc::Global;
use std::io::{Read, Write};

/// Reads to the end, and writes where the stream may be cut: the offsets in decimal digits, a line for each, rising. Between two of them,
/// and ahead of the first, stand `every` bytes at least.
///
/// A place is right behind the first newline that is far enough, of those in text. If none comes within 65536 bytes, it is behind the first
/// ASCII character of text behind these that is no control. Text in a title (`ESC k`) has no place.
///
/// It holds back a control sequence that isn't over, of fewer than 65536 bytes. An offset of more than 64 bits is told as the largest of
/// these. A read or a write that answers `Interrupted` is tried again. Any other error of a read is `RunError::Read`; any of a write or
/// the flush, or a write that takes no byte, is `RunError::Write`; `RunError::Decode` never comes.
///
/// ```text
/// cuts_all(alloc, 4, &mut input, &mut output)?;      // reads "a\nb\x1b[\n3mc\nd\n\n", and writes "10\n"
/// ```
pub fn cuts_all<R: Read, W: Write>(
    alloc: Global,
    every: u64,
    input: &mut R,
    output: &mut W,
) -> Result<(), RunError>
    // All was read, and what was written are its places.
    ensures ok { OnOk result ((bytes : List ℕ) × (text : List ℕ)
        × Consumes (R.remaining input.old) (R.remaining input.new) bytes
        × IsAtEnd (R.remaining input.new) × Tells every bytes text
        × Appends (W.contents output.old) (W.contents output.new) text) }
    // After any error, what went out is a front of those of the whole input.
    ensures front { OnErr result (IfSome (R.remaining input.old) (λ bytes. (sent : List ℕ)
        × IsFrontOf (Tells every) bytes sent
        × Appends (W.contents output.old) (W.contents output.new) sent)) }
{
    transform_all(alloc, Finder::new(alloc, every), input, output)
}
