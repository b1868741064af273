//! Runs from a reader to a writer.
ghost use Rattle.std.specs.{Prelude.◌≡◌, Prelude.◌++◌, Prelude.[], Prelude.ℕ, Prelude.List, Prelude.OnErr, Prelude.OnOk, Prelude.IfErr, Io.KnownBytes.Appends};
ghost use Rattle.std.specs.{Io.KnownBytes.Consumes, Io.KnownBytes.IsAtEnd};
ghost use Rattle.csicodec_clean.specs.{Shown.IsPlain, Cleaned.Ends, Cleaned.Strips, Cleaned.longest, Stream.Begins, Stream.Between, Stream.Takes, Stream.start_of};
ghost use Rattle.csicodec_clean.specs.{Streams.StreamsOne, Styled.IsStyled, Styled.IsStyledIn, Styled.Styles, Styled.StylesIn, Styled.without_links};

use crate::cleaner::Cleaner;
use crate::rule::Rule;
use crate::styles::{Kept, Passing};
use crate::whole::Dropped;
use csicodec_looks::xterm::Depth;
use csicodec_transform::{RunError, Transform, transform_all};
use std::alloc::{AllocError, Global};
use std::io::{Read, Write};

impl<T: Rule + Drop> Transform for Cleaner<T> {
    ghost use Rattle.std.specs.Prelude.{⊤};
    ghost use Rattle.csicodec_clean.specs.Stream.{Closing};

    ghost stands = { λ now. ⊤ };

    ghost passes = { λ first bytes text last. Takes T.gives first bytes text last };

    ghost rests = { λ _. ⊤ };

    ghost ends = { Closing T.gives T.closes };

    fn take(&mut self, bytes: &[u8], out: &mut Vec<u8>) -> Result<(), AllocError> {
        self.push(bytes, out)?;
        Ok(())
    }

    #[tactic(auto, using(crate::proofs::Chunks::goes_none))]
    fn pause(&mut self, _out: &mut Vec<u8>) -> Result<(), AllocError> {
        Ok(())
    }

    fn end(&mut self, out: &mut Vec<u8>) -> Result<(), AllocError> {
        self.finish(out)
    }
}

/// Reads to the end, and writes what a rule leaves of the stream; after each read all that is sure is written and flushed.
///
/// It holds back what a [`Cleaner`] does, so that it may stand in a pipe that stays open. A read or a write that answers
/// `Interrupted` is tried again. Any other error of a read is `RunError::Read`; any of a write or the flush, or a write that takes no
/// byte, is `RunError::Write`; `RunError::Decode` never comes.
pub fn clean_run<T: Rule + Drop, R: Read, W: Write>(
    alloc: Global,
    rule: T,
    input: &mut R,
    output: &mut W,
) -> Result<(), RunError>
    // What was written is what is left of all the bytes, and what ends it.
    ensures ok { OnOk result
        ((bytes : List ℕ) × (text : List ℕ)
        × Consumes (R.remaining input.old) (R.remaining input.new) bytes
        × IsAtEnd (R.remaining input.new)
        × Ends T.gives T.closes longest rule bytes text
        × Appends (W.contents output.old) (W.contents output.new) text) }
    // When a read fails, all that was sure of the bytes before it has been written.
    ensures failed { IfErr result
        (λ e. e ≡ RunError.Read → (bytes : List ℕ) × (text : List ℕ) × (last : Between T)
        × Consumes (R.remaining input.old) (R.remaining input.new) bytes
        × Takes T.gives (start_of rule) bytes text last
        × Appends (W.contents output.old) (W.contents output.new) text) }
    // After any error, what went out is a front of the text of bytes that were read, and has of its end only where they are all.
    ensures front { OnErr result
        ((bytes : List ℕ) × (more : List ℕ) × (sent : List ℕ)
        × Consumes (R.remaining input.old) (R.remaining input.new) (bytes ++ more)
        × Begins T.gives T.closes rule ((more ≡ []) × IsAtEnd (R.remaining input.new)) bytes sent
        × Appends (W.contents output.old) (W.contents output.new) sent) }
{
    let cleaner = Cleaner::new(alloc, rule);
    transform_all(alloc, cleaner, input, output)
}

/// Reads to the end, and writes the plain text of the stream, as [`strip`](crate::strip) makes it of all its bytes, as it comes.
///
/// The errors are those of [`clean_run`].
///
/// ```text
/// strip_all(alloc, &mut input, &mut output)?;      // reads "a\x1b[31mb", and writes "ab"
/// ```
pub fn strip_all<R: Read, W: Write>(
    alloc: Global,
    input: &mut R,
    output: &mut W,
) -> Result<(), RunError>
    ensures { StreamsOne (Strips longest) IsPlain result
        (R.remaining input.old) (R.remaining input.new)
        (W.contents output.old) (W.contents output.new) }
{
    clean_run(alloc, Dropped, input, output)
}

/// The same with the styles that stay, as [`clean`](crate::clean) leaves them.
///
/// ```text
/// clean_all(alloc, &mut input, &mut output)?;      // reads "a\x1b[01mb", and writes "a\x1b[1mb\x1b[0m"
/// ```
pub fn clean_all<R: Read, W: Write>(
    alloc: Global,
    input: &mut R,
    output: &mut W,
) -> Result<(), RunError>
    ensures { StreamsOne Styles IsStyled result
        (R.remaining input.old) (R.remaining input.new)
        (W.contents output.old) (W.contents output.new) }
{
    clean_all_in(alloc, Depth::Full, input, output)
}

/// The same with fewer colours, as [`clean_in`](crate::clean_in) leaves them.
pub fn clean_all_in<R: Read, W: Write>(
    alloc: Global,
    depth: Depth,
    input: &mut R,
    output: &mut W,
) -> Result<(), RunError>
    ensures { StreamsOne (StylesIn (without_links depth)) (IsStyledIn (without_links depth)) result
        (R.remaining input.old) (R.remaining input.new)
        (W.contents output.old) (W.contents output.new) }
{
    let passing = Passing {
        depth,
        links: false,
        restores: true,
    };
    clean_all_with(alloc, passing, input, output)
}

/// The same with what passes, as [`clean_with`](crate::clean_with) leaves it.
pub fn clean_all_with<R: Read, W: Write>(
    alloc: Global,
    passing: Passing,
    input: &mut R,
    output: &mut W,
) -> Result<(), RunError>
    ensures { StreamsOne (StylesIn passing) (IsStyledIn passing) result
        (R.remaining input.old) (R.remaining input.new)
        (W.contents output.old) (W.contents output.new) }
{
    clean_run(alloc, Kept::letting(alloc, passing), input, output)
}
