//! Logs from a reader to a writer.
ghost use Rattle.csicodec_clean.specs.{Shown.IsPlain, Cleaned.Strips, Cleaned.longest, Streams.StreamsOne, Styled.IsStyledIn, Styled.StylesIn};
ghost use Rattle.csicodec_lines.specs.Lines.{ByLines};

use crate::lines::Lines;
use csicodec_clean::Passing;
use csicodec_transform::{RunError, transform_all};
use std::alloc::Global;
use std::io::{Read, Write};

/// Reads to the end, and writes the plain text of each line, as `csicodec_clean::strip` makes it of the line alone, as it comes.
///
/// The errors are those of `csicodec_clean::clean_run`.
///
/// ```text
/// strip_lines_all(alloc, &mut input, &mut output)?;      // reads "a\x1b]0;\nb\rc\r\n", and writes "a\nb\nc\n"
/// ```
pub fn strip_lines_all<R: Read, W: Write>(
    alloc: Global,
    input: &mut R,
    output: &mut W,
) -> Result<(), RunError>
    ensures { StreamsOne (ByLines (Strips longest)) IsPlain result
        (R.remaining input.old) (R.remaining input.new)
        (W.contents output.old) (W.contents output.new) }
{
    transform_all(alloc, Lines::stripped(alloc), input, output)
}

/// The same with what passes, as `csicodec_clean::clean_with` leaves it: a style or a link that a line leaves open ends with it.
///
/// ```text
/// clean_lines_all(alloc, passing, &mut input, &mut output)?;      // reads "\x1b[30;40ma\nb", and writes "\x1b[30m\x1b[40ma\x1b[0m\nb"
/// ```
pub fn clean_lines_all<R: Read, W: Write>(
    alloc: Global,
    passing: Passing,
    input: &mut R,
    output: &mut W,
) -> Result<(), RunError>
    ensures { StreamsOne (ByLines (StylesIn passing)) (IsStyledIn passing) result
        (R.remaining input.old) (R.remaining input.new)
        (W.contents output.old) (W.contents output.new) }
{
    transform_all(alloc, Lines::cleaned(alloc, passing), input, output)
}
