//! A stream as a page, as it comes.
ghost use Rattle.csicodec_clean.specs.{Page.IsPage, Page.IsPageWith, Page.PageOf, Page.PageWith, Streams.Streams};

use crate::rule::SpanWriter;
use csicodec_clean::clean_run;
use csicodec_looks::Markup;
use csicodec_transform::RunError;
use std::alloc::Global;
use std::io::{Read, Write};

/// Reads to the end, and writes the stream as [`html`](crate::html) makes it of all its bytes, as it comes: after each read all that is
/// sure is written and flushed.
///
/// It holds a control sequence that isn't over, of fewer than 65536 bytes, three bytes of a character at most, two addresses, and 4,096
/// short sequences that came before, with their tags. The errors are those of `csicodec_clean::clean_run`.
///
/// ```text
/// html_all(alloc, &mut input, &mut output)?;      // reads "a\x1b[1m<", and writes "a<span style=\"font-weight:bold;\">&lt;</span>"
/// ```
pub fn html_all<R: Read, W: Write>(
    alloc: Global,
    input: &mut R,
    output: &mut W,
) -> Result<(), RunError>
    ensures { Streams PageOf IsPage result
        (R.remaining input.old) (R.remaining input.new)
        (W.contents output.old) (W.contents output.new) }
{
    html_all_with(alloc, Markup::default(), input, output)
}

/// The same with what becomes markup, as [`html_with`](crate::html_with) makes it.
pub fn html_all_with<R: Read, W: Write>(
    alloc: Global,
    markup: Markup,
    input: &mut R,
    output: &mut W,
) -> Result<(), RunError>
    ensures { Streams (PageWith markup) (IsPageWith markup) result
        (R.remaining input.old) (R.remaining input.new)
        (W.contents output.old) (W.contents output.new) }
{
    clean_run(alloc, SpanWriter::new(alloc, markup), input, output)
}
