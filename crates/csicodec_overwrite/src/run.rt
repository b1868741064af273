//! A stream from a reader to a writer, each line as it stands when it ends, as text or as a page of HTML.
ghost use Rattle.std.specs.{Prelude.◌++◌, Prelude.ℕ, Prelude.List, Prelude.OnErr, Prelude.OnOk, Io.KnownBytes.Appends, Io.KnownBytes.Consumes, Io.KnownBytes.IsAtEnd};
ghost use Rattle.csicodec_clean.specs.{Shown.IsPlain, Streams.StreamsOne, Page.IsPageWith, Page.PageWith};
ghost use Rattle.csicodec_overwrite.specs.Reading.{Overwrites, Paints};

use crate::overwriter::Overwriter;
use csicodec_looks::{Marking, Markup};
use csicodec_transform::{RunError, transform_all};
use std::alloc::Global;
use std::io::{Read, Write};

/// Reads to the end, and writes each line as it stands when it ends, as plain text. A sequence that may go to another row ends one.
///
/// The errors are those of `csicodec_clean::strip_all`.
///
/// ```text
/// overwrite_all(alloc, &mut input, &mut output)?;      // reads "10%\r20%\r\x1b[Kdone\n", and writes "done\n"
/// ```
pub fn overwrite_all<R: Read, W: Write>(
    alloc: Global,
    input: &mut R,
    output: &mut W,
) -> Result<(), RunError>
    ensures { StreamsOne Overwrites IsPlain result
        (R.remaining input.old) (R.remaining input.new)
        (W.contents output.old) (W.contents output.new) }
{
    transform_all(alloc, Overwriter::new(alloc), input, output)
}

/// Reads to the end, and writes the page that `csicodec_html::html_all_with` makes of the stream where it is painted: each line as it
/// stands when it ends, with how each of its characters looked when it was written.
///
/// The errors are those of `csicodec_clean::strip_all`.
///
/// ```text
/// html_overwritten_all(alloc, Markup::default(), &mut input, &mut output)?;
/// // reads "10%\r\x1b[1mdone\x1b[m\n", and writes "<span style=\"font-weight:bold;\">done</span>\n"
/// ```
pub fn html_overwritten_all<R: Read, W: Write>(
    alloc: Global,
    markup: Markup,
    input: &mut R,
    output: &mut W,
) -> Result<(), RunError>
    // What was written is the page of all the bytes, painted.
    ensures ok { OnOk result
        ((bytes : List ℕ) × (painted : List ℕ) × (page : List ℕ)
        × Consumes (R.remaining input.old) (R.remaining input.new) bytes
        × Paints bytes painted × PageWith markup painted page × IsPageWith markup page
        × Appends (W.contents output.old) (W.contents output.new) page) }
    ensures end { OnOk result (IsAtEnd (R.remaining input.new)) }
    // After any error, what went out is a front of the page of a front of what is painted of bytes that were read.
    ensures front { OnErr result
        ((bytes : List ℕ) × (more : List ℕ) × (painted : List ℕ) × (unpainted : List ℕ)
        × (sent : List ℕ) × (unsent : List ℕ)
        × Consumes (R.remaining input.old) (R.remaining input.new) (bytes ++ more)
        × Paints bytes (painted ++ unpainted)
        × PageWith markup painted (sent ++ unsent) × IsPageWith markup (sent ++ unsent)
        × Appends (W.contents output.old) (W.contents output.new) sent) }
{
    let pages = Overwriter::writing(alloc, Marking::Page(markup));
    transform_all(alloc, pages, input, output)
}
