//! Bytes that are all there, as a piece of a page.
ghost use Rattle.std.specs.Prelude.{IfOk, false};
ghost use Rattle.csicodec_html.specs.MarkupBytes.{IsMarkup};
ghost use Rattle.csicodec_clean.specs.Page.{IsPage, IsPageWith, PageOf, PageWith};

use crate::rule::SpanWriter;
use csicodec_clean::clean_whole;
use csicodec_looks::Markup;
use std::alloc::{AllocError, Global};

/// The text of untrusted bytes as a piece of a page of HTML: what `strip` leaves of them, with `&`, `<`, `>`, `"` and `'` as references,
/// and what has attributes (SGR) in spans with a `style`. It stands well in a `pre`.
///
/// Of the attributes it shows bold, faint, italic, lines below of each kind and their colours, lines above and through, inverse, and
/// colours: the first 16 as pairs that can be read on a light and on a dark page, those of other numbers as xterm has them, and those
/// by their parts without their alpha. What is concealed is shown. A span is ended before another begins, and at the end.
///
/// ```text
/// html(alloc, b"a\x1b[1;38;5;100m<b>\x1b[m")?      // "a<span style=\"font-weight:bold;color:#878700;\">&lt;b&gt;</span>"
/// ```
pub fn html(alloc: Global, bytes: &[u8]) -> Result<Vec<u8>, AllocError>
    // Run by run, it is what is shown of the text, escaped, and between them the tags of the attributes.
    ensures exact { IfOk result (λ out. PageOf bytes.now out.items) }
    // It has characters that are shown, escaped, and tags of spans in pairs, and nothing else.
    ensures safe { IfOk result (λ out. IsPage out.items) }
    // The same, told of its bytes alone.
    ensures tags { IfOk result (λ out. IsMarkup false out.items) }
{
    html_with(alloc, Markup::default(), bytes)
}

/// The same with what becomes markup. A link stands around the spans of its text, and is ended before another begins, and at the end.
///
/// ```text
/// let markup = Markup { links: true, ..Markup::default() };
/// html_with(alloc, markup, b"\x1b]8;;http://a.example/?b&c\x07d")?      // "<a rel=\"nofollow noopener noreferrer\" href=\"http://a.example/?b&amp;c\">d</a>"
/// ```
pub fn html_with(alloc: Global, markup: Markup, bytes: &[u8]) -> Result<Vec<u8>, AllocError>
    ensures exact { IfOk result (λ out. PageWith markup bytes.now out.items) }
    // Beside those it has tags of links in pairs, to addresses that a page may lead to.
    ensures safe { IfOk result (λ out. IsPageWith markup out.items) }
    ensures tags { IfOk result (λ out. IsMarkup markup.links out.items) }
{
    clean_whole(alloc, &mut SpanWriter::new(alloc, markup), bytes)
}
