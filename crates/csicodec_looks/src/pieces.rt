//! Pieces of a page for one that knows how text looks, as they stand there.
ghost use Rattle.std.specs.{Prelude.◌≡◌, Prelude.◌++◌, Prelude.List, Prelude.ℕ, Prelude.OnOk, Prelude.encode_utf8_all, Prelude.true, List.AllByRecursion};
ghost use Rattle.std.specs.{List.flat_map};
ghost use Rattle.csicodec_looks.specs.{Shown.IsShown, Pieces.escaped, Pieces.piece_texts, Pieces.turn};

use crate::escaped::append_page;
use crate::look::Look;
use crate::markup::Markup;
use crate::tags::{append_begin, append_end};
use bstr::ByteVec;
use std::alloc::AllocError;

/// Appends the tags between text of one look and text of another.
///
/// ```text
/// append_turn(&Markup::default(), Look::plain(), bold, &mut page)?;      // appends "<span style=\"font-weight:bold;\">"
/// ```
#[inline(never)]
#[tactic(auto, using(std::proofs::Common::append_assoc, std::proofs::lemmas::Grind::common_steps))]
pub fn append_turn(
    markup: &Markup,
    old: Look,
    new: Look,
    out: &mut Vec<u8>,
) -> Result<(), AllocError>
    ensures { OnOk result (out.new.items ≡ out.old.items ++ piece_texts (turn markup.now true old new)) }
{
    append_end(old, out)?;
    append_begin(markup, new, out)
}

/// Appends a character.
///
/// ```text
/// append_char('<', &mut page)?;      // appends "&lt;"
/// ```
#[inline(always)]
pub fn append_char(char: char, out: &mut Vec<u8>) -> Result<(), AllocError>
    ensures { OnOk result (out.new.items ≡ out.old.items ++ escaped char) }
{
    match char {
        '&' => out.extend_from_slice(b"&amp;"),
        '<' => out.extend_from_slice(b"&lt;"),
        '>' => out.extend_from_slice(b"&gt;"),
        '"' => out.extend_from_slice(b"&quot;"),
        '\'' => out.extend_from_slice(b"&#39;"),
        _ => out.push_char(char),
    }
}

/// Appends text in UTF-8 of characters that are shown.
///
/// ```text
/// append_text(b"a < b", &mut page)?;      // appends "a &lt; b"
/// ```
#[tactic(auto, using(crate::proofs::Marks::chars))]
pub fn append_text(text: &[u8], out: &mut Vec<u8>) -> Result<(), AllocError>
    ensures { OnOk result ((chars : List ℕ) → AllByRecursion IsShown chars → text.now ≡ encode_utf8_all chars
        → out.new.items ≡ out.old.items ++ flat_map escaped chars) }
{
    append_page(text, out)
}
