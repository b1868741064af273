//! The tags, and those between text that leads to one place and text that leads to another.
ghost use Rattle.std.specs.Prelude.{◌≡◌, ◌++◌, ◌||◌, OnOk};
ghost use Rattle.csicodec_looks.specs.Pieces.{begins, ends, leads, opens, piece_texts, shuts, switch, pieces_bytes};

use crate::attributes::append_span;
use crate::escaped::append_page;
use crate::look::Look;
use crate::markup::Markup;
use std::alloc::AllocError;

/// Appends the tag that begins a span of this look, if that has one.
pub(crate) fn append_begin(markup: &Markup, look: Look, out: &mut Vec<u8>) -> Result<(), AllocError>
    ensures { OnOk result (out.new.items ≡ out.old.items ++ piece_texts (begins markup.now look)) }
{
    if look.is_plain() {
        return Ok(());
    }
    append_span(markup, look, out)
}

/// Appends the tag that ends a span of this look, if that has one.
pub fn append_end(look: Look, out: &mut Vec<u8>) -> Result<(), AllocError>
    ensures { OnOk result (out.new.items ≡ out.old.items ++ piece_texts (ends look)) }
{
    if look.is_plain() {
        return Ok(());
    }
    out.extend_from_slice(b"</span>")
}

/// Whether text leads there: nowhere has no bytes.
fn leads(to: &[u8]) -> bool
    ensures { result ≡ leads to.now }
{
    !to.is_empty()
}

/// Appends the tag that begins a link to there, if it leads anywhere.
fn append_open(to: &[u8], out: &mut Vec<u8>) -> Result<(), AllocError>
    ensures { OnOk result (out.new.items ≡ out.old.items ++ pieces_bytes (opens to.now)) }
{
    if !leads(to) {
        return Ok(());
    }
    out.extend_from_slice(b"<a rel=\"nofollow noopener noreferrer\" href=\"")?;
    append_page(to, out)?;
    out.extend_from_slice(b"\">")?;
    Ok(())
}

/// Appends the tag that ends a link to there, if it leads anywhere.
pub fn append_shut(to: &[u8], out: &mut Vec<u8>) -> Result<(), AllocError>
    ensures { OnOk result (out.new.items ≡ out.old.items ++ piece_texts (shuts to.now)) }
{
    if !leads(to) {
        return Ok(());
    }
    out.extend_from_slice(b"</a>")
}

/// Appends the tags between text that leads to one place and text that leads to another.
#[tactic(auto, using(std::proofs::Common::append_assoc, std::proofs::lemmas::Grind::common_steps, crate::proofs::Marks::ends_bytes, crate::proofs::Marks::shuts_bytes, crate::proofs::Marks::begins_bytes))]
pub fn append_switch(
    markup: &Markup,
    look: Look,
    old: &[u8],
    new: &[u8],
    out: &mut Vec<u8>,
) -> Result<(), AllocError>
    ensures { OnOk result
        (out.new.items ≡ out.old.items ++ pieces_bytes (switch markup.now look old.now new.now)) }
{
    if !leads(old) && !leads(new) {
        return Ok(());
    }
    append_end(look, out)?;
    append_shut(old, out)?;
    append_open(new, out)?;
    append_begin(markup, look, out)
}
