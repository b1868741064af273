//! What stands ahead of the text of a page.
ghost use Rattle.std.specs.Prelude.{◌≡◌, ◌++◌, IfOk, OnOk};
ghost use Rattle.csicodec_tool.specs.Writes.{IsPageFront, own_style, style_of};

use crate::rewrite::Page;
use csicodec_html::{BODY, HEAD, STYLE, title};
use csicodec_looks::append_sheet;
use std::alloc::{AllocError, Global};

/// What the style sheet of a page with ids has of the line that its address names: a bar beside it.
pub const TARGET: &str =
    "span[id]:target{position:absolute;left:0;width:.4rem;height:1.3em;background-color:currentColor;}
";

/// What stands between the title of a page and a style sheet that is given.
pub const GIVEN: &str = "</title>
<style>
";

/// What a page is asked to have ahead of its text.
#[derive(Clone, Copy)]
pub struct Heading<'a> {
    /// Its name, of which its title is made.
    pub name: &'a [u8],
    /// The style sheet that it has in place of its own. `ends_style` is false of it.
    pub style: Option<&'a str>,
}

/// That, where it is held.
#[derive(Drop)]
pub struct OwnHeading {
    pub name: Vec<u8>,
    pub style: Option<String>,
}

impl OwnHeading {
    /// The heading.
    pub fn heading(&self) -> Heading<'_> {
        let name = self.name.as_slice();
        let style = match &self.style {
            Some(style) => Some(style.as_str()),
            None => None,
        };
        Heading { name, style }
    }
}

/// Whether a text would end the style sheet in which it stands: there `</style` is an end tag, in capitals or not (HTML, 13.2.5.14).
pub fn ends_style(text: &str) -> bool {
    let mut parts = text.as_bytes().windows(7);
    parts.any(|part| part.eq_ignore_ascii_case(b"</style".as_slice()))
}

/// Appends the style sheet that is a page's own, from the end of its title on.
fn append_own(page: &Page, out: &mut Vec<u8>) -> Result<(), AllocError>
    ensures { OnOk result (out.new.items ≡ out.old.items ++ own_style page.now) }
{
    out.extend_from_slice(STYLE.as_bytes())?;
    append_sheet(&page.markup, out)?;
    if page.ids {
        out.extend_from_slice(TARGET.as_bytes())?;
        return Ok(());
    }
    Ok(())
}

/// Appends the style sheet of a page, from the end of its title on.
fn append_style(page: &Page, heading: &Heading<'_>, out: &mut Vec<u8>) -> Result<(), AllocError>
    ensures { OnOk result (out.new.items ≡ out.old.items ++ style_of page.now heading.now.style) }
{
    match heading.style {
        Some(style) => {
            out.extend_from_slice(GIVEN.as_bytes())?;
            out.extend_from_slice(style.as_bytes())
        }
        None => append_own(page, out),
    }
}

/// What stands ahead of the text of a page: a head, with its title and its style sheet.
pub fn page_front(alloc: Global, page: &Page, heading: &Heading<'_>) -> Result<Vec<u8>, AllocError>
    ensures { IfOk result (λ out. IsPageFront page.now heading.now out.items) }
{
    let title = title(alloc, heading.name)?;
    let mut out = Vec::new(alloc);
    out.extend_from_slice(HEAD.as_bytes())?;
    out.extend_from_slice(&title)?;
    append_style(page, heading, &mut out)?;
    out.extend_from_slice(BODY.as_bytes())?;
    Ok(out)
}
