//! The palette of a page as the command line gives it.

use csicodec_command::{Request, Wrong};
use csicodec_html::{Palette, given_color, given_palette};
use std::alloc::Global;

/// The palette of `xterm`, or of colours with commas between them.
fn palette_of(alloc: Global, text: &str) -> Result<Palette, Wrong<'_>> {
    if text == "xterm" {
        return Ok(Palette::xterm());
    }
    let parts = text.split(',').enumerate();
    let colors = parts.map(|(index, part)| {
        given_color(part.as_bytes()).ok_or(Wrong::NoColor(index.saturating_add(1), part))
    });
    let colors = colors.try_collect::<Vec<_>>(alloc)?;
    given_palette(&colors).ok_or(Wrong::NoPalette(colors.len()))
}

/// The palette of the page that a run asks for; an error where it is none.
pub fn palette_asked<'a>(alloc: Global, run: &Request<'a>) -> Result<Palette, Wrong<'a>> {
    match run.value("--palette") {
        Some(text) => palette_of(alloc, text),
        None => Ok(Palette::default()),
    }
}
