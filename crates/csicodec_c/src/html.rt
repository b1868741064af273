//! Pages of HTML, and each line as it stands when it ends.
ghost use Rattle.std.specs.Prelude.{◌≡◌, false, IfOk, IfSome, IfNone, map};
ghost use Rattle.csicodec_clean.specs.Page.{IsPageWith};
ghost use Rattle.csicodec_looks.specs.Paint.{as_text};
ghost use Rattle.csicodec_overwrite.specs.Reading.{Shows};
ghost use Rattle.csicodec_c.specs.Html.{IsAsked, IsAskedIn, IsPage, IsPiece, IsPieceOf, IsWhole, color_of, palette_of};
ghost use Rattle.csicodec_c.specs.{declared.html.PageSettings.PageSettings, Strip.AnswersBy, Strip.bit};

use crate::strip::{Stripped, bit_at, put, refused};
use csicodec_base::SrgbaTuple;
use csicodec_html::{
    BEHIND, BODY, HEAD, Markup, Palette, STYLE, UNNAMED, front, given_palette, html_with,
};
use csicodec_overwrite::{Marking, Overwriter};
use csicodec_structs::Status;
use std::alloc::{AllocError, Global};

/// What a page is asked to be: each number is 1 or 0, and zeros ask for what the program writes without options.
#[repr(C)]
#[derive(Clone, Copy)]
pub struct Choices {
    /// 1: links (OSC 8) become links. The text is then kept as with `no_overwrite`.
    pub links: u32,
    /// 1: attributes become classes in place of styles.
    pub classes: u32,
    /// 1: a piece for a `pre` in a page of the caller's own.
    pub fragment: u32,
    /// 1: text stays that a carriage return or an erase would hide.
    pub no_overwrite: u32,
}

/// The same with its meaning.
#[derive(Clone, Copy)]
pub struct PageSettings {
    /// What becomes markup.
    pub markup: Markup,
    /// Whether it is a piece alone.
    pub fragment: bool,
    /// Whether text stays that is written over.
    pub no_overwrite: bool,
}

/// The colour of a number, of which the lowest 24 bits are its parts.
fn color_of(number: u32) -> SrgbaTuple
    ensures { result ≡ color_of number }
{
    SrgbaTuple(
        (number / 65536 % 256) as u8,
        (number / 256 % 256) as u8,
        (number % 256) as u8,
        255,
    )
}

/// The colours of numbers.
fn colors_of(alloc: Global, numbers: &[u32]) -> Result<Vec<SrgbaTuple>, AllocError>
    ensures { IfOk result (λ colors. colors.items ≡ map color_of numbers.now) }
{
    let mut colors = Vec::new(alloc);
    for number in numbers {
        colors.push(color_of(*number))?;
    }
    Ok(colors)
}

/// The palette of numbers: without any the one that a page has where nobody chose another.
fn palette_of(alloc: Global, numbers: &[u32]) -> Result<Option<Palette>, AllocError>
    ensures { IfOk result (λ palette. palette ≡ palette_of numbers.now) }
{
    if numbers.is_empty() {
        return Ok(Some(Markup::default().palette));
    }
    let colors = colors_of(alloc, numbers)?;
    Ok(given_palette(&colors))
}

/// What is asked for, if the numbers ask for anything.
fn choices_of(choices: &Choices, palette: Palette) -> Option<PageSettings>
    ensures some { IfSome result (λ asked. IsAsked choices.now palette asked) }
    ensures none { IfNone result ((asked : PageSettings) → IsAsked choices.now palette asked → ⊥) }
{
    let markup = Markup {
        links: bit_at(choices.links)?,
        classes: bit_at(choices.classes)?,
        palette,
    };
    Some(PageSettings {
        markup,
        fragment: bit_at(choices.fragment)?,
        no_overwrite: bit_at(choices.no_overwrite)?,
    })
}

/// As what lines are written that are text, painted or not.
fn as_text(painted: bool) -> Marking
    ensures { result ≡ as_text painted }
{
    if painted {
        Marking::Styled
    } else {
        Marking::Plain
    }
}

/// Each line as it stands when it ends, as what lines are to be written.
fn lines_of(alloc: Global, marking: Marking, bytes: &[u8]) -> Result<Vec<u8>, AllocError>
    ensures { IfOk result (λ text. Shows marking bytes.now text.items) }
{
    let mut writer = Overwriter::writing(alloc, marking);
    let mut text = Vec::new(alloc);
    writer.push(bytes, &mut text)?;
    writer.finish(&mut text)?;
    Ok(text)
}

/// The piece of a page that lines become, each as it stands when it ends.
fn piece_of_lines(alloc: Global, markup: Markup, bytes: &[u8]) -> Result<Vec<u8>, AllocError>
    ensures piece { IfOk result (λ piece. IsPiece false markup bytes.now piece.items) }
    ensures safe { IfOk result (λ piece. IsPageWith markup piece.items) }
{
    lines_of(alloc, Marking::Page(markup), bytes)
}

/// The piece of a page that the bytes become.
fn piece_of(alloc: Global, asked: PageSettings, bytes: &[u8]) -> Result<Vec<u8>, AllocError>
    ensures piece { IfOk result (λ piece. IsPieceOf asked bytes.now piece.items) }
    ensures safe { IfOk result (λ piece. IsPageWith asked.markup piece.items) }
{
    if asked.no_overwrite || asked.markup.links {
        return html_with(alloc, asked.markup, bytes);
    }
    piece_of_lines(alloc, asked.markup, bytes)
}

/// A page of its own.
fn whole_page(alloc: Global, markup: Markup, piece: Vec<u8>) -> Result<Vec<u8>, AllocError>
    ensures { IfOk result (λ page.
        IsWhole UNNAMED.now HEAD.now STYLE.now BODY.now BEHIND.now markup piece.items page.items) }
{
    let mut page = front(alloc, markup, UNNAMED)?;
    page.extend_from_slice(&piece)?;
    page.extend_from_slice(BEHIND.as_bytes())?;
    Ok(page)
}

/// The piece alone, or with what stands around it on a page.
fn page_of(alloc: Global, asked: PageSettings, bytes: &[u8]) -> Result<Vec<u8>, AllocError>
    ensures { IfOk result (λ page.
        IsPage (IsWhole UNNAMED.now HEAD.now STYLE.now BODY.now BEHIND.now) bytes.now asked page.items) }
{
    let piece = piece_of(alloc, asked, bytes)?;
    if asked.fragment {
        return Ok(piece);
    }
    let page = whole_page(alloc, asked.markup, piece)?;
    Ok(page)
}

/// Puts the page of HTML that the bytes become, where it fits. `colors` are none, 16 or 18 numbers.
#[unsafe(no_mangle)]
pub extern "C" fn csicodec_html(
    alloc: Global,
    choices: &Choices,
    colors: &[u32],
    bytes: &[u8],
    out: &mut [u8],
) -> Stripped
    ensures { AnswersBy (IsAskedIn choices.now colors.now)
        (IsPage (IsWhole UNNAMED.now HEAD.now STYLE.now BODY.now BEHIND.now) bytes.now)
        out.old out.new result }
{
    let Ok(palette) = palette_of(alloc, colors) else {
        return refused(Status::Memory);
    };
    let Some(palette) = palette else {
        return refused(Status::BadState);
    };
    let Some(asked) = choices_of(choices, palette) else {
        return refused(Status::BadState);
    };
    let Ok(page) = page_of(alloc, asked, bytes) else {
        return refused(Status::Memory);
    };
    put(page.as_slice(), out)
}

/// Puts each line of the bytes as it stands when it ends, where all fits: as plain text, or with how it looks.
#[unsafe(no_mangle)]
pub extern "C" fn csicodec_overwrite(
    alloc: Global,
    styles: u32,
    bytes: &[u8],
    out: &mut [u8],
) -> Stripped
    ensures { AnswersBy (λ painted. styles ≡ bit painted)
        (λ painted. Shows (as_text painted) bytes.now) out.old out.new result }
{
    let Some(painted) = bit_at(styles) else {
        return refused(Status::BadState);
    };
    let Ok(text) = lines_of(alloc, as_text(painted), bytes) else {
        return refused(Status::Memory);
    };
    put(text.as_slice(), out)
}
