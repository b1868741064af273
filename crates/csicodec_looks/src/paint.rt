//! A line as it is written: its characters alone, or with what says how they look.
ghost use Rattle.std.specs.Prelude.{◌≡◌, ◌≤◌, ◌-◌, ◌∷◌, ◌++◌, [], IfOk, OnOk, encode_utf8_all, length, not, replicate};
ghost use Rattle.std.specs.List.{AllByRecursion, flat_map};
ghost use Rattle.csicodec_looks.specs.Paint.{further, given, look_of, look_text, paint, same, text_of, turn, written};
ghost use Rattle.csicodec_looks.specs.{Bytes.IsPlainByte, Look.is_default, Look.is_none, Look.is_normal, Look.plain, Pieces.escaped, Cells.chars_of, Cells.glyph};
ghost use Rattle.csicodec_looks.specs.{declared.cells.Cell.TheVariants.Char, declared.cells.Cell.TheVariants.Empty};

use crate::cells::Cell;
use crate::look::Look;
use crate::marking::Marking;
use crate::pieces::{append_char as append_page_char, append_text, append_turn as append_tags};
use csicodec_base::{ColorSpec, Intensity, Sgr, Underline};
use csicodec_tokens::Text;
use std::alloc::AllocError;

/// Whether two looks are one.
#[inline(always)]
fn same(a: &Look, b: &Look) -> bool
    ensures { result ≡ same a.now b.now }
{
    a.intensity == b.intensity
        && a.italic == b.italic
        && a.underline == b.underline
        && a.line == b.line
        && a.overline == b.overline
        && a.strike == b.strike
        && a.inverse == b.inverse
        && a.foreground == b.foreground
        && a.background == b.background
}

/// Whether strokes are other than normal.
fn is_set(intensity: Intensity) -> bool
    ensures { result ≡ not (is_normal intensity) }
{
    !matches!(intensity, Intensity::Normal)
}

/// Whether there is a line below.
fn is_lined(underline: Underline) -> bool
    ensures { result ≡ not (is_none underline) }
{
    !matches!(underline, Underline::None)
}

/// Whether it is another colour than the terminal's own.
fn is_colored(color: ColorSpec) -> bool
    ensures { result ≡ not (is_default color) }
{
    !matches!(color, ColorSpec::Default)
}

/// Appends an attribute to a sequence that has one before.
#[inline(never)]
fn append_further(attribute: Sgr, out: &mut Vec<u8>) -> Result<(), AllocError>
    ensures { OnOk result (out.new.items ≡ out.old.items ++ further attribute) }
{
    let mut text = Text::new();
    attribute.write_to(&mut text);
    let bytes = text.as_bytes();
    out.push(b';')?;
    out.extend_from_slice(bytes.split_at(bytes.len().saturating_sub(1)).0)
}

/// Appends it, if it is set.
#[inline(always)]
fn append_given(set: bool, attribute: Sgr, out: &mut Vec<u8>) -> Result<(), AllocError>
    ensures { OnOk result (out.new.items ≡ out.old.items ++ flat_map further (given set attribute)) }
{
    if !set {
        return Ok(());
    }
    append_further(attribute, out)
}

/// Appends the sequence from which on characters look so.
#[inline(never)]
fn append_look(look: &Look, out: &mut Vec<u8>) -> Result<(), AllocError>
    ensures { OnOk result (out.new.items ≡ out.old.items ++ look_text look.now) }
{
    let (line, text, ground) = (look.line, look.foreground, look.background);
    out.extend_from_slice(b"\x1b[0")?;
    append_given(is_set(look.intensity), Sgr::Intensity(look.intensity), out)?;
    append_given(look.italic, Sgr::Italic(true), out)?;
    append_given(
        is_lined(look.underline),
        Sgr::Underline(look.underline),
        out,
    )?;
    append_given(is_colored(line), Sgr::UnderlineColor(line), out)?;
    append_given(look.overline, Sgr::Overline(true), out)?;
    append_given(look.strike, Sgr::StrikeThrough(true), out)?;
    append_given(look.inverse, Sgr::Inverse(true), out)?;
    append_given(is_colored(text), Sgr::Foreground(text), out)?;
    append_given(is_colored(ground), Sgr::Background(ground), out)?;
    Ok(out.push(b'm')?)
}

/// Appends what is written between two looks, where they aren't one.
#[inline(always)]
#[tactic(auto, using(crate::proofs::Texts::unturned, crate::proofs::Texts::turned_alike))]
pub fn append_turn(
    marking: &Marking,
    old: &Look,
    new: &Look,
    out: &mut Vec<u8>,
) -> Result<(), AllocError>
    ensures { OnOk result (out.new.items ≡ out.old.items ++ turn marking.now old.now new.now) }
{
    if !marking.shows_looks() || same(old, new) {
        return Ok(());
    }
    match marking {
        Marking::Plain => Ok(()),
        Marking::Styled => append_look(new, out),
        Marking::Page(markup) => append_tags(markup, *old, *new, out),
    }
}

/// How a cell looks behind others that look so; an empty one looks as `none`.
#[inline(always)]
fn look_of<'a>(look: &'a Look, none: &'a Look, cell: &'a Cell) -> &'a Look
    requires { none.now ≡ plain }
    ensures { result.now ≡ look_of look.now cell.now }
{
    match cell {
        Cell::Empty => none,
        Cell::Char(glyph) => &glyph.look,
        Cell::Behind | Cell::Mark(_) => look,
    }
}

/// Appends text of ASCII.
pub fn append_ascii(marking: &Marking, text: &[u8], out: &mut Vec<u8>) -> Result<(), AllocError>
    ensures { OnOk result (AllByRecursion IsPlainByte text.now
        → out.new.items ≡ out.old.items ++ written marking.now text.now) }
{
    match marking {
        Marking::Plain | Marking::Styled => Ok(out.extend_from_slice(text)?),
        Marking::Page(_) => append_text(text, out),
    }
}

/// Appends a character beyond ASCII, whose bytes are few enough to be pushed one by one.
#[inline(never)]
fn append_beyond(char: char, out: &mut Vec<u8>) -> Result<(), AllocError>
    ensures { OnOk result (out.new.items ≡ out.old.items ++ encode_utf8_all (char ∷ [])) }
{
    let mut buffer = [0; 4];
    let bytes = char.encode_utf8(&mut buffer).as_bytes();
    out.reserve(bytes.len())?;
    match *bytes {
        [first, second] => {
            out.push_reserved(first);
            out.push_reserved(second);
        }
        [first, second, third] => {
            out.push_reserved(first);
            out.push_reserved(second);
            out.push_reserved(third);
        }
        _ => out.extend_from_slice(bytes)?,
    }
    Ok(())
}

/// Appends a character of text.
#[inline(always)]
fn append_char(char: char, out: &mut Vec<u8>) -> Result<(), AllocError>
    ensures { OnOk result (out.new.items ≡ out.old.items ++ encode_utf8_all (char ∷ [])) }
{
    if char < '\u{80}' {
        return Ok(out.push(char as u8)?);
    }
    append_beyond(char, out)
}

/// Appends a character as it stands on a page.
#[inline(always)]
fn append_reference(char: char, out: &mut Vec<u8>) -> Result<(), AllocError>
    ensures { OnOk result (out.new.items ≡ out.old.items ++ flat_map escaped (char ∷ [])) }
{
    if matches!(char, '&' | '<' | '>' | '"' | '\'') {
        return append_page_char(char, out);
    }
    append_char(char, out)
}

/// Appends a character.
#[inline(always)]
fn append_written(marking: &Marking, char: char, out: &mut Vec<u8>) -> Result<(), AllocError>
    ensures { OnOk result (out.new.items ≡ out.old.items ++ written marking.now (char ∷ [])) }
{
    match marking {
        Marking::Plain | Marking::Styled => append_char(char, out),
        Marking::Page(_) => append_reference(char, out),
    }
}

/// Appends the characters of a cell.
#[tactic(auto, using(crate::proofs::Texts::nothing_written))]
#[inline(always)]
fn append_cell(marking: &Marking, cell: Cell, out: &mut Vec<u8>) -> Result<(), AllocError>
    ensures { OnOk result (out.new.items ≡ out.old.items ++ written marking.now (chars_of cell)) }
{
    match cell {
        Cell::Empty => append_written(marking, ' ', out),
        Cell::Char(glyph) => append_written(marking, glyph.char, out),
        Cell::Mark(char) => append_written(marking, char, out),
        Cell::Behind => Ok(()),
    }
}

/// What is behind the empty cells in front.
fn behind_empty(cells: &[Cell]) -> &[Cell]
    ensures split { cells.now ≡ replicate (length cells.now - length result.now) Empty ++ result.now }
    ensures fewer { length result.now ≤ length cells.now }
{
    let mut rest = cells;
    while let Some((cell, behind)) = rest.split_first() {
        if !cell.is_empty() {
            return rest;
        }
        rest = behind;
    }
    rest
}

/// Appends so many blanks.
fn append_blanks(count: usize, out: &mut Vec<u8>) -> Result<(), AllocError>
    ensures { OnOk result (out.new.items ≡ out.old.items ++ replicate count 32) }
{
    let Some(len) = out.len().checked_add(count) else {
        return Err(AllocError);
    };
    out.resize(len, b' ')?;
    Ok(())
}

/// Appends the characters of a cell, and with those of an empty one the blanks of the empty ones behind it, and answers the others.
#[inline(always)]
fn append_alike<'a>(
    marking: &Marking,
    cell: Cell,
    behind: &'a [Cell],
    out: &mut Vec<u8>,
) -> Result<&'a [Cell], AllocError>
    ensures text { IfOk result (λ rest. (look : _) → out.new.items ++ paint marking.now (look_of look cell) rest.now
        ≡ out.old.items ++ (written marking.now (chars_of cell) ++ paint marking.now (look_of look cell) behind.now)) }
    ensures fewer { IfOk result (λ rest. length rest.now ≤ length behind.now) }
{
    if cell.is_empty() {
        let rest = behind_empty(behind);
        append_blanks(1 + (behind.len() - rest.len()), out)?;
        return Ok(rest);
    }
    append_cell(marking, cell, out)?;
    Ok(behind)
}

/// Appends the characters of ASCII in front, and answers the cells behind them.
fn append_ascii_front<'a>(cells: &'a [Cell], out: &mut Vec<u8>) -> Result<&'a [Cell], AllocError>
    ensures text { IfOk result (λ rest. out.new.items ++ encode_utf8_all (flat_map chars_of rest.now)
        ≡ out.old.items ++ encode_utf8_all (flat_map chars_of cells.now)) }
    ensures fewer { IfOk result (λ rest. length rest.now ≤ length cells.now) }
{
    out.reserve(cells.len())?;
    let mut rest = cells;
    while let Some((cell, behind)) = rest.split_first() {
        match cell {
            Cell::Char(glyph) if glyph.char < '\u{80}' => out.push_reserved(glyph.char as u8),
            // What stands behind a wide character is passed.
            Cell::Behind => {}
            _ => return Ok(rest),
        }
        rest = behind;
    }
    Ok(rest)
}

/// Appends the characters of cells.
fn append_plain(cells: &[Cell], out: &mut Vec<u8>) -> Result<(), AllocError>
    ensures { OnOk result
        (out.new.items ≡ out.old.items ++ encode_utf8_all (flat_map chars_of cells.now)) }
{
    let mut rest = cells;
    while let Some((cell, behind)) = rest.split_first() {
        let others = append_alike(&Marking::Plain, *cell, behind, out)?;
        rest = append_ascii_front(others, out)?;
    }
    Ok(())
}

/// Appends the characters in front that look so, and answers the cells behind them.
#[inline(never)]
fn append_same_look<'a>(
    marking: &Marking,
    look: &Look,
    cells: &'a [Cell],
    out: &mut Vec<u8>,
) -> Result<&'a [Cell], AllocError>
    ensures text { IfOk result (λ rest. out.new.items ++ paint marking.now look.now rest.now
        ≡ out.old.items ++ paint marking.now look.now cells.now) }
    ensures fewer { IfOk result (λ rest. length rest.now ≤ length cells.now) }
{
    let mut rest = cells;
    while let Some((cell, behind)) = rest.split_first() {
        match cell {
            Cell::Char(glyph) if same(look, &glyph.look) => {
                append_written(marking, glyph.char, out)?;
            }
            Cell::Behind => (),
            _ => return Ok(rest),
        }
        rest = behind;
    }
    Ok(rest)
}

/// Appends cells, as lines are written: at the end nothing is set.
pub fn append_cells(cells: &[Cell], marking: &Marking, out: &mut Vec<u8>) -> Result<(), AllocError>
    ensures { OnOk result (out.new.items ≡ out.old.items ++ text_of marking.now cells.now) }
{
    if !marking.shows_looks() {
        return append_plain(cells, out);
    }
    let none = Look::plain();
    let mut now = &none;
    let mut rest = cells;
    while let Some((cell, behind)) = rest.split_first() {
        let next = look_of(now, &none, cell);
        append_turn(marking, now, next, out)?;
        let others = append_alike(marking, *cell, behind, out)?;
        rest = append_same_look(marking, next, others, out)?;
        now = next;
    }
    append_turn(marking, now, &none, out)
}
