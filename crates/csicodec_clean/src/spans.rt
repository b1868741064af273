//! The spans of a stream, and what is left of them.
ghost use Rattle.std.specs.Prelude.{◌≡◌, ◌≢◌, ◌<◌, ◌≤◌, ◌++◌, ◌∷◌, ℕ, List, [], length, MatchOption, OnOk, IfOk};
ghost use Rattle.csicodec_looks.specs.Sets.{char_in};
ghost use Rattle.csicodec_tokens.specs.Sequence.{Seq};
ghost use Rattle.csicodec_spans.specs.{declared.table.Kind.TheVariants.Csi as Sequence, Parts.IsUnsure};
ghost use Rattle.csicodec_clean.specs.{Cleaned.AreGiven, Sets.behind, Sets.in_use, Sets.shifted, Shown.chars_as, Shown.run_as, Private.Steps.DrawsTo};
ghost use Rattle.csicodec_clean.specs.{Private.Steps.GoesTo, Private.Steps.IsAppended, Private.Steps.ReadsTo, Private.Steps.state_of};

use crate::glance::append_front;
use crate::reading::{Reading, Sets};
use crate::rule::Rule;
use crate::text::{append_char, append_shown, append_sure};
use crate::title::{read_as, title_behind};
use csicodec_base::CsiParam;
use csicodec_spans::{Cutter, Kind, Mode};
use csicodec_tokens::Count;
use csicodec_transform::keep_from;
use std::alloc::AllocError;

/// Appends what is shown of bytes, as far as it is sure; `held` are the bytes before them that aren't, and then those at their end.
fn append_bytes<T: Rule>(
    held: &mut Vec<u8>,
    bytes: &[u8],
    out: &mut Vec<u8>,
) -> Result<(), AllocError>
    ensures chars { OnOk result
        ((chars : List ℕ) × ReadsTo (held.old.items ++ bytes.now) chars held.new.items
        × (out.new.items ≡ out.old.items ++ chars_as T.gives.writing chars)) }
    ensures short { OnOk result (length held.new.items ≤ 3) }
{
    if held.is_empty() {
        let rest = append_sure::<T>(bytes, out)?;
        held.extend_from_slice(rest)?;
        return Ok(());
    }
    held.extend_from_slice(bytes)?;
    let sure = held.len() - append_sure::<T>(held, out)?.len();
    keep_from(held, sure);
    Ok(())
}

/// Appends what is shown of the bytes that are held: nothing of their character follows.
#[inline(always)]
fn append_held<T: Rule>(held: &mut Vec<u8>, out: &mut Vec<u8>) -> Result<(), AllocError>
    ensures none { OnOk result (held.new.items ≡ []) }
    ensures shown { OnOk result (out.new.items ≡ out.old.items ++ run_as T.gives.writing held.old.items) }
{
    if held.is_empty() {
        return Ok(());
    }
    append_shown::<T>(held, out)?;
    held.clear();
    Ok(())
}

/// Appends what is shown of a byte of ASCII, as the sets draw it.
fn append_one<T: Rule>(
    held: &mut Vec<u8>,
    sets: &mut Sets,
    byte: u8,
    out: &mut Vec<u8>,
) -> Result<(), AllocError>
    requires { byte < 128 }
    ensures none { OnOk result (held.new.items ≡ []) }
    ensures sets { OnOk result (sets.new ≡ shifted sets.old byte) }
    ensures shown { OnOk result (out.new.items ≡ out.old.items ++ (run_as T.gives.writing held.old.items
        ++ chars_as T.gives.writing (char_in (in_use sets.old) byte ∷ []))) }
{
    append_held::<T>(held, out)?;
    append_char::<T>(sets.in_use().char(char::from(byte)), out)?;
    sets.shift(byte);
    Ok(())
}

/// Appends what is shown of some bytes of text in front, as the sets draw them, and answers the others.
fn append_some<'a, T: Rule>(
    held: &mut Vec<u8>,
    sets: &mut Sets,
    bytes: &'a [u8],
    out: &mut Vec<u8>,
) -> Result<&'a [u8], AllocError>
    ensures draws { IfOk result (λ rest. DrawsTo T.gives.writing sets.old held.old.items bytes.now rest.now
        sets.new held.new.items out.old.items out.new.items) }
    ensures less { IfOk result (λ rest. 0 < length bytes.now → length rest.now < length bytes.now) }
    ensures short { OnOk result (length held.old.items ≤ 3 → length held.new.items ≤ 3) }
{
    let (front, rest) = sets.split_same(bytes);
    if !front.is_empty() {
        append_bytes::<T>(held, front, out)?;
        return Ok(rest);
    }
    let Some((byte, others)) = bytes.split_first() else {
        return Ok(bytes);
    };
    append_one::<T>(held, sets, *byte, out)?;
    Ok(others)
}

/// Appends what is shown of the text, as the sets draw it, as far as it is sure; `held` are the bytes before it that aren't, and then those at
/// its end.
fn append_text<T: Rule>(
    held: &mut Vec<u8>,
    sets: &mut Sets,
    bytes: &[u8],
    out: &mut Vec<u8>,
) -> Result<(), AllocError>
    ensures draws { OnOk result (DrawsTo T.gives.writing sets.old held.old.items bytes.now []
        sets.new held.new.items out.old.items out.new.items) }
    ensures short { OnOk result (length held.old.items ≤ 3 → length held.new.items ≤ 3) }
{
    let mut rest = bytes;
    while !rest.is_empty() {
        rest = append_some::<T>(held, sets, rest, out)?;
    }
    Ok(())
}

/// Appends what stands in the place of bytes of a control string.
fn append_string<T: Rule>(rule: &mut T, bytes: &[u8], out: &mut Vec<u8>) -> Result<(), AllocError>
    ensures { OnOk result
        ((text : List ℕ) × AreGiven T.gives rule.old bytes.now text rule.new
        × (out.new.items ≡ out.old.items ++ text)) }
{
    if !rule.reads_strings() {
        return Ok(());
    }
    for byte in bytes {
        rule.take_byte(*byte, out)?;
    }
    Ok(())
}

/// Appends what is left of a span. A span that is no text ends the run of text before it.
fn append_span<T: Rule>(
    rule: &mut T,
    params: &[CsiParam],
    control: Option<char>,
    held: &mut Vec<u8>,
    sets: &mut Sets,
    kind: Kind,
    bytes: &[u8],
    out: &mut Vec<u8>,
) -> Result<(), AllocError>
    requires { MatchOption control (kind ≢ Sequence)
        (λ final. (kind ≡ Sequence) × Seq bytes.now params.now final) }
    ensures appended { OnOk result
        ((more : List ℕ)
        × IsAppended T.gives sets.old kind rule.old held.old.items bytes.now more rule.new held.new.items
        × (out.new.items ≡ out.old.items ++ more)) }
    ensures sets { OnOk result (sets.new ≡ behind sets.old kind bytes.now) }
    ensures short { OnOk result (length held.old.items ≤ 3 → length held.new.items ≤ 3) }
{
    if kind == Kind::Text {
        return append_text::<T>(held, sets, bytes, out);
    }
    append_held::<T>(held, out)?;
    sets.pass(kind, bytes);
    match control {
        Some(control) => rule.rewrite(bytes, params, control, out),
        None if kind == Kind::Esc => rule.escape(bytes, out),
        None if kind == Kind::Str => append_string(rule, bytes, out),
        None => Ok(()),
    }
}

/// Appends what is left of all spans of the bytes that are sure, and answers the bytes that aren't, and the mode there.
///
/// `held` are the bytes of the run of text before them that aren't read yet, three at most; `reading` says how text is read.
pub(crate) fn append_clean<'a, T: Rule>(
    rule: &mut T,
    params: &mut Vec<CsiParam>,
    held: &mut Vec<u8>,
    reading: &mut Reading,
    limit: usize,
    mode: Mode,
    bytes: &'a [u8],
    out: &mut Vec<u8>,
) -> Result<(&'a [u8], Mode), AllocError>
    requires { 0 < limit }
    ensures unsure { IfOk result (λ (rest, after). IsUnsure limit after rest.now) }
    ensures goes { IfOk result
        (λ (rest, after). GoesTo T.gives limit (state_of rule.old mode reading.old bytes.now held.old.items)
        (state_of rule.new after reading.new rest.now held.new.items) out.old.items out.new.items) }
    ensures short { OnOk result (length held.old.items ≤ 3 → length held.new.items ≤ 3) }
{
    let mut looks = Count::new();
    let mut cutter = Cutter { mode, rest: bytes };
    loop {
        let open = cutter.mode;
        let rest = append_front(rule, reading, limit, open, held, cutter.rest, out)?;
        cutter.rest = rest;
        let Some((span, control)) = cutter.next(limit, params, &mut looks)? else {
            return Ok((rest, open));
        };
        let kind = read_as(span.kind, reading.titled);
        append_span(
            rule,
            params,
            control,
            held,
            &mut reading.sets,
            kind,
            span.bytes,
            out,
        )?;
        reading.titled = title_behind(reading.titled, span.kind, span.bytes);
    }
}
