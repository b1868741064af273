//! What is taken at a glance, where nothing is open and no byte is held: text, SO and SI, escape sequences, and control sequences that a
//! rule takes at once.
ghost use Rattle.std.specs.Prelude.{◌≡◌, ◌<◌, ◌≤◌, ◌++◌, ℕ, List, [], length, drop, slice_index, true, false, IfOk, OnOk};
ghost use Rattle.csicodec_clean.specs.{Sets.in_use, declared.reading.Sets.Sets, Private.Steps.BeginsWithEscape, Private.Steps.GoesTo, Private.Steps.bare_at};
ghost use Rattle.csicodec_clean.specs.{Private.Steps.is_drawn, Private.Steps.state_of};
ghost use Rattle.csicodec_looks.specs.declared.sets.Set.TheVariants.{Ascii as Plain};
ghost use Rattle.csicodec_spans.specs.declared.table.Mode.TheVariants.{Text as NothingOpen};

use crate::reading::{Reading, Sets, is_shift};
use crate::rule::Rule;
use crate::text::{append_char, append_told};
use csicodec_looks::Set;
use csicodec_spans::Mode;
use std::alloc::AllocError;

/// Whether an escape sequence of three bytes stands in front: ESC, an intermediate byte and a final byte.
#[inline(always)]
fn begins_with_escape(bytes: &[u8]) -> bool
    ensures { result ≡ true → BeginsWithEscape bytes.now }
{
    if bytes.len() < 3 {
        return false;
    }
    let (first, second, third) = (bytes[0], bytes[1], bytes[2]);
    first == 0x1b && b' ' <= second && second <= b'/' && b'0' <= third && third <= b'~'
}

/// Whether SI stands in front.
#[inline(always)]
fn begins_with_si(bytes: &[u8]) -> bool
    ensures { result ≡ true → (0 < length bytes.now) × (slice_index bytes.now 0 ≡ 15) }
{
    !bytes.is_empty() && bytes[0] == 0x0f
}

/// Whether a set draws the byte: it is of ASCII, and no ESC, SO or SI.
#[inline(always)]
fn is_drawn(byte: u8) -> bool
    ensures { result ≡ is_drawn byte }
{
    byte < 0x80 && byte != 0x1b && byte != 0x0e && byte != 0x0f
}

/// Takes what stands in front and changes no set: a control sequence that the rule takes at once, an escape sequence of three bytes, or SI where
/// G0 is shifted in. It answers how many bytes that has, and 0 where none of these stands there.
#[inline(always)]
fn take_control<T: Rule>(
    rule: &mut T,
    sets: &Sets,
    limit: usize,
    bytes: &[u8],
    out: &mut Vec<u8>,
) -> Result<usize, AllocError>
    ensures within { IfOk result (λ len. len ≤ length bytes.now) }
    ensures goes { IfOk result (λ len. GoesTo T.gives limit (bare_at rule.old sets.now bytes.now)
        (bare_at rule.new sets.now (drop len bytes.now)) out.old.items out.new.items) }
{
    // The rule is asked for none but what this byte introduces, and DECSTR is no such.
    if bytes.len() >= 3 && bytes[1] == b'[' && bytes[2] != b'!' {
        let len = rule.take_at_once(limit, bytes, out)?;
        return Ok(len);
    }
    if begins_with_escape(bytes) && sets.keeps(bytes.split_at(3).0) {
        rule.escape(bytes.split_at(3).0, out)?;
        return Ok(3);
    }
    if begins_with_si(bytes) && !sets.shifted {
        return Ok(1);
    }
    Ok(0)
}

/// Appends what the sets draw of the text in front, up to an ESC, SO, SI or what isn't of ASCII, and answers what is behind it.
fn append_drawn<'a, T: Rule>(
    sets: &Sets,
    bytes: &'a [u8],
    out: &mut Vec<u8>,
) -> Result<&'a [u8], AllocError>
    ensures { IfOk result (λ rest. (rule : T) → (limit : ℕ) → GoesTo T.gives limit
        (bare_at rule sets.now bytes.now) (bare_at rule sets.now rest.now) out.old.items out.new.items) }
{
    let mut rest = bytes;
    while let Some((byte, others)) = rest.split_first() {
        if !is_drawn(*byte) {
            return Ok(rest);
        }
        append_char::<T>(sets.in_use().char(char::from(*byte)), out)?;
        rest = others;
    }
    Ok(rest)
}

/// Appends what is left of the text in front, which is ASCII in the sets, and of what changes none, and answers the bytes behind them.
#[inline(always)]
fn append_run<'a, T: Rule>(
    rule: &mut T,
    sets: &Sets,
    limit: usize,
    bytes: &'a [u8],
    out: &mut Vec<u8>,
) -> Result<&'a [u8], AllocError>
    requires { in_use sets.now ≡ Plain }
    ensures { IfOk result (λ rest. GoesTo T.gives limit (bare_at rule.old sets.now bytes.now)
        (bare_at rule.new sets.now rest.now) out.old.items out.new.items) }
{
    let mut rest = bytes;
    let mut more = true;
    while more {
        let told = append_told::<T>(rest, out)?;
        let len = take_control(rule, sets, limit, told, out)?;
        rest = told.split_at(len).1;
        more = len > 0;
    }
    Ok(rest)
}

/// Appends what is left of the text in front, and, where that is ASCII in the sets, of what changes none behind it, and answers the bytes behind
/// them.
#[inline(always)]
fn append_ahead<'a, T: Rule>(
    rule: &mut T,
    sets: &Sets,
    limit: usize,
    bytes: &'a [u8],
    out: &mut Vec<u8>,
) -> Result<&'a [u8], AllocError>
    ensures { IfOk result (λ rest. GoesTo T.gives limit (bare_at rule.old sets.now bytes.now)
        (bare_at rule.new sets.now rest.now) out.old.items out.new.items) }
{
    if sets.in_use() == Set::Ascii {
        return append_run(rule, sets, limit, bytes, out);
    }
    let rest = append_drawn::<T>(sets, bytes, out)?;
    Ok(rest)
}

/// Takes the escape sequence of three bytes in front, or SO or SI, and answers how many bytes it has; 0 where neither stands there.
fn take_change<T: Rule>(
    rule: &mut T,
    sets: &mut Sets,
    bytes: &[u8],
    out: &mut Vec<u8>,
) -> Result<usize, AllocError>
    ensures within { IfOk result (λ len. len ≤ length bytes.now) }
    ensures goes { IfOk result (λ len. (limit : ℕ) → GoesTo T.gives limit (bare_at rule.old sets.old bytes.now)
        (bare_at rule.new sets.new (drop len bytes.now)) out.old.items out.new.items) }
{
    if begins_with_escape(bytes) {
        let escape = bytes.split_at(3).0;
        rule.escape(escape, out)?;
        sets.escape(escape);
        return Ok(3);
    }
    let Some((byte, _)) = bytes.split_first() else {
        return Ok(0);
    };
    if !is_shift(*byte) {
        return Ok(0);
    }
    sets.shift(*byte);
    Ok(1)
}

/// Takes what stands in front that is no text, whether it changes the sets or not, and answers how many bytes it has; 0 where nothing of
/// that kind stands there.
#[inline(never)]
fn take_next<T: Rule>(
    rule: &mut T,
    sets: &mut Sets,
    limit: usize,
    bytes: &[u8],
    out: &mut Vec<u8>,
) -> Result<usize, AllocError>
    ensures within { IfOk result (λ len. len ≤ length bytes.now) }
    ensures goes { IfOk result (λ len. GoesTo T.gives limit (bare_at rule.old sets.old bytes.now)
        (bare_at rule.new sets.new (drop len bytes.now)) out.old.items out.new.items) }
{
    let len = take_control(rule, sets, limit, bytes, out)?;
    if len > 0 {
        return Ok(len);
    }
    let changed = take_change(rule, sets, bytes, out)?;
    Ok(changed)
}

/// Appends what is left of the text and the sequences in front, and answers the bytes behind them.
fn append_glance<'a, T: Rule>(
    rule: &mut T,
    sets: &mut Sets,
    limit: usize,
    bytes: &'a [u8],
    out: &mut Vec<u8>,
) -> Result<&'a [u8], AllocError>
    ensures { IfOk result (λ rest. GoesTo T.gives limit (bare_at rule.old sets.old bytes.now)
        (bare_at rule.new sets.new rest.now) out.old.items out.new.items) }
{
    let mut rest = bytes;
    let mut more = true;
    while more {
        let behind = append_ahead(rule, sets, limit, rest, out)?;
        let len = take_next(rule, sets, limit, behind, out)?;
        rest = behind.split_at(len).1;
        more = len > 0;
    }
    Ok(rest)
}

/// Whether nothing is open and no byte is held.
fn is_bare(mode: Mode, titled: bool, held: &[u8]) -> bool
    ensures { result ≡ true → (mode ≡ NothingOpen) × (titled ≡ false) × (held.now ≡ []) }
{
    mode == Mode::Text && !titled && held.is_empty()
}

/// The same where nothing is open and no byte is held; else nothing is taken.
pub(crate) fn append_front<'a, T: Rule>(
    rule: &mut T,
    reading: &mut Reading,
    limit: usize,
    mode: Mode,
    held: &[u8],
    bytes: &'a [u8],
    out: &mut Vec<u8>,
) -> Result<&'a [u8], AllocError>
    ensures { IfOk result (λ rest. GoesTo T.gives limit (state_of rule.old mode reading.old bytes.now held.now)
        (state_of rule.new mode reading.new rest.now held.now) out.old.items out.new.items) }
{
    if !is_bare(mode, reading.titled, held) {
        return Ok(bytes);
    }
    append_glance(rule, &mut reading.sets, limit, bytes, out)
}
