//! The front of a line that is written as it comes: text, and sequences that do no more than to set how it looks.
ghost use Rattle.std.specs.{Prelude.◌≡◌, Prelude.◌<◌, Prelude.◌≤◌, Prelude.◌++◌, Prelude.ℕ, Prelude.List, Prelude.false, Prelude.true, Prelude.encode_utf8_all};
ghost use Rattle.std.specs.{Prelude.length, Prelude.IfOk, Prelude.OnOk, List.AllByRecursion};
ghost use Rattle.csicodec_clean.specs.{Shown.IsShown, Sets.in_use};
ghost use Rattle.csicodec_looks.specs.{Turns.AreTurns, Paint.turn, Paint.written, declared.sets.Set.TheVariants.Ascii};
ghost use Rattle.csicodec_overwrite.specs.{Turned.AreLooks, Turned.SetsLook, Turned.Turned, Private.Front.IsStyled, Private.Front.IsTurned, Private.Front.IsWritten};
ghost use Rattle.csicodec_overwrite.specs.{Private.Front.last_of_run, Private.Front.run_text, Stream.none_in};

use crate::line_text::split_text;
use crate::reader::Reader;
use csicodec_clean::Sets;
use csicodec_looks::paint::append_turn;
use csicodec_looks::{InFront, Look, Marking, Pen, Step, Turning, Turns, append_text, style_len};
use csicodec_spans::LIMIT;
use std::alloc::AllocError;

/// What control sequences turn where lines are written so, and text is read in these sets.
#[derive(Drop)]
pub(crate) struct Turner<'a>(pub(crate) &'a Marking, pub(crate) Sets);

impl Turning for Turner<'_> {
    ghost use Rattle.csicodec_overwrite.specs.{Stream.none_in, Turned.Turned};

    ghost turns = { λ by. Turned (none_in by.1) by.0.now };
}

/// Whether steps do no more than to set how characters look, where nothing stands right of the cursor; they look so then. Where one does
/// more, characters look as before.
#[inline(never)]
fn turn_all(look: &mut Look, steps: &[Step]) -> bool
    ensures looks { result ≡ true → AreLooks look.old steps.now look.new }
    ensures kept { result ≡ false → look.new ≡ look.old }
{
    let before = *look;
    let mut rest = steps;
    while let Some((step, behind)) = rest.split_first() {
        match *step {
            Step::Attribute(attribute) => look.set(&attribute),
            Step::EraseRight | Step::Other => (),
            _ => {
                *look = before;
                return false;
            }
        }
        rest = behind;
    }
    true
}

/// The same of bytes, if there are some, where text is read in these sets. `steps` is a place for their steps.
#[inline(always)]
fn turn_bytes(
    reader: &mut Reader,
    steps: &mut Vec<Step>,
    sets: Sets,
    look: &mut Look,
    bytes: &[u8],
) -> Result<bool, AllocError>
    requires { reader.old ≡ none_in sets }
    ensures sets { IfOk result (λ turned. turned ≡ true → SetsLook (none_in sets) bytes.now look.old look.new) }
    ensures some { IfOk result (λ turned. turned ≡ true → 0 < length bytes.now) }
    ensures kept { IfOk result (λ turned. turned ≡ false → look.new ≡ look.old) }
    ensures bare { OnOk result (reader.new ≡ none_in sets) }
{
    if bytes.is_empty() {
        return Ok(false);
    }
    if let Some(known) = reader.recall(bytes)
        && known.after == sets
    {
        return Ok(turn_all(look, &known.steps));
    }
    steps.clear();
    reader.push(bytes, steps)?;
    if !reader.is_bare() || reader.sets() != sets {
        reader.clear(sets);
        return Ok(false);
    }
    Ok(turn_all(look, steps))
}

/// The front of a line that is written.
#[derive(Clone, Copy)]
pub(crate) struct LineFront<'a> {
    /// What is behind it.
    pub(crate) rest: &'a [u8],
    /// How the character looks that was written last.
    pub(crate) last: Look,
    /// How those look that come.
    pub(crate) now: Look,
    /// Whether those look as that one.
    even: bool,
    /// A line has room while no fewer bytes are left.
    least: usize,
}

/// Appends text of characters that are shown.
pub(crate) fn append_written(
    marking: &Marking,
    text: &[u8],
    out: &mut Vec<u8>,
) -> Result<(), AllocError>
    ensures { OnOk result ((chars : List ℕ) → AllByRecursion IsShown chars → text.now ≡ encode_utf8_all chars
        → out.new.items ≡ out.old.items ++ written marking.now chars) }
{
    match marking {
        Marking::Plain | Marking::Styled => Ok(out.extend_from_slice(text)?),
        Marking::Page(_) => append_text(text, out),
    }
}

/// Appends text that looks as `now`, behind a character that looks as `last`, which is how the last character looks then.
#[inline(never)]
fn append_run(
    last: &mut Look,
    now: &Look,
    run: &[u8],
    marking: &Marking,
    out: &mut Vec<u8>,
) -> Result<(), AllocError>
    ensures looks { OnOk result (last.new ≡ last_of_run last.old now.now run.now) }
    ensures text { OnOk result ((chars : List ℕ) → AllByRecursion IsShown chars → run.now ≡ encode_utf8_all chars
        → out.new.items ≡ out.old.items ++ run_text marking.now last.old now.now chars) }
{
    if run.is_empty() {
        return Ok(());
    }
    append_turn(marking, last, now, out)?;
    *last = *now;
    append_written(marking, run, out)
}

/// Appends the turn of the sequence in front, of `len` bytes, if that sets how characters look, and answers whether it does. One that isn't
/// known is read, and kept.
#[inline(always)]
fn append_even(
    reader: &mut Reader,
    steps: &mut Vec<Step>,
    turns: &mut Turns,
    by: &Turner<'_>,
    front: &mut LineFront<'_>,
    len: usize,
    out: &mut Vec<u8>,
) -> Result<bool, AllocError>
    requires bare { reader.old ≡ none_in by.now.1 }
    requires known { AreTurns (Turned (none_in by.now.1) by.now.0.now) turns.old.kept.items }
    requires some { (0 < len) × (len ≤ length front.old.rest.now) }
    requires even { front.old.last ≡ front.old.now }
    ensures turned { IfOk result (λ is. is ≡ true → IsTurned (none_in by.now.1) by.now.0.now front.old len front.new
        × (out.new.items ≡ out.old.items ++ turn by.now.0.now front.old.last front.new.now)) }
    ensures none { IfOk result (λ is. is ≡ false → (front.new ≡ front.old) × (out.new.items ≡ out.old.items)) }
    ensures bare { OnOk result (reader.new ≡ none_in by.now.1) }
    ensures known { AreTurns (Turned (none_in by.now.1) by.now.0.now) turns.new.kept.items }
{
    let bytes = front.rest;
    let known = InFront {
        bytes,
        least: len,
        most: len,
    };
    if turns.recall(by, &mut front.now, known, out)? > 0 {
        front.last = front.now;
        return Ok(true);
    }
    let (sequence, before) = (bytes.split_at(len).0, out.len());
    if !turn_bytes(reader, steps, by.1, &mut front.now, sequence)? {
        return Ok(false);
    }
    append_turn(by.0, &front.last, &front.now, out)?;
    let tags = out.split_at(before).1;
    turns.keep(by, sequence, front.last, front.now, tags)?;
    front.last = front.now;
    Ok(true)
}

/// Appends the turn of a sequence in front that sets how characters look, and the text behind it, if the line has room for that. It answers
/// whether it did; where it didn't, nothing changes.
fn append_styled<'a>(
    reader: &mut Reader,
    steps: &mut Vec<Step>,
    turns: &mut Turns,
    by: &Turner<'_>,
    front: &mut LineFront<'a>,
    out: &mut Vec<u8>,
) -> Result<bool, AllocError>
    requires bare { reader.old ≡ none_in by.now.1 }
    requires known { AreTurns (Turned (none_in by.now.1) by.now.0.now) turns.old.kept.items }
    requires even { front.old.even ≡ true → front.old.last ≡ front.old.now }
    ensures styled { IfOk result (λ is. is ≡ true → IsStyled (none_in by.now.1) by.now.0.now front.old out.old.items front.new out.new.items) }
    ensures fewer { IfOk result (λ is. is ≡ true → length front.new.rest.now < length front.old.rest.now) }
    ensures none { IfOk result (λ is. is ≡ false → (front.new ≡ front.old) × (out.new.items ≡ out.old.items)) }
    ensures bare { OnOk result (reader.new ≡ none_in by.now.1) }
    ensures known { AreTurns (Turned (none_in by.now.1) by.now.0.now) turns.new.kept.items }
    ensures even { OnOk result (front.new.even ≡ true → front.new.last ≡ front.new.now) }
{
    let len = style_len(front.rest);
    let (sequence, others) = front.rest.split_at(len);
    let (run, behind) = split_text(others);
    if len == 0 || behind.len() < front.least {
        return Ok(false);
    }
    if front.even && by.0.shows_looks() && !run.is_empty() {
        if !append_even(reader, steps, turns, by, front, len, out)? {
            return Ok(false);
        }
        front.rest = behind;
        append_written(by.0, run, out)?;
        return Ok(true);
    }
    if !turn_bytes(reader, steps, by.1, &mut front.now, sequence)? {
        return Ok(false);
    }
    front.rest = behind;
    append_run(&mut front.last, &front.now, run, by.0, out)?;
    front.even = !run.is_empty();
    turns.stand(&front.now);
    Ok(true)
}

/// Appends the front of a line that was blank, up to the first byte that is of no text, nor of a sequence that sets how it looks.
/// A line has room for it. Where lines show that, what sequences turn is looked up in `turns`, and kept there.
pub(crate) fn append_front<'a>(
    reader: &mut Reader,
    steps: &mut Vec<Step>,
    turns: &mut Turns,
    pen: Pen,
    by: &Turner<'_>,
    bytes: &'a [u8],
    out: &mut Vec<u8>,
) -> Result<LineFront<'a>, AllocError>
    requires bare { reader.old ≡ none_in by.now.1 }
    requires ascii { in_use by.now.1 ≡ Ascii }
    requires over { pen.inserts ≡ false }
    requires known { AreTurns (Turned (none_in by.now.1) by.now.0.now) turns.old.kept.items }
    ensures written { IfOk result (λ f. IsWritten (none_in by.now.1) by.now.0.now pen bytes.now out.old.items f out.new.items) }
    ensures bare { OnOk result (reader.new ≡ none_in by.now.1) }
    ensures known { AreTurns (Turned (none_in by.now.1) by.now.0.now) turns.new.kept.items }
{
    let (run, behind) = split_text(bytes);
    let mut front = LineFront {
        rest: bytes,
        last: Look::plain(),
        now: pen.look,
        even: false,
        least: bytes.len().saturating_sub(LIMIT / 8),
    };
    if behind.len() < front.least {
        return Ok(front);
    }
    append_run(&mut front.last, &pen.look, run, by.0, out)?;
    front.rest = behind;
    front.even = front.last == front.now;
    turns.stand(&pen.look);
    while append_styled(reader, steps, turns, by, &mut front, out)? {}
    Ok(front)
}
