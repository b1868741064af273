//! Runs of control sequences side by side.
ghost use Rattle.std.specs.Prelude.{◌≡◌, ◌≤◌, ◌++◌, ℕ, List, [], ◌∷◌, true, drop, length, take, OnOk};
ghost use Rattle.csicodec_spans.specs.{declared.table.Kind.TheVariants.Csi as Sequence, Parts.part};
ghost use Rattle.csicodec_compact.specs.Private.Steps.{Begins, GoesOnBy, IsNote, behind, closing, joint, may_join, opened};

use crate::encode::NUMBERS;
use crate::form::TextEnding;
use csicodec_base::TextBuffer;
use csicodec_streams::append_front;
use std::alloc::AllocError;

/// A list without the `;` in front.
#[inline(always)]
fn behind_mark(text: &[u8]) -> &[u8]
    ensures { result.now ≡ drop 1 text.now }
{
    text.get(1..).unwrap_or(text)
}

/// Whether a text of this form may be joined to what is held. Behind a list that ends in `;` a further one ahead of a `;` would be no
/// 0 of its own.
#[inline(always)]
fn may_join(held: TextEnding, form: TextEnding, text: &[u8]) -> bool
    ensures { result ≡ true → may_join held form text.now ≡ true }
{
    match held {
        TextEnding::Whole | TextEnding::Last => false,
        TextEnding::Open => form.is_joined(),
        TextEnding::Blank | TextEnding::Bare => form.is_joined()
            && !matches!(text.get(1), Some(b';')),
    }
}

/// Appends a text, with which `wide` begins: by one copy of a fixed length, if it is short.
#[inline(always)]
fn append_text(text: &[u8], wide: &[u8], out: &mut TextBuffer) -> Result<(), AllocError>
    requires { Begins text.now wide.now }
    ensures { OnOk result (out.new ≡ out.old ++ text.now) }
{
    match wide.first_chunk::<32>() {
        Some(front) if text.len() <= 32 => out.push_front(front, text.len()),
        _ => out.push_slice(text),
    }
}

/// How what was written ends: the last of it may be a list of attributes that goes on.
#[derive(Drop)]
pub(crate) struct Written {
    form: TextEnding,
    /// How many numbers may still be joined; none where nothing goes on.
    room: usize,
}

impl Written {
    /// Nothing goes on.
    pub(crate) fn new() -> Written
        ensures { result.form ≡ TextEnding.Whole }
    {
        Written {
            form: TextEnding::Whole,
            room: 0,
        }
    }

    /// Ends the list that goes on.
    #[inline(always)]
    pub(crate) fn close(&mut self, out: &mut TextBuffer) -> Result<(), AllocError>
        ensures text { OnOk result (out.new ≡ out.old ++ closing self.old.form) }
        ensures form { self.new.form ≡ TextEnding.Whole }
    {
        let form = self.form;
        *self = Written::new();
        match form {
            TextEnding::Whole | TextEnding::Last => Ok(()),
            TextEnding::Open | TextEnding::Bare => out.push_front(b"m", 1),
            TextEnding::Blank => out.push_front(b"0m", 2),
        }
    }

    /// Ends the open list in a vector.
    pub(crate) fn close_into(&mut self, out: &mut Vec<u8>) -> Result<(), AllocError>
        ensures text { OnOk result (out.new.items ≡ out.old.items ++ closing self.old.form) }
        ensures form { self.new.form ≡ TextEnding.Whole }
    {
        let form = self.form;
        *self = Written::new();
        out.extend_from_slice(form.closing())
    }

    /// Goes on with a text that stands by itself.
    #[inline(always)]
    #[tactic(auto, using(crate::proofs::Beside::begins_one))]
    fn start(
        &mut self,
        form: TextEnding,
        text: &[u8],
        wide: &[u8],
        out: &mut TextBuffer,
    ) -> Result<(), AllocError>
        requires { Begins text.now wide.now }
        ensures text { OnOk result
            (out.new ≡ (out.old ++ closing self.old.form) ++ opened form text.now) }
        ensures form { OnOk result (self.new.form ≡ form) }
    {
        self.close(out)?;
        self.form = form;
        if form.is_joined() {
            out.push_front(b"\x1b[", 2)?;
            return append_text(behind_mark(text), behind_mark(wide), out);
        }
        append_text(text, wide, out)
    }

    /// Goes on with a text in the same list. Behind a list that ends in `;` an empty one is written as 0.
    #[inline(always)]
    fn join(
        &mut self,
        form: TextEnding,
        text: &[u8],
        wide: &[u8],
        out: &mut TextBuffer,
    ) -> Result<(), AllocError>
        requires { Begins text.now wide.now }
        ensures text { OnOk result (out.new ≡ out.old ++ joint self.old.form form text.now) }
        ensures form { OnOk result (self.new.form ≡ behind self.old.form form) }
        ensures room { self.new.room ≡ self.old.room }
    {
        if !matches!(form, TextEnding::Bare) {
            self.form = form;
            return append_text(text, wide, out);
        }
        if matches!(self.form, TextEnding::Open) {
            self.form = TextEnding::Blank;
            return append_text(text, wide, out);
        }
        self.form = TextEnding::Open;
        out.push_front(b";0", 2)
    }

    /// Writes what is noted of one control sequence: joined to what was written, or behind it. `wide` begins with the note.
    #[inline(always)]
    #[tactic(auto, using(crate::proofs::Beside::begins_two))]
    pub(crate) fn take(
        &mut self,
        note: &[u8],
        wide: &[u8],
        out: &mut TextBuffer,
    ) -> Result<(), AllocError>
        requires long { 2 ≤ length note.now }
        requires wide { Begins note.now wide.now }
        ensures { OnOk result ((bytes : List ℕ) → IsNote bytes note.now
            → GoesOnBy self.old.form self.old.room (part Sequence bytes ∷ []) out.old out.new
            self.new.form self.new.room) }
    {
        let (marks, text) = note.split_at(2);
        let (_, wide) = wide.split_at(2);
        let form = TextEnding::of(marks[0]);
        let numbers = usize::from(marks[1]);
        if numbers <= self.room && may_join(self.form, form, text) {
            self.room -= numbers;
            self.join(form, text, wide, out)?;
            return Ok(());
        }
        self.start(form, text, wide, out)?;
        self.room = NUMBERS.saturating_sub(numbers);
        Ok(())
    }

    /// Writes so many bytes in front as they came: the list before them is over.
    #[inline(always)]
    pub(crate) fn pass(
        &mut self,
        bytes: &[u8],
        len: usize,
        out: &mut TextBuffer,
    ) -> Result<(), AllocError>
        requires { len ≤ length bytes.now }
        ensures text { OnOk result
            (out.new ≡ (out.old ++ closing self.old.form) ++ take len bytes.now) }
        ensures form { self.new.form ≡ TextEnding.Whole }
    {
        self.close(out)?;
        append_front(bytes, len, out)
    }
}
