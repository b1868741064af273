//! What is noted of a sequence: the text that is written for it, and how that may be joined to others.
ghost use Rattle.std.specs.Prelude.{◌≡◌, ◌+◌, ◌≤◌, ℕ, List, ◌∷◌, true, false, drop, length, take, OnOk};
ghost use Rattle.csicodec_tokens.specs.Sequence.{Seq};
ghost use Rattle.csicodec_compact.specs.Private.Steps.{IsNote, closing, form_of, is_joined, list_of};

use crate::compact::Compact;
use crate::form::TextEnding;
use crate::lists::{Lists, numbers};
use csicodec_base::{CsiParam, TextBuffer};
use csicodec_filter::Rewrite;
use csicodec_transform::Note;
use std::alloc::{AllocError, Global};

/// The note of a sequence: the number of its form, how many numbers it has, and its text. Of a list that is `;`, and the list; what is
/// no list has as many numbers as are joined to none.
#[derive(Drop)]
pub(crate) struct Short;

impl Note for Short {
    ghost use Rattle.csicodec_compact.specs.Private.Steps.{IsNote};

    ghost notes = { λ bytes note. IsNote bytes note };
}

/// The list of a text, without what closes it.
fn list_of(text: &[u8], form: TextEnding) -> &[u8]
    requires { 2 + length (closing form) ≤ length text.now }
    ensures { result.now ≡ list_of form text.now }
{
    let (_, rest) = text.split_at(2);
    let (list, _) = rest.split_at(rest.len() - form.closing().len());
    list
}

/// Writes a note.
fn write_note(note: &mut TextBuffer, form: TextEnding, text: &[u8]) -> Result<(), AllocError>
    requires { is_joined form ≡ true → 2 + length (closing form) ≤ length text.now }
    ensures whole { OnOk result
        (is_joined form ≡ false
        → (mark : ℕ) × (count : ℕ) × (form_of mark ≡ form) × (note.new ≡ mark ∷ count ∷ text.now)) }
    ensures list { OnOk result
        (is_joined form ≡ true
        → (mark : ℕ) × (count : ℕ) × (form_of mark ≡ form) × (1 ≤ count)
        × (note.new ≡ mark ∷ count ∷ 59 ∷ list_of form text.now)) }
{
    note.clear();
    if form.is_joined() {
        note.push_front(&[form.mark(), numbers(text), b';'], 3)?;
        return note.push_slice(list_of(text, form));
    }
    note.push_front(&[form.mark(), u8::MAX], 2)?;
    note.push_slice(text)
}

/// What begins with the note of a sequence in front that is a list of attributes, is written as it came, and ends in the last of so many
/// numbers.
#[inline(always)]
pub(crate) fn open_note(numbers: u8, bytes: &[u8]) -> [u8; 32]
    requires { 31 ≤ length bytes.now }
    ensures { (mark : ℕ) × (form_of mark ≡ TextEnding.Open)
        × (result ≡ mark ∷ numbers ∷ 59 ∷ take 29 (drop 2 bytes.now)) }
{
    let mut note = [0; 32];
    note[..3].copy_from_slice(&[TextEnding::Open.mark(), numbers, b';']);
    note[3..].copy_from_slice(bytes.split_at(2).1.split_at(29).0);
    note
}

/// Finds what is noted of sequences.
#[derive(Drop)]
pub(crate) struct Notes {
    compact: Compact,
    lists: Lists,
    text: Vec<u8>,
    note: TextBuffer,
}

impl Notes {
    /// With nothing noted.
    pub(crate) fn new(alloc: Global, compact: Compact) -> Notes {
        Notes {
            compact,
            lists: Lists::new(alloc),
            text: Vec::new(alloc),
            note: TextBuffer::new(alloc),
        }
    }

    /// Finds what is noted of a sequence, and answers it.
    pub(crate) fn find(
        &mut self,
        bytes: &[u8],
        params: &[CsiParam],
        control: char,
    ) -> Result<(), AllocError>
        requires { Seq bytes.now params.now control }
        ensures { OnOk result (IsNote bytes.now self.new.note) }
    {
        self.text.clear();
        self.compact
            .rewrite(bytes, params, control, &mut self.text)?;
        let form = self.lists.form(&self.text, bytes, params, control)?;
        write_note(&mut self.note, form, &self.text)?;
        Ok(())
    }

    /// What was found last.
    pub(crate) fn note(&self) -> &[u8]
        ensures { result.now ≡ self.now.note }
    {
        self.note.as_slice()
    }
}
