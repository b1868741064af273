//! A control sequence that a row of the table reads.
ghost use Rattle.std.specs.{Prelude.◌≡◌, Prelude.◌≤◌, Prelude.Some, Prelude.length, Prelude.slice_get, Fmt.WritesOnOk, Option.option_map};
ghost use Rattle.csicodec_sequences.specs.{Known.first_reading, Known.reading, Known.reading_of, Known.rows_of, Rows.behind_text, Rows.byte_text, Rows.form_text};
ghost use Rattle.csicodec_sequences.specs.{Rows.numbers_text};

use crate::row::{MOST, NumberSlot, SequenceForm, SlotValues};
use crate::rows::dec::{DEC_FORMS, DEC_SLOTS, DEC_TEXTS};
use crate::rows::others::{OTHER_FORMS, OTHER_SLOTS, OTHER_TEXTS};
use crate::rows::reports::{REPORT_FORMS, REPORT_SLOTS, REPORT_TEXTS};
use csicodec_base::CsiParam;
use csicodec_parser::Unspecified;
use std::fmt;

/// A control sequence that has no action, by its row of the table and its values. It prints its numbers and its final
/// character, without `ESC [`: each number that was left out with its value, so that what it prints is read as the same
/// values of the same row.
///
/// ```text
/// "\x1b[?2K"         the row DECSEL, with the value 2
/// "\x1b[3'}"         the row DECIC, with the value 3
/// "\x1b['}"          the row DECIC, with the value 1; prints "1'}"
/// ```
#[derive(Drop)]
pub struct KnownSequence {
    form: SequenceForm,
    texts: Option<&'static [&'static str; 4]>,
    values: SlotValues,
}

impl KnownSequence {
    /// The row and the values of a list without an action; none where no row reads it. It takes no memory.
    pub fn of(unknown: &Unspecified) -> Option<KnownSequence>
        ensures { option_map reading_of result
            ≡ reading unknown.now.params.items unknown.now.control }
    {
        KnownSequence::read(&unknown.params, unknown.control)
    }

    /// The row and the values of a list before a final character; none where no row reads it. No row reads a list that an
    /// action has (law `no_action`), and no two read one list (law `one_row`).
    pub fn read(params: &[CsiParam], control: char) -> Option<KnownSequence>
        ensures { option_map reading_of result ≡ reading params.now control }
    {
        if let Some(known) = first_known(&DEC_FORMS, &DEC_SLOTS, &DEC_TEXTS, params, control) {
            return Some(known);
        }
        if let Some(known) = first_known(
            &OTHER_FORMS,
            &OTHER_SLOTS,
            &OTHER_TEXTS,
            params,
            control,
        ) {
            return Some(known);
        }
        first_known(&REPORT_FORMS, &REPORT_SLOTS, &REPORT_TEXTS, params, control)
    }

    /// What is said of the row: its name, its meaning, its source, and the names of its numbers.
    fn texts(&self) -> [&'static str; 4] {
        self.texts.copied().unwrap_or([""; 4])
    }

    /// The form.
    pub fn form(&self) -> &SequenceForm
        ensures { result.now ≡ self.now.form }
    {
        &self.form
    }

    /// Its name: the mnemonic of its source.
    pub fn name(&self) -> &'static str {
        self.texts()[0]
    }

    /// What a terminal does, or what it says by it.
    pub fn meaning(&self) -> &'static str {
        self.texts()[1]
    }

    /// Where it is from: the document, and in it the clause or the heading.
    pub fn source(&self) -> &'static str {
        self.texts()[2]
    }

    /// The names of its numbers, in order, a `;` behind each; the last one of a row with further numbers is that of all that
    /// follow.
    pub fn numbers(&self) -> &'static str {
        self.texts()[3]
    }

    /// The values, in the order of the row's slots.
    pub fn values(&self) -> &[u32]
        ensures value { result.now ≡ self.now.values.items }
        ensures few { length result.now ≤ 12 }
    {
        self.values.as_slice()
    }

    /// The value of the slot with this index, from 0 on; none where the row has no such slot, or the list ended ahead of it.
    pub fn value(&self, index: usize) -> Option<u32>
        ensures { result ≡ slice_get self.now.values.items index }
    {
        self.values.as_slice().get(index).copied()
    }
}

/// The values of a list by the first row of a table that reads it; these are the table's forms and slots, and what is said of each.
fn first_known(
    forms: &[SequenceForm],
    slots: &[[NumberSlot; MOST]],
    texts: &'static [[&'static str; 4]],
    params: &[CsiParam],
    control: char,
) -> Option<KnownSequence>
    requires { length forms.now ≡ length slots.now }
    ensures { option_map reading_of result
        ≡ first_reading (rows_of forms.now slots.now) params.now control }
{
    for index in 0..forms.len() {
        let form = forms[index];
        if let Some(values) = form.read(&slots[index], params, control) {
            return Some(KnownSequence {
                form,
                texts: texts.get(index),
                values,
            });
        }
    }
    None
}

impl fmt::Display for KnownSequence {
    ghost output = { λ known. Some (form_text known.form known.values.items) };

    fn fmt<W: fmt::Write>(&self, f: &mut fmt::Formatter<W>) -> fmt::Result {
        write_byte(self.form.marker, f)?;
        write_numbers(self.values.as_slice(), f)?;
        write_byte(self.form.intermediate, f)?;
        f.write_char(self.form.control)
    }
}

/// Writes a byte, unless it is 0.
fn write_byte<W: fmt::Write>(byte: u8, f: &mut fmt::Formatter<W>) -> fmt::Result
    ensures { WritesOnOk W.write_str_gives f.old result (byte_text byte) f.new }
{
    if byte == 0 {
        return Ok(());
    }
    f.write_char(char::from(byte))
}

/// Writes numbers, with a `;` between two.
fn write_numbers<W: fmt::Write>(values: &[u32], f: &mut fmt::Formatter<W>) -> fmt::Result
    ensures { WritesOnOk W.write_str_gives f.old result (numbers_text values.now) f.new }
{
    match values {
        [] => Ok(()),
        [first, others @ ..] => {
            write!(f, "{first}")?;
            write_behind(others, f)
        }
    }
}

/// Writes each number behind a `;`.
fn write_behind<W: fmt::Write>(values: &[u32], f: &mut fmt::Formatter<W>) -> fmt::Result
    ensures { WritesOnOk W.write_str_gives f.old result (behind_text values.now) f.new }
{
    for value in values {
        write!(f, ";{value}")?;
    }
    Ok(())
}
