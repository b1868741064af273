//! A row of the table: the form of a control sequence, with the numbers that it has, and what is said of it.
ghost use Rattle.std.specs.{Prelude.◌≡◌, Prelude.◌≤◌, Prelude.length, Option.option_map};
ghost use Rattle.csicodec_sequences.specs.Rows.{counted, read_row, slot_value, slot_values};

use crate::parts::Parts;
use arrayvec::ArrayVec;
use csicodec_actions::fields::{Fields, fields_in};
use csicodec_base::CsiParam;

/// How many numbers a form has at most.
pub const MOST: usize = 12;

/// How many tokens a list has at most that a row reads: two bytes, and 12 numbers with a `;` behind each (law `longest`).
pub const LONGEST: usize = 26;

/// The values of a row, one for each of its slots, but for those at the end that may be missing.
pub type SlotValues = ArrayVec<u32, MOST>;

/// One number of a control sequence: which numbers count, and what it is where it is left out.
#[derive(Clone, Copy)]
pub struct NumberSlot {
    /// The least number that counts.
    pub first: u32,
    /// The largest number that counts.
    pub last: u32,
    /// What it is where it is left out; none where it has to stand there.
    pub missing: Option<u32>,
    /// Whether the list may end ahead of it, so that it and those behind it have no value.
    pub optional: bool,
}

impl NumberSlot {
    /// The value of a field: the number, where it counts, and where the field is empty or missing what the slot says.
    pub fn value(&self, number: Option<i64>) -> Option<u32>
        ensures { result ≡ slot_value self.now number }
    {
        match number {
            None => self.missing,
            Some(number) => self.count(number),
        }
    }

    /// The number, where it counts.
    fn count(&self, number: i64) -> Option<u32>
        ensures { result ≡ counted self.now number }
    {
        if number < i64::from(self.first) || number > i64::from(self.last) {
            return None;
        }
        Some(number as u32)
    }
}

/// The form of a control sequence: the bytes around its numbers.
#[derive(Clone, Copy)]
pub struct SequenceForm {
    /// Which row it is of: a number above 10000 that no other row has, and that never changes.
    pub kind: u32,
    /// The byte at the front that makes it private, one of `<` `=` `>` `?`; 0 where there is none.
    pub marker: u8,
    /// The intermediate byte; 0 where there is none.
    pub intermediate: u8,
    /// The final character.
    pub control: char,
}

impl SequenceForm {
    /// The values of a list before a final character, where it has this form, and numbers as these slots say.
    pub fn read(
        &self,
        slots: &[NumberSlot],
        params: &[CsiParam],
        control: char,
    ) -> Option<SlotValues>
        requires { length slots.now ≤ 12 }
        ensures { option_map (λ v. v.items) result
            ≡ read_row (record { form = self.now; slots = slots.now }) params.now control }
    {
        if control != self.control {
            return None;
        }
        let parts = Parts::of(params);
        if parts.marker != self.marker || parts.intermediate != self.intermediate {
            return None;
        }
        read_slots(slots, fields_in(parts.body)?)
    }
}

/// The values of fields, one for each slot.
fn read_slots(slots: &[NumberSlot], mut fields: Fields<'_>) -> Option<SlotValues>
    requires { length slots.now ≤ 12 }
    ensures { option_map (λ v. v.items) result ≡ slot_values slots.now fields.entry }
{
    let mut values = SlotValues::new();
    for slot in slots {
        if slot.optional && !fields.is_there() {
            return Some(values);
        }
        values.push(slot.value(fields.number())?);
    }
    (!fields.is_there()).then_some(values)
}
