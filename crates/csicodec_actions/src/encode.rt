//! How one parameter is written, and two.
ghost use Rattle.std.specs.{Fmt.decimal, Prelude.◌≡◌, Prelude.◌==◌, Prelude.◌<◌, Prelude.◌≤◌, Prelude.◌++◌, Prelude.◌∷◌, Prelude.if◌then◌else◌};
ghost use Rattle.csicodec_actions.specs.{Kinds.Count, Written.Unless, Written.shown, Written.two, Common.[], Common.length};

use csicodec_base::{OneBased, Text};

/// A count, unless it is 1, and the final byte.
pub(crate) fn write_count(text: &mut Text, count: u32, control: u8)
    requires room { length text.old ≤ 20 }
    requires ascii { control < 128 }
    ensures { text.new ≡ text.old ++ shown (Unless 1 Count count ∷ []) (control ∷ []) }
{
    if count != 1 {
        text.push_u32(count);
    }
    text.push(control);
}

/// The number of a choice, unless it is 0, and the final byte.
pub(crate) fn write_choice(text: &mut Text, number: u8, control: u8)
    requires room { length text.old ≤ 20 }
    requires ascii { control < 128 }
    ensures { text.new ≡ text.old ++ (if number == 0 then control ∷ [] else decimal number ++ control ∷ []) }
{
    if number != 0 {
        text.push_u8(number);
    }
    text.push(control);
}

/// Two numbers with a `;` between them, and the final byte.
pub(crate) fn write_pair(text: &mut Text, first: OneBased, second: OneBased, control: u8)
    requires room { length text.old ≤ 10 }
    requires ascii { control < 128 }
    ensures { text.new ≡ text.old ++ shown (two Count first second) (control ∷ []) }
{
    text.push_u32(first.as_one_based());
    text.push(b';');
    text.push_u32(second.as_one_based());
    text.push(control);
}
