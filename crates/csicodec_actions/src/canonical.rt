//! What several subjects ask of a value: whether it is read back from its own text.
ghost use Rattle.csicodec_actions.specs.{Kinds.Good, Kinds.Any, Kinds.Count, Common.IsTrue, Common.IsSpellable};
ghost use Rattle.std.specs.Prelude.{◌↔◌};

use csicodec_base::{CsiParam, OneBased};

/// A count is read as itself from 1 on.
pub(crate) fn is_count(number: u32) -> bool
    ensures { IsTrue result ↔ Good Count number }
{
    number != 0
}

/// A number that takes a sign is read as itself from 0 on.
pub fn is_said(number: i64) -> bool
    ensures { IsTrue result ↔ Good Any number }
{
    number >= 0
}

/// A line or a column.
pub(crate) fn is_one_based(place: OneBased) -> bool
    ensures { IsTrue result ↔ Good Count place }
{
    is_count(place.as_one_based())
}

/// A token that a sequence can have.
pub fn is_spellable_token(token: &CsiParam) -> bool
    ensures { IsTrue result ↔ IsSpellable token.now }
{
    match token {
        CsiParam::Integer(number) => *number >= 0,
        CsiParam::P(byte) => matches!(byte, b' '..=b'/' | b':'..=b'?'),
    }
}
