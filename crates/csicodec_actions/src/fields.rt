//! Lists that are read by their fields, where they stand: it takes no memory.
ghost use Rattle.std.specs.{List.list_all, Prelude.◌≡◌};
ghost use Rattle.csicodec_tokens.specs.Private.FieldsBy.{is_field_token};
ghost use Rattle.csicodec_actions.specs.{FieldRows.ahead_of_byte, FieldRows.behind, FieldRows.first, FieldRows.is_there, FieldRows.numbers, FieldRows.value_or};
ghost use Rattle.csicodec_actions.specs.{Kinds.Count, Lent.integers, Common.IfOk, Common.Some, Common.option_map, Common.fields_of};

use csicodec_base::{CsiParam, OneBased};
use std::alloc::{AllocError, Global};
use std::marker::Model;

/// The fields of a list, which is lent, from one of them on.
#[derive(Drop)]
pub struct Fields<'a> {
    rest: &'a [CsiParam],
}

impl<'a> Model for Fields<'a> {
    ghost use Rattle.std.specs.Prelude.{ℤ, List, Option};
    ghost use Rattle.csicodec_actions.specs.Private.FieldsBy.{fields_there};

    ghost Value = { List (Option ℤ) };

    ghost view = { λ fields. fields_there fields.rest.now };
}

impl<'a> Fields<'a> {
    /// The same fields.
    pub fn again(&self) -> Fields<'a>
        ensures { result ≡ self.now }
    {
        Fields { rest: self.rest }
    }

    /// Whether a field stands there, be it an empty one.
    pub fn is_there(&self) -> bool
        ensures { result ≡ is_there self.now }
    {
        !self.rest.is_empty()
    }

    /// The number of the field, none where it is empty or missing. It is passed.
    pub fn number(&mut self) -> Option<i64>
        ensures number { result ≡ first self.old }
        ensures passed { self.new ≡ behind self.old }
    {
        let (number, rest) = match self.rest {
            [] => (None, self.rest),
            [CsiParam::P(_), rest @ ..] => (None, rest),
            [CsiParam::Integer(number), CsiParam::P(_), rest @ ..] => (Some(*number), rest),
            [CsiParam::Integer(number), rest @ ..] => (Some(*number), rest),
        };
        self.rest = rest;
        number
    }

    /// The field as a line or a column, which is 1 where it is missing. It is passed.
    #[tactic(auto, unfolding(crate::specs::Kinds::read))]
    pub fn place(&mut self) -> Option<OneBased>
        ensures place { result ≡ value_or Count 1 (first self.old) }
        ensures passed { self.new ≡ behind self.old }
    {
        match self.number() {
            Some(number) => OneBased::from_esc_param(&CsiParam::Integer(number)).ok(),
            None => Some(OneBased::new(1)),
        }
    }

    /// The tokens of the fields: their numbers are those of the fields.
    #[tactic(auto, using(crate::proofs::FieldsAt::numbers_there))]
    pub fn tokens(&self) -> &'a [CsiParam]
        ensures { integers result.now ≡ numbers self.now }
    {
        self.rest
    }
}

/// Whether no byte but `;` stands in the list.
fn are_field_tokens(list: &[CsiParam]) -> bool
    ensures { result ≡ list_all is_field_token list.now }
{
    list.iter().all(|token| match token {
        CsiParam::Integer(_) => true,
        CsiParam::P(byte) => *byte == b';',
    })
}

/// The fields of a list, if it is a list of fields.
pub fn fields_in(list: &[CsiParam]) -> Option<Fields<'_>>
    ensures { result ≡ fields_of list.now }
{
    if are_field_tokens(list) {
        Some(Fields { rest: list })
    } else {
        None
    }
}

/// What stands ahead of this byte at the end, if it stands there.
pub fn ahead_of(params: &[CsiParam], end: u8) -> Option<&[CsiParam]>
    ensures { option_map (λ front. front.now) result ≡ ahead_of_byte (Some end) params.now }
{
    let (last, front) = params.split_last()?;
    match last {
        CsiParam::P(byte) => (*byte == end).then_some(front),
        CsiParam::Integer(_) => None,
    }
}

/// The numbers among tokens.
pub fn integers_in(alloc: Global, tokens: &[CsiParam]) -> Result<Vec<i64>, AllocError>
    ensures { IfOk result (λ values. values.items ≡ integers tokens.now) }
{
    let mut values = Vec::new(alloc);
    for token in tokens {
        let CsiParam::Integer(value) = token else {
            continue;
        };
        values.push(*value)?;
    }
    Ok(values)
}
