//! The fields of a parameter list.
ghost use Rattle.std.specs.Prelude.{◌≡◌, ◌<◌, ℤ, List, [], true, length, map, Option, None, Some, option_map, option_copied, slice_index_or, IfOk, IfErr, OnErr, MatchOption, MatchResult};
ghost use Rattle.std.specs.{Option.ok_or, List.list_all, List.AllByRecursion};
ghost use Rattle.csicodec_tokens.specs.{declared.param.CsiParam.TheVariants.Integer, declared.refusal.ParseRefusal.TheVariants.Memory, Fields.Fields};
ghost use Rattle.csicodec_tokens.specs.{Fields.RefusesFields, Fields.fields_of, Private.FieldsBy.is_field_token, Private.FieldsBy.number_in, Private.FieldsBy.IsField};
ghost use Rattle.csicodec_tokens.specs.{Private.FieldsBy.IsFirstField};

use crate::param::CsiParam;
use crate::refusal::{NotSpelled, ParseRefusal};
use std::alloc::{AllocError, Global};
use std::marker::Model;

/// The fields of a parameter list: each a number, or empty.
///
/// A number is a field, with the `;` directly behind it if there is one; any other `;` is an empty field. So `1;;2` has
/// the fields 1, none and 2; `6;` has 6 alone; and `6;;` has 6 and none. The window operations of dtterm and xterm
/// (`CSI .. t`) are read field by field.
///
/// ```text
/// let read = read_csi(alloc, b"\x1b[4;;7t")?;
/// let fields = Cracked::parse(alloc, &read.params)?;      // fields.len() is 3
/// fields.opt_int(1)                                       // None
/// fields.int(2)                                           // Ok(7)
/// fields.int(3)                                           // Err(NotSpelled)
/// ```
#[derive(Drop)]
pub struct Cracked {
    fields: Vec<Option<CsiParam>>,
}

impl Model for Cracked {
    ghost Value = { List (Option ℤ) };

    ghost view = { λ cracked. map number_in cracked.fields.items };

    ghost invariant = { λ cracked. AllByRecursion IsField cracked.fields.items };
}

impl Cracked {
    /// The fields of a list. `NotSpelled` where another byte than `;` stands in it, and `Memory` only for a list with
    /// at least one field.
    #[tactic(auto, using(std::proofs::lemmas::Result::err_from_is_err_and, crate::proofs::FieldsOf::have_tokens, crate::proofs::FieldsOf::wants_memory))]
    pub fn parse(alloc: Global, params: &[CsiParam]) -> Result<Cracked, ParseRefusal>
        // What is answered are fields of the list.
        ensures found { IfOk result (λ cracked. Fields params.now cracked) }
        // Where a list has fields, they are answered, unless there is no memory for them.
        ensures only { (f : List (Option ℤ)) → Fields params.now f
            → MatchResult result (λ cracked. cracked ≡ f) (λ e. (e ≡ Memory) × (0 < length f)) }
        ensures refused { IfErr result (RefusesFields params.now) }
    {
        if !are_field_tokens(params) {
            return Err(ParseRefusal::NotSpelled);
        }
        Ok(Cracked {
            fields: all_fields(alloc, params)?,
        })
    }

    /// The number of a field as the token that it was read from; none where the field is empty, or the list has no
    /// such field. The first has the index 0.
    pub fn get(&self, idx: usize) -> Option<&CsiParam>
        ensures { option_copied result ≡ option_map Integer (slice_index_or self.now idx None) }
    {
        self.fields.get(idx)?.as_ref()
    }

    /// The number of a field; none where the field is empty, or the list has no such field.
    pub fn opt_int(&self, idx: usize) -> Option<i64>
        ensures { result ≡ slice_index_or self.now idx None }
    {
        self.get(idx)?.as_integer()
    }

    /// The number of a field. `NotSpelled` where the field is empty, or the list has no such field.
    pub fn int(&self, idx: usize) -> Result<i64, NotSpelled>
        ensures { result ≡ ok_or (slice_index_or self.now idx None) (record {}) }
    {
        self.opt_int(idx).ok_or(NotSpelled)
    }

    /// How many fields there are, the empty ones too.
    pub fn len(&self) -> usize
        ensures { result ≡ length self.now }
    {
        self.fields.len()
    }
}

/// No byte but `;` stands in a list with fields.
fn are_field_tokens(params: &[CsiParam]) -> bool
    ensures { result ≡ list_all is_field_token params.now }
{
    params.iter().all(|token| match token {
        CsiParam::Integer(_) => true,
        CsiParam::P(byte) => *byte == b';',
    })
}

/// The field at the front, and what stands behind its block.
fn first_field(params: &[CsiParam]) -> Option<(Option<CsiParam>, &[CsiParam])>
    requires { list_all is_field_token params.now ≡ true }
    ensures { MatchOption result (params.now ≡ []) (λ x. IsFirstField params.now x.0 x.1.now) }
{
    match params {
        [] => None,
        [CsiParam::P(_), others @ ..] => Some((None, others)),
        [number, CsiParam::P(_), others @ ..] => Some((Some(*number), others)),
        [number, others @ ..] => Some((Some(*number), others)),
    }
}

/// Each field in turn.
fn all_fields(alloc: Global, params: &[CsiParam]) -> Result<Vec<Option<CsiParam>>, AllocError>
    requires { list_all is_field_token params.now ≡ true }
    ensures ok { IfOk result (λ v. AllByRecursion IsField v.items
        × (fields_of params.now ≡ Some (map number_in v.items))) }
    ensures err { OnErr result (0 < length params.now) }
{
    let mut fields = Vec::new(alloc);
    let mut rest = params;
    while let Some((field, others)) = first_field(rest) {
        fields.push(field)?;
        rest = others;
    }
    Ok(fields)
}
