//! Tokens of a list, extensions of a terminal and values of graphics: what crosses as a `Param`, both ways.
ghost use Rattle.std.specs.{Prelude.◌≡◌, Prelude.[], Prelude.◌∷◌, Prelude.map, Prelude.⊤, Prelude.IfOk, Prelude.IfSome, Option.option_map};
ghost use Rattle.csicodec_structs.specs.Structs.{AttributeInRange, IsNamedAttribute, TokenInRange, attribute_param, param_of, value_param};
ghost use Rattle.csicodec_structs.specs.{Private.Steps.FindsToken, Private.Steps.FindsTokens, Private.Steps.PutsBehind, declared.structs.Param.Param};

use crate::room::put;
use crate::structs::Param;
use csicodec_actions::DeviceAttribute;
use csicodec_base::CsiParam;
use std::alloc::{AllocError, Global};

/// What crosses as a `Param`.
pub(crate) trait Token: Copy {
    /// Its struct.
    ghost crosses: { Self → Param };

    /// Whether its number is one that its type lets stand.
    ghost in_range: { Self → Type 0 };

    /// Whether it is by its name, if it has one.
    ghost named: { Self → Type 0 };

    fn to_param(self) -> Param
        ensures { result ≡ crosses self };

    /// What the struct stands for, of what is in range, by its name.
    fn of_param(param: Param) -> Option<Self>
        ensures { FindsToken crosses in_range named param result };
}

impl Token for i64 {
    ghost crosses = { value_param };

    ghost in_range = { λ value. ⊤ };

    ghost named = { λ value. ⊤ };

    fn to_param(self) -> Param {
        Param {
            kind: 0,
            value: self,
        }
    }

    fn of_param(param: Param) -> Option<i64> {
        (param.kind == 0).then_some(param.value)
    }
}

impl Token for CsiParam {
    ghost crosses = { param_of };

    ghost in_range = { TokenInRange };

    ghost named = { λ token. ⊤ };

    fn to_param(self) -> Param {
        match self {
            CsiParam::Integer(value) => Param { kind: 0, value },
            CsiParam::P(byte) => Param {
                kind: 1,
                value: i64::from(byte),
            },
        }
    }

    fn of_param(param: Param) -> Option<CsiParam> {
        match param.kind {
            0 => Some(CsiParam::Integer(param.value)),
            1 => Some(CsiParam::P(u8::try_from(param.value).ok()?)),
            _ => None,
        }
    }
}

impl Token for DeviceAttribute {
    ghost crosses = { attribute_param };

    ghost in_range = { AttributeInRange };

    ghost named = { IsNamedAttribute };

    fn to_param(self) -> Param {
        self.token().to_param()
    }

    #[tactic(auto, using(crate::proofs::OneValue::named_token, crate::proofs::OneValue::said_range))]
    fn of_param(param: Param) -> Option<DeviceAttribute> {
        Some(DeviceAttribute::of(CsiParam::of_param(param)?))
    }
}

/// Puts a token behind those that are there, if there is room for it. It answers the place behind it, unless there is none.
#[inline(always)]
pub(crate) fn put_one<T: Token>(room: &mut [Param], place: usize, token: T) -> Option<usize>
    ensures { IfSome result (PutsBehind room.old room.new place (T.crosses token ∷ [])) }
{
    put(room, place, token.to_param());
    place.checked_add(1)
}

/// Puts tokens behind those that are there, as many as there is room for.
pub(crate) fn put_all<T: Token>(room: &mut [Param], place: usize, tokens: &[T]) -> Option<usize>
    ensures { IfSome result (PutsBehind room.old room.new place (map T.crosses tokens.now)) }
{
    let mut end = place;
    for token in tokens {
        end = put_one(room, end, *token)?;
    }
    Some(end)
}

/// The tokens that structs stand for, of those that are in range, by their names.
pub(crate) fn tokens<T: Token + Drop>(
    alloc: Global,
    params: &[Param],
) -> Result<Option<Vec<T>>, AllocError>
    ensures { IfOk result (λ r.
        FindsTokens T.crosses T.in_range T.named params.now (option_map (λ all. all.items) r)) }
{
    let mut all = Vec::new(alloc);
    for param in params {
        let Some(token) = T::of_param(*param) else {
            return Ok(None);
        };
        all.push(token)?;
    }
    Ok(Some(all))
}
