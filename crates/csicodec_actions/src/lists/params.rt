//! Lists that are one parameter, or two: what they stand for.
ghost use Rattle.csicodec_actions.specs.{Kinds.Any, Kinds.Count, Rows.chosen, Rows.counted, Rows.given, Rows.halves, Rows.row, Common.[], Common.pos};
ghost use Rattle.std.specs.Prelude.{◌≡◌, ◌∷◌, ◌<◌};

use csicodec_base::{CsiParam, OneBased};

/// The one count, line or column of a list, and 1 for none.
#[tactic(auto, unfolding(crate::specs::Kinds::read))]
pub(crate) fn place(params: &[CsiParam]) -> Option<OneBased>
    ensures { result ≡ given (counted (λ n. n)) params.now }
{
    match params {
        [] => Some(OneBased::new(1)),
        [param] => OneBased::from_esc_param(param).ok(),
        _ => None,
    }
}

/// Two places, each of which can be left out: the first is then 1, and the second this one.
#[tactic(auto, unfolding(crate::specs::Kinds::read))]
#[inline(always)]
pub(crate) fn places(params: &[CsiParam], missing: u32) -> Option<(OneBased, OneBased)>
    requires { 0 < missing }
    ensures { result ≡ given (row [] (1, missing) ∷ halves Count missing (λ a b. (a, b))) params.now }
{
    let one = OneBased::new(1);
    let missing = OneBased::new(missing);
    let (first, second) = match params {
        [] => (one, missing),
        [first] => (OneBased::from_esc_param(first).ok()?, missing),
        [first, CsiParam::P(b';'), second] => (
            OneBased::from_esc_param(first).ok()?,
            OneBased::from_esc_param(second).ok()?,
        ),
        [CsiParam::P(b';'), second] => (one, OneBased::from_esc_param(second).ok()?),
        _ => return None,
    };
    Some((first, second))
}

/// The one number of a list, as that of an enumeration, and 0 for none.
#[tactic(auto, unfolding(crate::specs::Kinds::read))]
pub(crate) fn choice(params: &[CsiParam]) -> Option<i64>
    ensures { result ≡ given (chosen Any (pos 0) (λ z. z)) params.now }
{
    match params {
        [] => Some(0),
        [CsiParam::Integer(number)] => Some(*number),
        _ => None,
    }
}
