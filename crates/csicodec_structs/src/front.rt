//! The sequence at the front of some bytes.
ghost use Rattle.std.specs.Prelude.{◌≡◌, ◌⊎◌, IfNone, IfSome, pos};
ghost use Rattle.csicodec_tokens.specs.{declared.param.CsiParam.TheVariants.Integer, Private.Reading.IsFirstToken};
ghost use Rattle.csicodec_structs.specs.{Next.IsDone, Next.IsRefused, Private.Short.HasLaid, Private.Short.HasOne};

use crate::attributes::{behind_mark, lay_styles, put_styles, style_alone, style_struct};
use crate::digits::number_front;
use crate::movement::{lay_mode, lay_row, moved_to};
use crate::next::{NextSequence, done, lay_within, next_long, refused};
use crate::room::{Laid, put};
use crate::rows::cursor_struct;
use crate::status::Status;
use crate::structs::{Param, Struct};
use std::alloc::Global;

/// Puts what a number that was read and the next one, with a `;` between them, do before a final.
#[inline(never)]
fn lay_pair<'a>(body: &'a [u8], first: u32, behind: &'a [u8], actions: &mut [Struct]) -> Laid<'a>
    requires { IsFirstToken body.now (Integer (pos first)) behind.now }
    ensures some { IfSome result (λ x. HasLaid body.now actions.old actions.new x.0 x.1.now) }
    ensures none { IfNone result (actions.new ≡ actions.old) }
{
    let (second, rest) = number_front(behind_mark(b';', behind)?)?;
    match rest {
        [b'm', after @ ..] => {
            put_styles(&[style_alone(first)?, style_alone(second)?], actions);
            Some((2, after))
        }
        [control @ b'@'..=b'~', after @ ..] => {
            let cursor = moved_to(first, second, *control)?;
            put(actions, 0, cursor_struct(&cursor));
            Some((1, after))
        }
        _ => None,
    }
}

/// Puts what the one number that was read, or none, does before a final.
#[inline(always)]
fn lay_one<'a>(body: &'a [u8], number: u32, behind: &'a [u8], actions: &mut [Struct]) -> Laid<'a>
    requires { HasOne body.now number behind.now }
    ensures some { IfSome result (λ x. HasLaid body.now actions.old actions.new x.0 x.1.now) }
    ensures none { IfNone result (actions.new ≡ actions.old) }
{
    let [b'm', after @ ..] = behind else {
        return lay_row(body, number, behind, actions);
    };
    let style = style_alone(number)?;
    put(actions, 0, style_struct(&style));
    Some((1, after))
}

/// Puts the actions of a short list in front, of what is behind ESC and `[`: how many they are, and what is behind it.
#[inline(always)]
#[tactic(auto, using(crate::proofs::ShortLaid::none_read, crate::proofs::ShortLaid::one_read))]
fn lay_short<'a>(body: &'a [u8], actions: &mut [Struct]) -> Laid<'a>
    ensures some { IfSome result (λ x. HasLaid body.now actions.old actions.new x.0 x.1.now) }
    ensures none { IfNone result (actions.new ≡ actions.old) }
{
    let Some((number, behind)) = number_front(body) else {
        return match body {
            [b'?', ..] => lay_mode(body, actions),
            _ => lay_one(body, 0, body, actions),
        };
    };
    let laid = match behind {
        [b';', ..] => lay_pair(body, number, behind, actions),
        _ => lay_one(body, number, behind, actions),
    };
    match laid {
        Some(laid) => Some(laid),
        None => lay_styles(body, number, behind, actions),
    }
}

/// Puts the actions of a sequence that isn't short. The answer has a place of its own, so that of a short one stays in registers.
#[cold]
#[inline(never)]
fn lay_long(
    alloc: Global,
    bytes: &[u8],
    actions: &mut [Struct],
    params: &mut [Param],
    answer: &mut NextSequence,
)
    ensures { IsDone bytes.now actions.old actions.new params.old params.new answer.new
        ⊎ IsRefused bytes.now actions.old actions.new params.old params.new answer.new }
{
    // What is no sequence is refused before the room is cleared.
    if !matches!(bytes, [0x1b, b'[', ..]) {
        *answer = next_long(alloc, bytes, actions, params);
        return;
    }
    *answer = lay_within(alloc, bytes, actions, params);
}

/// Puts the actions of the sequence at the front, and their tokens, as many as there is room for. Up to 31 tokens take no memory.
#[inline(always)]
pub fn lay_front(
    alloc: Global,
    bytes: &[u8],
    actions: &mut [Struct],
    params: &mut [Param],
) -> NextSequence
    ensures { IsDone bytes.now actions.old actions.new params.old params.new result
        ⊎ IsRefused bytes.now actions.old actions.new params.old params.new result }
{
    if let [0x1b, b'[', body @ ..] = bytes
        && let Some((count, after)) = lay_short(body, actions)
    {
        return done(bytes.len() - after.len(), count, 0);
    }
    let mut answer = refused(Status::Memory, 0);
    lay_long(alloc, bytes, actions, params, &mut answer);
    answer
}
