//! The rows of the keyboard.
ghost use Rattle.csicodec_actions.specs.{Actions.Keyboard as Keys, Kinds.Flags as FlagsKind, Kinds.Way, Kinds.read, Table.Keyboard.as_keyboard, Common.Some};
ghost use Rattle.csicodec_actions.specs.{Common.option_and_then, Common.option_map};
ghost use Rattle.std.specs.Prelude.{◌≡◌};
ghost use Rattle.csicodec_actions.specs.declared.keyboard.Keyboard.TheVariants as action;

use crate::{Keyboard, KittyKeyboardMode};
use bitflags::Flags;
use csicodec_base::CsiParam::{self, Integer, P};
use csicodec_base::KittyKeyboardFlags;

/// What is said of the keyboard before this final character, if a row reads the list.
#[tactic(auto, unfolding(crate::specs::Table::Keyboard::as_keyboard))]
pub fn keyboard_action(params: &[CsiParam], control: char) -> Option<Keyboard>
    ensures { option_map (λ k. Keys k) result ≡ as_keyboard params.now control }
{
    match control {
        'u' => keyboard(params),
        _ => None,
    }
}

#[tactic(auto, unfolding(crate::specs::Kinds::read, crate::specs::Table::Keyboard::as_keyboard))]
fn keyboard(params: &[CsiParam]) -> Option<Keyboard>
    ensures { option_map (λ k. Keys k) result ≡ as_keyboard params.now 117 }
{
    match params {
        [P(b'='), Integer(bits)] => set(*bits, 1),
        [P(b'='), Integer(bits), P(b';'), Integer(mode)] => set(*bits, *mode),
        [P(b'>')] => push(0, 1),
        [P(b'>'), Integer(bits)] => push(*bits, 1),
        [P(b'>'), Integer(bits), P(b';'), Integer(mode)] => push(*bits, *mode),
        [P(b'?')] => Some(Keyboard::QueryKittySupport),
        [P(b'?'), Integer(bits)] => Some(Keyboard::ReportKittyState(flags_at(*bits)?)),
        [P(b'<'), Integer(count)] => Some(Keyboard::PopKittyState(u32::try_from(*count).ok()?)),
        [P(b'<')] => Some(Keyboard::PopKittyState(1)),
        _ => None,
    }
}

/// Flags, and the way of a number.
fn set(bits: i64, mode: i64) -> Option<Keyboard>
    ensures { option_map (λ k. Keys k) result
        ≡ option_and_then (λ f. option_and_then (λ m. Some (Keys (action.SetKittyState f m))) (read Way mode)) (read FlagsKind bits) }
{
    Some(Keyboard::SetKittyState {
        flags: flags_at(bits)?,
        mode: KittyKeyboardMode::from_i64(mode)?,
    })
}

/// The same, put onto the stack.
fn push(bits: i64, mode: i64) -> Option<Keyboard>
    ensures { option_map (λ k. Keys k) result
        ≡ option_and_then (λ f. option_and_then (λ m. Some (Keys (action.PushKittyState f m))) (read Way mode)) (read FlagsKind bits) }
{
    Some(Keyboard::PushKittyState {
        flags: flags_at(bits)?,
        mode: KittyKeyboardMode::from_i64(mode)?,
    })
}

/// The flags that have a name, of the bits of this number.
#[tactic(auto, unfolding(crate::specs::Kinds::read, bitflags::proofs::OnLiterals::bitflags_on_literals))]
fn flags_at(number: i64) -> Option<KittyKeyboardFlags>
    ensures { result ≡ read FlagsKind number }
{
    let bits = u16::try_from(number).ok()?;
    Some(KittyKeyboardFlags::from_bits_truncate(bits))
}
