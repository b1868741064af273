//! The rows of the mouse.
ghost use Rattle.csicodec_actions.specs.{Actions.Mouse as Reports, Kinds.Pressed, Kinds.Released, Kinds.Word, Kinds.read, Mouse.button_bits, Mouse.button_code};
ghost use Rattle.csicodec_actions.specs.{Mouse.pressed, Mouse.released, Table.Mouse.as_mouse, Common.pos, Common.bit_and, Common.option_map, Common.with_number};
ghost use Rattle.csicodec_actions.specs.{Common.Some, Common.option_and_then};
ghost use Rattle.std.specs.Prelude.{◌≡◌, ◌/◌, if◌then◌else◌};
ghost use Rattle.csicodec_actions.specs.declared.mouse.MouseReport.TheVariants as mouse;

use crate::{MouseButton, MouseReport};
use bitflags::Flags;
use csicodec_base::CsiParam::{self, Integer, P};
use csicodec_base::Modifiers;

/// The report before this final character, if a row reads the list.
#[tactic(auto, unfolding(crate::specs::Table::Mouse::as_mouse))]
pub fn mouse_action(params: &[CsiParam], control: char) -> Option<MouseReport>
    ensures { option_map (λ m. Reports m) result ≡ as_mouse params.now control }
{
    match params {
        [
            P(b'<'),
            Integer(code),
            P(b';'),
            Integer(x),
            P(b';'),
            Integer(y),
        ] => match control {
            'M' => report(said(*code, false)?, *x, *y),
            'm' => report(said(*code, true)?, *x, *y),
            _ => None,
        },
        _ => None,
    }
}

/// The report of a button and of what is held, at this place.
#[tactic(auto, unfolding(crate::specs::Kinds::read))]
fn report(done: (MouseButton, Modifiers), x: i64, y: i64) -> Option<MouseReport>
    ensures { option_map (λ m. Reports m) result
        ≡ option_and_then (λ right. option_and_then (λ down. Some (Reports (mouse.SGR1006 right down done.0 done.1))) (read Word y)) (read Word x) }
{
    let (button, modifiers) = done;
    Some(MouseReport::SGR1006 {
        x: u16::try_from(x).ok()?,
        y: u16::try_from(y).ok()?,
        button,
        modifiers,
    })
}

/// The button of a code before `m`, or before `M`.
#[inline(always)]
fn button_of(bits: u64, is_released: bool) -> Option<MouseButton>
    ensures { result ≡ with_number button_code (if is_released then released else pressed) (pos (button_bits bits)) }
{
    match (bits, is_released) {
        (0, false) => Some(MouseButton::Button1Press),
        (1, false) => Some(MouseButton::Button2Press),
        (2, false) => Some(MouseButton::Button3Press),
        (64, false) => Some(MouseButton::Button4Press),
        (65, false) => Some(MouseButton::Button5Press),
        (66, false) => Some(MouseButton::Button6Press),
        (67, false) => Some(MouseButton::Button7Press),
        (32, false) => Some(MouseButton::Button1Drag),
        (33, false) => Some(MouseButton::Button2Drag),
        (34, false) => Some(MouseButton::Button3Drag),
        (0, true) => Some(MouseButton::Button1Release),
        (1, true) => Some(MouseButton::Button2Release),
        (2, true) => Some(MouseButton::Button3Release),
        (64, true) => Some(MouseButton::Button4Release),
        (65, true) => Some(MouseButton::Button5Release),
        (66, true) => Some(MouseButton::Button6Release),
        (67, true) => Some(MouseButton::Button7Release),
        (3 | 35, _) => Some(MouseButton::None),
        _ => None,
    }
}

/// What a code before `m` says, or before `M`.
#[tactic(auto, unfolding(crate::specs::Kinds::read))]
#[inline(always)]
fn said(code: i64, is_released: bool) -> Option<(MouseButton, Modifiers)>
    ensures { result ≡ (if is_released then read Released code else read Pressed code) }
{
    let bits = u64::try_from(code).ok()?;
    Some((button_of(bits & 99, is_released)?, held(bits)))
}

/// The modifiers of a code.
fn held(bits: u64) -> Modifiers
    ensures { result ≡ record { bits = bit_and bits 28 / 2 } }
{
    let bits = (bits & 28) / 2;
    Modifiers::from_bits_retain(bits as u16)
}
