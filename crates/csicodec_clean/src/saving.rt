//! How text looks, and how it looked where that was saved.
ghost use Rattle.std.specs.Prelude.{◌≡◌};
ghost use Rattle.csicodec_parser.specs.ActionOf.{action_of};
ghost use Rattle.csicodec_actions.specs.{Devices.device_of, Actions.Device as OfDevice};
ghost use Rattle.csicodec_clean.specs.Saving.{behind_effect, effect_of, escape_effect, if_saving, is_lasting, is_saving, plain_looks, sets};

use csicodec_actions::{Cursor, DecPrivateMode, Device, Mode};
use csicodec_base::{DecPrivateModeCode, Sgr};
use csicodec_looks::Look;
use csicodec_parser::CSI;

/// What an action or an escape sequence does to how text looks.
#[derive(Clone, Copy, PartialEq, Eq, Debug)]
pub enum Effect {
    /// An attribute is set (SGR).
    Sets(Sgr),
    /// All attributes are set back, and what was saved is forgotten: RIS and DECSTR.
    Clears,
    /// How text looks is saved: DECSC, SCOSC, and the modes 1048 and 1049 where they are set.
    Saves,
    /// Text looks as where that was saved, and plain where it never was: DECRC, SCORC, and the modes 1048 and 1049 where they are reset.
    Restores,
}

/// Whether a private mode saves how text looks.
fn is_saving(code: DecPrivateModeCode) -> bool
    ensures { result ≡ is_saving code }
{
    matches!(
        code,
        DecPrivateModeCode::SaveCursor | DecPrivateModeCode::ClearAndEnableAlternateScreen
    )
}

/// This, if the private mode does so.
fn if_saving(effect: Effect, mode: DecPrivateMode) -> Option<Effect>
    ensures { result ≡ if_saving effect mode }
{
    match mode {
        DecPrivateMode::Code(code) if is_saving(code) => Some(effect),
        DecPrivateMode::Code(_) | DecPrivateMode::Unspecified(_) => None,
    }
}

/// What a device does to how text looks.
fn device_effect(device: &Device) -> Option<Effect>
    ensures { result ≡ effect_of (OfDevice (device_of device.now)) }
{
    match device {
        Device::SoftReset => Some(Effect::Clears),
        Device::DeviceAttributes(_)
        | Device::RequestPrimaryDeviceAttributes
        | Device::RequestSecondaryDeviceAttributes
        | Device::RequestTertiaryDeviceAttributes
        | Device::RequestTerminalNameAndVersion
        | Device::RequestTerminalParameters(_)
        | Device::StatusReport
        | Device::XtSmGraphics(_) => None,
    }
}

/// What an action does to how text looks, if it does something.
pub fn action_effect(action: &CSI) -> Option<Effect>
    ensures { result ≡ effect_of (action_of action.now) }
{
    match action {
        CSI::Sgr(attribute) => Some(Effect::Sets(*attribute)),
        CSI::Cursor(Cursor::SaveCursor) => Some(Effect::Saves),
        CSI::Cursor(Cursor::RestoreCursor) => Some(Effect::Restores),
        CSI::Mode(Mode::SetDecPrivateMode(mode)) => if_saving(Effect::Saves, *mode),
        CSI::Mode(Mode::ResetDecPrivateMode(mode)) => if_saving(Effect::Restores, *mode),
        CSI::Device(device) => device_effect(device),
        CSI::Cursor(_)
        | CSI::Edit(_)
        | CSI::Mode(_)
        | CSI::Mouse(_)
        | CSI::Window(_)
        | CSI::Keyboard(_)
        | CSI::SelectCharacterPath(_, _)
        | CSI::Unspecified(_) => None,
    }
}

/// What an escape sequence does to how text looks, if it does something.
#[inline(always)]
pub fn escape_effect(bytes: &[u8]) -> Option<Effect>
    ensures { result ≡ escape_effect bytes.now }
{
    if bytes.len() != 2 {
        return None;
    }
    match bytes[1] {
        b'7' => Some(Effect::Saves),
        b'8' => Some(Effect::Restores),
        b'c' => Some(Effect::Clears),
        _ => None,
    }
}

/// Whether it is an attribute that comes, or what sets all back.
pub fn sets(effect: Option<Effect>) -> bool
    ensures { result ≡ sets effect }
{
    matches!(effect, Some(Effect::Sets(_) | Effect::Clears))
}

/// Whether what is saved stays, and isn't brought back by it.
pub fn is_lasting(effect: Option<Effect>) -> bool
    ensures { result ≡ is_lasting effect }
{
    matches!(effect, None | Some(Effect::Sets(_)))
}

/// How text looks, and how it looked where that was saved.
#[derive(Clone, Copy, PartialEq, Eq, Debug)]
pub struct Looks {
    /// How text looks that comes now.
    pub look: Look,
    /// How it looked where that was saved; plain where it never was.
    pub saved: Look,
}

impl Looks {
    /// With nothing set or saved.
    pub fn plain() -> Looks
        ensures { result ≡ plain_looks }
    {
        Looks {
            look: Look::plain(),
            saved: Look::plain(),
        }
    }

    /// Text looks so behind this.
    pub fn take(&mut self, effect: Option<Effect>)
        ensures { self.new ≡ behind_effect self.old effect }
    {
        match effect {
            None => (),
            Some(Effect::Sets(attribute)) => self.look.set(&attribute),
            Some(Effect::Clears) => *self = Looks::plain(),
            Some(Effect::Saves) => self.saved = self.look,
            Some(Effect::Restores) => self.look = self.saved,
        }
    }
}
