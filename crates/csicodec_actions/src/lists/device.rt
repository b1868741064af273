//! The rows of devices.
ghost use Rattle.csicodec_actions.specs.{Actions.Device as Devices, Devices.device_of, Devices.listed_attributes, Rows.given, Table.Device.as_device};
ghost use Rattle.csicodec_actions.specs.{Table.Device.classes, Table.Device.requests, Table.Device.terminals, Common.IfOk, Common.IsSome, Common.OnErr};
ghost use Rattle.csicodec_actions.specs.{Common.option_map};
ghost use Rattle.std.specs.Prelude.{◌≡◌, ◌≢◌};

use crate::{Device, DeviceAttribute, DeviceAttributeFlags, DeviceAttributes};
use csicodec_base::CsiParam::{self, Integer, P};
use std::alloc::{AllocError, Global};

/// What is asked or said of a device before this final character, if a row reads the list. An `Err` comes only where one
/// does.
pub fn device_action(
    alloc: Global,
    params: &[CsiParam],
    control: char,
) -> Result<Option<Device>, AllocError>
    ensures ok { IfOk result (λ device.
        option_map (λ d. Devices (device_of d)) device ≡ as_device params.now control) }
    ensures err { OnErr result (IsSome (as_device params.now control)) }
{
    if control != 'c' {
        return Ok(plain(params, control));
    }
    if let Some(device) = request(params) {
        return Ok(Some(device));
    }
    if let Some(device) = terminal(params) {
        return Ok(Some(device));
    }
    class(alloc, params)
}

/// What stands before any other character than `c`.
#[tactic(auto, unfolding(crate::specs::Table::Device::as_device))]
fn plain(params: &[CsiParam], control: char) -> Option<Device>
    requires { control ≢ 99 }
    ensures { option_map (λ d. Devices (device_of d)) result ≡ as_device params.now control }
{
    match (control, params) {
        ('p', [P(b'!')]) => Some(Device::SoftReset),
        ('n', [Integer(5)]) => Some(Device::StatusReport),
        ('q', [P(b'>')] | [P(b'>'), Integer(0)]) => Some(Device::RequestTerminalNameAndVersion),
        ('x', [] | [Integer(0)]) => Some(Device::RequestTerminalParameters(0)),
        ('x', [Integer(1)]) => Some(Device::RequestTerminalParameters(1)),
        _ => None,
    }
}

/// Requests before `c`.
fn request(params: &[CsiParam]) -> Option<Device>
    ensures { option_map (λ d. Devices (device_of d)) result ≡ given requests params.now }
{
    match params {
        [] | [Integer(0)] => Some(Device::RequestPrimaryDeviceAttributes),
        [P(b'>')] | [P(b'>'), Integer(0)] => Some(Device::RequestSecondaryDeviceAttributes),
        [P(b'=')] | [P(b'='), Integer(0)] => Some(Device::RequestTertiaryDeviceAttributes),
        _ => None,
    }
}

/// The answers that name a terminal.
fn terminal(params: &[CsiParam]) -> Option<Device>
    ensures { option_map (λ d. Devices (device_of d)) result ≡ given terminals params.now }
{
    let attributes = match params {
        [P(b'?'), Integer(1), P(b';'), Integer(2)] => {
            DeviceAttributes::Vt100WithAdvancedVideoOption
        }
        [P(b'?'), Integer(1), P(b';'), Integer(0)] => DeviceAttributes::Vt101WithNoOptions,
        [P(b'?'), Integer(6)] => DeviceAttributes::Vt102,
        _ => return None,
    };
    Some(Device::DeviceAttributes(attributes))
}

/// The answers that name a service class and extensions.
fn class(alloc: Global, params: &[CsiParam]) -> Result<Option<Device>, AllocError>
    ensures ok { IfOk result (λ device.
        option_map (λ d. Devices (device_of d)) device ≡ given classes params.now) }
    ensures err { OnErr result (IsSome (given classes params.now)) }
{
    let [P(b'?'), Integer(class @ (62 | 63 | 64)), list @ ..] = params else {
        return Ok(None);
    };
    let flags = extensions(alloc, list)?;
    let attributes = match class {
        62 => DeviceAttributes::Vt220(flags),
        63 => DeviceAttributes::Vt320(flags),
        _ => DeviceAttributes::Vt420(flags),
    };
    Ok(Some(Device::DeviceAttributes(attributes)))
}

/// One for each token but `;`.
fn extensions(alloc: Global, list: &[CsiParam]) -> Result<DeviceAttributeFlags, AllocError>
    ensures { IfOk result (λ flags. flags.attributes.items ≡ listed_attributes list.now) }
{
    let mut attributes = Vec::new(alloc);
    for token in list {
        if *token == P(b';') {
            continue;
        }
        attributes.push(DeviceAttribute::of(*token))?;
    }
    Ok(DeviceAttributeFlags::new(attributes))
}
