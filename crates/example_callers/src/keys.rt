//! A reader of keys and of the mouse: what a terminal sends, as what a user did.
//!
//! All of standard input has come at once, so an ESC at its end is a key. A program that reads from a terminal says so by
//! `pause`, once nothing came for some time.
ghost use Rattle.std.specs.Prelude.{◌≡◌, ◌++◌, List, ℕ, IfOk};

use bitflags::Flags;
use csicodec::{CSI, CsiParam, MouseButton, MouseReport};
use csicodec_events::{Dialect, Event, Events, InputEvent, Sent};
use csicodec_keys::{KeyCode, KeyModifiers, read};
use std::alloc::{AllocError, Global};

/// What a user did.
#[derive(Clone, Copy, Debug)]
enum Did {
    /// So many bytes of text.
    Typed(usize),
    /// A key by its name, and what is held down with it: 1 and shift 1, alt 2, control 4.
    Key(&'static str, u16),
    /// A character with alt.
    Alt(char),
    /// A button at this line and column, from 1 on.
    Mouse(MouseButton, u16, u16),
    /// The same by a report of three characters: the button's number in it.
    Pressed(u8, u8, u8),
    /// Something else.
    Other,
}

/// The name of a key.
fn name(code: KeyCode) -> Option<&'static str> {
    match code {
        KeyCode::Up => Some("up"),
        KeyCode::Down => Some("down"),
        KeyCode::Right => Some("right"),
        KeyCode::Left => Some("left"),
        KeyCode::End => Some("end"),
        KeyCode::Home => Some("home"),
        KeyCode::Insert => Some("insert"),
        KeyCode::Delete => Some("delete"),
        KeyCode::PageUp => Some("page up"),
        KeyCode::PageDown => Some("page down"),
        KeyCode::Escape => Some("escape"),
        KeyCode::F(1) => Some("F1"),
        KeyCode::F(2) => Some("F2"),
        KeyCode::F(3) => Some("F3"),
        KeyCode::F(4) => Some("F4"),
        KeyCode::F(5) => Some("F5"),
        _ => None,
    }
}

/// The key of an event, whichever encoding it came in.
fn key(event: InputEvent, params: &[CsiParam]) -> Did {
    let Some((_, key)) = read(event, params) else {
        return Did::Other;
    };
    match key.code {
        KeyCode::Char(character) if key.modifiers == KeyModifiers::ALT => Did::Alt(character),
        code => match name(code) {
            Some(name) => Did::Key(name, u16::from(key.modifiers.bits()) + 1),
            None => Did::Other,
        },
    }
}

/// What a control sequence says: the mouse by its action, all else as a key.
fn sequence(
    alloc: Global,
    event: InputEvent,
    params: &[CsiParam],
    control: char,
) -> Result<Did, AllocError> {
    match CSI::parse(alloc, params, false, control).next() {
        Some(Ok(CSI::Mouse(MouseReport::SGR1006 { x, y, button, .. }))) => {
            Ok(Did::Mouse(button, y, x))
        }
        Some(Err(error)) => Err(error),
        _ => Ok(key(event, params)),
    }
}

/// Of a mouse report its three characters, from 32 on.
fn pressed(bytes: &[u8]) -> Did {
    match bytes {
        [_, _, _, button, column, line] => Did::Pressed(
            button.saturating_sub(32),
            line.saturating_sub(32),
            column.saturating_sub(32),
        ),
        _ => Did::Other,
    }
}

fn meaning(alloc: Global, sent: &Sent<'_>, params: &[CsiParam]) -> Result<Did, AllocError> {
    Ok(match sent.event {
        InputEvent::Output(Event::Text) => Did::Typed(sent.bytes.len()),
        InputEvent::Output(Event::Csi(control)) => sequence(alloc, sent.event, params, control)?,
        InputEvent::Mouse => pressed(sent.bytes),
        event => key(event, params),
    })
}

/// Appends what each event says, and returns the bytes that are none.
fn read_events<'a>(
    alloc: Global,
    bytes: &'a [u8],
    out: &mut Vec<Did>,
) -> Result<&'a [u8], AllocError>
    // What is left is an end of what came.
    ensures { IfOk result (λ rest. (front : List ℕ) × (bytes.now ≡ front ++ rest.now)) }
{
    let mut events = Events::new(4096);
    let mut params = Vec::new(alloc);
    let mut rest = bytes;
    while let Some(sent) = events.next_in(Dialect::Input, rest, &mut params)? {
        out.push(meaning(alloc, &sent, &params)?)?;
        rest = sent.rest;
    }
    if let Some(sent) = events.pause(rest) {
        out.push(meaning(alloc, &sent, &params)?)?;
        rest = sent.rest;
    }
    Ok(rest)
}

/// Tells what a user did who sent these bytes.
pub(crate) fn run(rt: &HostRuntime, bytes: &[u8]) -> anyhow::Result<()> {
    let mut all = Vec::new(rt.alloc());
    let rest = read_events(rt.alloc(), bytes, &mut all)?;
    for did in &all {
        println!(rt; "{did:?}")?;
    }
    println!(rt; "{} bytes are held", rest.len())?;
    Ok(())
}
