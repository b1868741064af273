//! What takes the events of a stream to a screen.
ghost use Rattle.std.specs.{Prelude.◌≡◌, Prelude.◌<◌, Prelude.◌++◌, Prelude.[], Prelude.ℕ, Prelude.List, Prelude.false, Prelude.map, Prelude.OnOk, Prelude.IfOk};
ghost use Rattle.std.specs.{List.flat_map};
ghost use Rattle.csicodec_actions.specs.Actions.{Action};
ghost use Rattle.csicodec_parser.specs.ActionOf.{action_of};
ghost use Rattle.csicodec_terminal.specs.Terminal.{Terminal};
ghost use Rattle.csicodec_events.specs.{declared.event.Events.Events, Events.IsMet, Events.Waits, Events.is_csi};
ghost use Rattle.csicodec_screen.specs.Feeds.{GoesTo, by_escape, by_string, of_char, of_control, of_text, of_wrong, string_behind};
ghost use Rattle.csicodec_screen.specs.{Steps.carry, Private.Reads.Takes, Private.Reads.reading};
ghost use Rattle.csicodec_screen.specs.Steps as input;

use crate::screen::Screen;
use crate::strings::{collect, command};
use bstr::ByteSlice;
use csicodec_events::{Event, Events};
use csicodec_parser::CSI;
use csicodec_spans::Mode;
use csicodec_terminal::terminal_actions_into;
use csicodec_tokens::CsiParam;
use std::alloc::{AllocError, Global};

/// Takes a character of text.
fn take_char(screen: &mut Screen, char: char) -> Result<(), AllocError>
    ensures { OnOk result (screen.new ≡ carry (of_char char) screen.old) }
{
    if char < ' ' {
        return screen.execute(char as u8);
    }
    screen.print_char(char)
}

/// Takes text.
fn take_text(screen: &mut Screen, bytes: &[u8]) -> Result<(), AllocError>
    ensures { OnOk result (screen.new ≡ carry (of_text bytes.now) screen.old) }
{
    let mut chars = bytes.chars();
    while let Some(char) = chars.next() {
        take_char(screen, char)?;
    }
    Ok(())
}

/// Whether the bytes begin with ESC and `[`.
fn is_csi(bytes: &[u8]) -> bool
    ensures { result ≡ is_csi bytes.now }
{
    matches!(bytes, [0x1b, b'[', ..])
}

/// Takes what went wrong.
fn take_wrong(screen: &mut Screen, bytes: &[u8]) -> Result<(), AllocError>
    ensures { OnOk result (screen.new ≡ carry (of_wrong bytes.now) screen.old) }
{
    if is_csi(bytes) {
        return Ok(());
    }
    let mut rest = bytes;
    while let Some((byte, others)) = rest.split_first() {
        if *byte < b' ' && *byte != 0x1b {
            screen.execute(*byte)?;
        }
        rest = others;
    }
    Ok(())
}

/// Takes an escape sequence.
fn take_escape(screen: &mut Screen, bytes: &[u8]) -> Result<(), AllocError>
    ensures { OnOk result (screen.new ≡ carry (by_escape bytes.now) screen.old) }
{
    match bytes {
        [_, last] => screen.esc_dispatch(&[], *last),
        [_, byte, last] => screen.esc_dispatch(&[*byte], *last),
        _ => Ok(()),
    }
}

/// Takes actions.
fn take_actions(screen: &mut Screen, actions: &[CSI]) -> Result<(), AllocError>
    ensures { OnOk result (screen.new ≡ carry (map input.Csi (map action_of actions.now)) screen.old) }
{
    let mut rest = actions;
    while let Some((action, others)) = rest.split_first() {
        screen.perform(action)?;
        rest = others;
    }
    Ok(())
}

/// Takes a control string, where it is over.
fn take_string(screen: &mut Screen, mode: Mode, string: &[u8]) -> Result<(), AllocError>
    ensures { OnOk result (screen.new ≡ carry (by_string mode string.now) screen.old) }
{
    let Mode::Text = mode else {
        return Ok(());
    };
    match command(string) {
        Some((number, text)) => screen.osc_dispatch(number, text),
        None => {
            screen.pass_string();
            Ok(())
        }
    }
}

/// A screen, and what came of a control string.
#[derive(Drop)]
pub(crate) struct Receiver {
    pub(crate) screen: Screen,
    /// What came of a control string: all of it up to [`LIMIT`](csicodec_spans::LIMIT) bytes, and one more.
    pub(crate) string: Vec<u8>,
    /// A place for the tokens of a control sequence.
    params: Vec<CsiParam>,
    /// A place for its actions.
    actions: Vec<CSI>,
}

impl Receiver {
    /// A screen to which nothing was said.
    pub(crate) fn new(alloc: Global, screen: Screen) -> Receiver
        ensures screen { result.screen ≡ screen }
        ensures string { result.string.items ≡ [] }
    {
        Receiver {
            screen,
            string: Vec::new(alloc),
            params: Vec::new(alloc),
            actions: Vec::new(alloc),
        }
    }

    /// Takes a control sequence, whose tokens were read.
    fn take_csi(&mut self, control: char) -> Result<(), AllocError>
        ensures says { OnOk result ((actions : List Action) × Terminal self.old.params.items false control actions
            × (self.new.screen ≡ carry (map input.Csi actions) self.old.screen)) }
        ensures string { self.new.string ≡ self.old.string }
    {
        let alloc = *self.actions.allocator();
        terminal_actions_into(alloc, &self.params, false, control, &mut self.actions)?;
        take_actions(&mut self.screen, &self.actions)
    }

    /// Takes an event, behind which the stream goes on in this mode.
    fn take(&mut self, event: Event, bytes: &[u8], mode: Mode) -> Result<(), AllocError>
        ensures takes { OnOk result (Takes event bytes.now self.old.params.items mode self.old.string.items self.old.screen self.new.screen) }
        ensures string { OnOk result (self.new.string.items ≡ string_behind event bytes.now self.old.string.items) }
    {
        match event {
            Event::Text => take_text(&mut self.screen, bytes),
            Event::Control(byte) => self.screen.execute(byte),
            Event::Csi(control) => self.take_csi(control),
            Event::Esc => take_escape(&mut self.screen, bytes),
            Event::Str => {
                collect(&mut self.string, bytes)?;
                take_string(&mut self.screen, mode, &self.string)
            }
            Event::Other => take_wrong(&mut self.screen, bytes),
        }
    }

    /// Takes all events of the bytes until they wait, and answers those that are left.
    pub(crate) fn read<'a>(
        &mut self,
        events: &mut Events,
        bytes: &'a [u8],
    ) -> Result<&'a [u8], AllocError>
        requires limit { 0 < events.old.limit }
        requires met { IsMet events.old bytes.now }
        ensures reads { IfOk result (λ rest. (waiting : Events)
            × GoesTo (reading events.old self.old.string.items bytes.now) self.old.screen
            (reading waiting self.new.string.items rest.now) self.new.screen × Waits waiting rest.now events.new) }
        ensures parts { IfOk result (λ rest. (front : List ℕ) × (bytes.now ≡ front ++ rest.now)) }
        ensures again { IfOk result (λ rest. IsMet events.new rest.now) }
        ensures limit { OnOk result (events.new.limit ≡ events.old.limit) }
    {
        let mut rest = bytes;
        while let Some(told) = events.next(rest, &mut self.params)? {
            self.take(told.event, told.bytes, events.mode)?;
            rest = told.rest;
        }
        Ok(rest)
    }
}
