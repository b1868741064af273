//! An emulator of a terminal: what reads a stream, and keeps a screen.
ghost use Rattle.std.specs.Prelude.{◌≡◌, [], IfOk, OnOk};
ghost use Rattle.csicodec_screen.specs.Feeds.{Feeds, begun};

use crate::receiver::Receiver;
use crate::screen::Screen;
use csicodec_events::Events;
use csicodec_spans::LIMIT;
use csicodec_transform::keep_from;
use std::alloc::{AllocError, Global};
use std::marker::Model;

/// A terminal's screen, and what reads a stream to it, as it comes.
#[derive(Drop)]
pub struct Emulator {
    receiver: Receiver,
    /// What the stream leaves open.
    events: Events,
    /// The bytes that wait for others.
    held: Vec<u8>,
}

impl Model for Emulator {
    ghost use Rattle.std.specs.Prelude.{◌<◌};
    ghost use Rattle.csicodec_events.specs.Events.{IsMet};
    ghost use Rattle.csicodec_screen.specs.Feeds.{Emulated};

    ghost Value = { Emulated };

    ghost view = { λ e. record { screen = e.receiver.screen; reading = record { events = e.events; string = e.receiver.string.items; bytes = e.held.items } } };

    ghost invariant = { λ e. (0 < e.events.limit) × IsMet e.events e.held.items };
}

impl Emulator {
    /// A screen of so many rows and columns on which nothing was written, and of whose rows that leave at the top so many are kept.
    pub fn new(alloc: Global, rows: u32, columns: u32, room: usize) -> Result<Emulator, AllocError>
        ensures { IfOk result (λ emulator. emulator ≡ begun rows columns room) }
    {
        let screen = Screen::new(alloc, rows, columns, room)?;
        Ok(Emulator {
            receiver: Receiver::new(alloc, screen),
            events: Events::new(LIMIT),
            held: Vec::new(alloc),
        })
    }

    /// Takes bytes where none wait: they are read from where they stand.
    fn feed_anew(&mut self, bytes: &[u8]) -> Result<(), AllocError>
        requires { self.old.reading.bytes ≡ [] }
        ensures { OnOk result (Feeds self.old bytes.now self.new) }
    {
        let mut events = self.events;
        let rest = self.receiver.read(&mut events, bytes)?;
        self.held.extend_from_slice(rest)?;
        self.events = events;
        Ok(())
    }

    /// Takes bytes behind those that wait.
    fn feed_behind(&mut self, bytes: &[u8]) -> Result<(), AllocError>
        ensures { OnOk result (Feeds self.old bytes.now self.new) }
    {
        self.held.extend_from_slice(bytes)?;
        let mut events = self.events;
        let left = self.receiver.read(&mut events, &self.held)?.len();
        let used = self.held.len() - left;
        keep_from(&mut self.held, used);
        self.events = events;
        Ok(())
    }

    /// Takes the next bytes of the stream, in whatever pieces it comes. After an `Err`, which is out of memory, the emulator is of no more
    /// use.
    pub fn feed(&mut self, bytes: &[u8]) -> Result<(), AllocError>
        ensures { OnOk result (Feeds self.old bytes.now self.new) }
    {
        if self.held.is_empty() {
            self.feed_anew(bytes)
        } else {
            self.feed_behind(bytes)
        }
    }

    /// The screen.
    pub fn screen(&self) -> &Screen
        ensures { result.now ≡ self.now.screen }
    {
        &self.receiver.screen
    }
}
