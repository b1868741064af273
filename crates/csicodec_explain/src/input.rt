//! What a terminal sends, each event told.
ghost use Rattle.std.specs.Prelude.{◌≡◌, ◌<◌, ◌≤◌, IfOk, length};
ghost use Rattle.csicodec_events.specs.Events.{IsMet};

use crate::Result;
use crate::page::Listing;
use csicodec_base::CsiParam;
use csicodec_events::{Dialect, Event, Events, InputEvent, Sent};
use csicodec_listing::columns::Sort;
use csicodec_spans::{Kind, LIMIT, Mode};
use csicodec_words::Did;
use std::alloc::Global;

/// What comes so many microseconds behind an ESC, or later, doesn't belong to it.
const PAUSE: u64 = 50_000;

/// Where a stream of what a terminal sends goes on.
#[derive(Drop)]
pub struct Sending {
    /// The tokens of a control sequence.
    params: Vec<CsiParam>,
    /// Of one that waits, how many bytes were looked at.
    looked: usize,
    /// When the last bytes came, in microseconds.
    time: u64,
}

/// The events of bytes in this mode; of those that waited so many were looked at.
fn resumed(mode: Mode, looked: usize, bytes: &[u8]) -> Events
    ensures limit { 0 < result.limit }
    ensures met { IsMet result bytes.now }
{
    let mut events = Events {
        limit: LIMIT,
        mode,
        looked,
    };
    if !events.is_met(bytes) {
        events.looked = 0;
    }
    events
}

/// What an event is counted as and told as, where its bytes are whole; none of a control, and of what isn't input alone.
fn sort_of(event: InputEvent) -> Option<(Kind, Sort)> {
    match event {
        InputEvent::Ss3(_)
        | InputEvent::Modified { .. }
        | InputEvent::Alt(_)
        | InputEvent::Escape => Some((Kind::Esc, Sort::Escape)),
        InputEvent::Output(Event::Csi(_))
        | InputEvent::FocusGained
        | InputEvent::Mouse
        | InputEvent::Linux(_)
        | InputEvent::Rxvt(_) => Some((Kind::Csi, Sort::Sequence)),
        InputEvent::Output(_) => None,
    }
}

/// Tells an event; of a control sequence these are the tokens. A control within a sequence has no bytes of its own, and text is over where
/// ESC follows.
fn tell(
    page: &mut Listing<'_>,
    modes: (Mode, Mode),
    sent: Sent<'_>,
    params: &[CsiParam],
) -> Result<()> {
    let whole = sort_of(sent.event);
    if let Some((kind, _)) = whole {
        if page.add_again(kind, sent.bytes)? {
            return Ok(());
        }
    }
    if let Some(did) = Did::of(sent.event, sent.bytes, params) {
        let (kind, sort) = whole.unwrap_or((Kind::Text, Sort::Control));
        let bytes = if whole.is_some() { sent.bytes } else { &[] };
        return page.add_did(kind, sort, bytes, &did);
    }
    let kind = match sent.event {
        InputEvent::Output(Event::Csi(control)) => {
            return page.add_read(sent.bytes, params, control);
        }
        InputEvent::Output(Event::Control(_)) => return Ok(()),
        InputEvent::Output(Event::Text) => Kind::Text,
        InputEvent::Output(Event::Esc) => Kind::Esc,
        InputEvent::Output(Event::Str) => Kind::Str,
        _ => Kind::Other,
    };
    let over = sent.rest.first().copied() == Some(0x1b);
    page.add(modes, kind, sent.bytes, over)
}

/// Tells the events that are sure; how many bytes they have.
fn tell_all(
    page: &mut Listing<'_>,
    dialect: Dialect,
    events: &mut Events,
    params: &mut Vec<CsiParam>,
    bytes: &[u8],
) -> Result<usize>
    requires limit { 0 < events.old.limit }
    requires met { IsMet events.old bytes.now }
    ensures { IfOk result (λ used. used ≤ length bytes.now) }
{
    let mut before = events.mode;
    let mut rest = bytes;
    while let Some(sent) = events.next_in(dialect, rest, params)? {
        let after = events.mode;
        tell(page, (before, after), sent, params)?;
        before = after;
        rest = sent.rest;
    }
    Ok(bytes.len() - rest.len())
}

impl Sending {
    /// Nothing has come.
    pub fn new(alloc: Global) -> Sending {
        Sending {
            params: Vec::new(alloc),
            looked: 0,
            time: 0,
        }
    }

    /// Tells the events that are sure of bytes in this mode, which begin with those that waited; how many bytes they have, and the mode
    /// behind them.
    pub fn add(
        &mut self,
        page: &mut Listing<'_>,
        dialect: Dialect,
        mode: Mode,
        bytes: &[u8],
    ) -> Result<(usize, Mode)>
        ensures { IfOk result (λ (used, after). used ≤ length bytes.now) }
    {
        let mut events = resumed(mode, self.looked, bytes);
        let used = tell_all(page, dialect, &mut events, &mut self.params, bytes)?;
        self.looked = events.looked;
        Ok((used, events.mode))
    }

    /// The next bytes come at this time; whether that is too late for what waits.
    pub fn come_at(&mut self, time: u64) -> bool {
        let since = time.saturating_sub(self.time);
        self.time = time;
        since >= PAUSE
    }

    /// Tells the key in front of bytes that wait, in this mode, where nothing came in time; how many bytes it has, 0 where they go on
    /// waiting.
    pub fn pause(&mut self, page: &mut Listing<'_>, mode: Mode, bytes: &[u8]) -> Result<usize>
        ensures { IfOk result (λ used. used ≤ length bytes.now) }
    {
        let mut events = resumed(mode, self.looked, bytes);
        let Some(sent) = events.pause(bytes) else {
            return Ok(0);
        };
        tell(page, (mode, events.mode), sent, &[])?;
        self.looked = 0;
        Ok(bytes.len() - sent.rest.len())
    }

    /// Tells bytes that wait, in this mode, where nothing comes any more: text of which a character isn't whole, or what is malformed.
    pub fn end(&mut self, page: &mut Listing<'_>, mode: Mode, bytes: &[u8]) -> Result<()> {
        self.time = 0;
        self.looked = 0;
        if bytes.is_empty() {
            return Ok(());
        }
        let kind = if mode == Mode::Text && bytes.first().copied() != Some(0x1b) {
            Kind::Text
        } else {
            Kind::Other
        };
        page.add((mode, mode), kind, bytes, false)
    }
}
