//! The event in front of some bytes.
ghost use Rattle.std.specs.Prelude.{◌≡◌, ◌<◌, ◌↔◌, ◌++◌, List, ℕ, IsTrue, IfSome, IfOk, MatchOption, OnErr, OnOk};
ghost use Rattle.csicodec_tokens.specs.declared.param.CsiParam.{CsiParam};
ghost use Rattle.csicodec_spans.specs.{declared.table.Mode.TheVariants.Text as Plain, Parts.Cuts, Parts.IsMaximal};
ghost use Rattle.csicodec_events.specs.{Events.BeginsCsi, Events.IsMet, Events.Tells, Events.Waits, Events.left, Private.Steps.HasFound, Private.Steps.HasWaited};
ghost use Rattle.csicodec_spans.specs.declared.table.Kind.TheVariants as kinds;

use crate::front::Front;
use crate::input::behind;
use crate::sequence::near;
use crate::text::held_len;
use csicodec_spans::{Cut, Kind, Mode, next_span};
use csicodec_tokens::CsiParam;
use std::alloc::AllocError;

/// What comes next in a stream.
#[derive(Clone, Copy, Debug, PartialEq, Eq)]
pub enum Event {
    /// Characters, in UTF-8 or not, C0 controls other than ESC, and DEL. No character of UTF-8 is cut, unless a control stands
    /// within it.
    Text,
    /// A C0 control, other than CAN, SUB and ESC, that stands within a control sequence: it is to be carried out now, and the
    /// sequence once it is over. It has no bytes of its own: they belong to the sequence.
    Control(u8),
    /// A whole control sequence with this final byte, from `'@'` to `'~'`: `params` are its tokens, and `CSI::parse` of
    /// `csicodec_parser` gives its actions.
    Csi(char),
    /// A whole escape sequence: ESC, at most one intermediate byte, and a final byte.
    Esc,
    /// A control string, or as much of it as there is. Where it begins with ESC and `P`, `X`, `]`, `^` or `_`, it is the first
    /// piece, and where the mode behind it is [`Text`](Mode::Text), the last.
    Str,
    /// A control that went wrong, or as much of it as there is.
    Other,
}

/// An event, its bytes, and what is behind it.
#[derive(Clone, Copy, Debug)]
pub struct Told<'a> {
    /// What it is.
    pub event: Event,
    /// Its bytes: a part of the slice that was passed, not a copy.
    pub bytes: &'a [u8],
    /// The bytes behind it: the end of the slice that was passed, not a copy.
    pub rest: &'a [u8],
}

/// A stream of which events are told: what the bytes before leave open.
#[derive(Clone, Copy, Debug, PartialEq, Eq)]
pub struct Events {
    /// How many bytes a control sequence may have, with the controls in it.
    pub limit: usize,
    /// The mode of the bytes that are left.
    pub mode: Mode,
    /// Of a control sequence that they begin with, how many bytes were looked at; 0 where none waits.
    pub looked: usize,
}

/// Whether the bytes begin with ESC and `[`.
#[inline(always)]
pub fn begins_csi(bytes: &[u8]) -> bool
    ensures { IsTrue result ↔ BeginsCsi bytes.now }
{
    match bytes {
        [0x1b, b'[', ..] => true,
        _ => false,
    }
}

impl Events {
    /// A stream of which nothing has come. A control sequence of more than `limit` bytes is [`Other`](Event::Other).
    pub fn new(limit: usize) -> Events
        ensures { result ≡ record { limit = limit; mode = Plain; looked = 0 } }
    {
        Events {
            limit,
            mode: Mode::Text,
            looked: 0,
        }
    }

    /// Whether the bytes may begin with those that wait.
    pub fn is_met(&self, bytes: &[u8]) -> bool
        ensures { IsTrue result ↔ IsMet self.now bytes.now }
    {
        self.looked == 0 || begins_csi(bytes) && self.looked <= bytes.len()
    }

    /// The event of a span in front, and how many bytes it has: of text but for the beginning of a character where the bytes end.
    fn span(&mut self, bytes: &[u8], _params: &Vec<CsiParam>) -> Option<(Event, usize)>
        requires limit { 0 < self.old.limit }
        requires other { BeginsCsi bytes.now → ⊥ }
        requires looked { self.old.looked ≡ 0 }
        ensures { MatchOption result (HasWaited self.old bytes.now self.new) (λ (event, len).
            HasFound self.old bytes.now event len _params.now.items self.new) }
    {
        let cut = next_span(self.limit, self.mode, bytes)?;
        let len = cut.span.bytes.len();
        match cut.span.kind {
            Kind::Text => {
                let len = len - held_len(cut.span.bytes, cut.rest);
                if len == 0 {
                    return None;
                }
                Some(self.found(Event::Text, len, cut.mode))
            }
            Kind::Esc => Some(self.found(Event::Esc, len, cut.mode)),
            Kind::Str => Some(self.found(Event::Str, len, cut.mode)),
            Kind::Csi | Kind::Other => Some(self.found(Event::Other, len, cut.mode)),
        }
    }

    /// The event in front of the bytes, which begin with those that wait; none where it depends on what follows, and of no bytes.
    ///
    /// Where there is none, call it again with more bytes behind these. The tokens of a control sequence are read into a buffer
    /// that is kept from call to call: `params` holds them where the event is a [`Csi`](Event::Csi), and anything where it isn't.
    /// Text, strings and what went wrong end where the bytes end, and may go on in the next ones. After an `Err` all is left as it
    /// was.
    ///
    /// ```text
    /// let mut events = Events::new(4096);
    /// events.next(b"a\x1b[1\x08A", &mut params)?       // Text, "a"
    /// events.next(b"\x1b[1\x08A", &mut params)?        // Control(8), and the same bytes are left
    /// events.next(b"\x1b[1\x08A", &mut params)?        // Csi('A'), "\x1b[1\x08A", params 1
    /// events.next(b"\x1b[1", &mut params)?             // None
    /// ```
    pub fn next<'a>(
        &mut self,
        bytes: &'a [u8],
        params: &mut Vec<CsiParam>,
    ) -> Result<Option<Told<'a>>, AllocError>
        requires limit { 0 < self.old.limit }
        requires met { IsMet self.old bytes.now }
        // The event is the one that the rules say, or nothing is told before more bytes come.
        ensures tells { IfOk result (λ o. MatchOption o (Waits self.old bytes.now self.new)
            (λ t. Tells self.old bytes.now t params.new.items self.new)) }
        // Its bytes and the rest are the bytes.
        ensures parts { IfOk result (λ o. IfSome o (λ t. bytes.now ≡ t.bytes.now ++ t.rest.now)) }
        // Each event uses bytes, or looks at more.
        ensures progress { IfOk result (λ o. IfSome o (λ t.
            left self.new t.rest.now < left self.old bytes.now)) }
        // It goes on behind the event, or with the same bytes and more.
        ensures again { IfOk result (λ o. MatchOption o
            ((more : List ℕ) → IsMet self.new (bytes.now ++ more))
            (λ t. IsMet self.new t.rest.now)) }
        ensures limit { OnOk result (self.new.limit ≡ self.old.limit) }
        ensures memory { OnErr result (self.new ≡ self.old) }
    {
        let found = if begins_csi(bytes) {
            self.next_over(&mut Front::new(bytes), params)?
        } else {
            self.span(bytes, params)
        };
        let Some((event, len)) = found else {
            return Ok(None);
        };
        let (bytes, rest) = (near(len, bytes), behind(bytes, len));
        Ok(Some(Told { event, bytes, rest }))
    }
}
