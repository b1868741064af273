//! The event where a control sequence stands in front, or one that goes wrong, or isn't over.
ghost use Rattle.std.specs.Prelude.{◌≡◌, ◌<◌, ◌≤◌, ◌+◌, ◌*◌, ◌^◌, ◌++◌, max, Option, Some, None, List, ℕ, length, take, drop, IfSome, IfNone, IfOk, OnErr, OnOk, MatchOption};
ghost use Rattle.csicodec_tokens.specs.{declared.param.CsiParam.CsiParam, Sequence.Seq};
ghost use Rattle.csicodec_events.specs.Events.{BeginsCsi, IsMet, IsTold, IsWrongAt, Waits, before_stop, from_stop, is_control, is_final, is_passed, left, looks, onward, reach, stop, used, without_controls};
ghost use Rattle.csicodec_events.specs.Private.Steps.{HasFound, HasWaited, StandsAt};

use crate::event::{Event, Events};
use crate::front::Front;
use csicodec_spans::Mode;
use csicodec_tokens::{CsiParam, ReadError, read_csi_into};
use std::alloc::AllocError;

/// A C0 control that a sequence goes on over: all but CAN, SUB and ESC.
fn is_control(byte: u8) -> bool
    ensures { result ≡ is_control byte }
{
    matches!(byte, 0x00..=0x17 | 0x19 | 0x1c..=0x1f)
}

/// An intermediate byte, a parameter byte, or DEL.
fn is_passed(byte: u8) -> bool
    ensures { result ≡ is_passed byte }
{
    matches!(byte, 0x20..=0x3f | 0x7f)
}

fn is_final(byte: u8) -> bool
    ensures { result ≡ is_final byte }
{
    matches!(byte, 0x40..=0x7e)
}

/// The place where the sequence stops, and the byte there, if it doesn't stop where the bytes end.
fn stop(looked: usize, front: &mut Front<'_>) -> (usize, Option<u8>)
    requires looked { looked ≤ length front.old.bytes }
    requires begins { 2 ≤ length front.old.bytes }
    ensures is { result.0 ≡ stop looked front.old.bytes }
    ensures within { result.0 ≤ length front.old.bytes }
    ensures fits { result.0 < 2 ^ 63 }
    ensures byte { StandsAt result.1 (drop result.0 front.old.bytes) }
    ensures bytes { front.new.bytes ≡ front.old.bytes }
    ensures costs { front.new.looks + max 2 looked
        ≡ front.old.looks + length (take (result.0 + 1) front.old.bytes) }
{
    let mut at = looked.max(2);
    while at < front.len() {
        let byte = front.get(at);
        if !is_passed(byte) {
            return (at, Some(byte));
        }
        at += 1;
    }
    (at, None)
}

/// Appends the bytes of a sequence without the controls in it, and without DEL.
pub fn append_read(bytes: &[u8], out: &mut Vec<u8>) -> Result<(), AllocError>
    ensures { IfOk result (λ _. out.new.items ≡ out.old.items ++ without_controls bytes.now) }
{
    for byte in bytes {
        if !is_control(*byte) && *byte != 0x7f {
            out.push(*byte)?;
        }
    }
    Ok(())
}

/// The final byte of the sequence that the bytes are without their controls, where they are one.
#[cold]
pub(crate) fn read_without(
    bytes: &[u8],
    params: &mut Vec<CsiParam>,
) -> Result<Option<char>, AllocError>
    ensures { IfOk result (λ o. MatchOption o
        ((list : List CsiParam) (final : ℕ) → Seq (without_controls bytes.now) list final → ⊥)
        (λ final. Seq (without_controls bytes.now) params.new.items final)) }
{
    let mut read = Vec::new(*params.allocator());
    append_read(bytes, &mut read)?;
    match read_csi_into(params, &read) {
        Ok(tail) => {
            if tail.rest.is_empty() {
                Ok(Some(tail.control))
            } else {
                Ok(None)
            }
        }
        Err(error) => match error {
            ReadError::Memory => Err(AllocError),
            _ => Ok(None),
        },
    }
}

/// As many of the first bytes as a sequence may have.
pub(crate) fn near(limit: usize, bytes: &[u8]) -> &[u8]
    ensures { result.now ≡ take limit bytes.now }
{
    bytes.get(..limit).unwrap_or(bytes)
}

impl Events {
    /// The event of the first bytes, so many, and the mode behind them.
    pub(crate) fn found(&mut self, event: Event, len: usize, mode: Mode) -> (Event, usize)
        ensures event { result ≡ (event, len) }
        ensures onward { self.new ≡ onward self.old mode 0 }
    {
        self.mode = mode;
        self.looked = 0;
        (event, len)
    }

    /// The sequence in front, where it is all there, and has no control in it.
    #[inline(always)]
    fn at_once(
        &mut self,
        front: &mut Front<'_>,
        params: &mut Vec<CsiParam>,
    ) -> Result<Option<(Event, usize)>, AllocError>
        requires begins { BeginsCsi front.old.bytes }
        requires looked { self.old.looked ≡ 0 }
        ensures some { IfOk result (λ o. IfSome o (λ (event, len).
            HasFound self.old front.old.bytes event len params.new.items self.new)) }
        ensures none { IfOk result (λ o. IfNone o (self.new ≡ self.old)) }
        ensures memory { OnErr result (self.new ≡ self.old) }
        ensures bytes { front.new.bytes ≡ front.old.bytes }
        ensures costs { OnOk result (front.new.looks ≤ front.old.looks
            + length (take (stop 0 front.old.bytes + 1) front.old.bytes)) }
    {
        match front.read(self.limit, params)? {
            Some((control, len)) => Ok(Some(self.found(Event::Csi(control), len, Mode::Text))),
            None => Ok(None),
        }
    }

    /// What goes wrong up to this place, and with a final byte there.
    fn wrong(
        &mut self,
        _front: &Front<'_>,
        at: usize,
        byte: Option<u8>,
        _params: &Vec<CsiParam>,
    ) -> (Event, usize)
        requires begins { BeginsCsi _front.now.bytes }
        requires met { self.old.looked ≤ length _front.now.bytes }
        requires place { at ≡ stop self.old.looked _front.now.bytes }
        requires within { at ≤ length _front.now.bytes }
        requires fits { at < 2 ^ 63 }
        requires stands { StandsAt byte (drop at _front.now.bytes) }
        requires why { IsWrongAt self.old.limit (before_stop self.old _front.now.bytes)
            (from_stop self.old _front.now.bytes) }
        ensures { HasFound self.old _front.now.bytes result.0 result.1 _params.now.items self.new }
    {
        match byte {
            Some(byte) if is_final(byte) => self.found(Event::Other, at + 1, Mode::Text),
            _ => self.found(Event::Other, at, Mode::BadCsi),
        }
    }

    /// The event where a sequence stops at a byte, at a place below the limit.
    fn at_byte(
        &mut self,
        byte: u8,
        at: usize,
        front: &mut Front<'_>,
        params: &mut Vec<CsiParam>,
    ) -> Result<(Event, usize), AllocError>
        requires begins { BeginsCsi front.old.bytes }
        requires met { self.old.looked ≤ length front.old.bytes }
        requires place { at ≡ stop self.old.looked front.old.bytes }
        requires within { at < length front.old.bytes }
        requires short { at < self.old.limit }
        requires fits { at < 2 ^ 63 }
        requires stands { StandsAt (Some byte) (drop at front.old.bytes) }
        ensures told { IfOk result (λ (event, len).
            HasFound self.old front.old.bytes event len params.new.items self.new) }
        ensures memory { OnErr result (self.new ≡ self.old) }
        ensures bytes { front.new.bytes ≡ front.old.bytes }
        ensures costs { IfOk result (λ (event, len). front.new.looks ≤ front.old.looks + 2 * len) }
    {
        if is_control(byte) {
            self.looked = at + 1;
            return Ok((Event::Control(byte), 0));
        }
        if !is_final(byte) {
            return Ok(self.wrong(front, at, Some(byte), params));
        }
        match front.read_without(at + 1, params)? {
            Some(control) => Ok(self.found(Event::Csi(control), at + 1, Mode::Text)),
            None => Ok(self.found(Event::Other, at + 1, Mode::Text)),
        }
    }

    /// The event of a sequence that has controls in it, goes wrong, or isn't over.
    #[inline(never)]
    fn as_it_comes(
        &mut self,
        front: &mut Front<'_>,
        params: &mut Vec<CsiParam>,
    ) -> Result<Option<(Event, usize)>, AllocError>
        requires begins { BeginsCsi front.old.bytes }
        requires met { self.old.looked ≤ length front.old.bytes }
        ensures told { IfOk result (λ o. MatchOption o
            (HasWaited self.old front.old.bytes self.new) (λ (event, len).
            HasFound self.old front.old.bytes event len params.new.items self.new)) }
        ensures memory { OnErr result (self.new ≡ self.old) }
        ensures bytes { front.new.bytes ≡ front.old.bytes }
        ensures costs { IfOk result (λ o. front.new.looks + max 2 self.old.looked
            ≤ front.old.looks + reach self.old front.old.bytes + 2 * used o) }
    {
        let (at, byte) = stop(self.looked, front);
        if self.limit <= at {
            return Ok(Some(self.wrong(front, at, byte, params)));
        }
        match byte {
            Some(byte) => Ok(Some(self.at_byte(byte, at, front, params)?)),
            None => {
                self.looked = at;
                Ok(None)
            }
        }
    }

    /// The event in front of bytes that begin with ESC and `[`, and how many of them it has, as [`next`](Events::next) tells it.
    #[inline(always)]
    pub fn next_over(
        &mut self,
        front: &mut Front<'_>,
        params: &mut Vec<CsiParam>,
    ) -> Result<Option<(Event, usize)>, AllocError>
        requires begins { BeginsCsi front.old.bytes }
        requires met { IsMet self.old front.old.bytes }
        // The event is the one that the rules say, or nothing is told before more bytes come.
        ensures tells { IfOk result (λ o. MatchOption o (Waits self.old front.old.bytes self.new)
            (λ (event, len). IsTold event self.old front.old.bytes (take len front.old.bytes)
            (drop len front.old.bytes) params.new.items self.new)) }
        // Each event uses bytes, or looks at more.
        ensures progress { IfOk result (λ o. IfSome o (λ (event, len).
            left self.new (drop len front.old.bytes) < left self.old front.old.bytes)) }
        // It goes on behind the event, or with the same bytes and more.
        ensures again { IfOk result (λ o. MatchOption o
            ((more : List ℕ) → IsMet self.new (front.old.bytes ++ more))
            (λ (event, len). IsMet self.new (drop len front.old.bytes))) }
        ensures limit { OnOk result (self.new.limit ≡ self.old.limit) }
        ensures memory { OnErr result (self.new ≡ self.old) }
        ensures bytes { front.new.bytes ≡ front.old.bytes }
        // No more looks than these are taken, which the law `looks` adds up.
        ensures cheap { IfOk result (λ o. front.new.looks
            ≤ front.old.looks + looks self.old front.old.bytes (used o)) }
    {
        if self.looked == 0 {
            if let Some(found) = self.at_once(front, params)? {
                return Ok(Some(found));
            }
        }
        self.as_it_comes(front, params)
    }
}
