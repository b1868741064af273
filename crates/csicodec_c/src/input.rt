//! The event at the front of a stream, and of what a terminal sends, where the caller keeps the state.
ghost use Rattle.std.specs.Prelude.{◌≡◌, ◌⊎◌, ◌<◌, ◌↔◌, ℕ, List, Some, IfSome, take};
ghost use Rattle.csicodec_tokens.specs.{declared.param.CsiParam.CsiParam, Sequence.Seq};
ghost use Rattle.csicodec_events.specs.{declared.input.Dialect.Dialect, declared.event.Events.Events, Events.IsMet, Events.without_controls, Input.IsSent};
ghost use Rattle.csicodec_c.specs.Event.{Answers, HasPut, IsPaused, IsStill, Puts, answered, dialect_number, event_number, refused, value_of, AnswersOutput, without_value};
ghost use Rattle.csicodec_c.specs.Filter.{mode_number};

use crate::filter::{mode_at, number_of};
use csicodec_events::{Dialect, Event, Events, InputEvent, append_read, begins_csi};
use csicodec_structs::{Param, Status, Struct, lay_front};
use std::alloc::Global;

/// What comes next in what a terminal sends.
#[repr(C)]
#[derive(Clone, Copy)]
pub struct Received {
    /// The number of a `Status`, as in `Evented`; `BadState` also where the dialect is none.
    pub status: u32,
    /// Of `Done`, which event.
    pub kind: u32,
    /// The mode to go on in.
    pub mode: u32,
    /// The control within a control sequence, the character of SS3, Linux and alt, the last one of a key with modifiers, or the number of rxvt.
    pub value: u32,
    /// How many bytes of the sequence in front were looked at.
    pub looked: usize,
    /// Of `Done`, how many bytes the event has: none for a control within a control sequence.
    pub used: usize,
    /// Of a control sequence, how many actions it has.
    pub actions: usize,
    /// Of a control sequence, how many tokens belong to them.
    pub params: usize,
}

/// An answer without actions: how the stream goes on behind so many bytes.
fn answer(status: Status, kind: u32, value: u32, after: Events, used: usize) -> Received
    ensures { result ≡ answered status kind value after used }
{
    Received {
        status: status.number(),
        kind,
        mode: number_of(after.mode),
        value,
        looked: after.looked,
        used,
        actions: 0,
        params: 0,
    }
}

fn refused(why: Status) -> Received
    ensures { result ≡ refused why }
{
    answer(why, 0, 0, Events::new(1), 0)
}

/// The dialect of a number.
fn dialect_at(number: u32) -> Option<Dialect>
    ensures { (dialect : Dialect) → (result ≡ Some dialect) ↔ (number ≡ dialect_number dialect) }
{
    match number {
        0 => Some(Dialect::Output),
        1 => Some(Dialect::Input),
        2 => Some(Dialect::Utf8Input),
        _ => None,
    }
}

fn event_number(sent: InputEvent) -> u32
    ensures { result ≡ event_number sent }
{
    match sent {
        InputEvent::Output(Event::Text) => 1,
        InputEvent::Output(Event::Csi(_)) => 2,
        InputEvent::Output(Event::Esc) => 3,
        InputEvent::Output(Event::Str) => 4,
        InputEvent::Output(Event::Other) => 5,
        InputEvent::Output(Event::Control(_)) => 6,
        InputEvent::Ss3(_) => 7,
        InputEvent::Linux(_) => 8,
        InputEvent::Rxvt(_) => 9,
        InputEvent::Mouse => 10,
        InputEvent::Alt(_) => 11,
        InputEvent::Escape => 12,
        InputEvent::Modified { .. } => 13,
        InputEvent::FocusGained => 14,
    }
}

fn value_of(sent: InputEvent) -> u32
    ensures { result ≡ value_of sent }
{
    match sent {
        InputEvent::Output(Event::Control(byte)) => u32::from(byte),
        InputEvent::Ss3(byte) | InputEvent::Linux(byte) => u32::from(byte),
        InputEvent::Rxvt(number) => u32::from(number),
        InputEvent::Modified { control, .. } => u32::from(control),
        InputEvent::Alt(character) => u32::from(character),
        _ => 0,
    }
}

/// How many actions and tokens the sequence has that the bytes are without the controls in them, and puts them, as many as there is
/// room for; none where memory ran out.
fn lay_read(
    alloc: Global,
    bytes: &[u8],
    actions: &mut [Struct],
    params: &mut [Param],
) -> Option<(usize, usize)>
    ensures { (list : List CsiParam) (final : ℕ) → Seq (without_controls bytes.now) list final
        → IfSome result (λ n. HasPut list final actions.old actions.new params.old params.new n.0 n.1) }
{
    let mut read = Vec::new(alloc);
    let Ok(()) = append_read(bytes, &mut read) else {
        return None;
    };
    let front = lay_front(alloc, &read, actions, params);
    if front.status == Status::Done.number() {
        Some((front.actions, front.params))
    } else {
        None
    }
}

/// The same of an event of these bytes: what is no control sequence has none.
#[inline(always)]
fn put_event(
    alloc: Global,
    sent: InputEvent,
    bytes: &[u8],
    actions: &mut [Struct],
    params: &mut [Param],
) -> Option<(usize, usize)>
    ensures { (dialect : Dialect) (e after : Events) (whole rest : List ℕ) (list : List CsiParam)
        → IsSent dialect e whole sent bytes.now rest list after
        → IfSome result (λ n. Puts sent list actions.old actions.new params.old params.new n.0 n.1) }
{
    match sent {
        InputEvent::Output(Event::Csi(_)) => lay_read(alloc, bytes, actions, params),
        _ => Some((0, 0)),
    }
}

/// The event at the front, and of a sequence its actions.
#[inline(always)]
fn step(
    alloc: Global,
    dialect: Dialect,
    events: Events,
    bytes: &[u8],
    actions: &mut [Struct],
    params: &mut [Param],
) -> Received
    requires limit { 0 < events.limit }
    requires met { IsMet events bytes.now }
    ensures { Answers (dialect_number dialect) (mode_number events.mode) events.limit events.looked
        bytes.now actions.old actions.new params.old params.new result }
{
    let mut events = events;
    let mut list = Vec::new(alloc);
    let sent = match events.next_in(dialect, bytes, &mut list) {
        Ok(Some(sent)) => sent,
        Ok(None) => return answer(Status::Truncated, 0, 0, events, 0),
        Err(_) => return refused(Status::Memory),
    };
    let answer = answer(
        Status::Done,
        event_number(sent.event),
        value_of(sent.event),
        events,
        sent.bytes.len(),
    );
    match put_event(alloc, sent.event, sent.bytes, actions, params) {
        Some((count, tokens)) => Received {
            actions: count,
            params: tokens,
            ..answer
        },
        None => refused(Status::Memory),
    }
}

/// The event at the front of bytes of a dialect that stand in a mode, of which so many were looked at; of a control sequence its
/// actions and their tokens, as many as there is room for.
#[unsafe(no_mangle)]
pub extern "C" fn csicodec_input(
    alloc: Global,
    dialect: u32,
    mode: u32,
    limit: usize,
    looked: usize,
    bytes: &[u8],
    actions: &mut [Struct],
    params: &mut [Param],
) -> Received
    ensures { Answers dialect mode limit looked bytes.now actions.old actions.new params.old params.new result }
{
    let Some(dialect) = dialect_at(dialect) else {
        return refused(Status::BadState);
    };
    let Some(mode) = mode_at(mode) else {
        return refused(Status::BadState);
    };
    let events = Events {
        limit,
        mode,
        looked,
    };
    if limit == 0 || !events.is_met(bytes) {
        return refused(Status::BadState);
    }
    step(alloc, dialect, events, bytes, actions, params)
}

/// The event that waiting bytes are where no more came in time: a lone ESC, or ESC and a character. Any others go on waiting.
#[unsafe(no_mangle)]
pub extern "C" fn csicodec_pause(bytes: &[u8]) -> Received
    ensures { IsPaused bytes.now result ⊎ IsStill bytes.now result }
{
    let mut events = Events::new(1);
    match events.pause(bytes) {
        Some(sent) => answer(
            Status::Done,
            event_number(sent.event),
            value_of(sent.event),
            events,
            sent.bytes.len(),
        ),
        None => refused(Status::Truncated),
    }
}

/// What comes next in a stream.
#[repr(C)]
#[derive(Clone, Copy)]
pub struct Evented {
    /// The number of a `Status`: `Done` where there is an event, `Truncated` where the bytes wait, `Memory`, or `BadState` where the
    /// mode is none, the limit is 0, or more bytes were looked at than stand there.
    pub status: u32,
    /// Of `Done`, which event.
    pub kind: u32,
    /// The mode to go on in.
    pub mode: u32,
    /// How many bytes of the sequence in front were looked at.
    pub looked: usize,
    /// Of `Done`, how many bytes the event has: none for a control within a control sequence.
    pub used: usize,
    /// Of a control sequence, how many actions it has.
    pub actions: usize,
    /// Of a control sequence, how many tokens belong to them.
    pub params: usize,
}

/// An answer of output, whose value is the control there.
#[inline(always)]
fn without_value(answer: Received) -> Evented
    ensures { result ≡ without_value answer }
{
    Evented {
        status: answer.status,
        kind: answer.kind,
        mode: answer.mode,
        looked: answer.looked,
        used: answer.used,
        actions: answer.actions,
        params: answer.params,
    }
}

/// As many of the first bytes as a sequence may have.
fn near(limit: usize, bytes: &[u8]) -> &[u8]
    ensures { result.now ≡ take limit bytes.now }
{
    bytes.get(..limit).unwrap_or(bytes)
}

/// The event at the front, and of a sequence its actions.
#[inline(never)]
fn step_output(
    alloc: Global,
    events: Events,
    bytes: &[u8],
    actions: &mut [Struct],
    params: &mut [Param],
) -> Evented
    requires limit { 0 < events.limit }
    requires met { IsMet events bytes.now }
    ensures { AnswersOutput (mode_number events.mode) events.limit events.looked bytes.now
        actions.old actions.new params.old params.new result }
{
    without_value(step(alloc, Dialect::Output, events, bytes, actions, params))
}

/// The event at the front of bytes that stand in a mode, of which so many were looked at; of a control sequence its actions and
/// their tokens, as many as there is room for.
#[unsafe(no_mangle)]
pub extern "C" fn csicodec_event(
    alloc: Global,
    mode: u32,
    limit: usize,
    looked: usize,
    bytes: &[u8],
    actions: &mut [Struct],
    params: &mut [Param],
) -> Evented
    ensures { AnswersOutput mode limit looked bytes.now actions.old actions.new params.old params.new result }
{
    let Some(mode) = mode_at(mode) else {
        return without_value(refused(Status::BadState));
    };
    let events = Events {
        limit,
        mode,
        looked,
    };
    if limit == 0 {
        return without_value(refused(Status::BadState));
    }
    if !events.is_met(bytes) {
        return without_value(refused(Status::BadState));
    }
    if looked == 0 && begins_csi(bytes) {
        let front = lay_front(alloc, near(limit, bytes), actions, params);
        if front.status == Status::Done.number() {
            return without_value(Received {
                actions: front.actions,
                params: front.params,
                ..answer(Status::Done, 2, 0, Events::new(1), front.used)
            });
        }
        if front.status == Status::Memory.number() {
            return without_value(refused(Status::Memory));
        }
    }
    step_output(alloc, events, bytes, actions, params)
}
