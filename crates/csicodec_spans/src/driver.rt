//! The one driver of a stream: what the machine tells of it goes to a visitor.
ghost use Rattle.std.specs.Prelude.{◌≡◌, ◌<◌, ◌≤◌, ◌++◌, [], ℕ, List, take, drop, length, OnOk, IfOk};
ghost use Rattle.csicodec_spans.specs.{Parts.IsUnsure, Machine.Open, Machine.collected, declared.table.Mode.TheVariants.Text as Plain, Visits.PausesTo};
ghost use Rattle.csicodec_spans.specs.{Visits.PushesTo, Visits.TellsTo, Visits.place, Visits.stream};

use crate::cut::Cutter;
use crate::near::plain_len;
use crate::table::Mode;
use crate::visit::{Sequence, Visit};
use crate::waiting::Waiting;
use csicodec_tokens::{Count, CsiParam, TextBuffer};
use std::alloc::{AllocError, Global};
use std::marker::Model;
use std::mem;

/// How many bytes of a chunk are taken at once behind bytes that wait.
const NEAR: usize = 64;

/// Room for the tokens of a sequence, and the memory of a visitor.
#[derive(Drop)]
pub struct Room<M> {
    /// The tokens.
    pub params: Vec<CsiParam>,
    /// The memory.
    pub memory: M,
}

/// Tells the visitor of what is sure at a glance in front of bytes: text, an escape sequence, or a control sequence that it knows. How many bytes
/// that is, 0 where nothing is.
#[inline(always)]
fn tell_at_once<M: Visit<V>, V>(
    visitor: &mut V,
    memory: &mut M,
    limit: usize,
    bytes: &[u8],
    out: &mut TextBuffer,
) -> Result<usize, AllocError>
    requires { 0 < limit }
    ensures within { IfOk result (λ len. len ≤ length bytes.now) }
    ensures tells { IfOk result (λ len. TellsTo M.does (place visitor.old limit Plain bytes.now)
        out.old out.new (place visitor.new limit Plain (drop len bytes.now))) }
{
    if matches!(bytes, [0x1b, b'[', ..]) {
        let len = memory.csi_at_once(visitor, limit, bytes, out)?;
        return Ok(len);
    }
    let len = plain_len(bytes);
    if len == 0 {
        return Ok(0);
    }
    memory.other(visitor, bytes, len, out)?;
    Ok(len)
}

/// Tells the visitor of what is sure at a glance, as long as something is; what is left behind it.
#[inline(never)]
fn tell_front<'a, M: Visit<V>, V>(
    visitor: &mut V,
    memory: &mut M,
    limit: usize,
    left: Cutter<'a>,
    out: &mut TextBuffer,
) -> Result<Cutter<'a>, AllocError>
    requires { 0 < limit }
    ensures { IfOk result (λ to. TellsTo M.does (place visitor.old limit left.entry.mode left.entry.rest.now)
        out.old out.new (place visitor.new limit to.mode to.rest.now)) }
{
    let Mode::Text = left.mode else {
        return Ok(left);
    };
    let mut rest = left.rest;
    loop {
        let len = tell_at_once(visitor, memory, limit, rest, out)?;
        if len == 0 {
            return Ok(Cutter {
                mode: Mode::Text,
                rest,
            });
        }
        rest = rest.split_at(len).1;
    }
}

/// Tells the visitor of all spans that are sure; what is left behind them.
#[inline(never)]
fn tell_sure<'a, M: Visit<V>, V>(
    visitor: &mut V,
    room: &mut Room<M>,
    limit: usize,
    bytes: Cutter<'a>,
    out: &mut TextBuffer,
) -> Result<Cutter<'a>, AllocError>
    requires { 0 < limit }
    ensures unsure { IfOk result (λ to. IsUnsure limit to.mode to.rest.now) }
    ensures tells { IfOk result (λ to. TellsTo M.does (place visitor.old limit bytes.entry.mode bytes.entry.rest.now)
        out.old out.new (place visitor.new limit to.mode to.rest.now)) }
{
    let mut looks = Count::new();
    let mut left = bytes;
    loop {
        let to = tell_front(visitor, &mut room.memory, limit, left, out)?;
        let mut cutter = to;
        let Some((span, control)) = cutter.next(limit, &mut room.params, &mut looks)? else {
            return Ok(to);
        };
        let len = span.bytes.len();
        match control {
            Some(control) => {
                let sequence = Sequence {
                    params: &room.params,
                    control,
                };
                room.memory
                    .csi_dispatch(visitor, to.rest, len, sequence, out)?;
            }
            None => room.memory.other(visitor, to.rest, len, out)?,
        }
        left = cutter;
    }
}

/// Appends what the visitor writes of all spans that are sure, and answers how many bytes they are, and the mode behind them.
#[inline(never)]
pub fn append_sure<M: Visit<V>, V>(
    visitor: &mut V,
    room: &mut Room<M>,
    limit: usize,
    bytes: Cutter,
    out: &mut Vec<u8>,
) -> Result<(usize, Mode), AllocError>
    requires { 0 < limit }
    ensures within { IfOk result (λ (used, after). used ≤ length bytes.entry.rest.now) }
    ensures unsure { IfOk result (λ (used, after). IsUnsure limit after (drop used bytes.entry.rest.now)) }
    ensures tells { IfOk result (λ (used, after). TellsTo M.does (place visitor.old limit bytes.entry.mode bytes.entry.rest.now)
        out.old.items out.new.items (place visitor.new limit after (drop used bytes.entry.rest.now))) }
{
    let alloc = *out.allocator();
    let mut texts = TextBuffer::of(mem::replace(out, Vec::new(alloc)));
    let told = tell_sure(visitor, room, limit, bytes, &mut texts);
    *out = texts.into_vec();
    let left = told?;
    Ok((bytes.rest.len() - left.rest.len(), left.mode))
}

/// A stream as it comes, and its visitor. Of a chunk it copies what a control needs that another chunk began, and what waits at its end.
#[derive(Drop)]
pub struct Driver<V, M> {
    /// What it is told to.
    pub visitor: V,
    room: Room<M>,
    waiting: Waiting,
}

impl<V, M> Model for Driver<V, M> {
    ghost use Rattle.csicodec_spans.specs.Machine.{Open, walk};
    ghost use Rattle.csicodec_spans.specs.Visits.{Stream, stream};

    ghost Value = { Stream V };

    ghost view = { λ d. stream d.waiting.limit (walk d.waiting.limit (Open d.waiting.mode) d.waiting.bytes).to d.visitor };
}

impl<V: Drop, M: Visit<V> + Drop> Driver<V, M> {
    /// A stream of which nothing has come, and its visitor with this memory.
    pub fn new(alloc: Global, limit: usize, visitor: V, memory: M) -> Driver<V, M>
        requires { 0 < limit }
        ensures { result ≡ stream limit (Open Plain) visitor }
    {
        let params = Vec::new(alloc);
        Driver {
            visitor,
            room: Room { params, memory },
            waiting: Waiting::new(alloc, limit),
        }
    }

    /// Takes bytes where none wait: they are told from where they stand.
    fn push_anew(&mut self, bytes: &[u8], out: &mut Vec<u8>) -> Result<(), AllocError>
        requires { collected self.old.state ≡ [] }
        ensures { OnOk result (PushesTo M.does self.old bytes.now out.old.items out.new.items self.new) }
    {
        let limit = self.waiting.limit();
        let cutter = Cutter {
            mode: self.waiting.mode(),
            rest: bytes,
        };
        let (used, behind) = append_sure(&mut self.visitor, &mut self.room, limit, cutter, out)?;
        self.waiting.hold(bytes.split_at(used).1, behind)?;
        Ok(())
    }

    /// Takes bytes behind those that wait.
    fn push_behind(&mut self, bytes: &[u8], out: &mut Vec<u8>) -> Result<(), AllocError>
        ensures { OnOk result (PushesTo M.does self.old bytes.now out.old.items out.new.items self.new) }
    {
        let limit = self.waiting.limit();
        let mode = self.waiting.mode();
        let Some(all) = self.waiting.add(bytes)? else {
            return Ok(());
        };
        let cutter = Cutter { mode, rest: &all };
        let (used, behind) = append_sure(&mut self.visitor, &mut self.room, limit, cutter, out)?;
        self.waiting.keep(all, used, behind);
        Ok(())
    }

    /// Takes the next chunk, and appends what the visitor writes of it.
    pub fn push(&mut self, bytes: &[u8], out: &mut Vec<u8>) -> Result<(), AllocError>
        ensures { OnOk result (PushesTo M.does self.old bytes.now out.old.items out.new.items self.new) }
    {
        let mut rest = bytes;
        loop {
            if self.waiting.is_empty() {
                return self.push_anew(rest, out);
            }
            let (near, behind) = rest.split_at(rest.len().min(NEAR));
            self.push_behind(near, out)?;
            if behind.is_empty() {
                return Ok(());
            }
            rest = behind;
        }
    }

    /// Tells the visitor that nothing more is there to read at once, and appends what it writes.
    pub fn pause(&mut self, out: &mut Vec<u8>) -> Result<(), AllocError>
        ensures { OnOk result (PausesTo M.does self.old out.old.items out.new.items self.new) }
    {
        self.room.memory.pause(&mut self.visitor, out)
    }

    /// Appends what is collected, as it came: nothing comes any more.
    pub fn append_collected(&mut self, out: &mut Vec<u8>) -> Result<(), AllocError>
        ensures { OnOk result (out.new.items ≡ out.old.items ++ collected self.old.state) }
    {
        self.waiting.end(out)
    }
}
