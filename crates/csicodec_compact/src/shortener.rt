//! What is written for the spans of a stream that is made shorter.
ghost use Rattle.std.specs.Prelude.{◌≡◌, ◌<◌, ◌≤◌, ℕ, [], take, length, IfOk};
ghost use Rattle.csicodec_spans.specs.{Parts.IsSequence, Visits.Writes, Visits.WritesCsi};
ghost use Rattle.csicodec_compact.specs.Private.Steps.{Does};

use crate::compact::Compact;
use crate::form::TextEnding;
use crate::lists::numbers;
use crate::notes::{Notes, Short, open_note};
use crate::runs::Written;
use csicodec_base::TextBuffer;
use csicodec_spans::{Sequence, Visit};
use csicodec_streams::{position_len, read_color};
use csicodec_transform::{Known, WIDE};
use std::alloc::{AllocError, Global};
use std::marker::Model;

/// The sequences that came before.
#[derive(Drop)]
pub(crate) struct Memory {
    known: Known<Short>,
}

impl Model for Memory {
    ghost use Rattle.std.specs.Prelude.{List};
    ghost use Rattle.csicodec_transform.specs.declared.memo.Slot.{Slot};
    ghost use Rattle.csicodec_transform.specs.Known.{AreKnown};
    ghost use Rattle.csicodec_compact.specs.Private.Steps.{IsNote};

    ghost Value = { List Slot };

    ghost view = { λ m. m.known.memo.slots.items };

    ghost invariant = { λ m. AreKnown IsNote m.known.memo.slots.items };
}

impl Memory {
    /// With nothing known.
    pub(crate) fn new(alloc: Global) -> Memory {
        let known = Known::new(alloc);
        Memory { known }
    }
}

/// What writes a stream shorter: what finds the texts of sequences, and how what was written ends.
#[derive(Drop)]
pub(crate) struct Shortener {
    notes: Notes,
    written: Written,
}

impl Shortener {
    /// Where nothing goes on.
    pub(crate) fn new(alloc: Global, compact: Compact) -> Shortener
        ensures { result.written.form ≡ TextEnding.Whole }
    {
        Shortener {
            notes: Notes::new(alloc, compact),
            written: Written::new(),
        }
    }

    /// Nothing goes on from here.
    pub(crate) fn restart(&mut self)
        ensures { self.new.written.form ≡ TextEnding.Whole }
    {
        self.written = Written::new();
    }

    /// Writes a position in front, or a colour, which is kept: neither has a shorter spelling, for no number of a position is 1. How many
    /// bytes that is, 0 where none of them is read.
    #[inline(never)]
    fn pass_plain(
        &mut self,
        memory: &mut Memory,
        limit: usize,
        bytes: &[u8],
        out: &mut TextBuffer,
    ) -> Result<usize, AllocError>
        ensures within { IfOk result (λ len. len ≤ length bytes.now) }
        ensures short { IfOk result (λ len. len ≤ limit) }
        ensures known { IfOk result (λ len. 0 < len → IsSequence (take len bytes.now)
            × WritesCsi Does self.old (take len bytes.now) out.old out.new self.new) }
        ensures none { IfOk result (λ len. len ≡ 0 → Writes Does self.old [] out.old out.new self.new) }
    {
        let moved = position_len(b'2', bytes);
        if moved > 0 && moved <= limit {
            self.written.pass(bytes, moved, out)?;
            return Ok(moved);
        }
        let Some((_, rest)) = read_color(bytes) else {
            return Ok(0);
        };
        let len = bytes.len() - rest.len();
        if len > limit || bytes.len() < WIDE {
            return Ok(0);
        }
        let wide = open_note(numbers(bytes.split_at(len).0), bytes);
        let note = &wide[..len];
        self.written.take(note, &wide, out)?;
        memory.known.keep(bytes, len, note);
        Ok(len)
    }
}

impl Visit<Shortener> for Memory {
    ghost use Rattle.csicodec_compact.specs.Private.Steps.{Does};

    ghost does = { Does };

    /// A control sequence that is known, a position and a colour pass.
    #[inline(always)]
    fn csi_at_once(
        &mut self,
        visitor: &mut Shortener,
        limit: usize,
        bytes: &[u8],
        out: &mut TextBuffer,
    ) -> Result<usize, AllocError> {
        let len = self.known.look(limit, bytes);
        if len == 0 {
            return visitor.pass_plain(self, limit, bytes, out);
        }
        visitor
            .written
            .take(self.known.noted(), self.known.wide(), out)?;
        Ok(len)
    }

    /// What is noted of it is kept.
    fn csi_dispatch(
        &mut self,
        visitor: &mut Shortener,
        bytes: &[u8],
        len: usize,
        sequence: Sequence,
        out: &mut TextBuffer,
    ) -> Result<(), AllocError> {
        let (span, _) = bytes.split_at(len);
        visitor.notes.find(span, sequence.params, sequence.control)?;
        let note = visitor.notes.note();
        visitor.written.take(note, note, out)?;
        self.known.keep(bytes, len, visitor.notes.note());
        Ok(())
    }

    /// The list before it is over.
    #[inline(always)]
    fn other(
        &mut self,
        visitor: &mut Shortener,
        bytes: &[u8],
        len: usize,
        out: &mut TextBuffer,
    ) -> Result<(), AllocError> {
        visitor.written.pass(bytes, len, out)
    }

    fn pause(&mut self, visitor: &mut Shortener, out: &mut Vec<u8>) -> Result<(), AllocError> {
        visitor.written.close_into(out)
    }
}
