//! A stream that is rewritten as it comes.
ghost use Rattle.std.specs.Prelude.{◌≡◌, ◌<◌, ◌≤◌, ◌⊎◌, ◌++◌, ℕ, List, [], length, drop, OnOk, IfOk};
ghost use Rattle.csicodec_spans.specs.declared.table.Mode.TheVariants.{Text as Plain};
ghost use Rattle.csicodec_filter.specs.Filter.{Passes};

use crate::rewrite::Rewrite;
use csicodec_base::{CsiParam, TextBuffer};
use csicodec_spans::{Cutter, Driver, Mode, Room, Sequence, Visit, append_sure};
use csicodec_streams::{Normal, append_front, take_simple};
use csicodec_transform::{Known, WIDE};
use std::alloc::{AllocError, Global};
use std::marker::Model;
use std::mem;

/// The sequences that came before, and a place for a text.
#[derive(Drop)]
pub(crate) struct Memory {
    known: Known<Normal>,
    text: Vec<u8>,
}

impl Model for Memory {
    ghost use Rattle.std.specs.Prelude.{List};
    ghost use Rattle.csicodec_streams.specs.Known.{IsNormal};
    ghost use Rattle.csicodec_transform.specs.declared.memo.Slot.{Slot};
    ghost use Rattle.csicodec_transform.specs.Known.{AreKnown};

    ghost Value = { List Slot };

    ghost view = { λ m. m.known.memo.slots.items };

    ghost invariant = { λ m. AreKnown IsNormal m.known.memo.slots.items };
}

impl Memory {
    /// With nothing known.
    pub(crate) fn new(alloc: Global) -> Memory {
        Memory {
            known: Known::new(alloc),
            text: Vec::new(alloc),
        }
    }
}

impl<R: Rewrite> Visit<R> for Memory {
    ghost use Rattle.csicodec_filter.specs.Rewrites.{Rewrites};

    ghost does = { Rewrites R.writes };

    /// A sequence that is known passes, if its normal form is what is written for it.
    #[inline(always)]
    fn csi_at_once(
        &mut self,
        visitor: &mut R,
        limit: usize,
        bytes: &[u8],
        out: &mut TextBuffer,
    ) -> Result<usize, AllocError> {
        if !visitor.writes_normal_forms() {
            return Ok(0);
        }
        let len = self.known.recall(limit, bytes, out);
        if len == 0 && limit >= WIDE {
            return Ok(take_simple(&mut self.known.memo, bytes, out));
        }
        Ok(len)
    }

    /// Its normal form is kept, if that is what is written.
    fn csi_dispatch(
        &mut self,
        visitor: &mut R,
        bytes: &[u8],
        len: usize,
        sequence: Sequence,
        out: &mut TextBuffer,
    ) -> Result<(), AllocError> {
        let wanted = visitor.writes_normal_forms();
        let (span, _) = bytes.split_at(len);
        self.text.clear();
        visitor.rewrite(span, sequence.params, sequence.control, &mut self.text)?;
        out.push_slice(&self.text)?;
        if wanted {
            self.known.keep(bytes, len, &self.text);
        }
        Ok(())
    }

    #[inline(always)]
    fn other(
        &mut self,
        _visitor: &mut R,
        bytes: &[u8],
        len: usize,
        out: &mut TextBuffer,
    ) -> Result<(), AllocError> {
        append_front(bytes, len, out)
    }

    fn pause(&mut self, _visitor: &mut R, _out: &mut Vec<u8>) -> Result<(), AllocError> {
        Ok(())
    }
}

/// Appends the texts of all spans of the bytes that are sure, and answers how many bytes they are, and the mode behind them.
///
/// It is a step of a [`Filter`] whose state the caller keeps: the next step begins in that mode, and with the bytes that are
/// left, which are fewer than `limit`, or than 3, ahead of those that come. `params` is a buffer that is kept from step to
/// step. Where nothing comes any more, the bytes that are left pass as they are.
///
/// ```text
/// let (used, mode) =
///     append_spans(&mut rewrite, &mut params, 65536, Mode::Text, b"a\x1b[01mb\x1b[", &mut out)?;
/// // With a NormalForm "a\x1b[1mb" is appended, and used is 7: "\x1b[" waits for more.
/// ```
pub fn append_spans<T: Rewrite>(
    rewrite: &mut T,
    params: &mut Vec<CsiParam>,
    limit: usize,
    mode: Mode,
    bytes: &[u8],
    out: &mut Vec<u8>,
) -> Result<(usize, Mode), AllocError>
    requires { 0 < limit }
    ensures passes { IfOk result (λ (used, after). (used ≤ length bytes.now) × (text : List ℕ)
        × Passes (T.writes rewrite.old) limit mode bytes.now text (drop used bytes.now) after
        × (out.new.items ≡ out.old.items ++ text)) }
    ensures same { OnOk result
        ((bytes text : List ℕ) → T.writes rewrite.new bytes text
        → T.writes rewrite.old bytes text) }
{
    let alloc = *params.allocator();
    let mut room: Room<Memory> = Room {
        params: mem::replace(params, Vec::new(alloc)),
        memory: Memory::new(alloc),
    };
    let left = Cutter { mode, rest: bytes };
    let appended = append_sure(rewrite, &mut room, limit, left, out);
    *params = room.params;
    let (used, mode) = appended?;
    Ok((used, mode))
}

/// A stream that is rewritten as it comes: each control sequence of at most `limit` bytes becomes what `R` writes for it, and
/// every other byte passes as it is.
///
/// What a control sequence is, and what isn't one, is told by [`Spans`](csicodec_spans::Spans). Where its rule writes one text
/// for each sequence, it doesn't matter how the stream is cut into the slices that are pushed. After an `Err` the filter and what was appended are of no more use.
///
/// ```text
/// let mut filter = Filter::new(alloc, 65536, NormalForm::new(alloc));
/// filter.push(b"a\x1b[0", &mut out)?;      // appends "a"
/// filter.push(b"1mb", &mut out)?;          // appends "\x1b[1mb"
/// filter.finish(&mut out)?;                // appends what is held, here nothing
/// ```
#[derive(Drop)]
pub struct Filter<R> {
    driver: Driver<R, Memory>,
}

impl<R> Model for Filter<R> {
    ghost use Rattle.csicodec_filter.specs.Filter.{Held};
    ghost use Rattle.csicodec_filter.specs.Rewrites.{held};

    ghost Value = { Held R };

    ghost view = { λ f. held f.driver };
}

impl<R: Rewrite + Drop> Filter<R> {
    /// A stream of which nothing has come.
    pub fn new(alloc: Global, limit: usize, rewrite: R) -> Filter<R>
        requires { 0 < limit }
        ensures { result ≡ record { rewrite = rewrite; limit = limit; mode = Plain; bytes = [] } }
    {
        Filter {
            driver: Driver::new(alloc, limit, rewrite, Memory::new(alloc)),
        }
    }

    /// Takes the next bytes, and appends the texts of all that is sure now. What isn't is held, and is short: fewer bytes than
    /// `limit`, or than 3 where that is less.
    pub fn push(&mut self, bytes: &[u8], out: &mut Vec<u8>) -> Result<(), AllocError>
        ensures passes { OnOk result
            ((text : List ℕ)
            × Passes (R.writes self.old.rewrite) self.old.limit self.old.mode
            (self.old.bytes ++ bytes.now) text self.new.bytes self.new.mode
            × (out.new.items ≡ out.old.items ++ text)) }
        ensures limit { OnOk result (self.new.limit ≡ self.old.limit) }
        ensures same { OnOk result
            ((bytes text : List ℕ) → R.writes self.new.rewrite bytes text
            → R.writes self.old.rewrite bytes text) }
        ensures short { OnOk result
            ((length self.new.bytes < self.new.limit) ⊎ (length self.new.bytes < 3)) }
    {
        self.driver.push(bytes, out)?;
        Ok(())
    }

    /// Appends what is held: nothing comes any more.
    pub fn finish(&mut self, out: &mut Vec<u8>) -> Result<(), AllocError>
        ensures { OnOk result (out.new.items ≡ out.old.items ++ self.old.bytes) }
    {
        self.driver.append_collected(out)
    }
}
