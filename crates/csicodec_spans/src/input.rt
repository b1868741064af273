//! The bytes that are cut, and what each look at one costs.
ghost use Rattle.std.specs.Prelude.{◌≡◌, ◌<◌, ◌≤◌, ◌+◌, ℕ, List, IfErr, IfOk, MatchResult, drop, length, slice_index, take, true, vec_capacity};
ghost use Rattle.csicodec_tokens.specs.{declared.param.CsiParam.CsiParam, Fault.FaultOf, Fault.Refuses, Sequence.Reads};
ghost use Rattle.csicodec_spans.specs.{Private.TableBy.look, Private.TableBy.stays, Private.Looked.looks_met};

use crate::staying::staying;
use crate::table::{Ahead, Mode, look};
use csicodec_tokens::{Count, CsiParam, ReadError, behind_csi, read_csi_into};
use std::marker::Model;

/// The bytes that are cut. Its methods count the looks that they take at one, as each says, in a count that contracts alone see.
///
/// The steps that find a span have the bytes as an `Input` alone, and get at them by these methods only: so that the looks that are counted stay
/// linear in what is cut is a promise about all that they do. [`next_span`](crate::next_span) and [`Cutter::next`](crate::Cutter::next) have the
/// slice too, to make an `Input` of it and to split it behind the span; a look that they took at that would not be counted.
#[derive(Drop)]
pub(crate) struct Input<'a> {
    bytes: &'a [u8],
}

impl<'a> Model for Input<'a> {
    ghost use Rattle.std.specs.Prelude.{List, ℕ};

    ghost Value = { List ℕ };

    ghost view = { λ i. i.bytes.now };
}

/// Counts what a reader looked at that found no sequence, by its error.
fn charge_fault(error: ReadError, looks: &mut Count)
    ensures { looks.new.total ≤ looks.old.total + looks_met error }
{
    match error {
        ReadError::NotCsi { at } | ReadError::BadByte { at } | ReadError::NumberTooLarge { at } => {
            looks.charge(1, at);
            looks.charge(1, 1);
        }
        ReadError::Truncated { at } => looks.charge(1, at),
        ReadError::Memory => {}
    }
}

impl<'a> Input<'a> {
    /// These bytes.
    #[inline(always)]
    pub(crate) fn new(bytes: &'a [u8]) -> Input<'a>
        ensures { result ≡ bytes.now }
    {
        Input { bytes }
    }

    /// How many they are. It costs nothing.
    #[inline(always)]
    pub(crate) fn len(&self) -> usize
        ensures { result ≡ length self.now }
    {
        self.bytes.len()
    }

    /// Those behind the first `len`. It costs nothing.
    #[inline(always)]
    pub(crate) fn behind(&self, len: usize) -> Input<'a>
        requires { len ≤ length self.now }
        ensures { result ≡ drop len self.now }
    {
        Input::new(self.bytes.split_at(len).1)
    }

    /// What stands in front of them. It costs three looks.
    #[inline(always)]
    pub(crate) fn look(&self, mode: Mode, looks: &mut Count) -> Ahead
        ensures is { result ≡ look mode self.now }
        ensures costs { looks.new.total ≡ looks.old.total + 3 }
    {
        looks.charge(3, 1);
        look(mode, self.bytes)
    }

    /// How many in front stay in the mode. It costs a look at each, and one at the byte behind them: what is read at once with these isn't
    /// counted.
    #[inline(always)]
    pub(crate) fn staying(&self, mode: Mode, looks: &mut Count) -> usize
        ensures within { result ≤ length self.now }
        ensures stay { (k : ℕ) → k < result → stays mode (slice_index self.now k) ≡ true }
        ensures costs { looks.new.total ≡ looks.old.total + (result + 1) }
    {
        let len = staying(mode, self.bytes);
        looks.charge(1, len);
        looks.charge(1, 1);
        len
    }

    /// As many of the first as a sequence may have.
    #[inline(always)]
    fn near(&self, limit: usize) -> &'a [u8]
        ensures { result.now ≡ take limit self.now }
    {
        self.bytes.get(..limit).unwrap_or(self.bytes)
    }

    /// What is behind the sequence that the first `limit` of them begin with. It costs a look at each byte of it, or up to the one with which
    /// they begin none.
    #[inline(always)]
    pub(crate) fn behind_csi(&self, limit: usize, looks: &mut Count) -> Result<Input<'a>, ReadError>
        ensures found { IfOk result (λ rest. (list : List CsiParam) × (final : ℕ)
            × Reads (take limit self.now) list final rest) }
        ensures refused { IfErr result (FaultOf (take limit self.now)) }
        ensures costs { MatchResult result
            (λ rest. looks.new.total + length rest ≤ looks.old.total + length (take limit self.now))
            (λ e. looks.new.total ≤ looks.old.total + looks_met e) }
    {
        let near = self.near(limit);
        match behind_csi(near) {
            Ok(rest) => {
                looks.charge(1, near.len() - rest.len());
                Ok(Input::new(rest))
            }
            Err(error) => {
                charge_fault(error, looks);
                Err(error)
            }
        }
    }

    /// The same, and its final byte as a character; its tokens are read into `params`. What was looked at isn't counted where memory is
    /// refused.
    #[inline(always)]
    pub(crate) fn read(
        &self,
        limit: usize,
        params: &mut Vec<CsiParam>,
        looks: &mut Count,
    ) -> Result<(char, Input<'a>), ReadError>
        ensures found { IfOk result (λ (control, rest).
            Reads (take limit self.now) params.new.items control rest) }
        ensures refused { IfErr result (Refuses (take limit self.now) (vec_capacity params.old)) }
        ensures kept { vec_capacity params.old ≤ vec_capacity params.new }
        ensures costs { MatchResult result
            (λ (control, rest). looks.new.total + length rest ≤ looks.old.total + length (take limit self.now))
            (λ e. looks.new.total ≤ looks.old.total + looks_met e) }
    {
        let near = self.near(limit);
        match read_csi_into(params, near) {
            Ok(tail) => {
                looks.charge(1, near.len() - tail.rest.len());
                Ok((tail.control, Input::new(tail.rest)))
            }
            Err(error) => {
                charge_fault(error, looks);
                Err(error)
            }
        }
    }
}
