//! The bytes that a control sequence stands in front of, and what each look at one costs.
ghost use Rattle.std.specs.Prelude.{◌≡◌, ◌<◌, ◌≤◌, ◌+◌, ◌*◌, ◌^◌, ◌∷◌, List, ℕ, IfOk, IfSome, MatchOption, OnOk, drop, length, take};
ghost use Rattle.csicodec_tokens.specs.{declared.param.CsiParam.CsiParam, Sequence.Reads, Sequence.Seq};
ghost use Rattle.csicodec_events.specs.Events.{BeginsCsi, stop, without_controls};

use crate::sequence::{near, read_without};
use csicodec_tokens::{Count, CsiParam, read_csi_into};
use std::alloc::AllocError;
use std::marker::Model;

/// The bytes that a control sequence stands in front of. Each look at one is counted, in a count that contracts alone see.
///
/// [`Events::next_over`](crate::Events::next_over) can get at the bytes in no other way: so that its looks stay linear in what
/// comes is a promise about all that it does.
#[derive(Drop)]
pub struct Front<'a> {
    bytes: &'a [u8],
    count: Count,
}

impl<'a> Model for Front<'a> {
    ghost use Rattle.csicodec_events.specs.Front.{Seen};

    ghost Value = { Seen };

    ghost view = { λ f. record { bytes = f.bytes.now; looks = f.count.total } };
}

impl<'a> Front<'a> {
    /// These bytes, at none of which was looked.
    #[inline(always)]
    pub fn new(bytes: &'a [u8]) -> Front<'a>
        ensures { result ≡ record { bytes = bytes.now; looks = 0 } }
    {
        Front {
            bytes,
            count: Count::new(),
        }
    }

    /// How many bytes they are. It costs nothing.
    #[inline(always)]
    pub fn len(&self) -> usize
        ensures len { result ≡ length self.now.bytes }
        ensures fits { result < 2 ^ 63 }
    {
        self.bytes.len()
    }

    /// The byte at a place. It costs a look.
    #[inline(always)]
    pub fn get(&mut self, at: usize) -> u8
        requires { at < length self.old.bytes }
        ensures byte { drop at self.old.bytes ≡ result ∷ drop (at + 1) self.old.bytes }
        ensures costs { self.new ≡ record { bytes = self.old.bytes; looks = self.old.looks + 1 } }
    {
        self.count.charge(1, 1);
        self.bytes[at]
    }

    /// The final byte of the sequence that the first `limit` of them begin with, and how many bytes it has; none where they begin
    /// with none. Its tokens are read into `params`. It costs a look for each byte up to the final byte, or up to the one with which
    /// they begin none; after an `Err` it isn't counted.
    #[inline(always)]
    pub fn read(
        &mut self,
        limit: usize,
        params: &mut Vec<CsiParam>,
    ) -> Result<Option<(char, usize)>, AllocError>
        requires begins { BeginsCsi self.old.bytes }
        ensures read { IfOk result (λ o. IfSome o (λ (final, len).
            (rest : List ℕ) × (Reads (take limit self.old.bytes) params.new.items final rest
            × (len + length rest ≡ length (take limit self.old.bytes))))) }
        ensures bytes { self.new.bytes ≡ self.old.bytes }
        ensures costs { OnOk result (self.new.looks ≤ self.old.looks
            + length (take (stop 0 self.old.bytes + 1) self.old.bytes)) }
    {
        let front = near(limit, self.bytes);
        match read_csi_into(params, front) {
            Ok(tail) => {
                let len = front.len() - tail.rest.len();
                self.count.charge(1, len);
                Ok(Some((tail.control, len)))
            }
            Err(error) => match error.at() {
                None => Err(AllocError),
                Some(at) => {
                    self.count.charge(1, near(at + 1, front).len());
                    Ok(None)
                }
            },
        }
    }

    /// The final byte of the sequence that the first bytes, so many, are without their controls, where they are one; its tokens are
    /// read into `params`. It costs two looks at each: one to copy it, and one to read the copy.
    pub fn read_without(
        &mut self,
        len: usize,
        params: &mut Vec<CsiParam>,
    ) -> Result<Option<char>, AllocError>
        requires within { len ≤ length self.old.bytes }
        ensures is { IfOk result (λ o. MatchOption o ((list : List CsiParam) (final : ℕ)
            → Seq (without_controls (take len self.old.bytes)) list final → ⊥)
            (λ final. Seq (without_controls (take len self.old.bytes)) params.new.items final)) }
        ensures costs { self.new ≡ record { bytes = self.old.bytes; looks = self.old.looks + 2 * len } }
    {
        self.count.charge(2, len);
        read_without(self.bytes.split_at(len).0, params)
    }
}
