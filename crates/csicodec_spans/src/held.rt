//! The bytes that wait, and what each look at one costs.
ghost use Rattle.std.specs.Prelude.{◌≡◌, ◌≤◌, ◌+◌, ◌++◌, ℕ, List, [], length, drop, vec_len, MatchOption, OnErr, OnOk, true};
ghost use Rattle.csicodec_spans.specs.{declared.table.Mode.Mode, Parts.IsUnsure, Private.Begun.IsBegun};
ghost use Rattle.csicodec_tokens.specs.Body.{Adds, Stops};

use csicodec_tokens::{Count, walk_body};
use std::alloc::{AllocError, Global};
use std::marker::Model;

/// The number that ends a body with some bytes more, where the body ends in `number`; none where no body goes on so.
#[tactic(auto, using(crate::proofs::Waits::stops))]
pub(crate) fn with_bytes(number: u64, bytes: &[u8]) -> Option<u64>
    ensures { MatchOption result (Stops number bytes.now) (Adds number bytes.now) }
{
    match walk_body(number, bytes) {
        Ok(last) => Some(last),
        Err(_) => None,
    }
}

/// The bytes that wait. Each look at one, and each copy of one, is counted, in a count that contracts alone see.
///
/// [`Waiting`](crate::Waiting) can get at the bytes in no other way: so that its looks stay linear in what comes is a promise about all that
/// it does.
#[derive(Drop)]
pub(crate) struct Held {
    bytes: Vec<u8>,
    looks: Count,
}

impl Model for Held {
    ghost use Rattle.csicodec_spans.specs.Waits.{Seen};

    ghost Value = { Seen };

    ghost view = { λ h. record { bytes = h.bytes.items; looks = h.looks.total } };
}

impl Held {
    /// None, at which no look was taken.
    pub(crate) fn new(alloc: Global) -> Held
        ensures { result ≡ record { bytes = []; looks = 0 } }
    {
        Held {
            bytes: Vec::new(alloc),
            looks: Count::new(),
        }
    }

    /// How many they are. It costs nothing.
    #[inline(always)]
    pub(crate) fn len(&self) -> usize
        ensures { result ≡ length self.now.bytes }
    {
        self.bytes.len()
    }

    /// Appends bytes that come. It costs a look at each of these; where memory is refused, none is taken.
    pub(crate) fn append(&mut self, bytes: &[u8]) -> Result<(), AllocError>
        ensures ok { OnOk result (self.new ≡ record { bytes = self.old.bytes ++ bytes.now; looks = self.old.looks + length bytes.now }) }
        ensures err { OnErr result (self.new ≡ self.old) }
    {
        self.bytes.extend_from_slice(bytes)?;
        self.looks.charge(1, bytes.len());
        Ok(())
    }

    /// Hands them out, so that none waits. It costs a look at each.
    pub(crate) fn take(&mut self) -> Vec<u8>
        ensures all { result.items ≡ self.old.bytes }
        ensures costs { self.new ≡ record { bytes = []; looks = self.old.looks + length self.old.bytes } }
    {
        self.looks.charge(1, self.bytes.len());
        let alloc = *self.bytes.allocator();
        std::mem::replace(&mut self.bytes, Vec::new(alloc))
    }

    /// Keeps those behind the first `used` in place of any that wait. It costs a look at each that is kept.
    pub(crate) fn keep(&mut self, all: Vec<u8>, used: usize)
        requires { used ≤ vec_len all }
        ensures { self.new ≡ record { bytes = drop used all.items; looks = self.old.looks + length (drop used all.items) } }
    {
        let mut rest = all;
        let len = rest.len();
        rest.copy_within(used..len, 0);
        rest.truncate(len - used);
        self.looks.charge(1, len - used);
        self.bytes = rest;
    }

    /// The number that ends them, where nothing is sure of them and they begin a control sequence's body. It costs a look at each.
    #[tactic(auto, using(crate::proofs::Waits::few_begun, crate::proofs::Waits::long_begun))]
    pub(crate) fn begun(&mut self) -> Option<u64>
        ensures is { (limit : ℕ) (mode : Mode) → IsUnsure limit mode self.old.bytes → IsBegun self.old.bytes result }
        ensures costs { self.new ≡ record { bytes = self.old.bytes; looks = self.old.looks + length self.old.bytes } }
    {
        self.looks.charge(1, self.bytes.len());
        if self.bytes.len() < 3 {
            return None;
        }
        with_bytes(0, self.bytes.split_at(2).1)
    }

    /// Appends them to others, so that none waits. It costs a look at each.
    pub(crate) fn append_to(&mut self, out: &mut Vec<u8>) -> Result<(), AllocError>
        ensures appended { OnOk result (out.new.items ≡ out.old.items ++ self.old.bytes) }
        ensures costs { self.new ≡ record { bytes = []; looks = self.old.looks + length self.old.bytes } }
    {
        self.looks.charge(1, self.bytes.len());
        let appended = out.extend_from_slice(&self.bytes);
        self.bytes.clear();
        appended
    }

    /// Drops them. It costs nothing.
    pub(crate) fn clear(&mut self)
        ensures { self.new ≡ record { bytes = []; looks = self.old.looks } }
    {
        self.bytes.clear();
    }
}
