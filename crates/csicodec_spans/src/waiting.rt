//! The bytes of a stream that wait for more.
ghost use Rattle.std.specs.Prelude.{◌≡◌, ◌<◌, ◌≤◌, ◌+◌, ◌*◌, ◌-◌, ◌++◌, ◌∷◌, ℕ, List, [], None, IfSome, length, drop, vec_len, MatchOption, OnOk, IfOk, true};
ghost use Rattle.csicodec_spans.specs.{declared.table.Mode.Mode, declared.table.Mode.TheVariants.Text, Parts.IsUnsure, Waits.IsOnce, Private.Begun.IsBegun};
ghost use Rattle.csicodec_spans.specs.{Private.Begun.Tells};
ghost use Rattle.csicodec_tokens.specs.Body.{Adds, Stops};

use crate::held::{Held, with_bytes};
use crate::table::Mode;
use std::alloc::{AllocError, Global};
use std::marker::Model;

/// The number that ends the beginning of a control sequence with these bytes more, where it ends in `number`; none where they may end it, or where
/// there is no room for them.
fn begun_with(number: Option<u64>, room: usize, bytes: &[u8]) -> Option<u64>
    ensures { MatchOption number (result ≡ None) (Tells room bytes.now result) }
{
    let last = number?;
    if bytes.len() < room {
        with_bytes(last, bytes)
    } else {
        None
    }
}

/// The bytes of a stream that wait for more, since nothing can be cut of them yet, and the mode that those before them leave open.
///
/// They can be had in no other way than by [`add`](Waiting::add) and [`end`](Waiting::end). While nothing can be cut of them, `add` doesn't hand
/// them out again, unless they are two bytes at most. Each look at one that waits is counted, in `looks`, which contracts alone see: so that
/// `add` doesn't walk over them with each chunk is a promise too.
///
/// ```text
/// let mut waiting = Waiting::new(alloc, 4096);
/// waiting.add(b"a\x1b[1")?           // Some(b"a\x1b[1"), of which "a" can be cut
/// waiting.keep(all, 1, Mode::Text);
/// waiting.add(b";2")?                // None: "\x1b[1;2" waits
/// waiting.add(b"mb")?                // Some(b"\x1b[1;2mb")
/// ```
#[derive(Drop)]
pub struct Waiting {
    limit: usize,
    mode: Mode,
    held: Held,
    /// The value of the digits at their end, where they begin a control sequence.
    number: Option<u64>,
}

impl Model for Waiting {
    ghost use Rattle.std.specs.Prelude.{◌<◌};
    ghost use Rattle.csicodec_spans.specs.Parts.{IsUnsure};
    ghost use Rattle.csicodec_spans.specs.Waits.{Pending};
    ghost use Rattle.csicodec_spans.specs.Private.Begun.{IsBegun};

    ghost Value = { Pending };

    ghost view = { λ w. record { limit = w.limit; mode = w.mode; bytes = w.held.bytes; looks = w.held.looks } };

    ghost invariant = { λ w. (0 < w.limit) × IsUnsure w.limit w.mode w.held.bytes
        × IsBegun w.held.bytes w.number };
}

impl Waiting {
    /// A stream of which nothing has come. A control sequence of more than `limit` bytes is `Other`.
    #[tactic(auto, using(crate::proofs::OneSpan::none_unsure))]
    pub fn new(alloc: Global, limit: usize) -> Waiting
        requires { 0 < limit }
        ensures { result ≡ record { limit = limit; mode = Text; bytes = []; looks = 0 } }
    {
        Waiting {
            limit,
            mode: Mode::Text,
            held: Held::new(alloc),
            number: None,
        }
    }

    /// How many bytes a control sequence may have.
    #[inline(always)]
    pub fn limit(&self) -> usize
        ensures is { result ≡ self.now.limit }
        ensures some { 0 < result }
    {
        self.limit
    }

    /// The mode of the bytes that wait, and of those that come.
    #[inline(always)]
    pub fn mode(&self) -> Mode
        ensures is { result ≡ self.now.mode }
        ensures unsure { IsUnsure self.now.limit self.now.mode self.now.bytes }
    {
        self.mode
    }

    /// Whether none wait.
    #[inline(always)]
    pub fn is_empty(&self) -> bool
        ensures { result ≡ true → self.now.bytes ≡ [] }
    {
        self.held.len() == 0
    }

    /// Takes the next bytes. Where something can be cut now, it hands out all that waits, to be read from the front; what is left of it is given back
    /// by [`keep`](Waiting::keep). Else it answers none, and they wait.
    #[tactic(auto, using(crate::proofs::OneSpan::none_unsure, crate::proofs::Waits::waits_once))]
    pub fn add(&mut self, bytes: &[u8]) -> Result<Option<Vec<u8>>, AllocError>
        ensures all { IfOk result (λ o. MatchOption o
            ((self.new ≡ record self.old {
              bytes = self.old.bytes ++ bytes.now;
              looks = self.old.looks + length bytes.now;
            })
            × IsUnsure self.old.limit self.old.mode (self.old.bytes ++ bytes.now))
            (λ all. (self.new ≡ record self.old {
              bytes = [];
              looks = self.old.looks + length self.old.bytes;
            })
            × (all.items ≡ self.old.bytes ++ bytes.now))) }
        // What waited isn't handed out again before something can be cut of it, unless that is two bytes at most.
        ensures once { IfOk result (λ o. IfSome o (λ _.
            IsOnce self.old.limit self.old.mode self.old.bytes bytes.now)) }
        ensures limit { self.new.limit ≡ self.old.limit }
    {
        let room = self.limit.saturating_sub(self.held.len());
        let begun = begun_with(self.number, room, bytes);
        let Some(number) = begun else {
            self.number = None;
            let mut all = self.held.take();
            all.extend_from_slice(bytes)?;
            return Ok(Some(all));
        };
        self.held.append(bytes)?;
        self.number = Some(number);
        Ok(None)
    }

    /// Keeps of the bytes that were handed out those behind the first `used`, of which nothing is sure in this mode.
    pub fn keep(&mut self, all: Vec<u8>, used: usize, mode: Mode)
        requires within { used ≤ vec_len all }
        requires unsure { IsUnsure self.old.limit mode (drop used all.items) }
        ensures { self.new ≡ record {
          limit = self.old.limit;
          mode = mode;
          bytes = drop used all.items;
          looks = self.old.looks + 2 * length (drop used all.items);
        } }
    {
        self.held.keep(all, used);
        self.number = self.held.begun();
        self.mode = mode;
    }

    /// Keeps bytes where none wait, of which nothing is sure in this mode.
    #[tactic(auto, using(crate::proofs::OneSpan::none_unsure))]
    pub fn hold(&mut self, rest: &[u8], mode: Mode) -> Result<(), AllocError>
        requires { IsUnsure self.old.limit mode rest.now }
        ensures { OnOk result (self.new ≡ record {
          limit = self.old.limit;
          mode = mode;
          bytes = rest.now;
          looks = self.old.looks + 2 * length rest.now;
        }) }
    {
        self.clear();
        self.held.append(rest)?;
        self.number = self.held.begun();
        self.mode = mode;
        Ok(())
    }

    /// Appends the bytes that wait: nothing comes any more.
    #[tactic(auto, using(crate::proofs::OneSpan::none_unsure))]
    pub fn end(&mut self, out: &mut Vec<u8>) -> Result<(), AllocError>
        ensures appended { OnOk result (out.new.items ≡ out.old.items ++ self.old.bytes) }
        ensures unsure { (0 < self.old.limit) × IsUnsure self.old.limit self.old.mode self.old.bytes }
        ensures limit { self.new.limit ≡ self.old.limit }
        ensures looks { self.new.looks ≡ self.old.looks + length self.old.bytes }
    {
        self.number = None;
        self.held.append_to(out)
    }

    /// As if nothing had come.
    #[tactic(auto, using(crate::proofs::OneSpan::none_unsure))]
    pub fn clear(&mut self)
        ensures { self.new ≡ record { limit = self.old.limit; mode = Text; bytes = []; looks = self.old.looks } }
    {
        self.mode = Mode::Text;
        self.held.clear();
        self.number = None;
    }
}
