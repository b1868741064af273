//! A stream that is cleaned as it comes.
ghost use Rattle.std.specs.Prelude.{◌≡◌, ◌<◌, ◌≤◌, ◌++◌, ℕ, List, [], length, OnOk};
ghost use Rattle.csicodec_clean.specs.{Shown.run_as, Cleaned.longest, Stream.Takes, Stream.start_of};

use crate::reading::Reading;
use crate::rule::{Anew, Rule};
use crate::spans::append_clean;
use crate::text::append_shown;
use csicodec_base::CsiParam;
use csicodec_spans::{LIMIT, Waiting};
use std::alloc::{AllocError, Global};
use std::marker::Model;

/// A stream that is cleaned by a rule as it comes: in however many slices it is pushed, what these and the end append is what
/// is made of all of them at once ([`any_chunks`](crate::laws::any_chunks)).
///
/// It holds a control sequence that isn't over, of fewer than 65536 bytes, and three bytes of a character at most, beside what its rule
/// does. After an `Err` the cleaner and what was appended are of no more use.
#[derive(Drop)]
pub struct Cleaner<R> {
    rule: R,
    reading: Reading,
    waiting: Waiting,
    held: Vec<u8>,
    params: Vec<CsiParam>,
}

impl<R> Model for Cleaner<R> {
    ghost use Rattle.std.specs.Prelude.{◌≡◌};
    ghost use Rattle.csicodec_clean.specs.Cleaned.{longest};
    ghost use Rattle.csicodec_clean.specs.Stream.{Between};

    ghost Value = { Between R };

    ghost view = { λ c. record { rule = c.rule; mode = c.waiting.mode; reading = c.reading; bytes = c.waiting.bytes; held = c.held.items } };

    ghost invariant = { λ c. c.waiting.limit ≡ longest };
}

impl<R: Rule + Drop> Cleaner<R> {
    /// A stream of which nothing has come.
    pub fn new(alloc: Global, rule: R) -> Cleaner<R>
        ensures { result ≡ start_of rule }
    {
        Cleaner {
            rule,
            reading: Reading::first(),
            waiting: Waiting::new(alloc, LIMIT),
            held: Vec::new(alloc),
            params: Vec::new(alloc),
        }
    }

    /// Takes the next bytes, and appends what is left of all that is sure now.
    pub fn push(&mut self, bytes: &[u8], out: &mut Vec<u8>) -> Result<(), AllocError>
        ensures takes { OnOk result
            ((text : List ℕ) × Takes R.gives self.old bytes.now text self.new
            × (out.new.items ≡ out.old.items ++ text)) }
        // What is held is short.
        ensures held { OnOk result (length self.old.held ≤ 3 → length self.new.held ≤ 3) }
        ensures pending { OnOk result (length self.new.bytes < longest) }
    {
        let Some(all) = self.waiting.add(bytes)? else {
            return Ok(());
        };
        let (rest, mode) = append_clean(
            &mut self.rule,
            &mut self.params,
            &mut self.held,
            &mut self.reading,
            LIMIT,
            self.waiting.mode(),
            &all,
            out,
        )?;
        let used = all.len() - rest.len();
        self.waiting.keep(all, used, mode);
        Ok(())
    }

    /// Appends what is shown of the text that is held, and what ends the output: nothing comes any more.
    pub fn finish(&mut self, out: &mut Vec<u8>) -> Result<(), AllocError>
        ensures { OnOk result
            ((close : List ℕ) × R.closes self.old.rule close
            × (out.new.items ≡ out.old.items ++ (run_as R.gives.writing self.old.held ++ close))) }
    {
        append_shown::<R>(&self.held, out)?;
        self.rule.close(out)
    }
}

impl<P, R: Rule + Anew<P> + Drop> Anew<P> for Cleaner<R> {
    ghost use Rattle.csicodec_clean.specs.Stream.{start_of};

    ghost begins = { λ by. start_of (R.begins by) };

    fn begin(&mut self, by: P) {
        self.rule.begin(by);
        self.reading = Reading::first();
        self.waiting.clear();
        self.held.clear();
    }
}
