//! A stream that is made shorter as it comes.
ghost use Rattle.std.specs.Prelude.{◌≡◌, ◌<◌, ◌⊎◌, ◌++◌, ℕ, List, [], length, OnOk, IfOk};
ghost use Rattle.csicodec_spans.specs.declared.table.Mode.TheVariants.{Text as Plain};
ghost use Rattle.csicodec_compact.specs.Runs.{CompactsAll, PassesShort};

use crate::compact::Compact;
use crate::shortener::{Memory, Shortener};
use csicodec_spans::Driver;
use std::alloc::{AllocError, Global};
use std::marker::Model;

/// A stream that is made shorter as it comes: each control sequence of at most `limit` bytes in the shortest of its spellings that is
/// found, as [`Compact`] writes it, sequences of attributes (SGR) that stand side by side in one of at most 16 numbers, and every other
/// byte as it came.
///
/// What it writes is read as exactly the actions that came, in order. A run of attributes is written at the end of a push at the latest, so
/// that who waits for output sees it: cut into other slices the stream may be spelled otherwise, and never means anything else. After an
/// `Err` the compactor and what was appended are of no more use.
///
/// ```text
/// let mut compactor = Compactor::new(alloc, 65536, Compact::new(alloc));
/// compactor.push(b"a\x1b[0m\x1b[01;31mb\x1b[", &mut out)?;      // appends "a\x1b[;1;31mb"
/// compactor.finish(&mut out)?;                                  // appends what is held, here "\x1b["
/// ```
#[derive(Drop)]
pub struct Compactor {
    driver: Driver<Shortener, Memory>,
}

impl Model for Compactor {
    ghost use Rattle.csicodec_spans.specs.{Machine.collected, Told.mode_of};
    ghost use Rattle.csicodec_compact.specs.Runs.{Open};

    ghost Value = { Open };

    ghost view = { λ c. record { limit = c.driver.limit; mode = mode_of c.driver.state; bytes = collected c.driver.state } };
}

impl Compactor {
    /// A stream of which nothing has come.
    pub fn new(alloc: Global, limit: usize, compact: Compact) -> Compactor
        requires { 0 < limit }
        ensures { result ≡ record { limit = limit; mode = Plain; bytes = [] } }
    {
        let shortener = Shortener::new(alloc, compact);
        Compactor {
            driver: Driver::new(alloc, limit, shortener, Memory::new(alloc)),
        }
    }

    /// Takes the next bytes, and appends what is made of all that is sure now. What isn't is held, and is short: fewer bytes than
    /// `limit`, or than 3 where that is less.
    pub fn push(&mut self, bytes: &[u8], out: &mut Vec<u8>) -> Result<(), AllocError>
        ensures passes { OnOk result
            ((text : List ℕ)
            × PassesShort self.old.limit self.old.mode
            (self.old.bytes ++ bytes.now) text self.new.bytes self.new.mode
            × (out.new.items ≡ out.old.items ++ text)) }
        ensures limit { OnOk result (self.new.limit ≡ self.old.limit) }
        ensures short { OnOk result
            ((length self.new.bytes < self.new.limit) ⊎ (length self.new.bytes < 3)) }
    {
        self.driver.visitor.restart();
        self.driver.push(bytes, out)?;
        self.driver.pause(out)?;
        Ok(())
    }

    /// Appends what is held: nothing comes any more.
    pub fn finish(&mut self, out: &mut Vec<u8>) -> Result<(), AllocError>
        ensures { OnOk result (out.new.items ≡ out.old.items ++ self.old.bytes) }
    {
        self.driver.append_collected(out)
    }
}

/// What a [`Compactor`] makes of bytes that are all there, in one push.
///
/// ```text
/// compact_bytes(alloc, 65536, Compact::new(alloc), b"\x1b[1m\x1b[0;3mab")?      // b"\x1b[1;;3mab"
/// ```
pub fn compact_bytes(
    alloc: Global,
    limit: usize,
    compact: Compact,
    bytes: &[u8],
) -> Result<Vec<u8>, AllocError>
    requires { 0 < limit }
    ensures { IfOk result (λ out. CompactsAll limit Plain bytes.now out.items) }
{
    let mut out = Vec::new(alloc);
    let mut compactor = Compactor::new(alloc, limit, compact);
    if compactor.push(bytes, &mut out).is_err() || compactor.finish(&mut out).is_err() {
        return Err(AllocError);
    }
    Ok(out)
}
