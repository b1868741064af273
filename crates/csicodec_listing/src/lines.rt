//! Lines as they come, and the bytes that they stand for.
ghost use Rattle.std.specs.Prelude.{◌≡◌, ◌≤◌, ◌==◌, ◌++◌, ◌∷◌, [], ℕ, List, IfErr, IfNone, IfSome, OnErr, OnOk, not, true, vec_len};
ghost use Rattle.std.specs.List.{list_all};
ghost use Rattle.csicodec_listing.specs.Lines.{GiveAll, Gives, IsFirst, IsRefused, Passes, counted, last_line, most, one_more};
ghost use Rattle.csicodec_listing.specs.Object.{IsRefusalOf};

use crate::glance::Glance;
use crate::object::{Fault, Finds, Refusal, append_bytes};
use memchr::memchr;
use std::alloc::Global;

/// The most bytes that a line may have, without its end: 16 MiB.
const MOST: usize = 16_777_216;

/// The line in front, and what is behind its end, if it has one.
pub fn split_line(bytes: &[u8]) -> Option<(&[u8], &[u8])>
    ensures whole { IfSome result (λ (line, behind). bytes.now ≡ line.now ++ 10 ∷ behind.now) }
    ensures first { IfSome result (λ (line, _). list_all (λ b. not (b == 10)) line.now ≡ true) }
    ensures none { IfNone result (list_all (λ b. not (b == 10)) bytes.now ≡ true) }
{
    match memchr(b'\n', bytes) {
        Some(end) => Some((&bytes[..end], &bytes[end + 1..])),
        None => None,
    }
}

/// Lines of which some have come. It holds no more than the line that has begun, as much room to read it, and what it knows of some
/// lines that were short.
#[derive(Drop)]
pub struct Assembler<F> {
    alloc: Global,
    /// Reads a line.
    glance: Glance,
    /// Finds bytes for a line that has actions alone.
    finder: F,
    /// What has come of the line.
    line: Vec<u8>,
    /// How many lines are over.
    over: u64,
    ghost bounded: { vec_len line ≤ most },
}

impl<F: Finds> Assembler<F> {
    /// Of which nothing has come.
    pub fn new(alloc: Global, finder: F) -> Assembler<F>
        ensures line { result.line.items ≡ [] }
        ensures over { result.over ≡ 0 }
    {
        Assembler {
            alloc,
            glance: Glance::new(alloc),
            finder,
            line: Vec::new(alloc),
            over: 0,
        }
    }

    /// The line that has begun, counted from 1; behind an `Err` it is the one that was refused.
    pub fn number(&self) -> u64
        ensures { result ≡ one_more self.now.over }
    {
        self.over.saturating_add(1)
    }

    /// The line is over.
    fn end_line(&mut self, out: &mut Vec<u8>) -> Result<(), Refusal>
        ensures begins { OnOk result (self.new.line.items ≡ []) }
        ensures over { OnOk result (self.new.over ≡ one_more self.old.over) }
        ensures stays { OnErr result (self.new.over ≡ self.old.over) }
        ensures same { OnErr result (self.new.line.items ≡ self.old.line.items) }
        ensures bytes { OnOk result ((text : List ℕ) × Gives self.old.line.items text
            × (out.new.items ≡ out.old.items ++ text)) }
        ensures told { IfErr result (λ e. IsRefusalOf e self.old.line.items) }
        ensures kept { OnErr result (out.new.items ≡ out.old.items) }
    {
        append_bytes(
            self.alloc,
            &mut self.glance,
            &mut self.finder,
            &self.line,
            out,
        )?;
        self.line.clear();
        self.over = self.over.saturating_add(1);
        Ok(())
    }

    /// The line goes on with these bytes.
    fn hold(&mut self, bytes: &[u8]) -> Result<(), Refusal>
        requires { list_all (λ b. not (b == 10)) bytes.now ≡ true }
        ensures held { OnOk result (self.new.line.items ≡ self.old.line.items ++ bytes.now) }
        ensures over { self.new.over ≡ self.old.over }
        ensures told { IfErr result (λ e. IsRefused e self.old.line.items bytes.now) }
        ensures same { OnErr result (self.new.line.items ≡ self.old.line.items) }
    {
        if bytes.len() > MOST - self.line.len() {
            return Err(Refusal::Line(Fault::TooLong));
        }
        self.line.extend_from_slice(bytes)?;
        Ok(())
    }

    /// Takes bytes, and appends what the lines stand for that end in them. On `Err` that of the lines ahead of the one that is
    /// refused has been appended, `number` is that one's, and nothing more is to be taken.
    pub fn take(&mut self, bytes: &[u8], out: &mut Vec<u8>) -> Result<(), Refusal>
        ensures bytes { OnOk result ((over : List (List ℕ)) × (text : List ℕ)
            × Passes self.old.line.items bytes.now over text self.new.line.items
            × (self.new.over ≡ counted self.old.over over)
            × (out.new.items ≡ out.old.items ++ text)) }
        ensures told { IfErr result (λ e. (front rest text : List ℕ) × (over : List (List ℕ))
            × (bytes.now ≡ front ++ rest)
            × Passes self.old.line.items front over text self.new.line.items
            × IsRefused e self.new.line.items rest
            × (self.new.over ≡ counted self.old.over over)
            × (out.new.items ≡ out.old.items ++ text)) }
    {
        let mut rest = bytes;
        while let Some((line, behind)) = split_line(rest) {
            self.hold(line)?;
            self.end_line(out)?;
            rest = behind;
        }
        self.hold(rest)
    }

    /// Nothing comes any more: a line that has begun is over. On `Err` it is the one that `number` says.
    pub fn end(&mut self, out: &mut Vec<u8>) -> Result<(), Refusal>
        ensures begins { OnOk result (self.new.line.items ≡ []) }
        ensures bytes { OnOk result ((text : List ℕ)
            × GiveAll (last_line self.old.line.items) text
            × (out.new.items ≡ out.old.items ++ text)) }
        ensures told { IfErr result (λ e. IsFirst e (last_line self.old.line.items)) }
        ensures stays { OnErr result (self.new.over ≡ self.old.over) }
        ensures kept { OnErr result (out.new.items ≡ out.old.items) }
    {
        if self.line.is_empty() {
            return Ok(());
        }
        self.end_line(out)
    }
}
