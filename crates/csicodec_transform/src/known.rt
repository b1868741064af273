//! What is looked up in a stream: control sequences that came before, and what was noted of them.
ghost use Rattle.std.specs.Prelude.{◌≡◌, ◌++◌, ◌<◌, ◌≤◌, ℕ, List, length, take};
ghost use Rattle.csicodec_transform.specs.Known.{AreKnown};

use crate::memo::{Memo, Note, Noted, WIDE};
use csicodec_base::TextBuffer;
use std::alloc::Global;

/// A table of control sequences that came before, and what is noted of the one that was found last.
#[derive(Drop)]
pub struct Known<N> {
    /// What came before.
    pub memo: Memo<N>,
    note: Noted,
}

impl<N: Note> Known<N> {
    /// With nothing known.
    pub fn new(alloc: Global) -> Known<N>
        ensures { AreKnown N.notes result.memo.slots.items }
    {
        Known {
            memo: Memo::new(alloc),
            note: Noted::none(),
        }
    }

    /// Looks for the control sequence in front, and answers how many bytes it has, at most `limit`; 0 where it isn't known.
    /// Its note is [`noted`](Known::noted) then.
    #[inline(always)]
    pub fn look(&mut self, limit: usize, bytes: &[u8]) -> usize
        requires { AreKnown N.notes self.old.memo.slots.items }
        ensures noted { 0 < result → N.notes (take result bytes.now) self.new.note }
        ensures within { result ≤ length bytes.now }
        ensures short { result ≤ limit }
        ensures known { AreKnown N.notes self.new.memo.slots.items }
    {
        if bytes.len() < WIDE || limit < WIDE {
            return self.look_at_end(limit, bytes);
        }
        self.memo.find(bytes, &mut self.note)
    }

    /// Looks up fewer bytes than a place is told for: with others behind.
    #[inline(never)]
    fn look_at_end(&mut self, limit: usize, bytes: &[u8]) -> usize
        requires { AreKnown N.notes self.old.memo.slots.items }
        ensures noted { 0 < result → N.notes (take result bytes.now) self.new.note }
        ensures within { result ≤ length bytes.now }
        ensures short { result ≤ limit }
        ensures known { AreKnown N.notes self.new.memo.slots.items }
    {
        let front = near(limit.min(WIDE), bytes);
        let mut wide = [0; WIDE];
        wide[..front.len()].copy_from_slice(front);
        let len = self.memo.find(&wide, &mut self.note);
        if len > front.len() {
            return 0;
        }
        len
    }

    /// Appends what is noted of the control sequence in front, if it is known, and answers how many bytes it has, at most `limit`;
    /// 0 where it isn't, and where there is no memory.
    #[inline(always)]
    pub fn recall(&mut self, limit: usize, bytes: &[u8], out: &mut TextBuffer) -> usize
        requires { AreKnown N.notes self.old.memo.slots.items }
        ensures noted { 0 < result
            → (text : List ℕ) × N.notes (take result bytes.now) text × (out.new ≡ out.old ++ text) }
        ensures none { result ≡ 0 → out.new ≡ out.old }
        ensures within { result ≤ length bytes.now }
        ensures short { result ≤ limit }
        ensures known { AreKnown N.notes self.new.memo.slots.items }
    {
        if bytes.len() < WIDE || limit < WIDE {
            return self.recall_at_end(limit, bytes, out);
        }
        self.memo.recall(bytes, out)
    }

    /// Recalls the text of fewer bytes than a place is told for.
    #[inline(never)]
    fn recall_at_end(&mut self, limit: usize, bytes: &[u8], out: &mut TextBuffer) -> usize
        requires { AreKnown N.notes self.old.memo.slots.items }
        ensures noted { 0 < result
            → (text : List ℕ) × N.notes (take result bytes.now) text × (out.new ≡ out.old ++ text) }
        ensures none { result ≡ 0 → out.new ≡ out.old }
        ensures within { result ≤ length bytes.now }
        ensures short { result ≤ limit }
        ensures known { AreKnown N.notes self.new.memo.slots.items }
    {
        let len = self.look_at_end(limit, bytes);
        if len == 0 {
            return 0;
        }
        match out.push_slice(self.note.as_slice()) {
            Ok(()) => len,
            Err(_) => 0,
        }
    }

    /// What is noted of the sequence that was found last.
    #[inline(always)]
    pub fn noted(&self) -> &[u8]
        ensures { result.now ≡ self.now.note }
    {
        self.note.as_slice()
    }

    /// The same, and what stands behind it in its place: a length that is always the same.
    #[inline(always)]
    pub fn wide(&self) -> &[u8]
        ensures { (more : List ℕ) × (result.now ≡ self.now.note ++ more) }
    {
        self.note.wide()
    }

    /// Keeps the control sequence in front, of so many bytes, and its note.
    pub fn keep(&mut self, bytes: &[u8], len: usize, text: &[u8])
        requires known { AreKnown N.notes self.old.memo.slots.items }
        requires noted { N.notes (take len bytes.now) text.now }
        ensures { AreKnown N.notes self.new.memo.slots.items }
    {
        self.memo.keep(bytes, len, text);
    }
}

/// As many of the first bytes as a sequence may have.
fn near(limit: usize, bytes: &[u8]) -> &[u8]
    ensures { result.now ≡ take limit bytes.now }
{
    bytes.get(..limit).unwrap_or(bytes)
}
