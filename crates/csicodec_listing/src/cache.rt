//! What was told of sequences that came before: real streams have the same few hundred over and over.

use crate::Result;
use crate::keyed::{Keyed, SPREAD};
use std::alloc::Global;

/// So many sequences are kept at most. Then all are forgotten.
const MOST: usize = 4096;

/// So many slots are there for them, and so many of those are looked at for one.
const SLOTS: usize = 8192;

const TRIES: usize = 16;

/// A sequence that has more bytes with what is told of it isn't kept.
const LONGEST: usize = 512;

/// Behind so many new sequences in a row most are new, and only each sixteenth is looked for and kept.
const MANY: usize = 1024;

const EACH: usize = 16;

/// What was told of a sequence.
#[derive(Clone, Copy, Default)]
struct CacheSlot {
    /// The number of the sequence; 0 where nothing is kept.
    number: u64,
    /// Where in all that is kept it stands.
    begin: usize,
    end: usize,
    actions: u64,
}

/// Short sequences with what was told of each, behind its place.
#[derive(Drop)]
pub struct Remembered {
    slots: Vec<CacheSlot>,
    /// How many slots have something.
    count: usize,
    /// What was told of each sequence, and ahead of it the bytes, where these aren't its number.
    kept: Vec<u8>,
    /// How many new sequences came in a row.
    new: usize,
}

impl Remembered {
    /// Nothing came before.
    pub fn new(alloc: Global) -> Remembered {
        Remembered {
            slots: Vec::new(alloc),
            count: 0,
            kept: Vec::new(alloc),
            new: 0,
        }
    }

    /// Nothing came before, from now on.
    pub fn forget(&mut self) {
        self.slots.clear();
        self.kept.clear();
        self.count = 0;
    }

    /// Which slot has the sequence of this number, or is the next one for it.
    #[inline(always)]
    fn place_of(&self, number: u64) -> usize {
        let mut place = (number.wrapping_mul(SPREAD) >> 51) as usize;
        for _ in 1..TRIES {
            match self.slots.get(place) {
                Some(slot) if slot.number != number && slot.number != 0 => {
                    place = (place + 1) % SLOTS;
                }
                _ => break,
            }
        }
        place
    }

    /// Whether the next sequence is one of those that aren't looked for.
    #[inline(always)]
    fn passes_over(&self) -> bool {
        self.new >= MANY && self.new % EACH > 0
    }

    /// Between which places of what is kept stands what was told of this sequence, behind its place, and how many actions it has, if it is
    /// looked for.
    #[inline(always)]
    pub fn recall(&mut self, span: Keyed<'_>) -> Option<(usize, usize, u64)> {
        if self.passes_over() {
            return None;
        }
        let place = self.place_of(span.number);
        let slot = *self.slots.get(place)?;
        if slot.number != span.number {
            return None;
        }
        self.new = 0;
        if span.is_whole() {
            return Some((slot.begin, slot.end, slot.actions));
        }
        let begin = slot.begin.saturating_add(span.bytes.len());
        let is_same = self.told(slot.begin, slot.end).starts_with(span.bytes);
        is_same.then_some((begin, slot.end, slot.actions))
    }

    /// What is kept between these places.
    #[inline(always)]
    pub fn told(&self, begin: usize, end: usize) -> &[u8] {
        self.kept.get(begin..end).unwrap_or(&[])
    }

    /// Keeps what was told of a sequence that `recall` didn't find.
    pub fn keep(&mut self, span: Keyed<'_>, told: &[u8], actions: u64) -> Result<()> {
        let is_passed = self.passes_over();
        self.new = self.new.saturating_add(1);
        if is_passed || span.bytes.len().saturating_add(told.len()) > LONGEST {
            return Ok(());
        }
        if self.count >= MOST {
            self.forget();
        }
        if self.slots.is_empty() {
            self.slots.resize(SLOTS, CacheSlot::default())?;
        }
        let begin = self.kept.len();
        if !span.is_whole() {
            self.kept.extend_from_slice(span.bytes)?;
        }
        self.kept.extend_from_slice(told)?;
        let place = self.place_of(span.number);
        if let Some(slot) = self.slots.get_mut(place) {
            *slot = CacheSlot {
                number: span.number,
                begin,
                end: self.kept.len(),
                actions,
            };
        }
        self.count = self.count.saturating_add(1);
        Ok(())
    }
}
