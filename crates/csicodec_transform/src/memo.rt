//! Short sequences that came before, and what was noted of them: one that comes again is looked up, and not read again.
ghost use Rattle.std.specs.Prelude.{◌≡◌, ◌+◌, ◌<◌, ◌≤◌, ◌++◌, ℕ, List, [], length, take, true, IfSome};
ghost use Rattle.csicodec_transform.specs.Known.{AreKnown, IsKnown, StandsAt};

use csicodec_base::TextBuffer;
use std::alloc::Global;
use std::marker::{Model, PhantomData};
use std::mem;
use std::simd::prelude::*;

/// How many bytes a slot has for a sequence, and how many for its note. In fewer bytes none is looked for.
pub const WIDE: usize = 48;

/// How many new sequences come before a table is made.
const FIRST: usize = 16;

/// How many slots there are at first, and how many then.
const FEWEST: usize = 128;

const MOST: usize = 4096;

/// In how many slots, side by side, a sequence may stand.
const WAYS: usize = 8;

/// After so many new sequences in a row, only each `STEP`th is looked for.
const PATIENCE: u32 = 1024;

const STEP: u32 = 16;

/// How often others have to want the place of a sequence that came again before one of them has it.
const WORTH: u8 = 4;

/// A number without a pattern, by which a hash is multiplied.
const SPREAD: u64 = 0x9e37_79b9_7f4a_7c15;

/// The lowest bit of each byte, and the highest.
const LOWEST: u64 = 0x0101_0101_0101_0101;

const HIGHEST: u64 = 0x8080_8080_8080_8080;

/// What is noted of sequences: some bytes for each.
pub trait Note {
    /// Of the sequence of these bytes this is noted.
    ghost notes: { List ℕ → List ℕ → Type 0 };
}

/// A sequence and its note; at first no bytes.
#[derive(Clone, Copy)]
pub(crate) struct Slot {
    bytes: [u8; 48],
    text: [u8; 48],
    len: u8,
    text_len: u8,
}

/// The note of a sequence that was found.
#[derive(Drop)]
pub struct Noted {
    text: [u8; 48],
    len: usize,
}

impl Model for Noted {
    ghost use Rattle.std.specs.Prelude.{ℕ, List, take, ◌≤◌};

    ghost Value = { List ℕ };

    ghost view = { λ noted. take noted.len noted.text };

    ghost invariant = { λ noted. noted.len ≤ 48 };
}

impl Noted {
    /// No bytes.
    pub fn none() -> Noted
        ensures { result ≡ [] }
    {
        Noted {
            text: [0; WIDE],
            len: 0,
        }
    }

    /// The bytes of the note.
    #[inline(always)]
    pub fn as_slice(&self) -> &[u8]
        ensures value { result.now ≡ self.now }
    {
        &self.text[..self.len]
    }

    /// The same, and what stands behind them in their place.
    #[inline(always)]
    pub fn wide(&self) -> &[u8]
        ensures { (more : List ℕ) × (result.now ≡ self.now ++ more) }
    {
        &self.text
    }
}

/// Where a sequence may stand: in eight slots, those of a group, and there in one with this mark.
#[derive(Clone, Copy)]
struct Place {
    group: usize,
    /// The mark, in each byte.
    marks: u64,
}

/// A table of control sequences that came before, each with its note. It takes no memory at first, and grows twice, when much of what
/// comes is new; without memory it stays as it is. Each sequence may stand in one of eight slots, which are neighbours: a byte of
/// its hash, its mark, is compared with those of all eight at once.
///
/// A caller asks whether the sequence in front is known ([`recall`](Memo::recall), [`find`](Memo::find)), and if not, tells its note
/// once that was found ([`keep`](Memo::keep)).
#[derive(Drop)]
pub struct Memo<N> {
    slots: Vec<Slot>,
    /// The marks of eight slots, from the lowest byte on; 0 where a slot is empty.
    marks: Vec<u64>,
    /// How often others have to want each slot before one has it.
    worth: Vec<u8>,
    /// How many are kept before it grows.
    spare: usize,
    /// How many were new, one after the other.
    missed: u32,
    /// How many are passed over before one is looked for.
    passed: u32,
    of: PhantomData<N>,
}

impl<N: Note> Memo<N> {
    /// With nothing known.
    pub fn new(alloc: Global) -> Memo<N>
        ensures { AreKnown N.notes result.slots.items }
    {
        Memo {
            slots: Vec::new(alloc),
            marks: Vec::new(alloc),
            worth: Vec::new(alloc),
            spare: FIRST,
            missed: 0,
            passed: 0,
            of: PhantomData,
        }
    }

    /// Where the sequence in front of the bytes may stand, if it is short.
    #[inline(always)]
    fn place(&self, bytes: &[u8]) -> Option<Place> {
        let Some(hash) = hash(bytes) else {
            return None;
        };
        let group = (hash >> 52) as usize & self.marks.len().wrapping_sub(1);
        let mark = hash >> 40 & 0xff | 1;
        Some(Place {
            group,
            marks: mark.wrapping_mul(LOWEST),
        })
    }

    /// The slot in which the sequence in front stands, if it is to be looked for.
    #[inline(always)]
    fn seek(&mut self, bytes: &[u8]) -> Option<usize>
        requires { AreKnown N.notes self.old.slots.items }
        ensures found { IfSome result (λ at. StandsAt N.notes bytes.now self.new.slots.items at) }
        ensures known { AreKnown N.notes self.new.slots.items }
    {
        if self.passed > 0 {
            self.passed -= 1;
            return None;
        }
        let Some(place) = self.place(bytes) else {
            return None;
        };
        let Some(marks) = self.marks.get(place.group) else {
            return None;
        };
        let same = same_marks(*marks, place.marks);
        if same == 0 {
            return None;
        }
        let at = first_of(place.group, same);
        if self.has(at, bytes) {
            return Some(at);
        }
        self.seek_beside(place.group, same, bytes)
    }

    /// Where these bytes stand among the other places with that mark.
    #[cold]
    #[inline(never)]
    fn seek_beside(&self, group: usize, same: u64, bytes: &[u8]) -> Option<usize>
        requires { AreKnown N.notes self.now.slots.items }
        ensures { IfSome result (λ at. StandsAt N.notes bytes.now self.now.slots.items at) }
    {
        let mut left = same;
        for _ in 1..WAYS {
            left &= left.wrapping_sub(1);
            if left == 0 {
                return None;
            }
            let at = first_of(group, left);
            if self.has(at, bytes) {
                return Some(at);
            }
        }
        None
    }

    /// Appends the note of the sequence in front, if it is known, and answers how many bytes that has; 0 where it isn't.
    #[inline(always)]
    pub fn recall(&mut self, bytes: &[u8], out: &mut TextBuffer) -> usize
        requires { AreKnown N.notes self.old.slots.items }
        ensures within { result ≤ length bytes.now }
        ensures short { result ≤ 48 }
        ensures noted { 0 < result
            → (text : List ℕ) × N.notes (take result bytes.now) text × (out.new ≡ out.old ++ text) }
        ensures none { result ≡ 0 → out.new ≡ out.old }
        ensures known { AreKnown N.notes self.new.slots.items }
    {
        let Some(at) = self.seek(bytes) else {
            return 0;
        };
        let slot = &self.slots[at];
        let len = usize::from(slot.len);
        match out.push_front(&slot.text, usize::from(slot.text_len)) {
            Ok(()) => {
                self.hit(at);
                len
            }
            Err(_) => 0,
        }
    }

    /// The same as [`recall`](Memo::recall), and the note is put into a place of its own.
    #[inline(always)]
    pub fn find(&mut self, bytes: &[u8], out: &mut Noted) -> usize
        requires { AreKnown N.notes self.old.slots.items }
        ensures within { result ≤ length bytes.now }
        ensures short { result ≤ 48 }
        ensures noted { 0 < result → N.notes (take result bytes.now) out.new }
        ensures known { AreKnown N.notes self.new.slots.items }
    {
        let Some(at) = self.seek(bytes) else {
            return 0;
        };
        let slot = &self.slots[at];
        let len = usize::from(slot.len);
        *out = Noted {
            text: slot.text,
            len: usize::from(slot.text_len),
        };
        self.hit(at);
        len
    }

    /// Notes that a sequence came again.
    #[inline(always)]
    fn hit(&mut self, at: usize)
        ensures { self.new.slots.items ≡ self.old.slots.items }
    {
        self.missed = 0;
        if let Some(worth) = self.worth.get_mut(at) {
            *worth = WORTH;
        }
    }

    /// Whether the sequence in front stands in this slot.
    #[inline(always)]
    fn has(&self, at: usize, bytes: &[u8]) -> bool
        requires { AreKnown N.notes self.now.slots.items }
        ensures { result ≡ true → StandsAt N.notes bytes.now self.now.slots.items at }
    {
        if at >= self.slots.len() || bytes.len() < WIDE {
            return false;
        }
        let slot = &self.slots[at];
        is_front(bytes, &slot.bytes, usize::from(slot.len))
    }

    /// Keeps the sequence in front, of so many bytes, and its note, unless one of them is long, or such are passed over.
    #[inline(never)]
    pub fn keep(&mut self, bytes: &[u8], len: usize, text: &[u8])
        requires known { AreKnown N.notes self.old.slots.items }
        requires noted { N.notes (take len bytes.now) text.now }
        ensures { AreKnown N.notes self.new.slots.items }
    {
        let Some(front) = bytes.first_chunk::<WIDE>() else {
            return;
        };
        if self.passed > 0 {
            return;
        }
        let Some(place) = self.place(bytes) else {
            return;
        };
        if self.spare == 0 {
            return self.grow();
        }
        self.miss();
        if len <= WIDE && text.len() <= WIDE {
            let mut wide = [0; WIDE];
            wide[..text.len()].copy_from_slice(text);
            let slot = Slot {
                bytes: *front,
                text: wide,
                len: len as u8,
                text_len: text.len() as u8,
            };
            self.put(place, slot);
        }
    }

    /// Puts a sequence into one of the slots in which it may stand.
    fn put(&mut self, place: Place, slot: Slot)
        requires known { AreKnown N.notes self.old.slots.items }
        requires own { IsKnown N.notes slot }
        ensures { AreKnown N.notes self.new.slots.items }
    {
        let Some(marks) = self.marks.get(place.group) else {
            return;
        };
        let own = free(&mut self.worth, *marks, place.group);
        if own < self.slots.len() {
            self.slots[own] = slot;
            set_mark(&mut self.marks, own, place.marks);
        }
    }

    /// Notes that a sequence is new.
    fn miss(&mut self)
        requires { AreKnown N.notes self.old.slots.items }
        ensures { AreKnown N.notes self.new.slots.items }
    {
        self.spare = self.spare.saturating_sub(1);
        if self.missed < PATIENCE {
            self.missed += 1;
        } else {
            self.passed = STEP - 1;
        }
    }

    /// Takes a larger table, with what is in this one. Without memory for it the table stays for good, as it does when it is large.
    #[cold]
    #[inline(never)]
    fn grow(&mut self)
        requires { AreKnown N.notes self.old.slots.items }
        ensures { AreKnown N.notes self.new.slots.items }
    {
        self.spare = usize::MAX;
        let len = self.slots.len();
        if len < MOST {
            let alloc = *self.slots.allocator();
            let larger = if len < FEWEST { FEWEST } else { MOST };
            let empty = Slot {
                bytes: [0; WIDE],
                text: [0; WIDE],
                len: 0,
                text_len: 0,
            };
            let Ok(worth) = vec![in alloc; 0; larger] else {
                return;
            };
            let Ok(marks) = vec![in alloc; 0; larger / WAYS] else {
                return;
            };
            if let Ok(slots) = vec![in alloc; empty; larger] {
                let small = mem::replace(&mut self.slots, slots);
                self.marks = marks;
                self.worth = worth;
                self.spare = larger;
                self.take_over(&small);
            }
        }
    }

    /// Puts what was known in these slots into the table.
    fn take_over(&mut self, small: &[Slot])
        requires known { AreKnown N.notes self.old.slots.items }
        requires small { AreKnown N.notes small.now }
        ensures { AreKnown N.notes self.new.slots.items }
    {
        for slot in small {
            if slot.len > 0
                && let Some(place) = self.place(&slot.bytes)
            {
                self.put(place, *slot);
            }
        }
    }
}

/// Where the marks of a group are these: the highest bit of the first byte that is the same is set, and none of those before it.
#[inline(always)]
fn same_marks(group: u64, marks: u64) -> u64 {
    let apart = group ^ marks;
    apart.wrapping_sub(LOWEST) & !apart & HIGHEST
}

/// The slot of a group to which the lowest bit belongs.
#[inline(always)]
fn first_of(group: usize, same: u64) -> usize {
    let way = (same.trailing_zeros() / 8) as usize;
    group.wrapping_mul(WAYS).wrapping_add(way)
}

/// Writes the mark of a slot.
fn set_mark(marks: &mut Vec<u64>, at: usize, mark: u64) {
    if let Some(group) = marks.get_mut(at / WAYS) {
        let own = 0xffu64.wrapping_shl(8 * (at % WAYS) as u32);
        *group = *group & !own | mark & own;
    }
}

/// The one of eight slots that a new sequence has from now on: an empty one, or that of another. Beyond the table where all are worth
/// more; each is worth less then.
fn free(worth: &mut Vec<u8>, marks: u64, group: usize) -> usize {
    let empty = same_marks(marks, 0);
    if empty != 0 {
        let at = first_of(group, empty);
        if let Some(own) = worth.get_mut(at) {
            *own = WORTH;
        }
        return at;
    }
    for way in 0..WAYS {
        let at = group.wrapping_mul(WAYS).wrapping_add(way);
        let Some(own) = worth.get_mut(at) else {
            return usize::MAX;
        };
        if *own == 0 {
            *own = WORTH;
            return at;
        }
        *own -= 1;
    }
    usize::MAX
}

/// A number for the sequence in front, by its bytes up to the final one, which is the first from 40 on behind ESC and '['. None
/// where it isn't short.
#[inline(always)]
fn hash(bytes: &[u8]) -> Option<u64> {
    if bytes.len() < WIDE {
        return None;
    }
    let front = word(bytes, 2);
    let letters = front & 0x4040_4040_4040_4040;
    if letters != 0 {
        let all = front & (letters ^ letters.wrapping_sub(1));
        return Some(all.wrapping_mul(SPREAD));
    }
    let behind = u8x32::from_slice(bytes.split_at(10).1);
    let letters = (behind & u8x32::splat(0x40)).simd_ne(u8x32::splat(0));
    let last = letters.to_bitmask().trailing_zeros() as usize;
    if last > 29 {
        return None;
    }
    let (mid, end) = (word(bytes, 3 + last / 2), word(bytes, 3 + last));
    let all = front ^ mid.rotate_left(7) ^ end.wrapping_mul(0xff51_afd7_ed55_8ccd);
    Some(all.wrapping_mul(SPREAD))
}

/// Eight bytes from a place on.
#[inline(always)]
fn word(bytes: &[u8], place: usize) -> u64
    requires { place + 16 ≤ length bytes.now }
{
    let [word, _] = u64x2::from_le_bytes(u8x16::from_slice(bytes.split_at(place).1)).to_array();
    word
}

/// Whether these are the first bytes: `len` of those that are known, and at least one. Behind the first 16 it looks only where `len` is more.
#[inline(always)]
fn is_front(bytes: &[u8], known: &[u8; 48], len: usize) -> bool
    requires { 48 ≤ length bytes.now }
    ensures { result ≡ true → (0 < len) × (take len bytes.now ≡ take len known.now) }
{
    let near = same_16(u8x16::from_slice(bytes), u8x16::from_slice(known));
    if len == 0 || near.min(16) < len {
        return len > 16 && near >= 16 && is_front_behind(bytes, known, len);
    }
    true
}

/// The same where the first 16 bytes are the same, and `len` is more.
#[inline(always)]
fn is_front_behind(bytes: &[u8], known: &[u8; 48], len: usize) -> bool
    requires long { 48 ≤ length bytes.now }
    requires near { take 16 bytes.now ≡ take 16 known.now }
    requires more { 16 < len }
    ensures { result ≡ true → take len bytes.now ≡ take len known.now }
{
    let (_, behind) = bytes.split_at(16);
    let (_, known_behind) = known.split_at(16);
    let far = same_32(u8x32::from_slice(behind), u8x32::from_slice(known_behind));
    if len > 16 + far.min(32) {
        return false;
    }
    true
}

/// As many bytes are the same in front.
#[inline(always)]
fn same_16(a: u8x16, b: u8x16) -> usize
    ensures same { take result a ≡ take result b }
    ensures few { result ≤ 64 }
{
    a.simd_ne(b).to_bitmask().trailing_zeros() as usize
}

/// As many of 32 bytes are the same in front.
#[inline(always)]
fn same_32(a: u8x32, b: u8x32) -> usize
    ensures same { take result a ≡ take result b }
    ensures few { result ≤ 64 }
{
    a.simd_ne(b).to_bitmask().trailing_zeros() as usize
}
