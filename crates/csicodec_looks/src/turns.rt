//! Control sequences that came before: one that comes again where text looks the same is looked up, and not read again.
ghost use Rattle.std.specs.Prelude.{◌≡◌, ◌<◌, ◌≤◌, ◌++◌, List, ℕ, length, take, true, IfOk, IfSome, OnOk};
ghost use Rattle.csicodec_looks.specs.Turns.{AreTurns, Fits, IsTold, IsTurn};

use crate::look::Look;
use csicodec_base::{ColorSpec, SrgbaTuple};
use std::alloc::{AllocError, Global};
use std::simd::prelude::*;

/// How many places there are, each for two sequences.
const PLACES: usize = 2048;

/// Of how many bytes a sequence that is kept is at most, and its tags.
const LONGEST: usize = 32;

const WIDEST: usize = 128;

/// Tags of so many bytes at most are appended by a copy of so many, and others by one of the most.
const SHORT: usize = 32;

/// After so many new sequences in a row, only each `STEP`th is kept.
const PATIENCE: u32 = 256;

const STEP: u32 = 16;

/// A number without a pattern, by which a hash is multiplied.
const SPREAD: u64 = 0x9e37_79b9_7f4a_7c15;

/// The bit that a final byte has, and none of those before it.
const FINAL: u64 = 0x4040_4040_4040_4040;

/// What control sequences turn.
pub trait Turning {
    ghost use Rattle.csicodec_looks.specs.declared.look.Look.{Look};

    /// These bytes turn text of the first look into text of the second, and that is written for them.
    ghost turns: { Self → List ℕ → Look → Look → List ℕ → Type 0 };
}

/// A sequence that is looked for in front of some bytes.
#[derive(Clone, Copy)]
pub struct InFront<'a> {
    /// The bytes in front of which it is to stand.
    pub bytes: &'a [u8],
    /// How many bytes it has at least, of which there is one.
    pub least: usize,
    /// How many it has at most.
    pub most: usize,
}

/// A control sequence, how text looks before it and behind it, and what is written for it.
#[derive(Clone, Copy)]
pub struct Turn {
    bytes: [u8; LONGEST],
    len: usize,
    old: Look,
    new: Look,
    tags: [u8; WIDEST],
    tags_len: usize,
    /// A number for the look behind it.
    mark: u64,
}

impl Turn {
    /// Whether it is of the sequence in front, and from this look.
    #[inline(always)]
    fn fits(&self, look: &Look, front: InFront<'_>) -> bool
        ensures { result ≡ true → Fits self.now look.now front.entry }
    {
        if self.len < front.least || self.len > front.most || front.bytes.len() < LONGEST {
            return false;
        }
        let same = same_32(
            u8x32::from_slice(front.bytes),
            u8x32::from_slice(&self.bytes),
        );
        self.len <= same.min(LONGEST) && self.old == *look
    }

    /// Appends what is written for it.
    #[inline(always)]
    fn append_to(&self, out: &mut Vec<u8>) -> Result<(), AllocError>
        requires { self.now.tags_len ≤ 128 }
        ensures { OnOk result (out.new.items ≡ out.old.items ++ take self.now.tags_len self.now.tags) }
    {
        let end = out.len() + self.tags_len;
        if self.tags_len > SHORT {
            out.extend_from_slice(&self.tags)?;
        } else {
            out.extend_from_slice(self.tags.split_at(SHORT).0)?;
        }
        out.truncate(end);
        Ok(())
    }
}

/// As many of 32 bytes are the same in front.
#[inline(always)]
fn same_32(a: u8x32, b: u8x32) -> usize
    ensures same { take result a ≡ take result b }
    ensures few { result ≤ 64 }
{
    a.simd_ne(b).to_bitmask().trailing_zeros() as usize
}

/// A table of control sequences that came before. It takes no memory until one comes.
#[derive(Drop)]
pub struct Turns {
    kept: Vec<Turn>,
    /// Which two of them each place has, the newer one first; where it has fewer, a number beyond them.
    places: Vec<[u16; 2]>,
    /// The place of the sequence that was looked for last.
    place: usize,
    /// How many were new, one after the other.
    missed: u32,
    /// A number for the look behind the sequence that came last.
    mark: u64,
}

impl Turns {
    /// With nothing kept.
    pub fn new<T: Turning>(alloc: Global, _by: &T) -> Turns
        ensures { AreTurns (T.turns _by.now) result.kept.items }
    {
        Turns {
            kept: Vec::new(alloc),
            places: Vec::new(alloc),
            place: 0,
            missed: 0,
            mark: 0,
        }
    }

    /// The turn of this number, if it is the one of the sequence in front, from this look.
    #[inline(always)]
    fn numbered<T: Turning>(
        &self,
        number: u16,
        _by: &T,
        look: &Look,
        front: InFront<'_>,
    ) -> Option<&Turn>
        requires { AreTurns (T.turns _by.now) self.now.kept.items }
        ensures { IfSome result (λ turn. IsTurn (T.turns _by.now) turn.now × Fits turn.now look.now front.entry) }
    {
        let at = usize::from(number);
        if at >= self.kept.len() {
            return None;
        }
        let turn = &self.kept[at];
        if turn.fits(look, front) {
            return Some(turn);
        }
        None
    }

    /// The turn of the sequence in front, from this look, if the place has it.
    #[inline(always)]
    fn fitting<T: Turning>(&self, by: &T, look: &Look, front: InFront<'_>) -> Option<&Turn>
        requires { AreTurns (T.turns by.now) self.now.kept.items }
        ensures { IfSome result (λ turn. IsTurn (T.turns by.now) turn.now × Fits turn.now look.now front.entry) }
    {
        let [newer, older] = self.places.get(self.place)?;
        if let Some(turn) = self.numbered(*newer, by, look, front) {
            return Some(turn);
        }
        self.numbered(*older, by, look, front)
    }

    /// Appends what is written for the sequence in front, if it is kept, and answers how many bytes it has; text looks as behind it then.
    /// It answers 0 where it isn't kept.
    #[inline(always)]
    pub fn recall<T: Turning>(
        &mut self,
        by: &T,
        look: &mut Look,
        front: InFront<'_>,
        out: &mut Vec<u8>,
    ) -> Result<usize, AllocError>
        requires kept { AreTurns (T.turns by.now) self.old.kept.items }
        requires some { 0 < front.least }
        ensures within { IfOk result (λ len. (len ≤ front.entry.most) × (len ≤ length front.entry.bytes.now)) }
        ensures told { IfOk result (λ len. 0 < len → IsTold (T.turns by.now) look.old front.entry len look.new out.old.items out.new.items) }
        ensures none { IfOk result (λ len. len ≡ 0 → (look.new ≡ look.old) × (out.new.items ≡ out.old.items)) }
        ensures kept { AreTurns (T.turns by.now) self.new.kept.items }
    {
        self.place = place(self.mark, front.bytes);
        let Some(turn) = self.fitting(by, look, front) else {
            return Ok(0);
        };
        turn.append_to(out)?;
        *look = turn.new;
        let (len, mark) = (turn.len, turn.mark);
        self.mark = mark;
        self.missed = 0;
        Ok(len)
    }

    /// Text looks so from now on, as it doesn't by a sequence that was looked for.
    pub fn stand(&mut self, look: &Look)
        ensures { self.new.kept.items ≡ self.old.kept.items }
    {
        self.mark = mark(look);
    }

    /// Keeps the sequence that was looked for last, unless it is long, or such are passed over: most of many in a row are.
    #[inline(never)]
    pub fn keep<T: Turning>(
        &mut self,
        _by: &T,
        bytes: &[u8],
        old: Look,
        new: Look,
        tags: &[u8],
    ) -> Result<(), AllocError>
        requires known { AreTurns (T.turns _by.now) self.old.kept.items }
        requires turn { T.turns _by.now bytes.now old new tags.now }
        ensures { AreTurns (T.turns _by.now) self.new.kept.items }
    {
        self.mark = mark(&new);
        self.missed = self.missed.wrapping_add(1);
        let passes = self.missed > PATIENCE && self.missed % STEP != 0;
        if passes || bytes.len() > LONGEST || tags.len() > WIDEST {
            return Ok(());
        }
        let (mut front, mut text) = ([0; LONGEST], [0; WIDEST]);
        front[..bytes.len()].copy_from_slice(bytes);
        text[..tags.len()].copy_from_slice(tags);
        let turn = Turn {
            bytes: front,
            len: bytes.len(),
            old,
            new,
            tags: text,
            tags_len: tags.len(),
            mark: self.mark,
        };
        self.put(_by, turn)
    }

    /// Makes the places, if there are none.
    fn make_places<T: Turning>(&mut self, _by: &T) -> Result<(), AllocError>
        requires { AreTurns (T.turns _by.now) self.old.kept.items }
        ensures { AreTurns (T.turns _by.now) self.new.kept.items }
    {
        if self.places.is_empty() {
            let alloc = *self.places.allocator();
            self.places = vec![in alloc; [u16::MAX; 2]; PLACES]?;
        }
        Ok(())
    }

    /// Puts a turn into the place that was looked at last, for the older one of two.
    fn put<T: Turning>(&mut self, _by: &T, turn: Turn) -> Result<(), AllocError>
        requires known { AreTurns (T.turns _by.now) self.old.kept.items }
        requires turn { IsTurn (T.turns _by.now) turn }
        ensures { AreTurns (T.turns _by.now) self.new.kept.items }
    {
        self.make_places(_by)?;
        let Some(place) = self.places.get_mut(self.place) else {
            return Ok(());
        };
        let [newer, older] = *place;
        let at = usize::from(older);
        if at < self.kept.len() {
            self.kept[at] = turn;
            *place = [older, newer];
            return Ok(());
        }
        *place = [self.kept.len() as u16, newer];
        Ok(self.kept.push(turn)?)
    }
}

/// The place of the sequence in front, behind a look of this mark; none, which is beyond the others, where it isn't short, or the bytes
/// end soon.
#[inline(always)]
fn place(mark: u64, bytes: &[u8]) -> usize {
    match number(bytes) {
        Some(number) => ((number ^ mark).wrapping_mul(SPREAD) >> 53) as usize,
        None => PLACES,
    }
}

/// The bytes of a word up to the final one of a sequence; none where that isn't among them.
#[inline(always)]
fn up_to_final(word: u64) -> Option<u64> {
    let finals = word & FINAL;
    if finals == 0 {
        return None;
    }
    Some(word & (finals ^ finals.wrapping_sub(1)))
}

/// A number for the sequence in front, by its bytes up to the final one; none where it isn't short, or the bytes end soon.
#[inline(always)]
fn number(bytes: &[u8]) -> Option<u64> {
    let (_, behind) = bytes.split_first_chunk::<2>()?;
    let (front, others) = behind.split_first_chunk::<8>()?;
    let word = u64::from_le_bytes(*front);
    match up_to_final(word) {
        Some(number) => Some(number),
        None => long_number(word, others),
    }
}

/// The same of one that goes on behind its first eight bytes.
fn long_number(first: u64, bytes: &[u8]) -> Option<u64> {
    let mut number = first;
    let mut rest = bytes;
    for _ in 0..LONGEST / 8 {
        let (front, others) = rest.split_first_chunk::<8>()?;
        let word = u64::from_le_bytes(*front);
        number = number.wrapping_mul(SPREAD).rotate_left(9);
        if let Some(last) = up_to_final(word) {
            return Some(number ^ last);
        }
        number = number ^ word;
        rest = others;
    }
    None
}

/// A number for a colour.
fn color_mark(color: ColorSpec) -> u64 {
    match color {
        ColorSpec::Default => 0,
        ColorSpec::PaletteIndex(index) => 1 + u64::from(index),
        ColorSpec::TrueColor(SrgbaTuple(red, green, blue, _)) => {
            1 << 24 | u64::from(red) << 16 | u64::from(green) << 8 | u64::from(blue)
        }
    }
}

/// A number for a look. All but its colours is at the top, since the digits of a short sequence are at the bottom of its number.
fn mark(look: &Look) -> u64 {
    let flags = look.intensity as u64
        | (look.underline as u64) << 2
        | u64::from(look.italic) << 5
        | u64::from(look.inverse) << 6;
    flags << 57 ^ color_mark(look.foreground) << 8 ^ color_mark(look.background) << 33
}
