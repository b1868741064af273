//! Slices that came before, and their steps: one that comes again is looked up, and not read again.
ghost use Rattle.std.specs.Prelude.{IfSome};
ghost use Rattle.csicodec_overwrite.specs.{Private.Seen.AreSlices, Private.Seen.IsSlice, Stream.Reads, Stream.none_in};

use csicodec_clean::Sets;
use csicodec_looks::Step;
use std::alloc::{AllocError, Global};
use std::mem::swap;

/// How many places there are for slices.
const PLACES: usize = 4096;

/// Of how many bytes one that is kept is at most.
const LONGEST: usize = 32;

/// A number without a pattern, by which a hash is multiplied.
const SPREAD: u64 = 0x9e37_79b9_7f4a_7c15;

/// A slice, before which and behind which nothing is open or held, in which sets text is read there, and its steps.
#[derive(Drop)]
pub(crate) struct Slice {
    before: Sets,
    pub(crate) after: Sets,
    bytes: Vec<u8>,
    pub(crate) steps: Vec<Step>,
}

/// A table of slices that came before. It takes no memory until one comes.
#[derive(Drop)]
pub(crate) struct Seen {
    kept: Vec<Slice>,
    /// Which of them each place has; one that is empty has none.
    places: Vec<u16>,
}

/// The place of a slice; one that is long has none.
#[inline(always)]
fn place(bytes: &[u8]) -> usize {
    if bytes.len() > LONGEST {
        return PLACES;
    }
    (number(bytes).wrapping_mul(SPREAD) >> 52) as usize
}

/// A number for a slice, by all of its bytes.
#[inline(always)]
fn number(bytes: &[u8]) -> u64 {
    if let Some(end) = bytes.last_chunk::<8>() {
        // Of eight bytes the front is the end.
        return long_number(bytes, u64::from_le_bytes(*end).wrapping_mul(SPREAD));
    }
    if let (Some(front), Some(end)) = (bytes.first_chunk::<4>(), bytes.last_chunk::<4>()) {
        return u64::from(u32::from_le_bytes(*front)) << 32 ^ u64::from(u32::from_le_bytes(*end));
    }
    let mut number = 0u64;
    for byte in bytes {
        number = number << 8 | u64::from(*byte);
    }
    number
}

/// The same of one of more bytes, of which `end` is made of the last.
#[inline(always)]
fn long_number(bytes: &[u8], end: u64) -> u64 {
    let mut number = end;
    let mut rest = bytes;
    for _ in 0..LONGEST / 8 {
        let Some((front, behind)) = rest.split_first_chunk::<8>() else {
            return number;
        };
        number = (number ^ u64::from_le_bytes(*front)).wrapping_mul(SPREAD);
        rest = behind;
    }
    number
}

impl Seen {
    /// With nothing kept.
    pub(crate) fn new(alloc: Global) -> Seen
        ensures { AreSlices result.kept.items }
    {
        Seen {
            kept: Vec::new(alloc),
            places: Vec::new(alloc),
        }
    }

    /// Which slice a place has.
    fn at(&self, place: usize) -> usize {
        match self.places.get(place) {
            Some(at) => usize::from(*at),
            None => usize::MAX,
        }
    }

    /// The slice of these bytes, where text is read in these sets, if it is kept.
    pub(crate) fn recall(&self, sets: Sets, bytes: &[u8]) -> Option<&Slice>
        requires { AreSlices self.now.kept.items }
        ensures { IfSome result (λ slice. Reads (none_in sets) bytes.now slice.now.steps.items (none_in slice.now.after)) }
    {
        let at = self.at(place(bytes));
        if at >= self.kept.len() {
            return None;
        }
        let slice = &self.kept[at];
        if slice.bytes.as_slice() != bytes || slice.before != sets {
            return None;
        }
        Some(slice)
    }

    /// Keeps a slice and its steps, unless it is long.
    pub(crate) fn keep(
        &mut self,
        before: Sets,
        after: Sets,
        bytes: &[u8],
        steps: &[Step],
    ) -> Result<(), AllocError>
        requires kept { AreSlices self.old.kept.items }
        requires read { Reads (none_in before) bytes.now steps.now (none_in after) }
        ensures { AreSlices self.new.kept.items }
    {
        let place = place(bytes);
        if place >= PLACES {
            return Ok(());
        }
        let mut slice = self.take(place);
        slice.before = before;
        slice.after = after;
        slice.bytes.clear();
        slice.steps.clear();
        slice.bytes.extend_from_slice(bytes)?;
        slice.steps.extend_from_slice(steps)?;
        self.places.resize(PLACES, u16::MAX)?;
        self.put(place, slice)
    }

    /// Takes out the slice that a place has, whose memory is of use again: one of no bytes is left there. It is such a one, if there is none.
    fn take(&mut self, place: usize) -> Slice
        requires { AreSlices self.old.kept.items }
        ensures { AreSlices self.new.kept.items }
    {
        let alloc = *self.places.allocator();
        let mut slice = Slice {
            before: Sets::first(),
            after: Sets::first(),
            bytes: Vec::new(alloc),
            steps: Vec::new(alloc),
        };
        let at = self.at(place);
        if at < self.kept.len() {
            swap(&mut self.kept[at], &mut slice);
        }
        slice
    }

    /// Puts a slice into its place.
    fn put(&mut self, place: usize, slice: Slice) -> Result<(), AllocError>
        requires kept { AreSlices self.old.kept.items }
        requires read { IsSlice slice }
        ensures { AreSlices self.new.kept.items }
    {
        let Some(own) = self.places.get_mut(place) else {
            return Ok(());
        };
        let at = usize::from(*own);
        if at < self.kept.len() {
            self.kept[at] = slice;
            return Ok(());
        }
        *own = self.kept.len() as u16;
        Ok(self.kept.push(slice)?)
    }
}
