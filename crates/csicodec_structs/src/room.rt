//! Room that a caller lends.
ghost use Rattle.std.specs.Prelude.{◌≡◌, List, ◌++◌, [], ◌∷◌, length};
ghost use Rattle.csicodec_structs.specs.Room.{Fills, laid};

/// How many actions of a short sequence were put, and what is behind it.
pub(crate) type Laid<'a> = Option<(usize, &'a [u8])>;

/// Puts the items at the front, where they fit.
pub fn fill<T: Copy>(room: &mut [T], items: &[T])
    ensures { Fills room.old room.new items.now }
{
    if items.len() <= room.len() {
        room[..items.len()].copy_from_slice(items);
    }
}

/// Puts an item behind those that are there, if there is room for it.
#[inline(always)]
#[tactic(auto, using(crate::proofs::Laid::put_full, crate::proofs::Laid::put_more))]
pub fn put<T: Copy>(room: &mut [T], place: usize, item: T)
    ensures { (old before : List T) → room.old ≡ laid old before → place ≡ length before
        → room.new ≡ laid old (before ++ item ∷ []) }
{
    if place < room.len() {
        room[place] = item;
    }
}
