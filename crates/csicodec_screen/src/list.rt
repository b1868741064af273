//! Parts of lists, and how they move.
ghost use Rattle.std.specs.Prelude.{◌≡◌, ◌≤◌, ◌-◌, ◌++◌, drop, length, max, min, set, take};
ghost use Rattle.csicodec_screen.specs.Lists.{filled, moved, within};

/// Where a part begins and ends in a list of so many elements.
pub(crate) fn part(from: usize, to: usize, len: usize) -> (usize, usize)
    ensures start { result.0 ≡ min from len }
    ensures end { result.1 ≡ min (max from to) len }
{
    (from.min(len), from.max(to).min(len))
}

/// The element at a place, if there is one, is this one.
pub(crate) fn put<T: Copy>(list: &mut Vec<T>, at: usize, value: T)
    ensures { list.new.items ≡ set list.old.items at value }
{
    if at < list.len() {
        list[at] = value;
    }
}

/// Each element from one place to another is this one.
pub(crate) fn fill<T: Copy>(list: &mut Vec<T>, from: usize, to: usize, value: T)
    ensures { list.new.items ≡ within from to (filled value) list.old.items }
{
    let (start, end) = part(from, to, list.len());
    for i in start..end {
        list[i] = value;
    }
}

/// So many elements of a part go from its front to its end.
pub(crate) fn turn<T>(list: &mut Vec<T>, start: usize, end: usize, count: usize)
    requires part { (start ≤ end) × (end ≤ length list.old.items) }
    requires count { count ≤ end - start }
    ensures { list.new.items ≡ within start end (λ part. drop count part ++ take count part) list.old.items }
{
    list[start..end].rotate_left(count);
}

/// So many elements of a part are gone at one end, and the others move there. Answers from where to where blanks are to come in.
pub(crate) fn shift<T>(
    list: &mut Vec<T>,
    upward: bool,
    from: usize,
    to: usize,
    count: usize,
) -> (usize, usize)
    ensures { (blank : T) → within result.0 result.1 (filled blank) list.new.items ≡ within from to (moved upward count blank) list.old.items }
{
    let (start, end) = part(from, to, list.len());
    let free = count.min(end - start);
    if upward {
        turn(list, start, end, free);
        return (end - free, end);
    }
    turn(list, start, end, end - start - free);
    (start, start + free)
}
