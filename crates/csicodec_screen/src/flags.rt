//! A flag for each row, or for each column.
ghost use Rattle.std.specs.Prelude.{◌≡◌, ◌≤◌, ◌&&◌, ◌==◌, ◌%◌, nat_lt, IfOk, OnOk, drop, false, length, replicate, set, take};
ghost use Rattle.csicodec_screen.specs.{Draws.last_stop, Draws.to_stop, Lists.filled, Lists.moved, Lists.within, Screen.eighths};

use crate::list::{fill, put, shift};
use std::alloc::{AllocError, Global};
use std::marker::Model;

/// Flags. Contracts see them as a list.
#[derive(Drop)]
pub struct Flags {
    flags: Vec<bool>,
}

impl Model for Flags {
    ghost use Rattle.std.specs.Prelude.{Bool, List};

    ghost Value = { List Bool };

    ghost view = { λ f. f.flags.items };
}

/// Whether a place is an eighth one, but for the first.
fn is_eighth(place: usize) -> bool
    ensures { result ≡ (nat_lt 0 place && place % 8 == 0) }
{
    0 < place && place % 8 == 0
}

/// How many flags from a place on aren't set, ahead of the first one that is.
fn count_to(flags: &[bool], from: usize) -> usize
    ensures is { result ≡ to_stop (drop from flags.now) }
    ensures within { result ≤ length flags.now }
{
    let mut count = 0;
    let mut rest = flags.split_at(from.min(flags.len())).1;
    while let [false, others @ ..] = rest {
        count += 1;
        rest = others;
    }
    count
}

/// The last place ahead of this one whose flag is set, or 0.
fn last_ahead(flags: &[bool], to: usize) -> usize
    ensures is { result ≡ last_stop 0 0 (take to flags.now) }
    ensures within { result ≤ to }
{
    let mut last = 0;
    for i in 0..to.min(flags.len()) {
        if flags[i] {
            last = i;
        }
    }
    last
}

impl Flags {
    /// So many, none of which is set.
    pub(crate) fn clear(alloc: Global, count: usize) -> Result<Flags, AllocError>
        ensures { IfOk result (λ flags. flags ≡ replicate count false) }
    {
        let mut flags = Vec::new(alloc);
        flags.resize(count, false)?;
        Ok(Flags { flags })
    }

    /// So many, and each eighth is set, but for the first.
    pub(crate) fn eighths(alloc: Global, count: usize) -> Result<Flags, AllocError>
        ensures { IfOk result (λ flags. flags ≡ eighths 0 count) }
    {
        let mut flags = Vec::new(alloc);
        for i in 0..count {
            flags.push(is_eighth(i))?;
        }
        Ok(Flags { flags })
    }

    /// So many, none of which is set, are in their place.
    pub(crate) fn renew(&mut self, count: usize) -> Result<(), AllocError>
        ensures { OnOk result (self.new ≡ replicate count false) }
    {
        self.flags.clear();
        self.flags.resize(count, false)?;
        Ok(())
    }

    /// All of them.
    pub fn as_slice(&self) -> &[bool]
        ensures { result.now ≡ self.now }
    {
        &self.flags
    }

    /// That at a place is so, if there is one.
    pub(crate) fn put(&mut self, at: usize, value: bool)
        ensures { self.new ≡ set self.old at value }
    {
        put(&mut self.flags, at, value);
    }

    /// Those from one place to another aren't set.
    pub(crate) fn reset(&mut self, from: usize, to: usize)
        ensures { self.new ≡ within from to (filled false) self.old }
    {
        fill(&mut self.flags, from, to, false);
    }

    /// Those from one place to another move up or down by so many, and ones that aren't set come in.
    pub(crate) fn scroll(&mut self, upward: bool, count: usize, from: usize, to: usize)
        ensures { self.new ≡ within from to (moved upward count false) self.old }
    {
        let (start, end) = shift(&mut self.flags, upward, from, to, count);
        fill(&mut self.flags, start, end, false);
    }

    /// How many from a place on aren't set, ahead of the first one that is.
    pub(crate) fn count_to(&self, from: usize) -> usize
        ensures is { result ≡ to_stop (drop from self.now) }
        ensures within { result ≤ length self.now }
    {
        count_to(&self.flags, from)
    }

    /// The last place ahead of this one whose flag is set, or 0.
    pub(crate) fn last_ahead(&self, to: usize) -> usize
        ensures is { result ≡ last_stop 0 0 (take to self.now) }
        ensures within { result ≤ to }
    {
        last_ahead(&self.flags, to)
    }
}
