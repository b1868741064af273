//! The table: a row for each control sequence, subject by subject.
//!
//! A row is its kind, its name, the byte at its front (0 where there is none), its slots, its intermediate byte (0 where there is
//! none), its final character, its meaning and its source. Its kind is the number that C and Rust know it by, which never changes: a new
//! row takes one that no row has. A slot is a number with a name, from a first to a last one: `number!` says
//! last what it is where it is left out, `needed!` has to stand there, and `further!` behind a `;` may stand there as often as there
//! is room for: a row has up to 12 numbers.

use crate::row::NumberSlot;

macro_rules! needed {
    ($name:literal, $first:literal, $last:literal) => {
        NumberSlot { first: $first, last: $last, missing: None, optional: false }
    };
}

macro_rules! number {
    ($name:literal, $first:literal, $last:literal, $missing:literal) => {
        NumberSlot { first: $first, last: $last, missing: Some($missing), optional: false }
    };
}

macro_rules! further {
    ($name:literal, $first:literal, $last:literal) => {
        NumberSlot { first: $first, last: $last, missing: None, optional: true }
    };
}

/// No number: a list ends ahead of it.
pub(crate) const END: NumberSlot = further!("", 1, 0);

/// 12 slots: these, and behind a `;` the one that all further ones are.
macro_rules! slots {
    ($($slot:expr),*) => { slots!($($slot),*; END) };
    ($($slot:expr),*; $more:expr) => { first_12!($($slot,)* $more, $more, $more, $more, $more, $more, $more, $more, $more, $more, $more, $more,) };
}

macro_rules! first_12 {
    ($a:expr, $b:expr, $c:expr, $d:expr, $e:expr, $f:expr, $g:expr, $h:expr, $i:expr, $j:expr, $k:expr, $l:expr, $($over:expr,)*) => {
        [$a, $b, $c, $d, $e, $f, $g, $h, $i, $j, $k, $l]
    };
}

/// The names of slots, a `;` behind each.
macro_rules! names {
    ($($kind:ident!($name:literal $($numbers:tt)*)),*) => { concat!($($name, ";"),*) };
    ($($kind:ident!($name:literal $($numbers:tt)*)),*; further!($last:literal $($more:tt)*)) => { concat!($($name, ";",)* $last, ";") };
}

/// A part of a row: its form, its slots, or what is said of it.
macro_rules! row {
    (form $kind:tt, $name:tt, $marker:tt, $slots:tt, $intermediate:tt, $control:tt, $meaning:tt, $source:tt) => {
        SequenceForm { kind: $kind, marker: $marker, intermediate: $intermediate, control: $control }
    };
    (numbers $kind:tt, $name:tt, $marker:tt, [$($slots:tt)*], $($more:tt)*) => { slots!($($slots)*) };
    (texts $kind:tt, $name:tt, $marker:tt, [$($slots:tt)*], $intermediate:tt, $control:tt, $meaning:tt, $source:tt) => {
        [$name, $meaning, $source, names!($($slots)*)]
    };
}

pub(crate) mod dec;
pub(crate) mod others;
pub(crate) mod reports;
