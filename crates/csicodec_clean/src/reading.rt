//! Graphic sets, and how text is read by them.
ghost use Rattle.std.specs.Prelude.{◌≡◌, ◌≢◌, not, true};
ghost use Rattle.csicodec_clean.specs.Sets.{IsSplit, behind, behind_escape, first_reading, first_sets, in_use, is_decstr, shifted};
ghost use Rattle.csicodec_clean.specs.Private.Steps.{unshifted};
ghost use Rattle.csicodec_spans.specs.declared.table.Kind.TheVariants.{Text as IsText};

use csicodec_looks::{ByteClass, Set, first_set, split_front};
use csicodec_spans::Kind;
use std::simd::prelude::*;

/// The graphic sets that SCS designated, and which of them is shifted in (DEC VT220 Programmer Reference, EK-VT220-RM, "Character sets").
#[derive(Clone, Copy, PartialEq, Eq, Debug)]
pub struct Sets {
    /// What `ESC (` designated.
    pub g0: Set,
    /// What `ESC )` designated.
    pub g1: Set,
    /// Whether SO shifted G1 in; else G0 is.
    pub shifted: bool,
}

/// Whether a control sequence is DECSTR, which sets back sets and attributes.
pub(crate) fn is_decstr(bytes: &[u8]) -> bool
    ensures { result ≡ is_decstr bytes.now }
{
    bytes.len() == 4 && bytes[2] == b'!' && bytes[3] == b'p'
}

/// Whether the byte is SO or SI, which shift a set in.
#[inline(always)]
pub(crate) fn is_shift(byte: u8) -> bool
    ensures { result ≡ not (unshifted byte) }
{
    byte == 0x0e || byte == 0x0f
}

/// All bytes but SO and SI.
struct Unshifted;

impl ByteClass for Unshifted {
    ghost use Rattle.csicodec_clean.specs.Private.Steps.{unshifted};

    ghost class = { unshifted };

    #[inline(always)]
    fn has(byte: u8) -> bool {
        !is_shift(byte)
    }

    #[inline(always)]
    fn lanes(bytes: &[u8]) -> usize {
        let lanes = u8x16::from_slice(bytes);
        let shifts = lanes.simd_eq(u8x16::splat(0x0e)) | lanes.simd_eq(u8x16::splat(0x0f));
        first_set(shifts.to_bitmask())
    }
}

impl Sets {
    /// Where nothing has come: ASCII.
    pub fn first() -> Sets
        ensures { result ≡ first_sets }
    {
        Sets {
            g0: Set::Ascii,
            g1: Set::Ascii,
            shifted: false,
        }
    }

    /// The set that is shifted in.
    #[inline(always)]
    pub fn in_use(&self) -> Set
        ensures { result ≡ in_use self.now }
    {
        if self.shifted { self.g1 } else { self.g0 }
    }

    /// Behind a byte of text: SO shifts G1 in, and SI G0.
    #[inline(always)]
    pub fn shift(&mut self, byte: u8)
        ensures { self.new ≡ shifted self.old byte }
    {
        if byte == 0x0e {
            self.shifted = true;
        } else if byte == 0x0f {
            self.shifted = false;
        }
    }

    /// Behind an escape sequence.
    #[inline(always)]
    pub(crate) fn escape(&mut self, bytes: &[u8])
        ensures { self.new ≡ behind_escape self.old bytes.now }
    {
        match bytes {
            [_, b'c'] => *self = Sets::first(),
            [_, b'(', last] => self.g0 = Set::named(*last),
            [_, b')', last] => self.g1 = Set::named(*last),
            _ => {}
        }
    }

    /// Whether an escape sequence changes no set.
    #[inline(always)]
    pub(crate) fn keeps(&self, bytes: &[u8]) -> bool
        ensures { result ≡ true → behind_escape self.now bytes.now ≡ self.now }
    {
        match bytes {
            [_, b'c'] => false,
            [_, b'(', last] => self.g0 == Set::named(*last),
            [_, b')', last] => self.g1 == Set::named(*last),
            _ => true,
        }
    }

    /// Behind a sequence, a control string or what went wrong.
    pub fn pass(&mut self, kind: Kind, bytes: &[u8])
        requires { kind ≢ IsText }
        ensures { self.new ≡ behind self.old kind bytes.now }
    {
        match kind {
            Kind::Esc => self.escape(bytes),
            Kind::Csi if is_decstr(bytes) => *self = Sets::first(),
            Kind::Text | Kind::Csi | Kind::Str | Kind::Other => {}
        }
    }

    /// Bytes of text in front that are what they are in the sets, and change none, and those behind them.
    pub fn split_same<'a>(&self, bytes: &'a [u8]) -> (&'a [u8], &'a [u8])
        ensures { IsSplit self.now bytes.now result.0.now result.1.now }
    {
        if self.in_use() == Set::Ascii {
            return split_front::<Unshifted>(bytes);
        }
        match bytes.first() {
            Some(byte) if *byte >= 0x80 => bytes.split_at(1),
            Some(_) | None => bytes.split_at(0),
        }
    }
}

/// How text is read: whether a title is open, of tmux and screen, and the sets.
#[derive(Clone, Copy, PartialEq, Eq, Debug)]
pub struct Reading {
    /// Whether text is that of a title.
    pub titled: bool,
    /// The sets.
    pub sets: Sets,
}

impl Reading {
    /// Where nothing has come.
    pub fn first() -> Reading
        ensures { result ≡ first_reading }
    {
        Reading {
            titled: false,
            sets: Sets::first(),
        }
    }
}
