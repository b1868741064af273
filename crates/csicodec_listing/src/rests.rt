//! Rests of lines that came before, and the text of each, so that none is read again.
ghost use Rattle.std.specs.Prelude.{◌≡◌, IfSome};
ghost use Rattle.csicodec_listing.specs.Private.Glance.{Stands};

use std::alloc::{AllocError, Global};

/// How many rests are held, a power of two.
const PLACES: usize = 1024;

/// How long a rest is that is held.
const LONGEST: usize = 256;

/// What follows the number of a line that was read, and the text of its object.
#[derive(Drop)]
struct Rest {
    rest: Vec<u8>,
    text: Vec<u8>,
    ghost stands: { Stands rest.items text.items },
}

/// The rests that came last, each at the place that its first bytes give. All are below 600 KB.
#[derive(Drop)]
pub(crate) struct Rests {
    alloc: Global,
    rests: Vec<Rest>,
}

/// Where a rest is held: a number that its length and its first 64 bytes give.
fn place_of(rest: &[u8]) -> usize {
    let (mut sum, mut left) = (rest.len() as u64, rest);
    for _ in 0..8 {
        let [a, b, c, d, e, f, g, h, behind @ ..] = left else {
            break;
        };
        let word = u64::from_le_bytes([*a, *b, *c, *d, *e, *f, *g, *h]);
        sum = (sum ^ word).wrapping_mul(0x9e37_79b9_7f4a_7c15);
        sum ^= sum >> 32;
        left = behind;
    }
    (sum % PLACES as u64) as usize
}

impl Rests {
    /// Of which nothing was held.
    pub(crate) fn new(alloc: Global) -> Rests {
        Rests {
            alloc,
            rests: Vec::new(alloc),
        }
    }

    /// The text of a rest that is held.
    pub(crate) fn text_of(&self, rest: &[u8]) -> Option<&[u8]>
        ensures { IfSome result (λ text. Stands rest.now text.now) }
    {
        match self.rests.get(place_of(rest)) {
            Some(held) if held.rest.as_slice() == rest => Some(held.text.as_slice()),
            _ => None,
        }
    }

    /// Makes the places, of which each has an empty rest at first, which is no line's.
    fn fill(&mut self) -> Result<(), AllocError> {
        for _ in self.rests.len()..PLACES {
            let (rest, text) = (Vec::new(self.alloc), Vec::new(self.alloc));
            self.rests.push(Rest { rest, text })?;
        }
        Ok(())
    }

    /// Holds a rest and its text, unless it is long.
    pub(crate) fn hold(&mut self, rest: &[u8], text: &[u8]) -> Result<(), AllocError>
        requires { Stands rest.now text.now }
    {
        if rest.len() > LONGEST {
            return Ok(());
        }
        self.fill()?;
        let held = Rest {
            rest: Vec::from_slice(self.alloc, rest)?,
            text: Vec::from_slice(self.alloc, text)?,
        };
        if let Some(place) = self.rests.get_mut(place_of(rest)) {
            *place = held;
        }
        Ok(())
    }
}
