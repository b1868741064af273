//! Which graphic sets characters come from.
ghost use Rattle.std.specs.Prelude.{◌≡◌};
ghost use Rattle.csicodec_screen.specs.{Draws.current, Draws.set_of, Screen.first_sets};

use csicodec_looks::Set;

/// A place for a graphic set (ISO/IEC 2022).
#[derive(Clone, Copy, PartialEq, Eq, Debug)]
pub enum Slot {
    G0,
    G1,
    G2,
    G3,
}

/// The graphic sets.
#[derive(Clone, Copy, PartialEq, Eq, Debug)]
pub struct Sets {
    pub g0: Set,
    pub g1: Set,
    pub g2: Set,
    pub g3: Set,
    /// That which characters come from (GL).
    pub left: Slot,
    /// That which the next one comes from, behind SS2 or SS3.
    pub single: Option<Slot>,
}

impl Sets {
    /// All ASCII.
    pub(crate) fn first() -> Sets
        ensures { result ≡ first_sets }
    {
        Sets {
            g0: Set::Ascii,
            g1: Set::Ascii,
            g2: Set::Ascii,
            g3: Set::Ascii,
            left: Slot::G0,
            single: None,
        }
    }

    fn at(&self, slot: Slot) -> Set
        ensures { result ≡ set_of self.now slot }
    {
        match slot {
            Slot::G0 => self.g0,
            Slot::G1 => self.g1,
            Slot::G2 => self.g2,
            Slot::G3 => self.g3,
        }
    }

    /// That which the next character comes from.
    pub(crate) fn current(&self) -> Set
        ensures { result ≡ current self.now }
    {
        self.at(self.single.unwrap_or(self.left))
    }
}
