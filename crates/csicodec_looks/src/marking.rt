//! As what lines are written.
ghost use Rattle.std.specs.Prelude.{◌≡◌};
ghost use Rattle.csicodec_looks.specs.Paint.{shows_looks};

use crate::markup::Markup;

/// As what lines are written.
#[derive(Clone, Copy, PartialEq, Eq, Debug)]
pub enum Marking {
    /// As their characters alone.
    Plain,
    /// With the sequences that set how characters look (SGR).
    Styled,
    /// As a piece of a page, with tags between characters that look otherwise. No links pass.
    Page(Markup),
}

impl Marking {
    /// Whether how characters look is written.
    pub fn shows_looks(&self) -> bool
        ensures { result ≡ shows_looks self.now }
    {
        match self {
            Marking::Plain => false,
            Marking::Styled | Marking::Page(_) => true,
        }
    }
}
