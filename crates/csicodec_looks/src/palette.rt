//! The colours of a page by number, and the page's own.
ghost use Rattle.std.specs.Prelude.{◌<◌, ◌≡◌};
ghost use Rattle.csicodec_looks.specs.Palette.{color_at, first_color, or_own, xterm};

use crate::xterm::palette;
use csicodec_base::{ColorSpec, SrgbaTuple};

/// The colours that a user of a terminal may choose. Those of the places from 16 on are the same everywhere.
///
/// ```text
/// Palette::xterm().color(1)           // Some(SrgbaTuple(205, 0, 0, 255))
/// ```
#[derive(Clone, Copy, PartialEq, Eq, Debug, Default)]
pub struct Palette {
    /// Those of the places 0 to 15, on a light page and on a dark one. Without them each place has a colour for either that can be read
    /// there, and others behind text. Their alpha isn't looked at, nor that of the others.
    pub first: Option<[SrgbaTuple; 16]>,
    /// The colour of text that has none of its own; without it the browser's.
    pub foreground: Option<SrgbaTuple>,
    /// The colour of the page behind text.
    pub background: Option<SrgbaTuple>,
}

/// The colour, or in place of the page's own one that is given for it.
pub(crate) fn or_own(given: Option<SrgbaTuple>, color: ColorSpec) -> ColorSpec
    ensures { result ≡ or_own given color }
{
    match (given, color) {
        (Some(own), ColorSpec::Default) => ColorSpec::TrueColor(own),
        _ => color,
    }
}

impl Palette {
    /// xterm's colours, and the browser's own.
    #[tactic(auto, unfolding(crate::specs::Xterm::palette))]
    pub fn xterm() -> Palette
        ensures { result ≡ xterm }
    {
        Palette {
            first: Some([
                palette(0),
                palette(1),
                palette(2),
                palette(3),
                palette(4),
                palette(5),
                palette(6),
                palette(7),
                palette(8),
                palette(9),
                palette(10),
                palette(11),
                palette(12),
                palette(13),
                palette(14),
                palette(15),
            ]),
            foreground: None,
            background: None,
        }
    }

    /// The colour that is given for one of the first 16 places, if one is.
    fn first_color(&self, index: u8) -> Option<SrgbaTuple>
        requires { index < 16 }
        ensures { result ≡ first_color self.now.first index }
    {
        let first = self.first?;
        Some(first[index as usize])
    }

    /// The colour of a place, from 0 to 255; none of those below 16 where none are given.
    pub fn color(&self, index: u8) -> Option<SrgbaTuple>
        ensures { result ≡ color_at self.now index }
    {
        if index < 16 {
            return self.first_color(index);
        }
        Some(palette(index))
    }
}
