//! What becomes markup, and how.
ghost use Rattle.std.specs.Prelude.{◌≡◌};
ghost use Rattle.csicodec_looks.specs.Pieces.{simple};

use crate::palette::Palette;

/// What becomes markup, beside attributes, and the colours of those.
#[derive(Clone, Copy, PartialEq, Eq, Debug)]
pub struct Markup {
    /// Whether links (OSC 8) do: those that `clean` lets pass, to a host by http or https.
    pub links: bool,
    /// Whether attributes become classes of spans, as `bold` and `fg-1`, which a style sheet gives their meaning, in place of styles;
    /// colours by their parts are styles still.
    pub classes: bool,
    /// The colours of numbers, and the page's own.
    pub palette: Palette,
}

/// No links, no classes, and colours that can be read.
impl Default for Markup {
    ghost is_default = { λ markup. markup ≡ simple };

    fn default() -> Markup {
        Markup {
            links: false,
            classes: false,
            palette: Palette::default(),
        }
    }
}
