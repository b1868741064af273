//! Titles of tmux and screen: text that is shown nowhere.
ghost use Rattle.std.specs.Prelude.{◌≡◌};
ghost use Rattle.csicodec_clean.specs.Titles.{read_as, title_behind};

use csicodec_spans::Kind;

/// What a span is, where a title may be open: the text of one is dropped.
pub fn read_as(kind: Kind, titled: bool) -> Kind
    ensures { result ≡ read_as kind titled }
{
    match kind {
        Kind::Text => { if titled { Kind::Other } else { Kind::Text } }
        Kind::Csi | Kind::Esc | Kind::Str | Kind::Other => kind,
    }
}

/// Whether a title is open behind a span: text goes on with it, `ESC k` opens one, and anything else ends it.
pub fn title_behind(titled: bool, kind: Kind, bytes: &[u8]) -> bool
    ensures { result ≡ title_behind titled kind bytes.now }
{
    match kind {
        Kind::Text => titled,
        Kind::Esc => bytes.len() == 2 && bytes[1] == b'k',
        Kind::Csi | Kind::Str | Kind::Other => false,
    }
}
