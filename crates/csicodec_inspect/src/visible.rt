//! The characters that a reader sees, each in its place.
ghost use Rattle.std.specs.Prelude.{◌≡◌};
ghost use Rattle.csicodec_inspect.specs.Visible.{hides_high, hides_low, is_tag, seen, turns, within};

use csicodec_clean::{CharClass, PlainAscii, is_shown, split_front};

/// Whether the character is one from the first to the last.
fn is_within(first: char, last: char, char: char) -> bool
    ensures { result ≡ within first last char }
{
    first <= char && char <= last
}

/// Whether the character changes the order of text.
pub fn turns(char: char) -> bool
    ensures { result ≡ turns char }
{
    is_within('\u{61c}', '\u{61c}', char)
        || is_within('\u{200e}', '\u{200f}', char)
        || is_within('\u{202a}', '\u{202e}', char)
        || is_within('\u{2066}', '\u{2069}', char)
}

/// Whether the character is a tag.
pub fn is_tag(char: char) -> bool
    ensures { result ≡ is_tag char }
{
    is_within('\u{e0000}', '\u{e007f}', char)
}

/// Whether the character is one up to U+206F that has no picture of its own.
fn hides_low(char: char) -> bool
    ensures { result ≡ hides_low char }
{
    is_within('\u{ad}', '\u{ad}', char)
        || is_within('\u{34f}', '\u{34f}', char)
        || is_within('\u{115f}', '\u{1160}', char)
        || is_within('\u{17b4}', '\u{17b5}', char)
        || is_within('\u{180b}', '\u{180f}', char)
        || is_within('\u{200b}', '\u{200d}', char)
        || is_within('\u{2028}', '\u{2029}', char)
        || is_within('\u{2060}', '\u{206f}', char)
}

/// Whether it is one above that.
fn hides_high(char: char) -> bool
    ensures { result ≡ hides_high char }
{
    is_within('\u{3164}', '\u{3164}', char)
        || is_within('\u{fe00}', '\u{fe0f}', char)
        || is_within('\u{feff}', '\u{feff}', char)
        || is_within('\u{ffa0}', '\u{ffa0}', char)
        || is_within('\u{fff0}', '\u{fffb}', char)
        || is_within('\u{1bca0}', '\u{1bca3}', char)
        || is_within('\u{1d173}', '\u{1d17a}', char)
        || is_within('\u{e0080}', '\u{e0fff}', char)
}

/// Whether a reader sees the character, in its place.
fn is_seen(char: char) -> bool
    ensures { result ≡ seen char }
{
    is_shown(char) && !(turns(char) || is_tag(char) || hides_low(char) || hides_high(char))
}

/// The characters that a reader sees, each in its place.
pub struct VisibleText;

impl CharClass for VisibleText {
    ghost use Rattle.csicodec_inspect.specs.Visible.{seen};

    ghost class = { seen };

    fn has(char: char) -> bool {
        is_seen(char)
    }

    fn behind<'a>(bytes: &'a [u8]) -> &'a [u8] {
        split_front::<PlainAscii>(bytes).1
    }
}
