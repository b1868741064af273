//! The beginning of a character at the end of text.
ghost use Rattle.std.specs.Prelude.{◌≡◌, ◌<◌, ◌≤◌, ◌-◌, true, false, length, drop, take};
ghost use Rattle.csicodec_events.specs.{Characters.EndsWhole, Characters.follows, Characters.is_from, Characters.is_unfinished, Characters.leads, Events.IsHeld};

/// Whether the byte is one from the low to the high one.
pub(crate) fn is_from(low: u8, high: u8, byte: u8) -> bool
    ensures { result ≡ is_from low high byte }
{
    low <= byte && byte <= high
}

/// The first byte of a character of two bytes and more.
fn leads(byte: u8) -> bool
    ensures { result ≡ leads byte }
{
    is_from(0xc2, 0xf4, byte)
}

/// The second byte of a character that begins so.
fn follows(first: u8, byte: u8) -> bool
    ensures { result ≡ follows first byte }
{
    match first {
        0xe0 => is_from(0xa0, 0xbf, byte),
        0xed => is_from(0x80, 0x9f, byte),
        0xf0 => is_from(0x90, 0xbf, byte),
        0xf4 => is_from(0x80, 0x8f, byte),
        _ => is_from(0x80, 0xbf, byte),
    }
}

/// Whether the bytes are the beginning of a character, and not all of it.
fn is_unfinished(bytes: &[u8]) -> bool
    ensures { result ≡ is_unfinished bytes.now }
{
    match bytes {
        [] => false,
        [a] => leads(*a),
        [a, b] => leads(*a) && 0xe0 <= *a && follows(*a, *b),
        [a, b, c] => leads(*a) && 0xf0 <= *a && follows(*a, *b) && is_from(0x80, 0xbf, *c),
        [_, _, _, _, ..] => false,
    }
}

/// Whether the last bytes, so many, are the beginning of a character.
fn ends_unfinished(text: &[u8], len: usize) -> bool
    ensures yes { result ≡ true → (len ≤ length text.now)
        × (is_unfinished (drop (length text.now - len) text.now) ≡ true) }
    ensures none { result ≡ false → len ≤ length text.now
        → is_unfinished (drop (length text.now - len) text.now) ≡ false }
{
    len <= text.len() && is_unfinished(text.split_at(text.len() - len).1)
}

/// How many bytes at the end of the text are the beginning of a character.
fn unfinished_len(text: &[u8]) -> usize
    ensures within { result ≤ length text.now }
    ensures some { 0 < result → is_unfinished (drop (length text.now - result) text.now) ≡ true }
    ensures none { result ≡ 0 → EndsWhole text.now }
{
    if ends_unfinished(text, 1) {
        1
    } else if ends_unfinished(text, 2) {
        2
    } else if ends_unfinished(text, 3) {
        3
    } else {
        0
    }
}

/// How many bytes at the end of a span of text wait for the others of their character, by what is behind it.
pub(crate) fn held_len(span: &[u8], behind: &[u8]) -> usize
    ensures within { result ≤ length span.now }
    ensures holds { IsHeld (take (length span.now - result) span.now)
        (drop (length span.now - result) span.now) behind.now }
{
    if behind.is_empty() {
        unfinished_len(span)
    } else {
        0
    }
}
