//! What an input is packed in, where its first bytes say so: terminal streams are in it, and it is none.
ghost use Rattle.csicodec_command.specs.Packed.{Begins, packing_text};
ghost use Rattle.std.specs.Prelude.{◌≡◌, ◌∷◌, ℕ, List, IfSome, IsTrue, Some};

use std::fmt;

/// In what a stream is packed.
#[derive(Clone, Copy)]
pub enum Packing {
    /// gzip (RFC 1952), of deflate.
    Gzip,
    /// xz (The .xz File Format, 2.1.1.1).
    Xz,
    /// zstd (RFC 8878, 3.1.1).
    Zstd,
    /// bzip2, with the first block's mark.
    Bzip2,
    /// Frames of ttyrec: seconds, microseconds and a length in 32 bits each, and so many bytes.
    Ttyrec,
    /// One object of JSON: an asciicast of version 1.
    FirstAsciicast,
}

/// What is said of it, and how the stream comes out.
impl fmt::Display for Packing {
    ghost output = { λ packing. Some (packing_text packing) };

    fn fmt<W: fmt::Write>(&self, f: &mut fmt::Formatter<W>) -> fmt::Result {
        let text = match self {
            Packing::Gzip => "packed by gzip (gzip -dc FILE | csicodec .. unpacks it)",
            Packing::Xz => "packed by xz (xz -dc FILE | csicodec .. unpacks it)",
            Packing::Zstd => "packed by zstd (zstd -dc FILE | csicodec .. unpacks it)",
            Packing::Bzip2 => "packed by bzip2 (bzip2 -dc FILE | csicodec .. unpacks it)",
            Packing::Ttyrec => "a recording of ttyrec (ttyplay -n FILE | csicodec .. plays it)",
            Packing::FirstAsciicast => {
                "an asciicast of version 1 (jq -j '.stdout[][1]' FILE | csicodec .. plays it)"
            }
        };
        f.write_str(text)
    }
}

/// The first bytes of these programs' data.
fn compressed(bytes: &[u8]) -> Option<Packing>
    ensures { IfSome result (λ packing. Begins packing bytes.now) }
{
    match bytes {
        [0x1f, 0x8b, 8, ..] => Some(Packing::Gzip),
        [0xfd, b'7', b'z', b'X', b'Z', 0, ..] => Some(Packing::Xz),
        [0x28, 0xb5, 0x2f, 0xfd, ..] => Some(Packing::Zstd),
        [
            b'B',
            b'Z',
            b'h',
            b'1'..=b'9',
            b'1',
            b'A',
            b'Y',
            b'&',
            b'S',
            b'Y',
            ..
        ] => { Some(Packing::Bzip2) }
        _ => None,
    }
}

/// A number of 32 bits, the last byte first, and what is behind it.
fn number_front(bytes: &[u8]) -> Option<(u32, &[u8])> {
    let [first, second, third, fourth, behind @ ..] = bytes else {
        return None;
    };
    let number = u32::from_le_bytes([*first, *second, *third, *fourth]);
    Some((number, behind))
}

/// The seconds and the length of a frame that begins here, and what is behind its head; none where it has no microseconds of a second,
/// or no bytes.
fn frame_front(bytes: &[u8]) -> Option<(u32, u32, &[u8])> {
    let (seconds, bytes) = number_front(bytes)?;
    let (micros, bytes) = number_front(bytes)?;
    let (len, bytes) = number_front(bytes)?;
    (micros < 1_000_000 && len > 0).then_some((seconds, len, bytes))
}

/// How many seconds two frames are apart at most.
const DAY: u32 = 86_400;

/// The seconds of the first two frames, where there are two.
fn frames(bytes: &[u8]) -> Option<(u32, u32)> {
    let (first, len, bytes) = frame_front(bytes)?;
    let len = usize::try_from(len).ok()?;
    let (second, _, _) = frame_front(bytes.get(len..)?)?;
    Some((first, second))
}

/// Whether two frames begin here, of which the second is at most a day later.
fn is_ttyrec(bytes: &[u8]) -> bool {
    match frames(bytes) {
        Some((first, second)) => second >= first && second - first <= DAY,
        None => false,
    }
}

/// Whether the version 1 and a width come first, blanks aside.
fn are_first_members(bytes: &[u8]) -> bool {
    let mut wanted: &[u8] = b"\"version\":1,\"width\":";
    for byte in bytes {
        match wanted {
            [] => return true,
            _ if byte.is_ascii_whitespace() => {}
            [first, others @ ..] if first == byte => wanted = others,
            _ => return false,
        }
    }
    wanted.is_empty()
}

/// Whether an object begins here whose first members are the version 1 and a width, as asciinema wrote it.
fn is_first_asciicast(bytes: &[u8]) -> bool
    ensures { IsTrue result → (rest : List ℕ) × (bytes.now ≡ 123 ∷ rest) }
{
    match bytes {
        [b'{', members @ ..] => are_first_members(members),
        _ => false,
    }
}

/// In what the stream of an input is packed, by its first bytes.
pub(crate) fn packing_of(bytes: &[u8]) -> Option<Packing>
    ensures { IfSome result (λ packing. Begins packing bytes.now) }
{
    if let Some(packing) = compressed(bytes) {
        return Some(packing);
    }
    if is_first_asciicast(bytes) {
        return Some(Packing::FirstAsciicast);
    }
    if is_ttyrec(bytes) {
        return Some(Packing::Ttyrec);
    }
    None
}
