//! Sequences, each with a number by which what was told of it is found again.
ghost use Rattle.std.specs.Prelude.{◌≡◌, ◌<◌, ◌≤◌, IfSome, length};

/// A bit of the number of a sequence that isn't its bytes. These have it nowhere.
const MADE: u64 = 0x80;

/// The most bytes that a number is made of.
const LONGEST: usize = 64;

/// A factor whose products have their high bits from all bits of a number: that of the golden ratio.
pub const SPREAD: u64 = 0x9e37_79b9_7f4a_7c15;

/// A sequence and its number: of a control sequence the bytes behind `ESC [`, the first the lowest, where those are eight at most.
#[derive(Clone, Copy)]
pub struct Keyed<'a> {
    pub bytes: &'a [u8],
    pub number: u64,
}

impl<'a> Keyed<'a> {
    /// Any bytes.
    pub fn new(bytes: &'a [u8]) -> Keyed<'a>
        ensures { result.bytes.now ≡ bytes.now }
    {
        let mut number = 0u64;
        for byte in bytes.get(..LONGEST).unwrap_or(bytes) {
            number = (number ^ u64::from(*byte)).wrapping_mul(SPREAD);
        }
        let number = number | MADE;
        Keyed { bytes, number }
    }

    /// Whether the number is all that there is to know of the bytes.
    #[inline(always)]
    pub fn is_whole(self) -> bool {
        self.number & MADE == 0
    }
}

/// What looks like a control sequence in front, where it is long, or near the end of the bytes.
#[inline(never)]
fn long_front(bytes: &[u8]) -> Option<Keyed<'_>>
    ensures within { IfSome result (λ front. length front.bytes.now ≤ length bytes.now) }
    ensures ended { IfSome result (λ front. 2 < length front.bytes.now) }
{
    let (mut number, mut shift, mut len) = (0u64, 0u32, 2usize);
    for byte in bytes.get(2..)? {
        number |= u64::from(*byte).wrapping_shl(shift);
        shift = shift.wrapping_add(8);
        len = len.saturating_add(1);
        if !matches!(byte, 0x20..=0x3f) {
            break;
        }
    }
    let bytes = bytes.get(..len)?;
    let list = bytes.get(2..)?;
    match list.last() {
        Some(0x40..=0x7e) if list.len() > 8 => Some(Keyed::new(bytes)),
        Some(0x40..=0x7e) => Some(Keyed { bytes, number }),
        _ => None,
    }
}

/// What looks like a control sequence in front: `ESC [`, bytes from 20 to 3f, and one from 40 to 7e.
#[inline(always)]
pub fn sequence_front(bytes: &[u8]) -> Option<Keyed<'_>>
    ensures within { IfSome result (λ front. length front.bytes.now ≤ length bytes.now) }
    ensures ended { IfSome result (λ front. 2 < length front.bytes.now) }
{
    let [0x1b, b'[', list @ ..] = bytes else {
        return None;
    };
    let Some(eight) = list.first_chunk() else {
        return long_front(bytes);
    };
    let eight = u64::from_le_bytes(*eight);
    // In the three high bits a byte from 20 to 3f has 20. In another one of them differs, and is shifted to the highest.
    let others = (eight & 0xe0e0_e0e0_e0e0_e0e0) ^ 0x2020_2020_2020_2020;
    let ends = (others | (others << 1) | (others << 2)) & 0x8080_8080_8080_8080;
    if ends == 0 {
        return long_front(bytes);
    }
    let end = ends.trailing_zeros() & 0x38;
    match (eight >> end) & 0xff {
        0x40..=0x7e => Some(Keyed {
            bytes: bytes.get(..(end / 8 + 3) as usize)?,
            number: eight & (ends ^ ends.wrapping_sub(1)),
        }),
        _ => None,
    }
}
