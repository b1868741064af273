//! Bytes as they stand on a page: the five characters that HTML could take for markup are references.
ghost use Rattle.std.specs.{Prelude.◌≡◌, Prelude.◌++◌, Prelude.◌∷◌, Prelude.[], Prelude.ℕ, Prelude.List, Prelude.take, Prelude.OnOk, Prelude.IfOk, List.prefix_len};
ghost use Rattle.csicodec_looks.specs.{Bytes.behind, Pieces.page_byte, Pieces.page_bytes, Pieces.stands};

use crate::bytes::{ByteClass, LANES, first_set, split_front};
use std::alloc::AllocError;
use std::simd::prelude::*;

/// All bytes but the five characters that are written as references.
struct Standing;

impl ByteClass for Standing {
    ghost use Rattle.csicodec_looks.specs.Pieces.{stands};

    ghost class = { stands };

    #[inline(always)]
    fn has(byte: u8) -> bool {
        byte != b'"' && byte != b'&' && byte != b'\'' && byte != b'<' && byte != b'>'
    }

    #[inline(always)]
    fn lanes(bytes: &[u8]) -> usize {
        let lanes = u8x16::from_slice(bytes);
        // (the two of each pair differ in one bit, and are told by one comparison)
        let brackets = lanes.simd_eq(u8x16::splat(b'<')) | lanes.simd_eq(u8x16::splat(b'>'));
        let neighbours = lanes.simd_eq(u8x16::splat(b'&')) | lanes.simd_eq(u8x16::splat(b'\''));
        let odd = brackets | neighbours | lanes.simd_eq(u8x16::splat(b'"'));
        first_set(odd.to_bitmask())
    }
}

/// Appends a byte as it stands on the page.
fn append_byte(byte: u8, out: &mut Vec<u8>) -> Result<(), AllocError>
    ensures { OnOk result (out.new.items ≡ out.old.items ++ page_byte byte) }
{
    match byte {
        b'&' => out.extend_from_slice(b"&amp;"),
        b'<' => out.extend_from_slice(b"&lt;"),
        b'>' => out.extend_from_slice(b"&gt;"),
        b'"' => out.extend_from_slice(b"&quot;"),
        b'\'' => out.extend_from_slice(b"&#39;"),
        _ => Ok(out.push(byte)?),
    }
}

/// Appends the bytes in front that stand on the page as they are, few of them by one copy of as many as are told at once, and answers the
/// others.
#[inline(always)]
fn append_standing<'a>(bytes: &'a [u8], out: &mut Vec<u8>) -> Result<&'a [u8], AllocError>
    ensures front { OnOk result (out.new.items ≡ out.old.items ++ take (prefix_len stands bytes.now) bytes.now) }
    ensures rest { IfOk result (λ rest. rest.now ≡ behind stands bytes.now) }
{
    let (front, rest) = split_front::<Standing>(bytes);
    if front.len() > LANES || bytes.len() < LANES {
        out.extend_from_slice(front)?;
        return Ok(rest);
    }
    let end = out.len() + front.len();
    out.extend_from_slice(bytes.split_at(LANES).0)?;
    out.truncate(end);
    Ok(rest)
}

/// Appends bytes as they stand on the page.
pub(crate) fn append_page(bytes: &[u8], out: &mut Vec<u8>) -> Result<(), AllocError>
    ensures { OnOk result (out.new.items ≡ out.old.items ++ page_bytes bytes.now) }
{
    let (standing, mut rest) = split_front::<Standing>(bytes);
    out.extend_from_slice(standing)?;
    while let Some((byte, behind)) = rest.split_first() {
        append_byte(*byte, out)?;
        rest = append_standing(behind, out)?;
    }
    Ok(())
}
