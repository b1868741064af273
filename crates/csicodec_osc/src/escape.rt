//! Bytes, shown in ASCII.
ghost use Rattle.std.specs.{Prelude.◌≡◌, Prelude.◌++◌, Prelude.◌∷◌, Prelude.◌≤◌, Prelude.◌<◌, Prelude.[], Prelude.true, Prelude.OnOk, Prelude.drop, Prelude.length};
ghost use Rattle.std.specs.{Prelude.take, List.flat_map};
ghost use Rattle.csicodec_osc.specs.Escaped.{escaped, hex_digit};

use std::alloc::AllocError;

/// A digit of base sixteen.
fn hex_digit(value: u8) -> u8
    requires { value < 16 }
    ensures { result ≡ hex_digit value }
{
    if value < 10 { value + 48 } else { value + 87 }
}

/// Appends one byte as it is shown.
fn append_byte(out: &mut Vec<u8>, byte: u8) -> Result<(), AllocError>
    ensures { OnOk result (out.new.items ≡ out.old.items ++ escaped byte) }
{
    let letter = match byte {
        0x1b => b'e',
        b'\t' => b't',
        b'\n' => b'n',
        b'\r' => b'r',
        b'\\' => b'\\',
        b' '..=b'~' => return Ok(out.push(byte)?),
        _ => {
            let digits = [b'\\', b'x', hex_digit(byte / 16), hex_digit(byte % 16)];
            return out.extend_from_slice(&digits);
        }
    };
    out.extend_from_slice(&[b'\\', letter])
}

/// Whether a byte is shown as itself.
#[inline(always)]
fn is_plain(byte: u8) -> bool
    ensures { result ≡ true → escaped byte ≡ byte ∷ [] }
{
    matches!(byte, b' '..=b'[' | b']'..=b'~')
}

/// How many bytes in front are shown as themselves.
#[tactic(auto, using(crate::proofs::Reading::plain_more))]
fn plain_len(bytes: &[u8]) -> usize
    ensures within { result ≤ length bytes.now }
    ensures shown { flat_map escaped bytes.now ≡ take result bytes.now ++ flat_map escaped (drop result bytes.now) }
{
    let mut len = 0;
    while len < bytes.len() && is_plain(bytes[len]) {
        len += 1;
    }
    len
}

/// Appends bytes as they are shown: ESC as `\e`, tab, line feed and carriage return as `\t`, `\n` and `\r`, the backslash
/// twice, any other byte from `' '` to `'~'` as itself, and the rest by their number, as `\x07`.
pub fn append_escaped(out: &mut Vec<u8>, bytes: &[u8]) -> Result<(), AllocError>
    ensures { OnOk result (out.new.items ≡ out.old.items ++ flat_map escaped bytes.now) }
{
    let mut rest = bytes;
    while let Some((byte, behind)) = rest.split_first() {
        append_byte(out, *byte)?;
        let (run, behind) = behind.split_at(plain_len(behind));
        out.extend_from_slice(run)?;
        rest = behind;
    }
    Ok(())
}
