//! A short text, built in place and appended at once.
ghost use Rattle.std.specs.Prelude.{◌≡◌, ◌+◌, ◌<◌, ◌≤◌, List, [], ◌∷◌, ◌++◌, ℕ, length, take, IsAscii, IsOk, OnOk, OnErr, nat_eq, vec_len, vec_capacity};
ghost use Rattle.std.specs.{Cmp.partial_equiv_from_equiv, Cmp.Lexicographic.nat_list_eq_equiv, Cmp.Lexicographic.pointwise, Fmt.decimal, Fmt.signed_decimal};
ghost use Rattle.std.specs.{Vec.VecUnchanged};

use std::alloc::{AllocError, Global};
use std::fmt;
use std::marker::Model;

/// At most 32 bytes of ASCII, for one control sequence. Who writes into it shows that there is room; `encode` of `csicodec`
/// appends an action of any length to a vector.
///
/// It takes no memory but its own place. A sequence is built here number by number and then appended to a longer text
/// by one copy, which costs a quarter of writing it there part by part. The longest sequence of two numbers below 2^32
/// has 24 bytes.
///
/// ```text
/// let mut text = Text::new();
/// text.push_str("\x1b[");
/// text.push_u32(12);
/// text.push(b'A');
/// text.append_to(&mut out)?;           // appends "\x1b[12A"
/// ```
#[derive(Drop)]
pub struct Text {
    bytes: [u8; 32],
    len: usize,
}

impl Model for Text {
    ghost Value = { List ℕ };

    ghost view = { λ text. take text.len text.bytes };

    ghost invariant = { λ text. (text.len ≤ 32) × IsAscii (take text.len text.bytes) };
}

impl Text {
    /// The empty text.
    #[inline(always)]
    pub fn new() -> Text
        ensures { result ≡ [] }
    {
        Text {
            bytes: [0; 32],
            len: 0,
        }
    }

    /// The bytes of the text, 32 at most.
    pub fn as_bytes(&self) -> &[u8]
        ensures value { result.now ≡ self.now }
        ensures short { length result.now ≤ 32 }
        ensures ascii { IsAscii result.now }
    {
        &self.bytes[..self.len]
    }

    /// The same as characters.
    pub fn as_str(&self) -> &str
        ensures { result.now ≡ self.now }
    {
        match str::from_utf8(self.as_bytes()) {
            Ok(text) => text,
            Err(_) => unreachable!(),
        }
    }

    /// Appends one byte of ASCII.
    #[inline(always)]
    pub fn push(&mut self, byte: u8)
        requires room { length self.old < 32 }
        requires ascii { byte < 128 }
        ensures value { self.new ≡ self.old ++ byte ∷ [] }
        ensures len { length self.new ≡ length self.old + 1 }
    {
        self.bytes[self.len] = byte;
        self.len += 1;
    }

    /// Appends characters of ASCII.
    #[inline(always)]
    pub fn push_str(&mut self, part: &str)
        requires room { length self.old + length part.now ≤ 32 }
        requires ascii { IsAscii part.now }
        ensures value { self.new ≡ self.old ++ part.now }
        ensures len { length self.new ≡ length self.old + length part.now }
    {
        let end = self.len + part.len();
        self.bytes[self.len..end].copy_from_slice(part.as_bytes());
        self.len = end;
    }

    /// Appends a number in decimal: 3 bytes at most.
    #[tactic(auto, using(crate::proofs::Decimal::digits))]
    pub fn push_u8(&mut self, number: u8)
        requires room { length self.old ≤ 29 }
        ensures value { self.new ≡ self.old ++ decimal number }
        ensures len { length self.new ≤ length self.old + 3 }
        ensures two { number < 100 → length self.new ≤ length self.old + 2 }
    {
        if number < 10 {
            self.push(b'0' + number);
        } else if number < 100 {
            self.push(b'0' + number / 10);
            self.push(b'0' + number % 10);
        } else {
            self.push(b'0' + number / 100);
            self.push(b'0' + number / 10 % 10);
            self.push(b'0' + number % 10);
        }
    }

    /// Appends a number in decimal: 5 bytes at most.
    #[tactic(auto, using(crate::proofs::Decimal::lengths))]
    pub fn push_u16(&mut self, number: u16)
        requires room { length self.old ≤ 27 }
        ensures value { self.new ≡ self.old ++ decimal number }
        ensures len { length self.new ≤ length self.old + 5 }
    {
        if number < 256 {
            self.push_u8(number as u8);
        } else {
            self.push_digits(u64::from(number));
        }
    }

    /// Appends a number in decimal: 10 bytes at most.
    #[tactic(auto, using(crate::proofs::Decimal::lengths))]
    pub fn push_u32(&mut self, number: u32)
        requires room { length self.old ≤ 22 }
        ensures value { self.new ≡ self.old ++ decimal number }
        ensures len { length self.new ≤ length self.old + 10 }
    {
        if number < 256 {
            self.push_u8(number as u8);
        } else {
            self.push_digits(u64::from(number));
        }
    }

    /// Appends a number in decimal: 20 bytes at most.
    #[tactic(auto, using(crate::proofs::Decimal::lengths))]
    pub fn push_u64(&mut self, number: u64)
        requires room { length self.old ≤ 12 }
        ensures value { self.new ≡ self.old ++ decimal number }
        ensures len { length self.new ≤ length self.old + 20 }
    {
        self.push_digits(number);
    }

    /// Appends a number in decimal, with `-` below zero: 20 bytes at most.
    #[tactic(auto, using(crate::proofs::Decimal::lengths))]
    pub fn push_i64(&mut self, number: i64)
        requires room { length self.old ≤ 12 }
        ensures value { self.new ≡ self.old ++ signed_decimal number }
        ensures len { length self.new ≤ length self.old + 20 }
    {
        let magnitude = number.unsigned_abs();
        if number < 0 {
            self.push(b'-');
            self.push_digits(magnitude);
        } else {
            self.push_digits(magnitude);
        }
    }

    /// Appends all digits of a number, the last one after the others.
    #[tactic(auto, using(crate::proofs::Decimal::steps))]
    fn push_digits(&mut self, number: u64)
        requires room { length self.old + length (decimal number) ≤ 32 }
        ensures { self.new ≡ self.old ++ decimal number }
    {
        if number < 10 {
            self.push(b'0' + number as u8);
            return;
        }
        self.push_digits(number / 10);
        self.push(b'0' + (number % 10) as u8);
    }

    /// Appends this text to a longer one. On `Err`, out of memory, that one stays as it was. It takes no memory where
    /// the longer one has room for 32 bytes.
    #[inline(always)]
    pub fn append_to(&self, out: &mut Vec<u8>) -> Result<(), AllocError>
        ensures ok { OnOk result (out.new.items ≡ out.old.items ++ self.now) }
        ensures err { OnErr result (VecUnchanged out.old out.new) }
        ensures room { vec_len out.old + 32 ≤ vec_capacity out.old → IsOk result }
        ensures capacity { vec_capacity out.old ≤ vec_capacity out.new }
    {
        let end = out.len() + self.len;
        out.extend_from_slice(&self.bytes)?;
        out.truncate(end);
        Ok(())
    }
}

/// Bytes that short texts are appended to. Behind them it keeps memory ready, so that appending one is a test and a copy of
/// a fixed length.
///
/// ```text
/// let mut all = TextBuffer::new(alloc);
/// all.push_text(&text)?;
/// all.push_slice(b"abc")?;
/// all.into_vec()                       // the text, and "abc"
/// ```
#[derive(Drop)]
pub struct TextBuffer {
    bytes: Vec<u8>,
    len: usize,
}

impl Model for TextBuffer {
    ghost use Rattle.std.specs.Prelude.{ℕ, List, take, ◌≤◌, vec_len};

    ghost Value = { List ℕ };

    ghost view = { λ buffer. take buffer.len buffer.bytes.items };

    ghost invariant = { λ buffer. buffer.len ≤ vec_len buffer.bytes };
}

impl TextBuffer {
    /// With no bytes, and no memory.
    pub fn new(alloc: Global) -> TextBuffer
        ensures { result ≡ [] }
    {
        TextBuffer {
            bytes: Vec::new(alloc),
            len: 0,
        }
    }

    /// With these bytes.
    pub fn of(bytes: Vec<u8>) -> TextBuffer
        ensures { result ≡ bytes.items }
    {
        let len = bytes.len();
        TextBuffer { bytes, len }
    }

    /// The bytes.
    pub fn as_slice(&self) -> &[u8]
        ensures { result.now ≡ self.now }
    {
        &self.bytes[..self.len]
    }

    /// The bytes, without the memory behind them.
    pub fn into_vec(self) -> Vec<u8>
        ensures { result.items ≡ self }
    {
        let mut bytes = self.bytes;
        bytes.truncate(self.len);
        bytes
    }

    /// Drops the bytes, and keeps their memory.
    pub fn clear(&mut self)
        ensures { self.new ≡ [] }
    {
        self.len = 0;
    }

    /// Appends a text. On `Err`, out of memory, the bytes stay.
    #[inline(always)]
    pub fn push_text(&mut self, text: &Text) -> Result<(), AllocError>
        ensures ok { OnOk result (self.new ≡ self.old ++ text.now) }
        ensures err { OnErr result (self.new ≡ self.old) }
    {
        let len = self.len;
        put(&mut self.bytes, len, &text.bytes, text.len)?;
        self.len = len + text.len;
        Ok(())
    }

    /// Appends the first `count` bytes of a text, by one copy of all. On `Err`, out of memory, the bytes stay.
    #[inline(always)]
    pub fn push_front<const N: usize>(
        &mut self,
        text: &[u8; N],
        count: usize,
    ) -> Result<(), AllocError>
        requires short { N ≤ 48 }
        requires count { count ≤ N }
        ensures ok { OnOk result (self.new ≡ self.old ++ take count text.now) }
        ensures err { OnErr result (self.new ≡ self.old) }
    {
        let len = self.len;
        put(&mut self.bytes, len, text, count)?;
        self.len = len + count;
        Ok(())
    }

    /// Appends any bytes. On `Err`, out of memory, the bytes stay.
    pub fn push_slice(&mut self, more: &[u8]) -> Result<(), AllocError>
        ensures ok { OnOk result (self.new ≡ self.old ++ more.now) }
        ensures err { OnErr result (self.new ≡ self.old) }
    {
        let len = self.len;
        if more.len() <= ROOM {
            put(&mut self.bytes, len, more, more.len())?;
        } else {
            self.bytes.truncate(len);
            self.bytes.extend_from_slice(more)?;
        }
        self.len = len + more.len();
        Ok(())
    }
}

/// The room that each append wants.
const ROOM: usize = 48;

/// The most that is made ready at once. A processor fills so much by plain writes, which cost less than the instruction for long fills.
const MOST: usize = 1024;

/// Writes a part behind the first bytes, of which its first `count` bytes are wanted.
#[inline(always)]
fn put(bytes: &mut Vec<u8>, len: usize, part: &[u8], count: usize) -> Result<(), AllocError>
    requires within { len ≤ vec_len bytes.old }
    requires short { length part.now ≤ 48 }
    requires count { count ≤ length part.now }
    ensures ok { OnOk result (take (len + count) bytes.new.items ≡ take len bytes.old.items ++ take count part.now) }
    ensures room { OnOk result (len + count ≤ vec_len bytes.new) }
    ensures err { OnErr result (take len bytes.new.items ≡ take len bytes.old.items) }
    ensures stays { OnErr result (len ≤ vec_len bytes.new) }
{
    if bytes.len() - len < ROOM {
        widen(bytes, len)?;
    }
    bytes[len..len + part.len()].copy_from_slice(part);
    Ok(())
}

/// Makes some room ready behind the first bytes: at least 48 bytes, and more where there are many.
#[cold]
#[inline(never)]
fn widen(bytes: &mut Vec<u8>, len: usize) -> Result<(), AllocError>
    requires { len ≤ vec_len bytes.old }
    ensures same { take len bytes.new.items ≡ take len bytes.old.items }
    ensures within { len ≤ vec_len bytes.new }
    ensures room { OnOk result (len + 48 ≤ vec_len bytes.new) }
{
    if bytes.capacity() == 0 {
        let alloc = *bytes.allocator();
        *bytes = [0u8; 2 * ROOM].as_slice().to_vec(alloc)?;
        return Ok(());
    }
    if len < 2 * ROOM {
        bytes.truncate(len);
        return bytes.extend_from_slice(&[0; 2 * ROOM]);
    }
    let Some(room) = len.checked_add(len.min(MOST)) else {
        return Err(AllocError);
    };
    bytes.resize(room, 0)
}

impl Default for Text {
    ghost is_default = { λ text. text ≡ [] };

    fn default() -> Self {
        Text::new()
    }
}

impl PartialEq for Text {
    ghost eq = { λ a b. pointwise nat_eq a b };

    ghost laws = { partial_equiv_from_equiv nat_list_eq_equiv };

    fn eq(&self, other: &Self) -> bool {
        self.as_bytes() == other.as_bytes()
    }
}

impl Eq for Text {
    ghost laws = { nat_list_eq_equiv };
}

impl fmt::Debug for Text {
    fn fmt<W: fmt::Write>(&self, f: &mut fmt::Formatter<W>) -> fmt::Result {
        fmt::Debug::fmt(self.as_str(), f)
    }
}
