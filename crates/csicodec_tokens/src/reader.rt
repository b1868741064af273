//! Reading one control sequence (ECMA-48, 5.4) at the front of some bytes.
ghost use Rattle.std.specs.Prelude.{◌≡◌, ℕ, ◌+◌, ◌-◌, ◌*◌, ◌<◌, ◌≤◌, List, ◌∷◌, length, take, IfOk, IfErr, MatchOption, MatchResult, vec_capacity};
ghost use Rattle.csicodec_tokens.specs.{Private.Reading.IsPart, Private.Reading.HasRead, Private.Reading.fault_at, declared.param.CsiParam.CsiParam};
ghost use Rattle.csicodec_tokens.specs.{declared.reader.ReadError.ReadError, declared.reader.ReadError.TheVariants.Memory, Digits.IsDigit, Digits.largest};
ghost use Rattle.csicodec_tokens.specs.{Sequence.Reads, Fault.FaultOf, Fault.Refuses};

use crate::body::walk_body;
use crate::param::CsiParam;
use std::alloc::{AllocError, AllocFailed, Global};

/// A control sequence that was read, and the bytes behind it.
#[derive(Debug, Drop)]
pub struct ReadCsi<'a> {
    /// The tokens between `ESC [` and the final byte, in their order. No two numbers stand side by
    /// side.
    pub params: Vec<CsiParam>,
    /// The final byte as a character, from `'@'` to `'~'`.
    pub control: char,
    /// The bytes behind the final byte: the end of the slice that was passed, not a copy.
    pub rest: &'a [u8],
}

/// What stands behind the tokens of a control sequence that was read.
#[derive(Clone, Copy, Debug, PartialEq, Eq)]
pub struct CsiTail<'a> {
    /// The final byte as a character, from `'@'` to `'~'`.
    pub control: char,
    /// The bytes behind the final byte: the end of the slice that was passed, not a copy.
    pub rest: &'a [u8],
}

/// A control sequence that was read into a slice.
#[derive(Clone, Copy, Debug, PartialEq, Eq)]
pub struct ShortCsi<'a> {
    /// How many tokens it has: they stand at the front of the slice.
    pub count: usize,

    /// The final byte as a character, from `'@'` to `'~'`.
    pub control: char,

    /// The bytes behind the final byte: the end of the bytes that were passed, not a copy.
    pub rest: &'a [u8],
}

/// Why no control sequence was read.
///
/// Each `at` is a place in the bytes that were passed, counted from 0. But for `Truncated` it is the
/// first byte with which they are the beginning of no control sequence.
///
/// ```text
/// read_csi(alloc, b"a")                // Err(NotCsi { at: 0 }), printed as "byte 0: not a sequence"
/// read_csi(alloc, b"\x1b[1\x07m")      // Err(BadByte { at: 3 }), "byte 3: bad byte"
/// read_csi(alloc, b"\x1b[1")           // Err(Truncated { at: 3 }), "byte 3: truncated"
/// ```
#[derive(Clone, Copy, Debug, PartialEq, Eq)]
pub enum ReadError {
    /// The bytes don't begin with `ESC [`: `at` is 0 where the first byte isn't ESC, and 1 where
    /// another byte than `[` follows it. CSI as the one byte 9b is refused so, at 0.
    NotCsi { at: usize },
    /// Before any final byte stands one that is no part of a sequence: a control character, DEL, or
    /// a byte above it.
    BadByte { at: usize },
    /// The digit at `at` makes its number larger than `i64::MAX`, whatever follows.
    NumberTooLarge { at: usize },
    /// The bytes end before the final byte, and more bytes could make them a sequence; `at` is how
    /// many they are.
    Truncated { at: usize },
    /// A sequence stands in front, and there was no memory for its tokens.
    Memory,
}

impl From<AllocError> for ReadError {
    ghost from_gives = { λ _ e. e ≡ Memory };

    fn from(_e: AllocError) -> ReadError {
        ReadError::Memory
    }
}

impl<T: Drop> From<AllocFailed<T>> for ReadError {
    ghost from_gives = { λ _ e. e ≡ Memory };

    fn from(_e: AllocFailed<T>) -> ReadError {
        ReadError::Memory
    }
}

/// Numbers below this one take a further digit without a test, and it is itself part of one instruction.
const FEW: u64 = 100_000_000;

/// The number with one more digit of that value, if it isn't too large.
#[cold]
fn with_last_digit(number: u64, value: u64) -> Option<u64>
    ensures { MatchOption result (largest < 10 * number + value) (λ n. (n ≡ 10 * number + value)
        × (n ≤ largest)) }
{
    let longer = number.checked_mul(10)?.checked_add(value)?;
    (longer <= i64::MAX as u64).then_some(longer)
}

/// The number that the digits of `number` and one digit more write, or `None` where it is larger than `i64::MAX`. All but the last digits of a
/// very long number cost one test.
#[inline(always)]
pub(crate) fn with_digit(number: u64, digit: u8) -> Option<u64>
    requires { IsDigit digit }
    ensures { MatchOption result (largest < 10 * number + (digit - 48)) (λ n.
        (n ≡ 10 * number + (digit - 48)) × (n ≤ largest)) }
{
    let value = u64::from(digit - b'0');
    if number < FEW {
        Some(10 * number + value)
    } else {
        with_last_digit(number, value)
    }
}

/// What stands in front of the bytes behind ESC and '['.
#[derive(Clone, Copy)]
enum Part<'a> {
    Token(CsiParam, &'a [u8]),
    Final(u8, &'a [u8]),
    /// The bytes from the first one on with which they are the beginning of no sequence.
    Wrong(&'a [u8]),
}

/// The number that a digit and the digits behind it write, or where it is too large.
#[inline(always)]
#[tactic(auto, using(crate::proofs::Reading::first_cut, crate::proofs::Reading::one_digit, crate::proofs::Reading::one_more_digit))]
fn number_front(first: u8, text: &[u8]) -> Part<'_>
    requires { IsDigit first }
    ensures { IsPart (first ∷ text.now) result }
{
    let mut number = u64::from(first - b'0');
    let mut rest = text;
    while let [digit @ b'0'..=b'9', others @ ..] = rest {
        let Some(longer) = with_digit(number, *digit) else {
            return Part::Wrong(rest);
        };
        number = longer;
        rest = others;
    }
    Part::Token(CsiParam::Integer(number as i64), rest)
}

/// The part in front of the bytes.
#[inline(always)]
fn part_front(bytes: &[u8]) -> Part<'_>
    ensures { IsPart bytes.now result }
{
    match bytes {
        [digit @ b'0'..=b'9', others @ ..] => number_front(*digit, others),
        [byte @ b'@'..=b'~', others @ ..] => Part::Final(*byte, others),
        [byte @ b' '..=b'?', others @ ..] => Part::Token(CsiParam::P(*byte), others),
        [] => Part::Wrong(bytes),
        [0x00..=0x1f, ..] => Part::Wrong(bytes),
        [0x7f..=0xff, ..] => Part::Wrong(bytes),
    }
}

/// Why the bytes begin with no sequence, where that is so from the first byte of the rest on.
#[cold]
#[inline(never)]
fn fault(bytes: &[u8], rest: &[u8]) -> ReadError
    requires { length rest.now ≤ length bytes.now }
    ensures { result ≡ fault_at (length bytes.now - length rest.now) rest.now }
{
    let at = bytes.len() - rest.len();
    match rest {
        [] => ReadError::Truncated { at },
        [b' '..=b'?', ..] => ReadError::NumberTooLarge { at },
        _ => ReadError::BadByte { at },
    }
}

/// The bytes behind ESC and '['.
fn behind_introducer(bytes: &[u8]) -> Result<&[u8], ReadError>
    ensures { MatchResult result (λ body.
        bytes.now ≡ 27 ∷ 91 ∷ body.now) (λ e. FaultOf bytes.now e) }
{
    match bytes {
        [0x1b, b'[', body @ ..] => Ok(body),
        [] | [0x1b] => Err(ReadError::Truncated { at: bytes.len() }),
        [0x1b, ..] => Err(ReadError::NotCsi { at: 1 }),
        _ => Err(ReadError::NotCsi { at: 0 }),
    }
}

/// The bytes behind the control sequence at the front of some bytes, or the fault that keeps them from beginning with one.
///
/// It takes no memory, and never answers `Memory`.
///
/// ```text
/// let rest = behind_csi(b"\x1b[0001;?m!")?;                     // b"!"
/// ```
#[inline(always)]
pub fn behind_csi(bytes: &[u8]) -> Result<&[u8], ReadError>
    // What stands before them is a sequence.
    ensures found { IfOk result (λ rest. (list : List CsiParam) × (final : ℕ)
        × Reads bytes.now list final rest.now) }
    // An error is the fault of bytes with none in front.
    ensures refused { IfErr result (FaultOf bytes.now) }
{
    let Err(rest) = walk_body(0, behind_introducer(bytes)?) else {
        return Err(ReadError::Truncated { at: bytes.len() });
    };
    let at = bytes.len() - rest.len();
    match rest {
        [b'@'..=b'~', others @ ..] => Ok(others),
        [b' '..=b'?', ..] => Err(ReadError::NumberTooLarge { at }),
        [0x00..=0x1f, ..] => Err(ReadError::BadByte { at }),
        [0x7f..=0xff, ..] => Err(ReadError::BadByte { at }),
        [] => Err(ReadError::Truncated { at }),
    }
}

/// Why no sequence is read, where there is no memory for a token before the rest.
#[cold]
#[inline(never)]
fn refusal(bytes: &[u8], rest: &[u8]) -> ReadError
    requires { length rest.now ≤ length bytes.now }
    ensures { (list : List CsiParam) (room : ℕ) → HasRead bytes.now list rest.now
        → room < length list → Refuses bytes.now room result }
{
    let mut behind = rest;
    loop {
        match part_front(behind) {
            Part::Token(_, others) => behind = others,
            Part::Final(..) => return ReadError::Memory,
            Part::Wrong(left) => return fault(bytes, left),
        }
    }
}

/// The sequence in front, or why there is none, from which the clauses of the public calls follow.
fn fill<'a>(params: &mut Vec<CsiParam>, bytes: &'a [u8]) -> Result<CsiTail<'a>, ReadError>
    ensures kept { vec_capacity params.old ≤ vec_capacity params.new }
    ensures read { MatchResult result
        (λ tail. Reads bytes.now params.new.items tail.control tail.rest.now)
        (λ e. Refuses bytes.now (vec_capacity params.old) e) }
{
    params.clear();
    let mut rest = behind_introducer(bytes)?;
    loop {
        match part_front(rest) {
            Part::Token(token, others) => {
                let Ok(()) = params.push(token) else {
                    return Err(refusal(bytes, others));
                };
                rest = others;
            }
            Part::Final(byte, others) => {
                return Ok(CsiTail {
                    control: char::from(byte),
                    rest: others,
                });
            }
            Part::Wrong(left) => return Err(fault(bytes, left)),
        }
    }
}

/// Reads the control sequence at the front of the bytes, its tokens into a buffer that is kept from
/// call to call.
///
/// `params` is cleared first. After an `Ok` it holds the tokens of this sequence, those of
/// [`read_csi`]; after an `Err` it holds anything. It never loses room, and `Memory` comes only for
/// more tokens than it had room for.
///
/// ```text
/// let tail = read_csi_into(&mut params, b"\x1b[0001;?m!")?;   // 1, ';', '?' then 'm' and b"!"
/// ```
pub fn read_csi_into<'a>(
    params: &mut Vec<CsiParam>,
    bytes: &'a [u8],
) -> Result<CsiTail<'a>, ReadError>
    // What is read is a sequence, and the bytes behind it are left.
    ensures found { IfOk result (λ tail.
        Reads bytes.now params.new.items tail.control tail.rest.now) }
    // Where a front is a sequence, this one is read, unless it needs more room than there was.
    ensures only { (list : List CsiParam) (final : ℕ) (rest : List ℕ)
        → Reads bytes.now list final rest → MatchResult result
        (λ tail. (params.new.items ≡ list) × (tail.control ≡ final) × (tail.rest.now ≡ rest))
        (λ e. (e ≡ Memory) × (vec_capacity params.old < length list)) }
    // Memory is refused only to a sequence, and any other error is the fault of bytes with none in front.
    ensures refused { IfErr result (λ e. Refuses bytes.now (vec_capacity params.old) e) }
    ensures kept { vec_capacity params.old ≤ vec_capacity params.new }
{
    fill(params, bytes)
}

/// Reads the control sequence at the front of the bytes, its tokens into a slice: it takes no memory.
///
/// `Memory` comes only for more tokens than the slice has room for. After an `Err` the slice holds anything.
///
/// ```text
/// let read = read_csi_within(&mut room, b"\x1b[0001;?m!")?;   // 3 tokens: 1, ';', '?' then 'm' and b"!"
/// ```
#[inline(always)]
pub fn read_csi_within<'a>(
    room: &mut [CsiParam],
    bytes: &'a [u8],
) -> Result<ShortCsi<'a>, ReadError>
    // What is read is a sequence, and the bytes behind it are left.
    ensures found { IfOk result (λ read.
        Reads bytes.now (take read.count room.new) read.control read.rest.now) }
    ensures fits { IfOk result (λ read. read.count ≤ length room.new) }
    // Memory is refused only to a sequence with more tokens, and any other error is the fault of bytes with none in front.
    ensures refused { IfErr result (λ e. Refuses bytes.now (length room.new) e) }
{
    let mut count = 0;
    let mut rest = behind_introducer(bytes)?;
    loop {
        match part_front(rest) {
            Part::Token(token, others) => {
                if count == room.len() {
                    return Err(refusal(bytes, others));
                }
                room[count] = token;
                count += 1;
                rest = others;
            }
            Part::Final(byte, behind) => {
                return Ok(ShortCsi {
                    count,
                    control: char::from(byte),
                    rest: behind,
                });
            }
            Part::Wrong(left) => return Err(fault(bytes, left)),
        }
    }
}

/// Reads the control sequence at the front of the bytes, its tokens into a list of its own.
///
/// ECMA-48, 5.4, in its 7-bit form: `ESC [` (1b 5b), then parameter bytes (30 to 3f), intermediate
/// bytes (20 to 2f), and one final byte (40 to 7e). The bytes from 20 to 3f are read in any order
/// here. A longest run of digits is one number, its leading zeros read; each other byte is a token.
/// `Memory` never comes for a sequence with no tokens.
///
/// ```text
/// let read = read_csi(alloc, b"\x1b[0001;?m!")?;              // 1, ';', '?' then 'm' and b"!"
/// let refused = read_csi(alloc, b"\x1b[1");                   // Truncated { at: 3 }
/// ```
pub fn read_csi<'a>(alloc: Global, bytes: &'a [u8]) -> Result<ReadCsi<'a>, ReadError>
    // What is read is a sequence, and the bytes behind it are left.
    ensures found { IfOk result (λ read.
        Reads bytes.now read.params.items read.control read.rest.now) }
    // Where a front is a sequence, this one is read, unless there is no memory for its tokens.
    ensures only { (list : List CsiParam) (final : ℕ) (rest : List ℕ)
        → Reads bytes.now list final rest → MatchResult result
        (λ read. (read.params.items ≡ list) × (read.control ≡ final) × (read.rest.now ≡ rest))
        (λ e. (e ≡ Memory) × (0 < length list)) }
    // Memory is refused only to a sequence, and any other error is the fault of bytes with none in front.
    ensures refused { IfErr result (λ e. Refuses bytes.now 0 e) }
{
    let mut params = Vec::new(alloc);
    let tail = read_csi_into(&mut params, bytes)?;
    Ok(ReadCsi {
        params,
        control: tail.control,
        rest: tail.rest,
    })
}
