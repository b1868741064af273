//! The tokens of a parameter list, and how they print.
ghost use Rattle.std.specs.{Prelude.◌≡◌, Prelude.◌+◌, Prelude.◌<◌, Prelude.Some, Prelude.Ok, Prelude.IsNone, Prelude.IfSome, Prelude.OkIff, Fmt.decimal, Option.ok_or};
ghost use Rattle.csicodec_tokens.specs.{OneBased.most, OneBased.number_or, Param.number_of, Param.token_text};

use crate::refusal::{NotOneBased, NotSpelled};
use std::fmt;
use std::marker::Model;

/// One token of what stands between `ESC [` and the final byte of a control sequence (ECMA-48, 5.4).
///
/// The bytes `ESC [ 3 8 ; 0 5 ; 1 m` have the tokens 38, `;`, 5, `;` and 1.
#[derive(Clone, Copy, Debug, PartialEq, Eq)]
pub enum CsiParam {
    /// The number of a longest run of digits. What is read is from 0 to `i64::MAX`, and doesn't tell
    /// how many zeros led it; a number below 0 can be made and printed, and is never read.
    Integer(i64),
    /// Any other byte by itself. What is read is one of `:` `;` `<` `=` `>` `?` or an intermediate
    /// byte from `' '` to `'/'`; any byte can be made and printed.
    P(u8),
}

impl CsiParam {
    /// The number of an `Integer`, and `None` for a `P`, also where its byte is a digit.
    pub fn as_integer(&self) -> Option<i64>
        ensures { result ≡ number_of self.now }
    {
        match self {
            CsiParam::Integer(number) => Some(*number),
            CsiParam::P(_) => None,
        }
    }
}

/// Writes the decimal number, with a `-` below 0, or the character whose number is the byte, U+0000
/// to U+00FF.
impl fmt::Display for CsiParam {
    ghost output = { λ token. Some (token_text token) };

    fn fmt<W: fmt::Write>(&self, f: &mut fmt::Formatter<W>) -> fmt::Result {
        match self {
            CsiParam::Integer(number) => write!(f, "{number}"),
            CsiParam::P(byte) => f.write_char(char::from(*byte)),
        }
    }
}

/// A number from 1 to 4294967295: a line, a column or a margin of the page, in cells, of which the first is 1.
///
/// ```text
/// OneBased::new(5).as_zero_based()      // 4
/// OneBased::from_zero_based(0)          // 1, the first line or column
/// OneBased::try_from(0)                 // Err(NotOneBased)
/// ```
#[derive(Clone, Copy, PartialEq, Eq, Debug)]
pub struct OneBased {
    value: u32,
}

impl Model for OneBased {
    ghost use Rattle.std.specs.Prelude.{ℕ, ◌<◌};

    ghost Value = { ℕ };

    ghost view = { λ number. number.value };

    ghost invariant = { λ number. 0 < number.value };

    ghost inverse = { λ n. record { value = n } };
}

impl OneBased {
    /// This number, which isn't 0.
    pub fn new(value: u32) -> Self
        requires { 0 < value }
        ensures { result ≡ value }
    {
        OneBased { value }
    }

    /// The number that counts from 1, of one that counts from 0: one more. 4294967295 has none, and whoever calls it shows
    /// that it isn't that.
    pub fn from_zero_based(value: u32) -> Self
        requires { value < 4294967295 }
        ensures { result ≡ value + 1 }
    {
        OneBased { value: value + 1 }
    }

    /// The number of a parameter: 0 gives 1, and 1 to 4294967295 give themselves. `NotSpelled` for any other number,
    /// and for a byte.
    ///
    /// ```text
    /// OneBased::from_esc_param(&CsiParam::Integer(0))      // Ok, 1
    /// OneBased::from_esc_param(&CsiParam::P(b';'))         // Err(NotSpelled)
    /// ```
    pub fn from_esc_param(param: &CsiParam) -> Result<Self, NotSpelled>
        ensures { result ≡ ok_or (number_or 1 param.now) (record {}) }
    {
        match param {
            CsiParam::Integer(0) => Ok(OneBased::new(1)),
            CsiParam::Integer(number @ 1..=0xffff_ffff) => Ok(OneBased::new(*number as u32)),
            CsiParam::Integer(_) | CsiParam::P(_) => Err(NotSpelled),
        }
    }

    /// The same, but 0 gives 4294967295, as where a margin that is left out is the last line there is.
    pub fn from_esc_param_with_big_default(param: &CsiParam) -> Result<Self, NotSpelled>
        ensures { result ≡ ok_or (number_or most param.now) (record {}) }
    {
        match param {
            CsiParam::Integer(0) => Ok(OneBased::new(u32::MAX)),
            _ => OneBased::from_esc_param(param),
        }
    }

    /// The number of a parameter that may be left out, which gives 1. `NotSpelled` where `from_esc_param` refuses it.
    pub fn from_optional_esc_param(param: Option<&CsiParam>) -> Result<Self, NotSpelled>
        ensures none { IsNone param.entry → result ≡ Ok 1 }
        ensures some { IfSome param.entry (λ token.
            result ≡ ok_or (number_or 1 token.now) (record {})) }
    {
        match param {
            None => Ok(OneBased::new(1)),
            Some(param) => OneBased::from_esc_param(param),
        }
    }

    /// The number, 1 to 4294967295.
    pub fn as_one_based(&self) -> u32
        ensures value { result ≡ self.now }
        ensures above { 0 < result }
    {
        self.value
    }

    /// One less, for counting from 0: 0 to 4294967294.
    pub fn as_zero_based(&self) -> u32
        ensures { result + 1 ≡ self.now }
    {
        self.value - 1
    }
}

/// The number itself. 0 is refused.
impl TryFrom<u32> for OneBased {
    type Error = NotOneBased;

    ghost try_from_gives = { λ value result. OkIff result (0 < value) value };

    fn try_from(value: u32) -> Result<Self, NotOneBased> {
        if value == 0 {
            return Err(NotOneBased);
        }
        Ok(OneBased { value })
    }
}

/// Writes the decimal number.
impl fmt::Display for OneBased {
    ghost output = { λ number. Some (decimal number) };

    fn fmt<W: fmt::Write>(&self, f: &mut fmt::Formatter<W>) -> fmt::Result {
        let value = self.value;
        write!(f, "{value}")
    }
}
