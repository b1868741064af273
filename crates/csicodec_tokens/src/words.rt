//! What each refusal says.
ghost use Rattle.std.specs.Prelude.{◌≡◌, Some};
ghost use Rattle.csicodec_tokens.specs.Words.{not_one_based_text, not_spelled_text, parse_refusal_text, place, read_error_text, reason};

use crate::reader::ReadError;
use crate::refusal::{NotOneBased, NotSpelled, ParseRefusal};
use std::error::Error;
use std::fmt;

impl ReadError {
    /// The byte at which the sequence is refused, counted from its first one. None where memory ran out.
    pub fn at(&self) -> Option<usize>
        ensures { result ≡ place self.now }
    {
        match self {
            ReadError::NotCsi { at }
            | ReadError::BadByte { at }
            | ReadError::NumberTooLarge { at }
            | ReadError::Truncated { at } => Some(*at),
            ReadError::Memory => None,
        }
    }

    /// Why it is refused, in words.
    pub fn reason(&self) -> &'static str
        ensures { result.now ≡ reason self.now }
    {
        match self {
            ReadError::NotCsi { .. } => "not a sequence",
            ReadError::BadByte { .. } => "bad byte",
            ReadError::NumberTooLarge { .. } => "number too large",
            ReadError::Truncated { .. } => "truncated",
            ReadError::Memory => "no memory",
        }
    }
}

/// The byte, counted from the first of the sequence, and why it is refused.
impl fmt::Display for ReadError {
    ghost output = { λ error. Some (read_error_text 0 error) };

    fn fmt<W: fmt::Write>(&self, f: &mut fmt::Formatter<W>) -> fmt::Result {
        let reason = self.reason();
        match self.at() {
            Some(at) => write!(f, "byte {at}: {reason}"),
            None => f.write_str(reason),
        }
    }
}

impl Error for ReadError {}

impl fmt::Display for NotSpelled {
    ghost output = { λ _. Some not_spelled_text };

    fn fmt<W: fmt::Write>(&self, f: &mut fmt::Formatter<W>) -> fmt::Result {
        f.write_str("not a spelling of any value")
    }
}

impl Error for NotSpelled {}

impl fmt::Display for NotOneBased {
    ghost output = { λ _. Some not_one_based_text };

    fn fmt<W: fmt::Write>(&self, f: &mut fmt::Formatter<W>) -> fmt::Result {
        f.write_str("0 where counting begins at 1")
    }
}

impl Error for NotOneBased {}

impl fmt::Display for ParseRefusal {
    ghost output = { λ refusal. Some (parse_refusal_text refusal) };

    fn fmt<W: fmt::Write>(&self, f: &mut fmt::Formatter<W>) -> fmt::Result {
        match self {
            ParseRefusal::NotSpelled => write!(f, "{NotSpelled}"),
            ParseRefusal::Memory => f.write_str("no memory"),
        }
    }
}

impl Error for ParseRefusal {}
