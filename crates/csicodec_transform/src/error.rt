//! Why a decoding or a run over a stream ended early, and what is said of it.
ghost use Rattle.std.specs.Prelude.{◌≡◌, Option, Some};
ghost use Rattle.csicodec_transform.specs.Words.{run_refusal, decode_error_text, decode_place, run_error_text, run_status};
ghost use Rattle.csicodec_transform.specs.declared.error.DecodeError.TheVariants.{Memory};

use csicodec_base::ReadError;
use std::alloc::{AllocError, AllocFailed};
use std::error::Error;
use std::fmt;

/// Why bytes are no sequences one after the other.
///
/// ```text
/// decode_all(alloc, b"\x1b[m\x1b[1", false)    // Err of Read { start: 3, error: Truncated { at: 3 } }
/// error.at()                                  // Some(6)
/// format!(in alloc; "{error}")?               // "byte 6: truncated"
/// ```
#[derive(Clone, Copy, Debug, PartialEq, Eq)]
pub enum DecodeError {
    /// The sequence that begins at byte `start`, counted from 0, is refused; never with `ReadError::Memory`.
    Read {
        /// Where it begins.
        start: usize,
        /// Why it is refused; its place is counted from `start`.
        error: ReadError,
    },
    /// Memory ran out.
    Memory,
}

impl DecodeError {
    /// The byte of the whole input at which it is refused, counted from 0. `None` if memory ran out, and if the place is above
    /// `usize::MAX`, as only in a value that is built by hand.
    pub fn at(&self) -> Option<usize>
        ensures { result ≡ decode_place self.now }
    {
        match self {
            DecodeError::Read { start, error } => start.checked_add(error.at()?),
            DecodeError::Memory => None,
        }
    }
}

/// The byte of the whole input, counted from 0, and why it is refused.
impl fmt::Display for DecodeError {
    ghost output = { λ error. Some (decode_error_text error) };

    fn fmt<W: fmt::Write>(&self, f: &mut fmt::Formatter<W>) -> fmt::Result {
        match self {
            DecodeError::Read { start, error } => {
                let reason = error.reason();
                match error.at() {
                    Some(at) => {
                        let byte = *start as u128 + at as u128;
                        write!(f, "byte {byte}: {reason}")
                    }
                    None => f.write_str(reason),
                }
            }
            DecodeError::Memory => f.write_str("no memory"),
        }
    }
}

impl Error for DecodeError {}

impl From<AllocError> for DecodeError {
    ghost from_gives = { λ _ e. e ≡ Memory };

    fn from(_e: AllocError) -> DecodeError {
        DecodeError::Memory
    }
}

impl<T: Drop> From<AllocFailed<T>> for DecodeError {
    ghost from_gives = { λ _ e. e ≡ Memory };

    fn from(_e: AllocFailed<T>) -> DecodeError {
        DecodeError::Memory
    }
}

/// Why a run from a reader to a writer ended early. With any of these but `Write`, `normalise` has written nothing; a filter whose
/// rule writes one text for each sequence has written a prefix of what it makes of the whole input.
///
/// ```text
/// normalise(alloc, &mut input, &mut output)      // of "\x1b[m\x1b[1", Err(Decode(Read { start: 3, .. }))
/// format!(in alloc; "{error}")?                  // "byte 6: truncated"
/// ```
#[derive(Clone, Copy, Debug, PartialEq, Eq)]
pub enum RunError {
    /// A read failed: in `normalise` with any error, in a filter with any but `Interrupted`. In a filter also a reader that doesn't
    /// end after 2^64 - 1 reads.
    Read,
    /// The input isn't sequences one after the other; it holds `DecodeError::Read`. A filter never returns it.
    Decode(DecodeError),
    /// A write or the flush failed: in `normalise` with any error, in a filter with any but a write's `Interrupted`; or a write
    /// took no byte.
    Write,
    /// Memory ran out; or there are more than `isize::MAX` bytes for `normalise`.
    Memory,
}

impl fmt::Display for RunError {
    ghost output = { λ error. Some (run_error_text error) };

    fn fmt<W: fmt::Write>(&self, f: &mut fmt::Formatter<W>) -> fmt::Result {
        match self {
            RunError::Read => f.write_str("read fault"),
            RunError::Decode(error) => write!(f, "{error}"),
            RunError::Write => f.write_str("write fault"),
            RunError::Memory => f.write_str("no memory"),
        }
    }
}

impl Error for RunError {}

impl RunError {
    /// The status that a program ends with: 1 for an input that is refused, 2 for a read or a write that failed, 3 where
    /// memory ran out.
    pub fn status(&self) -> u8
        ensures { result ≡ run_status self.now }
    {
        match self {
            RunError::Read | RunError::Write => 2,
            RunError::Decode(
                DecodeError::Read {
                    error: ReadError::Memory,
                    ..
                },
            )
            | RunError::Decode(DecodeError::Memory)
            | RunError::Memory => 3,
            RunError::Decode(DecodeError::Read { .. }) => 1,
        }
    }
}

/// Out of memory stays `Memory`; a refused sequence is `Decode`.
impl From<DecodeError> for RunError {
    ghost from_gives = { λ decode run. run ≡ run_refusal decode };

    fn from(error: DecodeError) -> RunError {
        match error {
            DecodeError::Read { .. } => RunError::Decode(error),
            DecodeError::Memory => RunError::Memory,
        }
    }
}
