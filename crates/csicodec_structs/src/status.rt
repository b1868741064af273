//! How a call ended.
ghost use Rattle.std.specs.Prelude.{◌≡◌};
ghost use Rattle.csicodec_structs.specs.Status.{fault_of, status_number};

use csicodec_base::ReadError;

/// How a call ended, with the numbers of `enum csicodec_status`, which never change.
#[derive(Clone, Copy)]
pub enum Status {
    /// It is done.
    Done = 0,
    /// The bytes don't begin with `ESC [`.
    NotCsi = 1,
    /// A byte can't be in a control sequence.
    BadByte = 2,
    /// A number is above 2^63 - 1.
    NumberTooLarge = 3,
    /// More bytes could make them a sequence, or tell what they are.
    Truncated = 4,
    /// Memory ran out.
    Memory = 5,
    /// A struct stands for no action.
    NoAction = 6,
    /// An argument is wrong: a mode, a limit, a depth, links or a state.
    BadState = 7,
}

impl Status {
    /// The number that a C program gets.
    #[inline(always)]
    pub fn number(self) -> u32
        ensures { result ≡ status_number self }
    {
        self as u32
    }
}

/// The status of a refusal, and the place of its fault.
pub(crate) fn fault_of(error: ReadError) -> (Status, usize)
    ensures { result ≡ fault_of error }
{
    match error {
        ReadError::NotCsi { at } => (Status::NotCsi, at),
        ReadError::BadByte { at } => (Status::BadByte, at),
        ReadError::NumberTooLarge { at } => (Status::NumberTooLarge, at),
        ReadError::Truncated { at } => (Status::Truncated, at),
        ReadError::Memory => (Status::Memory, 0),
    }
}
