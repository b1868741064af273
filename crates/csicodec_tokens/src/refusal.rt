//! Why a parameter, or a list of them, was refused.
ghost use Rattle.std.specs.Prelude.{◌≡◌};
ghost use Rattle.csicodec_tokens.specs.declared.refusal.ParseRefusal.TheVariants.{Memory};

use std::alloc::AllocError;

/// The refusal "this is no spelling": the token, or the list of them, is none that a value of the
/// type asked for is written as.
#[derive(Clone, Copy, Debug, PartialEq, Eq)]
pub struct NotSpelled;

/// The refusal of the number 0 where lines, columns and margins are counted from 1.
#[derive(Clone, Copy, Debug, PartialEq, Eq)]
pub struct NotOneBased;

/// Why no value was made of a parameter list, where making one takes memory.
///
/// ```text
/// let read = read_csi(alloc, b"\x1b[1:2t")?;             // 1, ':', 2 then 't'
/// Cracked::parse(alloc, &read.params)                    // Err(ParseRefusal::NotSpelled)
/// ```
#[derive(Clone, Copy, Debug, PartialEq, Eq)]
pub enum ParseRefusal {
    /// The list is none that a value of the type asked for is written as.
    NotSpelled,
    /// Out of memory. `Cracked::parse` says it only of a list that has fields, and `XtSmGraphics::parse` only of one that it
    /// reads.
    Memory,
}

impl From<AllocError> for ParseRefusal {
    ghost from_gives = { λ _ e. e ≡ Memory };

    fn from(_e: AllocError) -> ParseRefusal {
        ParseRefusal::Memory
    }
}
