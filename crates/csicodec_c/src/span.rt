//! The span at the front of a stream whose state the caller keeps, and the code of an escape sequence.
ghost use Rattle.std.specs.Prelude.{◌≡◌, ◌⊎◌, Some};
ghost use Rattle.csicodec_c.specs.Span.{IsCode, IsDone, IsRefused, IsWaiting, refused};

use crate::filter::{mode_at, number_of};
use csicodec::Esc;
use csicodec_spans::next_span;
use csicodec_structs::Status;

/// What stands at the front of a stream.
#[repr(C)]
#[derive(Clone, Copy)]
pub struct Spanned {
    /// The number of a `Status`: `Done` where it is known, `Truncated` where it depends on what follows, `BadState` where the mode
    /// is none, or the limit is 0.
    pub status: u32,
    /// Of `Done`, what the bytes are.
    pub kind: u32,
    /// Of `Done`, the mode behind them.
    pub mode: u32,
    /// Of `Done`, how many they are: 1 or more.
    pub used: usize,
}

fn refused(why: Status) -> Spanned
    ensures { result ≡ refused why }
{
    Spanned {
        status: why.number(),
        kind: 0,
        mode: 0,
        used: 0,
    }
}

/// The span at the front of bytes that stand in a mode.
#[unsafe(no_mangle)]
pub extern "C" fn csicodec_span(mode: u32, limit: usize, bytes: &[u8]) -> Spanned
    ensures { IsDone mode limit bytes.now result
        ⊎ (IsWaiting mode limit bytes.now result ⊎ IsRefused mode limit result) }
{
    let Some(mode) = mode_at(mode) else {
        return refused(Status::BadState);
    };
    if limit == 0 {
        return refused(Status::BadState);
    }
    match next_span(limit, mode, bytes) {
        Some(cut) => Spanned {
            status: Status::Done.number(),
            kind: cut.span.kind as u32,
            mode: number_of(cut.mode),
            used: cut.span.bytes.len(),
        },
        None => refused(Status::Truncated),
    }
}

/// The number of the code that these bytes are behind ESC, where 0 is no intermediate byte. Where no code is written so it is 0.
#[unsafe(no_mangle)]
pub extern "C" fn csicodec_esc(intermediate: u8, control: u8) -> u32
    ensures { IsCode intermediate control result }
{
    match Esc::parse(Some(intermediate), control) {
        Esc::Code(code) => u32::from(code.to_u16()),
        Esc::Unspecified { .. } => 0,
    }
}
