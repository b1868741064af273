//! A renderer, which builds its actions by hand: the status line of an editor.
ghost use Rattle.std.specs.{Prelude.false, Prelude.map, Prelude.IfOk, List.All};
ghost use Rattle.csicodec_parser.specs.{ActionOf.action_of, Canonical.Canonical};

use csicodec::{
    AnsiColor, CSI, ColorSpec, Cursor, DecPrivateMode, DecPrivateModeCode, Edit, EraseInLine,
    Intensity, Mode, OneBased, Sgr, encode,
};
use std::alloc::{AllocError, Global};
use std::io::Write;

/// The actions that clear a line and set the pen of what is written on it.
fn status_line(alloc: Global, line: OneBased, ground: AnsiColor) -> Result<Vec<CSI>, AllocError>
    // Each of them is read back from its own text.
    ensures { IfOk result (λ all.
        All (λ action. Canonical action false) (map action_of all.items)) }
{
    let col = OneBased::new(1);
    let all = vec![in alloc;
        CSI::from(Cursor::Position { line, col }),
        CSI::from(Edit::EraseInLine(EraseInLine::EraseLine)),
        CSI::from(Sgr::Background(ColorSpec::from(ground))),
        CSI::from(Sgr::Intensity(Intensity::Bold)),
    ]?;
    Ok(all)
}

/// Appends the text of an action that somebody else built, if it is read back as this action: `Up(0)` isn't.
fn checked(alloc: Global, action: &CSI, out: &mut Vec<u8>) -> Result<bool, AllocError> {
    if !action.is_canonical(alloc, false)? {
        return Ok(false);
    }
    encode(action, out)?;
    Ok(true)
}

/// Draws the status line of this file.
pub(crate) fn run(rt: &HostRuntime, name: &[u8]) -> anyhow::Result<()> {
    let alloc = rt.alloc();
    let mut out = Vec::new(alloc);
    let line = OneBased::from_zero_based(23);
    for action in &status_line(alloc, line, AnsiColor::Navy)? {
        encode(action, &mut out)?;
    }
    out.extend_from_slice(name)?;
    encode(&CSI::from(Sgr::Reset), &mut out)?;
    for count in [0, 3] {
        let _drawn = checked(alloc, &CSI::from(Cursor::Up(count)), &mut out)?;
    }
    let cursor = DecPrivateMode::from(DecPrivateModeCode::ShowCursor);
    encode(&CSI::from(Mode::SetDecPrivateMode(cursor)), &mut out)?;
    rt.stdout().write_all(&out)?;
    println!(rt; "")?;
    Ok(())
}
