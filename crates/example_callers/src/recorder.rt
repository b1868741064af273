//! A recorder: it reads control sequences, writes their normal forms, and then a line that counts their actions by sorts.
ghost use Rattle.std.specs.Prelude.{◌≡◌, length};
ghost use Rattle.example_callers.specs.Counts.{total};

use csicodec::{CSI, decode_all, encode_all};
use std::io::Write;

/// How many actions of each sort there were.
#[derive(Clone, Copy, Debug, Default)]
struct Counts {
    styles: usize,
    moves: usize,
    edits: usize,
    others: usize,
}

/// How many of the actions are of each sort.
fn count(actions: &[CSI]) -> Counts
    // The counts add up to the number of actions.
    ensures { total result ≡ length actions.now }
{
    let mut counts = Counts::default();
    for action in actions {
        match action {
            CSI::Sgr(_) => counts.styles += 1,
            CSI::Cursor(_) => counts.moves += 1,
            CSI::Edit(_) => counts.edits += 1,
            _ => counts.others += 1,
        }
    }
    counts
}

/// Writes sequences in their normal form, and how many actions of each sort they have.
pub(crate) fn run(rt: &HostRuntime, bytes: &[u8]) -> anyhow::Result<()> {
    let actions = decode_all(rt.alloc(), bytes, false)?;
    rt.stdout().write_all(&encode_all(rt.alloc(), &actions)?)?;
    println!(rt; "\n{:?}", count(&actions))?;
    Ok(())
}
