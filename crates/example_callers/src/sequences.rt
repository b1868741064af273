//! The loop over the sequences of a whole input.

use csicodec::{CSI, ReadError, Sgr, encode, read_csi_into};
use std::alloc::Global;
use std::io::Write;

/// The normal form of the sequences, without what sets or ends blinking.
fn without_blink(alloc: Global, bytes: &[u8]) -> Result<Vec<u8>, ReadError> {
    let mut out = Vec::new(alloc);
    let mut params = Vec::new(alloc);
    let mut rest = bytes;
    'sequences: while !rest.is_empty() {
        let tail = read_csi_into(&mut params, rest)?;
        for action in CSI::parse(alloc, &params, false, tail.control) {
            let action = action?;
            if !matches!(&action, CSI::Sgr(Sgr::Blink(_))) {
                encode(&action, &mut out)?;
            }
        }
        rest = tail.rest;
    }
    Ok(out)
}

/// Writes sequences without blinking.
pub(crate) fn run(rt: &HostRuntime, bytes: &[u8]) -> anyhow::Result<()> {
    rt.stdout().write_all(&without_blink(rt.alloc(), bytes)?)?;
    println!(rt; "")?;
    Ok(())
}
