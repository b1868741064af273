//! Six callers of the library, each in a file of its own.
//!
//! A line of standard input names one of them, and has the bytes that it gets, with `\e` for ESC and else as `bstr` spells bytes. The program
//! writes what that caller makes of them. Behind `measure` stand a call, and how often it is done, ahead of the bytes.
#![tactic(auto)]

mod emulator;
mod keys;
mod measure;
mod recorder;
mod renderer;
mod sequences;
mod styles;

use bstr::ByteVec;
use std::alloc::{AllocError, Global};

/// The bytes that are spelled so.
pub(crate) fn bytes_of(alloc: Global, spelled: &str) -> Result<Vec<u8>, AllocError> {
    let escaped = spelled.replace(alloc, "\\e", "\\x1b")?;
    Vec::unescape_bytes(alloc, escaped.as_str())
}

/// Runs the caller that a line names.
fn run(rt: &HostRuntime, line: &str) -> anyhow::Result<()> {
    let (name, spelled) = line.split_once(' ').unwrap_or((line, ""));
    if name == "measure" {
        return measure::run(rt, spelled);
    }
    let bytes = bytes_of(rt.alloc(), spelled)?;
    match name {
        "emulator" => emulator::run(rt, &bytes),
        "keys" => keys::run(rt, &bytes),
        "recorder" => recorder::run(rt, &bytes),
        "renderer" => renderer::run(rt, &bytes),
        "sequences" => sequences::run(rt, &bytes),
        "styles" => Ok(styles::run(rt.alloc(), &mut bytes.as_slice(), &mut rt.stdout())?),
        _ => Err(anyhow::Error::msg(
            "a line begins with emulator, keys, measure, recorder, renderer, sequences or styles",
        )),
    }
}

fn main(rt: HostRuntime) -> anyhow::Result<()> {
    for line in rt.lines(rt.alloc()) {
        run(&rt, line?.as_str())?;
    }
    Ok(())
}
