//! The names that things are told by, as `--only` takes them.

use crate::all_names::{NAMES, NUMBERED};
use csicodec_command::{Wrong, nearest};
use csicodec_listing::style::is_among;
use std::alloc::Global;

/// Whether something is told by this name.
fn is_known(name: &str) -> bool {
    let (first, _behind) = name.split_once(' ').unwrap_or((name, ""));
    is_among(NAMES, name) || is_among(NUMBERED, first)
}

/// What is wrong with a name that nothing is told by.
fn unknown<'a>(alloc: Global, name: &'a str) -> Wrong<'a> {
    let mut best = None;
    for known in NAMES.split(',') {
        match nearest(alloc, name, known, best) {
            Ok(next) => best = next,
            Err(_) => return Wrong::Memory,
        }
    }
    match best {
        Some((known, _)) => Wrong::NoName(name, known),
        None => Wrong::NotValue("--only", name, "names such as SGR,CUP"),
    }
}

/// Something is told by each of these names, with commas between them.
pub fn are_known<'a>(alloc: Global, names: &'a str) -> Result<(), Wrong<'a>> {
    for name in names.split(',') {
        if !is_known(name) {
            return Err(unknown(alloc, name));
        }
    }
    Ok(())
}
