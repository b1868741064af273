//! A call of the library over control sequences, done as often as a line says, so that anybody can measure what it costs.

use crate::bytes_of;
use csicodec::{CSI, ReadCsi, decode_all, encode_all, normalise, read_csi};
use std::alloc::Global;

/// `decode_all` of all bytes: the actions.
fn decode(alloc: Global, bytes: &[u8], times: u64) -> anyhow::Result<u64> {
    let mut count = 0u64;
    for _ in 0..times {
        let actions = decode_all(alloc, bytes, false)?;
        count = count.wrapping_add(actions.len() as u64);
    }
    Ok(count)
}

/// Each sequence of the bytes, with its parameters.
fn sequences(alloc: Global, bytes: &[u8]) -> anyhow::Result<Vec<ReadCsi<'_>>> {
    let mut all = Vec::new(alloc);
    let mut rest = bytes;
    for _ in 0..bytes.len() {
        if rest.is_empty() {
            break;
        }
        let read = read_csi(alloc, rest)?;
        rest = read.rest;
        all.push(read)?;
    }
    Ok(all)
}

/// How many actions a sequence has.
#[inline(never)]
fn count_actions(alloc: Global, read: &ReadCsi<'_>) -> anyhow::Result<u64> {
    let mut count = 0u64;
    for action in CSI::parse(alloc, &read.params, false, read.control) {
        let _action = action?;
        count = count.wrapping_add(1);
    }
    Ok(count)
}

/// `CSI::parse` of the parameters of each sequence, which are read once, before: the actions.
fn parse(alloc: Global, bytes: &[u8], times: u64) -> anyhow::Result<u64> {
    let all = sequences(alloc, bytes)?;
    let mut count = 0u64;
    for _ in 0..times {
        for read in &all {
            count = count.wrapping_add(count_actions(alloc, read)?);
        }
    }
    Ok(count)
}

/// `encode_all` of all actions, which are decoded once, before: the bytes.
fn encode(alloc: Global, bytes: &[u8], times: u64) -> anyhow::Result<u64> {
    let actions = decode_all(alloc, bytes, false)?;
    let mut count = 0u64;
    for _ in 0..times {
        let text = encode_all(alloc, &actions)?;
        count = count.wrapping_add(text.len() as u64);
    }
    Ok(count)
}

/// `normalise` of all bytes, into memory: the bytes that come out.
fn normalised(alloc: Global, bytes: &[u8], times: u64) -> anyhow::Result<u64> {
    let mut text = Vec::new(alloc);
    let mut count = 0u64;
    for _ in 0..times {
        text.clear();
        let mut input = bytes;
        normalise(alloc, &mut input, &mut text)?;
        count = count.wrapping_add(text.len() as u64);
    }
    Ok(count)
}

/// Writes how many actions or bytes came out, of all times.
pub(crate) fn run(rt: &HostRuntime, words: &str) -> anyhow::Result<()> {
    let (call, behind) = words.split_once(' ').unwrap_or((words, ""));
    let (times, spelled) = behind.split_once(' ').unwrap_or((behind, ""));
    let times = times.parse::<u64>()?;
    let bytes = bytes_of(rt.alloc(), spelled)?;
    let count = match call {
        "decode" => decode(rt.alloc(), &bytes, times)?,
        "parse" => parse(rt.alloc(), &bytes, times)?,
        "encode" => encode(rt.alloc(), &bytes, times)?,
        "normalise" => normalised(rt.alloc(), &bytes, times)?,
        _ => return Err(anyhow::Error::msg("a call is decode, parse, encode or normalise")),
    };
    println!(rt; "{count}")?;
    Ok(())
}
