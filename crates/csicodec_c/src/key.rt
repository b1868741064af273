//! The key in front of what a terminal sends.
ghost use Rattle.std.specs.Prelude.{◌≡◌, ◌⊎◌, List, IfOk, option_map, option_and_then};
ghost use Rattle.bstr.specs.Utf8.{decoded};
ghost use Rattle.csicodec_keys.specs.{Forms.by, Forms.read_char, Keys.stroke_of};
ghost use Rattle.csicodec_c.specs.Key.{Answers, IsKey, IsNoKey, key_of, told, used_by, without};
ghost use Rattle.csicodec_keys.specs.declared.key.Encoding.TheVariants as encoding;
ghost use Rattle.csicodec_structs.specs.declared.status.Status.TheVariants as status;

use bitflags::Flags;
use bstr::decode_utf8;
use csicodec_events::{Dialect, Event, Events, InputEvent, Sent};
use csicodec_keys::{Encoding, Key, read, read_char};
use csicodec_spans::LIMIT;
use csicodec_structs::{Status, fill};
use csicodec_tokens::CsiParam;
use std::alloc::{AllocError, Global};

/// The key in front of bytes.
#[repr(C)]
#[derive(Clone, Copy)]
pub struct FrontKey {
    /// The number of a `Status`: `Done`, `NoAction` where it is no key, `Truncated` where that depends on later bytes, or `Memory`.
    pub status: u32,
    /// Which key.
    pub code: u32,
    /// Its character, or the number of a function key.
    pub value: u32,
    /// What is held down with it.
    pub modifiers: u32,
    /// What happens to it.
    pub event: u32,
    /// How the terminal said it.
    pub encoding: u32,
    /// How many characters it types.
    pub typed: usize,
    /// How many bytes it has, or the event that is no key.
    pub used: usize,
}

fn without(why: Status, used: usize) -> FrontKey
    ensures { result ≡ without why used }
{
    FrontKey {
        status: why.number(),
        code: 0,
        value: 0,
        modifiers: 0,
        event: 0,
        encoding: 0,
        typed: 0,
        used,
    }
}

fn told(encoding: Encoding, key: &Key, used: usize) -> FrontKey
    ensures { result ≡ told encoding (stroke_of key.now) used }
{
    FrontKey {
        status: Status::Done.number(),
        code: u32::from(key.code.tag()),
        value: key.code.value(),
        modifiers: u32::from(key.modifiers.bits()),
        event: key.event as u32,
        encoding: encoding as u32,
        typed: key.text.len(),
        used,
    }
}

/// The numbers of characters.
fn numbers_of(alloc: Global, text: &[char]) -> Result<Vec<u32>, AllocError>
    ensures { IfOk result (λ numbers. numbers.items ≡ text.now) }
{
    let mut numbers = Vec::new(alloc);
    for character in text {
        numbers.push(*character as u32)?;
    }
    Ok(numbers)
}

/// The key of the first character.
fn typed(bytes: &[u8]) -> Option<(Encoding, Key)>
    ensures { option_map (λ r. (r.0, stroke_of r.1)) result
        ≡ by encoding.Legacy (option_and_then read_char (decoded bytes.now).char) }
{
    let key = read_char(decode_utf8(bytes).0?)?;
    Some((Encoding::Legacy, key))
}

/// The key of an event.
fn key_of(sent: InputEvent, params: &[CsiParam], bytes: &[u8]) -> Option<(Encoding, Key)>
    ensures { option_map (λ r. (r.0, stroke_of r.1)) result ≡ key_of sent params.now bytes.now }
{
    match sent {
        InputEvent::Output(Event::Text) => typed(bytes),
        _ => read(sent, params),
    }
}

/// How many of its bytes are the key.
fn used_by(sent: InputEvent, bytes: &[u8]) -> usize
    ensures { result ≡ used_by sent bytes.now }
{
    match sent {
        InputEvent::Output(Event::Text) => decode_utf8(bytes).1,
        _ => bytes.len(),
    }
}

/// Puts what the key of an event types, where it fits; nothing where memory ran out. Of a sequence that isn't over so many bytes were
/// looked at.
fn put_key(
    alloc: Global,
    sent: Sent<'_>,
    params: &[CsiParam],
    looked: usize,
    text: &mut [u32],
) -> FrontKey
    ensures { Answers sent.entry.event params.now sent.entry.bytes.now looked text.old text.new result
        ⊎ ((result ≡ without status.Memory 0) × (text.new ≡ text.old)) }
{
    let [_, ..] = sent.bytes else {
        return without(Status::NoAction, looked);
    };
    let used = used_by(sent.event, sent.bytes);
    let Some((encoding, key)) = key_of(sent.event, params, sent.bytes) else {
        return without(Status::NoAction, used);
    };
    let Ok(numbers) = numbers_of(alloc, key.text.as_slice()) else {
        return without(Status::Memory, 0);
    };
    fill(text, numbers.as_slice());
    told(encoding, &key, used)
}

/// The key in front of bytes of input, of which nothing came before, and the characters that it types, where they fit. Where the bytes
/// could go on, as ESC alone, and no more of them come for now, which a `more` of 0 says, it is what they are.
#[unsafe(no_mangle)]
pub extern "C" fn csicodec_key(alloc: Global, more: u32, bytes: &[u8], text: &mut [u32]) -> FrontKey
    ensures { IsKey more LIMIT bytes.now text.old text.new result
        ⊎ IsNoKey more LIMIT bytes.now text.old text.new result }
{
    let mut params = Vec::new(alloc);
    let mut events = Events::new(LIMIT);
    let Ok(first) = events.next_in(Dialect::Input, bytes, &mut params) else {
        return without(Status::Memory, 0);
    };
    if let Some(sent) = first {
        return put_key(alloc, sent, params.as_slice(), events.looked, text);
    }
    if more != 0 {
        return without(Status::Truncated, 0);
    }
    let mut paused = Events::new(LIMIT);
    match paused.pause(bytes) {
        Some(sent) => put_key(alloc, sent, &[], paused.looked, text),
        None => without(Status::Truncated, 0),
    }
}
