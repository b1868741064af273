//! One object, and the line that it stands in.
ghost use Rattle.std.specs.Prelude.{◌≡◌, ◌++◌, ℕ, List, Err, IfErr, IfOk, Ok, OnErr, OnOk, Some};
ghost use Rattle.csicodec_listing.specs.Object.{IsRefusalOf, IsTold, fault_text, of_hex, of_line, of_object, of_text};
ghost use Rattle.csicodec_listing.specs.{declared.object.Fault.TheVariants.NoSequence, Lines.Gives, declared.object.Refusal.TheVariants.Memory};
ghost use Rattle.hex.specs.Hex.{IsBytes};
ghost use Rattle.serde_json.specs.{Find.as_str, View.view};

use crate::glance::Glance;
use hex::FromHexError;
use serde_json::Value;
use std::alloc::{AllocError, Global};
use std::fmt;

/// What is wrong with a line.
#[derive(Clone, Copy)]
pub enum Fault {
    /// It is no object of JSON (RFC 8259).
    NoObject,
    /// Its `text` is no string.
    NoText,
    /// Its `hex` is no string of hexadecimal digits, two for each byte.
    NoHex,
    /// It has `text` and `hex`.
    Both,
    /// It has neither, but actions, which by themselves give no bytes here.
    NoSequence,
    /// It has more bytes than a line may have.
    TooLong,
    /// It has more values than a line has that is read for its members.
    TooMany,
}

impl fmt::Display for Fault {
    ghost output = { λ fault. Some (fault_text fault) };

    fn fmt<W: fmt::Write>(&self, f: &mut fmt::Formatter<W>) -> fmt::Result {
        let text = match self {
            Fault::NoObject => "no object of JSON",
            Fault::NoText => "text is no string",
            Fault::NoHex => "hex is no string of digits in pairs",
            Fault::Both => "both text and hex",
            Fault::NoSequence => "neither text nor hex, and no sequences have these actions",
            Fault::TooLong => "more than 16 MiB",
            Fault::TooMany => "more than 262144 values",
        };
        f.write_str(text)
    }
}

/// Why a line gives no bytes.
#[derive(Clone, Copy)]
pub enum Refusal {
    /// What is wrong with it.
    Line(Fault),
    /// Memory ran out.
    Memory,
}

impl From<AllocError> for Refusal {
    ghost from_gives = { λ _ refusal. refusal ≡ Memory };

    fn from(_error: AllocError) -> Refusal {
        Refusal::Memory
    }
}

/// The bytes of a member `text`: its UTF-8.
fn bytes_of_text(alloc: Global, text: &Value) -> Result<Vec<u8>, Refusal>
    ensures bytes { IfOk result (λ v. of_text (as_str (view text.now)) ≡ Ok v.items) }
    ensures told { IfErr result (λ e. IsTold e (of_text (as_str (view text.now)))) }
{
    match text.as_str() {
        Some(text) => Ok(Vec::from_slice(alloc, text.as_bytes())?),
        None => Err(Refusal::Line(Fault::NoText)),
    }
}

/// The bytes of a member `hex`: two digits for each.
fn bytes_of_hex(alloc: Global, hex: &Value) -> Result<Vec<u8>, Refusal>
    ensures bytes { IfOk result (λ v. of_hex (as_str (view hex.now)) ≡ Ok v.items) }
    ensures told { IfErr result (λ e. IsTold e (of_hex (as_str (view hex.now)))) }
{
    let Some(digits) = hex.as_str() else {
        return Err(Refusal::Line(Fault::NoHex));
    };
    match hex::decode(alloc, digits) {
        Ok(bytes) => Ok(bytes),
        Err(FromHexError::OutOfMemory) => Err(Refusal::Memory),
        Err(_) => Err(Refusal::Line(Fault::NoHex)),
    }
}

/// The bytes that an object stands for: those of its `text` or of its `hex`; none where it has neither, nor `actions`, and where it is of
/// the kind `totals`, in which `text` is a sum. Other members mean nothing here.
pub fn bytes_of(alloc: Global, object: &Value) -> Result<Vec<u8>, Refusal>
    ensures bytes { IfOk result (λ v. of_object (view object.now) ≡ Ok v.items) }
    ensures told { IfErr result (λ e. IsTold e (of_object (view object.now))) }
{
    if !object.is_object() {
        return Err(Refusal::Line(Fault::NoObject));
    }
    if object.get("kind").and_then(Value::as_str) == Some("totals") {
        return Ok(Vec::new(alloc));
    }
    match (object.get("text"), object.get("hex")) {
        (Some(text), None) => bytes_of_text(alloc, text),
        (None, Some(hex)) => bytes_of_hex(alloc, hex),
        (None, None) if object.get("actions").is_some() => { Err(Refusal::Line(Fault::NoSequence)) }
        (None, None) => Ok(Vec::new(alloc)),
        (Some(_), Some(_)) => Err(Refusal::Line(Fault::Both)),
    }
}

/// The bytes that a line stands for, with or without its end: those of its object.
pub fn bytes_of_line(alloc: Global, line: &[u8]) -> Result<Vec<u8>, Refusal>
    ensures bytes { IfOk result (λ v. of_line line.now ≡ Ok v.items) }
    ensures told { IfErr result (λ e. IsTold e (of_line line.now)) }
{
    let Ok(text) = std::str::from_utf8(line) else {
        return Err(Refusal::Line(Fault::NoObject));
    };
    match Value::from_str(alloc, text) {
        Ok(object) => bytes_of(alloc, &object),
        Err(error) if error.is_memory() => Err(Refusal::Memory),
        Err(_) => Err(Refusal::Line(Fault::NoObject)),
    }
}

/// What finds bytes for an object that has actions alone.
pub trait Finds {
    /// The bytes that have the actions of a line's object, one behind the other, if each has a text.
    fn bytes_of_line(&mut self, line: &[u8]) -> Result<Option<Vec<u8>>, AllocError>;
}

/// The most bytes of a line for which some are found, 8 MiB: all actions of the longest control sequence are less.
const MOST: usize = 8_388_608;

/// The numbers of bytes are those of bytes, which a contract is told here.
fn are_bytes(bytes: &[u8])
    ensures { IsBytes bytes.now }
{}

/// The bytes that a line gives: those that it stands for, or that are found where it has actions alone.
fn bytes_given<F: Finds>(alloc: Global, finder: &mut F, line: &[u8]) -> Result<Vec<u8>, Refusal>
    ensures bytes { IfOk result (λ v. Gives line.now v.items) }
    ensures told { IfErr result (λ e. IsTold e (of_line line.now)) }
{
    match bytes_of_line(alloc, line) {
        Err(Refusal::Line(Fault::NoSequence)) if line.len() <= MOST => {
            match finder.bytes_of_line(line)? {
                Some(bytes) => {
                    are_bytes(&bytes);
                    Ok(bytes)
                }
                None => Err(Refusal::Line(Fault::NoSequence)),
            }
        }
        given => given,
    }
}

/// Appends the bytes that a line gives. One of many values isn't read for its members: these would take much more memory than it does.
#[tactic(auto, using(crate::proofs::Joined::refusal_of))]
pub(crate) fn append_bytes<F: Finds>(
    alloc: Global,
    glance: &mut Glance,
    finder: &mut F,
    line: &[u8],
    out: &mut Vec<u8>,
) -> Result<(), Refusal>
    ensures bytes { OnOk result ((text : List ℕ) × Gives line.now text
        × (out.new.items ≡ out.old.items ++ text)) }
    ensures told { IfErr result (λ e. IsRefusalOf e line.now) }
    ensures kept { OnErr result (out.new.items ≡ out.old.items) }
{
    if glance.append_text(line, out)? {
        return Ok(());
    }
    if glance.has_many(line)? {
        return Err(Refusal::Line(Fault::TooMany));
    }
    let bytes = bytes_given(alloc, finder, line)?;
    Ok(out.extend_from_slice(&bytes)?)
}
