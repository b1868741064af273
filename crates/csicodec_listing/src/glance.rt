//! A line in the form that `explain --json` gives it, of which the text is read and nothing else kept.
ghost use Rattle.std.specs.Prelude.{◌≡◌, ◌<◌, ◌++◌, [], ◌∷◌, ℕ, List, length, IfOk, IfSome, IsFalse, IsSome, IsTrue, IsUtf8, OnErr, OnOk, Ok, Some, option_map};
ghost use Rattle.json.specs.{Lex.tokens, Print.IsNumber, Json.items, Json.members, Json.value, Reads.token_of};
ghost use Rattle.serde_json.specs.{Data.Data, Data.Items, Data.Members, Data.no_members, Data.put, Read.converted, Read.number_of, Read.of_items, Read.of_json};
ghost use Rattle.serde_json.specs.{Read.of_members};
ghost use Rattle.csicodec_listing.specs.{Object.is_value, Object.most_values, Object.of_line, Object.of_object, Object.values_in, Private.Glance.Follow};
ghost use Rattle.csicodec_listing.specs.{Private.Glance.IsPlaced, Private.Glance.Says, Private.Glance.Stands};
ghost use Rattle.json.specs.Token as token;

use crate::rests::Rests;
use fast_float::Numeral;
use json::{Invalid, Reader, Scratch, Token, is_number};
use memchr::memchr;
use std::alloc::{AllocError, Global};

/// How deep arrays and objects may nest in the object of a line: as deep as serde_json reads them.
const DEPTH: usize = 126;

/// The most values of a line that is read for its members.
const MOST: usize = 262_144;

/// Whether a token begins a value, or is one.
fn is_value(token: &Token<'_>) -> bool
    ensures { result ≡ is_value (token_of token.now) }
{
    !matches!(token, Token::EndObject | Token::EndArray | Token::Key(_))
}

/// Whether there are more values than that.
fn are_many(reader: &mut Reader<'_>) -> bool
    ensures { IsTrue result → most_values < values_in reader.old }
{
    let mut count = 0;
    'tokens: while let Some(token) = reader.next() {
        if is_value(&token) {
            if count == MOST {
                return true;
            }
            count += 1;
        }
    }
    false
}

/// Whether a number has digits alone, and is less than 2^64. Any other is left to serde_json.
fn is_small(number: &str) -> bool
    ensures { IsTrue result → IsSome (number_of number.now) }
{
    let bytes = number.as_bytes();
    if bytes.is_empty() || bytes[0] == b'-' {
        return false;
    }
    Numeral::scan(bytes).to_u64().is_some()
}

/// Passes a value in which arrays and objects nest no deeper than that.
#[cycle(pass)]
#[inline(always)]
fn pass(reader: &mut Reader<'_>, depth: usize) -> Result<(), Invalid>
    ensures value { OnOk result ((d : Data)
        × (converted of_json (value depth reader.old) ≡ Some (d, reader.new))) }
    ensures shorter { OnOk result (length reader.new < length reader.old) }
{
    let token = reader.next().ok_or(Invalid)?;
    match token {
        Token::String(_) => Ok(()),
        Token::Bool(_) => Ok(()),
        Token::Null => Ok(()),
        Token::Number(text) if is_small(text) => Ok(()),
        Token::BeginArray if depth > 0 => pass_items(reader, depth - 1),
        Token::BeginObject if depth > 0 => pass_members(reader, depth - 1),
        _ => Err(Invalid),
    }
}

#[cycle(pass)]
#[inline(never)]
fn pass_items(reader: &mut Reader<'_>, depth: usize) -> Result<(), Invalid>
    ensures value { OnOk result ((ds : Items)
        × (converted of_items (items (value depth) (length reader.old) reader.old)
        ≡ Some (ds, reader.new))) }
    ensures shorter { OnOk result (length reader.new < length reader.old) }
{
    'items: while !reader.take_end_array() {
        pass(reader, depth)?;
    }
    Ok(())
}

#[cycle(pass)]
#[inline(never)]
fn pass_members(reader: &mut Reader<'_>, depth: usize) -> Result<(), Invalid>
    ensures value { OnOk result ((found : Members)
        × (converted (λ ms. of_members ms no_members)
        (members (value depth) (length reader.old) reader.old) ≡ Some (found, reader.new))) }
    ensures shorter { OnOk result (length reader.new < length reader.old) }
{
    'members: while let Some(_) = reader.next_key()? {
        pass(reader, depth)?;
    }
    Ok(())
}

/// The string that is next.
fn take_string<'a>(reader: &mut Reader<'a>) -> Result<&'a str, Invalid>
    ensures { IfOk result (λ s. reader.old ≡ token.string s.now ∷ reader.new) }
{
    match reader.next() {
        Some(Token::String(text)) => Ok(text),
        _ => Err(Invalid),
    }
}

/// Passes a member of this name: the text, if it is that.
fn take_member<'a>(
    reader: &mut Reader<'a>,
    name: &str,
    text: Option<&'a str>,
) -> Result<Option<&'a str>, Invalid>
    ensures said { IfOk result (λ now. (d : Data)
        × (converted of_json (value 126 reader.old) ≡ Some (d, reader.new))
        × ((found : Members) → Says (option_map (λ s. s.now) text.entry) found
        → Says (option_map (λ s. s.now) now) (put name.now d found))) }
    ensures shorter { OnOk result (length reader.new < length reader.old) }
{
    match name {
        "text" => Ok(Some(take_string(reader)?)),
        "kind" => match take_string(reader)? {
            "totals" => Err(Invalid),
            _ => Ok(text),
        },
        "hex" => Err(Invalid),
        _ => {
            pass(reader, DEPTH)?;
            Ok(text)
        }
    }
}

/// Passes the members of an object that follow others, which have no text: the text, if these have one. They have no `hex`, and aren't of
/// the kind `totals`.
fn text_member<'a>(reader: &mut Reader<'a>) -> Result<Option<&'a str>, Invalid>
    ensures { IfOk result (λ text. Follow reader.old reader.new (option_map (λ s. s.now) text)) }
{
    let mut text = None;
    'members: while let Some(name) = reader.next_key()? {
        text = take_member(reader, name, text)?;
    }
    Ok(text)
}

/// The text of the members that are all that comes, and the object's end.
fn text_at_end<'a>(reader: &mut Reader<'a>) -> Option<&'a str>
    ensures { IfSome result (λ s. Follow reader.old [] (Some s.now)) }
{
    let Ok(text) = text_member(reader) else {
        return None;
    };
    if reader.next().is_some() {
        return None;
    }
    text
}

/// The text of an object that is all that comes, where it has that form.
fn text_of<'a>(reader: &mut Reader<'a>) -> Option<&'a str>
    ensures { IfSome result (λ s. (d : Data)
        × (converted of_json (value 127 reader.old) ≡ Some (d, [])) × (of_object d ≡ Ok s.now)) }
{
    match reader.next() {
        Some(Token::BeginObject) => text_at_end(reader),
        _ => None,
    }
}

/// What stands ahead of the first comma, and behind it.
fn split_comma(bytes: &[u8]) -> Option<(&[u8], &[u8])>
    ensures { IfSome result (λ (front, behind). bytes.now ≡ front.now ++ 44 ∷ behind.now) }
{
    match memchr(b',', bytes) {
        Some(end) => Some((&bytes[..end], &bytes[end + 1..])),
        None => None,
    }
}

/// Whether bytes are a number of JSON that is less than 2^64, in digits alone.
fn is_place(digits: &[u8]) -> bool
    ensures { IsTrue result → IsNumber digits.now × IsSome (number_of digits.now)
        × IsUtf8 digits.now }
{
    match std::str::from_utf8(digits) {
        Ok(number) => is_number(number) && is_small(number),
        Err(_) => false,
    }
}

/// What follows the place of a line, which is a number ahead of all other members, where it begins so.
fn behind_place(line: &[u8]) -> Option<&[u8]>
    ensures { IfSome result (λ rest. IsPlaced line.now rest.now) }
{
    let behind = line.strip_prefix(b"{\"at\":".as_slice())?;
    let (digits, rest) = split_comma(behind)?;
    if rest.starts_with(b"\"") && is_place(digits) {
        Some(rest)
    } else {
        None
    }
}

/// Reads lines, and holds what it knows of the last ones.
#[derive(Drop)]
pub(crate) struct Glance {
    /// Where a line is read.
    scratch: Scratch,
    rests: Rests,
}

impl Glance {
    /// At no line.
    pub(crate) fn new(alloc: Global) -> Glance {
        Glance {
            scratch: Scratch::new(alloc),
            rests: Rests::new(alloc),
        }
    }

    /// Appends the text of an object that doesn't begin with a place; whether it has that form.
    fn append_whole(&mut self, line: &[u8], out: &mut Vec<u8>) -> Result<bool, AllocError>
        ensures bytes { IfOk result (λ told. IsTrue told → (text : List ℕ)
            × (of_line line.now ≡ Ok text) × (out.new.items ≡ out.old.items ++ text)) }
        ensures none { IfOk result (λ told. IsFalse told → out.new.items ≡ out.old.items) }
        ensures kept { OnErr result (out.new.items ≡ out.old.items) }
    {
        let Ok(line) = std::str::from_utf8(line) else {
            return Ok(false);
        };
        let mut reader = Reader::new(line, &mut self.scratch)?;
        let Some(text) = text_of(&mut reader) else {
            return Ok(false);
        };
        out.extend_from_slice(text.as_bytes())?;
        Ok(true)
    }

    /// Whether a line has more values than one that is read for its members.
    pub(crate) fn has_many(&mut self, line: &[u8]) -> Result<bool, AllocError>
        ensures { IfOk result (λ many. IsTrue many → most_values < values_in (tokens line.now)) }
    {
        if line.len() <= MOST {
            return Ok(false);
        }
        let Ok(text) = std::str::from_utf8(line) else {
            return Ok(false);
        };
        let mut reader = Reader::new(text, &mut self.scratch)?;
        Ok(are_many(&mut reader))
    }

    /// Appends the text of a line's object, where it has that form; whether it does. What follows its place is held with that.
    pub(crate) fn append_text(&mut self, line: &[u8], out: &mut Vec<u8>) -> Result<bool, AllocError>
        ensures bytes { IfOk result (λ told. IsTrue told → (text : List ℕ)
            × (of_line line.now ≡ Ok text) × (out.new.items ≡ out.old.items ++ text)) }
        ensures none { IfOk result (λ told. IsFalse told → out.new.items ≡ out.old.items) }
        ensures kept { OnErr result (out.new.items ≡ out.old.items) }
    {
        let Some(rest) = behind_place(line) else {
            return self.append_whole(line, out);
        };
        if let Some(text) = self.rests.text_of(rest) {
            out.extend_from_slice(text)?;
            return Ok(true);
        }
        let Ok(line) = std::str::from_utf8(rest) else {
            return Ok(false);
        };
        let mut reader = Reader::new(line, &mut self.scratch)?;
        let Some(text) = text_at_end(&mut reader) else {
            return Ok(false);
        };
        let bytes = text.as_bytes();
        self.rests.hold(rest, bytes)?;
        out.extend_from_slice(bytes)?;
        Ok(true)
    }
}
