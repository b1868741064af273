//! Recordings of asciinema (asciicast, versions 2 and 3): a line of JSON with the version, and one for each event, `[time, "o",
//! "data"]` for what a program wrote. Times are seconds: in version 2 from the begin, in version 3 from the event before.
ghost use Rattle.csicodec_command.specs.Common.{ℕ, List, None, Some, true, IfErr, IfOk, IsUtf8, OnErr, OnOk, OnSome, option_map, string_bytes, trim, read, view, RunError};
ghost use Rattle.csicodec_command.specs.Recorded.{data_or_none, event_of, is_passed, line_says, says, texts_of, version_behind, version_in, written};
ghost use Rattle.csicodec_command.specs.declared.failure.Failure.TheVariants.{Run as Ran};
ghost use Rattle.std.specs.Prelude.{◌≡◌, ◌≢◌, ◌∷◌};

use crate::failure::Failure;
use csicodec_listing::split_line;
use csicodec_transform::RunError;
use serde_json::Value;
use std::alloc::Global;
use std::io::BufRead;

/// A recording of which some lines were read.
#[derive(Drop)]
pub struct Recording {
    alloc: Global,
    /// 2 or 3; 0 ahead of the first line.
    version: u64,
    /// The lines so far.
    lines: u64,
    /// When the last event was, in microseconds.
    time: u64,
}

/// Seconds in decimal digits with at most one point, in microseconds; 0 where they are written otherwise.
pub fn micros(text: &str) -> u64 {
    let (whole, part) = text.split_once('.').unwrap_or((text, ""));
    let mut fraction = 0u64;
    let mut unit = 100_000u64;
    for digit in part.as_bytes() {
        let value = u64::from((*digit).saturating_sub(b'0'));
        fraction = fraction.saturating_add(value.saturating_mul(unit));
        unit /= 10;
    }
    match whole.parse::<u64>() {
        Ok(seconds) => seconds.saturating_mul(1_000_000).saturating_add(fraction),
        Err(_) => 0,
    }
}

/// The time of an event, as its line has it: what stands between the bracket and the first comma.
pub fn time_of(line: &str) -> &str {
    let (front, _behind) = line.split_once(',').unwrap_or((line, ""));
    front.trim_start_matches('[').trim()
}

/// The first line with its end, and what is behind it.
pub fn line_front(bytes: &[u8]) -> (&[u8], &[u8]) {
    let len = match split_line(bytes) {
        Some((line, _behind)) => line.len().saturating_add(1),
        None => bytes.len(),
    };
    bytes.split_at_checked(len).unwrap_or((bytes, &[]))
}

/// The first line of an input, where that is whole and may be an object of JSON.
fn object_front(bytes: &[u8]) -> Option<&str>
    ensures { OnSome result ((rest : List ℕ) × (bytes.now ≡ 123 ∷ rest)) }
{
    let [b'{', ..] = bytes else {
        return None;
    };
    let (line, _behind) = split_line(bytes)?;
    std::str::from_utf8(line).ok()
}

/// The version of a recording of which this is the first line.
fn version_of(object: &Value) -> Option<u64>
    ensures { result ≡ version_in (view object.now) }
{
    match object.get("version").and_then(Value::as_u64) {
        version @ Some(2 | 3) => version,
        _ => None,
    }
}

/// Whether a line has no event: it is blank, or a comment.
fn is_passed(line: &str) -> bool
    ensures { result ≡ is_passed line.now }
{
    matches!(line.as_bytes(), [] | [b'#', ..])
}

/// Whether the first bytes of an input are the first line of a recording, which is an object of JSON with the version.
pub fn is_recording(alloc: Global, bytes: &[u8]) -> Result<bool, Failure>
    ensures object { IfOk result (λ is. is ≡ true → (rest : List ℕ) × (bytes.now ≡ 123 ∷ rest)) }
    ensures err { IfErr result (λ e. e ≡ Ran RunError.Memory) }
{
    let Some(line) = object_front(bytes) else {
        return Ok(false);
    };
    match Value::from_str(alloc, line) {
        Ok(object) => Ok(version_of(&object).is_some()),
        Err(error) if error.is_memory() => Err(Failure::Run(RunError::Memory)),
        Err(_) => Ok(false),
    }
}

/// The data of an event, where a program wrote them.
fn data_of(event: Option<(String, String)>) -> Option<String>
    ensures { data_or_none result ≡ written (option_map texts_of event) }
{
    let (code, text) = event?;
    (code.as_str() == "o").then_some(text)
}

impl Recording {
    /// Of which nothing was read.
    pub fn new(alloc: Global) -> Recording
        ensures { result.version ≡ 0 }
    {
        Recording {
            alloc,
            version: 0,
            lines: 0,
            time: 0,
        }
    }

    /// When the last event was, in microseconds from the begin.
    pub fn time(&self) -> u64 {
        self.time
    }

    /// Whether events have their times from the begin, as version 2 has them, and not from the event before.
    pub fn counts_from_begin(&self) -> bool {
        self.version == 2
    }

    /// There are no more lines; one at least must have been there.
    pub fn end(&self) -> Result<(), Failure>
        ensures { OnOk result (self.now.version ≢ 0) }
    {
        if self.version == 0 {
            return Err(Failure::Recording(self.lines));
        }
        Ok(())
    }

    /// The next line, with its end; none at the end of the input.
    pub fn next_line<'b, R: BufRead>(
        &self,
        input: &mut R,
        line: &'b mut Vec<u8>,
    ) -> Result<Option<&'b str>, Failure> {
        line.clear();
        match input.read_until(b'\n', line) {
            Ok(0) => Ok(None),
            Ok(_) => match std::str::from_utf8(line.as_slice()) {
                Ok(text) => Ok(Some(text)),
                Err(_) => Err(Failure::Recording(self.lines.saturating_add(1))),
            },
            Err(_) => Err(Failure::Run(RunError::Read)),
        }
    }

    /// The object or the array of a line.
    fn value_of(&self, line: &str) -> Result<Value, Failure>
        ensures ok { IfOk result (λ v. read line.now ≡ Some (view v)) }
        ensures err { IfErr result (λ f. f ≢ Ran RunError.Memory → read line.now ≡ None) }
    {
        match Value::from_str(self.alloc, line) {
            Ok(value) => Ok(value),
            Err(error) if error.is_memory() => Err(Failure::Run(RunError::Memory)),
            Err(_) => Err(Failure::Recording(self.lines)),
        }
    }

    /// The next line, with its end; the data of its event, where a program wrote them.
    pub fn take(&mut self, line: &[u8]) -> Result<Option<String>, Failure>
        ensures ok { IfOk result (λ text.
            option_map written (line_says self.old.version line.now) ≡ Some (data_or_none text)) }
        ensures version { OnOk result
            (self.new.version ≡ version_behind self.old.version (trim line.now)) }
        ensures kept { OnErr result (self.new.version ≡ self.old.version) }
        ensures refused { IfErr result (λ f. f ≢ Ran RunError.Memory
            → line_says self.old.version line.now ≡ None) }
    {
        let Ok(text) = std::str::from_utf8(line) else {
            self.lines = self.lines.saturating_add(1);
            return Err(Failure::Recording(self.lines));
        };
        let event = self.take_any(text)?;
        Ok(data_of(event))
    }

    /// The next line; the code of its event, `o` where a program wrote data, and the data.
    pub fn take_any(&mut self, line: &str) -> Result<Option<(String, String)>, Failure>
        ensures ok { IfOk result (λ e.
            says self.old.version (trim line.now) ≡ Some (option_map texts_of e)) }
        ensures version { OnOk result
            (self.new.version ≡ version_behind self.old.version (trim line.now)) }
        ensures kept { OnErr result (self.new.version ≡ self.old.version) }
        ensures refused { IfErr result (λ f. f ≢ Ran RunError.Memory
            → says self.old.version (trim line.now) ≡ None) }
    {
        self.lines = self.lines.saturating_add(1);
        let line = line.trim();
        if self.version == 0 {
            let header = self.value_of(line)?;
            self.version = version_of(&header).ok_or(Failure::Recording(self.lines))?;
            return Ok(None);
        }
        if is_passed(line) {
            return Ok(None);
        }
        Ok(Some(self.take_event(line)?))
    }

    /// The code and the data of an event.
    fn take_event(&mut self, line: &str) -> Result<(String, String), Failure>
        ensures ok { IfOk result (λ e. event_of line.now ≡ Some (texts_of e)) }
        ensures version { self.new.version ≡ self.old.version }
        ensures refused { IfErr result (λ f. f ≢ Ran RunError.Memory → event_of line.now ≡ None) }
    {
        let event = self.value_of(line)?;
        let code = event.get(1usize).and_then(Value::as_str);
        let data = event.get(2usize).and_then(Value::as_str);
        let (Some(code), Some(data)) = (code, data) else {
            return Err(Failure::Recording(self.lines));
        };
        let before = if self.version == 2 { 0 } else { self.time };
        self.time = before.saturating_add(micros(time_of(line)));
        let code = String::from_str(self.alloc, code)?;
        let data = String::from_str(self.alloc, data)?;
        Ok((code, data))
    }
}
