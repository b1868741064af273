//! What a terminal shows behind a stream, as `csicodec screen` writes it.
ghost use Rattle.std.specs.{Prelude.◌≡◌, Prelude.◌++◌, Prelude.IfOk, Prelude.OnOk, List.flat_map};
ghost use Rattle.csicodec_inspect.specs.Sent.{IsWrittenBy};
ghost use Rattle.csicodec_screen.specs.Feeds.{Feeds, begun};
ghost use Rattle.csicodec_tool.specs.Shown.{Shows, ShowsFront, as_sent, by_driver, kept};

use csicodec_command::ScreenSize;
use csicodec_looks::Marking;
use csicodec_screen::Emulator;
use csicodec_transform::{RunError, Transform, transform_all};
use std::alloc::{AllocError, Global};
use std::io::{Read, Write};

/// How many rows that left at the top are kept, if they are asked for.
const KEPT: usize = 10_000;

/// How a screen is shown.
#[derive(Clone, Copy)]
pub struct Display {
    pub size: ScreenSize,
    /// As what its rows are written.
    pub marking: Marking,
    /// Whether the rows that left at the top come first.
    pub scrollback: bool,
    /// Whether a newline is taken as it came. Else CR LF is, as the driver of a terminal sends it.
    pub raw: bool,
}

/// Appends a byte as the driver of a terminal sends it.
fn append_byte(byte: u8, out: &mut Vec<u8>) -> Result<(), AllocError>
    ensures { OnOk result (out.new.items ≡ out.old.items ++ by_driver byte) }
{
    if byte == b'\n' {
        return out.extend_from_slice(b"\r\n");
    }
    Ok(out.push(byte)?)
}

/// Appends bytes as the driver of a terminal sends them: CR LF for a newline.
fn append_sent(bytes: &[u8], out: &mut Vec<u8>) -> Result<(), AllocError>
    ensures { OnOk result (out.new.items ≡ out.old.items ++ flat_map by_driver bytes.now) }
{
    let mut rest = bytes;
    while let Some((byte, behind)) = rest.split_first() {
        append_byte(*byte, out)?;
        rest = behind;
    }
    Ok(())
}

/// A screen that a stream goes to.
#[derive(Drop)]
pub struct Shown {
    display: Display,
    emulator: Emulator,
    /// A place for what the driver of a terminal sends.
    lines: Vec<u8>,
}

impl Shown {
    /// A new one.
    fn new(alloc: Global, display: Display) -> Result<Shown, AllocError>
        ensures display { IfOk result (λ shown. shown.display ≡ display) }
        ensures begun { IfOk result (λ shown. shown.emulator ≡ begun display.size.rows display.size.columns (kept display.scrollback)) }
    {
        let ScreenSize { rows, columns } = display.size;
        let room = if display.scrollback { KEPT } else { 0 };
        let emulator = Emulator::new(alloc, rows, columns, room)?;
        let lines = Vec::new(alloc);
        Ok(Shown {
            display,
            emulator,
            lines,
        })
    }

    /// Sends the next bytes to the emulator.
    fn send(&mut self, bytes: &[u8]) -> Result<(), AllocError>
        ensures display { self.new.display ≡ self.old.display }
        ensures fed { OnOk result (Feeds self.old.emulator (as_sent self.old.display.raw bytes.now) self.new.emulator) }
    {
        if self.display.raw {
            return self.emulator.feed(bytes);
        }
        self.lines.clear();
        append_sent(bytes, &mut self.lines)?;
        self.emulator.feed(&self.lines)
    }
}

impl Transform for Shown {
    ghost use Rattle.std.specs.Prelude.{⊤};
    ghost use Rattle.csicodec_tool.specs.Shown.{EndsShown, PassesShown};

    ghost stands = { λ _. ⊤ };

    ghost passes = { PassesShown };

    ghost rests = { λ _. ⊤ };

    ghost ends = { EndsShown };

    fn take(&mut self, bytes: &[u8], _out: &mut Vec<u8>) -> Result<(), AllocError> {
        self.send(bytes)
    }

    fn pause(&mut self, _out: &mut Vec<u8>) -> Result<(), AllocError> {
        Ok(())
    }

    fn end(&mut self, out: &mut Vec<u8>) -> Result<(), AllocError> {
        let Display {
            marking,
            scrollback,
            ..
        } = &self.display;
        self.emulator
            .screen()
            .append_view(marking, *scrollback, out)
    }
}

/// Reads to the end, and writes what the screen shows then. The errors are those of `transform_all`.
pub fn show_all<R: Read, W: Write>(
    alloc: Global,
    display: Display,
    input: &mut R,
    output: &mut W,
) -> Result<(), RunError>
    ensures { IsWrittenBy (Shows display) (ShowsFront display) result
        (R.remaining input.old) (W.contents output.old) (W.contents output.new) }
{
    match Shown::new(alloc, display) {
        Ok(shown) => transform_all(alloc, shown, input, output),
        Err(_) => Err(RunError::Memory),
    }
}
