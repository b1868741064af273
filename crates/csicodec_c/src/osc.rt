//! What an OSC says.
ghost use Rattle.std.specs.Prelude.{◌≡◌};
ghost use Rattle.csicodec_osc.specs.Osc.{list_text};
ghost use Rattle.csicodec_c.specs.Osc.{IsCommanded, one, told, two, with_fields};

use csicodec_osc::{Osc, OscFields};

/// What an OSC says, and where its texts stand.
#[repr(C)]
#[derive(Clone, Copy)]
pub struct Commanded {
    /// Which command; 0 for one that isn't known.
    pub kind: u32,
    /// How many texts stand behind the number, 0 to 2: fields are one, and so are all bytes of what isn't known.
    pub texts: u32,
    /// Where the first text begins.
    pub first: usize,
    /// Where the second one begins, which ends the content.
    pub second: usize,
}

/// A command with a text that ends the content.
fn one(len: usize, kind: u32, text: &[u8]) -> Commanded
    ensures { result ≡ one len kind text.now }
{
    Commanded {
        kind,
        texts: 1,
        first: len.saturating_sub(text.len()),
        second: len,
    }
}

/// A command with two texts, of which the second ends the content.
fn two(len: usize, kind: u32, first: &[u8], second: &[u8]) -> Commanded
    ensures { result ≡ two len kind first.now second.now }
{
    let behind = len.saturating_sub(second.len());
    Commanded {
        kind,
        texts: 2,
        first: behind.saturating_sub(1).saturating_sub(first.len()),
        second: behind,
    }
}

/// A command with fields, if there are any.
fn with_fields(len: usize, kind: u32, list: OscFields<'_>) -> Commanded
    ensures { result ≡ with_fields len kind (list_text list.entry) }
{
    match list.text {
        Some(text) => one(len, kind, text),
        None => Commanded {
            kind,
            texts: 0,
            first: len,
            second: len,
        },
    }
}

/// What is told of a content of so many bytes. The numbers are those of `specs/OscKinds`, which `tools/table` writes.
fn told(len: usize, osc: Osc<'_>) -> Commanded
    ensures { result ≡ told len osc.entry }
{
    match osc {
        Osc::Title(title, text) => one(len, 16 + title as u32, text),
        Osc::Colors(palette, list) => with_fields(len, 32 + palette as u32, list),
        Osc::Color(color, list) => with_fields(len, 64 + color as u32, list),
        Osc::ResetColors(palette, list) => with_fields(len, 48 + palette as u32, list),
        Osc::ResetColor(color, list) => with_fields(len, 80 + color as u32, list),
        Osc::Link { params, address } => two(len, 160, params, address),
        Osc::Clipboard { selection, content } => two(len, 161, selection, content.as_bytes()),
        Osc::Folder(folder, text) => one(len, 96 + folder as u32, text),
        Osc::Prompt(mark, list) => with_fields(len, 112 + mark as u32, list),
        Osc::Editor(mark, list) => with_fields(len, 128 + mark as u32, list),
        Osc::Progress(progress, list) => with_fields(len, 144 + progress as u32, list),
        Osc::Pointer(text) => one(len, 162, text),
        Osc::KittyNotice { metadata, payload } => two(len, 163, metadata, payload),
        Osc::TitledNotice { title, text } => two(len, 164, title, text),
        Osc::Notice(text) => one(len, 165, text),
        Osc::Unknown(bytes) => one(len, 0, bytes),
    }
}

/// What the content of an OSC says, the bytes between `ESC ]` and what ends it.
#[unsafe(no_mangle)]
pub extern "C" fn csicodec_osc(bytes: &[u8]) -> Commanded
    ensures { IsCommanded bytes.now result }
{
    told(bytes.len(), Osc::read(bytes))
}
