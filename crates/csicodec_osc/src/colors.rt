//! Colours that are set, asked for and reset. The answer to a question has the form in which the colour is set.

use crate::asked::Asked;
use crate::body::{is_semicolon, number};
use crate::command::ColorTable;
use crate::fields::OscFields;
use crate::osc_words::DYNAMIC_WORDS;
use crate::shown::Shown;
use std::fmt;

/// The special colours, from 0 on (xterm's ctlseqs, Operating System Command 5).
static SPECIAL: [&str; 5] = [
    "bold text",
    "underlined text",
    "blinking text",
    "inverse text",
    "italic text",
];

/// A colour by its name or its index, with the words on both sides of that.
#[derive(Clone, Copy)]
struct Color<'a>(&'static str, &'a [u8], &'static str);

fn special_name(place: u32) -> &'static [u8] {
    match SPECIAL.get(place as usize) {
        Some(name) => name.as_bytes(),
        None => b"some text",
    }
}

fn dynamic_name(place: usize) -> &'static str {
    DYNAMIC_WORDS.get(place).copied().unwrap_or("colour")
}

/// Which colour an index means; behind the 256 of the palette stand the special ones (xterm).
fn indexed(palette: ColorTable, index: &[u8]) -> Color<'_> {
    match (palette, number(index)) {
        (ColorTable::Special, place) => {
            Color("colour of ", special_name(place.unwrap_or(u32::MAX)), "")
        }
        (ColorTable::Indexed, Some(place @ 256..)) => {
            Color("special colour of ", special_name(place - 256), "")
        }
        (ColorTable::Indexed, _) => Color("colour ", index, " of the palette"),
    }
}

/// A colour that is set, or that these words ask for.
fn write_color<W: fmt::Write>(
    f: &mut fmt::Formatter<W>,
    comma: &str,
    ask: &str,
    Color(ahead, name, behind): Color<'_>,
    field: &[u8],
) -> fmt::Result {
    let name = Shown(name);
    match Asked::of(field) {
        Asked::Query => write!(f, "{comma}{ask}{ahead}{name}{behind}"),
        Asked::Value(value) => {
            let value = Shown(value);
            write!(f, "{comma}{ahead}{name}{behind}: {value}")
        }
    }
}

/// OSC 4, and OSC 5 with special colours: pairs of an index and a colour, or a question for it.
pub fn pairs<W: fmt::Write>(
    f: &mut fmt::Formatter<W>,
    palette: ColorTable,
    list: OscFields<'_>,
) -> fmt::Result {
    let ask = match palette {
        ColorTable::Special => "ask for the ",
        ColorTable::Indexed => "ask for ",
    };
    let mut index: &[u8] = &[];
    for (place, field) in list.text.unwrap_or(&[]).split(is_semicolon).enumerate() {
        if place % 2 == 0 {
            index = field;
            continue;
        }
        let comma = if place > 1 { ", " } else { "" };
        write_color(f, comma, ask, indexed(palette, index), field)?;
    }
    Ok(())
}

/// OSC 10 to 19: a colour, and behind it those of the numbers that follow.
pub fn dynamic<W: fmt::Write>(
    f: &mut fmt::Formatter<W>,
    code: u32,
    list: OscFields<'_>,
) -> fmt::Result {
    let first = code.saturating_sub(10) as usize;
    for (place, field) in list.text.unwrap_or(&[]).split(is_semicolon).enumerate() {
        let comma = if place > 0 { ", " } else { "" };
        let name = dynamic_name(first.saturating_add(place)).as_bytes();
        write_color(f, comma, "ask for the ", Color("", name, ""), field)?;
    }
    Ok(())
}

/// OSC 104 and 105: the colours that are set back, or all.
pub fn resets<W: fmt::Write>(
    f: &mut fmt::Formatter<W>,
    palette: ColorTable,
    list: OscFields<'_>,
) -> fmt::Result {
    let (all, some, behind) = match palette {
        ColorTable::Indexed => ("reset the palette", "reset colour ", " of the palette"),
        ColorTable::Special => ("reset the special colours", "reset the colour of ", ""),
    };
    let indices = list.text.unwrap_or(&[]);
    if indices.is_empty() {
        return f.write_str(all);
    }
    for (place, index) in indices.split(is_semicolon).enumerate() {
        let ahead = if place > 0 { ", " } else { some };
        let name = Shown(match palette {
            ColorTable::Special => special_name(number(index).unwrap_or(u32::MAX)),
            ColorTable::Indexed => index,
        });
        write!(f, "{ahead}{name}")?;
    }
    f.write_str(behind)
}

/// OSC 110 to 119.
pub fn dynamic_reset<W: fmt::Write>(f: &mut fmt::Formatter<W>, code: u32) -> fmt::Result {
    let name = dynamic_name(code.saturating_sub(110) as usize);
    write!(f, "reset the {name}")
}
