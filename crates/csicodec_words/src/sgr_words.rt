// Written by tools/table from table/sgr.toml: change that, and run python3 tools/table.
//! What attributes of text are called.

use csicodec_base::{ColorSpec, Sgr};

/// What stands ahead of the colour that an attribute has.
pub(crate) fn color_of(attribute: &Sgr) -> Option<(&'static str, &ColorSpec)> {
    match attribute {
        Sgr::Foreground(color) => Some(("SGR  foreground ", color)),
        Sgr::Background(color) => Some(("SGR  background ", color)),
        Sgr::UnderlineColor(color) => Some(("SGR  underline colour ", color)),
        _ => None,
    }
}

/// The first 16 of the palette: the names of ECMA-48 for the first 8, and `bright` ahead for the next.
pub(crate) static COLORS: [&str; 16] = pieces! {
    "black", "red", "green", "yellow", "blue", "magenta", "cyan", "white", "bright black", "bright red",
    "bright green", "bright yellow", "bright blue", "bright magenta", "bright cyan", "bright white",
};

/// Attributes without a colour: the text that sets each, a tab and the words. Some are set by no action.
pub(crate) static ATTRIBUTES: [&str; 48] = pieces! {
    "0\tSGR  all attributes off", "1\tSGR  bold on", "10\tSGR  primary font", "11\tSGR  alternative font 1",
    "12\tSGR  alternative font 2", "13\tSGR  alternative font 3", "14\tSGR  alternative font 4",
    "15\tSGR  alternative font 5", "16\tSGR  alternative font 6", "17\tSGR  alternative font 7",
    "18\tSGR  alternative font 8", "19\tSGR  alternative font 9", "2\tSGR  faint on", "20\tSGR  Fraktur on",
    "21\tSGR  double underline on", "22\tSGR  bold and faint off", "23\tSGR  italic off",
    "24\tSGR  underline off", "25\tSGR  blink off", "26\tSGR  proportional spacing on", "27\tSGR  inverse off",
    "28\tSGR  concealed off", "29\tSGR  crossed out off", "3\tSGR  italic on", "4\tSGR  underline on",
    "4:3\tSGR  curly underline on", "4:4\tSGR  dotted underline on", "4:5\tSGR  dashed underline on",
    "5\tSGR  slow blink on", "50\tSGR  proportional spacing off", "51\tSGR  framed on", "52\tSGR  encircled on",
    "53\tSGR  overline on", "54\tSGR  framed and encircled off", "55\tSGR  overline off",
    "6\tSGR  rapid blink on", "60\tSGR  ideogram underline or right side line on",
    "61\tSGR  ideogram double underline or double right side line on",
    "62\tSGR  ideogram overline or left side line on",
    "63\tSGR  ideogram double overline or double left side line on", "64\tSGR  ideogram stress marking on",
    "65\tSGR  ideogram lines off", "7\tSGR  inverse on", "73\tSGR  superscript on", "74\tSGR  subscript on",
    "75\tSGR  superscript and subscript off", "8\tSGR  concealed on", "9\tSGR  crossed out on",
};
