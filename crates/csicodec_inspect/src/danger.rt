//! What a place that is no plain text may do to somebody who shows the text: which places are dangerous, and which only colour it.

use csicodec_command::Found;
use csicodec_listing::style::{is_among, name_of};
use std::fmt;

/// What a place may do.
#[derive(Clone, Copy)]
pub enum Mark {
    /// It hides text, writes over it, or makes a terminal do something beside showing it.
    Danger,
    /// It sets a colour or a style of text that is seen.
    Colour,
    /// Anything else.
    Other,
}

impl fmt::Display for Mark {
    fn fmt<W: fmt::Write>(&self, f: &mut fmt::Formatter<W>) -> fmt::Result {
        f.write_str(match self {
            Mark::Danger => "danger",
            Mark::Colour => "colour",
            Mark::Other => "other",
        })
    }
}

/// The names of what goes back over text, erases it or moves it, so that what is shown isn't what is in the file.
const BACK: &str = "\
BS,CBT,CHA,CPL,CR,CUB,CUP,CUU,CVT,DCH,DECALN,DECBI,DECCRA,DECERA,DECFRA,DECRC,DECSED,DECSEL,DECSERA,DECSLRM,DECSR,\
DECSTBM,DL,ECH,ED,EF,EL,HPA,HPB,HVP,ICH,IL,RI,RIS,SCORC,SD,SL,SR,SU,unscroll,VPA,VPB";

/// The names of what makes a terminal send something, as if somebody had typed it, beside what asks: the mouse, the focus, a macro.
const SENDS: &str =
    "DECSET 9,DECSET 1000,DECSET 1001,DECSET 1002,DECSET 1003,DECSET 1004,DECINVM,ENQ";

/// The names of what acts on more than the text: the window, the alternate screen, a printer.
const BEYOND: &str = "DECSET 47,DECSET 1047,DECSET 1049,MC,XTWINOPS";

/// Whether an attribute hides text: SGR 8, and fonts that show other characters.
fn hides(name: &str, deed: &str) -> bool {
    name == "SGR" && (deed == "concealed on" || deed.starts_with("alternative font"))
}

/// What a place may do that is this, and of which these words are told.
pub fn mark_of(found: Found, words: &str) -> Mark {
    let (name, deed) = name_of(words);
    let is_listed = is_among(BACK, name) || is_among(SENDS, name) || is_among(BEYOND, name);
    match found {
        // A string sets titles, the clipboard and the palette, and is no text that is seen.
        Found::String | Found::Turning(_) | Found::Tag(_) | Found::Unseen(_) => Mark::Danger,
        _ if is_listed || deed.starts_with("ask") || hides(name, deed) => Mark::Danger,
        Found::Sequence if name == "SGR" && !deed.starts_with("unknown") => Mark::Colour,
        Found::Sequence | Found::Escape | Found::Control(_) | Found::NotUtf8 => Mark::Other,
    }
}
