//! What terminals take a list for that the table of actions doesn't read.

use crate::Result;
use csicodec_base::CsiParam;
use csicodec_listing::style::name_of;
use csicodec_parser::CSI;
use csicodec_terminal::terminal_actions;
use csicodec_words::{ActionList, ActionWords};
use std::alloc::Global;
use std::fmt::Write;

/// The words of an action, whose list this is. A text that another crate writes into itself has all words in the program once more.
fn text_of<'a>(alloc: Global, action: &'a CSI, list: &'a ActionList) -> Result<String> {
    let words = ActionWords { action, list };
    format!(in alloc; "{words}")
}

/// Appends to the words of an action behind so many others, where it is unknown, what terminals take the rest of its list for, without what
/// is unknown to them too.
#[inline(never)]
pub fn append_taken(
    words: &mut String,
    list: &mut ActionList,
    (params, control): (&[CsiParam], char),
    read: u64,
) -> Result<()> {
    if !words.starts_with("unknown") {
        return Ok(());
    }
    let alloc = *words.allocator();
    let mut ahead = " (terminals: ";
    let actions = terminal_actions(alloc, params, false, control)?;
    for action in actions.get(read as usize..).unwrap_or(&[]) {
        if let CSI::Unspecified(_) = action {
            continue;
        }
        list.read(action)?;
        let told = text_of(alloc, action, list)?;
        let (_name, deed) = name_of(&told);
        write!(words, "{ahead}{deed}")?;
        ahead = ", ";
    }
    words.push_str(if ahead == ", " { ")" } else { "" })
}
