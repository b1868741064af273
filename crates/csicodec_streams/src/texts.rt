//! Actions to bytes.
ghost use Rattle.std.specs.Prelude.{◌≡◌, ◌++◌, [], map, OnErr, OnOk, IfOk, IsOk};
ghost use Rattle.csicodec_parser.specs.ActionOf.{action_of};
ghost use Rattle.csicodec_actions.specs.Table.{text, texts};

use csicodec_base::TextBuffer;
use csicodec_parser::{CSI, append_text};
use std::alloc::{AllocError, Global};

/// The joined texts of the actions. Of none it takes no memory.
///
/// ```text
/// encode_all(alloc, &[CSI::from(Cursor::Up(2)), CSI::from(Sgr::Italic(true))])?      // b"\x1b[2A\x1b[3m"
/// ```
pub fn encode_all(alloc: Global, actions: &[CSI]) -> Result<Vec<u8>, AllocError>
    ensures texts { IfOk result (λ all. all.items ≡ texts (map action_of actions.now)) }
    ensures none { actions.now ≡ [] → IsOk result }
{
    let mut all = TextBuffer::new(alloc);
    for action in actions {
        append_text(alloc, &mut all, action)?;
    }
    Ok(all.into_vec())
}

/// Appends the text of one action, from its `ESC [` on. On `Err`, out of memory, the vector holds what it held before.
///
/// ```text
/// encode(&CSI::from(Cursor::Up(2)), &mut out)?;      // appends b"\x1b[2A"
/// ```
pub fn encode(action: &CSI, out: &mut Vec<u8>) -> Result<(), AllocError>
    ensures text { OnOk result (out.new.items ≡ out.old.items ++ text (action_of action.now)) }
    ensures untouched { OnErr result (out.new.items ≡ out.old.items) }
{
    let alloc = *out.allocator();
    if let CSI::Device(_) | CSI::Window(_) | CSI::Unspecified(_) = action {
        let mut text = TextBuffer::new(alloc);
        append_text(alloc, &mut text, action)?;
        return out.extend_from_slice(text.as_slice());
    }
    let len = out.len();
    let mut texts = TextBuffer::of(std::mem::replace(out, Vec::new(alloc)));
    let appended = append_text(alloc, &mut texts, action);
    *out = texts.into_vec();
    if appended.is_err() {
        out.truncate(len);
    }
    appended
}
