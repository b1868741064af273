//! Actions to bytes, as few as are found.
ghost use Rattle.std.specs.Prelude.{◌≡◌, ◌++◌, ◌<◌, ◌≤◌, ℕ, List, true, length, map, OnOk, IfOk};
ghost use Rattle.csicodec_parser.specs.ActionOf.{action_of};
ghost use Rattle.csicodec_compact.specs.Compacts.{Encodes, ReadsAlike};

use crate::alike::Comparer;
use crate::spell::spell;
use csicodec_base::{ColorSpec, CsiParam, ReadError, Sgr, TextBuffer, read_csi_into};
use csicodec_filter::stays;
use csicodec_parser::CSI;
use csicodec_streams::encode_all;
use std::alloc::{AllocError, Global};

/// How many numbers a sequence has at most that several are joined to: the Linux console keeps no more.
pub(crate) const NUMBERS: usize = 16;

/// How many numbers an attribute is written with at most.
fn numbers(style: &Sgr) -> usize {
    match style {
        Sgr::Foreground(color) | Sgr::Background(color) | Sgr::UnderlineColor(color) =>
            match color {
                ColorSpec::TrueColor(_) => 6,
                _ => 3,
            },
        _ => 1,
    }
}

/// How many actions in front go into one sequence: attributes of few numbers, or one action of another kind.
fn run_len(actions: &[CSI]) -> usize
    ensures { 0 < length actions.now → (0 < result) × (result ≤ length actions.now) }
{
    let mut room = NUMBERS;
    for (i, action) in actions.iter().enumerate() {
        let CSI::Sgr(style) = action else {
            return i.max(1);
        };
        let Some(left) = room.checked_sub(numbers(style)) else {
            return i.max(1);
        };
        room = left;
    }
    actions.len()
}

/// Writes sequences of attributes as one: a `;` in the place of `m`, ESC and `[` between two of them.
fn join(texts: &[u8], out: &mut Vec<u8>) -> Result<(), AllocError> {
    out.clear();
    for (i, byte) in texts.iter().enumerate() {
        match *byte {
            0x1b | b'[' if 1 < i => {}
            b'm' if i < texts.len() - 1 => out.push(b';')?,
            byte => out.push(byte)?,
        }
    }
    Ok(())
}

/// Writes runs of actions.
#[derive(Drop)]
struct Joiner {
    alloc: Global,
    reader: Comparer,
    joined: Vec<u8>,
    params: Vec<CsiParam>,
    spelling: TextBuffer,
}

impl Joiner {
    /// With buffers that take no memory yet.
    fn new(alloc: Global) -> Joiner {
        Joiner {
            alloc,
            reader: Comparer::new(alloc),
            joined: Vec::new(alloc),
            params: Vec::new(alloc),
            spelling: TextBuffer::new(alloc),
        }
    }

    /// Whether there is one sequence, shorter, that is read as these texts are.
    fn find(&mut self, texts: &[u8]) -> Result<bool, AllocError>
        ensures { IfOk result
            (λ yes. yes ≡ true
            → (length self.new.spelling ≤ length texts.now)
            × ReadsAlike texts.now self.new.spelling) }
    {
        join(texts, &mut self.joined)?;
        let control = match read_csi_into(&mut self.params, &self.joined) {
            Ok(tail) => tail.control,
            Err(ReadError::Memory) => return Err(AllocError),
            Err(_) => return Ok(false),
        };
        if stays(&self.params, control) {
            return Ok(false);
        }
        spell(&self.params, control, false, &mut self.spelling)?;
        let spelling = self.spelling.as_slice();
        if spelling.len() < texts.len() {
            self.reader.has_normal_form(spelling, texts)
        } else {
            Ok(false)
        }
    }

    /// Appends one sequence for the actions, or each by itself.
    fn append(&mut self, run: &[CSI], out: &mut Vec<u8>) -> Result<(), AllocError>
        ensures { OnOk result
            ((text : List ℕ) × Encodes (map action_of run.now) text
            × (out.new.items ≡ out.old.items ++ text)) }
    {
        let texts = encode_all(self.alloc, run)?;
        if self.find(&texts)? {
            out.extend_from_slice(self.spelling.as_slice())
        } else {
            out.extend_from_slice(&texts)
        }
    }
}

/// A text of the actions that is no longer than [`encode_all`](csicodec_streams::encode_all)'s, and is read as they are, where each
/// is read back from its own text ([`CSI::is_canonical`](csicodec_parser::CSI::is_canonical)).
///
/// Attributes side by side go into one sequence, of at most 16 numbers, with semicolons in the colours of the character and the ground;
/// what is a default is left out. Of no actions it takes no memory.
///
/// ```text
/// encode_compact(alloc, &[CSI::from(Sgr::Reset), CSI::from(Sgr::Italic(true)), CSI::from(Cursor::Up(1))])?      // b"\x1b[;3m\x1b[A"
/// ```
pub fn encode_compact(alloc: Global, actions: &[CSI]) -> Result<Vec<u8>, AllocError>
    ensures { IfOk result (λ all. Encodes (map action_of actions.now) all.items) }
{
    let mut joiner = Joiner::new(alloc);
    let mut all = Vec::new(alloc);
    let mut rest = actions;
    while !rest.is_empty() {
        let (run, others) = rest.split_at(run_len(rest));
        joiner.append(run, &mut all)?;
        rest = others;
    }
    Ok(all)
}
