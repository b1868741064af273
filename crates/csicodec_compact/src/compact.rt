//! What is written in the place of a control sequence.
ghost use Rattle.std.specs.Prelude.{◌≡◌, ◌≤◌, ℕ, List, false, true, length, IfOk};
ghost use Rattle.csicodec_tokens.specs.Sequence.{Seq};
ghost use Rattle.csicodec_compact.specs.Compacts.{Compacts, ReadsAlike};

use crate::alike::Comparer;
use crate::spell::{may_be_shorter, spell};
use csicodec_base::{CsiParam, TextBuffer};
use csicodec_filter::{Rewrite, stays};
use std::alloc::{AllocError, Global};

/// Each control sequence in the shortest of its spellings that is found, and as it came where none is shorter: the attributes (SGR)
/// of a sequence stay in one, with semicolons where the table allows it, and without what is a default or a zero ahead of a number.
///
/// ```text
/// filter_all(alloc, 65536, Compact::new(alloc), &mut input, &mut output)?;
/// // reads "\x1b[01;38:2::255:0:0ma\x1b[1;1H", and writes "\x1b[1;38;2;255;0;0ma\x1b[H"
/// ```
#[derive(Drop)]
pub struct Compact {
    reader: Comparer,
    spelling: TextBuffer,
    semicolons: bool,
}

impl Compact {
    /// With buffers of its own, which are kept from sequence to sequence.
    pub fn new(alloc: Global) -> Compact
        ensures { result.semicolons ≡ false }
    {
        Compact {
            reader: Comparer::new(alloc),
            spelling: TextBuffer::new(alloc),
            semicolons: false,
        }
    }

    /// The same, with semicolons in the colours of the character and the ground, also where that is no shorter. An alpha (`38:6:`)
    /// has no such spelling.
    pub fn with_semicolons(alloc: Global) -> Compact
        ensures { result.semicolons ≡ true }
    {
        Compact {
            semicolons: true,
            ..Compact::new(alloc)
        }
    }

    /// Whether the spelling may stand in the place of a sequence of that many bytes.
    fn serves(&mut self, len: usize, params: &[CsiParam], control: char) -> Result<bool, AllocError>
        ensures { IfOk result (λ yes. yes ≡ true → (length self.new.spelling ≤ len)
            × ((bytes : List ℕ) → Seq bytes params.now control
            → ReadsAlike bytes self.new.spelling)) }
    {
        let spelling = self.spelling.as_slice();
        if spelling.len() < len || self.semicolons && spelling.len() == len {
            self.reader.reads_alike(params, control, spelling)
        } else {
            Ok(false)
        }
    }

    /// Whether there is another spelling for a sequence.
    fn find(&mut self, bytes: &[u8], params: &[CsiParam], control: char) -> Result<bool, AllocError>
        requires { Seq bytes.now params.now control }
        ensures { IfOk result (λ yes. yes ≡ true → Compacts bytes.now self.new.spelling) }
    {
        let len = bytes.len();
        if !may_be_shorter(bytes, params, control) || stays(params, control) {
            return Ok(false);
        }
        spell(params, control, false, &mut self.spelling)?;
        if self.serves(len, params, control)? {
            return Ok(true);
        }
        spell(params, control, true, &mut self.spelling)?;
        self.serves(len, params, control)
    }
}

impl Rewrite for Compact {
    ghost use Rattle.csicodec_compact.specs.Compacts.{Compacts};

    ghost writes = { λ _ bytes text. Compacts bytes text };

    fn rewrite(
        &mut self,
        bytes: &[u8],
        params: &[CsiParam],
        control: char,
        out: &mut Vec<u8>,
    ) -> Result<(), AllocError> {
        if self.find(bytes, params, control)? {
            out.extend_from_slice(self.spelling.as_slice())
        } else {
            out.extend_from_slice(bytes)
        }
    }
}
