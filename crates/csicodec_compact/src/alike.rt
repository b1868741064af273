//! Whether two sequences have the same actions.
ghost use Rattle.std.specs.{Prelude.◌≡◌, Prelude.◌==◌, Prelude.◌&&◌, Prelude.ℕ, Prelude.List, Prelude.true, Prelude.not, Prelude.IfOk, List.list_any};
ghost use Rattle.csicodec_tokens.specs.Sequence.{Seq};
ghost use Rattle.csicodec_compact.specs.{Compacts.ReadsAlike, Private.Steps.IsOneNormalised};

use csicodec_base::{CsiParam, ReadError, read_csi_into};
use csicodec_parser::{Texts, parse_into};
use std::alloc::{AllocError, Global};

/// Reads sequences, and compares what they are read as by their normal forms. Its buffers are kept from call to call.
#[derive(Drop)]
pub(crate) struct Comparer {
    alloc: Global,
    params: Vec<CsiParam>,
    came: Texts,
    other: Texts,
}

/// Whether the normal form tells which actions they are: it doesn't of left and right margins (DECSLRM, `s`) and of a request for
/// the terminal's parameters (DECREQTPARM, `x`).
fn tells(normal: &[u8]) -> bool
    ensures { result
        ≡ (not (list_any (λ b. b == 115) normal.now) && not (list_any (λ b. b == 120) normal.now)) }
{
    !normal.contains(&b's') && !normal.contains(&b'x')
}

impl Comparer {
    /// With buffers that take no memory yet.
    pub fn new(alloc: Global) -> Comparer {
        Comparer {
            alloc,
            params: Vec::new(alloc),
            came: Texts::new(alloc),
            other: Texts::new(alloc),
        }
    }

    /// Whether the bytes are one control sequence. `other` has its normal form then.
    fn read(&mut self, bytes: &[u8]) -> Result<bool, AllocError>
        ensures { IfOk result (λ yes. yes ≡ true → IsOneNormalised bytes.now self.new.other.bytes) }
    {
        let tail = match read_csi_into(&mut self.params, bytes) {
            Ok(tail) => tail,
            Err(ReadError::Memory) => return Err(AllocError),
            Err(_) => return Ok(false),
        };
        self.other.bytes.clear();
        parse_into(
            self.alloc,
            &self.params,
            false,
            tail.control,
            &mut self.other,
        )?;
        Ok(tail.rest.is_empty())
    }

    /// Whether these bytes are one control sequence whose normal form this is, and it tells the actions.
    pub fn has_normal_form(&mut self, other: &[u8], normal: &[u8]) -> Result<bool, AllocError>
        ensures { IfOk result (λ yes. yes ≡ true → ReadsAlike normal.now other.now) }
    {
        if !self.read(other)? {
            return Ok(false);
        }
        Ok(tells(normal) && normal == self.other.bytes.as_slice())
    }

    /// Whether these bytes are one control sequence that is read as this list before this final is.
    pub fn reads_alike(
        &mut self,
        params: &[CsiParam],
        control: char,
        other: &[u8],
    ) -> Result<bool, AllocError>
        ensures { IfOk result
            (λ yes. yes ≡ true → (bytes : List ℕ) → Seq bytes params.now control
            → ReadsAlike bytes other.now) }
    {
        if !self.read(other)? {
            return Ok(false);
        }
        self.came.bytes.clear();
        parse_into(self.alloc, params, false, control, &mut self.came)?;
        let came = self.came.bytes.as_slice();
        Ok(tells(came) && came == self.other.bytes.as_slice())
    }
}
