//! What is written in the place of a control sequence.
ghost use Rattle.std.specs.Prelude.{◌≡◌, ◌++◌, ℕ, List, true, OnOk};
ghost use Rattle.csicodec_tokens.specs.Sequence.{Seq};
ghost use Rattle.csicodec_streams.specs.Decoding.{NormalisesTo};

use csicodec_base::CsiParam;
use csicodec_parser::{Texts, parse_into};
use std::alloc::{AllocError, Global};

/// What is written in the place of a control sequence.
///
/// A filter of one's own is an `impl` of this: what it does to a sequence may depend on the tokens, or on the actions that
/// they stand for ([`parse_all`](crate::parse_all)), and on what it holds, but not on the sequences before.
///
/// ```text
/// impl Rewrite for TextAlone {                       // drops each control sequence
///     ghost writes = { λ _ _ text. text ≡ [] };
///
///     fn rewrite(&mut self, _: &[u8], _: &[CsiParam], _: char, _: &mut Vec<u8>) -> Result<(), AllocError> {
///         Ok(())
///     }
/// }
/// ```
pub trait Rewrite {
    /// In the place of these bytes of a sequence this text is written.
    ghost writes: { Self → List ℕ → List ℕ → Type 0 };

    /// Appends what stands in the place of one control sequence: `bytes` as it came, `params` its tokens, and `control` its
    /// final byte as a character. Nothing is appended where it is to be dropped.
    fn rewrite(
        &mut self,
        bytes: &[u8],
        params: &[CsiParam],
        control: char,
        out: &mut Vec<u8>,
    ) -> Result<(), AllocError>
        requires { Seq bytes.now params.now control }
        ensures text { OnOk result
            ((text : List ℕ) × writes self.old bytes.now text
            × (out.new.items ≡ out.old.items ++ text)) }
        ensures same { OnOk result
            ((bytes text : List ℕ) → writes self.new bytes text → writes self.old bytes text) };

    /// Whether it writes normal forms. Then a sequence that came before may be looked up, and isn't passed to `rewrite` again.
    fn writes_normal_forms(&self) -> bool
        ensures { result ≡ true → (bytes text : List ℕ)
            → (NormalisesTo bytes text → writes self.now bytes text)
            × (writes self.now bytes text → NormalisesTo bytes text) }
    {
        false
    }
}

/// Each control sequence in its normal form: the texts of its actions, one sequence for each.
#[derive(Drop)]
pub struct NormalForm {
    alloc: Global,
    texts: Texts,
}

impl NormalForm {
    /// With a buffer of its own, which is kept from sequence to sequence.
    pub fn new(alloc: Global) -> NormalForm {
        NormalForm {
            alloc,
            texts: Texts::new(alloc),
        }
    }
}

impl Rewrite for NormalForm {
    ghost writes = { λ _ bytes text. NormalisesTo bytes text };

    fn rewrite(
        &mut self,
        _bytes: &[u8],
        params: &[CsiParam],
        control: char,
        out: &mut Vec<u8>,
    ) -> Result<(), AllocError> {
        self.texts.bytes.clear();
        parse_into(self.alloc, params, false, control, &mut self.texts)?;
        out.extend_from_slice(self.texts.bytes.as_slice())?;
        Ok(())
    }

    fn writes_normal_forms(&self) -> bool {
        true
    }
}
