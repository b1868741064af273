//! How text is written, and what for a control sequence, an escape sequence, and a control string.
ghost use Rattle.std.specs.Prelude.{◌≡◌, ◌<◌, ◌≤◌, ◌++◌, ◌∷◌, [], ℕ, List, OnOk, IfOk, false, encode_utf8_all, length, take};
ghost use Rattle.csicodec_tokens.specs.Sequence.{Seq};
ghost use Rattle.csicodec_spans.specs.Parts.{IsSequence};
ghost use Rattle.csicodec_clean.specs.{Cleaned.RuleOf, Shown.IsWritten, Shown.written};

use csicodec_base::CsiParam;
use std::alloc::AllocError;

/// How text is written, and what in the place of a control sequence, of an escape sequence and of a control string, and at the end of the stream.
pub trait Rule {
    /// How text is written; from a state, in the place of a control sequence, of an escape sequence or of a byte of a control string, a text, and
    /// the state then.
    ghost gives: { RuleOf Self };

    /// In this state, this text ends the output.
    ghost closes: { Self → List ℕ → Type 0 };

    /// Appends so many of the first bytes, which are UTF-8 of characters that are shown.
    fn append_text(bytes: &[u8], len: usize, out: &mut Vec<u8>) -> Result<(), AllocError>
        requires { len ≤ length bytes.now }
        ensures { OnOk result
            (IsWritten gives.writing (take len bytes.now) out.old.items out.new.items) };

    /// Appends a character that is shown.
    fn append_char(char: char, out: &mut Vec<u8>) -> Result<(), AllocError>
        ensures { OnOk result
            (out.new.items ≡ out.old.items ++ written gives.writing (char ∷ [])) };

    /// Appends what stands in the place of one control sequence.
    fn rewrite(
        &mut self,
        bytes: &[u8],
        params: &[CsiParam],
        control: char,
        out: &mut Vec<u8>,
    ) -> Result<(), AllocError>
        requires { Seq bytes.now params.now control }
        ensures { OnOk result
            ((text : List ℕ) × gives.sequence self.old bytes.now text self.new
            × (out.new.items ≡ out.old.items ++ text)) };

    /// Takes the control sequence in front at once, where the rule can: appends what stands in its place, and answers how many bytes it
    /// has, at most `limit`. It answers 0 where it takes none, and then nothing changes; `rewrite` is called for that one.
    fn take_at_once(
        &mut self,
        limit: usize,
        bytes: &[u8],
        out: &mut Vec<u8>,
    ) -> Result<usize, AllocError>
        ensures within { IfOk result (λ len. (len ≤ limit) × (len ≤ length bytes.now)) }
        ensures taken { IfOk result
            (λ len. 0 < len → (text : List ℕ) × IsSequence (take len bytes.now)
            × gives.sequence self.old (take len bytes.now) text self.new
            × (out.new.items ≡ out.old.items ++ text)) }
        ensures none { IfOk result
            (λ len. len ≡ 0 → (self.new ≡ self.old) × (out.new.items ≡ out.old.items)) };

    /// Appends what stands in the place of one escape sequence.
    fn escape(&mut self, bytes: &[u8], out: &mut Vec<u8>) -> Result<(), AllocError>
        ensures { OnOk result
            ((text : List ℕ) × gives.escape self.old bytes.now text self.new
            × (out.new.items ≡ out.old.items ++ text)) };

    /// Whether the bytes of control strings are read. Where they aren't, each gives nothing and changes nothing.
    fn reads_strings(&self) -> bool
        ensures { result ≡ false → (byte : ℕ) → gives.byte self.now byte [] self.now };

    /// Appends what stands in the place of the next byte of a control string: one comes in any cut, from the ESC on that opens it.
    fn take_byte(&mut self, byte: u8, out: &mut Vec<u8>) -> Result<(), AllocError>
        ensures { OnOk result
            ((text : List ℕ) × gives.byte self.old byte text self.new
            × (out.new.items ≡ out.old.items ++ text)) };

    /// Appends what ends the output: nothing comes any more.
    fn close(&self, out: &mut Vec<u8>) -> Result<(), AllocError>
        ensures { OnOk result
            ((text : List ℕ) × closes self.now text × (out.new.items ≡ out.old.items ++ text)) };

    /// A newline is written as it is.
    ghost newline: { written gives.writing (10 ∷ []) ≡ encode_utf8_all (10 ∷ []) };
}

/// What can go back to where nothing has come, by what it is told: a rule, and a stream that one cleans.
pub trait Anew<P> {
    /// How it begins by that.
    ghost begins: { P → Self };

    /// Goes back there.
    fn begin(&mut self, by: P)
        ensures { self.new ≡ begins by };
}
