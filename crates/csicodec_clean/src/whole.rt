//! Bytes that are all there, cleaned.
ghost use Rattle.std.specs.Prelude.{◌≡◌, ◌≢◌, ◌++◌, ℕ, List, [], All, IfOk, take};
ghost use Rattle.csicodec_clean.specs.{Shown.IsPlain, Cleaned.Ends, Cleaned.Strips, Cleaned.longest};

use crate::reading::Reading;
use crate::rule::{Anew, Rule};
use crate::spans::append_clean;
use crate::text::{append_front, append_shown};
use bstr::ByteVec;
use csicodec_base::CsiParam;
use csicodec_looks::LANES;
use csicodec_spans::{LIMIT, Mode};
use csicodec_tokens::behind_csi;
use std::alloc::{AllocError, Global};

/// What the rule leaves of the bytes, and what ends it. What isn't over at their end is dropped.
pub fn clean_whole<T: Rule>(
    alloc: Global,
    rule: &mut T,
    bytes: &[u8],
) -> Result<Vec<u8>, AllocError>
    ensures { IfOk result (λ out. Ends T.gives T.closes longest rule.old bytes.now out.items) }
{
    let mut out = Vec::new(alloc);
    let mut params = Vec::new(alloc);
    let mut held = Vec::new(alloc);
    let (_rest, _mode) = append_clean(
        rule,
        &mut params,
        &mut held,
        &mut Reading::first(),
        LIMIT,
        Mode::Text,
        bytes,
        &mut out,
    )?;
    append_shown::<T>(&held, &mut out)?;
    rule.close(&mut out)?;
    Ok(out)
}

/// As many of the first bytes as a sequence may have.
pub(crate) fn near(limit: usize, bytes: &[u8]) -> &[u8]
    ensures { result.now ≡ take limit bytes.now }
{
    bytes.get(..limit).unwrap_or(bytes)
}

/// The rule that drops every control sequence, every escape sequence and every control string.
#[derive(Drop)]
pub struct Dropped;

impl Rule for Dropped {
    ghost use Rattle.std.specs.Prelude.{refl};
    ghost use Rattle.csicodec_clean.specs.Cleaned.{drops, ends_bare};

    ghost gives = { drops };

    ghost closes = { ends_bare };

    #[inline(always)]
    fn append_text(bytes: &[u8], len: usize, out: &mut Vec<u8>) -> Result<(), AllocError> {
        append_front::<LANES>(bytes, len, out)
    }

    fn append_char(char: char, out: &mut Vec<u8>) -> Result<(), AllocError> {
        out.push_char(char)
    }

    fn rewrite(
        &mut self,
        _bytes: &[u8],
        _params: &[CsiParam],
        _control: char,
        _out: &mut Vec<u8>,
    ) -> Result<(), AllocError> {
        Ok(())
    }

    #[tactic(auto, using(crate::proofs::Chunks::sequence_read))]
    #[inline(always)]
    fn take_at_once(
        &mut self,
        limit: usize,
        bytes: &[u8],
        _out: &mut Vec<u8>,
    ) -> Result<usize, AllocError> {
        let front = near(limit, bytes);
        match behind_csi(front) {
            Ok(behind) => Ok(front.len() - behind.len()),
            Err(_) => Ok(0),
        }
    }

    #[inline(always)]
    fn escape(&mut self, _bytes: &[u8], _out: &mut Vec<u8>) -> Result<(), AllocError> {
        Ok(())
    }

    fn reads_strings(&self) -> bool {
        false
    }

    fn take_byte(&mut self, _byte: u8, _out: &mut Vec<u8>) -> Result<(), AllocError> {
        Ok(())
    }

    fn close(&self, _out: &mut Vec<u8>) -> Result<(), AllocError> {
        Ok(())
    }

    ghost newline = { refl };
}

impl Anew<()> for Dropped {
    ghost begins = { λ _. record {} };

    fn begin(&mut self, _by: ()) {}
}

/// The plain text of untrusted bytes: the characters of its text, and no control but newlines and tabs.
///
/// Every control sequence, escape sequence and control string is dropped, and every control but newline and tab, those of C1 (U+0080
/// to U+009F) too, and text directly behind `ESC k`, which is a title in tmux and screen. What is no UTF-8 becomes U+FFFD. Each run of text is read by itself, so that no two halves of a character meet
/// where a sequence between them was dropped.
///
/// ```text
/// strip(alloc, b"a\x1b[31mb\x1b]0;title\x07\r\n")?      // "ab\n"
/// strip(alloc, b"\xc2\x1b[m\x9b")?                      // "\u{FFFD}\u{FFFD}"
/// ```
#[tactic(auto, using(crate::proofs::Plain::strips, crate::proofs::Plain::strips_plain, crate::proofs::Plain::no_escape))]
pub fn strip(alloc: Global, bytes: &[u8]) -> Result<Vec<u8>, AllocError>
    // Run by run, it is what is shown of the text, and nothing else.
    ensures exact { IfOk result (λ out. Strips longest bytes.now out.items) }
    // It is UTF-8 of characters that are shown.
    ensures safe { IfOk result (λ out. IsPlain out.items) }
    ensures no_escape { IfOk result (λ out. All (λ b. b ≢ 27) out.items) }
{
    clean_whole(alloc, &mut Dropped, bytes)
}
