//! Bytes that are all there, with the styles of their text, and its links.
ghost use Rattle.std.specs.Prelude.{◌≡◌, [], false, IfOk};
ghost use Rattle.csicodec_clean.specs.Styled.{Styles, StylesIn, IsStyled, IsStyledIn, Keeping, first_kept, keeping, rendition, resumed, spelled, without_links};
ghost use Rattle.csicodec_clean.specs.{Links.start, Marked.IsMarked};

use crate::links::LinkReader;
use crate::notes::{SequenceNotes, append_noted};
use crate::rendition::Rendition;
use crate::rule::{Anew, Rule};
use crate::saving::escape_effect;
use crate::text::append_front;
use crate::whole::{clean_whole, near};
use bstr::ByteVec;
use csicodec_base::{CsiParam, Sgr};
use csicodec_looks::LANES;
use csicodec_looks::xterm::Depth;
use csicodec_parser::CSI;
use csicodec_streams::encode;
use csicodec_terminal::terminal_actions_into;
use std::alloc::{AllocError, Global};
use std::marker::Model;

/// What passes beside text and styles.
#[derive(Clone, Copy, PartialEq, Eq, Debug)]
pub struct Passing {
    /// Which colours stay.
    pub depth: Depth,
    /// Whether links pass (OSC 8) to a host by http or https whose address is visible ASCII, of at most 2,083 bytes, and has no user's
    /// name, with at most 256 bytes of parameters. Any other address passes as none, and ends the link before it.
    pub links: bool,
    /// Whether DECRC brings back the styles that DECSC saved.
    pub restores: bool,
}

/// The rule that keeps the known styles but concealed text and fonts, in their normal form, and ends the output with a reset where one is open; and
/// links, where they pass, of which none is left open either.
#[derive(Drop)]
pub struct Kept {
    passing: Passing,
    rendition: Rendition,
    linked: bool,
    link: LinkReader,
    notes: SequenceNotes,
}

impl Model for Kept {
    ghost use Rattle.csicodec_clean.specs.Links.{come};
    ghost use Rattle.csicodec_clean.specs.Styled.{Keeping, keeping};

    ghost Value = { Keeping };

    ghost use Rattle.csicodec_clean.specs.Private.Notes.{IsNoted};
    ghost use Rattle.csicodec_transform.specs.Known.{AreKnown};

    ghost view = { λ k. keeping k.passing k.rendition k.linked (come k.link) };

    ghost invariant = { λ k. AreKnown IsNoted k.notes.known.memo.slots.items };
}

impl Kept {
    /// With a style open or none, and no link.
    fn opened(alloc: Global, passing: Passing, styled: bool) -> Kept
        ensures { result ≡ keeping passing (spelled (rendition styled [] [])) false start }
    {
        Kept {
            passing,
            rendition: Rendition::new(styled),
            linked: false,
            link: LinkReader::new(alloc),
            notes: SequenceNotes::new(alloc),
        }
    }

    /// In the middle of a stream, where no links pass, and no styles are brought back.
    pub(crate) fn resumed(alloc: Global, depth: Depth, styled: bool) -> Kept
        ensures { result ≡ resumed depth styled }
    {
        let passing = Passing {
            depth,
            links: false,
            restores: false,
        };
        Kept::opened(alloc, passing, styled)
    }

    /// Whether a style is open.
    pub(crate) fn is_styled(&self) -> bool
        ensures { result ≡ self.now.rendition.styled }
    {
        self.rendition.is_styled()
    }

    /// At the beginning of a stream, where no style is open.
    pub fn letting(alloc: Global, passing: Passing) -> Kept
        ensures { result ≡ first_kept passing }
    {
        Kept::opened(alloc, passing, false)
    }
}

impl Rule for Kept {
    ghost use Rattle.std.specs.Prelude.{refl};
    ghost use Rattle.csicodec_clean.specs.Styled.{resets, keeps};

    ghost gives = { keeps };

    ghost closes = { resets };

    #[inline(always)]
    fn append_text(bytes: &[u8], len: usize, out: &mut Vec<u8>) -> Result<(), AllocError> {
        append_front::<LANES>(bytes, len, out)
    }

    fn append_char(char: char, out: &mut Vec<u8>) -> Result<(), AllocError> {
        out.push_char(char)
    }

    fn rewrite(
        &mut self,
        bytes: &[u8],
        params: &[CsiParam],
        control: char,
        out: &mut Vec<u8>,
    ) -> Result<(), AllocError> {
        let passing = self.passing;
        let actions = &mut self.notes.actions;
        terminal_actions_into(self.notes.alloc, params, false, control, actions)?;
        self.rendition.take_all(passing, &self.notes.actions, out)
    }

    #[inline(always)]
    fn take_at_once(
        &mut self,
        limit: usize,
        bytes: &[u8],
        out: &mut Vec<u8>,
    ) -> Result<usize, AllocError> {
        let known = self.notes.known.look(limit, bytes);
        if known == 0 {
            let front = near(limit, bytes);
            let len = self
                .notes
                .take_new(self.passing, &mut self.rendition, front, out)?;
            return Ok(len);
        }
        if append_noted(&self.notes.known, self.passing, &mut self.rendition, out)? {
            return Ok(known);
        }
        Ok(0)
    }

    #[inline(always)]
    fn escape(&mut self, bytes: &[u8], out: &mut Vec<u8>) -> Result<(), AllocError> {
        let passing = self.passing;
        self.rendition.take(passing, escape_effect(bytes), out)
    }

    #[tactic(auto, using(crate::proofs::Styled::gives_none))]
    fn reads_strings(&self) -> bool {
        self.passing.links
    }

    #[tactic(auto, using(crate::proofs::Styled::gives_none, crate::proofs::Styled::gives_link))]
    fn take_byte(&mut self, byte: u8, out: &mut Vec<u8>) -> Result<(), AllocError> {
        if self.passing.links {
            self.linked = self.link.append_byte(byte, self.linked, out)?;
        }
        Ok(())
    }

    fn close(&self, out: &mut Vec<u8>) -> Result<(), AllocError> {
        if self.linked {
            out.extend_from_slice(b"\x1b]8;;\x1b\\")?;
        }
        if self.is_styled() {
            encode(&CSI::Sgr(Sgr::Reset), out)?;
        }
        Ok(())
    }

    ghost newline = { refl };
}

impl Anew<Passing> for Kept {
    ghost use Rattle.csicodec_clean.specs.Styled.{first_kept};

    ghost begins = { first_kept };

    fn begin(&mut self, by: Passing) {
        self.passing = by;
        self.rendition.clear();
        self.linked = false;
        self.link.clear();
    }
}

/// The text of untrusted bytes and its styles: as [`strip`](crate::strip), but the attributes of text (SGR) stay, in their normal
/// form, one sequence for each.
///
/// Those that are unknown are dropped, and `ESC [ 8 m`, which hides what follows, and the fonts 11 to 19. Where the last of them is no reset, a reset ends the
/// output, so that nothing of it colours what is written next.
///
/// ```text
/// clean(alloc, b"\x1b[01;31mred\x1b[2Jtext")?      // "\x1b[1m\x1b[31mredtext\x1b[0m"
/// ```
pub fn clean(alloc: Global, bytes: &[u8]) -> Result<Vec<u8>, AllocError>
    // Run by run, it is what is shown of the text, and between them the styles that stay.
    ensures exact { IfOk result (λ out. Styles bytes.now out.items) }
    // It is texts of characters that are shown and of such styles, and leaves none open.
    ensures safe { IfOk result (λ out. IsStyled out.items) }
    // The same, told of its bytes alone.
    ensures marked { IfOk result (λ out. IsMarked false out.items) }
{
    clean_in(alloc, Depth::Full, bytes)
}

/// The same with fewer colours: each that doesn't stay becomes the nearest that does.
///
/// ```text
/// clean_in(alloc, Depth::Ansi, b"\x1b[38;2;250;5;5mred")?      // "\x1b[91mred\x1b[0m"
/// ```
pub fn clean_in(alloc: Global, depth: Depth, bytes: &[u8]) -> Result<Vec<u8>, AllocError>
    ensures exact { IfOk result (λ out. StylesIn (without_links depth) bytes.now out.items) }
    ensures safe { IfOk result (λ out. IsStyledIn (without_links depth) out.items) }
    ensures marked { IfOk result (λ out. IsMarked false out.items) }
{
    let passing = Passing {
        depth,
        links: false,
        restores: true,
    };
    clean_with(alloc, passing, bytes)
}

/// The same with what passes: where links do, each whose address may, in its normal form, which ST ends. Where the last of them has
/// an address, one without ends the output, so that what is written next leads nowhere.
///
/// ```text
/// let passing = Passing { depth: Depth::Full, links: true, restores: true };
/// clean_with(alloc, passing, b"\x1b]8;;http://a.example\x07text")?      // "\x1b]8;;http://a.example\x1b\\text\x1b]8;;\x1b\\"
/// ```
pub fn clean_with(alloc: Global, passing: Passing, bytes: &[u8]) -> Result<Vec<u8>, AllocError>
    ensures exact { IfOk result (λ out. StylesIn passing bytes.now out.items) }
    // It is texts of characters that are shown, of such styles and of such links, and leaves none open.
    ensures safe { IfOk result (λ out. IsStyledIn passing out.items) }
    ensures marked { IfOk result (λ out. IsMarked passing.links out.items) }
{
    clean_whole(alloc, &mut Kept::letting(alloc, passing), bytes)
}
