//! A stream that is searched as it comes.
ghost use Rattle.std.specs.Prelude.{IfOk};
ghost use Rattle.csicodec_spans.specs.Parts.{IsUnsure};
ghost use Rattle.csicodec_lines.specs.{Private.Written.Appends, Private.Written.open_at, Private.Steps.Finds, Private.Steps.IsBegun};
ghost use Rattle.csicodec_clean.specs.Cleaned.{longest};

use crate::search::CutSearch;
use csicodec_clean::{read_as, title_behind};
use csicodec_spans::{LIMIT, Mode, Waiting, next_span};
use csicodec_transform::Transform;
use std::alloc::{AllocError, Global};

/// Appends the places in all spans of the bytes that are sure, and answers the bytes that aren't, and the mode there.
fn append_places<'a>(
    search: &mut CutSearch,
    titled: &mut bool,
    mode: Mode,
    bytes: &'a [u8],
    out: &mut Vec<u8>,
) -> Result<(&'a [u8], Mode), AllocError>
    ensures unsure { IfOk result (λ (rest, after). IsUnsure longest after rest.now) }
    ensures found { IfOk result (λ (rest, after). Appends Finds
        (open_at (search.old, titled.old) longest mode bytes.now) out.old.items out.new.items
        (open_at (search.new, titled.new) longest after rest.now)) }
{
    let (mut rest, mut mode) = (bytes, mode);
    while let Some(cut) = next_span(LIMIT, mode, rest) {
        let kind = read_as(cut.span.kind, *titled);
        search.take(kind, cut.span.bytes, out)?;
        *titled = title_behind(*titled, cut.span.kind, cut.span.bytes);
        rest = cut.rest;
        mode = cut.mode;
    }
    Ok((rest, mode))
}

/// A stream whose places are told as it comes. It holds a control sequence that isn't over, of fewer than 65536 bytes.
#[derive(Drop)]
pub(crate) struct Finder {
    search: CutSearch,
    titled: bool,
    waiting: Waiting,
}

impl Finder {
    /// A stream of which nothing has come.
    pub(crate) fn new(alloc: Global, every: u64) -> Finder
        ensures { IsBegun every result }
    {
        Finder {
            search: CutSearch::new(every),
            titled: false,
            waiting: Waiting::new(alloc, LIMIT),
        }
    }
}

impl Transform for Finder {
    ghost use Rattle.std.specs.Prelude.{⊤, ◌≡◌, []};
    ghost use Rattle.csicodec_clean.specs.Cleaned.{longest};
    ghost use Rattle.csicodec_lines.specs.Private.Steps.{Passes};

    ghost stands = { λ now. now.waiting.limit ≡ longest };

    ghost passes = { Passes };

    ghost rests = { λ _. ⊤ };

    ghost ends = { λ _ text. text ≡ [] };

    fn take(&mut self, bytes: &[u8], out: &mut Vec<u8>) -> Result<(), AllocError> {
        let Some(all) = self.waiting.add(bytes)? else {
            return Ok(());
        };
        let (rest, mode) = append_places(
            &mut self.search,
            &mut self.titled,
            self.waiting.mode(),
            &all,
            out,
        )?;
        let used = all.len() - rest.len();
        self.waiting.keep(all, used, mode);
        Ok(())
    }

    fn pause(&mut self, _out: &mut Vec<u8>) -> Result<(), AllocError> {
        Ok(())
    }

    fn end(&mut self, _out: &mut Vec<u8>) -> Result<(), AllocError> {
        Ok(())
    }
}
