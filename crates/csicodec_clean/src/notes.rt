//! What is noted of control sequences that came before: the styles that stay of each.
ghost use Rattle.std.specs.Prelude.{◌≡◌, ◌+◌, ◌<◌, ◌≤◌, ◌++◌, ◌∷◌, [], ℕ, List, map, true, false, length, take, IfOk, OnOk};
ghost use Rattle.csicodec_parser.specs.ActionOf.{action_of};
ghost use Rattle.csicodec_transform.specs.Known.{AreKnown};
ghost use Rattle.csicodec_looks.specs.declared.xterm.Depth.TheVariants.{Full as AllColors};
ghost use Rattle.csicodec_clean.specs.Private.Notes.{HasPlaces, IsLeft, IsNoted, IsSplit, code_of, depth_byte, kept, note_of, places, stays};
ghost use Rattle.csicodec_clean.specs.{Saving.are_lasting, Saving.effect_of, Styled.attribute, Styled.style_texts};
ghost use Rattle.csicodec_base.specs.declared.sgr.Sgr.{Sgr as Style};
ghost use Rattle.csicodec_terminal.specs.Terminal.{IsTakenFor};

use crate::rendition::{
    HEAD, MIXED, NOTHING, RESET, Rendition, attribute, hides, is_reset, style_text, text_of,
};
use crate::saving::{Effect, action_effect, is_lasting};
use crate::styles::Passing;
use crate::text::append_front;
use csicodec_base::{CsiParam, ReadError, Sgr, read_csi_into};
use csicodec_looks::LANES;
use csicodec_looks::xterm::{Depth, reduced};
use csicodec_parser::CSI;
use csicodec_streams::{color_text, position_len, read_color};
use csicodec_terminal::terminal_actions_into;
use csicodec_transform::{Known, Note};
use std::alloc::{AllocError, Global};

/// The note that is what stays of a sequence.
#[derive(Drop)]
pub(crate) struct StyleNote;

impl Note for StyleNote {
    ghost use Rattle.csicodec_clean.specs.Private.Notes.{IsNoted};

    ghost notes = { λ bytes note. IsNoted bytes note };
}

/// The colours that stay, as a byte.
fn depth_byte(depth: Depth) -> u8
    ensures { result ≡ depth_byte depth }
{
    match depth {
        Depth::Full => 0,
        Depth::Palette => 1,
        Depth::Ansi => 2,
    }
}

/// Appends the text that is noted of the sequence that was found last, whose styles come, if it was noted with these colours.
#[inline(always)]
pub(crate) fn append_noted(
    known: &Known<StyleNote>,
    passing: Passing,
    rendition: &mut Rendition,
    out: &mut Vec<u8>,
) -> Result<bool, AllocError>
    requires { (bytes : List ℕ) × IsNoted bytes known.now.note }
    ensures left { IfOk result (λ is. is ≡ true → (bytes : List ℕ) → IsNoted bytes known.now.note
        → IsLeft passing bytes rendition.old rendition.new out.old.items out.new.items) }
    ensures none { IfOk result (λ is. is ≡ false → (rendition.new ≡ rendition.old) × (out.new.items ≡ out.old.items)) }
{
    let note = known.noted();
    if note[0] != depth_byte(passing.depth) {
        return Ok(false);
    }
    let (start, len) = text_of(note);
    rendition.take_note(passing, note, known.wide());
    append_front::<LANES>(known.wide().split_at(start).1, len, out)?;
    Ok(true)
}

/// What begins with the note of a colour, where all stay, by what begins with its normal form.
#[inline(always)]
fn color_note(style: &Sgr, text: &[u8; 24]) -> [u8; 26]
    ensures { result ≡ depth_byte AllColors ∷ attribute style.now ∷ text.now }
{
    let mut note = [0; 26];
    note[..HEAD].copy_from_slice(&[depth_byte(Depth::Full), attribute(style)]);
    note[HEAD..].copy_from_slice(text);
    note
}

/// Where the styles stand in a text: how long it is up to the last reset, and of each style behind that the place of its attribute, and
/// how long its text is.
#[derive(Drop)]
struct Places {
    front: usize,
    since: Vec<u8>,
}

impl Places {
    /// Appends the text of one more style to a text that starts there.
    fn append(&mut self, style: &Sgr, start: usize, out: &mut Vec<u8>) -> Result<(), AllocError>
        requires { start ≤ length out.old.items }
        ensures text { OnOk result (out.new.items ≡ out.old.items ++ style_texts (style.now ∷ [])) }
        ensures places { OnOk result ((styles : List Style) → length out.old.items ≡ start + length (style_texts styles)
            → HasPlaces styles self.old.front self.old.since.items
            → HasPlaces (styles ++ style.now ∷ []) self.new.front self.new.since.items) }
    {
        let text = style_text(style);
        let text = text.as_bytes();
        out.extend_from_slice(text)?;
        if is_reset(style) {
            self.since.clear();
            self.front = out.len() - start;
            return Ok(());
        }
        self.since
            .extend_from_slice(&[attribute(style), text.len() as u8])?;
        Ok(())
    }

    /// Appends the style of an action, if it is one that stays.
    fn append_kept(
        &mut self,
        depth: Depth,
        action: &CSI,
        start: usize,
        out: &mut Vec<u8>,
    ) -> Result<(), AllocError>
        requires { start ≤ length out.old.items }
        ensures text { OnOk result (out.new.items ≡ out.old.items ++ style_texts (stays depth (effect_of (action_of action.now)))) }
        ensures places { OnOk result ((styles : List Style) → length out.old.items ≡ start + length (style_texts styles)
            → HasPlaces styles self.old.front self.old.since.items
            → HasPlaces (styles ++ stays depth (effect_of (action_of action.now))) self.new.front self.new.since.items) }
    {
        let style = match action_effect(action) {
            Some(Effect::Sets(style)) => style,
            None | Some(Effect::Clears | Effect::Saves | Effect::Restores) => return Ok(()),
        };
        if hides(&style) {
            return Ok(());
        }
        self.append(&reduced(depth, style), start, out)?;
        Ok(())
    }

    /// Appends the styles of the actions that stay.
    fn append_all(
        &mut self,
        depth: Depth,
        actions: &[CSI],
        out: &mut Vec<u8>,
    ) -> Result<(), AllocError>
        ensures text { OnOk result (out.new.items ≡ out.old.items ++ style_texts (kept depth (map action_of actions.now))) }
        ensures places { OnOk result (HasPlaces (kept depth (map action_of actions.now)) self.new.front self.new.since.items) }
    {
        self.front = 0;
        self.since.clear();
        let start = out.len();
        let mut rest = actions;
        while let Some((action, others)) = rest.split_first() {
            self.append_kept(depth, action, start, out)?;
            rest = others;
        }
        Ok(())
    }

    /// What a note says of them.
    fn code(&self) -> u8
        ensures { (styles front since : List Style) → IsSplit styles front since → self.now.front ≡ length (style_texts front)
            → self.now.since.items ≡ places since → result ≡ code_of front since }
    {
        if self.since.is_empty() {
            return if self.front == 0 { NOTHING } else { RESET };
        }
        if self.front == 0 && self.since.len() == 2 {
            return self.since[0];
        }
        MIXED
    }

    /// Writes the note of a text.
    fn write_note(&self, depth: Depth, text: &[u8], note: &mut Vec<u8>) -> Result<(), AllocError>
        requires front { self.now.front ≤ 255 }
        requires since { length self.now.since.items ≤ 510 }
        ensures { OnOk result ((styles front since : List Style) → IsSplit styles front since → self.now.front ≡ length (style_texts front)
            → self.now.since.items ≡ places since → text.now ≡ style_texts styles → note.new.items ≡ note_of depth front since) }
    {
        note.clear();
        let code = self.code();
        note.extend_from_slice(&[depth_byte(depth), code])?;
        if code != MIXED {
            note.extend_from_slice(text)?;
            return Ok(());
        }
        let since = self.since.as_slice();
        note.extend_from_slice(&[self.front as u8, (since.len() / 2) as u8])?;
        note.extend_from_slice(text)?;
        note.extend_from_slice(since)?;
        Ok(())
    }
}

/// Whether a sequence of these actions may have a note: it has few, and saves nothing, and brings nothing back.
fn is_noted(actions: &[CSI]) -> bool
    ensures { result ≡ true → (length actions.now ≤ 7) × (are_lasting (map action_of actions.now) ≡ true) }
{
    if actions.len() > 7 {
        return false;
    }
    let mut rest = actions;
    while let Some((action, others)) = rest.split_first() {
        if !is_lasting(action_effect(action)) {
            return false;
        }
        rest = others;
    }
    true
}

/// What is noted of sequences that came before, and places that are kept for one that is read: its tokens, its actions, and its note.
#[derive(Drop)]
pub(crate) struct SequenceNotes {
    pub(crate) alloc: Global,
    pub(crate) known: Known<StyleNote>,
    params: Vec<CsiParam>,
    pub(crate) actions: Vec<CSI>,
    places: Places,
    note: Vec<u8>,
}

impl SequenceNotes {
    /// With nothing noted.
    pub(crate) fn new(alloc: Global) -> SequenceNotes
        ensures { AreKnown IsNoted result.known.memo.slots.items }
    {
        SequenceNotes {
            alloc,
            known: Known::new(alloc),
            params: Vec::new(alloc),
            actions: Vec::new(alloc),
            places: Places {
                front: 0,
                since: Vec::new(alloc),
            },
            note: Vec::new(alloc),
        }
    }

    /// Takes the true colour in front, where all colours stay: appends its normal form, and notes it; answers how many bytes its sequence has. It answers 0 where it
    /// takes none.
    #[inline(always)]
    fn take_color(
        &mut self,
        passing: Passing,
        rendition: &mut Rendition,
        bytes: &[u8],
        out: &mut Vec<u8>,
    ) -> Result<usize, AllocError>
        requires known { AreKnown IsNoted self.old.known.memo.slots.items }
        ensures within { IfOk result (λ len. len ≤ length bytes.now) }
        ensures left { IfOk result (λ len. 0 < len
            → IsLeft passing (take len bytes.now) rendition.old rendition.new out.old.items out.new.items) }
        ensures none { IfOk result (λ len. len ≡ 0 → (rendition.new ≡ rendition.old) × (out.new.items ≡ out.old.items)) }
        ensures known { AreKnown IsNoted self.new.known.memo.slots.items }
    {
        let Depth::Full = passing.depth else {
            return Ok(0);
        };
        let Some((style, rest)) = read_color(bytes) else {
            return Ok(0);
        };
        let Some(text) = color_text(bytes) else {
            return Ok(0);
        };
        let len = bytes.len() - rest.len();
        append_front::<24>(&text, len + 1, out)?;
        let wide = color_note(&style, &text);
        let note = wide.split_at(len + 3).0;
        rendition.take_note(passing, note, &wide);
        self.known.keep(bytes, len, note);
        Ok(len)
    }

    /// Keeps the actions of the sequence in front, and answers how many bytes it has; 0 where none stands there.
    #[inline(always)]
    fn read(&mut self, bytes: &[u8]) -> Result<usize, AllocError>
        ensures within { IfOk result (λ len. len ≤ length bytes.now) }
        ensures read { IfOk result (λ len. 0 < len
            → IsTakenFor (take len bytes.now) (map action_of self.new.actions.items)) }
        ensures known { self.new.known ≡ self.old.known }
    {
        self.actions.clear();
        if let Some((sgr, rest)) = read_color(bytes) {
            self.actions.push(CSI::Sgr(sgr))?;
            return Ok(bytes.len() - rest.len());
        }
        match read_csi_into(&mut self.params, bytes) {
            Ok(tail) => {
                let actions = &mut self.actions;
                terminal_actions_into(self.alloc, &self.params, false, tail.control, actions)?;
                Ok(bytes.len() - tail.rest.len())
            }
            Err(ReadError::Memory) => Err(AllocError),
            Err(_) => Ok(0),
        }
    }

    /// Appends what stays of the sequence in front, which isn't known, and notes it, unless it only moves the cursor; answers how many
    /// bytes it has. It answers 0 where no sequence stands there, and where one has no note.
    #[inline(never)]
    pub(crate) fn take_new(
        &mut self,
        passing: Passing,
        rendition: &mut Rendition,
        bytes: &[u8],
        out: &mut Vec<u8>,
    ) -> Result<usize, AllocError>
        requires { AreKnown IsNoted self.old.known.memo.slots.items }
        ensures within { IfOk result (λ len. len ≤ length bytes.now) }
        ensures left { IfOk result (λ len. 0 < len
            → IsLeft passing (take len bytes.now) rendition.old rendition.new out.old.items out.new.items) }
        ensures none { IfOk result
            (λ len. len ≡ 0 → (rendition.new ≡ rendition.old) × (out.new.items ≡ out.old.items)) }
        ensures known { AreKnown IsNoted self.new.known.memo.slots.items }
    {
        // What saves the cursor, and brings it back, has three bytes.
        let moved = position_len(b'1', bytes);
        if moved > 3 {
            return Ok(moved);
        }
        let colored = self.take_color(passing, rendition, bytes, out)?;
        if colored > 0 {
            return Ok(colored);
        }
        let len = self.read(bytes)?;
        if len == 0 {
            return Ok(0);
        }
        if !is_noted(&self.actions) {
            rendition.take_all(passing, &self.actions, out)?;
            return Ok(len);
        }
        let before = out.len();
        self.places.append_all(passing.depth, &self.actions, out)?;
        let text = out.split_at(before).1;
        self.places.write_note(passing.depth, text, &mut self.note)?;
        let note_len = self.note.len();
        self.note.extend_from_slice(&[0; 32])?;
        let note = self.note.split_at(note_len).0;
        rendition.take_note(passing, note, &self.note);
        self.known.keep(bytes, len, note);
        Ok(len)
    }
}
