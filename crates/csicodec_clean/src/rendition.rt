//! How text is rendered: the styles that are set, and those that are saved (ECMA-48, 8.3.117), told by their texts.
ghost use Rattle.std.specs.Prelude.{◌≡◌, ◌<◌, ◌≤◌, ◌++◌, ◌∷◌, [], ℕ, List, OnOk, Some, true, length, map, replicate, slice_index, slice_index_or, slice_set, take, ◌+◌, nat_lt, if◌then◌else◌};
ghost use Rattle.std.specs.{List.concat, Str.bytes_eq};
ghost use Rattle.csicodec_parser.specs.ActionOf.{action_of};
ghost use Rattle.csicodec_clean.specs.Styled.{Rendition as Rendered, attribute, behind_styles, brought_back, hides, is_open, is_reset, plain_rendition, rendition, rendition_by, rendition_in, set_back, spelled, style_texts, styles_by, styles_in, settled_texts};
ghost use Rattle.csicodec_clean.specs.{declared.saving.Effect.TheVariants.Sets, Private.Notes.Adds, Private.Notes.ArePlaced, Private.Notes.HasText};
ghost use Rattle.csicodec_clean.specs.{Private.Notes.IsNote, Private.Notes.IsTaken};
ghost use Rattle.csicodec_base.specs.declared.sgr.Sgr.{Sgr as Style};

use crate::saving::{Effect, action_effect};
use crate::styles::Passing;
use crate::whole::near;
use csicodec_base::{Font, Sgr, Text};
use csicodec_looks::xterm::reduced;
use csicodec_parser::CSI;
use csicodec_streams::encode;
use std::alloc::AllocError;
use std::marker::Model;

/// How many attributes of text there are.
const ATTRIBUTES: usize = 13;

/// How many bytes the text of a style has at most.
const LONGEST: usize = 32;

/// How many bytes of a note stand in front of its text: the colours that stay, and what its styles are.
pub(crate) const HEAD: usize = 2;

/// What the styles of a note are: one, if it is the place of an attribute, or a reset, or none, or several.
pub(crate) const RESET: u8 = 13;

pub(crate) const NOTHING: u8 = 14;

pub(crate) const MIXED: u8 = 15;

/// The place of the attribute that a style sets; 13 for a reset, which sets none.
pub(crate) fn attribute(style: &Sgr) -> u8
    ensures { result ≡ attribute style.now }
{
    match style {
        Sgr::Intensity(_) => 0,
        Sgr::Underline(_) => 1,
        Sgr::UnderlineColor(_) => 2,
        Sgr::Blink(_) => 3,
        Sgr::Italic(_) => 4,
        Sgr::Inverse(_) => 5,
        Sgr::Invisible(_) => 6,
        Sgr::StrikeThrough(_) => 7,
        Sgr::Font(_) => 8,
        Sgr::Foreground(_) => 9,
        Sgr::Background(_) => 10,
        Sgr::Overline(_) => 11,
        Sgr::VerticalAlign(_) => 12,
        Sgr::Reset => 13,
    }
}

/// Whether a style hides what follows, or shows it in another font.
pub(crate) fn hides(style: &Sgr) -> bool
    ensures { result ≡ hides style.now }
{
    matches!(style, Sgr::Invisible(true) | Sgr::Font(Font::Alternate(_)))
}

/// Whether a style is a reset.
pub(crate) fn is_reset(style: &Sgr) -> bool
    ensures { result ≡ is_reset style.now }
{
    matches!(style, Sgr::Reset)
}

/// The text that sets a style.
pub(crate) fn style_text(style: &Sgr) -> Text
    ensures { result ≡ style_texts (style.now ∷ []) }
{
    let mut text = Text::new();
    text.push_str("\x1b[");
    style.write_to(&mut text);
    text
}

/// Begins with these bytes.
#[inline(never)]
fn copy_few(text: &mut [u8; LONGEST], bytes: &[u8])
    requires { length bytes.now ≤ 32 }
    ensures { take (length bytes.now) text.new ≡ bytes.now }
{
    text[..bytes.len()].copy_from_slice(bytes);
}

/// The texts of styles, of each attribute one or none.
#[derive(Drop)]
pub(crate) struct StyleTexts {
    lens: [u8; ATTRIBUTES],
    texts: [[u8; LONGEST]; ATTRIBUTES],
}

impl Model for StyleTexts {
    ghost use Rattle.std.specs.Prelude.{ℕ, List};
    ghost use Rattle.csicodec_clean.specs.Private.Notes.{fronts};

    ghost Value = { List (List ℕ) };

    ghost view = { λ t. fronts t.lens t.texts };
}

impl StyleTexts {
    /// Of no styles.
    fn new() -> StyleTexts
        ensures { result ≡ replicate 13 [] }
    {
        StyleTexts {
            lens: [0; ATTRIBUTES],
            texts: [[0; LONGEST]; ATTRIBUTES],
        }
    }

    /// Of none any more.
    #[inline(always)]
    fn clear(&mut self)
        ensures { self.new ≡ replicate 13 [] }
    {
        self.lens = [0; ATTRIBUTES];
    }

    /// Of none any more, if a text up to a reset has bytes.
    #[inline(always)]
    fn clear_behind(&mut self, front: usize)
        ensures { self.new ≡ (if nat_lt 0 front then replicate 13 [] else self.old) }
    {
        if front > 0 {
            self.clear();
        }
    }

    /// The first bytes, so many, are the text of this attribute now.
    #[tactic(auto, using(crate::proofs::Rendered::fronts_set))]
    #[inline(always)]
    fn set(&mut self, attribute: usize, bytes: &[u8], len: usize)
        requires place { attribute < 13 }
        requires len { (len ≤ 32) × (len ≤ length bytes.now) }
        ensures { self.new ≡ slice_set self.old attribute (take len bytes.now) }
    {
        self.lens[attribute] = len as u8;
        match bytes.first_chunk::<LONGEST>() {
            Some(front) => self.texts[attribute] = *front,
            None => copy_few(&mut self.texts[attribute], bytes.split_at(len).0),
        }
    }

    /// The texts of some styles come, each told by the place of its attribute and how long its text is.
    #[inline(never)]
    fn set_all(&mut self, places: &[u8], texts: &[u8])
        requires { (styles : List Style) × ArePlaced styles places.now texts.now }
        ensures { (styles base : List Style) → ArePlaced styles places.now texts.now
            → self.old ≡ settled_texts base → self.new ≡ settled_texts (base ++ styles) }
    {
        let mut rest = places;
        let mut text = texts;
        while rest.len() > 1 {
            let len = usize::from(rest[1]);
            self.set(usize::from(rest[0]), text, len);
            text = text.split_at(len).1;
            rest = rest.split_at(2).1;
        }
    }

    /// The text of the style in front comes: answers how long it is.
    #[inline(always)]
    fn set_front(&mut self, places: &[u8], text: &[u8]) -> usize
        requires some { 1 < length places.now }
        requires placed { (styles : List Style) × ArePlaced styles places.now text.now }
        ensures len { result ≡ slice_index places.now 1 }
        ensures within { result ≤ length text.now }
        ensures set { self.new ≡ slice_set self.old (slice_index places.now 0) (take result text.now) }
    {
        let len = usize::from(places[1]);
        self.set(usize::from(places[0]), text, len);
        len
    }

    /// The texts of some styles come, mostly of one or two.
    #[inline(always)]
    fn set_few(&mut self, places: &[u8], text: &[u8])
        requires { (styles : List Style) × ArePlaced styles places.now text.now }
        ensures { (styles base : List Style) → ArePlaced styles places.now text.now
            → self.old ≡ settled_texts base → self.new ≡ settled_texts (base ++ styles) }
    {
        // Where more bytes stand behind them, no text is copied by its length.
        if text.len() < LONGEST + 8 {
            self.set_all(places, text);
            return;
        }
        if places.len() == 2 {
            self.set_front(places, text);
            return;
        }
        if places.len() != 4 {
            self.set_all(places, text);
            return;
        }
        let len = self.set_front(places, text);
        self.set_front(places.split_at(2).1, text.split_at(len).1);
    }

    /// Those of the other.
    fn copy(&mut self, other: &StyleTexts)
        ensures { self.new ≡ other.now }
    {
        self.lens = other.lens;
        self.texts = other.texts;
    }

    /// The text of an attribute.
    #[tactic(auto, using(crate::proofs::Rendered::fronts_at))]
    fn text(&self, attribute: usize) -> &[u8]
        requires { attribute < 13 }
        ensures own { result.now ≡ slice_index_or self.now attribute [] }
        ensures many { length self.now ≡ 13 }
    {
        near(usize::from(self.lens[attribute]), &self.texts[attribute])
    }

    /// Whether those of the other are the same.
    fn is_same(&self, other: &StyleTexts) -> bool
        ensures { result ≡ true → self.now ≡ other.now }
    {
        let mut at = 0;
        while at < ATTRIBUTES {
            if self.text(at) != other.text(at) {
                return false;
            }
            at += 1;
        }
        true
    }

    /// Appends them.
    fn append_to(&self, out: &mut Vec<u8>) -> Result<(), AllocError>
        ensures { OnOk result (out.new.items ≡ out.old.items ++ concat self.now) }
    {
        let mut at = 0;
        while at < ATTRIBUTES {
            out.extend_from_slice(self.text(at))?;
            at += 1;
        }
        Ok(())
    }
}

/// How text is rendered: whether a style is open, the styles since the last reset, and those that are saved.
#[derive(Drop)]
pub(crate) struct Rendition {
    styled: bool,
    since: StyleTexts,
    saved: StyleTexts,
}

impl Model for Rendition {
    ghost use Rattle.csicodec_clean.specs.Styled.{Spelled};

    ghost Value = { Spelled };

    ghost view = { λ r. record { styled = r.styled; since = r.since; saved = r.saved } };
}

impl Rendition {
    /// Where a style is open or not, and nothing is told of it.
    pub(crate) fn new(styled: bool) -> Rendition
        ensures { result ≡ spelled (rendition styled [] []) }
    {
        Rendition {
            styled,
            since: StyleTexts::new(),
            saved: StyleTexts::new(),
        }
    }

    /// Whether a style is open.
    #[inline(always)]
    pub(crate) fn is_styled(&self) -> bool
        ensures { result ≡ self.now.styled }
    {
        self.styled
    }

    /// No style is set or saved any more.
    pub(crate) fn clear(&mut self)
        ensures { self.new ≡ spelled plain_rendition }
    {
        self.styled = false;
        self.since.clear();
        self.saved.clear();
    }

    /// A style comes, with its text.
    fn set(&mut self, passing: Passing, style: &Sgr, text: &[u8])
        requires { (text.now ≡ style_texts (style.now ∷ [])) × (length text.now ≤ 32) }
        ensures { (r : Rendered) → self.old ≡ spelled r → self.new ≡ spelled (behind_styles passing r (style.now ∷ [])) }
    {
        let reset = is_reset(style);
        self.styled = !reset;
        if !passing.restores {
            return;
        }
        if reset {
            self.since.clear();
            return;
        }
        self.since
            .set(usize::from(attribute(style)), text, text.len());
    }

    /// Appends a style that comes, if it hides nothing.
    fn take_style(
        &mut self,
        passing: Passing,
        style: &Sgr,
        out: &mut Vec<u8>,
    ) -> Result<(), AllocError>
        ensures { OnOk result (Adds self.old self.new out.old.items out.new.items
            (λ (r : Rendered). styles_by passing r (Some (Sets style.now)))
            (λ (r : Rendered). rendition_by passing r (Some (Sets style.now)))) }
    {
        if hides(style) {
            return Ok(());
        }
        let style = reduced(passing.depth, *style);
        let text = style_text(&style);
        out.extend_from_slice(text.as_bytes())?;
        self.set(passing, &style, text.as_bytes());
        Ok(())
    }

    /// Appends a reset, if a style is open.
    fn append_back(&self, out: &mut Vec<u8>) -> Result<(), AllocError>
        ensures { OnOk result (out.new.items ≡ out.old.items ++ style_texts (set_back self.now.styled)) }
    {
        if self.styled {
            encode(&CSI::Sgr(Sgr::Reset), out)?;
        }
        Ok(())
    }

    /// Appends a reset, if a style is open, and these texts of styles, unless they are those that are set.
    fn append_anew(
        &mut self,
        saved: &[u8],
        since: &[u8],
        out: &mut Vec<u8>,
    ) -> Result<(), AllocError>
        ensures text { OnOk result (out.new.items
            ≡ out.old.items ++ (if bytes_eq saved.now since.now then [] else style_texts (set_back self.old.styled) ++ saved.now)) }
        ensures now { OnOk result (self.new ≡ record {
          styled = if bytes_eq saved.now since.now then self.old.styled else nat_lt 0 (length saved.now);
          since = self.old.since;
          saved = self.old.saved;
        }) }
    {
        if saved == since {
            return Ok(());
        }
        self.append_back(out)?;
        out.extend_from_slice(saved)?;
        self.styled = saved.len() > 0;
        Ok(())
    }

    /// Appends what brings back the styles that are saved: nothing, if they are set.
    fn bring_back(&mut self, out: &mut Vec<u8>) -> Result<(), AllocError>
        ensures { OnOk result (Adds self.old self.new out.old.items out.new.items
            (λ (r : Rendered). brought_back r)
            (λ (r : Rendered). rendition (is_open r.styled (brought_back r)) r.saved r.saved)) }
    {
        if self.saved.is_same(&self.since) {
            return Ok(());
        }
        let alloc = *out.allocator();
        let mut saved = Vec::new(alloc);
        self.saved.append_to(&mut saved)?;
        let mut since = Vec::new(alloc);
        self.since.append_to(&mut since)?;
        self.append_anew(&saved, &since, out)?;
        self.since.copy(&self.saved);
        Ok(())
    }

    /// Appends what stays of what is done to how text looks.
    #[inline(never)]
    fn take_effect(
        &mut self,
        passing: Passing,
        effect: Effect,
        out: &mut Vec<u8>,
    ) -> Result<(), AllocError>
        ensures { OnOk result (Adds self.old self.new out.old.items out.new.items
            (λ (r : Rendered). styles_by passing r (Some effect)) (λ (r : Rendered). rendition_by passing r (Some effect))) }
    {
        match effect {
            Effect::Sets(style) => self.take_style(passing, &style, out)?,
            Effect::Clears => {
                self.append_back(out)?;
                self.clear();
            }
            Effect::Saves => {
                if passing.restores {
                    self.saved.copy(&self.since);
                }
            }
            Effect::Restores => {
                if passing.restores {
                    self.bring_back(out)?;
                }
            }
        }
        Ok(())
    }

    /// The same, where something is done.
    #[inline(always)]
    pub(crate) fn take(
        &mut self,
        passing: Passing,
        effect: Option<Effect>,
        out: &mut Vec<u8>,
    ) -> Result<(), AllocError>
        ensures { OnOk result (Adds self.old self.new out.old.items out.new.items
            (λ (r : Rendered). styles_by passing r effect) (λ (r : Rendered). rendition_by passing r effect)) }
    {
        if let Some(effect) = effect {
            self.take_effect(passing, effect, out)?;
        }
        Ok(())
    }

    /// Appends what stays of each of the actions in turn.
    pub(crate) fn take_all(
        &mut self,
        passing: Passing,
        actions: &[CSI],
        out: &mut Vec<u8>,
    ) -> Result<(), AllocError>
        ensures { OnOk result (Adds self.old self.new out.old.items out.new.items
            (λ (r : Rendered). styles_in passing r (map action_of actions.now))
            (λ (r : Rendered). rendition_in passing r (map action_of actions.now))) }
    {
        let mut rest = actions;
        while let Some((action, others)) = rest.split_first() {
            self.take(passing, action_effect(action), out)?;
            rest = others;
        }
        Ok(())
    }

    /// The styles of a note come, behind whose bytes there may be others in `wide`.
    #[inline(always)]
    pub(crate) fn take_note(&mut self, passing: Passing, note: &[u8], wide: &[u8])
        requires note { IsNote note.now }
        requires wide { (more : List ℕ) × (wide.now ≡ note.now ++ more) }
        ensures { IsTaken passing note.now self.old self.new }
    {
        let code = note[1];
        if code < RESET {
            self.styled = true;
            if passing.restores {
                let text = wide.split_at(HEAD).1;
                self.since.set(usize::from(code), text, note.len() - HEAD);
            }
            return;
        }
        if code == RESET {
            self.styled = false;
            if passing.restores {
                self.since.clear();
            }
            return;
        }
        if code == MIXED {
            self.take_mixed(passing, note, wide);
        }
    }

    /// The styles of a note come that has several.
    #[inline(never)]
    fn take_mixed(&mut self, passing: Passing, note: &[u8], wide: &[u8])
        requires note { IsNote note.now }
        requires mixed { slice_index note.now 1 ≡ 15 }
        requires wide { (more : List ℕ) × (wide.now ≡ note.now ++ more) }
        ensures { IsTaken passing note.now self.old self.new }
    {
        self.styled = true;
        if !passing.restores {
            return;
        }
        let front = usize::from(note[2]);
        let count = usize::from(note[3]);
        let places = note.split_at(note.len() - 2 * count).1;
        let text = wide.split_at(HEAD + 2 + front).1;
        self.since.clear_behind(front);
        self.since.set_few(places, text);
    }
}

/// Behind how many bytes of a note its text stands, and how long it is.
#[inline(always)]
pub(crate) fn text_of(note: &[u8]) -> (usize, usize)
    requires { IsNote note.now }
    ensures within { result.0 + result.1 ≤ length note.now }
    ensures text { HasText note.now result.0 result.1 }
{
    if note[1] == MIXED {
        let start = HEAD + 2;
        return (start, note.len() - (start + 2 * usize::from(note[3])));
    }
    (HEAD, note.len() - HEAD)
}
