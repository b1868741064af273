//! How text is written, and what stands in the place of a control sequence, of an escape sequence, and of a control string.
ghost use Rattle.std.specs.Prelude.{◌≡◌, ◌++◌, ◌||◌, not, [], map, true, false, OnOk, if◌then◌else◌};
ghost use Rattle.csicodec_parser.specs.ActionOf.{action_of};
ghost use Rattle.csicodec_clean.specs.{Addresses.led, Page.first_set, Saving.are_lasting, Saving.behind_all, Saving.sets_any};
ghost use Rattle.csicodec_html.specs.Rule.{set_all, set_one};
ghost use Rattle.csicodec_looks.specs.{Paint.same, Pieces.piece_texts, Pieces.pieces_bytes, Pieces.switch, Pieces.turn};

use csicodec_base::CsiParam;
use csicodec_clean::{
    Effect, LinkReader, Looks, Rule, action_effect, ends_link, escape_effect, is_lasting, led, sets,
};
use csicodec_looks::{
    InFront, Look, Markup, Turning, Turns, append_char, append_end, append_shut, append_switch,
    append_text, append_turn as append_tags,
};
use csicodec_parser::CSI;
use csicodec_terminal::terminal_actions_into;
use std::alloc::{AllocError, Global};
use std::marker::Model;

/// How text looks behind each of the actions in turn, and where that was saved.
fn behind_each(looks: Looks, actions: &[CSI]) -> Looks
    ensures { result ≡ behind_all looks (map action_of actions.now) }
{
    let mut now = looks;
    for action in actions {
        now.take(action_effect(action));
    }
    now
}

/// How text looks behind an attribute; all else leaves that.
fn set_one(look: Look, effect: Option<Effect>) -> Look
    ensures { result ≡ set_one look effect }
{
    let mut now = look;
    if let Some(Effect::Sets(attribute)) = effect {
        now.set(&attribute);
    }
    now
}

/// How text looks behind the attributes among the actions.
fn look_behind(look: Look, actions: &[CSI]) -> Look
    ensures { result ≡ set_all look (map action_of actions.now) }
{
    let mut now = look;
    for action in actions {
        now = set_one(now, action_effect(action));
    }
    now
}

/// Whether one of the actions is an attribute, or sets all back.
fn sets_any(actions: &[CSI]) -> bool
    ensures { result ≡ sets_any (map action_of actions.now) }
{
    for action in actions {
        if sets(action_effect(action)) {
            return true;
        }
    }
    false
}

/// Whether what is saved stays behind each of the actions, and none brings it back.
fn are_lasting(actions: &[CSI]) -> bool
    ensures { result ≡ are_lasting (map action_of actions.now) }
{
    for action in actions {
        if !is_lasting(action_effect(action)) {
            return false;
        }
    }
    true
}

/// Whether tags come between two looks: where an attribute comes, or what sets all back, and where text looks otherwise.
fn has_tags(comes: bool, old: Look, new: Look) -> bool
    ensures { result ≡ (comes || not (same old new)) }
{
    comes || old != new
}

/// Appends the tags between two looks, if such come.
fn append_turn(
    markup: &Markup,
    comes: bool,
    old: Look,
    new: Look,
    out: &mut Vec<u8>,
) -> Result<(), AllocError>
    ensures { OnOk result (out.new.items ≡ out.old.items ++ piece_texts (turn markup.now comes old new)) }
{
    if !comes {
        return Ok(());
    }
    append_tags(markup, old, new, out)
}

/// Appends the tags between text that leads to one place and text that leads to another, for a link that is over, and sets where it leads.
fn follow(
    over: bool,
    url: &[u8],
    markup: &Markup,
    look: Look,
    to: &mut Vec<u8>,
    out: &mut Vec<u8>,
) -> Result<(), AllocError>
    ensures text { OnOk result
        (out.new.items
        ≡ out.old.items
        ++ pieces_bytes (if over then switch markup.now look to.old.items (led url.now) else [])) }
    ensures to { OnOk result (to.new.items ≡ (if over then led url.now else to.old.items)) }
{
    if !over {
        return Ok(());
    }
    let new = led(url);
    append_switch(markup, look, to, new, out)?;
    to.clear();
    to.extend_from_slice(new)
}

/// What control sequences turn on a page.
#[derive(Drop)]
struct Turner<'a>(&'a Markup);

impl Turning for Turner<'_> {
    ghost use Rattle.csicodec_html.specs.Turns.{IsTurned};

    ghost turns = { λ by. IsTurned by.0.now };
}

/// The rule that turns attributes into spans, and links, where they pass, into links of the page.
#[derive(Drop)]
pub struct SpanWriter {
    alloc: Global,
    markup: Markup,
    looks: Looks,
    /// Where text leads; no bytes where it leads nowhere.
    to: Vec<u8>,
    /// What has come of the next link.
    next: LinkReader,
    /// A place that is kept for the actions of a sequence.
    actions: Vec<CSI>,
    /// Sequences that came before.
    turns: Turns,
}

impl Model for SpanWriter {
    ghost use Rattle.csicodec_clean.specs.Links.{begun};
    ghost use Rattle.csicodec_clean.specs.Page.{Setting, setting};

    ghost Value = { Setting };

    ghost use Rattle.csicodec_looks.specs.Turns.{AreTurns};
    ghost use Rattle.csicodec_html.specs.Turns.{IsTurned};

    ghost view = { λ s. setting s.markup s.looks s.to.items
        (begun s.next.place s.next.params.items s.next.url.items) };

    ghost invariant = { λ s. AreTurns (IsTurned s.markup) s.turns.kept.items };
}

impl SpanWriter {
    /// At the beginning of a stream.
    pub fn new(alloc: Global, markup: Markup) -> SpanWriter
        ensures { result ≡ first_set markup }
    {
        SpanWriter {
            alloc,
            markup,
            looks: Looks::plain(),
            to: Vec::new(alloc),
            next: LinkReader::new(alloc),
            actions: Vec::new(alloc),
            turns: Turns::new(alloc, &Turner(&markup)),
        }
    }
}

impl Rule for SpanWriter {
    ghost use Rattle.std.specs.Prelude.{refl};
    ghost use Rattle.csicodec_html.specs.Rule.{closes, turns};

    ghost gives = { turns };

    ghost closes = { closes };

    #[inline(always)]
    fn append_text(bytes: &[u8], len: usize, out: &mut Vec<u8>) -> Result<(), AllocError> {
        append_text(bytes.split_at(len).0, out)
    }

    fn append_char(char: char, out: &mut Vec<u8>) -> Result<(), AllocError> {
        append_char(char, out)
    }

    fn rewrite(
        &mut self,
        bytes: &[u8],
        params: &[CsiParam],
        control: char,
        out: &mut Vec<u8>,
    ) -> Result<(), AllocError> {
        terminal_actions_into(self.alloc, params, false, control, &mut self.actions)?;
        if are_lasting(&self.actions) {
            let new = look_behind(self.looks.look, &self.actions);
            let before = out.len();
            let comes = sets_any(&self.actions);
            append_turn(&self.markup, comes, self.looks.look, new, out)?;
            let tags = out.split_at(before).1;
            self.turns
                .keep(&Turner(&self.markup), bytes, self.looks.look, new, tags)?;
            self.looks.look = new;
            return Ok(());
        }
        // What such a sequence turns depends on what is saved, so it isn't kept.
        let new = behind_each(self.looks, &self.actions);
        let comes = has_tags(sets_any(&self.actions), self.looks.look, new.look);
        append_turn(&self.markup, comes, self.looks.look, new.look, out)?;
        self.turns.stand(&new.look);
        self.looks = new;
        Ok(())
    }

    #[inline(always)]
    fn take_at_once(
        &mut self,
        limit: usize,
        bytes: &[u8],
        out: &mut Vec<u8>,
    ) -> Result<usize, AllocError> {
        let front = InFront {
            bytes,
            least: 1,
            most: limit,
        };
        let len = self
            .turns
            .recall(&Turner(&self.markup), &mut self.looks.look, front, out)?;
        Ok(len)
    }

    #[inline(always)]
    fn escape(&mut self, bytes: &[u8], out: &mut Vec<u8>) -> Result<(), AllocError> {
        let effect = escape_effect(bytes);
        if effect.is_none() {
            return Ok(());
        }
        let (old, mut new) = (self.looks.look, self.looks);
        new.take(effect);
        let comes = has_tags(sets(effect), old, new.look);
        append_turn(&self.markup, comes, old, new.look, out)?;
        self.looks = new;
        self.turns.stand(&new.look);
        Ok(())
    }

    fn reads_strings(&self) -> bool {
        self.markup.links
    }

    fn take_byte(&mut self, byte: u8, out: &mut Vec<u8>) -> Result<(), AllocError> {
        if !self.markup.links {
            return Ok(());
        }
        let over = ends_link(self.next.place, byte);
        let markup = &self.markup;
        follow(
            over,
            &self.next.url,
            markup,
            self.looks.look,
            &mut self.to,
            out,
        )?;
        self.next.take(byte)
    }

    fn close(&self, out: &mut Vec<u8>) -> Result<(), AllocError> {
        append_end(self.looks.look, out)?;
        append_shut(&self.to, out)
    }

    ghost newline = { refl };
}
