//! Laws of the definitions. Each is the contract of a function that does nothing.
ghost use Rattle.std.specs.Prelude.{◌≡◌, ℕ, List};
ghost use Rattle.csicodec_actions.specs.Actions.{Action};
ghost use Rattle.csicodec_terminal.specs.Terminal.{IsTakenFor};
ghost use Rattle.csicodec_clean.specs.{Cleaned.Strips, Cleaned.longest, Shown.IsPlain, Styled.IsOf, Saving.behind_all, Saving.behind_effect, Saving.effect_of};
ghost use Rattle.csicodec_clean.specs.{Saving.escape_effect, Saving.looks, Page.PageWith};
ghost use Rattle.csicodec_looks.specs.{declared.look.Look.Look, declared.markup.Markup.Markup, declared.marking.Marking.Marking, Paint.look_text, Line.HasRoom};
ghost use Rattle.csicodec_looks.specs.{Line.blank, Line.most, Line.pen_behind_all, declared.line.Line.Line, declared.pen.Pen.Pen};
ghost use Rattle.csicodec_overwrite.specs.{Lost.NothingLost, Lost.NothingMade, Turned.IsInRange, Turned.looks_in, Stream.AnyChunks, Reading.Overwrites, Reading.Pages};
ghost use Rattle.csicodec_overwrite.specs.{Reading.Paints, Reading.Shows, Steps.of_action, Steps.of_escape};

pub use csicodec_looks::laws::bounded;

/// What is written has no control but newlines and tabs, as what `strip` writes.
pub fn plain()
    ensures { (bytes text : List ℕ) → Overwrites bytes text → IsPlain text }
{}

/// Plain text, as `strip` leaves it, stays as it is, where each of its lines has room in one.
pub fn plain_stays()
    ensures { (text other : List ℕ) (p : IsPlain text) → HasRoom most 0 0 p.0
        → Overwrites text other → other ≡ text }
{}

/// It doesn't matter how a stream is cut into chunks.
#[tactic(auto, using(crate::proofs::Written::any_chunks))]
pub fn any_chunks()
    ensures { AnyChunks }
{}

/// Bytes have one text, as what lines are written.
pub fn one_text()
    ensures { (marking : Marking) (bytes text other : List ℕ) → Shows marking bytes text
        → Shows marking bytes other → text ≡ other }
{}

/// What is painted is the plain text, with sequences that `strip` drops.
pub fn same_text()
    ensures { (bytes painted text : List ℕ) → Paints bytes painted → Overwrites bytes text
        → Strips longest painted text }
{}

/// The page is the one that `csicodec_html` makes of what is painted.
pub fn same_page()
    ensures { (m : Markup) (bytes painted page : List ℕ) → Paints bytes painted → Pages m bytes page
        → PageWith m painted page }
{}

/// The sequence of a look is one control sequence, and what it sets, whatever was set before, is that look. What was saved stays. Terminals take it so too.
pub fn looks_back()
    ensures { (old saved look : Look) → IsInRange look
        → (actions : List Action) × IsOf (look_text look) actions
        × IsTakenFor (look_text look) actions
        × (behind_all (looks old saved) actions ≡ looks look saved) }
{}

/// An action or an escape sequence does to how characters look in a line, and to how they look where that was saved, what it does to text of
/// which nothing is overwritten.
#[tactic(auto, using(crate::proofs::Alike::of_action_alike, crate::proofs::Alike::of_escape_alike))]
pub fn same_looks()
    ensures action { (pen : Pen) (l : Line) (a : Action)
        → looks_in (pen_behind_all most pen (of_action a) l) ≡ behind_effect (looks_in pen) (effect_of a) }
    ensures escape { (pen : Pen) (l : Line) (bytes : List ℕ)
        → looks_in (pen_behind_all most pen (of_escape bytes) l) ≡ behind_effect (looks_in pen) (escape_effect bytes) }
{}

/// Nothing is lost. But for tabs and newlines, each character that `strip` leaves of the bytes is in the text, or was overwritten,
/// erased, deleted or parted in its line, or is a blank of a line that was left with blanks alone. Nor is anything made: but for blanks
/// and newlines, each came, by itself or by REP.
pub fn nothing_lost()
    ensures lost { NothingLost }
    ensures made { NothingMade }
{}
