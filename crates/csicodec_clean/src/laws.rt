//! Laws of the definitions. Each is the contract of a function that does nothing.
ghost use Rattle.std.specs.{Prelude.◌≡◌, Prelude.◌≢◌, Prelude.◌∷◌, Prelude.◌++◌, Prelude.[], Prelude.ℕ, Prelude.List, Prelude.codes, Prelude.false, Prelude.length};
ghost use Rattle.std.specs.{Prelude.slice_get, Prelude.true, List.AllByRecursion, List.Contains, List.concat};
ghost use Rattle.csicodec_clean.specs.Links.{Address, IsAdmitted, IsLink, IsWithin, Stood, StoodIn, admitted, begun, link_body, links_in, start};
ghost use Rattle.csicodec_clean.specs.Styled.{IsStyledIn, Keeping, StylesIn, first_kept, links_of, in_steps, resets, resumed, keeps};
ghost use Rattle.csicodec_clean.specs.{Addresses.ends_host, Addresses.is_web, Addresses.led, declared.links.LinkState.TheVariants.Outside, Cleaned.Ends};
ghost use Rattle.csicodec_clean.specs.{Cleaned.Strips, Cleaned.drops, Cleaned.ends_bare, Cleaned.longest, declared.step.Pause.Pause, declared.styles.Passing.Passing};
ghost use Rattle.csicodec_clean.specs.{declared.whole.Dropped.Dropped, Check.IsFault, Marked.IsMarked, Shown.IsPlain, Shown.shown, Titles.InTitle, Titles.IsText};
ghost use Rattle.csicodec_clean.specs.{Titles.with_titles, Stream.AnyChunks, Stream.AreTaken, Stream.Between, Stream.IsFrontOf, Stream.Takes, Stream.start_of};
ghost use Rattle.csicodec_clean.specs.{Steps.AreStepped, Steps.bare, Steps.beginning, Steps.ending};
ghost use Rattle.csicodec_looks.specs.{Xterm.IsNearest, Xterm.nearest_of_16, Xterm.nearest_of_256, declared.xterm.Depth.Depth};
ghost use Rattle.csicodec_names.specs.declared.color.SrgbaTuple.{SrgbaTuple};
ghost use Rattle.csicodec_spans.specs.{Parts.IsWhole, Parts.Part, Parts.part, declared.table.Kind.TheVariants.Other, declared.table.Mode.TheVariants.Text};

use crate::rule::Rule;

/// It doesn't matter how a stream is cut into chunks.
#[tactic(auto, using(crate::proofs::Chunks::any_chunks))]
pub fn any_chunks<R: Rule>()
    ensures { AnyChunks R.gives R.closes }
{}

/// Nor how it is cut into the steps of a caller that keeps what is open: what these append, and the end, is what `strip` makes of all of
/// it, or `clean_with` where no links pass and no styles are brought back.
#[tactic(auto, using(crate::proofs::Streams::stripped_steps, crate::proofs::Streams::cleaned_steps))]
pub fn any_steps()
    ensures strip { (chunks : List (List ℕ)) (text rest : List ℕ) (last : Pause)
        → AreStepped drops (λ _. bare) beginning [] chunks text last rest → last.styled ≡ false
        → Strips longest (concat chunks) (text ++ ending last rest) }
    ensures clean { (d : Depth) (chunks : List (List ℕ)) (text rest : List ℕ) (last : Pause)
        → AreStepped keeps (resumed d) beginning [] chunks text last rest
        → StylesIn (in_steps d) (concat chunks) (text ++ ending last rest) }
{}

/// Bytes are stripped to one text.
pub fn one_text()
    ensures { (bytes text other : List ℕ) → Strips longest bytes text → Strips longest bytes other
        → text ≡ other }
{}

/// Of the parts of a stream a text is dropped if the last part before it that is no text is the escape sequence `ESC k`, and only then:
/// it is a title of tmux and screen. Each other part keeps its kind, and every part its place and its bytes.
#[tactic(auto, using(crate::proofs::Titles::same_places, crate::proofs::Titles::dropped))]
pub fn titles()
    ensures places { (parts : List Part) → length (with_titles false parts) ≡ length parts }
    ensures dropped { (before behind : List Part) (p : Part) → InTitle before → IsText p →
        slice_get (with_titles false (before ++ p ∷ behind)) (length before)
        ≡ Some (part Other p.bytes) }
    ensures kept { (bytes : List ℕ) (before behind : List Part) (p : Part)
        → IsWhole longest Text bytes (before ++ p ∷ behind) → (IsText p → ¬ InTitle before) →
        slice_get (with_titles false (before ++ p ∷ behind)) (length before) ≡ Some p }
{}

/// Text that is plain already stays as it is.
pub fn plain_stays()
    ensures { (text other : List ℕ) → IsPlain text → Strips longest text other → other ≡ text }
{}

/// Bytes with a fault are no plain text, and `strip` makes something else of them.
pub fn faults()
    ensures plain { (bytes rest : List ℕ) (at line : ℕ) → IsFault shown bytes rest at line → ¬ IsPlain bytes }
    ensures stripped { (bytes rest text : List ℕ) (at line : ℕ) → IsFault shown bytes rest at line
        → Strips longest bytes text → text ≢ bytes }
{}

/// What was stripped is stripped: twice is once.
pub fn twice()
    ensures { (bytes text other : List ℕ) → Strips longest bytes text → Strips longest text other
        → other ≡ text }
{}

/// Bytes are cleaned to one text, whatever passes.
pub fn one_styled()
    ensures { (d : Passing) (bytes text other : List ℕ) → StylesIn d bytes text
        → StylesIn d bytes other → text ≡ other }
{}

/// Text that is clean already, styles, links and all, stays as it is.
pub fn styled_stays()
    ensures { (d : Passing) (text other : List ℕ) → IsStyledIn d text → StylesIn d text other
        → other ≡ text }
{}

/// What was cleaned is clean: twice is once.
pub fn styled_twice()
    ensures { (d : Passing) (bytes text other : List ℕ) → StylesIn d bytes text
        → StylesIn d text other → other ≡ text }
{}

/// Told of its bytes alone, from the first to the last, such text is UTF-8 and has no control but newlines and tabs, and ESC only where
/// a style begins, or a link, where these pass, or the end of one; and the last of each sets all back.
pub fn marked()
    ensures text { (d : Passing) (text : List ℕ) → IsStyledIn d text → IsMarked d.links text }
    ensures cleaned { (d : Passing) (bytes text : List ℕ) → StylesIn d bytes text
        → IsMarked d.links text }
{}

/// What was cleaned is stripped to what the bytes are stripped to.
pub fn strip_cleaned()
    ensures { (d : Passing) (bytes styles plain other : List ℕ) → StylesIn d bytes styles
        → Strips longest bytes plain → Strips longest styles other → other ≡ plain }
{}

/// An address with a user's name in front of its host leads nowhere, and what leads there is no other address.
#[tactic(auto, using(crate::proofs::Linked::no_host, crate::proofs::Linked::no_web))]
pub fn no_user()
    ensures http { (user rest : List ℕ) → AllByRecursion (λ b. ends_host b ≡ false) user
        → is_web (codes "http://" ++ (user ++ 64 ∷ rest)) ≡ false }
    ensures https { (user rest : List ℕ) → AllByRecursion (λ b. ends_host b ≡ false) user
        → is_web (codes "https://" ++ (user ++ 64 ∷ rest)) ≡ false }
    ensures led { (url : List ℕ) → led (led url) ≡ led url }
{}

/// What passes of a link does, with BEL at its end or with ST, whatever came before it: wherever it stands in a stream as a control
/// string. Of one that may pass that is the link itself.
#[tactic(auto, using(crate::proofs::Linked::itself, crate::proofs::Linked::passes))]
pub fn links_pass()
    ensures bel { (a : Address) (params url : List ℕ) → IsWithin a
        → links_in true (begun Outside params url) (27 ∷ 93 ∷ (link_body a ++ 7 ∷ []))
        ≡ admitted a ∷ [] }
    ensures st { (a : Address) (params url : List ℕ) → IsWithin a
        → links_in true (begun Outside params url) (27 ∷ 93 ∷ (link_body a ++ 27 ∷ 92 ∷ []))
        ≡ admitted a ∷ [] }
    ensures stream { (d : Passing) (bytes text : List ℕ) (s : StylesIn d bytes text) (a : Address)
        → d.links ≡ true → StoodIn s.parts a → IsWithin a
        → Contains (links_of s.items) (admitted a) }
    ensures itself { (a : Address) → IsLink a → admitted a ≡ a }
{}

/// And each link that passes is what passes of one that stood there: in the bytes of control strings, and in a stream as a control
/// string of its own.
#[tactic(auto, using(crate::proofs::Stood::in_bytes))]
pub fn links_stood()
    ensures bytes { (bytes : List ℕ)
        → AllByRecursion (IsAdmitted (Stood bytes)) (links_in true start bytes) }
    ensures stream { (d : Passing) (bytes text : List ℕ) (s : StylesIn d bytes text)
        → AllByRecursion (IsAdmitted (StoodIn s.parts)) (links_of s.items) }
{}

/// The place that a colour becomes is the nearest of the palette, and of those that are as near the first.
#[tactic(auto, using(csicodec_looks::proofs::Reduced::nearest_256, csicodec_looks::proofs::Reduced::nearest_16))]
pub fn nearest()
    ensures of_256 { (color : SrgbaTuple) → IsNearest color 16 256 (nearest_of_256 color) }
    ensures of_16 { (color : SrgbaTuple) → IsNearest color 0 16 (nearest_of_16 color) }
{}

/// What a cleaner writes of a whole stream by the rule that drops all is the stripped text, and by the rule that keeps what passes
/// the cleaned one.
pub fn rules()
    ensures dropped { (s : Dropped) (bytes text : List ℕ)
        → Ends drops ends_bare longest s bytes text → Strips longest bytes text }
    ensures kept { (d : Passing) (bytes text : List ℕ)
        → Ends keeps resets longest (first_kept d) bytes text → StylesIn d bytes text }
{}

/// What a cleaner by these rules appended for the chunks that came is a front of what it writes of the whole stream, whatever comes
/// behind them.
pub fn fronts()
    ensures dropped { (s : Dropped) (chunks : List (List ℕ)) (more text : List ℕ)
        (last : Between Dropped) → AreTaken (Takes drops) (start_of s) chunks text last
        → IsFrontOf (Strips longest) (concat chunks ++ more) text }
    ensures kept { (d : Passing) (chunks : List (List ℕ)) (more text : List ℕ)
        (last : Between Keeping)
        → AreTaken (Takes keeps) (start_of (first_kept d)) chunks text last
        → IsFrontOf (StylesIn d) (concat chunks ++ more) text }
{}
