//! Laws of the definitions. Each is the contract of a function that does nothing.
ghost use Rattle.std.specs.{Prelude.◌≡◌, Prelude.◌++◌, Prelude.ℕ, Prelude.List, Prelude.drop, Prelude.take, List.AllByRecursion};
ghost use Rattle.csicodec_spans.specs.{declared.table.Mode.TheVariants.Text, Parts.Part, Parts.IsWhole};
ghost use Rattle.csicodec_clean.specs.{Cleaned.Strips, Cleaned.longest, Styled.IsStyledIn, Styled.StylesIn, declared.styles.Passing.Passing};
ghost use Rattle.csicodec_lines.specs.{Cuts.AreCuts, Cuts.IsPlace, Lines.AreOf, Lines.ByLines, Lines.lines_of, Stream.AnyChunks};

use csicodec_clean::{Anew, Rule};

/// It doesn't matter how a log is cut into chunks.
#[tactic(auto, using(crate::proofs::Taken::any_chunks))]
pub fn any_chunks<R: Rule + Anew<P>, P>()
    ensures { AnyChunks R.begins R.gives R.closes }
{}

/// Bytes have one text.
pub fn one_text()
    ensures stripped { (bytes text other : List ℕ) → ByLines (Strips longest) bytes text
        → ByLines (Strips longest) bytes other → text ≡ other }
    ensures cleaned { (d : Passing) (bytes text other : List ℕ) → ByLines (StylesIn d) bytes text
        → ByLines (StylesIn d) bytes other → text ≡ other }
{}

/// No line leaves a style or a link open: the text of each, alone, is such as `clean` leaves.
#[tactic(auto, using(crate::proofs::Texts::each_styled))]
pub fn none_open()
    ensures { (d : Passing) (bytes text : List ℕ) (l : ByLines (StylesIn d) bytes text)
        → AreOf (λ _ t. IsStyledIn d t) (lines_of bytes) l.texts }
{}

/// Each place that is told is one: the bytes up to there, alone, are whole parts, and end in text.
pub fn places()
    ensures { (every : ℕ) (bytes places : List ℕ) → AreCuts every bytes places
        → AllByRecursion (IsPlace bytes) places }
{}

/// The stream may be cut there: the parts of the two pieces, each a stream of its own, are together those of the stream.
pub fn pieces()
    ensures { (bytes : List ℕ) (at : ℕ) (front back : List Part) → IsPlace bytes at
        → IsWhole longest Text (take at bytes) front → IsWhole longest Text (drop at bytes) back
        → IsWhole longest Text bytes (front ++ back) }
{}
