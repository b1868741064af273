//! Laws of the definitions. Each is the contract of a function that does nothing.
ghost use Rattle.std.specs.Prelude.{◌≡◌, ℕ, Bool, List, None, true};
ghost use Rattle.csicodec_clean.specs.Shown.{IsPlain, IsTextOf};
ghost use Rattle.csicodec_inspect.specs.Visible.{class_of, seen};
ghost use Rattle.csicodec_tool.specs.{Spelled.spelled_text, Spelled.stays, Whole.WholeRuns, Writes.Writes, declared.rewrite.Work.TheVariants.Log};
ghost use Rattle.csicodec_tool.specs.{declared.rewrite.Work.TheVariants.Overwrite, declared.rewrite.Work.TheVariants.Strip};

/// A run over inputs of which no recordings are made, and that ended well, wrote what stands ahead of the first, their texts one behind the
/// other, and what stands behind the last. The text of a recording is that of its data.
pub fn whole_runs()
    ensures { WholeRuns }
{}

/// A text that is spelled has no characters but of ASCII and such as a reader sees in their places. Text of these alone stays as it is.
#[tactic(auto, using(crate::proofs::Spelling::all_stay, crate::proofs::Spelling::plain_seen, crate::proofs::Spelling::seen_same))]
pub fn spelled()
    ensures stay { (text : List ℕ) → IsTextOf stays (spelled_text text) }
    ensures plain { (text : List ℕ) → IsPlain text → IsTextOf seen (spelled_text text) }
    ensures same { (text : List ℕ) → IsTextOf stays text → spelled_text text ≡ text }
{}

/// What `strip --visible` writes of a stream passes `strip --check=visible`, line by line and with overwritten lines too.
pub fn visible()
    ensures stripped { (lines : Bool) (bytes text : List ℕ) → Writes (Strip lines true) bytes text → IsTextOf (class_of true) text }
    ensures overwritten { (bytes text : List ℕ) → Writes (Overwrite None true) bytes text → IsTextOf (class_of true) text }
    ensures logged { (bytes text : List ℕ) → Writes (Log None true) bytes text → IsTextOf (class_of true) text }
{}
