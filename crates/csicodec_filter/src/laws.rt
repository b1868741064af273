//! Laws of the definitions. Each is the contract of a function that does nothing.
ghost use Rattle.std.specs.Prelude.{◌<◌, ℕ, List};
ghost use Rattle.csicodec_spans.specs.{declared.table.Mode.Mode, Parts.Part, Parts.IsWhole};
ghost use Rattle.csicodec_filter.specs.{Filter.AreWritten, Meaning.KeepsMeaning, Meaning.StandInPlace, Meaning.Within, Meaning.singles};

use crate::rewrite::Rewrite;

/// What a filter writes of a stream, by a rule whose texts are read as the actions of their sequences, has the parts of the stream again
/// when it is cut once more, in order: each that is no control sequence as it came, and for each control sequence one or more that are
/// read as the same actions. No text may be longer than `limit` for that, or it could be cut as a sequence that went wrong.
pub fn filter_stream<R: Rewrite>(rewrite: &R)
    ensures { (limit : ℕ) (mode : Mode) (bytes text : List ℕ) (parts : List Part)
        → 0 < limit → KeepsMeaning (R.writes rewrite.now) → IsWhole limit mode bytes parts
        → AreWritten (Within limit (R.writes rewrite.now)) parts text
        → (others : List Part) × IsWhole limit mode text others
        × StandInPlace (singles parts) parts others }
{}
