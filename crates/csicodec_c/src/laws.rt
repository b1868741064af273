//! Laws of the definitions. Each is the contract of a function that does nothing.
ghost use Rattle.std.specs.{Prelude.◌≤◌, Prelude.◌++◌, Prelude.ℕ, Prelude.List, Prelude.[], Prelude.length, Prelude.take, List.concat};
ghost use Rattle.csicodec_looks.specs.declared.xterm.Depth.{Depth};
ghost use Rattle.csicodec_clean.specs.{Cleaned.Strips, Cleaned.longest, Styled.StylesIn, Styled.in_steps};
ghost use Rattle.csicodec_c.specs.{Step.AreCalls, Step.IsCleanStep, Step.IsEnd, Step.IsStripStep, Step.zeros, Strip.depth_number, declared.step.Cleaning.Cleaning};
ghost use Rattle.csicodec_c.specs.{declared.strip.Stripped.Stripped};

/// However untrusted text is cut into steps, what they put and the end is what `strip` makes of all of it, or `clean` in a depth.
pub fn any_steps()
    ensures strip { (chunks : List (List ℕ)) (all left old new : List ℕ) (last : Cleaning)
        (answer : Stripped)
        → AreCalls IsStripStep zeros [] chunks all last left → IsEnd last left old new answer
        → answer.needed ≤ length old
        → Strips longest (concat chunks) (all ++ take answer.needed new) }
    ensures clean { (d : Depth) (chunks : List (List ℕ)) (all left old new : List ℕ)
        (last : Cleaning) (answer : Stripped)
        → AreCalls (IsCleanStep (depth_number d)) zeros [] chunks all last left
        → IsEnd last left old new answer → answer.needed ≤ length old
        → StylesIn (in_steps d) (concat chunks) (all ++ take answer.needed new) }
{}
