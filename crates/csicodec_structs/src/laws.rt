//! Laws of the definitions. Each is the contract of a function that does nothing.
ghost use Rattle.std.specs.Prelude.{List};
ghost use Rattle.csicodec_structs.specs.{Encode.OneAction, declared.structs.Param.Param, declared.structs.Struct.Struct};

/// A struct with its tokens stands for one action, where any action has them: for the one that says by its name what has a
/// name, and for no other.
#[tactic(auto, using(crate::proofs::Stand::one_stands))]
pub fn one_action()
    ensures { (given : Struct) (params : List Param) → OneAction given params }
{}
