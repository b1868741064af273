//! Laws of the definitions. Each is the contract of a function that does nothing.
ghost use Rattle.std.specs.Prelude.{◌≡◌, ◌↔◌, ℕ, List, ◌++◌, Some, drop, take};
ghost use Rattle.csicodec_tokens.specs.declared.param.CsiParam.{CsiParam};
ghost use Rattle.csicodec_base.specs.{declared.sgr.Sgr.Sgr, FrontBy.piece, Pieces.NoColon, Pieces.Piece};

pub use csicodec_names::laws::{kitty_flags, modifiers, mouse_buttons};
pub use csicodec_tokens::laws::{
    beginnings_go_on, fields_in_turn, one_fault, one_fields, one_sequence, printed_is_spelled,
};

/// The piece at a front is found by going through the table row by row. So there is at most one.
pub fn piece_by_row()
    ensures { (rest : List CsiParam) (k : ℕ) (action : Sgr) → Piece rest k action
        ↔ (piece rest ≡ Some (action, k)) }
{}

/// The piece at the front of a list is the piece at the front of its first 13 tokens.
#[tactic(auto, using(crate::proofs::Table::first_tokens))]
pub fn first_tokens()
    ensures { (rest : List CsiParam) (k : ℕ) (action : Sgr) → Piece rest k action
        ↔ Piece (take 13 rest) k action }
{}

/// Whatever follows the list, the piece at its front stays, unless a `:` comes directly after the piece.
#[tactic(auto, using(crate::proofs::Joint::piece_joint))]
pub fn piece_stays()
    ensures { (list more : List CsiParam) (k : ℕ) (action : Sgr) →
        NoColon (drop k list ++ more) → Piece list k action → Piece (list ++ more) k action }
{}
