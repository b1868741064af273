//! Laws of the definitions. Each is the contract of a function that does nothing.
ghost use Rattle.std.specs.Prelude.{◌≡◌, ◌↔◌, ℕ, ℤ, List, ◌∷◌, ◌++◌, Option, Some};
ghost use Rattle.csicodec_tokens.specs.{declared.param.CsiParam.CsiParam, declared.reader.ReadError.ReadError, Fault.Begins, Fault.Fault, Fields.Fields};
ghost use Rattle.csicodec_tokens.specs.{Fields.fields_of, Param.spells, Sequence.Seq, Sequence.Spellable, Sequence.Spells};

/// No sequence begins another, and one text is one sequence.
pub fn one_sequence()
    ensures { (a b x y : List ℕ) (l m : List CsiParam) (f g : ℕ) →
        Seq a l f → Seq b m g → a ++ x ≡ b ++ y → (a ≡ b) × (l ≡ m) × (f ≡ g) × (x ≡ y) }
{}

/// Bytes have at most one fault.
#[tactic(auto, using(crate::proofs::Beginnings::one_fault))]
pub fn one_fault()
    ensures { (bytes : List ℕ) (d e : ReadError) → Fault bytes d → Fault bytes e → d ≡ e }
{}

/// The beginnings of sequences are the bytes that go on to a sequence, by at least its final byte.
pub fn beginnings_go_on()
    ensures { (bytes : List ℕ) → Begins bytes ↔
        ((byte : ℕ) × (more : List ℕ) × (list : List CsiParam) × (final : ℕ)
        × Seq (bytes ++ byte ∷ more) list final) }
{}

/// What a spellable list prints is one of its spellings.
#[tactic(auto, using(crate::proofs::Printed::printed))]
pub fn printed_is_spelled()
    ensures { (list : List CsiParam) → Spellable list → Spells (spells list) list }
{}

/// A list has at most one list of fields.
#[tactic(auto, using(crate::proofs::FieldsOf::one_fields))]
pub fn one_fields()
    ensures { (list : List CsiParam) (f g : List (Option ℤ)) → Fields list f → Fields list g
        → f ≡ g }
{}

/// The fields of a list are found by going through it, token by token; a list that has none gives none so.
#[tactic(auto, using(crate::proofs::FieldsOf::fields_in_turn))]
pub fn fields_in_turn()
    ensures { (list : List CsiParam) (f : List (Option ℤ)) → Fields list f
        ↔ (fields_of list ≡ Some f) }
{}
