//! Laws of rows, and of the table. Each is the contract of a function that does nothing.
ghost use Rattle.std.specs.Prelude.{◌≡◌, ◌↔◌, ◌<◌, ◌≤◌, ◌++◌, ℕ, List, length, Some, None, true, slice_get, encode_utf8};
ghost use Rattle.std.specs.List.{list_all};
ghost use Rattle.csicodec_tokens.specs.{declared.param.CsiParam.CsiParam, Param.spells, Sequence.IsFinal, Sequence.Spellable};
ghost use Rattle.csicodec_actions.specs.Table.{whole};
ghost use Rattle.csicodec_sequences.specs.{Known.reading, Known.table, declared.row.SequenceForm.SequenceForm, Rows.Row, Rows.fit, Rows.is_row, Rows.read_row};
ghost use Rattle.csicodec_sequences.specs.{Rows.row_list, Rows.form_text};

/// Of any row: the values that it reads back of the list that it writes of them are those that fit its slots, and no others.
#[tactic(auto, using(crate::proofs::Table::fits_read, crate::proofs::Table::read_fits))]
pub fn exact()
    ensures { (row : Row) (values : List ℕ) → is_row row ≡ true →
        (read_row row (row_list row values) row.form.control ≡ Some values)
        ↔ (fit row.slots values ≡ true) }
{}

/// Of any row: what it reads fits its slots, so that it is read back from what is written of it.
#[tactic(auto, using(crate::proofs::Table::read_fits))]
pub fn what_is_read_fits()
    ensures { (row : Row) (list : List CsiParam) (final : ℕ) (values : List ℕ) → is_row row ≡ true →
        read_row row list final ≡ Some values → fit row.slots values ≡ true }
{}

/// Of any row: the text of values is that of their list, and the final character behind it.
#[tactic(auto, using(crate::proofs::Table::text_lem))]
pub fn text()
    ensures { (row : Row) (values : List ℕ)
        → form_text row.form values ≡ spells (row_list row values) ++ encode_utf8 row.form.control }
{}

/// Each row of the table is a row: its bytes are such bytes, and what is left out is in its range.
#[tactic(auto, using(crate::proofs::Table::are_all))]
pub fn rows()
    ensures { list_all is_row table ≡ true }
{}

/// No two rows of the table read one list.
#[tactic(auto, using(crate::proofs::Table::one_row))]
pub fn one_row()
    ensures { (list : List CsiParam) (final i j : ℕ) (q r : Row) (v w : List ℕ) →
        slice_get table i ≡ Some q → slice_get table j ≡ Some r →
        read_row q list final ≡ Some v → read_row r list final ≡ Some w → i ≡ j }
{}

/// Each row of the table has a kind of its own, above 10000.
#[tactic(auto, using(crate::proofs::Table::above, crate::proofs::Table::one))]
pub fn kinds()
    ensures above { (i : ℕ) (row : Row) → slice_get table i ≡ Some row → 10000 < row.form.kind }
    ensures one { (i j : ℕ) (q r : Row) → slice_get table i ≡ Some q → slice_get table j ≡ Some r →
        q.form.kind ≡ r.form.kind → i ≡ j }
{}

/// No row of the table reads a list of more than 26 tokens.
#[tactic(auto, using(crate::proofs::Table::longest))]
pub fn longest()
    ensures { (list : List CsiParam) (final : ℕ) (known : SequenceForm × List ℕ) →
        reading list final ≡ Some known → length list ≤ 26 }
{}

/// The row of the table that reads a list says what is known of it, wherever it stands.
#[tactic(auto, using(crate::proofs::Table::any_row))]
pub fn any_row()
    ensures { (list : List CsiParam) (final i : ℕ) (row : Row) (values : List ℕ) →
        slice_get table i ≡ Some row → read_row row list final ≡ Some values
        → reading list final ≡ Some (row.form, values) }
{}

/// No row of the table reads a list that is read whole as an action.
#[tactic(auto, using(crate::proofs::NoAction::no_action))]
pub fn no_action()
    ensures { (list : List CsiParam) (final i : ℕ) (row : Row) (values : List ℕ) →
        slice_get table i ≡ Some row → read_row row list final ≡ Some values
        → whole list final ≡ None }
{}

/// What a row of the table writes of values that fit it is a control sequence: behind `ESC [`, its text is read as its list.
pub fn sequence()
    ensures { (i : ℕ) (row : Row) (values : List ℕ) →
        slice_get table i ≡ Some row → fit row.slots values ≡ true
        → Spellable (row_list row values) × IsFinal row.form.control }
{}
