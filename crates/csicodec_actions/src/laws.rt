//! Laws of the table. Each is the contract of a function that does nothing.
ghost use Rattle.csicodec_actions.specs.Table.{FieldRowsDecide, RowsDecide};

use csicodec_base::CsiParam;

/// What any row of a final gives is the action of the list, be it a row of tokens or one over fields: no two rows read one
/// list.
pub fn rows(params: &[CsiParam], control: char)
    ensures tokens { RowsDecide params.now control }
    ensures fields { FieldRowsDecide params.now control }
{}
