//! Laws of the encodings. Each is the contract of a function that does nothing.
ghost use Rattle.std.specs.Prelude.{◌≡◌, Some, true};
ghost use Rattle.csicodec_keys.specs.{declared.key.Encoding.Encoding, declared.writing.KeySpelling.KeySpelling, Forms.are_written, Forms.are_written_with};
ghost use Rattle.csicodec_keys.specs.{Forms.form_bytes, Forms.form_of, Forms.read_form, Forms.said, Keys.Stroke, Keys.is_stroke, Sent.IsToldAs};
ghost use Rattle.csicodec_keys.specs.declared.key.Encoding.TheVariants as encoding;
ghost use Rattle.csicodec_keys.specs.declared.rows.Table.TheVariants as table;

/// What is written of a key in an encoding is read as what that encoding can say of it.
pub fn round_trip()
    ensures { (encoding : Encoding) (key : Stroke) (form : KeySpelling) → is_stroke key ≡ true →
        form_of encoding key ≡ Some form
        → read_form form key.text ≡ Some (said encoding key) }
{}

/// The bytes that are written of a key are told by `csicodec_events` as the event and the list that `round_trip` reads, whatever
/// follows: a character, Enter, Tab, Backspace, or ctrl and a letter, as text that begins with it, and ESC alone where no more comes.
#[tactic(auto, using(crate::proofs::Trip::written_told))]
pub fn told()
    ensures { (encoding : Encoding) (key : Stroke) (form : KeySpelling) → is_stroke key ≡ true →
        form_of encoding key ≡ Some form → IsToldAs form key.text (form_bytes form key.text) }
{}

/// Each key of a table is written in the encoding of that table, with what its row says is held down; with modifyOtherKeys, which writes
/// nothing without a modifier, with ctrl.
#[tactic(auto, unfolding(crate::specs::Tables::rows, crate::specs::Rows::row_of, crate::specs::Rows::row_at))]
pub fn every_row()
    ensures legacy { (are_written encoding.Legacy table.Control ≡ true)
        × (are_written encoding.Legacy table.Ss3 ≡ true)
        × (are_written encoding.Legacy table.Csi ≡ true) }
    ensures other { are_written_with encoding.ModifyOtherKeys 4 table.Other ≡ true }
    ensures kitty { (are_written encoding.Kitty table.Kitty ≡ true)
        × (are_written encoding.Kitty table.Csi ≡ true) }
    ensures win32 { are_written encoding.Win32 table.Win32 ≡ true }
    ensures rxvt { (are_written encoding.Rxvt table.Rxvt ≡ true)
        × (are_written encoding.Rxvt table.RxvtSs3 ≡ true) }
    ensures linux { are_written encoding.Linux table.Linux ≡ true }
{}
