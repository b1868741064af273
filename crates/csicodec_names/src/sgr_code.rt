//! Codes of attributes by their numbers, and back.
ghost use Rattle.std.specs.Prelude.{◌≡◌, ◌↔◌, pos, Some};
ghost use Rattle.csicodec_names.specs.Numbers.{number_of};

use crate::codes::{CODES, SgrCode};

impl SgrCode {
    /// The number of this code.
    pub fn to_i64(&self) -> i64
        ensures { result ≡ pos (number_of self.now) }
    {
        *self as i64
    }

    /// The code that has this number, and none where no code has it.
    ///
    /// ```text
    /// SgrCode::from_i64(31)        // Some(ForegroundRed)
    /// SgrCode::from_i64(108)       // None
    /// ```
    pub fn from_i64(number: i64) -> Option<Self>
        ensures { (code : SgrCode) → (result ≡ Some code) ↔ (number ≡ pos (number_of code)) }
    {
        if number < 0 {
            return None;
        }
        code_at(number as u64)
    }
}

/// The code of a number, by its place.
fn code_at(place: u64) -> Option<SgrCode>
    ensures { (code : SgrCode) → (result ≡ Some code) ↔ (place ≡ number_of code) }
{
    if place > 107 {
        return None;
    }
    CODES[place as usize]
}
