//! Fields: what stands between semicolons.
ghost use Rattle.std.specs.Prelude.{◌≡◌, option_map, option_and_then};
ghost use Rattle.csicodec_osc.specs.Osc.{IsNext, list_text, percent_of};

use crate::body::split_at;

/// Fields, each behind a `;`.
///
/// ```text
/// let mut fields = OscFields { text: Some(b"1;?;7;red") };
/// fields.next()                // Some("1")
/// fields.next()                // Some("?"), a question: `Asked::of` tells
/// ```
#[derive(Clone, Copy, Debug)]
pub struct OscFields<'a> {
    /// The fields with the `;` between them; none where no `;` stands behind the number. The empty text is one empty field.
    pub text: Option<&'a [u8]>,
}

impl<'a> OscFields<'a> {
    /// Takes the field in front; none is left behind the last one.
    pub fn next(&mut self) -> Option<&'a [u8]>
        ensures { IsNext (list_text self.old) (option_map (λ f. f.now) result) (list_text self.new) }
    {
        let text = self.text?;
        match split_at(text, b';') {
            Some((field, rest)) => {
                self.text = Some(rest);
                Some(field)
            }
            None => {
                self.text = None;
                Some(text)
            }
        }
    }

    /// The number from 0 to 100, without zeros ahead, that stands there alone: how much is done of a progress.
    pub fn percent(self) -> Option<u8>
        ensures { result ≡ option_and_then percent_of (list_text self.entry) }
    {
        percent(self.text?)
    }
}

/// A number from 0 to 100 without leading zeros.
fn percent(text: &[u8]) -> Option<u8>
    ensures { result ≡ percent_of text.now }
{
    match text {
        [ones @ b'0'..=b'9'] => Some(*ones - b'0'),
        [tens @ b'1'..=b'9', ones @ b'0'..=b'9'] => Some(10 * (*tens - b'0') + (*ones - b'0')),
        [b'1', b'0', b'0'] => Some(100),
        _ => None,
    }
}
