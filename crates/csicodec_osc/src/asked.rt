//! A value, or a question for it.
ghost use Rattle.std.specs.Prelude.{◌≡◌};
ghost use Rattle.csicodec_osc.specs.Osc.{asked, asked_text, value_of};

/// A value, or a question for it, which a terminal answers with the same command and the value.
#[derive(Clone, Copy, Debug)]
pub enum Asked<'a> {
    /// `?`
    Query,
    /// The value, which isn't `?`.
    Value(&'a [u8]),
}

impl<'a> Asked<'a> {
    /// What a field says.
    pub fn of(field: &'a [u8]) -> Asked<'a>
        ensures { value_of result ≡ asked field.now }
    {
        if field == b"?".as_slice() {
            Asked::Query
        } else {
            Asked::Value(field)
        }
    }

    /// The field that says it.
    pub fn as_bytes(self) -> &'a [u8]
        ensures { result.now ≡ asked_text (value_of self.entry) }
    {
        match self {
            Asked::Query => b"?",
            Asked::Value(value) => value,
        }
    }
}
