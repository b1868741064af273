//! The forms of a text that is written for a sequence: what may be joined to it.
ghost use Rattle.std.specs.Prelude.{◌≡◌};
ghost use Rattle.csicodec_compact.specs.Private.Steps.{closing, form_of, is_joined};

/// How a text that is held ends.
#[derive(Clone, Copy)]
pub(crate) enum TextEnding {
    /// A sequence, to which nothing is joined, and which is joined to none.
    Whole,
    /// A list of attributes with its `m`: it may be joined to another, and nothing to it.
    Last,
    /// A list of attributes that ends in a number, without its `m`.
    Open,
    /// The same, but it ends in `;`: a 0 is left out behind that.
    Blank,
    /// An empty list, without its `m`.
    Bare,
}

impl TextEnding {
    /// The form of this number.
    #[inline(always)]
    pub(crate) fn of(mark: u8) -> TextEnding
        ensures { result ≡ form_of mark }
    {
        match mark {
            1 => TextEnding::Last,
            2 => TextEnding::Open,
            3 => TextEnding::Blank,
            4 => TextEnding::Bare,
            _ => TextEnding::Whole,
        }
    }

    /// A number for it.
    pub(crate) fn mark(self) -> u8
        ensures { form_of result ≡ self }
    {
        match self {
            TextEnding::Whole => 0,
            TextEnding::Last => 1,
            TextEnding::Open => 2,
            TextEnding::Blank => 3,
            TextEnding::Bare => 4,
        }
    }

    /// Whether it is a list of attributes.
    #[inline(always)]
    pub(crate) fn is_joined(self) -> bool
        ensures { result ≡ is_joined self }
    {
        !matches!(self, TextEnding::Whole)
    }

    /// What closes it.
    pub(crate) fn closing(self) -> &'static [u8]
        ensures { result.now ≡ closing self }
    {
        match self {
            TextEnding::Whole | TextEnding::Last => b"",
            TextEnding::Open | TextEnding::Bare => b"m",
            TextEnding::Blank => b"0m",
        }
    }
}
