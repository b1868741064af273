//! Graphic sets.
ghost use Rattle.std.specs.Prelude.{◌≡◌};
ghost use Rattle.csicodec_looks.specs.Sets.{char_in, set_at};

/// A graphic set of 94 characters (ISO/IEC 2022), of those that SCS designates (DEC VT220, EK-VT220-RM). Any other set is taken for ASCII.
#[derive(Clone, Copy, PartialEq, Eq, Debug)]
pub enum Set {
    Ascii,
    /// The special graphic set, `0`.
    Graphics,
    /// The British set, `A`.
    British,
}

/// What `_` to `~` are in the special graphic set.
const GRAPHICS: [char; 32] = [
    ' ', '◆', '▒', '␉', '␌', '␍', '␊', '°', '±', '␤', '␋', '┘', '┐', '┌', '└', '┼', '⎺', '⎻', '─',
    '⎼', '⎽', '├', '┤', '┴', '┬', '│', '≤', '≥', 'π', '≠', '£', '·',
];

impl Set {
    /// The set that this final byte of SCS names, where no intermediate byte stands in front of it.
    pub fn named(last: u8) -> Set
        ensures { result ≡ set_at last }
    {
        match last {
            b'0' => Set::Graphics,
            b'A' => Set::British,
            _ => Set::Ascii,
        }
    }

    /// What a character of ASCII is in it.
    pub fn char(self, char: char) -> char
        ensures { result ≡ char_in self char }
    {
        match self {
            Set::Ascii => char,
            Set::Graphics if '_' <= char && char <= '~' => {
                GRAPHICS[(char as usize).saturating_sub(95)]
            }
            Set::Graphics => char,
            Set::British if char == '#' => '£',
            Set::British => char,
        }
    }
}
