// Written by tools/table from table/sgr.toml: change that, and run python3 tools/table.
//! The numbers by which attributes of text are set (SGR).

/// A number that `CSI .. m` (SGR, "select graphic rendition") has a meaning for: one of 71 from 0 to 107. Those whose
/// comment names no other document are from ECMA-48, 8.3.117.
#[derive(Clone, Copy, PartialEq, Eq, Debug)]
pub enum SgrCode {
    /// All attributes back to the default rendition.
    Reset = 0,
    /// Bold or increased intensity.
    IntensityBold = 1,
    /// Faint or decreased intensity.
    IntensityDim = 2,
    /// Italicized.
    ItalicOn = 3,
    /// Underlined; behind a colon a number from 0 to 5 says how (kitty, VTE).
    UnderlineOn = 4,
    /// Blinking less than 150 times a minute.
    BlinkOn = 5,
    /// Blinking 150 times a minute or more.
    RapidBlinkOn = 6,
    /// Negative image: the colours of character and ground change places.
    InverseOn = 7,
    /// Concealed.
    InvisibleOn = 8,
    /// Crossed out.
    StrikeThroughOn = 9,
    /// The primary font.
    DefaultFont = 10,
    /// The first alternative font; those up to `AltFont9` are the second to the ninth.
    AltFont1 = 11,
    AltFont2 = 12,
    AltFont3 = 13,
    AltFont4 = 14,
    AltFont5 = 15,
    AltFont6 = 16,
    AltFont7 = 17,
    AltFont8 = 18,
    AltFont9 = 19,
    /// Doubly underlined.
    UnderlineDouble = 21,
    /// Neither bold nor faint.
    NormalIntensity = 22,
    /// Not italicized.
    ItalicOff = 23,
    /// Not underlined.
    UnderlineOff = 24,
    /// Steady.
    BlinkOff = 25,
    /// Positive image.
    InverseOff = 27,
    /// Revealed.
    InvisibleOff = 28,
    /// Not crossed out.
    StrikeThroughOff = 29,
    /// The colour of the character, here and up to `ForegroundWhite` one of the first 8 of the palette.
    ForegroundBlack = 30,
    ForegroundRed = 31,
    ForegroundGreen = 32,
    ForegroundYellow = 33,
    ForegroundBlue = 34,
    ForegroundMagenta = 35,
    ForegroundCyan = 36,
    ForegroundWhite = 37,
    /// The colour of the character by the parameters that follow (ISO/IEC 8613-6).
    ForegroundColor = 38,
    /// The terminal's own colour of the character.
    ForegroundDefault = 39,
    /// The colour of the ground, here and up to `BackgroundWhite` one of the first 8 of the palette.
    BackgroundBlack = 40,
    BackgroundRed = 41,
    BackgroundGreen = 42,
    BackgroundYellow = 43,
    BackgroundBlue = 44,
    BackgroundMagenta = 45,
    BackgroundCyan = 46,
    BackgroundWhite = 47,
    /// The colour of the ground by the parameters that follow (ISO/IEC 8613-6).
    BackgroundColor = 48,
    /// The terminal's own colour of the ground.
    BackgroundDefault = 49,
    /// Overlined.
    OverlineOn = 53,
    /// Not overlined.
    OverlineOff = 55,
    /// The colour of the underline by the parameters that follow (kitty, VTE).
    UnderlineColor = 58,
    /// The underline in the colour of the character (kitty, VTE).
    ResetUnderlineColor = 59,
    /// Superscript (mintty).
    VerticalAlignSuperScript = 73,
    /// Subscript (mintty).
    VerticalAlignSubScript = 74,
    /// Neither superscript nor subscript (mintty).
    VerticalAlignBaseLine = 75,
    /// The colour of the character, here and up to `ForegroundBrightWhite` one of the 8 bright ones of the palette
    /// (aixterm, xterm).
    ForegroundBrightBlack = 90,
    ForegroundBrightRed = 91,
    ForegroundBrightGreen = 92,
    ForegroundBrightYellow = 93,
    ForegroundBrightBlue = 94,
    ForegroundBrightMagenta = 95,
    ForegroundBrightCyan = 96,
    ForegroundBrightWhite = 97,
    /// The colour of the ground, here and up to `BackgroundBrightWhite` one of the 8 bright ones of the palette
    /// (aixterm, xterm).
    BackgroundBrightBlack = 100,
    BackgroundBrightRed = 101,
    BackgroundBrightGreen = 102,
    BackgroundBrightYellow = 103,
    BackgroundBrightBlue = 104,
    BackgroundBrightMagenta = 105,
    BackgroundBrightCyan = 106,
    BackgroundBrightWhite = 107,
}

macro_rules! code {
    (()) => { None };
    ($name:ident) => { Some(SgrCode::$name) };
}

/// Codes, several on a line; `()` where a number is none.
macro_rules! codes {
    ($($code:tt,)*) => { [$(code!($code)),*] };
}

/// The code of each number from 0 to 107, a place for each, so that finding it is one look.
pub(crate) static CODES: [Option<SgrCode>; 108] = codes! {
    Reset, IntensityBold, IntensityDim, ItalicOn, UnderlineOn, BlinkOn, RapidBlinkOn, InverseOn, InvisibleOn,
    StrikeThroughOn, DefaultFont, AltFont1, AltFont2, AltFont3, AltFont4, AltFont5, AltFont6, AltFont7, AltFont8,
    AltFont9, (), UnderlineDouble, NormalIntensity, ItalicOff, UnderlineOff, BlinkOff, (), InverseOff,
    InvisibleOff, StrikeThroughOff, ForegroundBlack, ForegroundRed, ForegroundGreen, ForegroundYellow,
    ForegroundBlue, ForegroundMagenta, ForegroundCyan, ForegroundWhite, ForegroundColor, ForegroundDefault,
    BackgroundBlack, BackgroundRed, BackgroundGreen, BackgroundYellow, BackgroundBlue, BackgroundMagenta,
    BackgroundCyan, BackgroundWhite, BackgroundColor, BackgroundDefault, (), (), (), OverlineOn, (), OverlineOff,
    (), (), UnderlineColor, ResetUnderlineColor, (), (), (), (), (), (), (), (), (), (), (), (), (),
    VerticalAlignSuperScript, VerticalAlignSubScript, VerticalAlignBaseLine, (), (), (), (), (), (), (), (), (),
    (), (), (), (), (), ForegroundBrightBlack, ForegroundBrightRed, ForegroundBrightGreen, ForegroundBrightYellow,
    ForegroundBrightBlue, ForegroundBrightMagenta, ForegroundBrightCyan, ForegroundBrightWhite, (), (),
    BackgroundBrightBlack, BackgroundBrightRed, BackgroundBrightGreen, BackgroundBrightYellow,
    BackgroundBrightBlue, BackgroundBrightMagenta, BackgroundBrightCyan, BackgroundBrightWhite,
};
