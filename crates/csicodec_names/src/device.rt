//! The numbers by which a terminal says what it can do.
ghost use Rattle.std.specs.Prelude.{◌≡◌, ◌↔◌, Some, pos};
ghost use Rattle.csicodec_names.specs.{DeviceNumbers.device_attribute_codes, DeviceNumbers.device_attribute_number, Numbered.with_number};

/// An extension that a terminal names behind its service class, in its answer to the primary device attributes (DA1,
/// `CSI ? 62 ; .. c`; DEC VT220 and its successors).
#[derive(Clone, Copy, PartialEq, Eq, Debug)]
pub enum DeviceAttributeCodes {
    /// Lines of 132 columns (DEC VT220).
    Columns132 = 1,
    /// A port for a printer (DEC VT220).
    Printer = 2,
    /// Drawings by ReGIS commands (DEC VT240, VT340).
    RegisGraphics = 3,
    /// Images by sixels (DEC VT240, VT340).
    SixelGraphics = 4,
    /// Selective erase: DECSCA protects characters from DECSED and DECSEL (DEC VT220).
    SelectiveErase = 6,
    /// User-defined keys (DECUDK; DEC VT220).
    UserDefinedKeys = 8,
    /// National replacement character sets, of 7 bits, one for each language (DEC VT220).
    NationalReplacementCharsets = 9,
    /// DEC's technical character set (DEC VT320).
    TechnicalCharacters = 15,
    /// User windows: several parts of the page are shown at once (DEC VT340).
    UserWindows = 18,
    /// The page scrolls to the left and right (DEC VT420).
    HorizontalScrolling = 21,
    /// The colours of ECMA-48, by `CSI .. m` (DEC VT525).
    AnsiColor = 22,
    /// Reports of the locator, a mouse or a tablet, in cells (DEC locator mode; xterm).
    AnsiTextLocator = 29,
}

impl DeviceAttributeCodes {
    /// The number of this extension.
    pub fn to_i64(&self) -> i64
        ensures { result ≡ pos (device_attribute_number self.now) }
    {
        *self as i64
    }

    /// The extension that has this number, and none where no extension has it.
    ///
    /// ```text
    /// DeviceAttributeCodes::from_i64(4)        // Some(SixelGraphics)
    /// ```
    pub fn from_i64(number: i64) -> Option<Self>
        ensures each { (code : DeviceAttributeCodes) → (result ≡ Some code)
            ↔ (number ≡ pos (device_attribute_number code)) }
        ensures listed { result ≡ with_number device_attribute_number device_attribute_codes number }
    {
        numbered! { number, DeviceAttributeCodes:
            1 Columns132, 2 Printer, 3 RegisGraphics, 4 SixelGraphics, 6 SelectiveErase, 8 UserDefinedKeys,
            9 NationalReplacementCharsets, 15 TechnicalCharacters, 18 UserWindows, 21 HorizontalScrolling, 22 AnsiColor,
            29 AnsiTextLocator,
        }
    }
}
