// Written by tools/table from table/escapes.toml: change that, and run python3 tools/table.
//! Escape sequences and character sets in words.

/// The set C0, by its bytes: the name of each, and what it does; ESC stands in no text.
pub(crate) static CONTROLS: [&str; 32] = pieces! {
    "NUL  nothing", "SOH  start of heading", "STX  start of text", "ETX  end of text", "EOT  end of transmission",
    "ENQ  ask for the answerback message", "ACK  acknowledge", "BEL  ring the bell", "BS  cursor left 1 column",
    "HT  cursor to the next tab stop", "LF  cursor down 1 line, scrolling",
    "VT  cursor down 1 line, scrolling (line tabulation)", "FF  cursor down 1 line, scrolling (form feed)",
    "CR  cursor to column 1", "SO  G1 into GL", "SI  G0 into GL", "DLE  data link escape",
    "DC1  transmission on (XON)", "DC2  device control 2", "DC3  transmission off (XOFF)",
    "DC4  device control 4", "NAK  negative acknowledge", "SYN  synchronous idle", "ETB  end of a block",
    "CAN  cancel what is open", "EM  end of medium", "SUB  cancel what is open, show an error character",
    "control", "FS  file separator", "GS  group separator", "RS  record separator", "US  unit separator",
};

/// Those with a name: their bytes behind ESC, a tab and the words, as all that follow.
pub(crate) static NAMES: [&str; 88] = pieces! {
    " F\tS7C1T  C1 controls as 7-bit sequences", " G\tS8C1T  C1 controls as single bytes",
    " L\tACS  ANSI conformance level 1", " M\tACS  ANSI conformance level 2", " N\tACS  ANSI conformance level 3",
    "#3\tDECDHL  line of double height, top half", "#4\tDECDHL  line of double height, bottom half",
    "#5\tDECSWL  line of single width", "#6\tDECDWL  line of double width", "#7\tDECHCP  print the screen",
    "#8\tDECALN  fill the screen with E", "%/@\tDOCS  UCS-2 on, without return",
    "%/A\tDOCS  UCS-4 on, without return", "%/C\tDOCS  UCS-2 on, without return",
    "%/D\tDOCS  UCS-4 on, without return", "%/E\tDOCS  UCS-2 on, without return",
    "%/F\tDOCS  UCS-4 on, without return", "%/G\tDOCS  UTF-8 on, without return",
    "%/H\tDOCS  UTF-8 on, without return", "%/I\tDOCS  UTF-8 on, without return",
    "%/J\tDOCS  UTF-16 on, without return", "%/K\tDOCS  UTF-16 on, without return",
    "%/L\tDOCS  UTF-16 on, without return", "%8\tDOCS  UTF-8 on", "%@\tDOCS  UTF-8 off", "%G\tDOCS  UTF-8 on",
    "1\tDECGON  waveform graphics on (VT105)", "2\tDECGOFF  waveform graphics off (VT105)",
    "6\tDECBI  cursor left 1 column, scrolling", "7\tDECSC  save the cursor", "8\tDECRC  restore the cursor",
    "9\tDECFI  cursor right 1 column, scrolling", "<\tDECANM  ANSI mode on (out of VT52 mode)",
    "=\tDECKPAM  application keypad on", ">\tDECKPNM  application keypad off", "@\tPAD  padding",
    "A\tESC A  cursor up 1 line (VT52)", "B\tBPH  a line may break here", "C\tNBH  no line may break here",
    "D\tIND  cursor down 1 line, scrolling", "E\tNEL  cursor to column 1, down 1 line, scrolling",
    "F\tSSA  start of a selected area (or xterm, where it is set up so: cursor to the lower left corner)",
    "G\tESA  end of a selected area", "H\tHTS  set a tab stop at the cursor",
    "I\tHTJ  to the next tab stop, text before it justified", "J\tVTS  set a line tab stop at the cursor",
    "K\tPLD  partial line forward (subscript)", "L\tPLU  partial line backward (superscript)",
    "M\tRI  cursor up 1 line, scrolling", "N\tSS2  next character from G2", "O\tSS3  next character from G3",
    "OA\tkey  Up (application mode)", "OB\tkey  Down (application mode)", "OC\tkey  Right (application mode)",
    "OD\tkey  Left (application mode)", "OF\tkey  End (application mode)", "OH\tkey  Home (application mode)",
    "OP\tkey  F1", "OQ\tkey  F2", "OR\tkey  F3", "OS\tkey  F4", "Q\tPU1  private use", "R\tPU2  private use",
    "S\tSTS  set transmit state", "T\tCCH  cancel character", "U\tMW  message waiting",
    "V\tSPA  start of a guarded area", "W\tEPA  end of a guarded area", "X\tSOS  start of a string",
    "Y\tESC Y  cursor to the line and column of the next two characters (VT52)",
    "Z\tDECID  ask for the terminal's class and extensions", "\\\tST  end of a string", "^\tPM  privacy message",
    "_\tAPC  command to a program", "`\tDMI  keyboard off", "a\tINT  interrupt", "b\tEMI  keyboard on",
    "c\tRIS  full reset", "d\tCMD  end of the coding method", "g\tESC g  visual bell (screen, tmux, rxvt)",
    "k\tESC k  start of a window title (screen, tmux)", "l\tESC l  lock lines above the cursor (HP; xterm)",
    "m\tESC m  unlock lines (HP; xterm)", "n\tLS2  G2 into GL", "o\tLS3  G3 into GL", "|\tLS3R  G3 into GR",
    "}\tLS2R  G2 into GR", "~\tLS1R  G1 into GR",
};

/// What any other sequence is that has these intermediate bytes.
pub(crate) static OTHERS: [&str; 6] = pieces! {
    " \tACS  announce a code structure", "!\tCZD  controls of C0 from another set",
    "\"\tC1D  controls of C1 from another set", "%\tDOCS  another coding system",
    "%/\tDOCS  another coding system, without return", "&\tIRR  revision of the set that follows",
};

/// Sets of 94 characters, by what stands behind the byte that says what they become.
pub(crate) static SETS: [&str; 38] = pieces! {
    " @\tdownloaded set (DRCS)", "\"4\tDEC Hebrew", "\">\tGreek", "\"?\tDEC Greek", "%0\tDEC Turkish",
    "%2\tTurkish", "%5\tDEC supplemental", "%6\tPortuguese", "%=\tHebrew", "&4\tDEC Cyrillic", "&5\tRussian",
    "0\tDEC special graphics (line drawing)", "1\tDEC alternate character ROM",
    "2\tDEC alternate character ROM, special graphics", "4\tDutch", "5\tFinnish", "6\tNorwegian and Danish",
    "7\tSwedish", "9\tFrench Canadian", "<\tthe user's supplemental set", "=\tSwiss", ">\tDEC technical",
    "@\tISO 646, international reference version", "A\tBritish", "B\tASCII", "C\tFinnish",
    "E\tNorwegian and Danish", "H\tSwedish", "I\tJIS X 0201 Katakana", "J\tJIS X 0201 Roman",
    "K\tGerman (Linux: the user's mapping)", "Q\tFrench Canadian", "R\tFrench", "U\tnull mapping (Linux)",
    "Y\tItalian", "Z\tSpanish", "`\tNorwegian and Danish", "f\tFrench",
};

/// Sets of 96 characters.
pub(crate) static SETS_OF_96: [&str; 16] = pieces! {
    "<\tthe user's supplemental set", "A\tLatin-1", "B\tLatin-2", "C\tLatin-3", "D\tLatin-4",
    "F\tGreek (ISO 8859-7)", "G\tArabic (ISO 8859-6)", "H\tHebrew (ISO 8859-8)", "L\tCyrillic (ISO 8859-5)",
    "M\tLatin-5", "T\tThai", "V\tLatin-6", "Y\tLatin-7", "_\tLatin-8", "b\tLatin-9", "f\tLatin-10",
};

/// Sets of which each character has several bytes.
pub(crate) static SETS_OF_SEVERAL: [&str; 16] = pieces! {
    "@\tJIS C 6226-1978", "A\tGB 2312", "B\tJIS X 0208", "C\tKS X 1001", "D\tJIS X 0212", "E\tISO-IR 165",
    "G\tCNS 11643, plane 1", "H\tCNS 11643, plane 2", "I\tCNS 11643, plane 3", "J\tCNS 11643, plane 4",
    "K\tCNS 11643, plane 5", "L\tCNS 11643, plane 6", "M\tCNS 11643, plane 7", "O\tJIS X 0213, plane 1",
    "P\tJIS X 0213, plane 2", "Q\tJIS X 0213 of 2004, plane 1",
};
