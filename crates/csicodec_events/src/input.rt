//! The event in front of what a terminal sends.
ghost use Rattle.std.specs.Prelude.{◌≡◌, ◌<◌, ◌++◌, ◌+◌, ◌^◌, [], List, ℕ, length, IfNone, IfSome, IfOk, MatchOption, OnErr, OnOk, true, take, drop};
ghost use Rattle.csicodec_tokens.specs.declared.param.CsiParam.{CsiParam};
ghost use Rattle.csicodec_spans.specs.declared.table.Mode.TheVariants.{Text as Plain};
ghost use Rattle.bstr.specs.Utf8.{lead_len};
ghost use Rattle.csicodec_events.specs.Input.{Awaits, IsSent, IsSentBy, ahead, alt_char, alt_one, characters, csi, doubled, escape, goes_on, in_input, is_digit, is_key, is_modifier, is_opener, is_printable, is_wide, paused, rxvt, ss3, string};
ghost use Rattle.csicodec_events.specs.{declared.input.Form.TheVariants.Unsure, declared.input.Form.TheVariants.Whole, declared.input.InputEvent.TheVariants.Modified};
ghost use Rattle.csicodec_events.specs.{Events.IsMet, Events.left, Events.onward};

use crate::event::{Event, Events};
use crate::sequence::near;
use crate::text::is_from;
use bstr::decode_utf8;
use csicodec_spans::Mode;
use csicodec_tokens::CsiParam;
use std::alloc::AllocError;

/// Who wrote a stream.
#[derive(Clone, Copy, Debug, PartialEq, Eq)]
pub enum Dialect {
    /// A program, for a terminal.
    Output,
    /// A terminal, for a program: keys, the mouse and answers.
    Input,
    /// The same while mode 1005 is set: the three characters of a mouse report are in UTF-8.
    Utf8Input,
}

/// What comes next in what a terminal sends.
#[derive(Clone, Copy, Debug, PartialEq, Eq)]
pub enum InputEvent {
    /// What output has too: text, a control sequence, a piece of a string ..
    Output(Event),
    /// SS3 (`ESC O`) and this character, from `' '` to `'~'`: a key of the keypad, an arrow or F1 to F4.
    Ss3(u8),
    /// A key with modifiers that xterm sends as `CSI number ; modifiers control`, in another form: `ESC O 5 P` (Konsole), `ESC O 1 ; 5 P` (VTE
    /// before 0.38), `ESC ESC [ A`, `ESC ESC O A` and `ESC ESC [ 5 ~` (rxvt, iTerm2), the last three with alt.
    Modified {
        /// The number, 0 to 99.
        number: u8,
        /// 1 and more than the sum of shift (1), alt (2), ctrl (4) and super (8): 2 to 9.
        modifiers: u8,
        /// The final character: `'A'` to `'F'`, `'H'`, `'P'` to `'S'`, or `'~'`.
        control: u8,
    },
    /// `ESC [ [` and this character: F1 to F5 of Linux' console, `'A'` to `'E'`.
    Linux(u8),
    /// `ESC [`, this number, of one digit or two, and `$`: a key with shift, of rxvt.
    Rxvt(u8),
    /// `ESC [ M` and three characters, which are the last of its bytes: each is 32 and more than the button, the column and the
    /// line, in UTF-8 in [`Utf8Input`](Dialect::Utf8Input).
    Mouse,
    /// ESC and this character, in UTF-8: a key with alt.
    Alt(char),
    /// `ESC [ I`: the terminal got the focus, where mode 1004 is set. That it lost it is a control sequence, `ESC [ O`.
    FocusGained,
    /// ESC alone.
    Escape,
}

/// An event, its bytes, and what is behind it.
#[derive(Clone, Copy, Debug)]
pub struct Sent<'a> {
    /// What it is.
    pub event: InputEvent,
    /// Its bytes: a part of the slice that was passed, not a copy.
    pub bytes: &'a [u8],
    /// The bytes behind it: the end of the slice that was passed, not a copy.
    pub rest: &'a [u8],
}

/// What stands in front.
#[derive(Clone, Copy)]
pub(crate) enum Form {
    /// A form of so many bytes.
    Whole(InputEvent, usize),
    /// What output has there.
    AsOutput,
    /// It depends on what follows.
    Unsure,
}

fn is_printable(byte: u8) -> bool
    ensures { result ≡ is_printable byte }
{
    is_from(b' ', b'~', byte)
}

fn is_digit(byte: u8) -> bool
    ensures { result ≡ is_digit byte }
{
    is_from(b'0', b'9', byte)
}

/// The first character of a control string.
fn is_opener(byte: u8) -> bool
    ensures { result ≡ is_opener byte }
{
    byte == b'P' || byte == b'X' || is_from(b']', b'_', byte)
}

impl Dialect {
    /// Whether a character of a mouse report that begins so has two bytes.
    fn is_wide(self, byte: u8) -> bool
        ensures { result ≡ is_wide self byte }
    {
        matches!(self, Dialect::Utf8Input) && 0x80 <= byte
    }
}

pub(crate) fn behind(bytes: &[u8], len: usize) -> &[u8]
    ensures { result.now ≡ drop len bytes.now }
{
    bytes.get(len..).unwrap_or(&[])
}

/// A mouse report of which so many characters are to come, behind so many bytes; `begun` says that the first of two bytes of one has
/// come.
fn characters(dialect: Dialect, left: usize, begun: bool, len: usize, bytes: &[u8]) -> Form
    requires { len + length bytes.now < 2 ^ 64 }
    ensures { result ≡ characters dialect left begun len bytes.now }
{
    match bytes {
        [] if left == 0 => Form::Whole(InputEvent::Mouse, len),
        [] => Form::Unsure,
        [byte, others @ ..] => {
            if left == 0 {
                Form::Whole(InputEvent::Mouse, len)
            } else if begun {
                if is_from(0x80, 0xbf, *byte) {
                    characters(dialect, left - 1, false, len + 1, others)
                } else {
                    Form::AsOutput
                }
            } else if dialect.is_wide(*byte) {
                if is_from(0xc2, 0xdf, *byte) {
                    characters(dialect, left, true, len + 1, others)
                } else {
                    Form::AsOutput
                }
            } else {
                characters(dialect, left - 1, false, len + 1, others)
            }
        }
    }
}

/// Behind `ESC [` and a digit.
fn rxvt(first: u8, bytes: &[u8]) -> Form
    requires { is_digit first ≡ true }
    ensures { result ≡ rxvt first bytes.now }
{
    match bytes {
        [] => Form::Unsure,
        [b'$', ..] => Form::Whole(InputEvent::Rxvt(first - b'0'), 4),
        [byte] if is_digit(*byte) => Form::Unsure,
        [byte, b'$', ..] if is_digit(*byte) => {
            Form::Whole(InputEvent::Rxvt(10 * (first - b'0') + (*byte - b'0')), 5)
        }
        _ => Form::AsOutput,
    }
}

/// Behind `ESC [`.
fn csi(dialect: Dialect, bytes: &[u8]) -> Form
    ensures { result ≡ csi dialect bytes.now }
{
    match bytes {
        [] | [b'['] => Form::Unsure,
        [b'[', byte, ..] if is_printable(*byte) => Form::Whole(InputEvent::Linux(*byte), 4),
        [b'M', others @ ..] => characters(dialect, 3, false, 3, others),
        [b'I', ..] => Form::Whole(InputEvent::FocusGained, 3),
        [byte, others @ ..] if is_digit(*byte) => rxvt(*byte, others),
        _ => Form::AsOutput,
    }
}

/// Whether a byte behind ESC goes on with the string that is open, if one is.
fn goes_on(mode: Mode, byte: u8) -> bool
    ensures { result ≡ goes_on mode byte }
{
    match mode {
        Mode::Text | Mode::BadCsi | Mode::BadEsc => false,
        Mode::Osc | Mode::Dcs | Mode::Str => byte == b'\\' || byte == 0x1b,
    }
}

/// Whether the byte ends what xterm sends for a cursor key, or for F1 to F4.
fn is_key(byte: u8) -> bool
    ensures { result ≡ is_key byte }
{
    is_from(b'A', b'F', byte) || byte == b'H' || is_from(b'P', b'S', byte)
}

/// Whether the byte is a digit that says what is held down.
fn is_modifier(byte: u8) -> bool
    ensures { result ≡ is_modifier byte }
{
    is_from(b'2', b'9', byte)
}

/// A form of a key of so many bytes: its number, modifiers and final character.
fn modified(number: u8, modifiers: u8, control: u8, len: usize) -> Form
    ensures { result ≡ Whole (Modified number modifiers control) len }
{
    let event = InputEvent::Modified {
        number,
        modifiers,
        control,
    };
    Form::Whole(event, len)
}

/// Behind `ESC O`.
fn ss3(bytes: &[u8]) -> Form
    ensures { result ≡ ss3 bytes.now }
{
    match bytes {
        [] | [b'1'] | [b'1', b';'] => Form::Unsure,
        [b'1', b';', by] if is_modifier(*by) => Form::Unsure,
        [b'1', b';', by, key, ..] if is_modifier(*by) && is_key(*key) => {
            modified(1, *by - b'0', *key, 6)
        }
        [by] if is_modifier(*by) => Form::Unsure,
        [by, key, ..] if is_modifier(*by) && is_key(*key) => modified(1, *by - b'0', *key, 4),
        [byte, ..] if is_printable(*byte) => Form::Whole(InputEvent::Ss3(*byte), 3),
        _ => Form::Whole(InputEvent::Alt('O'), 2),
    }
}

/// Behind `ESC ESC [` and a digit.
fn alt_numbered(first: u8, bytes: &[u8]) -> Form
    requires { is_digit first ≡ true }
    ensures { result ≡ alt_one first bytes.now }
{
    match bytes {
        [] => Form::Unsure,
        [b'~', ..] => modified(first - b'0', 3, b'~', 5),
        [byte] if is_digit(*byte) => Form::Unsure,
        [byte, b'~', ..] if is_digit(*byte) => {
            modified(10 * (first - b'0') + (*byte - b'0'), 3, b'~', 6)
        }
        _ => Form::Whole(InputEvent::Escape, 1),
    }
}

/// Behind `ESC ESC`.
fn doubled(bytes: &[u8]) -> Form
    ensures { result ≡ doubled bytes.now }
{
    match bytes {
        [] | [b'O' | b'['] => Form::Unsure,
        [b'O' | b'[', key, ..] if is_key(*key) => modified(1, 3, *key, 4),
        [b'[', byte, others @ ..] if is_digit(*byte) => alt_numbered(*byte, others),
        _ => Form::Whole(InputEvent::Escape, 1),
    }
}

/// A character behind ESC, of so many bytes by the first.
fn alt_char(len: usize, bytes: &[u8]) -> Form
    requires { len < 5 }
    ensures { result ≡ alt_char len bytes.now }
{
    let Some(front) = bytes.get(..len) else {
        return Form::Unsure;
    };
    match decode_utf8(front).0 {
        Some(character) => Form::Whole(InputEvent::Alt(character), 1 + len),
        None => Form::Whole(InputEvent::Escape, 1),
    }
}

/// How many bytes a character has that begins with this one; 0 where none does (Unicode, Table 3-7).
fn lead_len(byte: u8) -> usize
    ensures { result ≡ lead_len byte }
{
    match byte {
        0..=0x7f => 1,
        0x80..=0xc1 => 0,
        0xc2..=0xdf => 2,
        0xe0..=0xef => 3,
        0xf0..=0xf4 => 4,
        0xf5.. => 0,
    }
}

/// Behind the first character of a control string.
fn string(bytes: &[u8]) -> Form
    ensures { result ≡ string bytes.now }
{
    if bytes.is_empty() {
        Form::Unsure
    } else {
        Form::AsOutput
    }
}

/// Behind ESC.
fn escape(dialect: Dialect, mode: Mode, bytes: &[u8]) -> Form
    ensures { result ≡ escape dialect mode bytes.now }
{
    let Some((byte, others)) = bytes.split_first() else {
        return Form::Unsure;
    };
    if goes_on(mode, *byte) {
        return Form::AsOutput;
    }
    match *byte {
        b'O' => ss3(others),
        b'[' => csi(dialect, others),
        byte if is_opener(byte) => string(others),
        0x1b => doubled(others),
        byte => alt_char(lead_len(byte), bytes),
    }
}

/// What stands in front of input.
fn in_input(dialect: Dialect, mode: Mode, bytes: &[u8]) -> Form
    ensures { result ≡ in_input dialect mode bytes.now }
{
    match bytes {
        [] => Form::Unsure,
        [0x1b, others @ ..] => escape(dialect, mode, others),
        _ => Form::AsOutput,
    }
}

/// What stands in front of a stream, of whose control sequence there so many bytes were looked at.
fn ahead(dialect: Dialect, mode: Mode, looked: usize, bytes: &[u8]) -> Form
    ensures { result ≡ ahead dialect mode looked bytes.now }
{
    match dialect {
        Dialect::Input | Dialect::Utf8Input if looked == 0 => in_input(dialect, mode, bytes),
        _ => Form::AsOutput,
    }
}

/// What stands in front where no more comes for now.
fn paused(bytes: &[u8]) -> Form
    ensures { result ≡ paused bytes.now }
{
    match bytes {
        [0x1b] | [0x1b, 0x1b | 0x80.., ..] => Form::Whole(InputEvent::Escape, 1),
        [0x1b, byte] => Form::Whole(InputEvent::Alt(char::from(*byte)), 2),
        [0x1b, b'O', byte, ..] if is_printable(*byte) => { Form::Whole(InputEvent::Ss3(*byte), 3) }
        _ => Form::Unsure,
    }
}

impl Events {
    /// The event of the first bytes, so many.
    fn sent<'a>(&mut self, event: InputEvent, bytes: &'a [u8], len: usize) -> Sent<'a>
        ensures event { result.event ≡ event }
        ensures bytes { result.bytes.now ≡ take len bytes.now }
        ensures rest { result.rest.now ≡ drop len bytes.now }
        ensures onward { self.new ≡ onward self.old Plain 0 }
    {
        self.mode = Mode::Text;
        self.looked = 0;
        let (bytes, rest) = (near(len, bytes), behind(bytes, len));
        Sent { event, bytes, rest }
    }

    /// The event in front of bytes of this dialect, as [`next`](Events::next) tells those of output.
    ///
    /// A form of input has at most 9 bytes, whatever the limit. Where there is none, call it again with more bytes behind these, or
    /// [`pause`](Events::pause) where none came in time: an ESC alone may be a key, or the first byte of another.
    ///
    /// ```text
    /// events.next_in(Dialect::Input, b"\x1bOA", &mut params)?      // Ss3('A')
    /// events.next_in(Dialect::Input, b"\x1b[M !!", &mut params)?   // Mouse
    /// events.next_in(Dialect::Input, b"\x1b[1;5A", &mut params)?   // Output(Csi('A')), params 1 ; 5
    /// events.next_in(Dialect::Input, b"\x1b", &mut params)?        // None
    /// events.pause(b"\x1b")                                        // Escape
    /// ```
    pub fn next_in<'a>(
        &mut self,
        dialect: Dialect,
        bytes: &'a [u8],
        params: &mut Vec<CsiParam>,
    ) -> Result<Option<Sent<'a>>, AllocError>
        requires limit { 0 < self.old.limit }
        requires met { IsMet self.old bytes.now }
        // The event is the one that the rules of the dialect say, or nothing is told before more bytes come.
        ensures sends { IfOk result (λ o. MatchOption o (Awaits dialect self.old bytes.now self.new)
            (λ t. IsSent dialect self.old bytes.now t.event t.bytes.now t.rest.now
            params.new.items self.new)) }
        // Its bytes and the rest are the bytes.
        ensures parts { IfOk result (λ o. IfSome o (λ t. bytes.now ≡ t.bytes.now ++ t.rest.now)) }
        // Each event uses bytes, or looks at more.
        ensures progress { IfOk result (λ o. IfSome o (λ t.
            left self.new t.rest.now < left self.old bytes.now)) }
        // It goes on behind the event, or with the same bytes and more.
        ensures again { IfOk result (λ o. MatchOption o
            ((more : List ℕ) → IsMet self.new (bytes.now ++ more))
            (λ t. IsMet self.new t.rest.now)) }
        ensures limit { OnOk result (self.new.limit ≡ self.old.limit) }
        ensures memory { OnErr result (self.new ≡ self.old) }
    {
        match ahead(dialect, self.mode, self.looked, bytes) {
            Form::Whole(event, len) => Ok(Some(self.sent(event, bytes, len))),
            Form::Unsure => Ok(None),
            Form::AsOutput => match self.next(bytes, params)? {
                Some(told) => Ok(Some(Sent {
                    event: InputEvent::Output(told.event),
                    bytes: told.bytes,
                    rest: told.rest,
                })),
                None => Ok(None),
            },
        }
    }

    /// The event of bytes that wait, where no more came in time: a lone ESC, ESC and a character, or SS3 and a digit. None where they
    /// are anything else: they go on waiting.
    pub fn pause<'a>(&mut self, bytes: &'a [u8]) -> Option<Sent<'a>>
        requires met { IsMet self.old bytes.now }
        ensures sends { MatchOption result (paused bytes.now ≡ Unsure)
            (λ t. IsSentBy (paused bytes.now) self.old bytes.now t.event t.bytes.now t.rest.now
            [] self.new) }
        ensures parts { IfSome result (λ t. bytes.now ≡ t.bytes.now ++ t.rest.now) }
        ensures progress { IfSome result (λ t. left self.new t.rest.now < left self.old bytes.now) }
        ensures again { IfSome result (λ t. IsMet self.new t.rest.now) }
        ensures still { IfNone result (self.new ≡ self.old) }
    {
        match paused(bytes) {
            Form::Whole(event, len) => Some(self.sent(event, bytes, len)),
            Form::AsOutput | Form::Unsure => None,
        }
    }
}
