//! Where actions go, one after the other: into a list of them, or into their joined texts.
ghost use Rattle.std.specs.{Prelude.map, Prelude.pos, Prelude.IsAscii, Prelude.◌≡◌, Prelude.◌<◌, Prelude.◌≤◌, Prelude.◌∷◌, Prelude.◌++◌, Fmt.decimal};
ghost use Rattle.csicodec_tokens.specs.Param.{spells, token_text};
ghost use Rattle.csicodec_actions.specs.{Actions.Sgr as Styled, Table.texts};
ghost use Rattle.csicodec_parser.specs.Common.{Bool, List, [], None, Some, true, false, length, ℕ, IfOk, IfSome, OnOk, encode_utf8, Action, Unknown, text, Styles};
ghost use Rattle.csicodec_parser.specs.{ActionOf.action_of, Cut.IsStuck, Groups.Piece, Groups.marked};

use crate::actions::{CSI, append_text};
use crate::group::{self, Group, style_front};
use crate::parser::{End, unknown_action};
use csicodec_base::{CsiParam, Sgr, Text, TextBuffer, append_code};
use std::alloc::{AllocError, Global};
use std::io::Write;

/// Takes actions in turn.
pub trait Sink {
    /// These actions have gone in, and no others.
    ghost holds: { Self → List Action → Type 0 };

    /// Takes one more. After an `Err` nothing is said of what it holds.
    fn take(&mut self, action: CSI) -> Result<(), AllocError>
        ensures { OnOk result ((before : List Action) → holds self.old before
            → holds self.new (before ++ action_of action ∷ [])) };

    /// Takes the first token of a list, where it is a piece by itself, whatever follows it. After `false` nothing was taken,
    /// and a piece may stand there all the same. After an `Err` nothing is said of what it holds.
    fn take_first(&mut self, group: Group, first: CsiParam) -> Result<bool, AllocError>
        ensures some { IfOk result (λ known. known ≡ true → (action : Action)
            × ((others : List CsiParam) → Piece group (first ∷ others) 1 action)
            × ((before : List Action) → holds self.old before
            → holds self.new (before ++ action ∷ []))) }
        ensures none { IfOk result (λ known. known ≡ false → self.new ≡ self.old) };

    /// Takes the known piece at the front, and answers its number of tokens. After an `Err` nothing is said of what it
    /// holds.
    fn take_piece(&mut self, group: Group, rest: &[CsiParam]) -> Result<Option<usize>, AllocError>
        ensures none { IfOk result (λ len. len ≡ None → IsStuck group rest.now
            × (self.new ≡ self.old)) }
        ensures some { IfOk result (λ o. IfSome o (λ len. (action : Action)
            × Piece group rest.now len action
            × ((before : List Action) → holds self.old before
            → holds self.new (before ++ action ∷ [])))) }
        ensures within { IfOk result (λ o. IfSome o (λ len. (0 < len) × (len ≤ length rest.now))) };

    /// Takes an unknown action of these tokens, with what stands before the pieces of the group ahead of them. After an
    /// `Err` nothing is said of what it holds.
    fn take_unknown(
        &mut self,
        alloc: Global,
        group: Group,
        rest: &[CsiParam],
        truncated: bool,
        control: char,
    ) -> Result<(), AllocError>
        ensures { OnOk result ((before : List Action) → holds self.old before
            → holds self.new (before ++ Unknown (marked group rest.now) truncated control ∷ [])) };
}

impl Sink for Vec<CSI> {
    ghost holds = { λ v actions. map action_of v.items ≡ actions };

    #[inline(always)]
    fn take(&mut self, action: CSI) -> Result<(), AllocError> {
        self.push(action)?;
        Ok(())
    }

    #[inline(always)]
    fn take_first(&mut self, _group: Group, _first: CsiParam) -> Result<bool, AllocError> {
        Ok(false)
    }

    #[inline(always)]
    fn take_piece(&mut self, group: Group, rest: &[CsiParam]) -> Result<Option<usize>, AllocError> {
        let Some((action, len)) = group::front(group, rest) else {
            return Ok(None);
        };
        self.take(action)?;
        Ok(Some(len))
    }

    #[cold]
    #[inline(never)]
    fn take_unknown(
        &mut self,
        alloc: Global,
        group: Group,
        rest: &[CsiParam],
        truncated: bool,
        control: char,
    ) -> Result<(), AllocError> {
        let end = End {
            alloc,
            truncated,
            control,
        };
        self.take(unknown_action(group, rest, end)?)
    }
}

/// The joined texts of the actions that went in.
#[derive(Drop)]
pub struct Texts {
    alloc: Global,
    pub bytes: TextBuffer,
}

impl Texts {
    pub fn new(alloc: Global) -> Texts
        ensures { result.bytes ≡ [] }
    {
        Texts {
            alloc,
            bytes: TextBuffer::new(alloc),
        }
    }
}

impl Sink for Texts {
    ghost holds = { λ t actions. t.bytes ≡ texts actions };

    #[inline(always)]
    fn take(&mut self, action: CSI) -> Result<(), AllocError> {
        append_text(self.alloc, &mut self.bytes, &action)
    }

    #[inline(always)]
    fn take_first(&mut self, group: Group, first: CsiParam) -> Result<bool, AllocError> {
        match (group, first) {
            (Group::Styles, CsiParam::Integer(number)) => append_code(number, &mut self.bytes),
            (Group::Modes(switch), CsiParam::Integer(number)) => {
                append_mode("", number, switch.final_byte(), &mut self.bytes)
            }
            (Group::DecModes(change), CsiParam::Integer(number)) => {
                append_mode("?", number, change.final_byte(), &mut self.bytes)
            }
            _ => Ok(false),
        }
    }

    #[inline(always)]
    fn take_piece(&mut self, group: Group, rest: &[CsiParam]) -> Result<Option<usize>, AllocError> {
        if let Group::Styles = group {
            let Some((sgr, len)) = style_front(rest) else {
                return Ok(None);
            };
            append_style(&mut self.bytes, &sgr)?;
            return Ok(Some(len));
        }
        let Some((action, len)) = group::front(group, rest) else {
            return Ok(None);
        };
        self.take(action)?;
        Ok(Some(len))
    }

    #[cold]
    #[inline(never)]
    fn take_unknown(
        &mut self,
        _alloc: Global,
        group: Group,
        rest: &[CsiParam],
        _truncated: bool,
        control: char,
    ) -> Result<(), AllocError> {
        self.bytes.push_slice(b"\x1b[")?;
        if let Group::DecModes(_) = group {
            self.bytes.push_slice(b"?")?;
        }
        append_list(&mut self.bytes, rest, control)
    }
}

/// Appends the text of an action, however long it is.
#[cold]
#[inline(never)]
pub(crate) fn append_displayed(
    alloc: Global,
    out: &mut TextBuffer,
    action: &CSI,
) -> Result<(), AllocError>
    ensures { OnOk result (out.new ≡ out.old ++ text (action_of action.now)) }
{
    let mut bytes = std::mem::replace(out, TextBuffer::new(alloc)).into_vec();
    let written = write!(bytes, "{action}");
    *out = TextBuffer::of(bytes);
    written.map_err(|_| AllocError)
}

/// Appends the text of a mode: a mark, its number as it was read, and the final byte. `false` where no mode has the number,
/// and then nothing is appended.
#[inline(always)]
fn append_mode(mark: &str, number: i64, end: u8, out: &mut TextBuffer) -> Result<bool, AllocError>
    requires short { length mark.now ≤ 1 }
    requires ascii { IsAscii mark.now }
    requires end { end < 128 }
    ensures known { IfOk result (λ known. known ≡ true → (n : ℕ) × (number ≡ pos n) × (n < 65536)
        × (out.new ≡ out.old ++ 27 ∷ 91 ∷ (mark.now ++ (decimal n ++ end ∷ [])))) }
    ensures other { IfOk result (λ known. known ≡ false → out.new ≡ out.old) }
    ensures none { IfOk result (λ known. known ≡ false → (n : ℕ) → number ≡ pos n → 65536 ≤ n) }
{
    let Ok(number) = u16::try_from(number) else {
        return Ok(false);
    };
    let mut text = Text::new();
    text.push_str("\x1b[");
    text.push_str(mark);
    text.push_u16(number);
    text.push(end);
    out.push_text(&text)?;
    Ok(true)
}

/// Appends the text of an attribute.
#[inline(always)]
fn append_style(out: &mut TextBuffer, sgr: &Sgr) -> Result<(), AllocError>
    ensures { OnOk result (out.new ≡ out.old ++ text (Styled sgr.now)) }
{
    let mut text = Text::new();
    text.push_str("\x1b[");
    sgr.write_to(&mut text);
    out.push_text(&text)
}

/// Appends the tokens' texts, and then the final character.
#[cold]
pub(crate) fn append_list(
    out: &mut TextBuffer,
    params: &[CsiParam],
    control: char,
) -> Result<(), AllocError>
    ensures { OnOk result (out.new ≡ out.old ++ (spells params.now ++ encode_utf8 control)) }
{
    for param in params {
        append_token(out, *param)?;
    }
    append_char(out, control)
}

fn append_token(out: &mut TextBuffer, token: CsiParam) -> Result<(), AllocError>
    ensures { OnOk result (out.new ≡ out.old ++ token_text token) }
{
    match token {
        CsiParam::Integer(number) => {
            let mut text = Text::new();
            text.push_i64(number);
            out.push_text(&text)
        }
        CsiParam::P(byte) => append_char(out, char::from(byte)),
    }
}

fn append_char(out: &mut TextBuffer, character: char) -> Result<(), AllocError>
    ensures { OnOk result (out.new ≡ out.old ++ encode_utf8 character) }
{
    let mut bytes = [0u8; 4];
    let encoded = character.encode_utf8(&mut bytes);
    out.push_slice(encoded.as_bytes())
}
