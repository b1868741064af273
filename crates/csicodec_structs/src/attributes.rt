//! Attributes before `m`, straight from their bytes.
ghost use Rattle.std.specs.Prelude.{◌≡◌, ◌∷◌, [], IfSome, pos, ◌≤◌, length, map, take, IfNone};
ghost use Rattle.csicodec_tokens.specs.{declared.param.CsiParam.TheVariants.Integer, declared.param.CsiParam.TheVariants.P, Private.Reading.IsFirstToken};
ghost use Rattle.csicodec_structs.specs.Private.Short.{AreStyles, IsMark, IsPainted, ReadsOn, SetsAlone, plain, style_struct, HasLaid};
ghost use Rattle.csicodec_structs.specs.Room.{laid};

use crate::by_number::{STYLES, StyleRow};
use crate::digits::number_front;
use crate::room::{Laid, put};
use crate::structs::{Struct, row};

/// The kind of the struct of a colour of the text.
const TEXT: u8 = 11;

/// Of the ground behind it.
const GROUND: u8 = 12;

/// Of the line below it.
const LINE: u8 = 4;

/// An attribute as its struct has it: its kind, two numbers, and the parts of a true colour.
#[derive(Clone, Copy)]
pub(crate) struct AttributeParts {
    pub kind: u8,
    pub first: u8,
    pub second: u8,
    pub red: u8,
    pub green: u8,
    pub blue: u8,
    pub alpha: u8,
}

/// The struct of an attribute.
#[inline(always)]
pub(crate) fn style_struct(style: &AttributeParts) -> Struct
    ensures { result ≡ style_struct style.now }
{
    Struct {
        red: style.red,
        green: style.green,
        blue: style.blue,
        alpha: style.alpha,
        ..row(
            u32::from(style.kind),
            i64::from(style.first),
            i64::from(style.second),
        )
    }
}

/// With no true colour.
#[inline(always)]
pub(crate) fn plain(kind: u8, first: u8, second: u8) -> AttributeParts
    ensures { result ≡ plain kind first second }
{
    AttributeParts {
        kind,
        first,
        second,
        red: 0,
        green: 0,
        blue: 0,
        alpha: 0,
    }
}

/// The attribute that a number sets, where a `;` or nothing is behind it.
#[inline(always)]
#[tactic(auto, using(crate::proofs::Styled::sets_alone))]
pub(crate) fn style_alone(number: u32) -> Option<AttributeParts>
    ensures { IfSome result (λ style. SetsAlone number style) }
{
    if number > 107 {
        return None;
    }
    let StyleRow(kind, first, second) = STYLES[number as usize];
    if kind == 0 {
        return None;
    }
    Some(plain(kind, first, second))
}

/// The mark in front, which stands between the parts of a colour.
#[inline(always)]
fn mark_front(text: &[u8]) -> Option<u8>
    ensures { IfSome result (λ mark. IsMark mark) }
{
    match text {
        [mark @ (b';' | b':'), ..] => Some(*mark),
        _ => None,
    }
}

/// What is behind this mark in front.
#[inline(always)]
#[tactic(auto, using(crate::proofs::Styled::mark_token))]
pub(crate) fn behind_mark(mark: u8, text: &[u8]) -> Option<&[u8]>
    requires { IsMark mark }
    ensures { IfSome result (λ behind. IsFirstToken text.now (P mark) behind.now) }
{
    let [first, behind @ ..] = text else {
        return None;
    };
    if *first != mark {
        return None;
    }
    Some(behind)
}

/// A mark and a part of a colour in front, and what is behind them.
#[inline(always)]
fn part_front(mark: u8, text: &[u8]) -> Option<(u8, &[u8])>
    requires { IsMark mark }
    ensures { IfSome result (λ x. ReadsOn text.now (P mark ∷ Integer (pos x.0) ∷ []) x.1.now) }
{
    let (number, behind) = number_front(behind_mark(mark, text)?)?;
    Some((u8::try_from(number).ok()?, behind))
}

/// The colour behind its code, with a mark ahead of each part, as an attribute of this kind, and what is behind it.
#[inline(always)]
fn color_front(kind: u8, text: &[u8]) -> Option<(AttributeParts, &[u8])>
    ensures { IfSome result (λ x. IsPainted kind text.now x.0 x.1.now) }
{
    let mark = mark_front(text)?;
    let (way, parts) = part_front(mark, text)?;
    let (first, behind) = part_front(mark, parts)?;
    match way {
        5 => Some((plain(kind, 1, first), behind)),
        2 => {
            let (green, behind) = part_front(mark, behind)?;
            let (blue, behind) = part_front(mark, behind)?;
            let style = AttributeParts {
                red: first,
                green,
                blue,
                alpha: 255,
                ..plain(kind, 2, 0)
            };
            Some((style, behind))
        }
        _ => None,
    }
}

/// The attribute of a number in front that was read, and what is behind it: a colour of text, ground or underline, or one that its number
/// sets alone.
#[inline(always)]
fn style_front<'a>(text: &[u8], number: u32, behind: &'a [u8]) -> Option<(AttributeParts, &'a [u8])>
    requires { IsFirstToken text.now (Integer (pos number)) behind.now }
    ensures { IfSome result (λ x. AreStyles text.now (x.0 ∷ []) x.1.now) }
{
    match number {
        38 => color_front(TEXT, behind),
        48 => color_front(GROUND, behind),
        58 => color_front(LINE, behind),
        _ => Some((style_alone(number)?, behind)),
    }
}

/// The attributes in front, a `;` between them, up to `m`, how many they are, and what is behind that: the first one's number was read.
/// There are no more than there is room for.
#[inline(always)]
fn styles_front<'a>(
    room: &mut [AttributeParts],
    body: &'a [u8],
    first: u32,
    behind: &'a [u8],
) -> Laid<'a>
    requires { IsFirstToken body.now (Integer (pos first)) behind.now }
    ensures within { IfSome result (λ x. x.0 ≤ length room.new) }
    ensures are { IfSome result (λ x. AreStyles body.now (take x.0 room.new) (109 ∷ x.1.now)) }
{
    let mut count = 0;
    let mut text = body;
    let mut number = first;
    let mut rest = behind;
    while count < room.len() {
        let (style, behind) = style_front(text, number, rest)?;
        room[count] = style;
        count += 1;
        match behind {
            [b'm', after @ ..] => return Some((count, after)),
            [b';', others @ ..] => {
                let (next, left) = number_front(others)?;
                text = others;
                number = next;
                rest = left;
            }
            _ => return None,
        }
    }
    None
}

/// Puts attributes.
#[inline(always)]
#[tactic(auto, using(crate::proofs::Laid::laid_none))]
pub(crate) fn put_styles(styles: &[AttributeParts], actions: &mut [Struct])
    ensures { actions.new ≡ laid actions.old (map style_struct styles.now) }
{
    let mut place = 0;
    for style in styles {
        put(actions, place, style_struct(style));
        place += 1;
    }
}

/// Puts a few attributes before `m`, whose first number was read: how many they are, and what is behind it.
#[inline(always)]
pub(crate) fn lay_styles<'a>(
    body: &'a [u8],
    first: u32,
    behind: &'a [u8],
    actions: &mut [Struct],
) -> Laid<'a>
    requires { IsFirstToken body.now (Integer (pos first)) behind.now }
    ensures some { IfSome result (λ x. HasLaid body.now actions.old actions.new x.0 x.1.now) }
    ensures none { IfNone result (actions.new ≡ actions.old) }
{
    let mut room = [plain(0, 0, 0); 4];
    let (count, after) = styles_front(&mut room, body, first, behind)?;
    put_styles(&room[..count], actions);
    Some((count, after))
}
