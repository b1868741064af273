//! Graphics of a terminal, asked for and answered, and their row.
ghost use Rattle.std.specs.Prelude.{IfErr, ◌≡◌, ◌↔◌};
ghost use Rattle.csicodec_actions.specs.Table.XtSmGraphics.{RefusesGraphics, as_graphics, graphics_behind, written_graphics};
ghost use Rattle.csicodec_actions.specs.Common.{IfOk, IsSome, IsTrue, Some, pos, OnErr, signed_decimal, option_map, XtSmGraphicsAction, XtSmGraphicsStatus};
ghost use Rattle.csicodec_actions.specs.{Devices.HoldsMemory, Devices.graphics_of, XtSmGraphics.action_number, XtSmGraphics.item_number, XtSmGraphics.item_of};
ghost use Rattle.csicodec_actions.specs.{XtSmGraphics.status_number, Actions.Device as Devices, Kinds.Good, Kinds.GraphicsItem, Written.AllGood, Written.any_number};
ghost use Rattle.csicodec_actions.specs.{Written.listed, Lent.lent_graphics};

use crate::canonical::is_said;
use crate::fields::{fields_in, integers_in};
use csicodec_base::{CsiParam, ParseRefusal};
use std::alloc::{AllocError, Global};
use std::fmt;

/// What of the graphics is asked for or set: the first number of XTSMGRAPHICS (xterm's ctlseqs).
#[derive(Clone, Copy, Debug, PartialEq, Eq)]
pub enum XtSmGraphicsItem {
    /// 1: how many colour registers there are.
    NumberOfColorRegisters,
    /// 2: how large an image of sixels can be, in pixels.
    SixelGraphicsGeometry,
    /// 3: how large an image of ReGIS can be, in pixels.
    RegisGraphicsGeometry,
    /// Any other number; `of` makes the one or the other of a number. 1 to 3 are read back as the items above, and a number
    /// below 0 isn't read back.
    Unspecified(i64),
}

impl XtSmGraphicsItem {
    /// The item of a number: by its name where it has one.
    pub fn of(number: i64) -> XtSmGraphicsItem
        ensures { result ≡ item_of number }
    {
        match number {
            1 => XtSmGraphicsItem::NumberOfColorRegisters,
            2 => XtSmGraphicsItem::SixelGraphicsGeometry,
            3 => XtSmGraphicsItem::RegisGraphicsGeometry,
            _ => XtSmGraphicsItem::Unspecified(number),
        }
    }

    /// The number of this item.
    pub fn number(&self) -> i64
        ensures { result ≡ item_number self.now }
    {
        match self {
            XtSmGraphicsItem::NumberOfColorRegisters => 1,
            XtSmGraphicsItem::SixelGraphicsGeometry => 2,
            XtSmGraphicsItem::RegisGraphicsGeometry => 3,
            XtSmGraphicsItem::Unspecified(number) => *number,
        }
    }
}

/// Writes the number of the item.
impl fmt::Display for XtSmGraphicsItem {
    ghost output = { λ item. Some (signed_decimal (item_number item)) };

    fn fmt<W: fmt::Write>(&self, f: &mut fmt::Formatter<W>) -> fmt::Result {
        let number = self.number();
        write!(f, "{number}")
    }
}

/// What is done with the item: the second number of XTSMGRAPHICS, where it is a request.
#[derive(Clone, Copy, Debug, PartialEq, Eq)]
pub enum XtSmGraphicsAction {
    /// 1: it is asked for.
    ReadAttribute = 1,
    /// 2: it is set back to what it was at first.
    ResetToDefault = 2,
    /// 3: it is set to the values.
    SetToValue = 3,
    /// 4: the most that it can be is asked for.
    ReadMaximumAllowedValue = 4,
}

impl XtSmGraphicsAction {
    /// The number of this action, 1 to 4.
    pub fn to_i64(&self) -> i64
        ensures { result ≡ pos (action_number self.now) }
    {
        *self as i64
    }
}

/// What became of the request: the second number of XTSMGRAPHICS, where it is an answer.
#[derive(Clone, Copy, Debug, PartialEq, Eq)]
pub enum XtSmGraphicsStatus {
    /// 0: it was done, and the values follow.
    Success = 0,
    /// 1: the terminal has no such item.
    InvalidItem = 1,
    /// 2: the terminal has no such action.
    InvalidAction = 2,
    /// 3: it could not be done.
    Failure = 3,
}

impl XtSmGraphicsStatus {
    /// The number of this status, 0 to 3.
    pub fn to_i64(&self) -> i64
        ensures { result ≡ pos (status_number self.now) }
    {
        *self as i64
    }
}

/// XTSMGRAPHICS (xterm's ctlseqs): a request for what the terminal can draw, or its answer.
///
/// ```text
/// "\x1b[?1;3;256S"   item: NumberOfColorRegisters, action_or_status: 3, value: 256; action() is Some(SetToValue)
/// ```
#[derive(Debug, Drop, PartialEq, Eq)]
pub struct XtSmGraphics {
    /// What it is about.
    pub item: XtSmGraphicsItem,
    /// The number of the action, where it is a request, and of the status, where it is an answer. 0 is a status alone, and 4
    /// an action alone; of 1 to 3 nothing in the sequence tells which of the two it is.
    pub action_or_status: i64,
    /// A number of colour registers, or a width and a height in pixels, where they are set or answered.
    pub value: Vec<i64>,
}

impl XtSmGraphics {
    /// What is done, where it is a request: `None` for a number that no action has.
    pub fn action(&self) -> Option<XtSmGraphicsAction>
        ensures { (action : XtSmGraphicsAction) → (result ≡ Some action)
            ↔ (self.now.action_or_status ≡ pos (action_number action)) }
    {
        match self.action_or_status {
            1 => Some(XtSmGraphicsAction::ReadAttribute),
            2 => Some(XtSmGraphicsAction::ResetToDefault),
            3 => Some(XtSmGraphicsAction::SetToValue),
            4 => Some(XtSmGraphicsAction::ReadMaximumAllowedValue),
            _ => None,
        }
    }

    /// What became of it, where it is an answer: `None` for a number that no status has.
    pub fn status(&self) -> Option<XtSmGraphicsStatus>
        ensures { (status : XtSmGraphicsStatus) → (result ≡ Some status)
            ↔ (self.now.action_or_status ≡ pos (status_number status)) }
    {
        match self.action_or_status {
            0 => Some(XtSmGraphicsStatus::Success),
            1 => Some(XtSmGraphicsStatus::InvalidItem),
            2 => Some(XtSmGraphicsStatus::InvalidAction),
            3 => Some(XtSmGraphicsStatus::Failure),
            _ => None,
        }
    }

    /// A copy, in memory of its own. Of no values it takes none.
    pub fn clone(&self, alloc: Global) -> Result<Self, AllocError>
        ensures same { IfOk result (λ copy. graphics_of copy ≡ graphics_of self.now) }
        ensures memory { OnErr result (HoldsMemory (graphics_of self.now)) }
    {
        let mut value = Vec::new(alloc);
        value.extend_from_slice(&self.value)?;
        Ok(XtSmGraphics {
            item: self.item,
            action_or_status: self.action_or_status,
            value,
        })
    }

    /// Whether each number of graphics is read as itself.
    pub fn is_canonical(&self) -> bool
        ensures { IsTrue result
            ↔ AllGood (written_graphics self.now.item self.now.action_or_status self.now.value.items).items }
    {
        is_item(self.item) && is_said(self.action_or_status) && are_said(&self.value)
    }
}

/// An item is read as itself by its name, or by a number from 0 on that none has.
fn is_item(item: XtSmGraphicsItem) -> bool
    ensures { IsTrue result ↔ Good GraphicsItem item }
{
    match item {
        XtSmGraphicsItem::Unspecified(number) => is_said(number) && !matches!(number, 1..=3),
        _ => true,
    }
}

fn are_said(numbers: &[i64]) -> bool
    ensures { IsTrue result ↔ AllGood (listed any_number numbers.now) }
{
    let mut rest = numbers;
    while let [first, others @ ..] = rest {
        if !is_said(*first) {
            return false;
        }
        rest = others;
    }
    true
}

/// What is asked or said of graphics, its values lent from the list: the numbers among these tokens.
#[derive(Clone, Copy)]
pub struct GraphicsRef<'a> {
    /// What it is about.
    pub item: XtSmGraphicsItem,
    /// The number of the action or of the status.
    pub action_or_status: i64,
    /// The tokens of the values.
    pub values: &'a [CsiParam],
}

impl<'a> GraphicsRef<'a> {
    /// What is asked or said, with its values in memory of its own. `Err` is out of memory.
    pub fn to_graphics(&self, alloc: Global) -> Result<XtSmGraphics, AllocError>
        ensures { IfOk result (λ graphics.
            Devices (graphics_of graphics) ≡ lent_graphics self.now) }
    {
        Ok(XtSmGraphics {
            item: self.item,
            action_or_status: self.action_or_status,
            value: integers_in(alloc, self.values)?,
        })
    }
}

/// What is asked or said of graphics before this final character, if a row reads the list. It takes no memory.
#[tactic(auto, unfolding(crate::specs::Table::XtSmGraphics::as_graphics))]
pub fn graphics_ref(params: &[CsiParam], control: char) -> Option<GraphicsRef<'_>>
    ensures { option_map lent_graphics result ≡ as_graphics params.now control }
{
    match (control, params) {
        ('S', [CsiParam::P(b'?'), ..]) => behind_mark(params),
        _ => None,
    }
}

/// What is asked or said of graphics before this final character, its values in memory of their own, if a row reads the list. `Err` is
/// out of memory, and comes only where a row reads it.
pub fn graphics_action(
    alloc: Global,
    params: &[CsiParam],
    control: char,
) -> Result<Option<XtSmGraphics>, AllocError>
    ensures ok { IfOk result (λ graphics.
        option_map (λ g. Devices (graphics_of g)) graphics ≡ as_graphics params.now control) }
    ensures err { OnErr result (IsSome (as_graphics params.now control)) }
{
    match graphics_ref(params, control) {
        Some(graphics) => Ok(Some(graphics.to_graphics(alloc)?)),
        None => Ok(None),
    }
}

impl XtSmGraphics {
    /// What a list asks or says of graphics (XTSMGRAPHICS of xterm, `CSI ? .. S`), whatever its first token is. `NotSpelled`
    /// exactly where the list is empty, or lacks the number of an item or of an action behind that token; otherwise `Memory`,
    /// if there is none. `parse`, which answers an action, stands beside `CSI`.
    pub fn of_list(alloc: Global, params: &[CsiParam]) -> Result<XtSmGraphics, ParseRefusal>
        ensures read { IfOk result (λ graphics.
            graphics_behind params.now ≡ Some (Devices (graphics_of graphics))) }
        ensures refused { IfErr result (RefusesGraphics params.now) }
    {
        match behind_mark(params) {
            Some(graphics) => Ok(graphics.to_graphics(alloc)?),
            None => Err(ParseRefusal::NotSpelled),
        }
    }
}

/// What is asked or said behind the first token of a list: an item, an action or a status, and the values.
#[tactic(auto, unfolding(crate::specs::Kinds::read))]
fn behind_mark(params: &[CsiParam]) -> Option<GraphicsRef<'_>>
    ensures { option_map lent_graphics result ≡ graphics_behind params.now }
{
    let (_, list) = params.split_first()?;
    let mut fields = fields_in(list)?;
    Some(GraphicsRef {
        item: XtSmGraphicsItem::of(fields.number()?),
        action_or_status: fields.number()?,
        values: fields.tokens(),
    })
}
