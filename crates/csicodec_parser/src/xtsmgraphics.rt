//! `XtSmGraphics::parse`, which answers a `CSI`, and so stands beside it.
ghost use Rattle.std.specs.Prelude.{IfErr, ◌≡◌};
ghost use Rattle.csicodec_actions.specs.Table.XtSmGraphics.{RefusesGraphics, graphics_behind};
ghost use Rattle.csicodec_parser.specs.{ActionOf.action_of, Common.Some, Common.IfOk};

use crate::actions::CSI;
use csicodec_actions::{Device, XtSmGraphics};
use csicodec_base::{CsiParam, ParseRefusal};
use std::alloc::Global;

/// `parse` of [`XtSmGraphics`], which answers an action.
pub trait ParseGraphics {
    /// What a list asks or says of graphics (XTSMGRAPHICS of xterm, `CSI ? .. S`), whatever its first token is. `NotSpelled`
    /// exactly where the list is empty, or lacks the number of an item or of an action behind that token; otherwise `Memory`,
    /// if there is none.
    ///
    /// ```text
    /// XtSmGraphics::parse(alloc, &[P(b'?'), Integer(2), P(b';'), Integer(1)])      // of SixelGraphicsGeometry
    /// XtSmGraphics::parse(alloc, &[P(b'?'), Integer(2)])                           // Err(NotSpelled)
    /// ```
    fn parse(alloc: Global, params: &[CsiParam]) -> Result<CSI, ParseRefusal>
        ensures read { IfOk result (λ csi. graphics_behind params.now ≡ Some (action_of csi)) }
        ensures refused { IfErr result (RefusesGraphics params.now) };
}

impl ParseGraphics for XtSmGraphics {
    fn parse(alloc: Global, params: &[CsiParam]) -> Result<CSI, ParseRefusal> {
        let graphics = XtSmGraphics::of_list(alloc, params)?;
        let csi = CSI::from_device(alloc, Device::XtSmGraphics(graphics))?;
        Ok(csi)
    }
}
