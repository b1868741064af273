//! Laws of the actions of a list. Each is the contract of a function that does nothing.
ghost use Rattle.std.specs.Prelude.{◌≡◌, ◌<◌, ◌≤◌, List, length, max};
ghost use Rattle.csicodec_actions.specs.Actions.{Action};
ghost use Rattle.csicodec_parser.specs.Segments.{Actions};

use csicodec_base::CsiParam;

/// Every list has actions before every final character, and only these: at least one, and no more than it has tokens,
/// unless it is empty.
pub fn segmentation(params: &[CsiParam], parameters_truncated: bool, control: char)
    ensures some { (actions : List Action)
        × Actions params.now parameters_truncated control actions }
    ensures only { (one other : List Action) →
        Actions params.now parameters_truncated control one →
        Actions params.now parameters_truncated control other → one ≡ other }
    ensures count { (actions : List Action) →
        Actions params.now parameters_truncated control actions →
        (0 < length actions) × (length actions ≤ max 1 (length params.now)) }
{}
