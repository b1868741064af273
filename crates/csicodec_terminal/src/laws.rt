//! Laws of the reading as terminals take lists. Each is the contract of a function that does nothing.
ghost use Rattle.std.specs.Prelude.{◌≡◌, List, false};
ghost use Rattle.csicodec_actions.specs.Actions.{Action};
ghost use Rattle.csicodec_parser.specs.{Groups.group, Segments.Actions};
ghost use Rattle.csicodec_terminal.specs.Terminal.{Terminal, has_unknown, is_open};

use csicodec_base::CsiParam;

/// A list has at most one list of actions as terminals take it.
pub fn one_reading(params: &[CsiParam], parameters_truncated: bool, control: char)
    ensures { (one other : List Action) →
        Terminal params.now parameters_truncated control one →
        Terminal params.now parameters_truncated control other → one ≡ other }
{}

/// Where the table of actions reads all of a list, terminals take it so: none of the actions is unknown, and before `m` the last
/// parameter isn't left out.
pub fn agreement(params: &[CsiParam], parameters_truncated: bool, control: char)
    ensures { (first actions : List Action) →
        Actions params.now parameters_truncated control first →
        has_unknown first ≡ false → is_open (group params.now control) params.now ≡ false →
        Terminal params.now parameters_truncated control actions → actions ≡ first }
{}
