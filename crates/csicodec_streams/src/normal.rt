//! The normal forms that are known.

use csicodec_transform::Note;

/// The note that is the normal form of a sequence.
#[derive(Drop)]
pub struct Normal;

impl Note for Normal {
    ghost use Rattle.csicodec_streams.specs.Known.{IsNormal};

    ghost notes = { λ bytes text. IsNormal bytes text };
}
