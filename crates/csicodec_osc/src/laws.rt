//! Laws of contents. Each is the contract of a function that does nothing.
ghost use Rattle.std.specs.Prelude.{◌≡◌, ℕ, List};
ghost use Rattle.csicodec_osc.specs.Osc.{IsWritable, Said, Says, written};

/// Each content says something, and is written of that byte for byte.
#[tactic(auto, using(crate::proofs::Reading::each_says))]
pub fn round_trip()
    ensures { (content : List ℕ) → (s : Said) × Says content s }
{}

/// No content says two things: what is writable is read back as it is.
pub fn exact()
    ensures { (s t : Said) → IsWritable s → Says (written s) t → t ≡ s }
{}
