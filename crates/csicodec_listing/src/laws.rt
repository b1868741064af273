//! Laws of lines and of what they show. Each is the contract of a function that does nothing.
ghost use Rattle.std.specs.{Prelude.◌≡◌, Prelude.◌-◌, Prelude.◌^◌, Prelude.◌++◌, Prelude.[], Prelude.ℕ, Prelude.List, Prelude.Ok, Prelude.length, Prelude.min};
ghost use Rattle.std.specs.{List.concat};
ghost use Rattle.hex.specs.Hex.{IsBytes};
ghost use Rattle.serde_json.specs.Data.{Data};
ghost use Rattle.csicodec_listing.specs.Lines.{AreKept, AreShown, Assembles, GiveAll, IsRefused, Passes, Refuses, assembled, counted, ended, last_line, of_lines, one_more};
ghost use Rattle.csicodec_listing.specs.{declared.object.Fault.Fault, Object.Shows, Object.of_object};
ghost use Rattle.csicodec_listing.specs.declared.object.Refusal.TheVariants as refusal;

/// An object that shows bytes as `explain --json` does stands for them.
#[tactic(auto, using(crate::proofs::Shown::read_back))]
pub fn read_back()
    ensures { (d : Data) (bytes : List ℕ) → IsBytes bytes → Shows d bytes → of_object d ≡ Ok bytes }
{}

/// Lines that show the pieces of a stream, one each, stand for that stream.
#[tactic(auto, using(crate::proofs::Joined::unedited))]
pub fn unedited()
    ensures { (lines pieces : List (List ℕ)) → AreShown lines pieces
        → assembled (ended lines) ≡ Ok (concat pieces) }
{}

/// It doesn't matter how a text is cut into chunks: what passes in turn passes as one.
#[tactic(auto, using(crate::proofs::Joined::counted_then))]
pub fn goes_on()
    ensures text { (first middle last one other text more : List ℕ) (over later : List (List ℕ))
        → Passes first one over text middle → Passes middle other later more last
        → Passes first (one ++ other) (over ++ later) (text ++ more) last }
    ensures lines { (before : ℕ) (over later : List (List ℕ))
        → counted before (over ++ later) ≡ counted (counted before over) later }
{}

/// The lines that are over are counted, as far as 64 bits go.
#[tactic(auto, using(crate::proofs::Joined::numbered))]
pub fn numbered()
    ensures { (over : List (List ℕ)) → counted 0 over ≡ min (length over) (2 ^ 64 - 1) }
{}

/// What passed of a whole text, and what the line at its end gives, are what it gives.
#[tactic(auto, using(crate::proofs::Joined::whole))]
pub fn whole()
    ensures { (bytes text rest line : List ℕ) (over : List (List ℕ)) → Passes [] bytes over text line
        → GiveAll (last_line line) rest → Assembles bytes (text ++ rest) }
{}

/// A text of which a line is refused has that line behind those that are over, whatever follows.
pub fn refused()
    ensures { (f : Fault) (front rest text line more : List ℕ) (over : List (List ℕ))
        → Passes [] front over text line → IsRefused (refusal.Line f) line rest
        → Refuses (one_more (counted 0 over)) f (front ++ rest ++ more) text }
{}

/// Lines of which none is refused for its actions give the bytes that they stand for.
#[tactic(auto, using(crate::proofs::Joined::kept_lines))]
pub fn kept_lines()
    ensures { (lines : List (List ℕ)) (text : List ℕ) → AreKept lines → GiveAll lines text
        → of_lines lines ≡ Ok text }
{}
