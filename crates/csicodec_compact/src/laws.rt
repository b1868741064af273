//! Laws of the definitions. Each is the contract of a function that does nothing.
ghost use Rattle.std.specs.Prelude.{◌<◌, ◌≤◌, ℕ, List, length};
ghost use Rattle.csicodec_spans.specs.declared.table.Mode.{Mode};
ghost use Rattle.csicodec_compact.specs.{Meaning.HasAgain, Runs.CompactsAll, Runs.most_joined};

/// What [`compact_bytes`](crate::compact_bytes) and [`compact_all`](crate::compact_all) write of a stream is no longer than the stream. Cut as a
/// stream once more it has the same parts, in order: each that is no control sequence as it came, and for control sequences side by side
/// others that are read as the same actions. For that no sequence that is written may be longer than `limit`. Where the whole text isn't,
/// none is, and where `limit` is at least 4,096, as in the program, none ever is.
pub fn compact_stream()
    ensures short { (limit : ℕ) (mode : Mode) (bytes text : List ℕ)
        → CompactsAll limit mode bytes text → length text ≤ length bytes }
    ensures whole { (limit : ℕ) (mode : Mode) (bytes text : List ℕ)
        (c : CompactsAll limit mode bytes text) → most_joined ≤ limit → HasAgain c }
    ensures alone { (limit : ℕ) (mode : Mode) (bytes text : List ℕ)
        (c : CompactsAll limit mode bytes text) → 0 < limit → length text ≤ limit → HasAgain c }
{}
