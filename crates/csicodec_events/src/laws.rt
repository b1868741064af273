//! Laws of the definitions. Each is the contract of a function that does nothing.
ghost use Rattle.std.specs.{Prelude.◌≡◌, Prelude.◌≤◌, Prelude.◌*◌, Prelude.◌++◌, Prelude.ℕ, Prelude.List, Prelude.[], Prelude.length, List.concat, List.flat_map};
ghost use Rattle.csicodec_tokens.specs.declared.param.CsiParam.{CsiParam};
ghost use Rattle.csicodec_events.specs.Events.{AreAlike, BeginsCsi, InChunks, IsMet, IsTold, Tells, Waits, bytes_of, looks_in, stop};
ghost use Rattle.csicodec_events.specs.{declared.event.Events.Events, declared.event.Told.Told, declared.input.Dialect.Dialect, declared.input.Sent.Sent};
ghost use Rattle.csicodec_events.specs.{Input.InputChunks, Input.IsSure, Input.ahead, Input.bytes_of as sent_bytes};
ghost use Rattle.csicodec_spans.specs.declared.table.Mode.{Mode};
ghost use Rattle.csicodec_events.specs.declared.event.Event.TheVariants as event;

/// In whatever chunks a stream comes, the bytes of its events joined, and then what waits, are its bytes: nothing is lost, added or
/// moved.
#[tactic(auto, using(crate::proofs::Run::chunks_joined))]
pub fn joined()
    ensures { (e after : Events) (held rest : List ℕ) (chunks : List (List ℕ)) (told : List Told) →
        InChunks e held chunks told rest after
        → held ++ concat chunks ≡ flat_map bytes_of told ++ rest }
{}

/// The events of a stream don't depend on the chunks that it came in, but for where text, strings and what went wrong are cut: with
/// these byte by byte, the lists of events are the same, each string begins at the same place, and control sequences, the controls in
/// them and escape sequences are whole, at the same places. The same bytes wait, and the stream goes on with the same.
#[tactic(auto, using(crate::proofs::Looks::alike))]
pub fn any_chunks()
    ensures { (e after after' : Events) (chunks others : List (List ℕ)) (told told' : List Told)
        (rest rest' : List ℕ) → e.looked ≡ 0 → concat chunks ≡ concat others
        → InChunks e [] chunks told rest after → InChunks e [] others told' rest' after'
        → AreAlike told told' rest rest' after after' }
{}

/// In whatever chunks a stream comes, and however many they are, no more than four times its bytes are looked at for its control
/// sequences, where each call takes as many looks as `cheap` of [`Events::next_over`](crate::Events::next_over) lets it: to read a sequence
/// at once, those that came first; to find where it stops, only those that weren't looked at before, since where that is doesn't depend on
/// the others; and twice more all of it, to leave out its controls and to read it.
#[tactic(auto, using(crate::proofs::Looks::looks_once, crate::proofs::Looks::stops_behind))]
pub fn looks()
    ensures behind { (looked : ℕ) (front other bytes : List ℕ) → 2 ≤ looked
        → length front ≡ looked → length other ≡ looked
        → stop looked (front ++ bytes) ≡ stop looked (other ++ bytes) }
    ensures once { (e after : Events) (chunks : List (List ℕ)) (told : List Told) (rest : List ℕ)
        → e.looked ≡ 0 → (c : InChunks e [] chunks told rest after)
        → looks_in chunks e [] told rest after c ≤ 4 * length (concat chunks) }
{}

/// What is told of a control sequence that waited is told of it where it comes at once.
#[tactic(auto, using(crate::proofs::Run::told_at_once))]
pub fn waited()
    ensures { (e waiting after : Events) (bytes more : List ℕ) (told : Told) (list : List CsiParam)
        → IsMet e bytes → BeginsCsi bytes → Waits e bytes waiting
        → Tells waiting (bytes ++ more) told list after → Tells e (bytes ++ more) told list after }
{}

/// What is told of a control sequence, a control in it or the whole, stays, whatever bytes come later.
pub fn stays()
    ensures control { (e after : Events) (bytes text rest more : List ℕ) (list : List CsiParam)
        (b : ℕ) → IsTold (event.Control b) e bytes text rest list after
        → IsTold (event.Control b) e (bytes ++ more) text (rest ++ more) list after }
    ensures csi { (e after : Events) (bytes text rest more : List ℕ) (list : List CsiParam)
        (final : ℕ) → IsTold (event.Csi final) e bytes text rest list after
        → IsTold (event.Csi final) e (bytes ++ more) text (rest ++ more) list after }
{}

/// In either dialect, and in whatever chunks a stream comes, the bytes of its events joined, and then what waits, are its bytes.
#[tactic(auto, using(crate::proofs::Forms::sent_joined))]
pub fn sent_joined()
    ensures { (d : Dialect) (e after : Events) (held rest : List ℕ) (chunks : List (List ℕ))
        (sent : List Sent) → InputChunks d e held chunks sent rest after
        → held ++ concat chunks ≡ flat_map sent_bytes sent ++ rest }
{}

/// What stands in front of input stays once it is sure, whatever bytes come later: so it doesn't depend on the chunks.
#[tactic(auto, using(crate::proofs::Forms::ahead_stays))]
pub fn sure_stays()
    ensures { (d : Dialect) (m : Mode) (looked : ℕ) (bytes more : List ℕ) →
        IsSure (ahead d m looked bytes)
        → ahead d m looked (bytes ++ more) ≡ ahead d m looked bytes }
{}
