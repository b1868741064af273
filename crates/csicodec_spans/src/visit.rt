//! What a stream is made of, as a visitor sees it.
ghost use Rattle.std.specs.Prelude.{◌≡◌, ◌≢◌, ◌<◌, ◌≤◌, ◌++◌, ℕ, [], List, length, take, map, OnOk, IfOk};
ghost use Rattle.csicodec_tokens.specs.Sequence.{Seq};
ghost use Rattle.csicodec_spans.specs.{declared.table.Kind.Kind, declared.table.Kind.TheVariants.Csi, Machine.Event, Parts.IsSequence, Parts.IsSpan, Told.part_of};
ghost use Rattle.csicodec_spans.specs.{Visits.DoesOf, Visits.Pause, Visits.Tell, Visits.Writes, Visits.WritesCsi};

use csicodec_tokens::{CsiParam, TextBuffer};
use std::alloc::AllocError;

/// What a control sequence says: its tokens, and its final byte as a character.
#[derive(Clone, Copy)]
pub struct Sequence<'a> {
    /// The tokens.
    pub params: &'a [CsiParam],
    /// From `'@'` to `'~'`.
    pub control: char,
}

/// How a stream is visited: something is written for each event that the machine tells of it. `V` is the state of the visitor. Its memory has
/// these methods: what it remembers of what came before, which changes nothing in what may be written.
pub trait Visit<V> {
    /// In a state, for an event or a pause, this text may be written, and it may be in this state then.
    ghost does: { DoesOf V };

    /// Takes the control sequence in front of bytes, of at most `limit`, if it knows what to write for it before it is read; how many bytes that
    /// is, 0 where it knows none.
    fn csi_at_once(
        &mut self,
        visitor: &mut V,
        limit: usize,
        bytes: &[u8],
        out: &mut TextBuffer,
    ) -> Result<usize, AllocError>
        ensures within { IfOk result (λ len. len ≤ length bytes.now) }
        ensures short { IfOk result (λ len. len ≤ limit) }
        ensures known { IfOk result (λ len. 0 < len → IsSequence (take len bytes.now)
            × WritesCsi does visitor.old (take len bytes.now) out.old out.new visitor.new) }
        ensures none { IfOk result (λ len. len ≡ 0 → Writes does visitor.old [] out.old out.new visitor.new) };

    /// Takes a control sequence, the first `len` of the bytes, which says this.
    fn csi_dispatch(
        &mut self,
        visitor: &mut V,
        bytes: &[u8],
        len: usize,
        sequence: Sequence,
        out: &mut TextBuffer,
    ) -> Result<(), AllocError>
        requires within { len ≤ length bytes.now }
        requires seq { Seq (take len bytes.now) sequence.params.now sequence.control }
        ensures { OnOk result (WritesCsi does visitor.old (take len bytes.now) out.old out.new visitor.new) };

    /// Takes what is no control sequence, the first `len` of the bytes: text, an escape sequence, some of a control string or of what went wrong.
    fn other(
        &mut self,
        visitor: &mut V,
        bytes: &[u8],
        len: usize,
        out: &mut TextBuffer,
    ) -> Result<(), AllocError>
        requires { len ≤ length bytes.now }
        ensures { OnOk result ((kind : Kind) (events : List Event) → kind ≢ Csi
            → IsSpan kind (take len bytes.now) (map part_of events)
            → Writes does visitor.old (map Tell events) out.old out.new visitor.new) };

    /// Nothing more is there to read at once: writes what was put off.
    fn pause(&mut self, visitor: &mut V, out: &mut Vec<u8>) -> Result<(), AllocError>
        ensures { OnOk result ((text : List ℕ) × does visitor.old Pause text visitor.new
            × (out.new.items ≡ out.old.items ++ text)) };
}
