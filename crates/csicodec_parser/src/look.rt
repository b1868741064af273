//! Where the parser gets its tokens from, and what each look at one costs.
ghost use Rattle.std.specs.{Prelude.slice_get, Prelude.OnErr, Prelude.◌≡◌, Prelude.◌+◌, Prelude.◌*◌, Prelude.◌≤◌, Prelude.◌++◌, Borrow.sem, Io.BufRead.Rests};
ghost use Rattle.csicodec_parser.specs.{Common.ℕ, Common.List, Common.length, Common.drop, Common.take, Common.OnOk, Common.CsiParam, Look.Lent};

use csicodec_base::CsiParam;
use std::alloc::AllocError;

/// A list of tokens that is read from the front. Each look at a token is counted, in a count that contracts alone see.
///
/// `Run` is a parser over any of these, and can get at the tokens in no other way: so that its looks stay linear in the
/// length of the list is a promise about all that it does.
pub trait Look: Drop {
    /// The whole list, which stays.
    ghost tokens: { Self → List CsiParam };

    /// How many tokens are passed.
    ghost passed: { Self → ℕ };

    /// How many looks were taken.
    ghost looks: { Self → ℕ };

    /// How many tokens are unread.
    fn len(&self) -> usize
        ensures { passed self.now + result ≡ length (tokens self.now) };

    /// The unread token at `i`, if there is one. It costs one look.
    fn get(&mut self, i: usize) -> Option<CsiParam>
        ensures token { result ≡ slice_get (drop (passed self.old) (tokens self.old)) i }
        ensures list { tokens self.new ≡ tokens self.old }
        ensures passes { passed self.new ≡ passed self.old }
        ensures costs { looks self.new ≡ looks self.old + 1 };

    /// Passes over `k` unread tokens, which have to be there. It costs `k` looks.
    fn pass(&mut self, k: usize)
        requires { passed self.old + k ≤ length (tokens self.old) }
        ensures list { tokens self.new ≡ tokens self.old }
        ensures passes { passed self.new ≡ passed self.old + k }
        ensures costs { looks self.new ≡ looks self.old + k };

    /// The `k` unread tokens from place `from`, which have to be there. It costs `8 * k` looks, since who is lent them
    /// doesn't carry the count. The loan is one of `self`, so that they can't be kept.
    fn lend(&mut self, from: usize, k: usize) -> &[CsiParam]
        requires { passed self.old + from + k ≤ length (tokens self.old) }
        ensures lent { result.now ≡ take k (drop (passed self.old + from) (tokens self.old)) }
        ensures* after { sem 𝓛
            (Rests Self.row self.entry (Lent tokens passed looks self.entry.now k)) };

    /// Appends all unread tokens. It costs as many looks as there are, also where memory is refused; then `out` stays as it
    /// was.
    fn copy_to(&mut self, out: &mut Vec<CsiParam>) -> Result<(), AllocError>
        ensures ok { OnOk result
            (out.new.items ≡ out.old.items ++ drop (passed self.old) (tokens self.old)) }
        ensures err { OnErr result (out.new.items ≡ out.old.items) }
        ensures list { tokens self.new ≡ tokens self.old }
        ensures passes { passed self.new ≡ passed self.old }
        ensures costs { looks self.new + passed self.old
            ≡ looks self.old + length (tokens self.old) };
}
