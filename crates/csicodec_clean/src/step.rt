//! A stream that is cleaned as it comes, whose state the caller keeps.
ghost use Rattle.std.specs.Prelude.{◌≡◌, ◌≤◌, ◌++◌, ℕ, List, length, drop, OnOk, IfOk};
ghost use Rattle.csicodec_clean.specs.{Cleaned.drops, Steps.Steps, Steps.bare, Steps.beginning, Steps.ending, Styled.resumed, Styled.keeps};

use crate::reading::Reading;
use crate::rule::Rule;
use crate::spans::append_clean;
use crate::styles::Kept;
use crate::text::append_shown;
use crate::whole::Dropped;
use csicodec_base::Sgr;
use csicodec_looks::xterm::Depth;
use csicodec_parser::CSI;
use csicodec_spans::{LIMIT, Mode};
use csicodec_streams::encode;
use std::alloc::{AllocError, Global};

/// What a stream leaves open between two steps, of [`strip_step`] or of [`clean_step`].
///
/// The caller keeps it, and the bytes that no step used: they come again, ahead of those that follow.
#[derive(Clone, Copy, PartialEq, Eq, Debug)]
pub struct Pause {
    /// What the bytes leave open, of which the next ones are more.
    pub mode: Mode,
    /// How text is read: whether a title is open, of tmux and screen, and the graphic sets.
    pub reading: Reading,
    /// Whether a style is open, which a reset is to end.
    pub styled: bool,
    /// How many of the bytes that come again, at their front, are the beginning of a character: 0 to 3. A step needs as many bytes at
    /// least.
    pub held: usize,
}

impl Pause {
    /// Where nothing has come.
    pub fn start() -> Pause
        ensures { result ≡ beginning }
    {
        Pause {
            mode: Mode::Text,
            reading: Reading::first(),
            styled: false,
            held: 0,
        }
    }
}

/// A step by any rule: appends what is left of all that is sure, and answers how many bytes were used, and what is open behind them.
fn append_step<T: Rule>(
    alloc: Global,
    rule: &mut T,
    pause: Pause,
    bytes: &[u8],
    out: &mut Vec<u8>,
) -> Result<(usize, Pause), AllocError>
    requires { pause.held ≤ length bytes.now }
    ensures within { IfOk result (λ (used, after). used ≤ length bytes.now) }
    ensures steps { IfOk result
        (λ (used, after). (text : List ℕ)
        × Steps T.gives rule.old pause bytes.now text rule.new after (drop used bytes.now)
        × (out.new.items ≡ out.old.items ++ text)) }
    ensures styled { IfOk result (λ (used, after). after.styled ≡ pause.styled) }
{
    let (front, behind) = bytes.split_at(pause.held);
    let mut held = Vec::new(alloc);
    held.extend_from_slice(front)?;
    let mut reading = pause.reading;
    let (rest, mode) = append_clean(
        rule,
        &mut Vec::new(alloc),
        &mut held,
        &mut reading,
        LIMIT,
        pause.mode,
        behind,
        out,
    )?;
    let used = bytes.len() - (held.len() + rest.len());
    let after = Pause {
        mode,
        reading,
        styled: pause.styled,
        held: held.len(),
    };
    Ok((used, after))
}

/// A step of a stream that is stripped as it comes: appends what is left of all bytes that are sure, as [`strip`](crate::strip) leaves
/// it, and answers how many of them it used, and what is open behind these.
///
/// The bytes are those that no step used, and then the next ones. Behind the used ones there are fewer than 65536 of a sequence,
/// behind at most three of a character: these are to come again. In however many steps a stream comes, what they append and
/// [`append_ending`] is what `strip` makes of all of it ([`any_steps`](crate::laws::any_steps)). After an `Err` the step may be taken again,
/// with an `out` that is as it was.
///
/// ```text
/// let (used, pause) = strip_step(alloc, Pause::start(), b"a\x1b[31mb\x1b[", &mut out)?;      // appends "ab": used is 7
/// let (used, pause) = strip_step(alloc, pause, b"\x1b[2Jc\xc3", &mut out)?;                  // appends "c": used is 5
/// append_ending(pause, b"\xc3", &mut out)?;                                                     // appends "\u{FFFD}"
/// ```
pub fn strip_step(
    alloc: Global,
    pause: Pause,
    bytes: &[u8],
    out: &mut Vec<u8>,
) -> Result<(usize, Pause), AllocError>
    requires { pause.held ≤ length bytes.now }
    ensures within { IfOk result (λ (used, after). used ≤ length bytes.now) }
    ensures steps { IfOk result
        (λ (used, after). (text : List ℕ)
        × Steps drops bare pause bytes.now text bare after (drop used bytes.now)
        × (out.new.items ≡ out.old.items ++ text)) }
    ensures styled { IfOk result (λ (used, after). after.styled ≡ pause.styled) }
{
    append_step(alloc, &mut Dropped, pause, bytes, out)
}

/// The same with the styles that stay: `pause` tells whether one is open. It has no place for what DECSC saves, so DECRC brings nothing back, which
/// [`clean_in`](crate::clean_in) does.
///
/// ```text
/// let (used, pause) = clean_step(alloc, Depth::Full, Pause::start(), b"\x1b[01;31mred", &mut out)?;     // appends "\x1b[1m\x1b[31mred"
/// append_ending(pause, b"", &mut out)?;                                                                    // appends "\x1b[0m"
/// ```
pub fn clean_step(
    alloc: Global,
    depth: Depth,
    pause: Pause,
    bytes: &[u8],
    out: &mut Vec<u8>,
) -> Result<(usize, Pause), AllocError>
    requires { pause.held ≤ length bytes.now }
    ensures within { IfOk result (λ (used, after). used ≤ length bytes.now) }
    ensures steps { IfOk result (λ (used, after). (text : List ℕ)
        × Steps keeps (resumed depth pause.styled) pause bytes.now text
        (resumed depth after.styled) after (drop used bytes.now)
        × (out.new.items ≡ out.old.items ++ text)) }
{
    let mut rule = Kept::resumed(alloc, depth, pause.styled);
    let (used, after) = append_step(alloc, &mut rule, pause, bytes, out)?;
    let styled = rule.is_styled();
    Ok((used, Pause { styled, ..after }))
}

/// Appends what ends a stream behind its last step: what is shown of the text that is held, and a reset where a style is open. The bytes are
/// those that no step used: of a sequence that isn't over nothing is left.
pub fn append_ending(pause: Pause, bytes: &[u8], out: &mut Vec<u8>) -> Result<(), AllocError>
    requires { pause.held ≤ length bytes.now }
    ensures { OnOk result (out.new.items ≡ out.old.items ++ ending pause bytes.now) }
{
    append_shown::<Dropped>(bytes.split_at(pause.held).0, out)?;
    if pause.styled {
        encode(&CSI::Sgr(Sgr::Reset), out)?;
    }
    Ok(())
}
