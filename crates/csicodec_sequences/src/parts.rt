//! The parts of a parameter list: the byte at its front that makes it private, its fields, and its intermediate byte.
ghost use Rattle.std.specs.Prelude.{◌≡◌};
ghost use Rattle.csicodec_sequences.specs.Parts.{is_intermediate, parts_of, without_intermediate, without_marker};

use csicodec_base::CsiParam;

/// A parameter list by its parts (ECMA-48, 5.4).
#[derive(Clone, Copy)]
pub struct Parts<'a> {
    /// The byte at the front that makes the sequence private, one of `<` `=` `>` `?`; 0 where there is none.
    pub marker: u8,
    /// What stands between.
    pub body: &'a [CsiParam],
    /// The intermediate byte at the end, from `' '` to `'/'`; 0 where there is none.
    pub intermediate: u8,
}

impl<'a> Parts<'a> {
    /// The parts of a list.
    pub fn of(params: &'a [CsiParam]) -> Parts<'a>
        ensures marker { result.marker ≡ (parts_of params.now).marker }
        ensures body { result.body.now ≡ (parts_of params.now).body }
        ensures intermediate { result.intermediate ≡ (parts_of params.now).intermediate }
    {
        let (marker, behind) = behind_marker(params);
        let (intermediate, body) = ahead_of_intermediate(behind);
        Parts {
            marker,
            body,
            intermediate,
        }
    }
}

/// The marker of a list, and what stands behind it.
fn behind_marker(params: &[CsiParam]) -> (u8, &[CsiParam])
    ensures { (result.0, result.1.now) ≡ without_marker params.now }
{
    match params {
        [CsiParam::P(byte), others @ ..] if (b'<'..=b'?').contains(byte) => (*byte, others),
        _ => (0, params),
    }
}

/// The intermediate byte of a list, and what stands ahead of it.
fn ahead_of_intermediate(params: &[CsiParam]) -> (u8, &[CsiParam])
    ensures { (result.0, result.1.now) ≡ without_intermediate params.now }
{
    let Some((last, front)) = params.split_last() else {
        return (0, params);
    };
    match last {
        CsiParam::P(byte) => {
            if is_between(*byte) {
                (*byte, front)
            } else {
                (0, params)
            }
        }
        CsiParam::Integer(_) => (0, params),
    }
}

/// Whether a byte is an intermediate byte.
fn is_between(byte: u8) -> bool
    ensures { result ≡ is_intermediate byte }
{
    matches!(byte, b' '..=b'/')
}
