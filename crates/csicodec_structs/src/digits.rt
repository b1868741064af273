//! Short numbers in front of bytes, and what they count as.
ghost use Rattle.std.specs.Prelude.{◌≡◌, ◌<◌, IfSome, pos};
ghost use Rattle.csicodec_tokens.specs.{declared.param.CsiParam.TheVariants.Integer, OneBased.or_default, Private.Reading.IsFirstToken};

/// The largest number that a digit more is read behind: so one has four digits at most.
const MOST: u32 = 999;

/// The number in front, of four digits at most, and what is behind it.
#[inline(always)]
#[tactic(auto, using(csicodec_tokens::proofs::Reading::first_cut, csicodec_tokens::proofs::Reading::one_digit, csicodec_tokens::proofs::Reading::one_more_digit, csicodec_tokens::proofs::Reading::first_number))]
pub(crate) fn number_front(text: &[u8]) -> Option<(u32, &[u8])>
    ensures first { IfSome result (λ x. IsFirstToken text.now (Integer (pos x.0)) x.1.now) }
    ensures short { IfSome result (λ x. x.0 < 10000) }
{
    let [first @ b'0'..=b'9', others @ ..] = text else {
        return None;
    };
    let mut number = u32::from(*first - b'0');
    let mut rest = others;
    while let [digit @ b'0'..=b'9', behind @ ..] = rest {
        if number > MOST {
            return None;
        }
        number = 10 * number + u32::from(*digit - b'0');
        rest = behind;
    }
    Some((number, rest))
}

/// A number by itself, and the default in place of 0.
#[inline(always)]
#[tactic(auto, using(crate::proofs::Moved::or_default_other))]
pub(crate) fn or_default(number: u32, default: u32) -> u32
    requires { 0 < default }
    ensures value { result ≡ or_default default number }
    ensures above { 0 < result }
{
    if number == 0 { default } else { number }
}
