//! The list that a terminal takes a list for.
ghost use Rattle.std.specs.Prelude.{◌≡◌, IfOk, Some};
ghost use Rattle.csicodec_parser.specs.Groups.{is_byte};
ghost use Rattle.csicodec_terminal.specs.Regular.{filled, first, has_one, has_two, regular, said};

use csicodec_base::laws::fields_in_turn;
use csicodec_base::{Cracked, CsiParam, ParseRefusal};
use std::alloc::{AllocError, Global};

/// The token is a `;`.
pub(crate) fn is_semicolon(token: CsiParam) -> bool
    ensures { result ≡ is_byte 59 (Some token) }
{
    matches!(token, CsiParam::P(b';'))
}

/// The finals whose function has one parameter (ECMA-48, 8.3).
const ONE: [char; 27] = [
    '@', 'A', 'B', 'C', 'D', 'E', 'F', 'G', 'I', 'J', 'K', 'L', 'M', 'P', 'S', 'W', 'X', 'Y', 'Z',
    '`', 'a', 'b', 'd', 'e', 'g', 'j', 'k',
];

/// The function of this final has one parameter.
fn has_one(control: char) -> bool
    ensures { result ≡ has_one control }
{
    ONE.contains(&control)
}

/// The function of this final has two parameters.
fn has_two(control: char) -> bool
    ensures { result ≡ has_two control }
{
    matches!(control, 'H' | 'f' | 'r')
}

/// A parameter as the number that it counts as.
fn said(field: Option<i64>) -> CsiParam
    ensures { result ≡ said field }
{
    match field {
        None => CsiParam::Integer(0),
        Some(number) if number > 0xffff_ffff => CsiParam::Integer(0xffff_ffff),
        Some(number) => CsiParam::Integer(number),
    }
}

/// The first parameter, or the first two.
fn first_parameters(alloc: Global, fields: &Cracked, two: bool) -> Result<Vec<CsiParam>, AllocError>
    ensures { IfOk result (λ v. v.items ≡ first two fields.now) }
{
    let mut list = Vec::new(alloc);
    if fields.len() == 0 {
        return Ok(list);
    }
    list.push(said(fields.opt_int(0)))?;
    if two && fields.len() > 1 {
        list.push(CsiParam::P(b';'))?;
        list.push(said(fields.opt_int(1)))?;
    }
    Ok(list)
}

fn copy(alloc: Global, params: &[CsiParam]) -> Result<Vec<CsiParam>, AllocError>
    ensures { IfOk result (λ v. v.items ≡ params.now) }
{
    let mut list = Vec::new(alloc);
    list.extend_from_slice(params)?;
    Ok(list)
}

/// The regular list of one that is read whole.
#[tactic(auto, using(crate::proofs::Unique::no_fields))]
pub(crate) fn regular_list(
    alloc: Global,
    params: &[CsiParam],
    control: char,
) -> Result<Vec<CsiParam>, AllocError>
    ensures { IfOk result (λ v. v.items ≡ regular params.now control) }
{
    let two = has_two(control);
    if !two && !has_one(control) {
        return copy(alloc, params);
    }
    fields_in_turn();
    match Cracked::parse(alloc, params) {
        Ok(fields) => first_parameters(alloc, &fields, two),
        Err(ParseRefusal::NotSpelled) => copy(alloc, params),
        Err(ParseRefusal::Memory) => Err(AllocError),
    }
}

/// The list with 0 for each parameter that is left out.
pub(crate) fn filled_list(alloc: Global, params: &[CsiParam]) -> Result<Vec<CsiParam>, AllocError>
    ensures { IfOk result (λ v. v.items ≡ filled params.now) }
{
    let mut list = Vec::new(alloc);
    let mut left_out = true;
    let mut rest = params;
    while let [token, others @ ..] = rest {
        let ends = is_semicolon(*token);
        if left_out && ends {
            list.push(CsiParam::Integer(0))?;
        }
        list.push(*token)?;
        left_out = ends;
        rest = others;
    }
    if left_out {
        list.push(CsiParam::Integer(0))?;
    }
    Ok(list)
}
