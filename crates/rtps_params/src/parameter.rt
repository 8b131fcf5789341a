ghost use Rattle.std.specs.Prelude.{◌≡◌, MatchOption, MatchResult};
ghost use Rattle.rtps_params.specs.Grammar as grammar;
ghost use Rattle.rtps_params.specs.Parameter as parameter_spec;
ghost use Rattle.rtps_params.specs.Reading as reading;

use crate::fault::ParamFault;
use crate::layout::parameter::{HEADER, LENGTH};
use crate::layout::pid::SENTINEL;
use rtps_ids::{Order, u16_at};

/// A parameter, and the octets after it.
#[derive(Clone, Copy)]
pub(crate) struct Parameter<'a> {
    pub(crate) pid: u16,
    pub(crate) value: &'a [u8],
    pub(crate) rest: &'a [u8],
}

/// The parameter at the beginning of the octets, or None if a sentinel is there.
pub(crate) fn front(octets: &[u8], order: Order) -> Result<Option<Parameter<'_>>, ParamFault>
    ensures { MatchResult result
        (λ found. MatchOption found (parameter_spec.BeginsWithSentinel order octets.now)
        (λ parameter. parameter_spec.BeginsWith order octets.now parameter))
        (λ fault. grammar.IsCut order fault octets.now) }
{
    let (Some(pid), Some(length)) = (u16_at(order, octets, 0), u16_at(order, octets, LENGTH)) else {
        return Err(ParamFault::CutHeader);
    };
    if pid == SENTINEL {
        return Ok(None);
    }
    let length = usize::from(length);
    let body = &octets[HEADER..];
    if body.len() < length {
        return Err(ParamFault::CutValue);
    }
    let (value, rest) = body.split_at(length);
    Ok(Some(Parameter { pid, value, rest }))
}

/// How many octets the list at the beginning takes, sentinel included.
pub(crate) fn list_size(octets: &[u8], order: Order) -> Result<usize, ParamFault>
    ensures { result ≡ reading.list_end order octets.now }
{
    let mut rest = octets;
    while let Some(parameter) = front(rest, order)? {
        rest = parameter.rest;
    }
    Ok(octets.len() - rest.len() + HEADER)
}
