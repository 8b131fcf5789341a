ghost use Rattle.std.specs.Prelude.{◌≡◌, ◌≤◌, ◌<◌, ◌+◌, ◌++◌, map, take, length, Some, None, Err, OnOk, OnErr, MatchResult, vec_capacity, vec_len};
ghost use Rattle.rtps_params.specs.Item as item;
ghost use Rattle.rtps_params.specs.Writing as writing;
ghost use Rattle.rtps_params.specs.declared.layout.parameter.TheConstants.{LONGEST_VALUE as longest_value};
ghost use Rattle.rtps_params.specs.declared.list_fault.ListFault.{ListFault as Fault};
ghost use Rattle.rtps_params.specs.declared.list_fault.ListFault.TheVariants.{Memory as NoRoom};

use crate::layout::parameter::{ALIGNMENT, LONGEST_VALUE};
use crate::layout::pid::{PAD, SENTINEL};
use crate::list_fault::ListFault;
use rtps_ids::{Memory, Order, put_u16};

/// Appends the list of these parameters: for each its id, the length of its value and its value, and then a sentinel of
/// length 0 (DDSI-RTPS 2.5, 9.4.2.11 "ParameterList").
/// A parameter cannot be written if its value has more than 65,532 octets (`ValueTooLong`), else if they are no
/// multiple of 4 (`ValueUnaligned`), else if its id is 0 or 1 (`PidReserved`). The first parameter that cannot be
/// written gives the fault. `Memory` is returned only if all can be written and there is no room for the octets. After
/// a fault `out` is as it was.
pub fn write_list(params: &[(u16, &[u8])], order: Order, out: &mut Vec<u8>) -> Result<(), ListFault>
    ensures refused { (fault : Fault) → writing.list_fault (map item.pair_of params.now) ≡ Some fault → result ≡ Err fault }
    ensures written { writing.list_fault (map item.pair_of params.now) ≡ None → MatchResult result
        (λ _. out.new.items ≡ out.old.items ++ writing.written_list order (map item.pair_of params.now))
        (λ fault. (fault ≡ NoRoom) × (vec_capacity out.old < vec_len out.old + length (writing.written_list order (map item.pair_of params.now)))) }
    ensures kept { OnErr result (out.new.items ≡ out.old.items) }
    ensures room { vec_capacity out.old ≤ vec_capacity out.new }
{
    check_params(params)?;
    let before = out.len();
    if put_params(params, order, out).is_err() {
        out.truncate(before);
        return Err(ListFault::Memory);
    }
    Ok(())
}

/// Whether all these parameters can be written, or the fault of the first that cannot.
fn check_params(params: &[(u16, &[u8])]) -> Result<(), ListFault>
    ensures { MatchResult result
        (λ _. writing.list_fault (map item.pair_of params.now) ≡ None)
        (λ fault. writing.list_fault (map item.pair_of params.now) ≡ Some fault) }
{
    for (pid, value) in params {
        check_param(*pid, value)?;
    }
    Ok(())
}

/// Whether a parameter can be written, or why not.
fn check_param(pid: u16, value: &[u8]) -> Result<(), ListFault>
    ensures { MatchResult result
        (λ _. writing.parameter_fault (pid, value.now) ≡ None)
        (λ fault. writing.parameter_fault (pid, value.now) ≡ Some fault) }
{
    if value.len() > LONGEST_VALUE {
        return Err(ListFault::ValueTooLong);
    }
    if value.len() % ALIGNMENT != 0 {
        return Err(ListFault::ValueUnaligned);
    }
    if pid == PAD || pid == SENTINEL {
        return Err(ListFault::PidReserved);
    }
    Ok(())
}

/// Appends parameters, and then the sentinel. If there is no room for all, some octets may be appended.
fn put_params(params: &[(u16, &[u8])], order: Order, out: &mut Vec<u8>) -> Result<(), Memory>
    requires { writing.list_fault (map item.pair_of params.now) ≡ None }
    ensures ok { OnOk result (out.new.items ≡ out.old.items ++ writing.written_list order (map item.pair_of params.now)) }
    ensures front { take (vec_len out.old) out.new.items ≡ out.old.items }
    ensures full { OnErr result (vec_capacity out.old < vec_len out.old + length (writing.written_list order (map item.pair_of params.now))) }
    ensures room { vec_capacity out.old ≤ vec_capacity out.new }
{
    for (pid, value) in params {
        put_param(*pid, value, order, out)?;
    }
    put_u16(order, SENTINEL, out)?;
    put_u16(order, 0, out)
}

/// Appends a parameter. If there is no room for all, some octets may be appended.
#[tactic(auto, using(crate::proofs::Written::lengths))]
fn put_param(pid: u16, value: &[u8], order: Order, out: &mut Vec<u8>) -> Result<(), Memory>
    requires { length value.now ≤ longest_value }
    ensures ok { OnOk result (out.new.items ≡ out.old.items ++ writing.parameter_octets order (pid, value.now)) }
    ensures front { take (vec_len out.old) out.new.items ≡ out.old.items }
    ensures full { OnErr result (vec_capacity out.old < vec_len out.old + length (writing.parameter_octets order (pid, value.now))) }
    ensures room { vec_capacity out.old ≤ vec_capacity out.new }
{
    put_u16(order, pid, out)?;
    put_u16(order, value.len() as u16, out)?;
    out.extend_from_slice(value)?;
    Ok(())
}
