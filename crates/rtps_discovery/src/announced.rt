ghost use Rattle.std.specs.Prelude.{◌≡◌};
ghost use Rattle.std.specs.Option.{option_map};
ghost use Rattle.rtps_receiver.specs.Values as values;
ghost use Rattle.rtps_discovery.specs.Endpoint as endpoint;
ghost use Rattle.rtps_discovery.specs.Notice as notice_spec;

use crate::announcement::read_endpoint;
use crate::endpoint::Endpoint;
use crate::notice::{Subject, notice};
use rtps_receiver::Spoken;

/// The writer or reader that an act announces, from any source and to any destination. None where it announces none, or has a
/// fault.
pub fn announced_endpoint<'a>(act: &Spoken<'a>) -> Option<Endpoint<'a>>
    ensures { option_map endpoint.endpoint_value result ≡ notice_spec.endpoint_in (notice_spec.announcement_of (values.spoken_value act.now)) }
{
    let (subject, payload) = notice(act)?;
    match subject {
        Subject::Participant => None,
        Subject::Endpoint(side) => match read_endpoint(payload, side) {
            Ok(endpoint) => Some(endpoint),
            Err(_) => None,
        },
    }
}
