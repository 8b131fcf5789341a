ghost use Rattle.std.specs.Prelude.{◌≡◌, ◌<◌, ◌^◌, length};
ghost use Rattle.rtps_wire.specs.Reading as reading;
ghost use Rattle.rtps_wire.specs.Tally as tally;

use crate::counts::Tally;
use crate::message::Items;

/// Counts one datagram of any length. Items before a refusal count.
pub fn tally(bytes: &[u8]) -> Tally
    ensures { result ≡ tally.tally_of (reading.reading_of bytes.now) }
{
    match Items::open(bytes) {
        Ok((_, items)) => tally_items(items),
        Err(_) => Tally {
            refused: true,
            skipped: 0,
            fragments: 0,
        },
    }
}

/// Counts the unread part of a datagram.
fn tally_items(items: Items<'_>) -> Tally
    requires { length (reading.outcomes_left items) < 2 ^ 64 }
    ensures { result ≡ tally.tally_of_outcomes (reading.outcomes_left items.entry) }
{
    let mut tally = Tally {
        refused: false,
        skipped: 0,
        fragments: 0,
    };
    for outcome in items {
        match outcome {
            Ok(item) => {
                tally.skipped += u64::from(item.body.is_skipped());
                tally.fragments += u64::from(item.body.is_fragment());
            }
            Err(_) => tally.refused = true,
        }
    }
    tally
}
