ghost use Rattle.std.specs.Prelude.{◌≡◌, ◌<◌, ◌^◌};
ghost use Rattle.rtps_audit.specs.Placed as placed_spec;
ghost use Rattle.rtps_evidence.specs.Locations as locations;

use crate::amount::AskedNumbers;
use crate::location::{Kind, Location, kind_of, location_of};
use rtps_audit::{FirstAsked, Placed, announced_number};
use rtps_ids::Guid;

/// The submessage that announces a number first.
#[derive(Clone, Copy)]
pub struct Announcement {
    /// The last number that the writer announces.
    pub number: i64,
    /// DATA or HEARTBEAT.
    pub kind: Kind,
    pub place: Location,
}

/// What a writer announced, whoever hears it, as far as a recording has come.
#[derive(Clone, Copy)]
pub(crate) struct Announced {
    /// The greatest number, or 0.
    pub(crate) last: u64,
    /// The first act that announces it; None where no number is announced.
    pub(crate) first: Option<Announcement>,
    ghost in_range: { last < 2 ^ 63 },
}

/// What an act announces, where that is this number.
fn announcing(placed: &Placed<'_>, number: u64) -> Announcement
    requires { number < 2 ^ 63 }
    ensures { result ≡ locations.announcement_at number (placed_spec.placed_value placed.now) }
{
    Announcement {
        number: number.cast_signed(),
        kind: kind_of(&placed.act.body),
        place: location_of(placed),
    }
}

impl Announced {
    ghost use Rattle.std.specs.Prelude.{◌-◌, ◌++◌, ◌∷◌, [], max, List};
    ghost use Rattle.rtps_ids.specs.declared.identity.Guid.{Guid as GuidValue};
    ghost use Rattle.rtps_evidence.specs.Heard as heard;

    /// Nothing was said.
    pub(crate) fn new() -> Announced
        ensures { (writer : GuidValue) → heard.IsAnnounced writer [] result }
    {
        Announced {
            last: 0,
            first: None,
        }
    }

    /// Is told an act more of the writer.
    pub(crate) fn hear(&mut self, placed: &Placed<'_>, writer: Guid)
        ensures { (acts : List placed_spec.PlacedValue) → heard.IsAnnounced writer acts self.old → heard.IsAnnounced writer (acts ++ placed_spec.placed_value placed.now ∷ []) self.new }
    {
        let last = announced_number(&placed.act, writer);
        if last <= self.last {
            return;
        }
        *self = Announced {
            last,
            first: Some(announcing(placed, last)),
        };
    }

    /// The numbers from `from` on that are announced.
    pub(crate) fn asked(&self, from: FirstAsked) -> AskedNumbers
        ensures from { result.from ≡ from }
        ensures last { result.last ≡ max self.now.last (from - 1) }
    {
        let before = from.get() - 1;
        let last = self.last.max(before);
        AskedNumbers { from, last }
    }

    /// The first act that announces the last of them; None where there are none.
    pub(crate) fn first_from(&self, from: FirstAsked) -> Option<Announcement>
        ensures { (writer : GuidValue) (acts : List placed_spec.PlacedValue) → heard.IsAnnounced writer acts self.now
            → result ≡ locations.announcement_of from writer (max self.now.last (from - 1)) acts }
    {
        if self.last < from.get() {
            return None;
        }
        self.first
    }
}
