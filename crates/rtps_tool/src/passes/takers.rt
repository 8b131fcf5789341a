//! What is told the datagrams of each pass.

ghost use Rattle.std.specs.Prelude.{ℕ, ◌≡◌, [], List};
ghost use Rattle.rtps_audit.specs.Intake as intake_spec;
ghost use Rattle.rtps_audit.specs.Speech as speech;
ghost use Rattle.rtps_discovery.specs.declared.matching.Pair.{Pair as PairValue};
ghost use Rattle.rtps_passes.specs.Comparison as comparison_spec;
ghost use Rattle.rtps_passes.specs.Judging as judging_spec;
ghost use Rattle.rtps_passes.specs.Survey as survey_spec;
ghost use Rattle.rtps_receiver.specs.Values as values;
ghost use Rattle.rtps_tool.specs.Sums as sums;

use crate::form::taking::Take;
use bumpalo::Bump;
use rtps_capture::Datagram;
use rtps_ids::Memory;
use rtps_passes::{Comparison, Judging, Survey};
use rtps_receiver::Walk;
use std::alloc::Global;

/// That of the first pass.
#[derive(Drop)]
pub(crate) struct Surveyed<'n> {
    pub(crate) survey: Survey<'n>,
    /// Where names are put that are announced.
    names: &'n Bump,
    alloc: Global,
}

impl<'n> Surveyed<'n> {
    /// Before all datagrams.
    pub(crate) fn new(alloc: Global, names: &'n Bump) -> Self
        ensures { survey_spec.IsSurveyBy intake_spec.no_intake result.survey }
    {
        Surveyed {
            survey: Survey::new(alloc),
            names,
            alloc,
        }
    }
}

impl Take for Surveyed<'_> {
    ghost has_taken = { λ start datagrams surveyed. survey_spec.IsSurveyBy intake_spec.no_intake start.survey
        → survey_spec.IsSurveyBy (intake_spec.intake_of (sums.octets_of datagrams)) surveyed.survey };

    fn take(&mut self, datagram: &Datagram<'_>) -> Result<(), Memory> {
        let mut walk = Walk::new(self.alloc);
        let tally = walk.read(datagram.octets)?;
        self.survey.note(tally, walk.acts(), self.names)
    }
}

/// That of the second pass.
#[derive(Drop)]
pub(crate) struct Judged {
    pub(crate) judging: Judging,
    pub(crate) alloc: Global,
}

impl Take for Judged {
    ghost has_taken = { λ start datagrams judged. (from : ℕ) (pairs : List PairValue) → judging_spec.IsJudgingBy from pairs [] start.judging
        → judging_spec.IsJudgingBy from pairs (speech.acts_by_datagram (sums.octets_of datagrams)) judged.judging };

    fn take(&mut self, datagram: &Datagram<'_>) -> Result<(), Memory> {
        let mut walk = Walk::new(self.alloc);
        let _ = walk.read(datagram.octets)?;
        self.judging.note(walk.acts())
    }
}

/// That of the third pass.
#[derive(Drop)]
pub(crate) struct Compared<'j, 'p> {
    pub(crate) comparison: Comparison<'j, 'p>,
    /// Where payloads are put that are compared.
    payloads: &'p Bump,
    alloc: Global,
}

impl<'j, 'p> Compared<'j, 'p> {
    /// Before all datagrams.
    pub(crate) fn new(alloc: Global, comparison: Comparison<'j, 'p>, payloads: &'p Bump) -> Self
        ensures { result.comparison ≡ comparison.entry }
    {
        Compared {
            comparison,
            payloads,
            alloc,
        }
    }
}

impl Take for Compared<'_, '_> {
    ghost has_taken = { λ start datagrams compared. (from : ℕ) (pairs : List PairValue) (recording : List (List values.ActValue))
        → comparison_spec.IsComparisonBy from pairs recording [] start.comparison
        → comparison_spec.IsComparisonBy from pairs recording (speech.acts_by_datagram (sums.octets_of datagrams)) compared.comparison };

    fn take(&mut self, datagram: &Datagram<'_>) -> Result<(), Memory> {
        let mut walk = Walk::new(self.alloc);
        let _ = walk.read(datagram.octets)?;
        self.comparison.note(walk.acts(), self.payloads)
    }
}
