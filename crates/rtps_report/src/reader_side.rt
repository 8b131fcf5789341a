ghost use Rattle.std.specs.Prelude.{IfOk, Option};
ghost use Rattle.rtps_evidence.specs.OtherSide as other_side;
ghost use Rattle.rtps_report.specs.ReaderSide as reader_side;

use crate::acquaintance::namings_of;
use crate::recording::{Recording, datagrams_of};
use bumpalo::Bump;
use rtps_audit::Index;
use rtps_evidence::OtherSide;
use rtps_fragments::{Fragments, index_as};
use rtps_ids::Memory;
use rtps_policies::Namings;
use std::alloc::Global;

/// What is kept of another recording, made at the host of readers: its index, and which of its participants names which.
#[derive(Drop)]
pub(crate) struct ReaderSide<'b> {
    index: Index<'b>,
    namings: Namings,
}

/// That of a recording. The samples that it borrows are put into the arena. `Memory` is answered where there is none for it.
fn side_of<'b>(
    alloc: Global,
    recording: &'b Recording,
    arena: &'b Bump,
) -> Result<ReaderSide<'b>, Memory>
    ensures { IfOk result (reader_side.IsReaderSide (reader_side.other_of recording.now)) }
{
    let datagrams = datagrams_of(alloc, recording)?;
    let namings = namings_of(alloc, &datagrams)?;
    let indexed = index_as(alloc, &datagrams, Fragments::Read, arena)?;
    Ok(ReaderSide {
        index: indexed.index,
        namings,
    })
}

/// The same where there is a recording.
pub(crate) fn side_by<'b>(
    alloc: Global,
    arrived: Option<&'b Recording>,
    arena: &'b Bump,
) -> Result<Option<ReaderSide<'b>>, Memory>
    ensures { IfOk result (reader_side.IsReaderSideBy (reader_side.other_by (reader_side.arrived_value arrived.entry))) }
{
    let Some(recording) = arrived else {
        return Ok(None);
    };
    let side = side_of(alloc, recording, arena)?;
    Ok(Some(side))
}

/// It as rows are held against it.
pub(crate) fn beside<'o, 'b>(side: &'o Option<ReaderSide<'b>>) -> Option<OtherSide<'o, 'b>>
    ensures { (other : Option other_side.OtherRecording) → reader_side.IsReaderSideBy other side.now → other_side.IsOtherSide other result }
{
    match side {
        Some(side) => Some(OtherSide {
            index: &side.index,
            namings: &side.namings,
        }),
        None => None,
    }
}
