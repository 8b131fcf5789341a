ghost use Rattle.std.specs.Prelude.{◌≡◌, ◌≤◌, ◌<◌, ◌^◌, ◌&&◌, nat_le, nat_lt, is_some, unwrap_or, OnOk};
ghost use Rattle.rtps_receiver.specs.Said as said_spec;
ghost use Rattle.rtps_receiver.specs.Values as values;
ghost use Rattle.rtps_coverage.specs.Coverage as coverage;
ghost use Rattle.rtps_audit.specs.Speech as speech;

use rtps_coverage::Coverage;
use rtps_ids::{Guid, Memory};
use rtps_receiver::{Numbers, SaidNumbers, Spoken};

/// Adds the numbers that an act has a word for to a set, by what it says. After `Memory` the set may have some of them.
pub(crate) fn add_told<C: Coverage>(told: &mut C, said: &SaidNumbers<'_, '_>) -> Result<(), Memory>
    ensures { OnOk result ((value : said_spec.SaidValue) → said_spec.Says value said.now
        → coverage.TellsMore (C.covered told.old) (C.covered told.new) (λ n. is_some (speech.word_in value n))) }
{
    add_gone(told, &said.gone)?;
    if let Some(number) = said.told {
        add_range(told, number, number + 1)?;
    }
    Ok(())
}

/// Adds the numbers from `first` on and below `end`, as far as a set reaches. There may be none.
pub(crate) fn add_range<C: Coverage>(told: &mut C, first: u64, end: u64) -> Result<(), Memory>
    requires positive { 1 ≤ first }
    requires in_range { end ≤ 2 ^ 63 }
    ensures { OnOk result (coverage.TellsMore (C.covered told.old) (C.covered told.new) (λ n. nat_le first n && nat_lt n end)) }
{
    if end <= first {
        return Ok(());
    }
    let past = end.min(i64::MAX.cast_unsigned());
    told.add(first.cast_signed(), past.cast_signed())
}

/// Adds the numbers that are gone, range by range.
fn add_gone<C: Coverage>(told: &mut C, gone: &Numbers<'_>) -> Result<(), Memory>
    ensures { OnOk result (coverage.TellsMore (C.covered told.old) (C.covered told.new) (said_spec.numbers_have gone.now)) }
{
    let mut at = 0;
    'apart: while let Some(range) = gone.range_from(at) {
        add_range(told, range.start.max(1), range.end)?;
        at = range.end;
    }
    Ok(())
}

/// The number that the writer announces by an act, or 0.
pub fn announced_number(act: &Spoken<'_>, writer: Guid) -> u64
    ensures value { result ≡ unwrap_or (speech.announced_for writer (values.spoken_value act.now)) 0 }
    ensures in_range { result < 2 ^ 63 }
{
    if act.spoken_by(writer) {
        act.said().announced
    } else {
        0
    }
}
