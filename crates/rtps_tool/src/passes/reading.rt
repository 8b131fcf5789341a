//! A recording that is read again from its start.

ghost use Rattle.std.specs.Prelude.{ℕ, ◌≡◌, [], length, List, Some, IfErr, IfSome, MatchResult};
ghost use Rattle.rtps_tool.specs.CaptureBlocks as capture_blocks;
ghost use Rattle.rtps_tool.specs.Passes as passes_spec;
ghost use Rattle.rtps_tool.specs.Sums as sums;
ghost use Rattle.rtps_tool.specs.declared.faults.RunFault.TheVariants.{Input};

use crate::faults::RunFault;
use crate::form::capture_blocks::{CaptureTerms, take_capture};
use crate::form::either::begins_capture;
use crate::form::taking::Take;
use crate::form::whole::Whole;
use crate::passes::first_pass::FirstPass;
use crate::passes::pass::Pass;
use crate::source::Source;
use crate::streams::{FORM, HELD, read_start, take_short, take_text, zeros};
use rtps_capture::laws::course_is_told;
use std::io::Read;

/// Has a reader read a source from its start, for a pass of this number.
pub(crate) fn rewind<R: Read, S: Source<R>>(
    source: &S,
    reader: &mut R,
    pass: u8,
) -> Result<(), RunFault>
    ensures { MatchResult result (λ _. IfSome (S.octets source.now) (λ all. R.remaining reader.new ≡ Some all)) (λ fault. fault ≡ Input) }
{
    match source.rewind(reader, pass) {
        Ok(()) => Ok(()),
        Err(_) => Err(RunFault::Input),
    }
}

/// Tells a taker the datagrams of an input.
fn read_pass<R: Read, T: Take>(
    terms: CaptureTerms,
    input: &mut R,
    taker: &mut T,
) -> Result<Whole, RunFault>
    ensures known { (all : List ℕ) (start : T) → R.remaining input.old ≡ Some all → T.has_taken start [] taker.old
        → MatchResult result
        (passes_spec.IsFoundOf terms.limits terms.captures all (λ datagrams. T.has_taken start datagrams taker.new))
        (passes_spec.FailsOn terms.limits terms.captures all) }
    ensures fault { IfErr result passes_spec.IsReadFault }
{
    let mut held = zeros(terms.alloc, HELD)?;
    take_input(terms, input, &mut held, taker)
}

/// The same, where the first octets are held here, and what is held of a text.
fn take_input<R: Read, T: Take>(
    terms: CaptureTerms,
    input: &mut R,
    held: &mut [u8],
    taker: &mut T,
) -> Result<Whole, RunFault>
    requires room { length held.old ≡ 196607 }
    ensures known { (all : List ℕ) (start : T) → R.remaining input.old ≡ Some all → T.has_taken start [] taker.old
        → MatchResult result
        (passes_spec.IsFoundOf terms.limits terms.captures all (λ datagrams. T.has_taken start datagrams taker.new))
        (passes_spec.FailsOn terms.limits terms.captures all) }
    ensures fault { IfErr result passes_spec.IsReadFault }
{
    let start = read_start(input, held)?;
    if start < FORM {
        let octets = take_short(terms, &held[..start], taker)?;
        return Ok(Whole::Text(octets));
    }
    if !begins_capture(terms.captures, &held[..start]) {
        let octets = take_text(terms, input, held, start, taker)?;
        return Ok(Whole::Text(octets));
    }
    let whole = take_capture(terms, input, &held[..start], taker)?;
    Ok(Whole::Capture(whole))
}

/// The first pass over a source.
pub(crate) fn first_pass<R: Read, S: Source<R>, T: Take>(
    terms: CaptureTerms,
    source: &S,
    reader: &mut R,
    pass: &mut Pass<T>,
) -> Result<FirstPass, RunFault>
    ensures known { (all : List ℕ) (start : T) → S.octets source.now ≡ Some all → pass.old.sum ≡ sums.initial → T.has_taken start [] pass.old.taker
        → MatchResult result
        (λ first. (first.terms ≡ terms) × passes_spec.IsFirstOf all first × T.has_taken start (passes_spec.datagrams_in first all) pass.new.taker)
        (passes_spec.FailsOn terms.limits terms.captures all) }
    ensures fault { IfErr result passes_spec.IsReadFault }
{
    rewind(source, reader, pass.number)?;
    let whole = read_pass(terms, reader, pass)?;
    Ok(FirstPass {
        terms,
        whole,
        sum: pass.sum(),
    })
}

/// A pass behind the first one, over as many octets as that one read. Where it does not find the same datagrams, the source has changed.
pub(crate) fn read_again<R: Read, S: Source<R>, T: Take>(
    first: FirstPass,
    source: &S,
    reader: &mut R,
    pass: &mut Pass<T>,
) -> Result<(), RunFault>
    ensures known { (all : List ℕ) (start : T) → S.octets source.now ≡ Some all → passes_spec.IsFirstOf all first → pass.old.sum ≡ sums.initial
        → T.has_taken start [] pass.old.taker
        → MatchResult result (λ _. T.has_taken start (passes_spec.datagrams_in first all) pass.new.taker) capture_blocks.IsNoRecFault }
    ensures fault { IfErr result passes_spec.IsReadFault }
{
    course_is_told();
    rewind(source, reader, pass.number)?;
    let mut input = reader.take(first.whole.octets());
    match read_pass(first.terms, &mut input, pass) {
        Ok(found) => {
            if first.is_found_again(found, pass.sum()) {
                Ok(())
            } else {
                Err(RunFault::Changed)
            }
        }
        Err(fault) => Err(fault_again(fault)),
    }
}

/// What is told of a fault behind the first pass.
fn fault_again(fault: RunFault) -> RunFault
    ensures { result ≡ passes_spec.fault_again fault }
{
    match fault {
        RunFault::Recording(_) => RunFault::Changed,
        _ => fault,
    }
}
