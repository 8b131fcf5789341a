ghost use Rattle.std.specs.Prelude.{◌≡◌, ◌≤◌, ◌<◌, ◌+◌, ◌^◌, drop, take, length, true, false, nat_le, IfOk, IfErr, OnOk};
ghost use Rattle.std.specs.Io.KnownBytes.{Consumes, IsAtEnd};
ghost use Rattle.rtps_capture.specs.Held as held_spec;
ghost use Rattle.rtps_capture.specs.Left as left;

use crate::capture::CaptureFault;
use crate::read_fault::ReadFault;
use rtps_ids::Memory;
use std::alloc::Global;
use std::io::Read;
use std::marker::Model;

/// The most octets that a read asks for.
const BLOCK_MOST: usize = 1 << 30;

/// The most octets of an input that are counted.
const READ_MOST: u64 = 1 << 62;

/// What is held of an input that is read by blocks: octets that were read and are not passed yet.
#[derive(Drop)]
pub(crate) struct Held {
    octets: Vec<u8>,
    // How many of these are passed.
    passed: usize,
    // How many were read in all.
    read: u64,
    // How many octets a read asks for.
    block: usize,
    // The input ended: nothing is read behind its end.
    ended: bool,
}

impl Model for Held {
    ghost use Rattle.std.specs.Prelude.{◌≤◌, ◌<◌, ◌^◌, drop, length};
    ghost use Rattle.rtps_capture.specs.Held as held_spec;

    ghost Value = { held_spec.HeldValue };

    ghost view = { λ held. record { octets = drop held.passed held.octets.items; read = held.read; ended = held.ended } };

    ghost invariant = { λ held. (held.passed ≤ length held.octets.items) × (0 < held.block) × (held.block ≤ 2 ^ 30) };
}

impl Held {
    /// These octets are held, which begin an input. A read will ask for so many, but for one at least.
    pub(crate) fn new(alloc: Global, block: usize, begun: &[u8]) -> Result<Held, Memory>
        ensures { IfOk result (λ held. held ≡ record { octets = begun.now; read = length begun.now; ended = false }) }
    {
        let mut octets = Vec::new(alloc);
        octets.extend_from_slice(begun)?;
        Ok(Held {
            octets,
            passed: 0,
            read: begun.len() as u64,
            block: block.clamp(1, BLOCK_MOST),
            ended: false,
        })
    }

    #[inline]
    pub(crate) fn octets(&self) -> &[u8]
        ensures { result.now ≡ self.now.octets }
    {
        &self.octets[self.passed..]
    }

    /// How many octets were read.
    pub(crate) fn read(&self) -> u64
        ensures { result ≡ self.now.read }
    {
        self.read
    }

    /// Whether the input ended.
    pub(crate) fn has_ended(&self) -> bool
        ensures { result ≡ self.now.ended }
    {
        self.ended
    }

    /// Passes so many octets.
    #[inline]
    pub(crate) fn pass(&mut self, count: usize)
        requires { count ≤ length self.old.octets }
        ensures { self.new ≡ record self.old { octets = drop count self.old.octets } }
    {
        self.passed += count;
    }

    /// Reads on until so many octets are held, or the input ends. Answers whether they are.
    pub(crate) fn fill<R: Read>(&mut self, input: &mut R, wanted: usize) -> Result<bool, ReadFault>
        ensures fills { OnOk result (held_spec.Fills (R.remaining input.old) (R.remaining input.new) self.old self.new) }
        ensures kept { length self.old.octets ≤ length self.new.octets }
        ensures enough { IfOk result (λ enough. enough ≡ nat_le wanted (length self.new.octets)) }
        ensures end { IfOk result (λ enough. enough ≡ false → self.new.ended ≡ true) }
        ensures open { IfErr result left.IsOpenFault }
    {
        'reads: while self.octets.len() - self.passed < wanted {
            if !self.read_block(input)? {
                return Ok(false);
            }
        }
        Ok(true)
    }

    /// Reads what comes next behind these, unless the input ended, and answers whether octets came.
    fn read_block<R: Read>(&mut self, input: &mut R) -> Result<bool, ReadFault>
        ensures fills { OnOk result (held_spec.Fills (R.remaining input.old) (R.remaining input.new) self.old self.new) }
        ensures kept { length self.old.octets ≤ length self.new.octets }
        ensures grown { IfOk result (λ came. came ≡ true → length self.old.octets < length self.new.octets) }
        ensures end { IfOk result (λ came. came ≡ false → (self.new.octets ≡ self.old.octets) × (self.new.ended ≡ true)) }
        ensures open { IfErr result left.IsOpenFault }
    {
        if self.ended {
            return Ok(false);
        }
        if self.read >= READ_MOST {
            return Err(ReadFault::Capture(CaptureFault::Memory));
        }
        self.settle();
        let got = read_behind(input, &mut self.octets, self.block)?;
        self.read += got as u64;
        self.ended = got == 0;
        Ok(got > 0)
    }

    /// Leaves out the octets that are passed.
    fn settle(&mut self)
        ensures same { self.new ≡ self.old }
    {
        let held = self.octets.len() - self.passed;
        self.octets.copy_within(self.passed.., 0);
        self.octets.truncate(held);
        self.passed = 0;
    }
}
/// Reads what comes next behind these octets, as many as `block` at most, and answers how many came.
fn read_behind<R: Read>(
    input: &mut R,
    octets: &mut Vec<u8>,
    block: usize,
) -> Result<usize, ReadFault>
    requires { (0 < block) × (block ≤ 2 ^ 30) }
    ensures size { IfOk result (λ got. length octets.new.items ≡ length octets.old.items + got) }
    ensures kept { length octets.old.items ≤ length octets.new.items }
    ensures front { IfOk result (λ got. take (length octets.old.items) octets.new.items ≡ octets.old.items) }
    ensures read { OnOk result (Consumes (R.remaining input.old) (R.remaining input.new) (drop (length octets.old.items) octets.new.items)) }
    ensures end { IfOk result (λ got. got ≡ 0 → IsAtEnd (R.remaining input.new)) }
    ensures open { IfErr result left.IsOpenFault }
{
    let front = octets.len();
    octets.resize(front + block, 0)?;
    let got = read_over(input, octets.as_mut_slice(), front)?;
    octets.truncate(front + got);
    Ok(got)
}

/// Reads what comes next over the octets from place `from` on, and answers how many came.
fn read_over<R: Read>(input: &mut R, octets: &mut [u8], from: usize) -> Result<usize, ReadFault>
    requires { from < length octets.old }
    ensures within { IfOk result (λ got. from + got ≤ length octets.new) }
    ensures front { take from octets.new ≡ take from octets.old }
    ensures size { length octets.new ≡ length octets.old }
    ensures read { IfOk result (λ got. Consumes (R.remaining input.old) (R.remaining input.new) (take got (drop from octets.new))) }
    ensures end { IfOk result (λ got. got ≡ 0 → IsAtEnd (R.remaining input.new)) }
    ensures open { IfErr result left.IsOpenFault }
{
    match input.read(&mut octets[from..]) {
        Ok(got) => Ok(got),
        Err(_) => Err(ReadFault::Input),
    }
}
