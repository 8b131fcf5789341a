//! The numbers of the frames that gave datagrams, kept as runs in which both rise alike.

ghost use Rattle.std.specs.Prelude.{◌≡◌, [], length, slice_get, IfOk};
ghost use Rattle.std.specs.List.Sorted.{IsNonDecreasingBy};
ghost use Rattle.rtps_evidence.specs.FrameNumbers as frame_numbers;

use rtps_ids::Memory;
use std::alloc::Global;
use std::marker::Model;

/// Datagrams behind one another whose frames are so, too.
#[derive(Clone, Copy)]
struct FrameRun {
    /// The place of the first of these datagrams, counted from 0.
    first: usize,
    /// The number of its frame.
    frame: u64,
}

impl FrameRun {
    /// The run of a capture in which each frame gives a datagram.
    fn of_all() -> FrameRun
        ensures { result ≡ frame_numbers.run_of_all }
    {
        FrameRun { first: 0, frame: 1 }
    }

    /// The frame of a datagram of this run.
    fn frame_at(self, place: usize) -> u64
        ensures { result ≡ frame_numbers.frame_at self place }
    {
        let behind = place.saturating_sub(self.first) as u64;
        self.frame.saturating_add(behind)
    }
}

/// The run that a datagram is in: the last one that begins up to it.
fn run_at(runs: &[FrameRun], place: usize) -> FrameRun
    requires { IsNonDecreasingBy (λ run. run.first) runs.now }
    ensures { result ≡ frame_numbers.run_at frame_numbers.run_of_all runs.now place }
{
    let behind = runs.partition_point(|run| run.first <= place);
    if behind == 0 {
        return FrameRun::of_all();
    }
    runs[behind - 1]
}

/// The runs of these frames.
fn runs_of(alloc: Global, frames: &[u64]) -> Result<Vec<FrameRun>, Memory>
    ensures rising { IfOk result (λ runs. IsNonDecreasingBy (λ run. run.first) runs.items) }
    ensures frames { IfOk result (λ runs. frame_numbers.frames_of (length frames.now) runs.items ≡ frames.now) }
{
    let mut runs = Vec::new(alloc);
    let mut last = FrameRun::of_all();
    for place in 0..frames.len() {
        let frame = frames[place];
        if last.frame_at(place) != frame {
            last = FrameRun {
                first: place,
                frame,
            };
            runs.push(last)?;
        }
    }
    Ok(runs)
}

/// The number of the frame that gave or completed each datagram, counted from 1.
#[derive(Drop)]
pub(crate) struct FrameNumbers {
    /// How many datagrams there are.
    count: usize,
    runs: Vec<FrameRun>,
}

impl Model for FrameNumbers {
    ghost use Rattle.std.specs.Prelude.{ℕ, List};
    ghost use Rattle.std.specs.List.Sorted.{IsNonDecreasingBy};
    ghost use Rattle.rtps_evidence.specs.FrameNumbers as frame_numbers;

    ghost Value = { List ℕ };

    ghost view = { λ numbers. frame_numbers.frames_of numbers.count numbers.runs.items };

    ghost invariant = { λ numbers. IsNonDecreasingBy (λ run. run.first) numbers.runs.items };
}

impl FrameNumbers {
    /// No datagram. It takes no memory.
    pub(crate) fn none(alloc: Global) -> FrameNumbers
        ensures { result ≡ [] }
    {
        FrameNumbers {
            count: 0,
            runs: Vec::new(alloc),
        }
    }

    /// The frame of each datagram, in the order of sending.
    pub(crate) fn of(alloc: Global, frames: &[u64]) -> Result<FrameNumbers, Memory>
        ensures { IfOk result (λ numbers. numbers ≡ frames.now) }
    {
        let runs = runs_of(alloc, frames)?;
        Ok(FrameNumbers {
            count: frames.len(),
            runs,
        })
    }

    /// The frame of the datagram in this place, counted from 0. None past the last.
    pub(crate) fn get(&self, place: usize) -> Option<u64>
        ensures { result ≡ slice_get self.now place }
    {
        if self.count <= place {
            return None;
        }
        Some(run_at(&self.runs, place).frame_at(place))
    }
}
