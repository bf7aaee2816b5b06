// The marks of the forward rule: the positions to which a path leads that has a ST and no barrier after it.
ghost use Rattle.std.specs.Prelude.{◌≡◌, ℕ, ◌<◌, IsTrue, ◌↔◌};
ghost use Rattle.paths.specs.Paths.{Code};
ghost use Rattle.passes.specs.Arrivals.{Arrives, SpentAt, Spread, after_of, arrival_at, is_dirty, lacking};
ghost use Rattle.passes.specs.Local.{next_of};
ghost use Rattle.passes.specs.Marked.{DirtyMarks};
ghost use Rattle.routine.specs.Thins.{marked};

use crate::code::LawfulCode;
use crate::steps::{POSITIONS, Step, is_barrier, is_store, next_of};
use crate::sweeps::{Marks, settle};
use instructions::types::Instruction;

// How control can arrive at a position, by the paths from the start that were found, in the order in which it is raised.
#[derive(Clone, Copy, PartialEq, Eq, PartialOrd, Ord)]
pub(crate) enum Arrival {
    // On no path.
    Never,
    // On some path, but on none after which a write can wait.
    Clean,
    // On some path after which a write can wait.
    Dirty,
}

impl Arrival {
    // The arrival after an instruction, by the one at it.
    fn after(self, instruction: Instruction) -> Arrival
        ensures { result ≡ after_of instruction self }
    {
        match self {
            Arrival::Never => Arrival::Never,
            Arrival::Clean if is_store(instruction) => Arrival::Dirty,
            Arrival::Dirty if is_barrier(instruction) => Arrival::Clean,
            Arrival::Clean | Arrival::Dirty => self,
        }
    }

    fn is_dirty(self) -> bool
        ensures { result ≡ is_dirty self }
    {
        matches!(self, Arrival::Dirty)
    }
}

// How control can arrive at each position.
#[derive(Drop)]
struct Arrivals {
    at: [Arrival; POSITIONS],
}

impl Arrivals {
    // At the start control is at position 0.
    fn from_start() -> Arrivals
        ensures { (code : Code) → Arrives code result.at }
    {
        let mut at = [Arrival::Never; POSITIONS];
        at[0] = Arrival::Clean;
        Arrivals { at }
    }

    // Raises the arrival at a position; the answer is whether it was lower, as a set's `insert` says whether it was new.
    fn raise(&mut self, k: usize, to: Arrival) -> bool
        requires { k < POSITIONS }
        ensures { Spread (k, None) to result self.old.at self.new.at }
    {
        let lower = self.at[k] < to;
        if lower {
            self.at[k] = to;
        }
        lower
    }

    // Raises the arrival at each next position; the answer is whether any was lower, as `raise` gives it.
    fn spread(&mut self, step: Step, to: Arrival) -> bool
        ensures { Spread (next_of step.instruction step.k) to result self.old.at self.new.at }
    {
        let (first, other) = next_of(step);
        let mut raised = self.raise(first, to);
        if let Some(other) = other {
            raised |= self.raise(other, to);
        }
        raised
    }

    // Which positions are dirty. By a loop: the array's `map` takes longer than all sweeps over a short code, and with
    // `array::from_fn` the proof did not close.
    fn dirty_ones(&self) -> [bool; POSITIONS]
        ensures { (k : ℕ) → IsTrue (marked result k) ↔ (arrival_at self.now.at k ≡ Arrival.Dirty) }
    {
        let mut marks = [false; POSITIONS];
        for k in 0..POSITIONS {
            marks[k] = self.at[k].is_dirty();
        }
        marks
    }
}

impl Marks for Arrivals {
    ghost is_sound = { λ code arrivals. Arrives code arrivals.at };

    ghost is_settled = { λ arrivals k i. SpentAt arrivals.at k i };

    ghost left = { λ arrivals. lacking arrivals.at };

    fn visit(&mut self, step: Step) -> bool {
        let to = self.at[step.k].after(step.instruction);
        self.spread(step, to)
    }
}

// The marks of the positions of a party's code, its end included.
pub(crate) fn dirty(code: &LawfulCode<'_>) -> [bool; POSITIONS]
    ensures { DirtyMarks code.now result }
{
    let mut arrivals = Arrivals::from_start();
    settle(&mut arrivals, code);
    arrivals.dirty_ones()
}
