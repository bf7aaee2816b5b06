// The marks of the backward rule: the positions from which a path with no barrier leads to where a write shows.
ghost use Rattle.std.specs.Prelude.{◌≡◌, ℕ, ◌+◌, ◌<◌, length, count_by, nat_le, not};
ghost use Rattle.instructions.specs.Thinning.{thin_from};
ghost use Rattle.paths.specs.Rules.{BackwardOf};
ghost use Rattle.passes.specs.Local.{Exposes, SettledAt, look};
ghost use Rattle.passes.specs.Marked.{exposed_marks};
ghost use Rattle.routine.specs.Thins.{marked};

use crate::code::LawfulCode;
use crate::steps::{POSITIONS, Step, is_barrier, is_load, next_of};
use crate::sweeps::{Marks, settle};
use instructions::types::Instruction;
use std::array;

// Which positions are exposed, as far as it is known.
#[derive(Drop)]
struct Exposure {
    marks: [bool; POSITIONS],
}

impl Exposure {
    // The end is exposed, and all past it.
    fn from_end(code: &[Instruction]) -> Exposure
        ensures { (k : ℕ) → k < POSITIONS
            → exposed_marks result.marks k ≡ nat_le (length code.now) k }
    {
        Exposure {
            marks: array::from_fn(|k| code.len() <= k),
        }
    }

    // Whether a position is marked; past the last each is.
    fn is_marked(&self, k: usize) -> bool
        ensures { result ≡ exposed_marks self.now.marks k }
    {
        self.marks.get(k).is_none_or(|&mark| mark)
    }

    // Whether the position is exposed by what is marked.
    fn is_exposed(&self, step: Step) -> bool
        ensures { result ≡ look step.instruction step.k self.now.marks }
    {
        let (next, other) = next_of(step);
        is_load(step.instruction)
            || !is_barrier(step.instruction)
                && (self.is_marked(next) || other.is_some_and(|other| self.is_marked(other)))
    }

    // The marks of the positions after.
    fn after(&self) -> [bool; POSITIONS]
        ensures { (k : ℕ) → k < POSITIONS
            → marked result k ≡ exposed_marks self.now.marks (k + 1) }
    {
        array::from_fn(|k| self.is_marked(k + 1))
    }
}

impl Marks for Exposure {
    ghost is_sound = { λ code exposure. Exposes code exposure.marks };

    ghost is_settled = { λ exposure k i. SettledAt exposure.marks k i };

    ghost left = { λ exposure. count_by not exposure.marks };

    fn visit(&mut self, step: Step) -> bool {
        if self.marks[step.k] || !self.is_exposed(step) {
            return false;
        }
        self.marks[step.k] = true;
        true
    }
}

// Marks each position after which a write can show: there a fence stays. The steps are those of `dirty`, at other marks:
// one function for both would ask `Marks` for the start and the end of each.
pub(crate) fn exposed_after(code: &LawfulCode<'_>) -> [bool; POSITIONS]
    ensures { BackwardOf code.now (thin_from (marked result) 0 code.now) }
{
    let mut exposure = Exposure::from_end(code.instructions);
    settle(&mut exposure, code);
    exposure.after()
}
