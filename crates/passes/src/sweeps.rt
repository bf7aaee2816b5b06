// Marks that are carried along a party's code until nothing changes.
ghost use Rattle.std.specs.Prelude.{◌≡◌, ℕ, ◌<◌, IsTrue, IsFalse};
ghost use Rattle.instructions.specs.declared.types.Instruction.{Instruction};
ghost use Rattle.paths.specs.Paths.{Code, fetch};
ghost use Rattle.passes.specs.Local.{AtEach};

use crate::code::LawfulCode;
use crate::steps::Step;

// Marks of the positions of a party's code.
pub(crate) trait Marks {
    // Each mark has its path through the code.
    ghost is_sound: { Code → Self → Type 0 };

    // Nothing is left to carry on from a position that has the instruction.
    ghost is_settled: { Self → ℕ → Instruction → Type 0 };

    // How much can still be marked.
    ghost left: { Self → ℕ };

    // Carries the marks one step on; the answer is whether any changed: a bool, as a set's `insert` gives, since
    // what has changed is in the marks themselves.
    fn visit(&mut self, step: Step) -> bool
        ensures sound { (code : Code) → fetch code step.k ≡ Some step.instruction
            → is_sound code self.old → is_sound code self.new }
        ensures same { IsFalse result → self.new ≡ self.old }
        ensures settled { IsFalse result → is_settled self.new step.k step.instruction }
        ensures fewer { IsTrue result → left self.new < left self.old };
}

// Visits each position once; the answer is whether any mark changed, a bool as `visit` gives.
fn sweep<M: Marks>(marks: &mut M, code: &LawfulCode<'_>) -> bool
    requires { M.is_sound code.now marks.old }
    ensures sound { M.is_sound code.now marks.new }
    ensures settled { IsFalse result → AtEach (M.is_settled marks.new) code.now }
    ensures fewer { IsTrue result → M.left marks.new < M.left marks.old }
{
    let mut changed = false;
    for (k, &instruction) in code.instructions.iter().enumerate() {
        changed |= marks.visit(Step { k, instruction });
    }
    changed
}

// Sweeps until nothing changes.
pub(crate) fn settle<M: Marks>(marks: &mut M, code: &LawfulCode<'_>)
    requires { M.is_sound code.now marks.old }
    ensures sound { M.is_sound code.now marks.new }
    ensures settled { AtEach (M.is_settled marks.new) code.now }
{
    while sweep(marks, code) {}
}
