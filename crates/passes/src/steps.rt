// What one instruction does to the position and to the writes that wait.
ghost use Rattle.std.specs.Prelude.{◌≡◌, ℕ, ◌<◌};
ghost use Rattle.paths.specs.Paths.{Follows};
ghost use Rattle.passes.specs.declared.steps.TheConstants.{POSITIONS};
ghost use Rattle.passes.specs.Local.{next_of, is_load, is_store, is_barrier};

use instructions::types::Instruction;

// The positions of a party's code, the end of the longest included: one more than a party's most instructions, which
// `routine` keeps to itself.
pub(crate) const POSITIONS: usize = 33;

// A position and the instruction there, after which control is at one of the positions again.
#[derive(Clone, Copy)]
pub(crate) struct Step {
    pub(crate) k: usize,
    pub(crate) instruction: Instruction,
    ghost inside: { k < POSITIONS },
    ghost within: { (j : ℕ) → Follows instruction k j → j < POSITIONS },
}

// The position that follows, and the other that can, if there is one.
pub(crate) fn next_of(step: Step) -> (usize, Option<usize>)
    ensures { result ≡ next_of step.instruction step.k }
{
    match step.instruction {
        Instruction::JumpNonzero(_, target) => (step.k + 1, Some(usize::from(target))),
        Instruction::Jump(target) => (usize::from(target), None),
        _ => (step.k + 1, None),
    }
}

// Whether a write that still waits shows here.
pub(crate) fn is_load(instruction: Instruction) -> bool
    ensures { result ≡ is_load instruction }
{
    matches!(instruction, Instruction::Load(_, _))
}

// Whether a write begins to wait here.
pub(crate) fn is_store(instruction: Instruction) -> bool
    ensures { result ≡ is_store instruction }
{
    matches!(instruction, Instruction::Store(_, _))
}

// Whether no write waits any longer after this.
pub(crate) fn is_barrier(instruction: Instruction) -> bool
    ensures { result ≡ is_barrier instruction }
{
    matches!(
        instruction,
        Instruction::Exchange(_, _) | Instruction::Fence
    )
}
