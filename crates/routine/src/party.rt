// A party: the instructions of one core.
ghost use Rattle.std.specs.Prelude.{◌≡◌, ◌<◌, ◌≤◌, [], ◌∷◌, ◌++◌, length, vec_len, vec_capacity, IfOk};
ghost use Rattle.grammar.specs.Listings.{target_within, targets_within};
ghost use Rattle.instructions.specs.Thinning.{unless, thin_from};
ghost use Rattle.routine.specs.Thins.{marked};

use crate::refill::refill;
use instructions::types::Instruction;
use std::alloc::{AllocError, Global};

pub(crate) const MOST_INSTRUCTIONS: usize = 32;

// It has at most 32 instructions, and room for as many.
#[derive(Debug, PartialEq, Eq, Drop)]
pub struct Party {
    code: Vec<Instruction>,
    ghost room: { 32 ≤ vec_capacity code },
    ghost few: { vec_len code ≤ 32 },
}

fn target_within(instruction: Instruction, end: usize) -> bool
    ensures { result ≡ target_within end instruction }
{
    match instruction {
        Instruction::JumpNonzero(_, target) | Instruction::Jump(target) => usize::from(target)
            <= end,
        _ => true,
    }
}

fn thinned(instruction: Instruction, stays: bool) -> Instruction
    ensures { result ≡ unless stays instruction }
{
    match instruction {
        Instruction::Fence if !stays => Instruction::Nop,
        _ => instruction,
    }
}

impl Party {
    ghost use Rattle.routine.specs.Parties.{code_of};

    // No instructions yet.
    pub(crate) fn new(heap: Global) -> Result<Party, AllocError>
        ensures { IfOk result (λ p. code_of p ≡ []) }
    {
        let code = Vec::with_capacity(heap, MOST_INSTRUCTIONS)?;
        Ok(Party { code })
    }

    pub fn code(&self) -> &[Instruction]
        ensures { result.now ≡ code_of self.now }
    {
        self.code.as_slice()
    }

    pub(crate) fn clear(&mut self)
        ensures { code_of self.new ≡ [] }
    {
        self.code.clear();
    }

    pub(crate) fn add(&mut self, instruction: Instruction)
        requires { length (code_of self.old) < 32 }
        ensures { code_of self.new ≡ code_of self.old ++ (instruction ∷ []) }
    {
        self.code.push_reserved(instruction);
    }

    // These instructions, in place of its own.
    pub(crate) fn copy(&mut self, code: &[Instruction])
        requires { length code.now ≤ 32 }
        ensures { code_of self.new ≡ code.now }
    {
        refill(&mut self.code, code);
    }

    // Whether no jump goes past the end.
    pub(crate) fn stays_within(&self) -> bool
        ensures { result ≡ targets_within (length (code_of self.now)) (code_of self.now) }
    {
        let end = self.code.len();
        self.code
            .iter()
            .all(|instruction| target_within(*instruction, end))
    }

    // Each MFENCE becomes NOP where no mark says that it stays.
    pub(crate) fn thin(&mut self, stays: &[bool])
        ensures { code_of self.new ≡ thin_from (marked stays.now) 0 (code_of self.old) }
    {
        for (k, instruction) in self.code.iter_mut().enumerate() {
            let stay = stays.get(k).copied().unwrap_or(false);
            *instruction = thinned(*instruction, stay);
        }
    }
}
