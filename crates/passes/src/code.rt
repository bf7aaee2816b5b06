// The code of one party.
ghost use Rattle.std.specs.Prelude.{IsTrue, List};
ghost use Rattle.grammar.specs.Listings.{party_lawful};
ghost use Rattle.instructions.specs.declared.types.Instruction.{Instruction};

use instructions::types::Instruction;
use std::marker::Model;

// The code of a party that keeps its limits. In clauses it is the list of the instructions.
#[derive(Drop)]
pub(crate) struct LawfulCode<'a> {
    pub(crate) instructions: &'a [Instruction],
}

impl<'a> Model for LawfulCode<'a> {
    ghost Value = { List Instruction };

    ghost view = { λ code. code.instructions.now };

    ghost invariant = { λ code. IsTrue (party_lawful code.instructions.now) };
}
