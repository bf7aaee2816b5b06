// A routine fresh from reading.
ghost use Rattle.std.specs.Prelude.{◌≡◌, IfOk, OnErr, MatchResult};
ghost use Rattle.grammar.specs.declared.faults.RoutineFault.{RoutineFault};
ghost use Rattle.grammar.specs.Reads.{read_of};
ghost use Rattle.routine.specs.Joins.{Joined};
ghost use Rattle.routine.specs.Routines.{listing, one_nop};

use crate::draft::Draft;
use crate::room::Room;
use crate::routine::Routine;
use grammar::faults::RoutineFault;
use std::alloc::{AllocError, Global};

// Beside the routine it has all the room that reading and both passes need.
#[derive(Drop)]
pub struct Fresh {
    routine: Routine,
    draft: Draft,
    // The forward pass copies the routine into its room.
    spare: Routine,
}

impl Fresh {
    ghost use Rattle.routine.specs.Fresh.{fresh_listing, ByGrammar};

    // The built-in routine, one party with one NOP; all the room that reading and both passes will need is taken here.
    pub fn new(heap: Global) -> Result<Fresh, RoutineFault>
        ensures { MatchResult result (λ f. fresh_listing f ≡ one_nop) (λ e. e ≡ RoutineFault.Memory) }
    {
        let fresh = Fresh {
            routine: Routine::one_nop(heap)?,
            draft: Draft::new(heap)?,
            spare: Routine::one_nop(heap)?,
        };
        Ok(fresh)
    }

    // Reads the text into the draft, and takes the draft's storage over where all is well.
    pub(crate) fn fill(&mut self, text: &[u8]) -> Result<(), RoutineFault>
        ensures reads { Joined result (read_of text.now) (fresh_listing self.new) }
        ensures stays { OnErr result (self.new.routine ≡ self.old.routine) }
        ensures grammar { ByGrammar text.now result self.new }
    {
        self.draft.read_text(text)?;
        self.draft.hand_to(&mut self.routine);
        Ok(())
    }

    pub fn routine(&self) -> &Routine
        ensures { result.now ≡ self.now.routine }
    {
        &self.routine
    }

    // The routine, a copy of it, and room for one more: no memory is wanted.
    pub fn into_copies(self) -> (Routine, Routine, Room)
        ensures { (result.0 ≡ self.routine) × (listing result.1 ≡ fresh_listing self) }
    {
        let Fresh {
            routine,
            draft,
            spare,
        } = self;
        let copy = routine.copy_in(spare.into_room());
        let room = draft.into_room();
        (routine, copy, room)
    }
}
