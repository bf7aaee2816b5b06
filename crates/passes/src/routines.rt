// Routines on their way through the passes: each type comes from the one before, and from nothing else.
ghost use Rattle.std.specs.Prelude.{◌≡◌};
ghost use Rattle.passes.specs.Passes.{PassedBy, ThinnedFrom};
ghost use Rattle.passes.specs.declared.pass.Pass.{Pass};
ghost use Rattle.routine.specs.Routines.{listing};

use routine::room::Room;
use routine::routine::Routine;

// What the forward pass returned, with the original and room for the backward pass.
#[derive(Drop)]
pub struct Forward {
    pub(crate) original: Routine,
    pub(crate) routine: Routine,
    pub(crate) room: Room,
    ghost by_forward_rule: { ∥ PassedBy Pass.Forward (listing original) (listing routine) ∥₁ },
}

// What both passes made of the original.
#[derive(Drop)]
pub struct Thinned {
    pub(crate) original: Routine,
    pub(crate) forward: Routine,
    pub(crate) routine: Routine,
    ghost thinned_from: { ∥ ThinnedFrom (listing original) (listing forward) (listing routine) ∥₁ },
}

impl Thinned {
    pub(crate) fn new(original: Routine, forward: Routine, routine: Routine) -> Thinned
        requires forward { ∥ PassedBy Pass.Forward (listing original) (listing forward) ∥₁ }
        requires backward { PassedBy Pass.Backward (listing forward) (listing routine) }
        ensures { (result.original ≡ original) × ((result.forward ≡ forward) × (result.routine ≡ routine)) }
    {
        Thinned {
            original,
            forward,
            routine,
        }
    }

    // The routine as it was read.
    pub fn original(&self) -> &Routine
        ensures { result.now ≡ self.now.original }
    {
        &self.original
    }

    // What the forward pass returned.
    pub fn after_forward(&self) -> &Routine
        ensures { result.now ≡ self.now.forward }
    {
        &self.forward
    }

    // The thinned routine.
    pub fn routine(&self) -> &Routine
        ensures { result.now ≡ self.now.routine }
    {
        &self.routine
    }
}
