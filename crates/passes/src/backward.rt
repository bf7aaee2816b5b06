// The backward pass.
ghost use Rattle.std.specs.Prelude.{◌≡◌};
ghost use Rattle.passes.specs.Passes.{PassedBy};
ghost use Rattle.passes.specs.declared.pass.Pass.{Pass};
ghost use Rattle.routine.specs.Routines.{listing};

use crate::routines::{Forward, Thinned};
use crate::thinning::{BackwardRule, apply};

// Takes out each fence that is followed by a barrier before a write shows.
pub fn backward(forward: Forward) -> Thinned
    ensures kept { (listing result.original ≡ listing forward.original) × (listing result.forward ≡ listing forward.routine) }
    ensures passed { PassedBy Pass.Backward (listing forward.routine) (listing result.routine) }
{
    let Forward {
        original,
        routine: forward,
        room,
    } = forward;
    let mut routine = forward.copy_in(room);
    apply::<BackwardRule>(&forward, &mut routine);
    Thinned::new(original, forward, routine)
}
