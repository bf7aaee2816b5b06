// The forward pass.
ghost use Rattle.std.specs.Prelude.{◌≡◌};
ghost use Rattle.passes.specs.Passes.{PassedBy};
ghost use Rattle.passes.specs.declared.pass.Pass.{Pass};
ghost use Rattle.routine.specs.Fresh.{fresh_listing};
ghost use Rattle.routine.specs.Routines.{listing};

use crate::routines::Forward;
use crate::thinning::{ForwardRule, apply};
use routine::fresh::Fresh;

// Takes out each fence that every waiting write has passed a barrier before.
pub fn forward(fresh: Fresh) -> Forward
    ensures original { listing result.original ≡ fresh_listing fresh }
    ensures passed { PassedBy Pass.Forward (fresh_listing fresh) (listing result.routine) }
{
    let (original, mut routine, room) = fresh.into_copies();
    apply::<ForwardRule>(&original, &mut routine);
    Forward {
        original,
        routine,
        room,
    }
}
