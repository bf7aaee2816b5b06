// One pass over a whole routine.
ghost use Rattle.std.specs.Prelude.{◌≡◌};
ghost use Rattle.instructions.specs.Thinning.{thin_from};
ghost use Rattle.paths.specs.Rules.{TakenOut};
ghost use Rattle.passes.specs.Passes.{RuleOf, PassedBy};
ghost use Rattle.passes.specs.declared.pass.Pass.{Pass};
ghost use Rattle.passes.specs.declared.pass.Pass.TheVariants.{Forward, Backward};
ghost use Rattle.routine.specs.Routines.{listing};
ghost use Rattle.routine.specs.Thins.{marked};

use crate::code::LawfulCode;
use crate::dirty::dirty;
use crate::exposed::exposed_after;
use crate::steps::POSITIONS;
use routine::routine::Routine;

// A rule by which fences stay.
pub(crate) trait Rule {
    // The pass that goes by it.
    ghost pass: { Pass };

    // Marks the positions at which a fence stays.
    fn staying(code: &LawfulCode<'_>) -> [bool; POSITIONS]
        ensures { TakenOut (RuleOf pass code.now) code.now (thin_from (marked result) 0 code.now) };
}

// A fence stays where a write can wait.
pub(crate) struct ForwardRule;

// A fence stays where a write can show after it.
pub(crate) struct BackwardRule;

impl Rule for ForwardRule {
    ghost pass = { Forward };

    fn staying(code: &LawfulCode<'_>) -> [bool; POSITIONS] {
        dirty(code)
    }
}

impl Rule for BackwardRule {
    ghost pass = { Backward };

    fn staying(code: &LawfulCode<'_>) -> [bool; POSITIONS] {
        exposed_after(code)
    }
}

// Takes the fences that the rule finds needless in `from` out of `into`, which says the same.
pub(crate) fn apply<R: Rule>(from: &Routine, into: &mut Routine)
    requires { listing into.old ≡ listing from.now }
    ensures { PassedBy R.pass (listing from.now) (listing into.new) }
{
    for (number, party) in from.parties().iter().enumerate() {
        let instructions = party.code();
        into.thin(number, &R::staying(&LawfulCode { instructions }));
    }
}
