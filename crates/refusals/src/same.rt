// Whether two routines are the same.
ghost use Rattle.std.specs.Prelude.{◌≡◌, ◌↔◌, IsTrue};
ghost use Rattle.routine.specs.Routines.{listing};

use routine::routine::Routine;

// No derive on `Routine`: it would compare the room that its storage keeps as well.
pub(crate) fn same_routine(a: &Routine, b: &Routine) -> bool
    ensures { IsTrue result ↔ (listing a.now ≡ listing b.now) }
{
    a.inits() == b.inits() && a.parties() == b.parties()
}
