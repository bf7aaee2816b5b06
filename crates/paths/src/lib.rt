// Paths through a party's code, and the two rules by which fences are needless.

#![tactic(auto)]

ghost use Rattle.paths.specs.Examples.{ExamplesHold};
ghost use Rattle.paths.specs.Marks.{MarksDecide};

// Marks that are closed and each have a path decide the rules exactly.
pub fn marks_stand()
    ensures { MarksDecide }
{}

// The worked examples come out as they should.
pub fn examples_stand()
    ensures { ExamplesHold }
{}
