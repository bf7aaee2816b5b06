// Reading a routine from a text.
ghost use Rattle.std.specs.Prelude.{◌≡◌, OnErr};
ghost use Rattle.grammar.specs.Reads.{read_of};
ghost use Rattle.routine.specs.Fresh.{fresh_listing, ByGrammar};
ghost use Rattle.routine.specs.Joins.{Joined};

use crate::fresh::Fresh;
use grammar::faults::RoutineFault;

// How many bytes a text may have.
pub const LONGEST_TEXT: usize = 8192;

// How many bytes of a file are read: one more, so that a longer one is refused for its length.
pub const MOST_READ: usize = LONGEST_TEXT + 1;

// Reads the text: `into` then holds the routine that it spells, or, at the first fault, the very routine that it held.
// Only passes on, so that a bug that is planted here is refused at these clauses and not in the proofs of `fill`.
pub fn read(text: &[u8], into: &mut Fresh) -> Result<(), RoutineFault>
    ensures reads { Joined result (read_of text.now) (fresh_listing into.new) }
    ensures stays { OnErr result (into.new.routine ≡ into.old.routine) }
    ensures grammar { ByGrammar text.now result into.new }
{
    into.fill(text)
}
