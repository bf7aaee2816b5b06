// What may happen next. The number of a party may be any: whether the routine has such a party is asked later.
#[derive(Clone, Copy, Debug, PartialEq, Eq)]
pub enum Entry {
    // The party performs the instruction at its position.
    Step(usize),
    // The oldest waiting write of the party leaves its store buffer for memory.
    Drain(usize),
}
