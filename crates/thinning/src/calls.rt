// What a double run may be asked, and what it answers.
use crate::faults::DoubleFault;
use orders::entries::Entry;

#[derive(Clone, Copy, Debug, PartialEq, Eq)]
pub enum Call {
    // The next entry, for the thinned side.
    Feed(Entry),
    // The end, by the double run's number, once no write waits.
    Close(u16),
    // The end, by the double run's number, at any time.
    Abandon(u16),
}

// One enum and no `Result`: a list of calls has a list of answers, and the theorems go by these four kinds.
#[derive(Clone, Copy, Debug, PartialEq, Eq)]
pub enum Reply {
    Fed,
    Closed,
    // How many steps each of four parties was behind, 0 for one that the routine lacks.
    Abandoned([usize; 4]),
    // Nothing has changed.
    Refused(DoubleFault),
}
