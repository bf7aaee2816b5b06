// Why a double run refuses a call.
ghost use Rattle.std.specs.Prelude.{◌≡◌};
ghost use Rattle.thinning.specs.Faults.{double_number};

use tso::faults::EntryFault;

#[derive(Clone, Copy, Debug, PartialEq, Eq)]
pub enum DoubleFault {
    // The thinned side refuses the entry.
    Entry(EntryFault),
    // As many entries are accepted as may be.
    Limit,
    // The double run has ended.
    Ended,
    // The number is not the double run's.
    Tag,
    // A write still waits on the thinned side: no close.
    Waiting,
}

impl DoubleFault {
    // A method, since `u8::from` would not say which number it gives.
    pub fn number(self) -> u8
        ensures { result ≡ double_number self }
    {
        match self {
            DoubleFault::Entry(fault) => fault.number(),
            DoubleFault::Limit => 25,
            DoubleFault::Ended => 26,
            DoubleFault::Tag => 27,
            DoubleFault::Waiting => 28,
        }
    }
}
