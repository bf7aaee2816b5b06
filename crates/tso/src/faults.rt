// Why an entry is refused.
ghost use Rattle.std.specs.Prelude.{◌≡◌};
ghost use Rattle.tso.specs.Faults.{entry_number};

#[derive(Clone, Copy, Debug, PartialEq, Eq)]
pub enum EntryFault {
    // The routine has no such party.
    NoParty,
    // The party is at its end.
    AtEnd,
    // As many writes wait as may: no store.
    BufferFull,
    // A write waits: no fence and no exchange.
    BufferNotEmpty,
    // No write waits: nothing to drain.
    BufferEmpty,
}

impl EntryFault {
    // A method, since `u8::from` would not say which number it gives.
    pub fn number(self) -> u8
        ensures { result ≡ entry_number self }
    {
        match self {
            EntryFault::NoParty => 20,
            EntryFault::AtEnd => 21,
            EntryFault::BufferFull => 22,
            EntryFault::BufferNotEmpty => 23,
            EntryFault::BufferEmpty => 24,
        }
    }
}
