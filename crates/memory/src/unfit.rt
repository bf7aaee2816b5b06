// Why cells make no sparse memory.
ghost use Rattle.std.specs.Prelude.{◌≡◌};
ghost use Rattle.memory.specs.Pairs.{unfit_number};

use crate::cell::Cell;

#[derive(Clone, Copy, Debug, PartialEq, Eq)]
pub enum Unfit {
    // There are more than 32.
    TooMany,
    // An address stands twice.
    Twice,
}

impl Unfit {
    // A method, since `u8::from` would not say which number it gives. An arm for each case, as the definition has.
    pub fn number(&self) -> u8
        ensures { result ≡ unfit_number self.now }
    {
        match self {
            Unfit::TooMany => 18,
            Unfit::Twice => 18,
        }
    }
}

// The cells that were handed in come back with the refusal.
#[derive(Debug, PartialEq, Eq, Drop)]
pub struct UnfitPairs {
    pub pairs: Vec<Cell>,
    pub unfit: Unfit,
}
