// The refusal of an address.
ghost use Rattle.std.specs.Prelude.{◌≡◌};
ghost use Rattle.memory.specs.Answers.{not_held_number};

// The memory does not hold the address.
#[derive(Clone, Copy, Debug, PartialEq, Eq)]
pub struct NotHeld;

impl NotHeld {
    // A method, since `u8::from` would not say which number it gives.
    pub fn number(&self) -> u8
        ensures { result ≡ not_held_number self.now }
    {
        17
    }
}
