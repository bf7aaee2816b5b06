// A memory that shows the one below from a distance on.
ghost use Rattle.std.specs.Prelude.{◌≡◌, ◌+◌, ◌≤◌, ◌↔◌, ◌&&◌, IfOk, IsOk, is_some, nat_le};
ghost use Rattle.layers.specs.Offsets.{Through, shifted};

use memory::memory::Memory;
use memory::refusal::NotHeld;

// The address a stands for a + distance below, and for none where that is above 65,535.
#[derive(Drop)]
pub struct Offset<M> {
    below: M,
    distance: u16,
}

impl<M: Memory> Offset<M> {
    pub fn new(below: M, distance: u16) -> Offset<M>
        ensures { (result.below ≡ below) × (result.distance ≡ distance) }
    {
        Offset { below, distance }
    }

    // The memory below, as it stands. A trait for both layers would have one method, and nothing takes either layer.
    pub fn into_below(self) -> M
        ensures { result ≡ self.below }
    {
        let Offset { below, .. } = self;
        below
    }

    // The address below that the address stands for.
    fn place(&self, address: u16) -> Result<u16, NotHeld>
        ensures held { IsOk result ↔ (address + self.now.distance ≤ 65535) }
        ensures place { IfOk result (λ p. p ≡ address + self.now.distance) }
    {
        address.checked_add(self.distance).ok_or(NotHeld)
    }
}

impl<M: Memory> Memory for Offset<M> {
    ghost cells = { λ m. shifted (M.cells m.below) m.distance };

    ghost reads = { λ m a n. Through (λ b k l. M.reads k b l) m a n };

    ghost writes = { λ m a w n. Through (λ b k l. M.writes k b w l) m a n };

    fn holds(&self, address: u16) -> bool
        ensures held { result ≡ is_some (shifted (M.cells self.now.below) self.now.distance address) }
        ensures below { result ≡ (nat_le (address + self.now.distance) 65535
            && is_some (M.cells self.now.below (address + self.now.distance))) }
    {
        self.place(address)
            .is_ok_and(|place| self.below.holds(place))
    }

    fn read(&mut self, address: u16) -> Result<u32, NotHeld> {
        let place = self.place(address)?;
        self.below.read(place)
    }

    fn write(&mut self, address: u16, word: u32) -> Result<(), NotHeld> {
        let place = self.place(address)?;
        self.below.write(place, word)
    }
}
