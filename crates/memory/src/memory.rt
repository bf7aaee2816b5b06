// What a memory is.
ghost use Rattle.std.specs.Prelude.{◌≡◌, ℕ, is_some, OnErr};
ghost use Rattle.memory.specs.Answers.{read_answer, written};
ghost use Rattle.memory.specs.Cells.{Cells, put};

use crate::refusal::NotHeld;

// A memory means its cells. A refused call leaves the memory itself as it was.
pub trait Memory {
    ghost cells: { Self → Cells };

    // What a read at an address makes of the memory itself, and what a write of a word there does.
    ghost reads: { Self → ℕ → Self → Type 0 };

    ghost writes: { Self → ℕ → ℕ → Self → Type 0 };

    fn holds(&self, address: u16) -> bool
        ensures { result ≡ is_some (cells self.now address) };

    fn read(&mut self, address: u16) -> Result<u32, NotHeld>
        ensures answer { result ≡ read_answer (cells self.old address) }
        ensures means { cells self.new ≡ cells self.old }
        ensures itself { reads self.old address self.new }
        ensures unchanged { OnErr result (self.new ≡ self.old) };

    // The address and the word come apart and not as a cell, as a read has the address alone.
    fn write(&mut self, address: u16, word: u32) -> Result<(), NotHeld>
        ensures answer { result ≡ written (cells self.old address) }
        ensures means { cells self.new ≡ put (cells self.old) address word }
        ensures itself { writes self.old address word self.new }
        ensures unchanged { OnErr result (self.new ≡ self.old) };
}
