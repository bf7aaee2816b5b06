// The memory of the addresses 0 to 255.
ghost use Rattle.std.specs.Prelude.{◌≡◌, replicate, is_some, nat_lt};
ghost use Rattle.memory.specs.Dense.{dense_cells, dense_written};

use crate::memory::Memory;
use crate::refusal::NotHeld;

const SIZE: usize = 256;

#[derive(Drop)]
pub struct Dense {
    words: [u32; SIZE],
}

impl Dense {
    // Every word is 0 at first.
    pub fn new() -> Dense
        ensures { result.words ≡ replicate 256 0 }
    {
        Dense { words: [0; SIZE] }
    }
}

impl Memory for Dense {
    ghost cells = { λ m. dense_cells m.words };

    ghost reads = { λ m _ n. n ≡ m };

    ghost writes = { λ m a w n. n.words ≡ dense_written m.words a w };

    fn holds(&self, address: u16) -> bool
        ensures held { result ≡ is_some (dense_cells self.now.words address) }
        ensures below_256 { result ≡ nat_lt address 256 }
    {
        usize::from(address) < SIZE
    }

    fn read(&mut self, address: u16) -> Result<u32, NotHeld> {
        self.words.get(usize::from(address)).copied().ok_or(NotHeld)
    }

    fn write(&mut self, address: u16, word: u32) -> Result<(), NotHeld> {
        // Not `get_mut`: a proof then knows nothing of the words afterwards but their number.
        // Not `holds`: so an edit of that plants a bug in that alone.
        let i = usize::from(address);
        if i >= SIZE {
            return Err(NotHeld);
        }
        self.words[i] = word;
        Ok(())
    }
}
