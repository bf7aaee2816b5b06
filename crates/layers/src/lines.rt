// The four lines of a cache.
ghost use Rattle.std.specs.Prelude.{◌≡◌, length};
ghost use Rattle.layers.specs.Lines.{Placed, empty_lines, line_of, lined, word_in};

use memory::cell::Cell;

// An address uses the line of its remainder by 4; a line is empty, or has such an address and its word.
#[derive(Drop)]
pub(crate) struct Lines {
    slots: [Option<Cell>; 4],
    ghost four: { length slots ≡ 4 },
    ghost placed: { Placed slots },
}

impl Lines {
    // All four are empty.
    pub(crate) fn new() -> Lines
        ensures { result.slots ≡ empty_lines }
    {
        Lines { slots: [None; 4] }
    }

    // The word of the address, if its line has it.
    pub(crate) fn find(&self, address: u16) -> Option<u32>
        ensures { result ≡ word_in (line_of self.now.slots address) address }
    {
        // A match, and an assignment in `replace`: by `filter`, `map` and `Option::replace` calls of a cache on a cache take
        // a quarter longer.
        let slot = self.slots[usize::from(address % 4)];
        match slot {
            Some(line) if line.address == address => Some(line.word),
            _ => None,
        }
    }

    // Puts the address and its word into its line: what the line had before.
    // The two come apart and not as a cell, as in a write to a memory.
    pub(crate) fn replace(&mut self, address: u16, word: u32) -> Option<Cell>
        ensures before { result ≡ line_of self.old.slots address }
        ensures after { self.new.slots ≡ lined self.old.slots address word }
    {
        let i = usize::from(address % 4);
        let before = self.slots[i];
        self.slots[i] = Some(Cell { address, word });
        before
    }
}
