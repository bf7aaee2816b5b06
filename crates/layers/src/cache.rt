// A cache of four lines of one word over any memory.
ghost use Rattle.std.specs.Prelude.{◌≡◌, None, OnErr, is_some};
ghost use Rattle.memory.specs.Answers.{read_answer, written};
ghost use Rattle.memory.specs.Cells.{put};
ghost use Rattle.layers.specs.Caches.{CacheRead, CacheWritten, WrittenDown, cache_cells};
ghost use Rattle.layers.specs.Lines.{empty_lines, line_of, lined, word_in};

use crate::lines::Lines;
use memory::memory::Memory;
use memory::refusal::NotHeld;

#[derive(Drop)]
pub struct Cache<M> {
    below: M,
    lines: Lines,
}

impl<M: Memory> Cache<M> {
    // All lines are empty at first, so the cache means what the memory below means.
    pub fn new(below: M) -> Cache<M>
        ensures itself { (result.below ≡ below) × (result.lines.slots ≡ empty_lines) }
        ensures means { cache_cells M.cells result ≡ M.cells below }
    {
        Cache {
            below,
            lines: Lines::new(),
        }
    }

    // The memory below, as it stands: the lines are not written down. No trait for both layers, as `Offset` says.
    pub fn into_below(self) -> M
        ensures { result ≡ self.below }
    {
        let Cache { below, .. } = self;
        below
    }

    // Lets the address take its line over, which has another one or none: that is written down.
    fn take_over(&mut self, address: u16, word: u32)
        requires { word_in (line_of self.old.lines.slots address) address ≡ None }
        ensures written { WrittenDown M.writes (line_of self.old.lines.slots address)
            self.old.below self.new.below }
        ensures line { self.new.lines.slots ≡ lined self.old.lines.slots address word }
        ensures means { cache_cells M.cells self.new
            ≡ put (cache_cells M.cells self.old) address word }
    {
        if let Some(line) = self.lines.replace(address, word) {
            // A line whose address is not held below counts for nothing, so a refusal loses nothing.
            let _ = self.below.write(line.address, line.word);
        }
    }

    // Reads the address, which is not in its line, and puts it there.
    fn load(&mut self, address: u16) -> Result<u32, NotHeld>
        requires { word_in (line_of self.old.lines.slots address) address ≡ None }
        ensures answer { result ≡ read_answer (cache_cells M.cells self.old address) }
        ensures means { cache_cells M.cells self.new ≡ cache_cells M.cells self.old }
        ensures itself { CacheRead M.cells M.reads M.writes self.old address self.new }
        ensures unchanged { OnErr result (self.new ≡ self.old) }
    {
        let word = self.below.read(address)?;
        self.take_over(address, word);
        Ok(word)
    }

    // Puts the word into the address's line, once the address is there.
    fn store(&mut self, address: u16, word: u32) -> Result<(), NotHeld>
        ensures answer { result ≡ written (cache_cells M.cells self.old address) }
        ensures means { cache_cells M.cells self.new
            ≡ put (cache_cells M.cells self.old) address word }
        ensures itself { CacheWritten M.cells M.reads M.writes self.old address word self.new }
        ensures unchanged { OnErr result (self.new ≡ self.old) }
    {
        self.read(address)?;
        self.lines.replace(address, word);
        Ok(())
    }
}

impl<M: Memory> Memory for Cache<M> {
    ghost cells = { λ c. cache_cells M.cells c };

    ghost reads = { λ c a d. CacheRead M.cells M.reads M.writes c a d };

    ghost writes = { λ c a w d. CacheWritten M.cells M.reads M.writes c a w d };

    fn holds(&self, address: u16) -> bool
        ensures held { result ≡ is_some (cache_cells M.cells self.now address) }
        ensures below { result ≡ is_some (M.cells self.now.below address) }
    {
        self.below.holds(address)
    }

    // A line counts only where its address is held below, so that is asked first. After it the address is in its line.
    // Not by the cache's own `holds`: so an edit of that plants a bug in that alone.
    fn read(&mut self, address: u16) -> Result<u32, NotHeld> {
        if !self.below.holds(address) {
            return Err(NotHeld);
        }
        match self.lines.find(address) {
            Some(word) => Ok(word),
            None => self.load(address),
        }
    }

    // Only passes on, so that a bug that is planted here is refused at these clauses and not in the proofs of `store`.
    fn write(&mut self, address: u16, word: u32) -> Result<(), NotHeld> {
        self.store(address, word)
    }
}
