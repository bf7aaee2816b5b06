// The memory of a few cells, which are handed in as it is made.
ghost use Rattle.std.specs.Prelude.{◌≡◌, ◌≤◌, ◌==◌, ℕ, Some, false, is_some, position, vec_len, IfOk};
ghost use Rattle.memory.specs.Cells.{put};
ghost use Rattle.memory.specs.Pairs.{named, rewritten, told, twice, unfit};

use crate::cell::Cell;
use crate::memory::Memory;
use crate::refusal::NotHeld;
use crate::unfit::{Unfit, UnfitPairs};

const MOST: usize = 32;

// At most 32 cells, and no address twice. They stay in the Vec that was handed in, since a map would want memory.
#[derive(Drop)]
pub struct Sparse {
    pairs: Vec<Cell>,
    ghost few: { vec_len pairs ≤ 32 },
    ghost once: { twice pairs.items ≡ false },
}

// Does a cell of the address stand among them?
fn names(pairs: &[Cell], address: u16) -> bool
    ensures { result ≡ named pairs.now address }
{
    pairs.iter().any(|pair| pair.address == address)
}

// Does an address stand twice? By recursion, as the definition goes: at most 32 deep, since the length is asked first.
fn repeats(pairs: &[Cell]) -> bool
    ensures { result ≡ twice pairs.now }
{
    match pairs {
        [] => false,
        [first, rest @ ..] => names(rest, first.address) || repeats(rest),
    }
}

// Why the cells make no memory, if they make none.
fn unfit(pairs: &[Cell]) -> Option<Unfit>
    ensures { result ≡ unfit pairs.now }
{
    if pairs.len() > MOST {
        Some(Unfit::TooMany)
    } else if repeats(pairs) {
        Some(Unfit::Twice)
    } else {
        None
    }
}

impl Sparse {
    ghost use Rattle.memory.specs.Sparse.{Made};

    #[tactic(auto, using(crate::proofs::Places::told_named))]
    pub fn new(pairs: Vec<Cell>) -> Result<Sparse, UnfitPairs>
        ensures made { Made pairs result }
        ensures holds { IfOk result
            (λ s. (a : ℕ) → is_some (told s.pairs.items a) ≡ named pairs.items a) }
    {
        match unfit(&pairs) {
            Some(unfit) => Err(UnfitPairs { pairs, unfit }),
            None => Ok(Sparse { pairs }),
        }
    }

    // The word of the first cell of the address.
    fn look_up(&self, address: u16) -> Option<u32>
        ensures { result ≡ told self.now.pairs.items address }
    {
        self.pairs
            .iter()
            .find(|pair| pair.address == address)
            .map(|pair| pair.word)
    }

    // The place of the first cell of the address.
    fn place_of(&self, address: u16) -> Option<usize>
        ensures { result ≡ position (λ p. p.address == address) self.now.pairs.items }
    {
        self.pairs.iter().position(|pair| pair.address == address)
    }

    // Puts the word into the first cell of the address, which stands at that place: the address is for the clauses alone.
    // Not by `iter_mut().find(..)`: a proof then knows nothing of the cells afterwards but their number.
    #[tactic(auto, using(crate::proofs::Places::writes))]
    fn rewrite(&mut self, place: usize, address: u16, word: u32)
        requires { position (λ p. p.address == address) self.old.pairs.items ≡ Some place }
        ensures cells { self.new.pairs.items ≡ rewritten self.old.pairs.items address word }
        ensures means { told self.new.pairs.items ≡ put (told self.old.pairs.items) address word }
    {
        self.pairs[place].word = word;
    }
}

impl Memory for Sparse {
    ghost cells = { λ m. told m.pairs.items };

    ghost reads = { λ m _ n. n ≡ m };

    ghost writes = { λ m a w n. n.pairs.items ≡ rewritten m.pairs.items a w };

    #[tactic(auto, using(crate::proofs::Places::told_named))]
    fn holds(&self, address: u16) -> bool
        ensures held { result ≡ is_some (told self.now.pairs.items address) }
        ensures named { result ≡ named self.now.pairs.items address }
    {
        names(&self.pairs, address)
    }

    fn read(&mut self, address: u16) -> Result<u32, NotHeld> {
        self.look_up(address).ok_or(NotHeld)
    }

    #[tactic(auto, using(crate::proofs::Places::writes))]
    fn write(&mut self, address: u16, word: u32) -> Result<(), NotHeld> {
        let Some(place) = self.place_of(address) else {
            return Err(NotHeld);
        };
        self.rewrite(place, address, word);
        Ok(())
    }
}
