// The different addresses of a routine, rising.
ghost use Rattle.std.specs.Prelude.{◌≡◌, ◌≤◌, [], map, vec_len, vec_capacity, IfOk, OnErr};
ghost use Rattle.std.specs.List.Sorted.{IsStrictlyIncreasing};
ghost use Rattle.std.specs.Option.{option_to_list};
ghost use Rattle.grammar.specs.Listings.{noted, noted_inits, noted_in, noted_code, noted_parties, address_in};

use crate::party::Party;
use crate::refill::refill;
use grammar::faults::RoutineFault;
use instructions::types::{Init, Instruction};
use std::alloc::{AllocError, Global};

const MOST_ADDRESSES: usize = 32;

// A routine names at most 32. They stay a sorted Vec: a set would want memory while reading.
#[derive(Drop)]
pub struct Addresses {
    list: Vec<u16>,
    ghost room: { 32 ≤ vec_capacity list },
    ghost few: { vec_len list ≤ 32 },
    ghost rising: { IsStrictlyIncreasing list.items },
}

fn address_in(instruction: Instruction) -> Option<u16>
    ensures { option_to_list result ≡ address_in instruction }
{
    match instruction {
        Instruction::Load(_, address)
        | Instruction::Store(address, _)
        | Instruction::Exchange(_, address) => Some(address),
        _ => None,
    }
}

impl Addresses {
    ghost use Rattle.routine.specs.Addresses.{noted_list, Notes};
    ghost use Rattle.routine.specs.Parties.{code_of};

    pub(crate) fn new(heap: Global) -> Result<Addresses, AllocError>
        ensures { IfOk result (λ a. noted_list a ≡ []) }
    {
        let list = Vec::with_capacity(heap, MOST_ADDRESSES)?;
        Ok(Addresses { list })
    }

    pub(crate) fn list(&self) -> &[u16]
        ensures { result.now ≡ noted_list self.now }
    {
        self.list.as_slice()
    }

    pub(crate) fn clear(&mut self)
        ensures { noted_list self.new ≡ [] }
    {
        self.list.clear();
    }

    // Those of another routine, in place of its own.
    pub(crate) fn copy(&mut self, other: &Addresses)
        ensures { noted_list self.new ≡ noted_list other.now }
    {
        refill(&mut self.list, other.list());
    }

    // Notes the address in its place, once, unless it would be the 33rd.
    fn note(&mut self, address: u16) -> Result<(), RoutineFault>
        ensures noted { Notes result (noted address (noted_list self.old)) self.new }
        ensures refused { OnErr result (noted_list self.new ≡ noted_list self.old) }
    {
        if let Err(place) = self.list.binary_search(&address) {
            if self.list.len() >= MOST_ADDRESSES {
                return Err(RoutineFault::Addresses);
            }
            // There is room, so this cannot fail.
            let _ = self.list.insert(place, address);
        }
        Ok(())
    }

    // Notes the addresses of INIT lines. A loop of its own beside that over parties: an INIT line has one address, a
    // party a code of them.
    pub(crate) fn note_inits(&mut self, inits: &[Init]) -> Result<(), RoutineFault>
        ensures { Notes result (noted_inits inits.now (noted_list self.old)) self.new }
    {
        for init in inits {
            self.note(init.address)?;
        }
        Ok(())
    }

    // Notes the addresses of instructions.
    fn note_code(&mut self, code: &[Instruction]) -> Result<(), RoutineFault>
        ensures { Notes result (noted_code code.now (noted_list self.old)) self.new }
    {
        for instruction in code {
            if let Some(address) = address_in(*instruction) {
                self.note(address)?;
            }
        }
        Ok(())
    }

    // Notes the addresses of parties.
    pub(crate) fn note_parties(&mut self, parties: &[Party]) -> Result<(), RoutineFault>
        ensures { Notes result (noted_parties (map code_of parties.now) (noted_list self.old)) self.new }
    {
        for party in parties {
            self.note_code(party.code())?;
        }
        Ok(())
    }
}
