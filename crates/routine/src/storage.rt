// Room for one routine of the greatest size, so that filling it never wants memory.
ghost use Rattle.std.specs.Prelude.{◌≡◌, ◌+◌, ◌<◌, ◌≤◌, [], ◌∷◌, ◌++◌, length, vec_len, vec_capacity, IfOk};
ghost use Rattle.grammar.specs.Listings.{addresses_of};
ghost use Rattle.grammar.specs.Reads.{above};
ghost use Rattle.routine.specs.Addresses.{noted_list, Notes};
ghost use Rattle.routine.specs.Joins.{Joined};
ghost use Rattle.routine.specs.Parties.{code_of};
ghost use Rattle.routine.specs.Thins.{marked, thinned_at};

use crate::addresses::Addresses;
use crate::party::Party;
use crate::refill::refill;
use grammar::faults::RoutineFault;
use instructions::types::{Init, Instruction};
use std::alloc::{AllocError, Global};

const MOST_INITS: usize = 16;

pub(crate) const MOST_PARTIES: usize = 4;

#[derive(Drop)]
pub struct Storage {
    inits: Vec<Init>,
    parties: Vec<Party>,
    // Parties out of use, kept so that only `new` wants memory; with those in use they are four.
    unused: Vec<Party>,
    addresses: Addresses,
    ghost init_room: { 16 ≤ vec_capacity inits },
    ghost few_inits: { vec_len inits ≤ 16 },
    ghost party_room: { 4 ≤ vec_capacity parties },
    ghost unused_room: { 4 ≤ vec_capacity unused },
    ghost four: { vec_len parties + vec_len unused ≡ 4 },
}

fn four_parties(heap: Global) -> Result<Vec<Party>, AllocError>
    ensures { IfOk result (λ v. (vec_len v ≡ 4) × (4 ≤ vec_capacity v)) }
{
    let mut parties = Vec::with_capacity(heap, MOST_PARTIES)?;
    for _ in 0..MOST_PARTIES {
        let party = Party::new(heap)?;
        parties.push(party)?;
    }
    Ok(parties)
}

// Whether the address is above that of the last INIT line.
fn is_above(address: u16, inits: &[Init]) -> bool
    ensures { result ≡ above address inits.now }
{
    inits.last().is_none_or(|last| last.address < address)
}

impl Storage {
    ghost use Rattle.routine.specs.Storages.{inits_of, parties_of, listing_of, init_joins, IsComplete};

    // No INIT line and no party yet.
    pub(crate) fn new(heap: Global) -> Result<Storage, AllocError>
        ensures inits { IfOk result (λ s. inits_of s ≡ []) }
        ensures parties { IfOk result (λ s. parties_of s ≡ []) }
        ensures addresses { IfOk result (λ s. noted_list s.addresses ≡ []) }
    {
        let inits = Vec::with_capacity(heap, MOST_INITS)?;
        let parties = Vec::with_capacity(heap, MOST_PARTIES)?;
        let unused = four_parties(heap)?;
        let addresses = Addresses::new(heap)?;
        Ok(Storage {
            inits,
            parties,
            unused,
            addresses,
        })
    }

    pub(crate) fn clear(&mut self)
        ensures inits { inits_of self.new ≡ [] }
        ensures parties { parties_of self.new ≡ [] }
    {
        self.inits.clear();
        // There is room for all four, so this cannot fail.
        let _ = self.unused.append(&mut self.parties);
    }

    // One INIT line more.
    pub(crate) fn add_init(&mut self, init: Init, line: usize) -> Result<(), RoutineFault>
        ensures inits { Joined result (init_joins init line (inits_of self.old)) (inits_of self.new) }
        ensures parties { parties_of self.new ≡ parties_of self.old }
    {
        if !is_above(init.address, self.inits.as_slice()) {
            return Err(RoutineFault::Order { line });
        }
        if self.inits.len() >= MOST_INITS {
            return Err(RoutineFault::Room { line });
        }
        self.inits.push_reserved(init);
        Ok(())
    }

    // One party more, with these instructions, in the room of an unused one. There is one: with those in use they are four.
    pub(crate) fn add_party(&mut self, code: &[Instruction])
        requires room { length (parties_of self.old) < 4 }
        requires few { length code.now ≤ 32 }
        ensures parties { parties_of self.new ≡ parties_of self.old ++ (code.now ∷ []) }
        ensures inits { inits_of self.new ≡ inits_of self.old }
        ensures addresses { self.new.addresses ≡ self.old.addresses }
    {
        if let Some(mut party) = self.unused.pop() {
            party.copy(code);
            self.parties.push_reserved(party);
        }
    }

    pub(crate) fn inits(&self) -> &[Init]
        ensures { result.now ≡ inits_of self.now }
    {
        self.inits.as_slice()
    }

    pub(crate) fn parties(&self) -> &[Party]
        ensures { result.now ≡ self.now.parties.items }
    {
        self.parties.as_slice()
    }

    pub(crate) fn addresses(&self) -> &[u16]
        ensures { result.now ≡ noted_list self.now.addresses }
    {
        self.addresses.list()
    }

    // Notes the addresses that are named, if they are at most 32.
    pub(crate) fn note_addresses(&mut self) -> Result<(), RoutineFault>
        ensures noted { Notes result (addresses_of (listing_of self.old)) self.new.addresses }
        ensures same { listing_of self.new ≡ listing_of self.old }
    {
        self.addresses.clear();
        self.addresses.note_inits(self.inits.as_slice())?;
        self.addresses.note_parties(self.parties.as_slice())
    }

    // What the other storage holds, in place of its own.
    pub(crate) fn copy(&mut self, other: &Storage)
        ensures listing { listing_of self.new ≡ listing_of other.now }
        ensures addresses { noted_list self.new.addresses ≡ noted_list other.now.addresses }
    {
        self.clear();
        refill(&mut self.inits, other.inits());
        for party in other.parties() {
            self.add_party(party.code());
        }
        self.addresses.copy(&other.addresses);
    }

    // Thins the party, if there is one; the limits and the addresses stay.
    pub(crate) fn thin(&mut self, party: usize, stays: &[bool])
        ensures listing { listing_of self.new ≡ thinned_at party (marked stays.now) (listing_of self.old) }
        ensures complete { IsComplete self.old → IsComplete self.new }
    {
        if let Some(party) = self.parties.get_mut(party) {
            party.thin(stays);
        }
    }
}
