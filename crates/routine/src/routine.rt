// A routine within its limits.
ghost use Rattle.std.specs.Prelude.{◌≡◌, true, map, IfOk};
ghost use Rattle.grammar.specs.Listings.{lawful, addresses_of};
ghost use Rattle.routine.specs.Addresses.{noted_list};
ghost use Rattle.routine.specs.Parties.{code_of};
ghost use Rattle.routine.specs.Storages.{listing_of, IsComplete};
ghost use Rattle.routine.specs.Thins.{marked, thinned_at};

use crate::party::Party;
use crate::room::Room;
use crate::storage::Storage;
use instructions::types::{Init, Instruction};
use std::alloc::{AllocError, Global};
use std::mem;

// Every routine that exists keeps the limits, and knows the addresses that it names: the two facts of `IsComplete`,
// each by its name, since other crates cite the first alone.
#[derive(Drop)]
pub struct Routine {
    storage: Storage,
    ghost within_limits: { lawful (listing_of storage) ≡ true },
    ghost knows_addresses: { noted_list storage.addresses ≡ addresses_of (listing_of storage) },
}

impl Routine {
    ghost use Rattle.routine.specs.Routines.{listing, one_nop};

    // One party with one NOP.
    pub(crate) fn one_nop(heap: Global) -> Result<Routine, AllocError>
        ensures { IfOk result (λ q. listing q ≡ one_nop) }
    {
        let mut storage = Storage::new(heap)?;
        storage.add_party(&[Instruction::Nop]);
        Ok(Routine { storage })
    }

    // The INIT lines, by rising address.
    pub fn inits(&self) -> &[Init]
        ensures { result.now ≡ (listing self.now).inits }
    {
        self.storage.inits()
    }

    pub fn parties(&self) -> &[Party]
        ensures { map code_of result.now ≡ (listing self.now).parties }
    {
        self.storage.parties()
    }

    // The different addresses that its INIT lines and instructions name, rising.
    pub fn addresses(&self) -> &[u16]
        ensures { result.now ≡ addresses_of (listing self.now) }
    {
        self.storage.addresses()
    }

    // Takes over storage that holds another lawful routine, and gives its own for it.
    pub(crate) fn exchange(&mut self, storage: &mut Storage)
        requires { IsComplete storage.old }
        ensures { listing self.new ≡ listing_of storage.old }
    {
        mem::swap(&mut self.storage, storage);
    }

    // Its room, for another use.
    pub(crate) fn into_room(self) -> Room {
        Room(self.storage)
    }

    // A copy of it, in that room.
    pub fn copy_in(&self, room: Room) -> Routine
        ensures { listing result ≡ listing self.now }
    {
        let Room(mut storage) = room;
        storage.copy(&self.storage);
        Routine { storage }
    }

    // Each MFENCE of the party becomes NOP where no mark says that it stays; without such a party nothing changes.
    pub fn thin(&mut self, party: usize, stays: &[bool])
        ensures { listing self.new ≡ thinned_at party (marked stays.now) (listing self.old) }
    {
        self.storage.thin(party, stays);
    }
}
