// Laws of the machine.
ghost use Rattle.tso.specs.Entries.{RefusedChangesNothing, AcceptedChangesOneParty, RefusesExactly, AnsweredOnce};
ghost use Rattle.tso.specs.Outcomes.{AddressesAreNamed, MovesOnNamedWords, OpensAtStartingWords, OutcomeByNamedWords, RunsAsAnswered, TouchesHeldWords};
ghost use Rattle.tso.specs.Tso.{ExchangesAsLocked, MovesAsTso, RunsAsTso};

pub fn tso_stands()
    ensures moves { MovesAsTso }
    ensures runs { RunsAsTso }
    ensures exchanges { ExchangesAsLocked }
{}

pub fn entries_stand()
    ensures refused { RefusedChangesNothing }
    ensures accepted { AcceptedChangesOneParty }
    ensures exactly { RefusesExactly }
    ensures once { AnsweredOnce }
{}

pub fn outcomes_stand()
    ensures answered { RunsAsAnswered }
    ensures named { AddressesAreNamed }
    ensures opens { OpensAtStartingWords }
    ensures held { TouchesHeldWords }
    ensures moves { MovesOnNamedWords }
    ensures outcome { OutcomeByNamedWords }
{}
