// The promises, which hold of every thinned routine.
ghost use Rattle.thinning.specs.Examples.{ExamplesHold};
ghost use Rattle.thinning.specs.Promises.{OrdersKept, ThinningAddsNothing, DoubleRunPromise, ReachedGoesOn, AcceptedAsAnswered, FeedsAreCounted};
ghost use Rattle.thinning.specs.Truths.{MereTruthSuffices};

pub fn orders_are_kept()
    ensures { OrdersKept }
{}

pub fn thinning_adds_nothing()
    ensures { ThinningAddsNothing }
{}

pub fn double_runs_keep_their_promise()
    ensures { DoubleRunPromise }
{}

pub fn what_is_reached_goes_on()
    ensures { ReachedGoesOn }
{}

pub fn feeds_are_counted()
    ensures answered { AcceptedAsAnswered }
    ensures counted { FeedsAreCounted }
{}

// What the type of thinned routines says of a value is enough for all of the above.
pub fn mere_truth_suffices()
    ensures { MereTruthSuffices }
{}

// The worked examples come out as they should.
pub fn examples_stand()
    ensures { ExamplesHold }
{}
