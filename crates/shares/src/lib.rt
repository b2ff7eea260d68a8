// The law of fair shares, over every run of a step relation that knows no code. Code that keeps the relation has the law from here.
#![tactic(auto)]

ghost use Rattle.shares.specs.Steps.{Shares};

// Of every run from a new board: flows that wait throughout a stretch share by weight within the limits, tickets count the arrivals,
// and what is sent and what finishes is what an observer of the events expects.
pub fn shares_stand()
    ensures { Shares }
{}
