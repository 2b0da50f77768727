// The promises of the library in one place. That each public function is tied to its definition is said of the contracts as the checker reads them, and what
// the checker makes no contract can name: `Demand1` is proved in proofs/, and there alone. The other statements stand on the contract of a function, which is
// refused where one of them has no proof.
#![tactic(auto)]

ghost use Rattle.promises.specs.Examples.{Examples};
ghost use Rattle.promises.specs.Demand2.{Demand2};
ghost use Rattle.promises.specs.Demand3.{Demand3};
ghost use Rattle.promises.specs.Ends.{Ends};
ghost use Rattle.promises.specs.Compare.{Compare};
ghost use Rattle.promises.specs.Tally.{Tally};

// It does nothing: what the definitions amount to is its contract.
pub fn hold()
    ensures examples { Examples }
    ensures demand_2 { Demand2 }
    ensures demand_3 { Demand3 }
    ensures ends { Ends }
    ensures compare { Compare }
    ensures tally { Tally }
{}
