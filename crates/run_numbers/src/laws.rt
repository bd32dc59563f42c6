//! The laws of the numbers of a run. Each function does nothing: its contract is the laws.
ghost use Rattle.run_numbers.specs.Responses.{CountsAreJobs};
ghost use Rattle.run_numbers.specs.NumberLaws.{FirstIsTold, NoneIsLonger, NumbersAreTallies, OneIsAsLong, TotalIsOfStretches};

/// What a tally counts too is the same number here; the ticks, where a tick has one unit of time.
pub fn law_of_tallies()
    ensures { NumbersAreTallies }
{}

/// The stretches of a condition.
pub fn law_of_stretches()
    // No stretch of places at which a condition holds takes more time.
    ensures none_is_longer { NoneIsLonger }
    // One takes as much.
    ensures one_is_as_long { OneIsAsLong }
    // The place that is told is the first at which such a one begins.
    ensures first_is_told { FirstIsTold }
    // All of them together are the time that finds the condition.
    ensures total { TotalIsOfStretches }
{}

/// No job that ends is left out of the counts of answers, and none that has not ended is counted.
pub fn law_of_responses()
    ensures { CountsAreJobs }
{}
