//! The steps from outside that are to come.
ghost use Rattle.std.specs.Prelude.{◌≡◌, ◌<◌, drop, length, slice_get, true};
ghost use Rattle.settled_runs.specs.SettleLaws.{comes_from_outside};
ghost use Rattle.kept_runs.specs.Rule.{outside_after, rest_of};

use bench_types::Step;
use kept_runs::Outside;

/// The steps from outside, of which so many have come.
#[derive(Debug, Drop)]
pub(crate) struct Comings {
    pub(crate) steps: Vec<Outside>,
    pub(crate) come: usize,
}

// What is left of the step where a part of it was made.
fn rest_of(made: &Step, step: &Step) -> Option<Outside>
    ensures { result ≡ slice_get (rest_of made.now step.now) 0 }
{
    match (*made, *step) {
        (Step::Pass { units: made }, Step::Pass { units }) if made < units => {
            let step = Step::Pass {
                units: units - made,
            };
            Some(Outside {
                step,
                joined: false,
            })
        }
        _ => None,
    }
}

impl Comings {
    /// The next one.
    pub(crate) fn next(&self) -> Option<Outside>
        ensures { result ≡ slice_get (drop self.now.come self.now.steps.items) 0 }
    {
        self.steps.get(self.come).copied()
    }

    /// A step from outside was made: the next one, or a part of it.
    pub(crate) fn come(&mut self, made: &Step)
        requires outside { comes_from_outside made.now ≡ true }
        requires more { self.old.come < length self.old.steps.items }
        ensures { drop self.new.come self.new.steps.items
            ≡ outside_after made.now (drop self.old.come self.old.steps.items) }
    {
        match rest_of(made, &self.steps[self.come].step) {
            Some(rest) => self.steps[self.come] = rest,
            None => self.come += 1,
        }
    }
}
