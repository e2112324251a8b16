// The shape of a day and its plan.
ghost use Rattle.std.specs.Prelude.{◌≡◌};
ghost use Rattle.plan_check.specs.Day.{day_lent};
ghost use Rattle.plan_check.specs.Feasible.{shapes_fit};

use plan_check::day::Day;

// Whether C and S are within their limits, and each list has an entry for each choice.
pub fn shapes_fit(day: &Day, plan: &[u8]) -> bool
    ensures { result ≡ shapes_fit (day_lent day.now) plan.now }
{
    let choices = day.counts.choices;
    if 64 < choices {
        return false;
    }
    if 24 < day.counts.slots {
        return false;
    }
    if day.mins.len() != choices {
        return false;
    }
    if day.maxs.len() != choices {
        return false;
    }
    if day.optional.len() != choices {
        return false;
    }
    plan.len() == choices
}
