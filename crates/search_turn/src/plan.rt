// The decisions as a plan.
ghost use Rattle.std.specs.Prelude.{◌≡◌, take};
ghost use Rattle.search_turn.specs.steps.Seen.{plan_left};

// The decisions of the first choices, as many as there are.
pub(crate) fn front(decisions: &[u8], choices: usize) -> &[u8]
    ensures { result.now ≡ take choices decisions.now }
{
    if decisions.len() < choices {
        return decisions;
    }
    &decisions[0..choices]
}

// The plan that is found, written; where there are fewer decisions than the plan has entries, it stays as it
// was. Byte by byte: `copy_from_slice` would need `memmove`.
pub fn write_plan(decisions: &[u8], plan: &mut [u8])
    ensures { plan.new ≡ plan_left decisions.now plan.old }
{
    if decisions.len() < plan.len() {
        return;
    }
    for (choice, place) in plan.iter_mut().enumerate() {
        *place = decisions[choice];
    }
}
