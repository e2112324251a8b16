// A chooser's set at a level: 'the set of choices with preference <= level', with its sum of min.
ghost use Rattle.std.specs.Prelude.{◌≡◌, ◌+◌, ◌≤◌, length};
ghost use Rattle.sets_analysis.specs.steps.Pools.{Looked};

use base_choice_sets::set::with;

// A chooser's set at a level, before it is kept or skipped.
#[derive(Clone, Copy)]
pub(crate) struct Candidate {
    pub(crate) members: u64,
    pub(crate) min_sum: u32,
}

// A chooser's set: the choices whose preference, from a start of the list on, is at most the level, with
// their min summed along the way.
pub(crate) fn candidate_of(level: u16, mins: &[u16], preferences: &[u16], start: usize) -> Candidate
    requires { (length mins.now ≤ 64) × (start + length mins.now ≤ length preferences.now) }
    ensures { let choices = length mins.now in
        Looked level start mins.now preferences.now result.members result.min_sum choices }
{
    let mut members = 0;
    let mut min_sum = 0;
    for (choice, min) in mins.iter().enumerate() {
        if level < preferences[start + choice] {
            continue;
        }
        members = with(members, choice);
        min_sum += u32::from(*min);
    }
    Candidate { members, min_sum }
}
