// 'A plan gives each choice a slot or 255 for omitted.'
ghost use Rattle.std.specs.Prelude.{◌≡◌};
ghost use Rattle.plan_check.specs.Plan.{slot_of, omission_allowed};

// The byte of a choice that no slot holds.
pub const OMITTED: u8 = 255;

// A choice's slot, or 255; a choice past the plan's end is omitted.
pub fn slot_of(plan: &[u8], choice: u16) -> u8
    ensures { result ≡ slot_of plan.now choice }
{
    let at = choice as usize;
    if plan.len() <= at {
        return OMITTED;
    }
    plan[at]
}

// 'Omitted needs optional': a byte that names no slot is 255, and its choice optional.
pub fn omission_allowed(place: u8, optional: u8) -> bool
    ensures { result ≡ omission_allowed place optional }
{
    if place != OMITTED {
        return false;
    }
    optional == 1
}
