// The walk over the starts of a day's plans: what it carries along, the place that it goes to next, and the
// walk itself, which goes on only from starts that it sees a chance for, and stops at the page's end or when
// turns run out.
#![tactic(auto)]

pub mod all;
pub mod next;
pub mod stand;
pub mod walk;
