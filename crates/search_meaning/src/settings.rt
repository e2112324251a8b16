// What a search is lent beside the day.
use sets_analysis::analysis::Analysis;

// A search's settings: full, or as the Rust; 'analysis off, on, or simplified'; whether to start at the last
// level; and both budgets of turns.
#[derive(Clone, Copy)]
pub struct Settings {
    pub full: bool,
    pub analysis: Analysis,
    pub at_last_level: bool,
    pub pass_budget: u64,
    pub total_budget: u64,
}
