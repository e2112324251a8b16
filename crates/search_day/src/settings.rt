// The settings of a full search.
ghost use Rattle.std.specs.Prelude.{◌≡◌};
ghost use Rattle.search_day.specs.Planning.{full_settings};

use search_meaning::settings::Settings;
use sets_analysis::analysis::Analysis;

// The settings that a day is planned with: 'analysis off, on, or simplified'; whether to start at the last
// level; and both budgets of turns.
#[derive(Clone, Copy)]
pub struct PlanSettings {
    pub analysis: Analysis,
    pub at_last_level: bool,
    pub pass_budget: u64,
    pub total_budget: u64,
}

// The settings of a full search, with the rest as it is lent.
pub(crate) fn full_by(settings: PlanSettings) -> Settings
    ensures { result ≡ full_settings settings }
{
    Settings {
        full: true,
        analysis: settings.analysis,
        at_last_level: settings.at_last_level,
        pass_budget: settings.pass_budget,
        total_budget: settings.total_budget,
    }
}
