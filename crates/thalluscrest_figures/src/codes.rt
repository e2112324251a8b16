// Flags and settings by their numbers.
ghost use Rattle.std.specs.Prelude.{◌≡◌};
ghost use Rattle.thalluscrest_figures.specs.Codes.{yes, analysis_by, settings_by};
ghost use Rattle.thalluscrest_figures.specs.Layouts.{flag};

use search_meaning::settings::Settings;
use sets_analysis::analysis::Analysis;

// A flag as a figure: yes is 1, no is 0.
pub fn as_figure(test: bool) -> u64
    ensures { result ≡ flag test }
{
    u64::from(test)
}

// A flag by its number: 0 is no, every other number yes.
pub fn is_yes(code: u8) -> bool
    ensures { result ≡ yes code }
{
    code != 0
}

// The analysis by its number: 0 is off, 1 on, every other number simplified.
pub fn analysis_by(code: u8) -> Analysis
    ensures { result ≡ analysis_by code }
{
    match code {
        0 => Analysis::Off,
        1 => Analysis::On,
        _ => Analysis::Simplified,
    }
}

// The settings of a search by their numbers.
pub fn settings_by(
    full: u8,
    analysis: u8,
    at_last_level: u8,
    pass_budget: u64,
    total_budget: u64,
) -> Settings
    ensures { result ≡ settings_by full analysis at_last_level pass_budget total_budget }
{
    Settings {
        full: is_yes(full),
        analysis: analysis_by(analysis),
        at_last_level: is_yes(at_last_level),
        pass_budget,
        total_budget,
    }
}
