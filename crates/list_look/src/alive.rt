// Whether a start is alive: a choice that no place is left to ends it.
ghost use Rattle.std.specs.Prelude.{◌≡◌};
ghost use Rattle.list_look.specs.steps.Look.{alive, alive_or};

// Whether every choice has a place left; a choice without a domain has none.
pub(crate) fn is_alive(choices: usize, domains: &[u64]) -> bool
    ensures { result ≡ alive choices domains.now }
{
    if domains.len() < choices {
        return false;
    }
    for choice in 0..choices {
        if domains[choice] == 0 {
            return false;
        }
    }
    true
}

// The domains of a start that is alive; a dead one has no place to go on to.
pub(crate) fn alive_or(choices: usize, domains: [u64; 64]) -> [u64; 64]
    ensures { result ≡ alive_or choices domains }
{
    if !is_alive(choices, &domains) {
        return [0u64; 64];
    }
    domains
}
