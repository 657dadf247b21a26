// Tests of numbers that many crates need, each said once: how far a base reaches, how long a record lasts.
#![tactic(auto)]

ghost use Rattle.std.specs.Prelude.{◌≡◌};
ghost use Rattle.rules.specs.Overlap.{reaches, lasts};

// Whether a base that ends at `until` reaches a record of its chromosome that starts at `start`.
pub fn reaches(until: u64, start: u64) -> bool
    ensures { result ≡ reaches until start }
{
    start < until
}

// Whether a record that ends at `stop` lasts to a base of its chromosome that starts at `from`.
pub fn lasts(from: u64, stop: u64) -> bool
    ensures { result ≡ lasts from stop }
{
    from < stop
}
