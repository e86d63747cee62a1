ghost use Rattle.std.specs.Prelude.{◌≡◌, ◌≤◌, ◌+◌};

/// What a check took.
#[derive(Debug, Clone, Copy, PartialEq, Eq)]
pub struct Count {
    /// How many comparisons its look-ups made, of frames, outside pages and rows.
    pub probes: u64,
    /// How many bytes of bodies it handed to `paint`.
    pub steps: u64,
}

// The sum of two counts.
pub fn together(some: Count, more: Count) -> Count
    ensures probes { some.probes + more.probes ≤ 18446744073709551615 → result.probes ≡ some.probes + more.probes }
    ensures steps { some.steps + more.steps ≤ 18446744073709551615 → result.steps ≡ some.steps + more.steps }
{
    Count {
        probes: some.probes.saturating_add(more.probes),
        steps: some.steps.saturating_add(more.steps),
    }
}
