// Sums of numbers that nothing bounds.
ghost use Rattle.std.specs.Prelude.{◌≡◌, ◌+◌};
ghost use Rattle.state.specs.Sums.{bounded};

const BOUND: usize = 4294967296;

// A sum that stops at the bound.
pub fn bounded_sum(a: usize, b: usize) -> usize
    ensures { result ≡ bounded (a + b) }
{
    a.saturating_add(b).min(BOUND)
}
