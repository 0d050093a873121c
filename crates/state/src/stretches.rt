// The stretches in which a `free` moves the younger stashes down over the gap, each as long as the gap, the last perhaps shorter.
ghost use Rattle.std.specs.Prelude.{◌≡◌};
ghost use Rattle.state.specs.Stretches.{is_stretch, stretch_blocks};

// Stretch k is there to be moved. Every k gets an answer: where the product of k and the gap does not fit in a number, all is moved before it.
#[tactic(auto, unfolding(crate::specs::Stretches::is_stretch))]
pub fn is_stretch(gap: usize, younger: usize, k: usize) -> bool
    ensures { result ≡ is_stretch gap younger k }
{
    gap > 0 && k.checked_mul(gap).is_some_and(|moved| moved < younger)
}

// Its blocks.
#[tactic(auto, unfolding(crate::specs::Stretches::stretch_blocks))]
pub fn stretch_blocks(gap: usize, younger: usize, k: usize) -> usize
    ensures { result ≡ stretch_blocks gap younger k }
{
    gap.min(younger.saturating_sub(k.saturating_mul(gap)))
}
