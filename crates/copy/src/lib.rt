// Bytes copied over an area.
#![tactic(auto)]

ghost use Rattle.std.specs.Prelude.{◌≡◌};
ghost use Rattle.copy.specs.Over.{front};

// All of `from` over the front of `to`, or as much of it as there is room for. A loop: `copy_from_slice` is compiled to a `memmove`, with which
// the raw chunks of a sparse file took 1.2 of the time.
#[tactic(auto, using(crate::proofs::OverLaws::front_more, crate::proofs::OverLaws::front_whole))]
pub fn copy_in(to: &mut [u8], from: &[u8])
    ensures { to.new ≡ front to.old from.now }
{
    for i in 0..to.len().min(from.len()) {
        to[i] = from[i];
    }
}
