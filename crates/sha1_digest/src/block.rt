// Blocks of 64 bytes: FIPS 180-4, 6.1.2.
ghost use Rattle.std.specs.Prelude.{◌≡◌, length};
ghost use Rattle.sha1_digest.specs.Sha1 as Sha1;

use crate::HashValue;
use crate::hash_value::plus;
use crate::rounds::eighty_rounds;
use crate::schedule::schedule;

// h taken on by a block.
#[tactic(auto, unfolding(crate::specs::Sha1::compress))]
fn compress(h: HashValue, block: &[u8]) -> HashValue
    requires { length block.now ≡ 64 }
    ensures { result ≡ Sha1.compress h block.now 0 }
{
    let mut w = [0u32; 80];
    schedule(&mut w, block);
    plus(h, eighty_rounds(h, &w))
}

// h taken on by every whole block of s.
#[tactic(auto, using(crate::proofs::BlockLaws::hash_cons, crate::proofs::BlockLaws::hash_short))]
pub(crate) fn hash(h: HashValue, s: &[u8]) -> HashValue
    ensures { result ≡ Sha1.hash h s.now }
{
    let mut v = h;
    for block in s.chunks_exact(64) {
        v = compress(v, block);
    }
    v
}
