// The eighty rounds: FIPS 180-4, 6.1.2, 3, in four groups of one function f_t and one constant K_t each.
ghost use Rattle.std.specs.Prelude.{◌≡◌, ℕ, ◌+◌, ◌<◌, ◌≤◌};
ghost use Rattle.sha1_digest.specs.Sha1 as Sha1;

use crate::HashValue;
use crate::word::{ch, maj, parity};

#[tactic(auto, using(crate::proofs::WordLaws::sum_wraps))]
fn step(v: HashValue, f: u32, k: u32, w: u32) -> HashValue
    ensures { result ≡ Sha1.round_with f k w v }
{
    let a = v.a.rotate_left(5);
    HashValue {
        a: a.wrapping_add(f)
            .wrapping_add(v.e)
            .wrapping_add(k)
            .wrapping_add(w),
        b: v.a,
        c: v.b.rotate_left(30),
        d: v.c,
        e: v.d,
    }
}

// The twenty rounds from `first` on, all of which have the function f and the constant k. Where it is not inlined a digest takes 7 in a hundred longer.
#[inline(always)]
fn twenty_rounds<F: Fn(u32, u32, u32) -> u32>(
    f: F,
    k: u32,
    first: usize,
    h: HashValue,
    w: &[u32; 80],
) -> HashValue
    requires callable { F.IsAlwaysCallable f }
    requires function { (t x y z r : ℕ) → first ≤ t → t < first + 20 → F.post f x y z r → r ≡ Sha1.f t x y z }
    requires constant { (t : ℕ) → first ≤ t → t < first + 20 → k ≡ Sha1.K t }
    requires first_bound { first + 20 ≤ 80 }
    ensures { result ≡ Sha1.rounds w.now first 20 h }
{
    let mut v = h;
    for word in &w[first..first + 20] {
        v = step(v, f(v.b, v.c, v.d), k, *word);
    }
    v
}

#[tactic(auto, using(crate::proofs::RoundLaws::rounds_all), unfolding(crate::specs::Sha1::f, crate::specs::Sha1::K))]
pub(crate) fn eighty_rounds(h: HashValue, w: &[u32; 80]) -> HashValue
    ensures { result ≡ Sha1.rounds w.now 0 80 h }
{
    let v = twenty_rounds(ch, 0x5a82_7999, 0, h, w);
    let v = twenty_rounds(parity, 0x6ed9_eba1, 20, v, w);
    let v = twenty_rounds(maj, 0x8f1b_bcdc, 40, v, w);
    twenty_rounds(parity, 0xca62_c1d6, 60, v, w)
}
