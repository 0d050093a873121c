// Hash values: the initial one (FIPS 180-4, 5.3.1), the sum of two (6.1.2, 4), and the digest of the last.
ghost use Rattle.std.specs.Prelude.{◌≡◌};
ghost use Rattle.sha1_digest.specs.Sha1 as Sha1;

use crate::HashValue;

pub(crate) const INITIAL: HashValue = HashValue {
    a: 0x6745_2301,
    b: 0xefcd_ab89,
    c: 0x98ba_dcfe,
    d: 0x1032_5476,
    e: 0xc3d2_e1f0,
};

pub(crate) fn plus(h: HashValue, v: HashValue) -> HashValue
    ensures { result ≡ Sha1.plus h v }
{
    HashValue {
        a: h.a.wrapping_add(v.a),
        b: h.b.wrapping_add(v.b),
        c: h.c.wrapping_add(v.c),
        d: h.d.wrapping_add(v.d),
        e: h.e.wrapping_add(v.e),
    }
}

#[tactic(auto, using(crate::proofs::WordLaws::be_bytes_four), unfolding(crate::specs::Sha1::output, crate::specs::Sha1::bytes))]
pub(crate) fn output(h: HashValue) -> [u8; 20]
    ensures { result ≡ Sha1.output h }
{
    let words = [
        h.a.to_be_bytes(),
        h.b.to_be_bytes(),
        h.c.to_be_bytes(),
        h.d.to_be_bytes(),
        h.e.to_be_bytes(),
    ];
    let mut bytes = [0; 20];
    bytes.copy_from_slice(words.as_flattened());
    bytes
}
