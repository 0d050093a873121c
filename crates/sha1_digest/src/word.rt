// Words of 32 bits: the functions of FIPS 180-4, 4.1.1, and the word of four bytes (3.1).
ghost use Rattle.std.specs.Prelude.{◌≡◌, ◌+◌, ◌≤◌, length};
ghost use Rattle.sha1_digest.specs.Sha1 as Sha1;

pub(crate) fn ch(x: u32, y: u32, z: u32) -> u32
    ensures { result ≡ Sha1.ch x y z }
{
    (x & y) ^ (!x & z)
}

pub(crate) fn parity(x: u32, y: u32, z: u32) -> u32
    ensures { result ≡ Sha1.parity x y z }
{
    x ^ y ^ z
}

pub(crate) fn maj(x: u32, y: u32, z: u32) -> u32
    ensures { result ≡ Sha1.maj x y z }
{
    (x & y) ^ (x & z) ^ (y & z)
}

// The word whose four bytes stand at i. With `from_be_bytes` here a digest takes 1 to 3 in a hundred longer: it is compiled to shuffles of bytes.
#[tactic(auto, using(crate::proofs::WordLaws::or_bytes))]
pub(crate) fn load(s: &[u8], i: usize) -> u32
    requires { i + 4 ≤ length s.now }
    ensures { result ≡ Sha1.word s.now i }
{
    (u32::from(s[i]) << 24)
        | (u32::from(s[i + 1]) << 16)
        | (u32::from(s[i + 2]) << 8)
        | u32::from(s[i + 3])
}
