// SHA-1 (FIPS 180-4): `digest` of a whole message, and `start`, `absorb` and `finish` of one that
// comes in pieces of whole 64-byte blocks. No public function has a `requires`.
#![tactic(auto)]

mod block;
mod hash_value;
mod padding;
mod rounds;
mod schedule;
mod word;

ghost use Rattle.std.specs.Prelude.{◌≡◌};
ghost use Rattle.sha1_digest.specs.Sha1.{sha1};
ghost use Rattle.sha1_digest.specs.Pieces.{started, absorbed, finished};

// A hash value: FIPS's H0 to H4, and its working variables a to e.
#[derive(Clone, Copy)]
pub struct HashValue {
    pub a: u32,
    pub b: u32,
    pub c: u32,
    pub d: u32,
    pub e: u32,
}

// What a message's first pieces come to: the hash value, and how many bytes they have, modulo 2^64.
#[derive(Clone, Copy)]
pub struct Hasher {
    pub value: HashValue,
    pub count: u64,
}

// The digest of s.
pub fn digest(s: &[u8]) -> [u8; 20]
    ensures { result ≡ sha1 s.now }
{
    let h = block::hash(hash_value::INITIAL, s);
    padding::close(h, s.chunks_exact(64).remainder(), s.len() as u64)
}

// A hasher that has taken in nothing.
pub fn start() -> Hasher
    ensures { result ≡ started }
{
    Hasher {
        value: hash_value::INITIAL,
        count: 0,
    }
}

// Takes in the whole 64-byte blocks of s, and leaves out the bytes past the last one.
pub fn absorb(h: Hasher, s: &[u8]) -> Hasher
    ensures { result ≡ absorbed h s.now }
{
    let taken = s.len() / 64 * 64;
    Hasher {
        value: block::hash(h.value, s),
        count: h.count.wrapping_add(taken as u64),
    }
}

// The digest of what was taken in.
pub fn finish(h: Hasher) -> [u8; 20]
    ensures { result ≡ finished h }
{
    padding::close(h.value, b"", h.count)
}
