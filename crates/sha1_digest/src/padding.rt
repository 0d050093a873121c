// The end of a message: FIPS 180-4, 5.1.1.
ghost use Rattle.std.specs.Prelude.{◌≡◌, ◌+◌, ◌<◌, length};
ghost use Rattle.sha1_digest.specs.Sha1 as Sha1;

use crate::HashValue;
use crate::block::hash;
use crate::hash_value::output;

// The length of a message's last n bytes, less than a block, with their padding.
fn padded_len(n: usize) -> usize
    requires { n < 64 }
    ensures { result ≡ n + 9 + Sha1.zero_bytes n }
{
    if n < 56 { 64 } else { 128 }
}

// The digest of a message of n bytes, modulo 2^64, where h has its whole blocks and rest is what is left.
pub(crate) fn close(h: HashValue, rest: &[u8], n: u64) -> [u8; 20]
    requires { length rest.now < 64 }
    ensures { result ≡ Sha1.output (Sha1.hash h (Sha1.padded rest.now n)) }
{
    let end = padded_len(rest.len());
    let mut b = [0u8; 128];
    b[..rest.len()].copy_from_slice(rest);
    b[rest.len()] = 0x80;
    b[end - 8..end].copy_from_slice(&(n << 3).to_be_bytes());
    output(hash(h, &b[..end]))
}
