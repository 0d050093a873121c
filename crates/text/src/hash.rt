// Hashes: 40 hexadecimal digits in lower case.
ghost use Rattle.std.specs.Prelude.{◌≡◌, ◌⊎◌, ◌<◌};
ghost use Rattle.text.specs.Hash.{digit_of, digit_at, octet_at, hash_at};

use crate::Read;

// How many bytes a hash has.
pub const HASH_BYTES: usize = 20;

// 0 to 9, or else what `hex_letter` says. It is asked beforehand: whether a character is a digit or a letter cannot be foreseen, and with both ranges
// in one `match` there would be a jump on it.
#[tactic(auto, unfolding(crate::specs::Hash::digit_of))]
fn hex_digit(b: u8) -> Option<u8>
    ensures { result ≡ digit_of b }
{
    let letter = hex_letter(b);
    match b {
        b'0'..=b'9' => Some(b - b'0'),
        _ => letter,
    }
}

// The letters count on from 10. What it says of 0 to 9 (48 to 57) is not used.
#[tactic(auto, unfolding(crate::specs::Hash::digit_of))]
fn hex_letter(b: u8) -> Option<u8>
    ensures { (b < 48) ⊎ (57 < b) → result ≡ digit_of b }
{
    match b {
        b'a'..=b'f' => Some(b - b'a' + 10),
        _ => None,
    }
}

#[tactic(auto, unfolding(crate::specs::Hash::digit_at))]
fn digit_at(s: &[u8], i: usize) -> Option<u8>
    ensures { result ≡ digit_at s.now i }
{
    hex_digit(*s.get(i)?)
}

// Two digits are a byte, the higher first; or the position of the one that is missing.
#[tactic(auto, using(crate::proofs::HashLaws::digit_within), unfolding(crate::specs::Hash::octet_at))]
fn octet_at(s: &[u8], i: usize) -> Result<u8, usize>
    ensures { result ≡ octet_at s.now i }
{
    let Some(high) = digit_at(s, i) else {
        return Err(i);
    };
    let Some(low) = digit_at(s, i + 1) else {
        return Err(i + 1);
    };
    Ok(high * 16 + low)
}

pub fn read_hash(s: &[u8], at: usize) -> Read<[u8; HASH_BYTES]>
    ensures { result ≡ hash_at s.now at }
{
    let mut bytes = [0u8; HASH_BYTES];
    let mut i = at;
    for byte in &mut bytes {
        *byte = octet_at(s, i)?;
        i += 2;
    }
    Ok((bytes, i))
}
