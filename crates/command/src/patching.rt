// The patch that a line of `bsdiff` names: read again from the line where it is used, so that no command is larger for it.
ghost use Rattle.std.specs.Prelude.{◌≡◌};
ghost use Rattle.command.specs.Patching.{patching_of, result_hash};

use crate::NO_HASH;
use crate::field::{read_hash_field, read_number_field};
use text::hash::HASH_BYTES;

// Where the patch starts in the patch data, O, and its bytes, B; and where the two hashes stand in the line, with the space before them.
#[derive(Clone, Copy)]
pub struct Patching {
    pub start: u32,
    pub length: u32,
    pub hashes: usize,
}

const NO_PATCHING: Patching = Patching {
    start: 0,
    length: 0,
    hashes: 0,
};

// O and B of a line of `bsdiff`; zeros where the line has none.
#[tactic(auto, unfolding(crate::specs::Patching::patching_of, crate::specs::Patching::patching_from))]
pub fn read_patching(l: &[u8]) -> Patching
    ensures { result ≡ patching_of l.now }
{
    let Ok((start, i)) = read_number_field(l, b"bsdiff".len()) else {
        return NO_PATCHING;
    };
    let Ok((length, hashes)) = read_number_field(l, i) else {
        return NO_PATCHING;
    };
    Patching {
        start,
        length,
        hashes,
    }
}

// T, after H; zeros where the line has none.
#[tactic(auto, unfolding(crate::specs::Patching::result_hash))]
pub fn read_result_hash(l: &[u8], at: usize) -> [u8; HASH_BYTES]
    ensures { result ≡ result_hash l.now at }
{
    let Ok((_, i)) = read_hash_field(l, at) else {
        return NO_HASH;
    };
    let Ok(read) = read_hash_field(l, i) else {
        return NO_HASH;
    };
    let (digest, _) = read;
    digest
}
