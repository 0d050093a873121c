// The digest of an area's blocks.
ghost use Rattle.std.specs.Prelude.{◌≡◌, ◌*◌, ◌/◌, ◌≤◌, length};
ghost use Rattle.ranges.specs.Walk.{blocks_at, AllBelow};
ghost use Rattle.state.specs.Limits.{block_bytes};
ghost use Rattle.state.specs.Refusals.{checked_number};
ghost use Rattle.updater.specs.Source.{hashes_to, blocks_hash_to};
ghost use Rattle.updater.specs.Effect.{hash_refusal};

use ranges::walk::{next_block, walk_from};
use sha1_digest::{absorb, digest, finish, start};
use state::limits::{BLOCK_BYTES, HASH_BYTES};
use state::refusals::Reason;

// The first n blocks of an area must have the given hash.
#[tactic(auto, using(state::proofs::StashLaws::same_pointwise), unfolding(crate::specs::Source::hashes_to))]
pub(crate) fn check_hash(area: &[u8], n: usize, hash: [u8; HASH_BYTES]) -> Result<(), Reason>
    requires { block_bytes * n ≤ length area.now }
    ensures { checked_number result ≡ hash_refusal (hashes_to area.now n hash) }
{
    let size = BLOCK_BYTES * n;
    let found = digest(&area[..size]);
    if found == hash {
        return Ok(());
    }
    Err(Reason::HashDiffers)
}

// The blocks of the set at a position of the line have the given hash. They are hashed where they lie.
pub(crate) fn set_has_hash(image: &[u8], l: &[u8], at: usize, hash: [u8; HASH_BYTES]) -> bool
    requires { AllBelow (length image.now / block_bytes) (blocks_at l.now at) }
    ensures { result ≡ blocks_hash_to (blocks_at l.now at) image.now hash }
{
    let mut hasher = start();
    let mut w = walk_from(l, at);
    while let Some((b, rest)) = next_block(l, w) {
        let from = BLOCK_BYTES * b as usize;
        let end = from + BLOCK_BYTES;
        hasher = absorb(hasher, &image[from..end]);
        w = rest;
    }
    finish(hasher) == hash
}
