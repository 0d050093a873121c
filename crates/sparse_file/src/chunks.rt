// All chunks of a sparse file, checked.
ghost use Rattle.std.specs.Prelude.{◌≡◌};
ghost use Rattle.state.specs.Refusals.{checked_number};
ghost use Rattle.sparse_file.specs.Chunks.{chunks_of};

use crate::chunk::read_chunk;
use crate::header::{HEADER_BYTES, total_blocks, total_chunks};
use state::refusals::Reason;

// What the first chunk that is refused is refused for, or the file at its end. A chunk takes bytes of the file, so these, and not the number
// that the header claims, bound the walk.
#[tactic(auto, using(crate::proofs::ChunksLaws::chunks_start, crate::proofs::ChunksLaws::chunks_bad, crate::proofs::ChunksLaws::blocks_missing, crate::proofs::ChunksLaws::bytes_left, crate::proofs::ChunksLaws::all_read))]
pub fn check_chunks(file: &[u8]) -> Result<(), Reason>
    ensures { checked_number result ≡ (chunks_of file.now).refusal }
{
    let total = total_blocks(file);
    let mut at = HEADER_BYTES;
    let mut first = 0;
    'chunks: for _ in 0..total_chunks(file) {
        let chunk = read_chunk(file, at, first, total)?;
        at = chunk.next;
        first += chunk.blocks;
    }
    if first != total || at != file.len() {
        return Err(Reason::SparseEnd);
    }
    Ok(())
}
