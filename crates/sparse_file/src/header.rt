// The header of a sparse file.
ghost use Rattle.std.specs.Prelude.{◌≡◌};
ghost use Rattle.state.specs.Refusals.{checked_number};
ghost use Rattle.sparse_file.specs.Header.{total_blocks, total_chunks, header_refusal, image_refusal};

use little_endian::{read_u16, read_u32};
use state::limits::{BLOCK_BYTES, MOST_IMAGE_BLOCKS};
use state::refusals::Reason;

pub const HEADER_BYTES: usize = 28;

pub const CHUNK_HEADER_BYTES: usize = 12;

const SPARSE_MARK: u32 = 0xED26FF3A;

const SPARSE_MAJOR: u16 = 1;

pub fn total_blocks(file: &[u8]) -> u32
    ensures { result ≡ total_blocks file.now }
{
    read_u32(file, 16)
}

pub fn total_chunks(file: &[u8]) -> u32
    ensures { result ≡ total_chunks file.now }
{
    read_u32(file, 20)
}

// What the header is refused for.
#[tactic(auto, unfolding(crate::specs::Header::header_refusal))]
pub fn check_header(file: &[u8]) -> Result<(), Reason>
    ensures { checked_number result ≡ header_refusal file.now }
{
    if file.len() < HEADER_BYTES
        || read_u32(file, 0) != SPARSE_MARK
        || read_u16(file, 4) != SPARSE_MAJOR
    {
        return Err(Reason::SparseHeader);
    }
    if read_u16(file, 8) as usize != HEADER_BYTES
        || read_u16(file, 10) as usize != CHUNK_HEADER_BYTES
        || read_u32(file, 12) as usize != BLOCK_BYTES
    {
        return Err(Reason::SparseSizes);
    }
    Ok(())
}

// Whether an image of so many bytes has the header's blocks.
#[tactic(auto, unfolding(crate::specs::Header::image_refusal))]
pub fn check_image(file: &[u8], bytes: usize) -> Result<(), Reason>
    ensures { checked_number result ≡ image_refusal (total_blocks file.now) bytes }
{
    let total = total_blocks(file) as usize;
    if bytes != BLOCK_BYTES * total || MOST_IMAGE_BLOCKS < total {
        return Err(Reason::SparseImage);
    }
    Ok(())
}
