// What is decided about the files of a load.
ghost use Rattle.std.specs.Prelude.{◌≡◌};
ghost use Rattle.decisions.specs.Loading.{image_bytes};

use crate::{IMAGE_BLOCKS, IMAGE_BYTES};
use sparse_file::header::total_blocks;
use state::limits::BLOCK_BYTES;

pub const SPARSE_BYTES: usize = 2 * IMAGE_BYTES;

// The length of an image that no header names.
pub const TOO_LARGE: usize = IMAGE_BYTES + 1;

// How long an image the file is read over: as the one that was found, else as the header says.
#[tactic(auto, unfolding(crate::specs::Loading::image_bytes))]
pub fn image_bytes(file: &[u8], found: Option<usize>) -> usize
    ensures { result ≡ image_bytes file.now found }
{
    if SPARSE_BYTES < file.len() {
        return TOO_LARGE;
    }
    if let Some(image) = found {
        return image;
    }
    let blocks = total_blocks(file) as usize;
    if IMAGE_BLOCKS < blocks {
        return TOO_LARGE;
    }
    BLOCK_BYTES * blocks
}
