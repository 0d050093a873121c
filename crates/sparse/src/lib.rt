// Sparse images: a file of chunks is read over a lent image.
#![tactic(auto)]

ghost use Rattle.std.specs.Prelude.{◌≡◌, length};
ghost use Rattle.state.specs.Refusals.{checked_number};
ghost use Rattle.sparse.specs.Loading.{load_refusal, loaded_image};

use crate::write::write_chunks;
use sparse_file::chunks::check_chunks;
use sparse_file::header::{check_header, check_image};
use state::refusals::Reason;

mod write;

// Whether a file can be read over an image of so many bytes. It goes over the whole file.
#[tactic(auto, unfolding(crate::specs::Loading::load_refusal))]
pub fn check_load(file: &[u8], image: usize) -> Result<(), Reason>
    ensures { checked_number result ≡ load_refusal file.now image }
{
    check_header(file)?;
    check_image(file, image)?;
    check_chunks(file)
}

// Reads a file over an image. A refusal changes nothing: the whole file is checked before a byte is written.
#[tactic(auto, using(crate::proofs::LoadingLaws::load_size, crate::proofs::LoadingLaws::image_loaded, crate::proofs::LoadingLaws::image_kept))]
pub fn load(file: &[u8], image: &mut [u8]) -> Result<(), Reason>
    ensures number { checked_number result ≡ load_refusal file.now (length image.old) }
    ensures image_after { image.new ≡ loaded_image file.now image.old }
{
    check_load(file, image.len())?;
    write_chunks(file, image);
    Ok(())
}
