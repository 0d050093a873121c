// A sparse file read over an image: both are read, the file is loaded over the image in memory, and the image is written back, or made
// where there is none.
ghost use Rattle.std.specs.Prelude.{◌≤◌};
ghost use Rattle.decisions.specs.Loading.{too_large};

use crate::files::open_update;
use crate::messages::Told;
use crate::read::{check_opened, fill, read_file};
use crate::standard::hold_standard;
use crate::write_back::{make_image, write_back};
use decisions::answer::loading_line;
use decisions::loading::{SPARSE_BYTES, TOO_LARGE, image_bytes};
use state::limits::BLOCK_BYTES;
use state::refusals::Reason;
use std::fs::File;
use std::rt::Files;

// A buffer has room for one byte too many, which tells a file that is too long.
const SPARSE_ROOM: usize = SPARSE_BYTES + 1;

// The files of a load. The copy is what is about to be written, kept while the image is written.
#[derive(Clone, Copy)]
pub struct Paths<'a> {
    pub file: &'a [u8],
    pub image: &'a [u8],
    pub copy: &'a [u8],
}

// An answer that cannot be printed is told nowhere.
fn say(rt: &impl Print, blocks: Result<usize, Reason>) {
    let line = loading_line(blocks);
    let _ = rt.write_all(&line.bytes[..line.length]);
}

fn write_image<R: Files + Eprint>(
    rt: &R,
    image_file: &mut Option<R::File>,
    paths: Paths,
    image: &[u8],
) -> Result<(), Told> {
    match image_file {
        Some(file) => write_back(rt, file, paths.image, paths.copy, image),
        None => make_image(rt, paths.image, paths.copy, image),
    }
}

// How long an image the file is read over, where m bytes were read of an image file, if there is one.
#[tactic(auto, using(decisions::proofs::LoadingLaws::image_found_most, decisions::proofs::LoadingLaws::image_new_most))]
fn image_length<F>(file: &[u8], image_file: &Option<F>, m: usize) -> usize
    requires { m ≤ too_large }
    ensures { result ≤ too_large }
{
    match image_file {
        Some(_) => image_bytes(file, Some(m)),
        None => image_bytes(file, None),
    }
}

// Where there is no image file, the image is zeros.
fn load_opened<R: Files + Print + Eprint>(
    rt: &R,
    file: &[u8],
    image_file: &mut Option<R::File>,
    paths: Paths,
) -> Result<(), Told> {
    let mut image = [0; TOO_LARGE];
    let m = fill(rt, image_file, paths.image, &mut image)?;
    let n = image_length(file, image_file, m);
    let image = &mut image[..n];
    match sparse::load(file, image) {
        Ok(()) => {
            write_image(rt, image_file, paths, image)?;
            say(rt, Ok(image.len() / BLOCK_BYTES));
        }
        Err(reason) => say(rt, Err(reason)),
    }
    Ok(())
}

fn load_files<R: Files<File = File> + Print + Eprint>(rt: &R, paths: Paths) -> Result<(), Told> {
    hold_standard(rt)?;
    let mut file = [0; SPARSE_ROOM];
    let file = read_file(rt, paths.file, &mut file)?;
    let mut image = check_opened(rt, open_update(rt, paths.image), paths.image)?;
    load_opened(rt, file, &mut image, paths)
}

// Reads a sparse file over an image file and prints the answer line. A file that is there and cannot be read, or an image that cannot be
// written, gets a message on standard error instead.
pub fn load_sparse<R: Files<File = File> + Print + Eprint>(rt: &R, paths: Paths) {
    let _ = load_files(rt, paths);
}
