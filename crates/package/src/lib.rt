// An update in four files: a transfer list, an image, new data and patch data. They are read, the list is run over the image in memory,
// and the image is written back. `load` does the same with a sparse file.
//
// No contract can speak of a file. What is decided about files is in the crate `decisions`, where each function has its equation.
#![tactic(auto)]

ghost use Rattle.std.specs.Prelude.{◌≤◌, length};
ghost use Rattle.decisions.specs.Program.{piece_bytes};

use crate::files::{open_read, open_update};
use crate::messages::Told;
use crate::read::{check_opened, fill, read_file};
use crate::standard::hold_standard;
use crate::write_back::write_back;
use decisions::answer::answer_line;
use decisions::{
    AREA_BYTES, IMAGE_BYTES, LIST_BYTES, PATCH_BYTES, calls_on, check_sizes, is_stop, open_list,
    patch_length,
};
use state::{Refusal, State};
use std::fs::File;
use std::io::Read;
use std::rt::Files;
use updater::{Called, Outcome, call};

mod files;
pub mod load;
mod messages;
mod read;
mod standard;
mod write_back;

// A buffer has room for one byte too many, which tells a file that is too long.
const LIST_ROOM: usize = LIST_BYTES + 1;

const IMAGE_ROOM: usize = IMAGE_BYTES + 1;

const PATCH_ROOM: usize = PATCH_BYTES + 1;

const PIECE_BYTES: usize = 4096;

// That stops, or a file, come to an end is no contract of one call or one read, so turns are counted.
const MOST_TURNS: u64 = 1 << 40;

// The files of an update. The copy is what is about to be written, kept while the image is written.
#[derive(Clone, Copy)]
pub struct Paths<'a> {
    pub list: &'a [u8],
    pub image: &'a [u8],
    pub data: &'a [u8],
    pub patch: &'a [u8],
    pub copy: &'a [u8],
}

// An answer that cannot be printed is told nowhere.
fn say(rt: &impl Print, outcome: Outcome, taken: u64) {
    let line = answer_line(outcome, taken);
    let _ = rt.write_all(&line.bytes[..line.length]);
}

fn say_refused(rt: &impl Print, refusal: Refusal) {
    say(rt, Outcome::Refused(refusal), 0);
}

// Calls with a piece, and after each stop with what is left of it.
fn call_on(
    list: &[u8],
    image: &mut [u8],
    stash: &mut [u8],
    work: &mut [u8],
    res: &mut [u8],
    patch: &[u8],
    piece: &[u8],
    state: &mut State,
) -> Called
    ensures { result.taken ≤ length piece.now }
{
    let mut taken = 0;
    let mut outcome = Outcome::More;
    for _ in 0..MOST_TURNS {
        let called = call(list, image, stash, work, res, patch, &piece[taken..], state);
        taken += called.taken;
        if !is_stop(called.outcome) {
            outcome = called.outcome;
            break;
        }
    }
    Called { outcome, taken }
}

// One piece after the other; the first is read already. What the calls came to, and all bytes taken. Of its own, so that a refusal needs no
// room for the areas.
#[inline(never)]
fn run<F: Read>(
    rt: &impl Eprint,
    list: &[u8],
    image: &mut [u8],
    patch: &[u8],
    piece: &mut [u8],
    first: usize,
    data: &mut Option<F>,
    data_path: &[u8],
    opened: State,
) -> Result<(Outcome, u64), Told>
    requires { (first ≤ length piece.old) × (length piece.old ≤ piece_bytes) }
{
    let mut stash = [0; AREA_BYTES];
    let mut work = [0; AREA_BYTES];
    let mut result = [0; AREA_BYTES];
    let mut state = opened;
    let mut n = first;
    let mut taken: u64 = 0;
    for _ in 0..MOST_TURNS {
        let called = call_on(
            list,
            image,
            &mut stash,
            &mut work,
            &mut result,
            patch,
            &piece[..n],
            &mut state,
        );
        taken += called.taken as u64;
        if !calls_on(called.outcome, n) {
            return Ok((called.outcome, taken));
        }
        n = fill(rt, data, data_path, piece)?;
    }
    Ok((Outcome::More, taken))
}

// Every file is read before anything is decided, the new data as far as its first piece. An image that is absent has no bytes to write.
fn update_opened<R: Files + Print + Eprint>(
    rt: &R,
    list: &[u8],
    patch: &[u8],
    image_file: &mut Option<R::File>,
    data: &mut Option<R::File>,
    paths: Paths,
) -> Result<(), Told> {
    let mut image = [0; IMAGE_ROOM];
    let mut piece = [0; PIECE_BYTES];
    let m = fill(rt, image_file, paths.image, &mut image)?;
    let n = fill(rt, data, paths.data, &mut piece)?;
    let image = &mut image[..m];
    if let Err(refused) = check_sizes(list.len(), m) {
        say_refused(rt, refused.refusal());
        return Ok(());
    }
    let opened = open_list(list, m, patch.len());
    if opened.refusal.number != 0 {
        say_refused(rt, opened.refusal);
        return Ok(());
    }
    let (outcome, taken) = run(
        rt, list, image, patch, &mut piece, n, data, paths.data, opened,
    )?;
    if let Some(file) = image_file {
        write_back(rt, file, paths.image, paths.copy, image)?;
    }
    say(rt, outcome, taken);
    Ok(())
}

fn update_files<R: Files<File = File> + Print + Eprint>(rt: &R, paths: Paths) -> Result<(), Told> {
    hold_standard(rt)?;
    let mut list = [0; LIST_ROOM];
    let list = read_file(rt, paths.list, &mut list)?;
    let mut patch = [0; PATCH_ROOM];
    let patch = read_file(rt, paths.patch, &mut patch)?;
    let patch = &patch[..patch_length(patch.len())];
    let mut image = check_opened(rt, open_update(rt, paths.image), paths.image)?;
    let mut data = check_opened(rt, open_read(rt, paths.data), paths.data)?;
    update_opened(rt, list, patch, &mut image, &mut data, paths)
}

// Applies an update and prints the answer line. A file that is there and cannot be read, or an image that cannot be written, gets a
// message on standard error instead.
pub fn update<R: Files<File = File> + Print + Eprint>(rt: &R, paths: Paths) {
    let _ = update_files(rt, paths);
}
